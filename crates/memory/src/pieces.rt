ghost use Rattle.std.specs.Prelude.{◌≡◌, ◌+◌, ◌-◌, ◌*◌, ◌<◌, ◌≤◌, MatchOption};
ghost use Rattle.std.specs.Iterator.{at_most};
ghost use Rattle.memory.specs.Memory.{block_size, memory_size};

use crate::address::Address;
use crate::number::BlockNumber;
use std::ops::Range;

// What a range of bytes takes of one block, and where in the range that lies.
#[derive(Drop)]
pub(crate) struct Piece {
    pub(crate) block: BlockNumber,
    pub(crate) in_block: Range<usize>,
    pub(crate) in_range: Range<usize>,
}

// The pieces of a range, in the order of its bytes: each has what is left of a block, or of the range.
#[derive(Drop)]
pub(crate) struct Pieces {
    start: usize,
    len: usize,
    done: usize,
    ghost within: { start + len ≤ memory_size },
    ghost so_far: { done ≤ len },
}

impl Pieces {
    pub(crate) fn new(start: Address, len: usize) -> Pieces
        requires { start.at + len ≤ memory_size }
        ensures start { result.start ≡ start.at }
        ensures len { result.len ≡ len }
        ensures done { result.done ≡ 0 }
    {
        Pieces {
            start: start.value() as usize,
            len,
            done: 0,
        }
    }
}

impl Iterator for Pieces {
    type Item = Piece;

    ghost next_gives = { λ s r t. (t.start ≡ s.start) × (t.len ≡ s.len) × MatchOption r ((s.done ≡ s.len) × (t.done ≡ s.done))
        (λ p. (s.done < t.done) × (p.in_range.start ≡ s.done) × (p.in_range.end ≡ t.done)
        × (block_size * p.block.index + p.in_block.start ≡ s.start + s.done)
        × (p.in_block.end ≡ p.in_block.start + (t.done - s.done)) × (p.in_block.end ≤ block_size)) };

    ghost remaining = { λ s. at_most (s.len - s.done) };

    fn next(&mut self) -> Option<Piece> {
        let done = self.done;
        if done == self.len {
            return None;
        }
        let (block, offset) = Address::known((self.start + done) as u16).lookup();
        let n = (16 - offset).min(self.len - done);
        self.done = done + n;
        Some(Piece {
            block,
            in_block: offset..offset + n,
            in_range: done..done + n,
        })
    }
}
