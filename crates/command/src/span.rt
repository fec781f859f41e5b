ghost use Rattle.std.specs.Prelude.{◌≡◌, ℕ, ◌+◌, ◌≤◌, Bool, length};
ghost use Rattle.memory.specs.declared.number.BlockNumber.{BlockNumber};
ghost use Rattle.command.specs.Barred.{touches};
ghost use Rattle.command.specs.Blocks.{user_end};

use memory::{Address, BlockNumber};

// The bytes of user blocks that a command names.
#[derive(Clone, Copy, Debug, PartialEq, Eq)]
pub struct Span {
    pub start: Address,
    pub count: usize,
    ghost some: { 1 ≤ count },
    ghost few: { count ≤ 251 },
    ghost within: { start.at + count ≤ user_end },
}

// What an update writes, and over which bytes. The data is lent from the command.
#[derive(Clone, Copy, Debug, PartialEq, Eq)]
pub struct Update<'a> {
    pub span: Span,
    pub data: &'a [u8],
    ghost whole: { length «data».now ≡ span.count },
}

impl Span {
    // Whether one of the blocks that hold the bytes passes the test.
    pub(crate) fn any_block<F: Fn(BlockNumber) -> bool>(self, test: F) -> bool
        requires { F.IsAlwaysCallable test }
        ensures { (p : ℕ → Bool) → ((b : BlockNumber) (r : Bool) → F.post test b r → r ≡ p b.index) → result ≡ touches p self.start.at self.count }
    {
        let (first, offset) = self.start.lookup();
        let blocks = (offset + self.count - 1) / 16 + 1;
        let first = first.index();
        (first..first + blocks as u8)
            .map(BlockNumber::known)
            .any(test)
    }
}
