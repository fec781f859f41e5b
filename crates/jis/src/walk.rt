ghost use Rattle.std.specs.Prelude.{◌≡◌, ◌≤◌, true, length};
ghost use Rattle.std.specs.Iterator.{YieldsFirstBy, item_count};
ghost use Rattle.jis.specs.Elements.{TakenOff, numbers, sound, width};
ghost use Rattle.jis.specs.Walk.{numbers_left};

use crate::blocks::Blocks;
use crate::elements::element_size;
use memory::BlockNumber;

impl<'a> Blocks<'a> {
    // The list of a command: so many elements, which these bytes make.
    #[tactic(auto, using(crate::proofs::Listing::numbers_length))]
    pub fn new(bytes: &'a [u8], count: usize) -> Blocks<'a>
        requires few { count ≤ 15 }
        requires whole { width count bytes.now ≡ length bytes.now }
        requires each { sound count bytes.now ≡ true }
        ensures items { numbers_left result ≡ numbers count bytes.now }
        ensures len { length (numbers_left result) ≡ count }
        ensures bytes { result.bytes.now ≡ bytes.now }
        ensures count { result.left ≡ count }
    {
        Blocks { bytes, left: count }
    }

    // The bytes of the elements that are left, one behind the other.
    pub fn as_bytes(&self) -> &'a [u8]
        ensures { result.now ≡ self.now.bytes.now }
    {
        let Blocks { bytes, .. } = *self;
        bytes
    }
}

impl<'a> Iterator for Blocks<'a> {
    type Item = BlockNumber;

    ghost next_gives = { YieldsFirstBy (λ b. b.index) numbers_left };

    ghost remaining = { item_count numbers_left };

    fn next(&mut self) -> Option<BlockNumber> {
        if self.left == 0 {
            return None;
        }
        let (number, rest) = taken_off(self.bytes, self.left);
        self.bytes = rest;
        self.left -= 1;
        Some(BlockNumber::known(number))
    }
}

impl<'a> ExactSizeIterator for Blocks<'a> {
    #[tactic(auto, using(crate::proofs::Listing::numbers_length))]
    fn len(&self) -> usize {
        self.left
    }
}

// The number of the first element, and the list behind it.
#[tactic(auto, using(crate::proofs::Listing::first_fits, crate::proofs::Listing::size_ge))]
fn taken_off<'a>(bytes: &'a [u8], m: usize) -> (u8, &'a [u8])
    requires some { 1 ≤ m }
    requires whole { width m bytes.now ≡ length bytes.now }
    requires each { sound m bytes.now ≡ true }
    ensures { TakenOff m bytes.now result.0 result.1.now }
{
    let (_, rest) = bytes.split_at(element_size(bytes[0]));
    (bytes[1], rest)
}
