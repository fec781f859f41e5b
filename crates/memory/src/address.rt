ghost use Rattle.std.specs.Prelude.{◌≡◌, ◌+◌, ◌<◌, ◌≤◌, MatchResult};
ghost use Rattle.memory.specs.Memory.{memory_size, block_of, offset_of};

use crate::number::BlockNumber;
use crate::past_end::PastEnd;

// The address of a byte, 0 to 511 once it is made. Addresses count bytes and block numbers count blocks: `lookup` is the only way
// from one to the other.
#[derive(Clone, Copy, Debug, PartialEq, Eq, PartialOrd, Ord)]
pub struct Address {
    at: u16,
    ghost within: { at < memory_size },
}

impl Address {
    // The address of the first byte.
    pub const ZERO: Address = Address { at: 0 };

    // An address that is known to be one.
    pub(crate) fn known(at: u16) -> Address
        requires { at < memory_size }
        ensures { result.at ≡ at }
    {
        Address { at }
    }

    // So many bytes from the address on have to lie in the memory.
    pub(crate) fn check_room(self, len: usize) -> Result<(), PastEnd>
        ensures { MatchResult result (λ _. self.at + len ≤ memory_size) (λ _. memory_size < self.at + len) }
    {
        if len > 512 - self.value() as usize {
            return Err(PastEnd);
        }
        Ok(())
    }

    pub fn value(self) -> u16
        ensures { result ≡ self.at }
    {
        self.at
    }

    // The block that holds the byte, and the byte's offset in it.
    pub fn lookup(self) -> (BlockNumber, usize)
        ensures block { result.0.index ≡ block_of self.at }
        ensures offset { result.1 ≡ offset_of self.at }
    {
        (
            BlockNumber::known((self.value() / 16) as u8),
            (self.value() % 16) as usize,
        )
    }
}

// The address of that value, if the memory has it.
impl TryFrom<u16> for Address {
    type Error = PastEnd;

    ghost try_from_gives = { λ at r. MatchResult r (λ a. (at < memory_size) × (a.at ≡ at)) (λ _. memory_size ≤ at) };

    fn try_from(at: u16) -> Result<Self, PastEnd> {
        if at < 512 {
            Ok(Address { at })
        } else {
            Err(PastEnd)
        }
    }
}
