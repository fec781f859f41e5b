ghost use Rattle.std.specs.Prelude.{◌≡◌, ◌<◌, ◌≤◌, MatchResult};
ghost use Rattle.memory.specs.Memory.{block_count};
ghost use Rattle.memory.specs.declared.refusal.Refusal.TheVariants.{NoSuchBlock};

use crate::refusal::Refusal;

// The number of a block, 0 to 31 once it is made.
#[derive(Clone, Copy, Debug, PartialEq, Eq, PartialOrd, Ord)]
pub struct BlockNumber {
    index: u8,
    ghost within: { index < block_count },
}

impl BlockNumber {
    // The block of a number that is known to be one.
    pub fn known(index: u8) -> BlockNumber
        requires { index < block_count }
        ensures { result.index ≡ index }
    {
        BlockNumber { index }
    }

    pub fn index(self) -> u8
        ensures { result ≡ self.index }
    {
        self.index
    }
}

// The block of that number, if the memory has it.
impl TryFrom<u16> for BlockNumber {
    type Error = Refusal;

    ghost try_from_gives = { λ number r. MatchResult r (λ b. (number < block_count) × (b.index ≡ number)) (λ e. (block_count ≤ number) × (e ≡ NoSuchBlock)) };

    fn try_from(number: u16) -> Result<Self, Refusal> {
        if number < 32 {
            Ok(BlockNumber {
                index: number as u8,
            })
        } else {
            Err(Refusal::NoSuchBlock)
        }
    }
}
