ghost use Rattle.std.specs.Prelude.{◌≡◌, ℕ, ◌/◌, ◌%◌, ◌^◌, ◌<◌, true, false, length, if◌then◌else◌};
ghost use Rattle.memory.specs.Memory.{block_size};
ghost use Rattle.system.specs.Protection.{rorf, rosi, security, flagged, read_only, closed, may_read, may_write, user_blocks, Figure};
ghost use Rattle.system.specs.Words.{Word};

use crate::figure::Writable;
use memory::BlockNumber;

// The user blocks, 0 to 26, a bit for each.
const USER_BLOCKS: u32 = 0x07FF_FFFF;

// Block 31: which blocks frames may read and write. (Of 16 bytes as `Identity` is, which tells why they share no type.)
#[derive(Clone, Copy, PartialEq, Eq, Debug)]
pub struct Protection {
    bytes: [u8; 16],
    ghost whole: { length bytes ≡ block_size },
}

// Whether a field of four bytes has the bit of a block.
#[tactic(auto, unfolding(crate::specs::Protection::flagged))]
fn is_set(field: &[u8; 4], b: BlockNumber) -> bool
    ensures { result ≡ flagged field.now b.index }
{
    let byte = field[b.index() as usize / 8];
    (byte >> (b.index() % 8)) % 2 == 1
}

// A field of four bytes as one word, bit b of it being the bit of block b.
fn word(field: &[u8; 4]) -> u32
    ensures { Word field.now result }
{
    u32::from_le_bytes(*field)
}

impl Protection {
    pub fn new(block: &[u8; 16]) -> Protection
        ensures { result.bytes ≡ block.now }
    {
        Protection { bytes: *block }
    }

    // RORF: a bit for each read-only block.
    pub fn rorf(&self) -> &[u8; 4]
        ensures { result.now ≡ rorf self.now.bytes }
    {
        self.bytes[0..4].as_array().unwrap()
    }

    // ROSI: kept, and of no effect on frames.
    pub fn rosi(&self) -> &[u8; 4]
        ensures { result.now ≡ rosi self.now.bytes }
    {
        self.bytes[4..8].as_array().unwrap()
    }

    // SECURITY: a bit for each block that is closed unless it is read-only.
    pub fn security(&self) -> &[u8; 4]
        ensures { result.now ≡ security self.now.bytes }
    {
        self.bytes[8..12].as_array().unwrap()
    }

    pub fn is_read_only(&self, b: BlockNumber) -> bool
        ensures { result ≡ read_only self.now.bytes b.index }
    {
        b.index() < 27 && is_set(self.rorf(), b)
    }

    pub fn is_closed(&self, b: BlockNumber) -> bool
        ensures { result ≡ closed self.now.bytes b.index }
    {
        b.index() < 27 && is_set(self.security(), b) && !is_set(self.rorf(), b)
    }

    // Whether a frame may read the block.
    pub fn may_read(&self, b: BlockNumber) -> bool
        ensures { result ≡ may_read self.now.bytes b.index }
    {
        b.index() < 27 && !self.is_closed(b)
    }

    // Whether a frame may write the block.
    pub fn may_write(&self, b: BlockNumber) -> bool
        ensures { result ≡ may_write self.now.bytes b.index }
    {
        b.index() < 27 && !is_set(self.rorf(), b) && !is_set(self.security(), b)
    }

    // The mask of the user blocks that have neither bit.
    fn unprotected(&self) -> u32
        ensures small { result < 2 ^ user_blocks }
        ensures bits { (b : ℕ) → b < user_blocks → result / 2 ^ b % 2 ≡ (if may_write self.now.bytes b then 1 else 0) }
    {
        !(word(self.rorf()) | word(self.security())) & USER_BLOCKS
    }

    // The figure for the bench: the mask's ones, and the place of its lowest.
    pub fn writable(&self) -> Writable
        ensures { Figure self.now.bytes result }
    {
        let mask = self.unprotected();
        let lowest = mask.trailing_zeros();
        Writable {
            count: mask.count_ones(),
            lowest: (lowest < 27).then(|| BlockNumber::known(lowest as u8)),
        }
    }
}
