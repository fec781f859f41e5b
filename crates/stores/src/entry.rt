ghost use Rattle.std.specs.Prelude.{◌≡◌, length};
ghost use Rattle.memory.specs.Memory.{block_size};

use memory::BlockNumber;

// One write in a log: the block's number and its 16 bytes.
#[derive(Clone, Copy, Debug, PartialEq, Eq)]
pub struct Entry {
    pub block: BlockNumber,
    pub bytes: [u8; 16],
    ghost whole: { length bytes ≡ block_size },
}

// A write of zeros to the first block: what fills the free places of a log.
impl Default for Entry {
    fn default() -> Self {
        Entry {
            block: BlockNumber::known(0),
            bytes: [0; 16],
        }
    }
}
