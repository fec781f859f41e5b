ghost use Rattle.std.specs.Prelude.{◌≡◌, ℕ};
ghost use Rattle.memory.specs.Memory.{Memory, Shaped, block_at, with_block};

use crate::number::BlockNumber;

// A store of blocks. `blocks` is what an implementation means; one is lawful when the law and both contracts are shown of it.
pub trait Store {
    ghost blocks: { Self → Memory };

    // Reading gives a block and changes nothing.
    fn read(&self, b: BlockNumber) -> [u8; 16]
        ensures { result ≡ block_at (blocks self.now) b.index };

    // Writing replaces that block and no other.
    fn write(&mut self, b: BlockNumber, block: &[u8; 16])
        ensures { blocks self.new ≡ with_block (blocks self.old) b.index block.now };

    ghost shaped: { (s : Self) → Shaped (blocks s) };
}
