ghost use Rattle.tag.specs.History.{bench_read, bench_write, bench_writable, bench_performed};
ghost use Rattle.tag.specs.View.{Called};

use crate::state::Tag;
use memory::{BlockNumber, Refusal, Store};
use system::Writable;

// The bench reads and writes any block at any time, past all protection.
impl<S: Store> Tag<S> {
    // Reads a block into a buffer of 16 bytes.
    pub fn bench_read(&self, block: u16, out: &mut [u8]) -> Result<(), Refusal>
        ensures { Called S.blocks self.now (bench_read block out.old result out.new) self.now }
    {
        let number = BlockNumber::try_from(block)?;
        if out.len() != 16 {
            return Err(Refusal::NotBlockSized);
        }
        out.copy_from_slice(&self.store.read(number));
        Ok(())
    }

    // Writes a block of 16 bytes.
    pub fn bench_write(&mut self, block: u16, bytes: &[u8]) -> Result<(), Refusal>
        ensures { Called S.blocks self.old (bench_write block bytes.now result) self.new }
    {
        let number = BlockNumber::try_from(block)?;
        let Ok(whole) = <&[u8; 16]>::try_from(bytes) else {
            return Err(Refusal::NotBlockSized);
        };
        self.store.write(number, whole);
        Ok(())
    }

    // How many user blocks frames may write now, and the lowest of them. With the field off that is 0 and none.
    pub fn bench_writable(&self) -> Writable
        ensures { Called S.blocks self.now (bench_writable result) self.now }
    {
        match &self.power {
            None => Writable {
                count: 0,
                lowest: None,
            },
            Some(power) => power.copy.protection.writable(),
        }
    }

    // How many commands of Type B the tag has performed; after the last number of 64 bits it goes on from 0.
    pub fn bench_performed(&self) -> u64
        ensures { Called S.blocks self.now (bench_performed result) self.now }
    {
        self.performed
    }
}
