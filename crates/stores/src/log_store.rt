ghost use Rattle.std.specs.Prelude.{◌≡◌, ◌<◌, ◌≤◌, [], length};
ghost use Rattle.memory.specs.Memory.{block_at, block_count, with_block, zeros};
ghost use Rattle.stores.specs.Log.{entries, log_blocks, newest, fold, capacity, with_room, NewestEntryCounts, Logged};
ghost use Rattle.memory.proofs.Shapes.{shaped_zeros};
ghost use Rattle.stores.specs.Replays.{shaped_replayed};

use crate::entry::Entry;
use crate::load::Load;
use crate::log::LogStore;
use arrayvec::ArrayVec;
use memory::{Address, BlockNumber, Refusal, Store, write_bytes};

impl LogStore {
    // The newest entry of a block, if it has one.
    fn newest(&self, b: BlockNumber) -> Option<Entry>
        ensures { result ≡ newest (entries self.now) b.index }
    {
        self.log.iter().rev().find(|e| e.block == b).copied()
    }

    // Keeps the newest entry of each block, and no other. A loop: `extend` of a vector of fixed capacity tells of failing, and not that there was room.
    fn fold(&mut self)
        ensures entries { entries self.new ≡ fold block_count (entries self.old) }
        ensures count { length (entries self.new) ≤ block_count }
    {
        let mut kept = ArrayVec::new();
        for i in 0..32 {
            if let Some(e) = self.newest(BlockNumber::known(i)) {
                kept.push(e);
            }
        }
        self.log = kept;
    }

    // A full log is folded before a write goes on.
    fn make_room(&mut self)
        ensures entries { entries self.new ≡ with_room (entries self.old) }
        ensures room { length (entries self.new) < capacity }
    {
        if self.log.is_full() {
            self.fold();
        }
    }

    // A block without an entry holds zeros.
    fn newest_bytes(&self, b: BlockNumber) -> [u8; 16]
        ensures { result ≡ block_at (log_blocks self.now) b.index }
    {
        match self.newest(b) {
            Some(e) => e.bytes,
            None => [0; 16],
        }
    }

    fn log_write(&mut self, b: BlockNumber, block: &[u8; 16])
        ensures blocks { log_blocks self.new ≡ with_block (log_blocks self.old) b.index block.now }
        ensures logged { Logged (entries self.old) b.index block.now (entries self.new) }
    {
        self.make_room();
        self.log.push(Entry {
            block: b,
            bytes: *block,
        });
    }
}

impl Store for LogStore {
    ghost blocks = { log_blocks };

    ghost shaped = { λ s. shaped_replayed zeros (entries s) shaped_zeros };

    fn read(&self, b: BlockNumber) -> [u8; 16] {
        self.newest_bytes(b)
    }

    fn write(&mut self, b: BlockNumber, block: &[u8; 16])
        ensures blocks { log_blocks self.new ≡ with_block (log_blocks self.old) b.index block.now }
        ensures logged { Logged (entries self.old) b.index block.now (entries self.new) }
    {
        self.log_write(b, block);
    }
}

impl Load for LogStore {
    // A log without entries, since a block without one holds zeros.
    fn zeros() -> LogStore
        ensures blocks { log_blocks result ≡ zeros }
        ensures none { entries result ≡ [] }
    {
        LogStore {
            log: ArrayVec::new(),
        }
    }

    // An entry for each block. The length comes first, so that nothing is written for an image that is refused.
    fn load(image: &[u8]) -> Result<LogStore, Refusal> {
        if image.len() != 512 {
            return Err(Refusal::NotImageSized);
        }
        let mut store = LogStore::zeros();
        match write_bytes(&mut store, Address::ZERO, image) {
            Ok(()) => Ok(store),
            Err(_) => Err(Refusal::NotImageSized),
        }
    }
}

// What a log means, in other words than its replay.
pub fn newest_entry_counts()
    ensures { NewestEntryCounts }
{}
