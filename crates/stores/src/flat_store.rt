ghost use Rattle.stores.specs.Flat.{flat_blocks};

use crate::flat::FlatStore;
use crate::load::Load;
use memory::{BlockNumber, Refusal, Store};

impl Store for FlatStore {
    ghost blocks = { flat_blocks };

    ghost shaped = { λ s. s.sized };

    fn read(&self, b: BlockNumber) -> [u8; 16] {
        self.blocks[b.index() as usize]
    }

    fn write(&mut self, b: BlockNumber, block: &[u8; 16]) {
        self.blocks[b.index() as usize] = *block;
    }
}

impl Load for FlatStore {
    fn zeros() -> FlatStore {
        FlatStore {
            blocks: [[0; 16]; 32],
        }
    }

    fn load(image: &[u8]) -> Result<FlatStore, Refusal> {
        let (blocks, rest) = image.as_chunks::<16>();
        match <[[u8; 16]; 32]>::try_from(blocks) {
            Ok(blocks) if rest.is_empty() => Ok(FlatStore { blocks }),
            _ => Err(Refusal::NotImageSized),
        }
    }
}
