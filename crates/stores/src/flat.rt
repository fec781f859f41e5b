ghost use Rattle.memory.specs.Memory.{Shaped};

// A store that keeps the 512 bytes in their order.
#[derive(Drop)]
pub struct FlatStore {
    pub(crate) blocks: [[u8; 16]; 32],
    ghost sized: { Shaped blocks },
}
