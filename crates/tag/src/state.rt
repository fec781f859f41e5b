use memory::Store;
use system::SystemCopy;
use type_b_service::State;

// What a tag holds only while the field is on.
#[derive(Clone, Copy)]
pub struct Power {
    pub copy: SystemCopy,
    pub state: State,
}

// A tag over a store of blocks: with the field off it has no power.
#[derive(Drop)]
pub struct Tag<S: Store> {
    pub(crate) store: S,
    pub(crate) power: Option<Power>,
    pub(crate) performed: u64,
}
