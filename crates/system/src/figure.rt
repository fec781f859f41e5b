use memory::BlockNumber;

// How many user blocks frames may write, and the lowest of them, if there is one.
#[derive(Clone, Copy, Debug, PartialEq, Eq)]
pub struct Writable {
    pub count: u32,
    pub lowest: Option<BlockNumber>,
}
