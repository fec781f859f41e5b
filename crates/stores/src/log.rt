use crate::entry::Entry;
use arrayvec::ArrayVec;

// A store that keeps a log of its writes: of each block the newest entry counts.
#[derive(Drop)]
pub struct LogStore {
    pub(crate) log: ArrayVec<Entry, 64>,
}
