use stores::{FlatStore, LogStore};
use tag::Tag;

// A tag over one of the two stores, chosen while the program runs.
// Not a tag over an enum of both stores: a call on a tag promises what the memory is, and not that the store stays of its kind, as a call on a device does.
#[derive(Drop)]
pub enum Device {
    Flat(Tag<FlatStore>),
    Log(Tag<LogStore>),
}
