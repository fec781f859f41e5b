//! The two block stores: the flat one keeps its bytes in their order, the log keeps writes and counts the newest of each block.
#![tactic(auto)]

mod entry;
mod flat;
mod flat_store;
mod load;
mod log;
mod log_store;

pub use flat::FlatStore;
pub use load::Load;
pub use log::LogStore;
pub use log_store::newest_entry_counts;
