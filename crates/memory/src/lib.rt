//! The memory of a tag: block numbers and byte addresses, what a store of blocks means, and ranges of bytes over any store.
#![tactic(auto)]

mod address;
mod blocks;
mod number;
mod past_end;
mod pieces;
mod ranges;
mod refusal;

pub use address::Address;
pub use blocks::Store;
pub use number::BlockNumber;
pub use past_end::PastEnd;
pub use ranges::{read_bytes, write_bytes};
pub use refusal::Refusal;
