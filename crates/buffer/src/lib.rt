//! Bytes in place: up to a fixed number of them, without a heap.
#![tactic(auto)]

mod buffer;
mod reading;
mod writing;

pub use buffer::Buffer;
pub use writing::Full;
