//! What the lines of a script do: a tag over one of the two stores, made, and called.
#![tactic(auto)]

mod device;
mod making;
mod obeying;

pub use device::Device;
pub use obeying::{block_read, call_of};
