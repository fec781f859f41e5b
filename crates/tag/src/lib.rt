//! The tag over any store of blocks: its making, its field, the bench, frames, and the law that every sequence of its calls keeps.
#![tactic(auto)]

mod bench;
mod frames;
mod laws;
mod power;
mod state;

pub use laws::{runs_are_traces, runs_keep, traces_keep};
pub use state::{Power, Tag};
