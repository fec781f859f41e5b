//! A Type B frame served: activation, the block protocol and the commands it carries, over any store, by what the tag's copy says.
#![tactic(auto)]

mod activation;
mod blocks;
mod serving;
mod state;

pub use serving::serve;
pub use state::{Served, State};
