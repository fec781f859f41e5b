//! A session, from ATTRIB on: chaining in both directions, the pieces of an answer, and what is sent again.
#![tactic(auto)]

mod blocks;
mod chain;
mod chaining;
mod cutting;
mod laws;
mod sending;
mod state;

pub use laws::{commands_join, pieces_join, repeats_same};
pub use state::Session;
