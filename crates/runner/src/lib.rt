//! Calls on a tag as values: one performed, or a whole list, with the law of memory in the contract.
#![tactic(auto)]

mod call;
mod performing;

pub use call::{Answer, Call};
pub use performing::{perform, run};
