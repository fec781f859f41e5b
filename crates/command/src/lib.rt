//! The command layer: a command is taken apart into an order, and performed on any store under the protection of block 31.
#![tactic(auto)]

mod answer;
mod laws;
mod order;
mod parsing;
mod performing;
mod span;
mod status;

pub use answer::Answer;
pub use laws::{answers_return, commands_return, ranges_within};
pub use order::Order;
pub use parsing::parse;
pub use performing::perform;
pub use span::{Span, Update};
pub use status::Status;
