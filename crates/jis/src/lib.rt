//! JIS X 6319-4: a command's frame is taken apart into its parts or a fault, and the payloads of the replies are put together.
#![tactic(auto)]

mod answers;
mod blocks;
mod command;
mod elements;
mod fault;
mod frame;
mod lists;
mod walk;

pub use answers::{write_flags, write_req_answer};
pub use blocks::Blocks;
pub use command::{BlockWrite, Command};
pub use fault::{Access, Fault, Status};
pub use frame::taken_apart;
