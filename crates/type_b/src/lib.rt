//! ISO/IEC 14443 Type B frames, taken apart: what a frame asks, with its parts lent from the frame.
#![tactic(auto)]

mod frame;
mod laws;
mod parsing;
mod size;

pub use frame::Frame;
pub use laws::{frames_differ, frames_return};
pub use parsing::{is_intact, taken_apart};
pub use size::{FrameSize, UnknownSize};
