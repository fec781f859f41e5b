//! A reply: what a protocol answers is sealed as a frame, and copied once to the caller's buffer.
#![tactic(auto)]

mod sealing;

pub use sealing::{Body, Payload, Reply, seal_jis, seal_type_b, send};
