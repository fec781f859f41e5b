//! One exchange over a link as a reader makes it: the checksum is written before it and looked at after it, and no one above sees one.
#![tactic(auto)]

mod asking;

pub use asking::ask;

// Up to 256 bytes: as many as a frame or a command has at most. What is asked over a link is a `Body`, which leaves room for the checksum.
pub type Buffer = buffer::Buffer<256>;
