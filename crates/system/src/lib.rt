//! What a tag knows of itself: the fields of block 30, the protection in block 31, and how many blocks frames may write.
#![tactic(auto)]

mod copy;
mod example;
mod figure;
mod identity;
mod protection;

pub use copy::SystemCopy;
pub use example::example_image;
pub use figure::Writable;
pub use identity::Identity;
pub use protection::Protection;
