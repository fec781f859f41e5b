//! A JIS frame served: the command is carried out over any store, by what the tag's copy says, and the reply's payload is built.
#![tactic(auto)]

mod blocks;
mod laws;
mod serving;

pub use laws::silence_changes_nothing;
pub use serving::serve;
