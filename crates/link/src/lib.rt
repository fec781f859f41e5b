//! What a link to a tag is: exchanges that may go unheard, field changes that arrive, and two counts.
#![tactic(auto)]

mod air;
mod carried;
mod delivery;

pub use air::Link;
pub use carried::frames_carry;
pub use delivery::Delivery;
