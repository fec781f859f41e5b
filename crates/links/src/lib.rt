//! A link to a tag in hand, over what is lost: nothing, or what a plan says.
#![tactic(auto)]

mod carrying;
mod losses;
mod plan;
mod tag_link;

pub use losses::{Losses, NoLosses, PlannedLosses};
pub use plan::{Plan, PlanTooLong};
pub use tag_link::{Lossless, Planned, TagLink};
