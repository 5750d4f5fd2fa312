//! Ballooning: the ranges of the global table (GGTT) that each guest is given. They are consecutive, so no
//! two overlap, and none meets the mediator's window.
#![tactic(auto)]

mod ballooning;
mod given;

pub use ballooning::{AssignFault, assign};
pub use given::Given;
