//! Runs a command over any space. Nothing takes memory.
#![tactic(auto)]

mod done;
mod perform;
mod register;
mod skip;
mod space;

pub use done::{Done, run};
pub use space::Space;
