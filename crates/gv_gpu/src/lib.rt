//! The shared graphics device, by what it holds and what a step of an engine does to it: the trait
//! `Gpu`, and the parts of a device that the layers above divide among them.
#![tactic(auto)]

mod gpu;
mod step;

pub use gpu::{Gpu, GpuFailed};
pub use step::Step;
