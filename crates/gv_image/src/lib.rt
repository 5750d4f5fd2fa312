//! The image of a guest's private device, in words: its bytes, and which images are accepted. Definitions alone, with their
//! laws as contracts of functions with nothing to run.
#![tactic(auto)]

mod laws;

pub use laws::{new_devices_are_accepted, one_frame};
