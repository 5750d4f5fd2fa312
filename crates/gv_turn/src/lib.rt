//! A step of an engine of the shared device is a turn of the private device of the guest whose element is at
//! work there. Definitions, and their laws as contracts of functions with nothing to run.
#![tactic(auto)]

mod laws;

pub use laws::{
    commands_agree, fetched_is_owned, others_stay_at_work, steps_are_turns, work_is_kept,
};
