//! Exact grants: the bytes of guest memory that a step of an engine reads as operands or live commands, or writes,
//! are those that the turn of the private device asks for and the grants of that moment give, neither more nor
//! fewer. Definitions, and their laws as contracts of functions with nothing to run.
#![tactic(auto)]

mod laws;

pub use laws::{recorded_is_done, records_are_whole, steps_touch_what_is_granted, touches_agree};
