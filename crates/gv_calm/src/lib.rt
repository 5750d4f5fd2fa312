//! What the scripts that numbers are do, in words: no guest of theirs enters failsafe. It is
//! definitions, and their laws as contracts of a function with nothing to run.
#![tactic(auto)]

mod laws;

pub use laws::numbers_are_calm;
