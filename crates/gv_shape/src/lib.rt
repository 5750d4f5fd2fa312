//! The shape of a guest's shadow tables, as definitions and laws: what each physical word has to be for the
//! guest's entry (the local form), how often words name a table or map a frame, and what follows for walks and
//! for the live tables.
#![tactic(auto)]

mod laws;

pub use laws::{nodes_are_the_live_tables, shadows_keep, shadows_reach};
