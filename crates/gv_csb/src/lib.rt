//! Execlist submission of one engine: two slots of lists of contexts, and the context status
//! buffer, a ring of six pairs in which the engine tells what became of them.
#![tactic(auto)]

mod slots;
mod status;

pub use slots::{Slots, Submitted};
pub use status::{Events, Status};

#[cfg(test)]
mod tests;
