//! All guests' devices over one shared device, and who owns each engine: one event at a time, and what it answers is the
//! answer of one unshared device for each guest.
#![tactic(auto)]

mod answer;
mod begin;
mod guest;
mod laws;
mod mediator;
mod switch;

pub use guest::Guest;
pub use laws::devices_have_memories;
pub use mediator::Mediator;
