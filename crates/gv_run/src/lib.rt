//! The whole program: a script is read, run over the shared device, and its report written.
#![tactic(auto)]

mod call;
mod ending;
mod events;
mod made;
mod run;
mod script;
mod stage;
mod stopped;
mod tell;
mod turns;

pub use call::{Status, mediate};
