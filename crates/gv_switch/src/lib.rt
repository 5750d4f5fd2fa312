//! The exchange of an engine's state when its owner changes: its general registers, and the context that is loaded.
#![tactic(auto)]

mod exchange;

pub use exchange::{bring, put_away};
