//! Who owns each engine, and whose turn is next.
#![tactic(auto)]

mod rota;

pub use rota::Rota;
