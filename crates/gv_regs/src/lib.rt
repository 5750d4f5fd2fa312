//! The registers of one guest's device: which there are, what reading and writing each does, and the
//! register file of those that are kept here. `specs/Table.antt` is the register table, and `table` the code's.
#![tactic(auto)]

mod constant;
mod decode;
mod effect;
mod registers;
mod table;

pub use decode::{engines_reset, target};
pub use effect::{Effect, Lookup, Target};
pub use registers::Registers;
pub use table::KEPT;

#[cfg(test)]
mod tests;
