//! The fetch of an element as code: a guest's ring, and the privileged batches that it starts, are
//! tested in the order of running and copied into one flat program.
#![tactic(auto)]

mod append;
mod batches;
mod command;
mod fault;
mod lay;
mod operands;
mod program;
mod reader;
mod ring;

pub use fault::ScanFault;
pub use lay::{Level, are_nested, lay_out};
pub use program::Program;
pub use reader::Reader;
pub use ring::scan;

#[cfg(test)]
mod tests;
