//! The reverse map: for each frame of a guest, the words of shadow tables that map it.
#![tactic(auto)]

mod chains;
mod laws;
mod leaf;
mod tree;
mod walk;

pub use chains::Chains;
pub use laws::trees_are_low;
pub use leaf::Leaf;
pub use walk::Walk;

#[cfg(test)]
mod tests;
