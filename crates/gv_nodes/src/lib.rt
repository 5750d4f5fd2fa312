//! The shadow tables of a guest: for each frame and level at which there is one, its host page and
//! the number of its parents.
#![tactic(auto)]

mod nodes;

pub use nodes::{Node, Nodes};
