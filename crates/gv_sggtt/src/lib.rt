//! The shadow global table: one guest's entries of the global table (GGTT), and the physical entries that
//! the device has for them.
#![tactic(auto)]

mod entries;
mod linked;
mod table;

pub use table::GlobalTable;
