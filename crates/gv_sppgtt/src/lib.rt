//! Shadow per-process tables, kept incrementally: for each live table of a guest a table of the device's own,
//! each word of which follows the guest's entry, and for each large page a split table of its frames.
//!
//! A word of a node tells by itself what it stands for: each host page has an owner, a frame, and bits 2 and 3,
//! which the device ignores, keep the guest's own writable bit of a leaf, and whether a table is a split one.
#![tactic(auto)]

mod calls;
mod changed;
mod clear;
mod grow;
mod guard;
mod laws;
mod relink;
mod shrink;
mod tables;
mod tell;
mod update;

pub use changed::Changed;
pub use laws::{
    serving_tables_are_live, serving_tables_chain, serving_tables_count, serving_tables_keep,
    serving_tables_pin, serving_tables_serve_on, serving_tables_shadow, serving_tables_stay,
    serving_tables_tell, tables_are_few,
};
pub use tables::{TableFault, Tables};
