//! The rows of a blit, from the top down. Nothing takes memory.
#![tactic(auto)]

mod left;
mod row;

pub use gv_cmd::RowPair;
pub use left::Rows;
pub use row::rows;
