//! At which levels of the page tables each frame of a guest is a live table.
#![tactic(auto)]

mod track;

pub use track::Track;
