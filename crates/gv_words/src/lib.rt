//! The words of the command line, read with `clap`.
#![tactic(auto)]

mod laws;
mod task;
#[cfg(test)]
mod tests;

pub use laws::words_are_named;
pub use task::{Task, WordsRefused, task_of};
