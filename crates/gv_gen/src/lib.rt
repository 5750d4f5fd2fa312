//! A script that is made from a number: two guests are set up, and 4,096 rounds draw what they do.
#![tactic(auto)]

mod draw;
mod group;
mod script;
#[cfg(test)]
mod tests;

pub use script::Script;
