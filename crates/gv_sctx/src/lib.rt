//! The shadow image of a context: the page of register state that an engine loads it from, and saves
//! its place to.
#![tactic(auto)]

mod image;
mod laws;

pub use image::{fill, saved};
pub use laws::{filled_images_are_loaded, stopped_contexts_come_back};
