//! Execlist contexts: a descriptor's fields, the register state of a context's image, and the place
//! of an element at work with its seven dwords in a shadow image. None of the calls takes memory.
#![tactic(auto)]

mod descriptor;
mod image;
mod limits;
mod saved;

pub use descriptor::Descriptor;
pub use image::{BadContext, Image};
pub use limits::PAGE_DWORDS;
pub use saved::{Batch, Saved};
