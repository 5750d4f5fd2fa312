//! Copies of programs in the mediator's window of the global table, and the two pages of the shadow
//! image beside them.
#![tactic(auto)]

mod laws;
mod pack;
mod pages;
mod place;
mod shadow;

pub use laws::shadows_have_images;
pub use shadow::{Shadow, build, drop_all};
