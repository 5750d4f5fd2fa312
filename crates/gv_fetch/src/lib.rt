//! What the load of an element fetches, and what is left of it: definitions, and their laws as
//! contracts of functions with nothing to run.
//!
//! The fetch goes from a guest's global space, a context's image and an engine to a list of items,
//! which are commands, or to the first reason against them. It knows nothing of copies.
#![tactic(auto)]

mod laws;

pub use laws::{
    fetch_goes_by_commands, fetched_items_are_few, fetched_items_are_owned,
    fetched_items_may_stand, items_have_one_spelling, moves_keep_what_is_left,
    what_is_left_is_bounded,
};
