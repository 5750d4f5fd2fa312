//! The place of a context in its copies: where the loaded context, or a shadow image, stands for what is
//! left of an element. Definitions, and their laws as contracts of functions with nothing to run.
#![tactic(auto)]

mod laws;

pub use laws::{
    contexts_stand_by_their_images, fetched_code_runs_from_its_copy, live_code_is_read_in_place,
    places_stand_for_what_is_left, steps_are_the_guests_own,
};
