//! The machine, in words: a private device for each guest, and who owns each engine; the report of a
//! script; and each guest's own report. It is definitions, and their laws as contracts of functions
//! with nothing to run.
#![tactic(auto)]

mod laws;

pub use laws::{
    courses_are_told, each_guest_is_told_its_own, equal_guests_are_told_the_same, guests_stay,
    inputs_go_to_their_guests, switches_are_the_rotas, turns_alone_run,
};
