//! A guest's private device, whole, in words: what one guest sees, as if nothing were shared. It is
//! definitions, and their laws as contracts of functions with nothing to run.
//!
//! It knows no host page, no shadow table, no pin, no copy, no window and no switch of owners.
#![tactic(auto)]

mod laws;

pub use laws::{
    completion_tells_the_front, element_stays, failsafe_is_told, failsafe_stays, guest_stays,
    roots_stay, still_turns_change_nothing, turns_keep_tables, ungranted_is_untouched,
};
