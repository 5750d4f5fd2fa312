//! One guest's memory, its global table and its per-process tables as one object: everything of a guest that
//! translates addresses.
#![tactic(auto)]

mod access;
mod gtt;
mod laws;
mod moves;
mod roots;
mod tell;
mod write;

pub use gtt::Gtt;
pub use laws::{
    changes_leave_others, changes_stay_inside, translated_stays, translation_is_small,
    translation_keeps, translation_mirrors, translation_shadows, translation_stays,
};
