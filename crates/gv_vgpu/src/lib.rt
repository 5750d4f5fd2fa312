//! One guest's device, whole, over the shared one: what it keeps, and the private device that it stands for.
#![tactic(auto)]

mod access;
mod engine;
mod events;
mod exchange;
mod fetch;
mod laws;
mod load;
mod memory;
mod notice;
mod notify;
mod range;
mod read;
mod reset;
mod stop;
mod turn;
mod vgpu;
mod write;

pub use engine::Engine;
pub use laws::{
    a_step_is_its_turn, devices_are_small, elements_are_loaded, elements_at_work_stand,
    grants_are_exact, other_guests_leave_it, tables_are_followed,
};
pub use notice::{Notice, Turned};
pub use vgpu::Vgpu;
