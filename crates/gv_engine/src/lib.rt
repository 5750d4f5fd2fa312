//! The device in memory, whole: its pages, its tables, and the engines that step through the contexts
//! that are loaded on them.
#![tactic(auto)]

mod context;
mod entry;
mod laws;
mod limits;
mod memory;
mod pages;
mod place;
mod rows;
mod soft;
mod space;
mod step;
mod strays;
mod walk;

pub use entry::Entry;
pub use laws::devices_in_memory_never_fault;
pub use soft::SoftGpu;

#[cfg(test)]
mod tests;
