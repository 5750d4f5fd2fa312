//! The registers of one guest's device, its interrupts, and what is submitted to its engines: all of it that needs
//! neither the shared device nor memory.
#![tactic(auto)]

mod mmio;
mod port;
mod ports;

pub use mmio::{Mmio, Read, Wrote};
pub use port::{Port, Submission};
pub use ports::Ports;
