//! The interrupt registers of one guest: a master, and the groups 0, 1 and 3 of 32 bits each. RCS has bits
//! 15..0 of group 0, BCS bits 31..16 of group 0, VCS bits 15..0 of group 1 and VECS bits 15..0 of group 3. Of
//! an engine's 16 bits, bit 0 is the user interrupt, bit 4 notify and bit 8 context switch.
#![tactic(auto)]

mod group;
mod irq;
mod register;

pub use group::Group;
pub use irq::{Irq, interrupt_bit};

#[cfg(test)]
mod tests;
