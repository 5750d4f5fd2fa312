//! The commands of the profile: the command table, where a command may stand, and what it does to
//! any space. No call takes memory.
#![tactic(auto)]

mod blit;
mod command;
mod header;
mod kind;
mod laws;
mod rows;
mod space;
mod stands;

pub use blit::{Blit, RowPair};
pub use command::{Command, MAX_COMMAND_DWORDS, Unlisted, decode};
pub use header::length;
pub use kind::{Kind, PostWrite};
pub use laws::{accesses_are_aligned, live_commands_are_local};
pub use space::SpaceMeaning;
pub use stands::{Stands, allowed};
