use gv_cmd::Command;
use gv_types::{EngineId, GuestId};

/// A command that ran: where, for whom, and its shape, which leaves out the addresses of copied
/// batches.
#[derive(Clone, Copy, Debug, PartialEq, Eq)]
pub struct Entry {
    pub engine: EngineId,
    pub guest: GuestId,
    pub shape: Command,
}
