use crate::GuestId;

/// Why a guest enters failsafe: a command that is unlisted or not allowed, an address outside the
/// guest's ranges, a bad context, too many dwords in fetched batches, or a bad table entry.
#[derive(Clone, Copy, Debug, PartialEq, Eq)]
pub enum Reason {
    Command,
    Range,
    Context,
    Size,
    Entry,
}

/// How a turn of an engine went.
#[derive(Clone, Copy, Debug, PartialEq, Eq)]
pub enum Outcome {
    Ran,
    Waited,
    Ended,
    Loaded,
    Failed,
    Idle,
}

/// What an event answers: nothing, the value that was read, a turn's outcome, that an owner is
/// named, or whether a page moved or was kept.
#[derive(Clone, Copy, Debug, PartialEq, Eq)]
pub enum Answer {
    Nothing,
    Value(u64),
    Turn(Outcome),
    Owner,
    Moved,
    Kept,
}

/// The reply to an event. `guest` is the guest of the access, of a turn the engine's owner, of a
/// switch the new owner. `irq` is IIR after an interrupt was injected.
#[derive(Clone, Copy, Debug, PartialEq, Eq)]
pub struct Reply {
    pub guest: GuestId,
    pub answer: Answer,
    pub irq: Option<u32>,
    pub failsafe: Option<Reason>,
}

/// Why no further event is taken: want of memory, or a fault of the shared device.
#[derive(Clone, Copy, Debug, PartialEq, Eq)]
pub enum Stop {
    OutOfMemory,
    DeviceFault,
}
