use gv_cmd::Command;

/// What a step of an engine did. `raise` is the set of interrupt bits of the engine that the command
/// raises: 0, 1 (user) or 0x10 (notify).
#[derive(Clone, Copy, Debug, PartialEq, Eq)]
pub enum Step {
    /// This command ran.
    Ran { command: Command, raise: u16 },
    /// The front command is a semaphore wait that doesn't hold yet.
    Waits,
    /// The loaded context had no command left, and is unloaded.
    Ended,
    /// The front command is unlisted, or isn't allowed where it stands.
    Unlisted,
    /// No context is loaded.
    Idle,
}
