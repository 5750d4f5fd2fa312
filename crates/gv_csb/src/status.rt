ghost use Rattle.std.specs.Prelude.{◌≡◌};

/// One event of the context status buffer: what happened, and the number of the context that it
/// happened to.
#[derive(Clone, Copy, Debug, PartialEq, Eq)]
pub struct Status {
    pub word: u32,
    pub number: u32,
}

/// The events that follow when an element completes, in their order.
#[derive(Clone, Copy, Debug, PartialEq, Eq)]
pub struct Events {
    pub first: Status,
    pub second: Option<Status>,
}

impl Status {
    ghost use Rattle.gv_csb.specs.Status.{idle_to_active, element_switch, active_to_idle};

    /// A list begins on an engine that had none: Idle to Active. It names no context.
    pub fn idle_to_active() -> Status
        ensures { result ≡ idle_to_active }
    {
        Status {
            word: 0x1,
            number: 0,
        }
    }

    /// An element completes and its list has another: Context Complete and Element Switch.
    pub fn element_switch(number: u32) -> Status
        ensures { result ≡ element_switch number }
    {
        Status { word: 0x14, number }
    }

    /// The last element of a list completes: Context Complete and Active to Idle.
    pub fn active_to_idle(number: u32) -> Status
        ensures { result ≡ active_to_idle number }
    {
        Status { word: 0x18, number }
    }
}
