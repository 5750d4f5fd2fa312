ghost use Rattle.std.specs.Prelude.{◌≡◌, None};
ghost use Rattle.std.specs.Option.{option_or};
ghost use Rattle.gv_vgpu.specs.Changes.{injected};

use gv_types::{Outcome, Reason};

/// What a call tells the guest: where an interrupt was injected, IIR of its group; and where the guest entered
/// failsafe, the reason.
#[derive(Clone, Copy, Debug, PartialEq, Eq)]
pub struct Notice {
    pub irq: Option<u32>,
    pub failsafe: Option<Reason>,
}

impl Notice {
    // An interrupt at the most.
    pub(crate) fn injected(irq: Option<u32>) -> Notice
        ensures { result ≡ injected irq }
    {
        Notice {
            irq,
            failsafe: None,
        }
    }

    // What two writes tell, one after another: the interrupt of the first, if it had one, and why the second failed.
    pub(crate) fn then(self, next: Notice) -> Notice
        ensures irq { result.irq ≡ option_or self.irq next.irq }
        ensures failsafe { result.failsafe ≡ next.failsafe }
    {
        Notice {
            irq: self.irq.or(next.irq),
            failsafe: next.failsafe,
        }
    }

    // Nothing.
    pub(crate) fn none() -> Notice
        ensures { result ≡ injected None }
    {
        Notice::injected(None)
    }
}

/// How a turn went, and what it tells the guest.
#[derive(Clone, Copy, Debug, PartialEq, Eq)]
pub struct Turned {
    pub outcome: Outcome,
    pub notice: Notice,
}
