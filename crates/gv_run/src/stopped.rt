ghost use Rattle.std.specs.Prelude.{◌≡◌};
ghost use Rattle.gv_run.specs.Status.{stop_of};
ghost use Rattle.gv_run.specs.declared.stopped.Stopped.TheVariants as stopped;

use gv_outside::SinkFailed;
use gv_types::{OutOfMemory, Stop};

/// Why a run stops before its script's end is told: want of memory, or a fault of the source, the sink or the
/// device.
#[derive(Clone, Copy, Debug, PartialEq, Eq)]
pub(crate) enum Stopped {
    OutOfMemory,
    Read,
    Write,
    Device,
}

impl From<OutOfMemory> for Stopped {
    ghost from_gives = { λ _ error. error ≡ stopped.OutOfMemory };

    fn from(_: OutOfMemory) -> Self {
        Stopped::OutOfMemory
    }
}

impl From<SinkFailed> for Stopped {
    ghost from_gives = { λ _ error. error ≡ stopped.Write };

    fn from(_: SinkFailed) -> Self {
        Stopped::Write
    }
}

impl From<Stop> for Stopped {
    ghost from_gives = { λ stop error. error ≡ stop_of stop };

    fn from(stop: Stop) -> Self {
        match stop {
            Stop::OutOfMemory => Stopped::OutOfMemory,
            Stop::DeviceFault => Stopped::Device,
        }
    }
}
