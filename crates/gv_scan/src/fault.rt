ghost use Rattle.std.specs.Prelude.{◌≡◌};

use gv_types::Reason;
use std::alloc::{AllocError, AllocFailed};
use std::error::Error;
use std::fmt;

/// Why a scan gives no program.
#[derive(Clone, Copy, Debug, PartialEq, Eq)]
pub enum ScanFault {
    /// Memory ran out.
    OutOfMemory,
    /// A test of the fetch failed: `Range`, `Command` or `Size`.
    Refused(Reason),
}

impl fmt::Display for ScanFault {
    fn fmt<W: fmt::Write>(&self, f: &mut fmt::Formatter<W>) -> fmt::Result {
        match self {
            ScanFault::OutOfMemory => write!(f, "out of memory"),
            ScanFault::Refused(reason) => write!(f, "the fetch is refused: {reason:?}"),
        }
    }
}

impl Error for ScanFault {}

impl From<AllocError> for ScanFault {
    ghost use Rattle.gv_scan.specs.declared.fault.ScanFault.TheVariants.{OutOfMemory};

    ghost from_gives = { λ _ e. e ≡ OutOfMemory };

    fn from(_error: AllocError) -> Self {
        ScanFault::OutOfMemory
    }
}

impl<T: Drop> From<AllocFailed<T>> for ScanFault {
    ghost use Rattle.gv_scan.specs.declared.fault.ScanFault.TheVariants.{OutOfMemory};

    ghost from_gives = { λ _ e. e ≡ OutOfMemory };

    fn from(_failed: AllocFailed<T>) -> Self {
        ScanFault::OutOfMemory
    }
}
