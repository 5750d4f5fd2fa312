ghost use Rattle.std.specs.Prelude.{◌≡◌, Bool};
ghost use Rattle.gv_cmd.specs.Allowed.{may_start, is_allowed};

use crate::{Command, Kind};

/// Where a command stands: in the ring, in a fetched batch of the first level (privileged), in a
/// live batch of the first level, or in a batch of the second level of either kind.
#[derive(Clone, Copy, Debug, PartialEq, Eq)]
pub enum Stands {
    Ring,
    Privileged,
    Live,
    Second,
}

/// Whether a command may stand there, on this engine (0 is RCS, 1 BCS, 2 VCS, 3 VECS).
pub fn allowed(command: &Command, stands: Stands, engine: u8) -> bool
    ensures { result ≡ is_allowed command.now stands engine }
{
    match command.kind() {
        Kind::PipeControl { .. } => engine == 0,
        Kind::Flush { .. } => engine != 0,
        Kind::ColourBlit(_) => engine == 1,
        Kind::CopyBlit(_) => engine == 1,
        Kind::BatchEnd => stands != Stands::Ring,
        Kind::BatchStart { live, second, .. } => may_start(stands, live, second),
        _ => true,
    }
}

fn may_start(stands: Stands, live: bool, second: bool) -> bool
    ensures { result ≡ may_start stands live second }
{
    match stands {
        Stands::Ring => !second,
        Stands::Privileged => second,
        Stands::Live => live,
        Stands::Second => false,
    }
}
