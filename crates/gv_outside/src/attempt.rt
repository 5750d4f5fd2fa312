ghost use Rattle.std.specs.Prelude.{◌≡◌};
ghost use Rattle.gv_outside.specs.Attempt.{attempt_of};

use std::io;
use std::io::ErrorKind;

/// What a call of a std reader or writer comes to: it took so many bytes, or it was interrupted and
/// is made again, or it failed.
pub(crate) enum Attempt {
    Took(usize),
    Again,
    Failed,
}

impl Attempt {
    /// What a call's outcome comes to. One that takes nothing has failed, unless it may take nothing.
    pub(crate) fn of(outcome: io::Result<usize>, may_take_nothing: bool) -> Attempt
        ensures { result ≡ attempt_of outcome may_take_nothing }
    {
        match outcome {
            Ok(count) => {
                if count > 0 || may_take_nothing {
                    Attempt::Took(count)
                } else {
                    Attempt::Failed
                }
            }
            Err(error) => match error.kind() {
                ErrorKind::Interrupted => Attempt::Again,
                _ => Attempt::Failed,
            },
        }
    }
}
