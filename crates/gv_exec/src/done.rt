ghost use Rattle.std.specs.Prelude.{◌≡◌, ◌<◌};
ghost use Rattle.gv_cmd.specs.Effect.{effect};
ghost use Rattle.gv_exec.specs.Done.{raise_of};

use crate::Space;
use crate::perform::perform;
use crate::skip::is_skipped;
use gv_cmd::Command;
use gv_types::EngineId;

/// How a command went: it ran and raises these interrupt bits of its engine (0, 1 for the user
/// interrupt, 0x10 for notify), or it is a semaphore wait that doesn't hold yet.
#[derive(Clone, Copy, Debug, PartialEq, Eq)]
pub enum Done {
    Ran { raise: u16 },
    Waits,
}

/// Runs a command of the engine over a space. It is privileged in the ring and in fetched batches,
/// and not in live batches.
///
/// `Waits` exactly where the command is a semaphore wait that isn't skipped and its comparison
/// fails. Then nothing is changed but what its load leaves.
pub fn run<S: Space>(command: &Command, engine: EngineId, privileged: bool, space: &mut S) -> Done
    requires { engine.0 < 4 }
    ensures state { S.state space.new ≡ (effect S.operations command.now engine.0 privileged (S.state space.old)).after }
    ensures raise { raise_of result ≡ (effect S.operations command.now engine.0 privileged (S.state space.old)).raise }
    ensures loans { S.loans space.new ≡ S.loans space.old }
{
    let kind = command.kind();
    if !privileged && is_skipped(engine.0, kind) {
        return Done::Ran { raise: 0 };
    }
    perform(command, kind, engine.0, space)
}

#[cfg(test)]
mod tests;
