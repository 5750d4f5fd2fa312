ghost use Rattle.std.specs.Prelude.{◌≡◌, ◌<◌};
ghost use Rattle.gv_cmd.specs.Effect.{writes_global, is_skipped};

use crate::register::general_of;
use gv_cmd::{Kind, PostWrite};

fn writes_global(write: Option<PostWrite>) -> bool
    ensures { result ≡ writes_global write }
{
    match write {
        None => false,
        Some(write) => write.global,
    }
}

/// Whether a live batch skips the command: one that accesses the global space, the user interrupt,
/// or one that reads a register that isn't general.
pub(crate) fn is_skipped(engine: u8, kind: Kind) -> bool
    requires { engine < 4 }
    ensures { result ≡ is_skipped engine kind }
{
    match kind {
        Kind::UserInterrupt => true,
        Kind::SemaphoreWait { global, .. } => global,
        Kind::Store { global, .. } => global,
        Kind::StoreRegister {
            global,
            register,
            ..
        } => global || general_of(engine, register).is_none(),
        Kind::LoadRegister { global, .. } => global,
        Kind::MoveRegister { from, .. } => general_of(engine, from).is_none(),
        Kind::CopyMemory {
            from_global,
            to_global,
            ..
        } => from_global || to_global,
        Kind::Flush { write } => writes_global(write),
        Kind::PipeControl { write, .. } => writes_global(write),
        _ => false,
    }
}
