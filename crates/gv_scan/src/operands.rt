ghost use Rattle.std.specs.Prelude.{◌≡◌, ◌<◌, ◌^◌};
ghost use Rattle.gv_cmd.specs.Kind.{IsPostWrite};
ghost use Rattle.gv_cmd.specs.Simulation.{access, dwords_at, post_accesses};
ghost use Rattle.gv_fetch.specs.Fetch.{owns_access, owns_accesses, owns_operands};

use crate::Reader;
use gv_cmd::{Command, Kind, PostWrite};
use gv_types::PAGE_BYTES;

/// Whether a dword that is accessed is on an owned page, where it is global.
fn owns_access<R: Reader>(reader: &R, global: bool, at: u64) -> bool
    ensures { result ≡ owns_access (R.space reader.now) (access global at) }
{
    !global || reader.owned(at / PAGE_BYTES)
}

/// Whether one dword, or two that follow one another, are on owned pages, where they are global.
fn owns_store<R: Reader>(reader: &R, global: bool, at: u64, high: Option<u32>) -> bool
    requires { at < 2 ^ 48 }
    ensures { result ≡ owns_accesses (R.space reader.now) (dwords_at global at high) }
{
    match high {
        None => owns_access(reader, global, at),
        Some(_) => owns_access(reader, global, at) && owns_access(reader, global, at + 4),
    }
}

/// Whether the dwords that a command writes when it is done are on owned pages.
fn owns_write<R: Reader>(reader: &R, write: Option<PostWrite>) -> bool
    requires { IsPostWrite write }
    ensures { result ≡ owns_accesses (R.space reader.now) (post_accesses write) }
{
    match write {
        None => true,
        Some(w) => owns_store(reader, w.global, w.at, w.high),
    }
}

/// Whether every global operand of a command is on owned pages.
pub(crate) fn owns_operands<R: Reader>(reader: &R, command: &Command) -> bool
    ensures { result ≡ owns_operands (R.space reader.now) command.now }
{
    match command.kind() {
        Kind::SemaphoreWait { global, at, .. } => owns_access(reader, global, at),
        Kind::Store {
            global,
            at,
            high,
            ..
        } => owns_store(reader, global, at, high),
        Kind::StoreRegister { global, at, .. } => owns_access(reader, global, at),
        Kind::LoadRegister { global, at, .. } => owns_access(reader, global, at),
        Kind::CopyMemory {
            from_global,
            from,
            to_global,
            to,
        } => owns_access(reader, from_global, from) && owns_access(reader, to_global, to),
        Kind::Flush { write } => owns_write(reader, write),
        Kind::PipeControl { write, .. } => owns_write(reader, write),
        _ => true,
    }
}
