ghost use Rattle.std.specs.Prelude.{◌≡◌, ◌<◌, Some, IfSome, ◌^◌};
ghost use Rattle.gv_cmd.specs.Kind.{IsKindOf, IsBlit, IsPostWrite};
ghost use Rattle.gv_cmd.specs.Rows.{rows};
ghost use Rattle.gv_cmd.specs.Effect.{general_of, engine_register_read, general_loaded_by, dwords_stored, post_written, rows_copied, rows_filled, compares, waited, performed};
ghost use Rattle.gv_exec.specs.Done.{raise_of};

use crate::register::{general_of, register_read, register_set, registers_set};
use crate::{Done, Space};
use gv_blit::rows;
use gv_cmd::{Blit, Command, Kind, PostWrite};

/// What a command does that isn't skipped.
pub(crate) fn perform<S: Space>(command: &Command, kind: Kind, engine: u8, space: &mut S) -> Done
    requires engine { engine < 4 }
    requires form { IsKindOf command.now kind }
    ensures state { S.state space.new ≡ (performed S.operations command.now engine (S.state space.old) kind).after }
    ensures raise { raise_of result ≡ (performed S.operations command.now engine (S.state space.old) kind).raise }
    ensures loans { S.loans space.new ≡ S.loans space.old }
{
    match kind {
        Kind::UserInterrupt => return Done::Ran { raise: 1 },
        Kind::SemaphoreWait {
            global,
            compare,
            operand,
            at,
        } => {
            let memory = space.load(global, at);
            if !compares(compare, memory, operand) {
                return Done::Waits;
            }
        }
        Kind::Store {
            global,
            at,
            low,
            high,
        } => store(space, global, at, low, high),
        Kind::LoadRegisters { pairs } => registers_set(space, engine, command, pairs),
        Kind::StoreRegister {
            global,
            register,
            at,
        } => {
            let value = register_read(space, engine, register);
            space.store(global, at, value);
        }
        Kind::LoadRegister {
            global,
            register,
            at,
        } => load_register(space, general_of(engine, register), global, at),
        Kind::MoveRegister { from, to } => {
            let value = register_read(space, engine, from);
            register_set(space, engine, to, value);
        }
        Kind::CopyMemory {
            from_global,
            from,
            to_global,
            to,
        } => {
            let value = space.load(from_global, from);
            space.store(to_global, to, value);
        }
        Kind::Flush { write } => post_write(space, write),
        Kind::PipeControl { notify, write } => {
            post_write(space, write);
            return Done::Ran {
                raise: if notify { 0x10 } else { 0 },
            };
        }
        Kind::ColourBlit(blit) => fill_rows(space, &blit),
        Kind::CopyBlit(blit) => copy_rows(space, &blit),
        _ => {}
    }
    Done::Ran { raise: 0 }
}

/// The comparison of a wait, memory on the left.
fn compares(how: u8, memory: u32, operand: u32) -> bool
    ensures { result ≡ compares how memory operand }
{
    match how {
        0 => memory > operand,
        1 => memory >= operand,
        2 => memory < operand,
        3 => memory <= operand,
        4 => memory == operand,
        _ => memory != operand,
    }
}

/// Stores one dword, or two.
fn store<S: Space>(space: &mut S, global: bool, at: u64, low: u32, high: Option<u32>)
    requires { at < 2 ^ 48 }
    ensures left { S.state space.new ≡ dwords_stored S.operations (S.state space.old) global at low high }
    ensures loans { S.loans space.new ≡ S.loans space.old }
{
    space.store(global, at, low);
    if let Some(high) = high {
        space.store(global, at + 4, high);
    }
}

fn post_write<S: Space>(space: &mut S, write: Option<PostWrite>)
    requires { IsPostWrite write }
    ensures left { S.state space.new ≡ post_written S.operations (S.state space.old) write }
    ensures loans { S.loans space.new ≡ S.loans space.old }
{
    if let Some(write) = write {
        store(space, write.global, write.at, write.low, write.high);
    }
}

/// Loads a dword into a general register. For another register nothing is loaded.
fn load_register<S: Space>(space: &mut S, n: Option<u8>, global: bool, at: u64)
    requires { IfSome n (λ k. k < 32) }
    ensures left { S.state space.new ≡ general_loaded_by S.operations (S.state space.old) n global at }
    ensures loans { S.loans space.new ≡ S.loans space.old }
{
    if let Some(n) = n {
        let value = space.load(global, at);
        space.set_general(n, value);
    }
}

fn fill_rows<S: Space>(space: &mut S, blit: &Blit)
    requires { IsBlit blit.now }
    ensures left { S.state space.new ≡ rows_filled S.operations (S.state space.old) blit.now (rows blit.now) }
    ensures loans { S.loans space.new ≡ S.loans space.old }
{
    for row in rows(blit) {
        space.fill_row(row.to, row.bytes, blit.colour, blit.bytes);
    }
}

fn copy_rows<S: Space>(space: &mut S, blit: &Blit)
    requires { IsBlit blit.now }
    ensures left { S.state space.new ≡ rows_copied S.operations (S.state space.old) (rows blit.now) }
    ensures loans { S.loans space.new ≡ S.loans space.old }
{
    for row in rows(blit) {
        space.copy_row(row.to, row.from, row.bytes);
    }
}
