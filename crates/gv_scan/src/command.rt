ghost use Rattle.std.specs.Prelude.{◌≡◌, ◌≤◌, ◌<◌, ◌+◌, ◌%◌, ◌^◌, Bool, true, false, take, length, OnOk, IfOk, IfSome, MatchOption, Some, None, Ok, Err};
ghost use Rattle.gv_cmd.specs.Command.{decoded};
ghost use Rattle.gv_cmd.specs.Table.{length_of, kind_of};
ghost use Rattle.gv_cmd.specs.Kind.{IsDwordAddress};
ghost use Rattle.gv_cmd.specs.declared.kind.Kind.TheVariants.{BatchStart};
ghost use Rattle.gv_fetch.specs.Items.{is_end, is_fetched_start};
ghost use Rattle.gv_fetch.specs.Fetch.{dwords, owns_dwords, batch_command, ring_command};

use crate::Reader;
use crate::operands::owns_operands;
use gv_cmd::{Command, Kind, MAX_COMMAND_DWORDS, Stands, allowed, decode, length};
use gv_types::{EngineId, PAGE_BYTES, Reason};

/// Whether so many dwords from an address are on owned pages.
fn owns_dwords<R: Reader>(reader: &R, at: u64, count: usize) -> bool
    requires few { count ≤ 65 }
    requires small { at < 2 ^ 48 }
    ensures { result ≡ owns_dwords (R.space reader.now) at count }
{
    for n in 0..count {
        if !reader.owned((at + 4 * n as u64) / PAGE_BYTES) {
            return false;
        }
    }
    true
}

/// Reads so many dwords from an address.
fn read_dwords<R: Reader>(reader: &R, at: u64, count: usize) -> [u32; MAX_COMMAND_DWORDS]
    requires few { count ≤ 65 }
    requires small { at < 2 ^ 48 }
    requires aligned { at % 4 ≡ 0 }
    requires owned { owns_dwords (R.space reader.now) at count ≡ true }
    ensures { take count result ≡ dwords (R.space reader.now).word at count }
{
    let mut words = [0; MAX_COMMAND_DWORDS];
    for n in 0..count {
        words[n] = reader.word((at + 4 * n as u64) as u32);
    }
    words
}

/// The command of so many dwords at an address, whose header names that length.
fn command_at<R: Reader>(reader: &R, at: u64, count: usize) -> Option<Command>
    requires few { count ≤ 65 }
    requires small { at < 2 ^ 48 }
    requires aligned { at % 4 ≡ 0 }
    requires owned { owns_dwords (R.space reader.now) at count ≡ true }
    requires named { length_of ((R.space reader.now).word at) ≡ Some count }
    ensures { MatchOption result (kind_of (dwords (R.space reader.now).word at count) ≡ None) (λ c. c ≡ dwords (R.space reader.now).word at count) }
{
    let words = read_dwords(reader, at, count);
    front_command(&words[..count])
}

/// The command at an address of a privileged batch, by its tests in order.
pub(crate) fn batch_command<R: Reader>(
    reader: &R,
    engine: EngineId,
    stands: Stands,
    at: u64,
    budget: usize,
) -> Result<Command, Reason>
    requires small { at < 2 ^ 48 }
    requires aligned { at % 4 ≡ 0 }
    ensures value { result ≡ batch_command (R.space reader.now) engine.0 stands at budget }
    ensures low { OnOk result (at < 2 ^ 32) }
    ensures long { IfOk result (λ c. (1 ≤ length c) × (length c ≤ budget)) }
{
    if !reader.owned(at / PAGE_BYTES) {
        return Err(Reason::Range);
    }
    let Some(count) = length(reader.word(at as u32)) else {
        return Err(Reason::Command);
    };
    if !owns_dwords(reader, at, count) {
        return Err(Reason::Range);
    }
    let Some(command) = command_at(reader, at, count) else {
        return Err(Reason::Command);
    };
    if !allowed(&command, stands, engine.0) {
        return Err(Reason::Command);
    }
    if count > budget {
        return Err(Reason::Size);
    }
    if !owns_operands(reader, &command) {
        return Err(Reason::Range);
    }
    Ok(command)
}

/// The command at the front of a list of dwords, if any.
fn front_command(ring: &[u32]) -> Option<Command>
    ensures value { MatchOption result (decoded ring.now ≡ Err record {}) (λ c. decoded ring.now ≡ Ok (c, length c)) }
    ensures long { IfSome result (λ c. (1 ≤ length c) × (length c ≤ length ring.now)) }
{
    match decode(ring) {
        Err(_) => None,
        Ok((command, _)) => Some(command),
    }
}

/// The command at the front of the ring's dwords that are left, by its tests in order.
pub(crate) fn ring_command<R: Reader>(
    reader: &R,
    engine: EngineId,
    ring: &[u32],
) -> Result<Command, Reason>
    ensures value { result ≡ ring_command (R.space reader.now) engine.0 ring.now }
    ensures long { IfOk result (λ c. (1 ≤ length c) × (length c ≤ length ring.now)) }
{
    let Some(command) = front_command(ring) else {
        return Err(Reason::Command);
    };
    if !allowed(&command, Stands::Ring, engine.0) {
        return Err(Reason::Command);
    }
    if !owns_operands(reader, &command) {
        return Err(Reason::Range);
    }
    Ok(command)
}

/// Whether a command ends its batch.
pub(crate) fn ends(command: &Command) -> bool
    ensures { result ≡ is_end (kind_of command.now) }
{
    matches!(command.kind(), Kind::BatchEnd)
}

/// How many dwords a command has.
pub(crate) fn dwords_of(command: &Command) -> usize
    ensures value { result ≡ length command.now }
    ensures few { result ≤ 65 }
{
    command.words().len()
}

/// The address at which a command starts a privileged batch, if it does.
pub(crate) fn started(command: &Command) -> Option<u64>
    ensures start { MatchOption result (is_fetched_start (kind_of command.now) ≡ false) (λ to. (second : Bool) × (kind_of command.now ≡ Some (BatchStart false second to))) }
    ensures form { IfSome result IsDwordAddress }
{
    match command.kind() {
        Kind::BatchStart {
            live: false,
            at,
            ..
        } => Some(at),
        _ => None,
    }
}
