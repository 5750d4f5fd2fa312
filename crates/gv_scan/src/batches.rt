ghost use Rattle.std.specs.Prelude.{◌≡◌, ◌≤◌, ◌<◌, ◌+◌, ◌*◌, ◌%◌, ◌^◌, ◌++◌, IfOk, IfErr, OnOk, length};
ghost use Rattle.gv_cmd.specs.declared.stands.Stands.TheVariants.{Privileged, Second};
ghost use Rattle.gv_fetch.specs.Fetch.{whole_batch};
ghost use Rattle.gv_fetch.specs.Items.{start_at};
ghost use Rattle.gv_scan.specs.Scan.{IsFault, SecondDone, FirstDone, StartDone};

use crate::append::{append, append_batch, append_start};
use crate::command::{batch_command, dwords_of, ends, started};
use crate::{Reader, ScanFault};
use gv_cmd::{Command, Stands};
use gv_types::EngineId;
use std::alloc::Global;

/// Appends the copy of a batch of the second level, and answers how many dwords of batches may
/// still be fetched.
fn second_level<R: Reader>(
    reader: &R,
    engine: EngineId,
    start: u64,
    budget: usize,
    batches: &mut Vec<u32>,
) -> Result<usize, ScanFault>
    requires small { start < 2 ^ 48 }
    requires aligned { start % 4 ≡ 0 }
    ensures done { IfOk result (SecondDone (whole_batch (R.space reader.now) engine.0 Second start budget) batches.old.items batches.new.items) }
    ensures room { IfOk result (λ left. length batches.new.items + left ≤ length batches.old.items + budget) }
    ensures fault { IfErr result (IsFault (whole_batch (R.space reader.now) engine.0 Second start budget)) }
{
    let mut at = start;
    let mut left = budget;
    loop {
        let command = match batch_command(reader, engine, Stands::Second, at, left) {
            Ok(command) => command,
            Err(reason) => return Err(ScanFault::Refused(reason)),
        };
        let count = append(batches, &command)?;
        left -= count;
        at += 4 * count as u64;
        if ends(&command) {
            return Ok(left);
        }
    }
}

/// Appends the copy of a batch of the second level, and to the list that starts it the copy of its
/// start.
fn with_second_level<R: Reader>(
    reader: &R,
    engine: EngineId,
    command: &Command,
    to: u64,
    left: usize,
    batches: &mut Vec<u32>,
    own: &mut Vec<u32>,
) -> Result<usize, ScanFault>
    requires small { to < 2 ^ 48 }
    requires aligned { to % 4 ≡ 0 }
    requires room { length batches.old.items ≤ 262144 }
    ensures done { IfOk result (SecondDone (whole_batch (R.space reader.now) engine.0 Second to left) batches.old.items batches.new.items) }
    ensures start { OnOk result (own.new.items ≡ own.old.items ++ start_at command.now (4 * length batches.old.items)) }
    ensures room { IfOk result (λ r. length batches.new.items + r ≤ length batches.old.items + left) }
    ensures fault { IfErr result (IsFault (whole_batch (R.space reader.now) engine.0 Second to left)) }
{
    let offset = (4 * batches.len()) as u32;
    let rest = second_level(reader, engine, to, left, batches)?;
    append_start(own, command, offset)?;
    Ok(rest)
}

/// Appends the copy of a batch of the first level behind those of the second that it starts. It
/// answers the byte offset of its copy, and how many dwords of batches may still be fetched.
fn first_level<R: Reader>(
    alloc: Global,
    reader: &R,
    engine: EngineId,
    start: u64,
    budget: usize,
    batches: &mut Vec<u32>,
) -> Result<(u32, usize), ScanFault>
    requires small { start < 2 ^ 48 }
    requires aligned { start % 4 ≡ 0 }
    requires room { length batches.old.items + budget ≤ 262144 }
    ensures done { IfOk result (λ r. FirstDone (whole_batch (R.space reader.now) engine.0 Privileged start budget) batches.old.items batches.new.items r.0 r.1) }
    ensures room { IfOk result (λ r. length batches.new.items + r.1 ≤ length batches.old.items + budget) }
    ensures fault { IfErr result (IsFault (whole_batch (R.space reader.now) engine.0 Privileged start budget)) }
{
    let mut own: Vec<u32> = Vec::new(alloc);
    let mut at = start;
    let mut left = budget;
    'commands: loop {
        let command = match batch_command(reader, engine, Stands::Privileged, at, left) {
            Ok(command) => command,
            Err(reason) => return Err(ScanFault::Refused(reason)),
        };
        let count = dwords_of(&command);
        at += 4 * count as u64;
        if let Some(to) = started(&command) {
            match with_second_level(
                reader,
                engine,
                &command,
                to,
                left - count,
                batches,
                &mut own,
            ) {
                Ok(rest) => left = rest,
                Err(fault) => return Err(fault),
            }
            continue 'commands;
        }
        left -= count;
        append(&mut own, &command)?;
        if ends(&command) {
            let offset = append_batch(batches, &own)?;
            return Ok((offset, left));
        }
    }
}

/// Appends the copy of a batch of the first level, and to the ring the copy of its start.
pub(crate) fn with_first_level<R: Reader>(
    alloc: Global,
    reader: &R,
    engine: EngineId,
    command: &Command,
    to: u64,
    left: usize,
    batches: &mut Vec<u32>,
    own: &mut Vec<u32>,
) -> Result<usize, ScanFault>
    requires small { to < 2 ^ 48 }
    requires aligned { to % 4 ≡ 0 }
    requires room { length batches.old.items + left ≤ 262144 }
    ensures done { IfOk result (StartDone (whole_batch (R.space reader.now) engine.0 Privileged to left) command.now batches.old.items batches.new.items own.old.items own.new.items) }
    ensures room { IfOk result (λ r. length batches.new.items + r ≤ length batches.old.items + left) }
    ensures fault { IfErr result (IsFault (whole_batch (R.space reader.now) engine.0 Privileged to left)) }
{
    let (offset, rest) = first_level(alloc, reader, engine, to, left, batches)?;
    append_start(own, command, offset)?;
    Ok(rest)
}
