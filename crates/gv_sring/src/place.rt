ghost use Rattle.std.specs.Prelude.{◌≡◌, ◌<◌, ◌+◌, ◌^◌, ◌++◌, IfOk, OnOk, Ok, length};
ghost use Rattle.gv_scan.specs.Layout.{AreWhole, IsCopy, most_bytes, placed};
ghost use Rattle.gv_sring.specs.Packing.{ArePlaced, BeginsWithCopy};
ghost use Rattle.gv_cmd.specs.Command.{decoded};

use gv_cmd::{Command, Kind, decode};
use gv_types::OutOfMemory;
use std::alloc::Global;

/// Appends a command; the address of a start of a fetched batch is counted from `base`.
fn append_placed(list: &mut Vec<u32>, command: &Command, base: u32) -> Result<(), OutOfMemory>
    requires copy { IsCopy command.now }
    requires low { base + most_bytes < 2 ^ 32 }
    ensures { OnOk result (list.new.items ≡ list.old.items ++ placed base command.now) }
{
    let words = command.words();
    match command.kind() {
        Kind::BatchStart {
            live: false,
            at,
            ..
        } => list.extend_from_slice(&[words[0], base + at as u32, 0])?,
        _ => list.extend_from_slice(words)?,
    }
    Ok(())
}

/// The command at the front of dwords that begin with one.
fn front(words: &[u32]) -> Command
    requires { BeginsWithCopy words.now }
    ensures { decoded words.now ≡ Ok (result, length result) }
{
    match decode(words) {
        Ok((command, _)) => command,
        Err(_) => unreachable!(),
    }
}

/// Whole commands with the byte offset of each start of a fetched batch made an address, where the
/// batches begin at `base`.
pub(crate) fn place(alloc: Global, words: &[u32], base: u32) -> Result<Vec<u32>, OutOfMemory>
    requires whole { AreWhole words.now }
    requires low { base + most_bytes < 2 ^ 32 }
    ensures placed { IfOk result (λ v. ArePlaced base words.now v.items) }
    ensures count { IfOk result (λ v. length v.items ≡ length words.now) }
{
    let mut list = Vec::with_capacity(alloc, words.len())?;
    let mut at = 0;
    'commands: while at < words.len() {
        let command = front(&words[at..]);
        append_placed(&mut list, &command, base)?;
        at += command.words().len();
    }
    Ok(list)
}
