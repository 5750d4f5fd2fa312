ghost use Rattle.std.specs.Prelude.{◌≡◌, ◌≤◌, ◌*◌, ◌++◌, IfOk, IfErr, OnOk, length};
ghost use Rattle.gv_fetch.specs.Items.{start_at};

use crate::ScanFault;
use gv_cmd::Command;

/// Appends the copy of a start of a privileged batch, which holds an offset.
pub(crate) fn append_start(
    list: &mut Vec<u32>,
    command: &Command,
    offset: u32,
) -> Result<(), ScanFault>
    ensures items { OnOk result (list.new.items ≡ list.old.items ++ start_at command.now offset) }
    ensures fault { IfErr result (λ e. e ≡ ScanFault.OutOfMemory) }
{
    let words = command.words();
    list.extend_from_slice(&[words[0], offset, 0])?;
    Ok(())
}

/// Appends the dwords of a command, and answers their number.
pub(crate) fn append(list: &mut Vec<u32>, command: &Command) -> Result<usize, ScanFault>
    ensures count { IfOk result (λ n. n ≡ length command.now) }
    ensures few { IfOk result (λ n. n ≤ 65) }
    ensures items { OnOk result (list.new.items ≡ list.old.items ++ command.now) }
    ensures fault { IfErr result (λ e. e ≡ ScanFault.OutOfMemory) }
{
    let words = command.words();
    list.extend_from_slice(words)?;
    Ok(words.len())
}

/// Appends a batch's own commands behind the others, and answers the byte offset at which they are.
pub(crate) fn append_batch(batches: &mut Vec<u32>, own: &[u32]) -> Result<u32, ScanFault>
    requires { length batches.old.items ≤ 262144 }
    ensures offset { IfOk result (λ offset. offset ≡ 4 * length batches.old.items) }
    ensures items { OnOk result (batches.new.items ≡ batches.old.items ++ own.now) }
    ensures fault { IfErr result (λ e. e ≡ ScanFault.OutOfMemory) }
{
    let offset = (4 * batches.len()) as u32;
    batches.extend_from_slice(own)?;
    Ok(offset)
}
