ghost use Rattle.std.specs.Prelude.{◌≡◌, ◌≤◌, [], ◌++◌, length, drop, vec_len, IfOk, OnOk, OnErr};
ghost use Rattle.gv_outside.specs.Causes.{HasCause};
ghost use Rattle.gv_lines.specs.Outlet.{Passes, got};
ghost use Rattle.gv_lines.specs.Summary.{totals_after};
ghost use Rattle.gv_lines.specs.Writer.{PassesOn};

use crate::{Outlet, Totals};
use gv_outside::{Sink, SinkFailed};
use gv_types::OutOfMemory;
use std::alloc::Global;
use std::marker::Model;

/// How many bytes are written at a time at the most.
const PIECE: usize = 65_536;

/// Writes report lines to a sink, piece by piece, or has them summed up. It takes room for a piece at first, and more only where
/// more than half a piece is pushed before it passes on what it holds. A clause sees the bytes that it
/// holds, which aren't written yet.
#[derive(Drop)]
pub struct ReportWriter {
    buffer: Vec<u8>,
    written: usize,
}

impl Model for ReportWriter {
    ghost use Rattle.std.specs.Prelude.{ℕ, List, ◌≤◌, drop, vec_len};

    ghost Value = { List ℕ };

    ghost view = { λ w. drop w.written w.buffer.items };

    ghost invariant = { λ w. w.written ≤ vec_len w.buffer };
}

impl ReportWriter {
    /// A writer that holds nothing.
    pub fn new(alloc: Global) -> Result<ReportWriter, OutOfMemory>
        ensures { IfOk result (λ writer. writer ≡ []) }
    {
        Ok(ReportWriter {
            buffer: Vec::with_capacity(alloc, PIECE)?,
            written: 0,
        })
    }

    /// One more line. Where there is no memory for it, it isn't taken.
    pub fn push(&mut self, line: &[u8]) -> Result<(), OutOfMemory>
        ensures ok { OnOk result (self.new ≡ self.old ++ line.now) }
        ensures err { OnErr result (self.new ≡ self.old) }
    {
        self.buffer.extend_from_slice(line)?;
        Ok(())
    }

    /// Writes what is held, once it is half a piece or more. What isn't written stays held.
    pub fn pass_on<K: Sink>(&mut self, sink: &mut K) -> Result<(), SinkFailed>
        ensures passes { PassesOn self.old self.new (K.held sink.old) (K.held sink.new) }
        ensures cause { HasCause (K.faults sink.old) (K.faults sink.new) result }
    {
        if self.buffer.len() < PIECE / 2 {
            return Ok(());
        }
        write_out(&mut self.buffer, &mut self.written, sink)
    }

    /// Writes what is held. Where that fails, what wasn't written stays held.
    pub fn flush<K: Sink>(&mut self, sink: &mut K) -> Result<(), SinkFailed>
        ensures ok { OnOk result (self.new ≡ []) }
        ensures passes { PassesOn self.old self.new (K.held sink.old) (K.held sink.new) }
        ensures cause { HasCause (K.faults sink.old) (K.faults sink.new) result }
    {
        write_out(&mut self.buffer, &mut self.written, sink)
    }

    /// Passes what is held on to an outlet: to its sink, once it is half a piece or more, or into its totals.
    pub fn pass_to<K: Sink>(&mut self, outlet: &mut Outlet, sink: &mut K) -> Result<(), SinkFailed>
        ensures passes { Passes self.old self.new (got outlet.old (K.held sink.old)) (got outlet.new (K.held sink.new)) }
        ensures cause { HasCause (K.faults sink.old) (K.faults sink.new) result }
    {
        match outlet {
            Outlet::Sink => self.pass_on(sink),
            Outlet::Totals(totals) => {
                self.sum_up(totals);
                Ok(())
            }
        }
    }

    /// Passes all that is held on to an outlet. Where that fails, what wasn't written stays held.
    pub fn flush_to<K: Sink>(&mut self, outlet: &mut Outlet, sink: &mut K) -> Result<(), SinkFailed>
        ensures ok { OnOk result (self.new ≡ []) }
        ensures passes { Passes self.old self.new (got outlet.old (K.held sink.old)) (got outlet.new (K.held sink.new)) }
        ensures cause { HasCause (K.faults sink.old) (K.faults sink.new) result }
    {
        match outlet {
            Outlet::Sink => self.flush(sink),
            Outlet::Totals(totals) => {
                self.sum_up(totals);
                Ok(())
            }
        }
    }

    // Adds what is held to totals, and holds nothing then.
    fn sum_up(&mut self, totals: &mut Totals)
        ensures none { self.new ≡ [] }
        ensures totals { totals.new ≡ totals_after totals.old self.old }
    {
        totals.take(&self.buffer[self.written..]);
        self.buffer.clear();
        self.written = 0;
    }
}

// Writes the buffer's bytes from `written` on, and then empties it.
fn write_out<K: Sink>(
    buffer: &mut Vec<u8>,
    written: &mut usize,
    sink: &mut K,
) -> Result<(), SinkFailed>
    requires { written.old ≤ vec_len buffer.old }
    ensures ok { OnOk result ((buffer.new.items ≡ []) × (written.new ≡ 0)) }
    ensures err { OnErr result (buffer.new.items ≡ buffer.old.items) }
    ensures within { written.new ≤ vec_len buffer.new }
    ensures passes { PassesOn (drop written.old buffer.old.items) (drop written.new buffer.new.items) (K.held sink.old) (K.held sink.new) }
    ensures cause { HasCause (K.faults sink.old) (K.faults sink.new) result }
{
    while *written < buffer.len() {
        let end = buffer.len().min(*written + PIECE);
        *written += sink.write(&buffer[*written..end])?;
    }
    buffer.clear();
    *written = 0;
    Ok(())
}
