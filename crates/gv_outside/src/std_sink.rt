ghost use Rattle.std.specs.Prelude.{◌≡◌, ◌<◌, ◌≤◌, None, length, IfOk, is_ok, if◌then◌else◌};
ghost use Rattle.std.specs.Io.KnownBytes.{WriteAppends, Keeps};
ghost use Rattle.gv_outside.specs.Causes.{HasCause, one_more};
ghost use Rattle.gv_outside.specs.StdSink.{faults_of, writer_of};

use crate::attempt::Attempt;
use crate::{Sink, SinkFailed};
use std::io;
use std::io::Write;

/// A std writer as a sink. It tells no bytes. A write that was interrupted is tried again; any
/// other error is a fault, and so is a write that takes nothing of a piece that isn't empty.
///
/// What a buffered writer has taken may still be on its way: call `flush` before the process ends.
/// std's standard output has no buffer.
#[derive(Drop)]
pub struct StdSink<W> {
    inner: W,
    faults: u64,
}

impl<W: Write> StdSink<W> {
    /// The writer as a sink, with no faults so far.
    pub fn new(inner: W) -> StdSink<W>
        ensures writer { writer_of result ≡ inner }
        ensures faults { faults_of result ≡ 0 }
    {
        StdSink { inner, faults: 0 }
    }

    /// Hands on what the writer has in a buffer.
    pub fn flush(&mut self) -> Result<(), SinkFailed>
        ensures cause { HasCause (faults_of self.old) (faults_of self.new) result }
        ensures count { faults_of self.new ≡ (if is_ok result then faults_of self.old else one_more (faults_of self.old)) }
        ensures writer { Keeps (W.contents (writer_of self.old)) (W.contents (writer_of self.new)) }
    {
        counted(&mut self.faults, self.inner.flush())
    }
}

// Counts a flush that failed.
fn counted(faults: &mut u64, outcome: io::Result<()>) -> Result<(), SinkFailed>
    ensures answer { is_ok result ≡ is_ok outcome }
    ensures cause { HasCause faults.old faults.new result }
    ensures count { faults.new ≡ (if is_ok outcome then faults.old else one_more faults.old) }
{
    match outcome {
        Ok(()) => Ok(()),
        Err(_) => {
            *faults = faults.saturating_add(1);
            Err(SinkFailed)
        }
    }
}

impl<W: Write> Sink for StdSink<W> {
    ghost held = { λ _. None };

    ghost faults = { faults_of };

    fn write(&mut self, piece: &[u8]) -> Result<usize, SinkFailed>
        ensures some { 0 < length piece.now → IfOk result (λ n. 0 < n) }
        ensures bound { IfOk result (λ n. n ≤ length piece.now) }
        ensures bytes { WriteAppends None None result piece.now }
        ensures cause { HasCause (faults_of self.old) (faults_of self.new) result }

        ensures count { faults_of self.new ≡ (if is_ok result then faults_of self.old else one_more (faults_of self.old)) }
        ensures writer { WriteAppends (W.contents (writer_of self.old)) (W.contents (writer_of self.new)) result piece.now }
    {
        for _ in 0..u64::MAX {
            match Attempt::of(self.inner.write(piece), piece.is_empty()) {
                Attempt::Took(count) => return Ok(count),
                Attempt::Again => {}
                Attempt::Failed => break,
            }
        }
        self.faults = self.faults.saturating_add(1);
        Err(SinkFailed)
    }
}
