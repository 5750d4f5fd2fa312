ghost use Rattle.std.specs.Prelude.{◌≡◌, ◌<◌, ◌≤◌, None, length, IfOk, is_ok, if◌then◌else◌};
ghost use Rattle.std.specs.Io.KnownBytes.{ReadConsumes};
ghost use Rattle.gv_outside.specs.Causes.{HasCause, one_more};
ghost use Rattle.gv_outside.specs.StdSource.{faults_of, reader_of};

use crate::attempt::Attempt;
use crate::{Source, SourceFailed};
use std::io::Read;

/// A std reader as a source. It tells no bytes. A read that was interrupted is tried again; any
/// other error is a fault.
#[derive(Drop)]
pub struct StdSource<R> {
    inner: R,
    faults: u64,
}

impl<R: Read> StdSource<R> {
    /// The reader as a source, with no faults so far.
    pub fn new(inner: R) -> StdSource<R>
        ensures reader { reader_of result ≡ inner }
        ensures faults { faults_of result ≡ 0 }
    {
        StdSource { inner, faults: 0 }
    }
}

impl<R: Read> Source for StdSource<R> {
    ghost left = { λ _. None };

    ghost faults = { faults_of };

    fn read(&mut self, into: &mut [u8]) -> Result<usize, SourceFailed>
        requires { 0 < length into.old }
        ensures bound { IfOk result (λ n. n ≤ length into.new) }
        ensures bytes { ReadConsumes None None result into.new }
        ensures cause { HasCause (faults_of self.old) (faults_of self.new) result }

        ensures count { faults_of self.new ≡ (if is_ok result then faults_of self.old else one_more (faults_of self.old)) }
        ensures reader { ReadConsumes (R.remaining (reader_of self.old)) (R.remaining (reader_of self.new)) result into.new }
    {
        for _ in 0..u64::MAX {
            match Attempt::of(self.inner.read(into), true) {
                Attempt::Took(count) => return Ok(count),
                Attempt::Again => {}
                Attempt::Failed => break,
            }
        }
        self.faults = self.faults.saturating_add(1);
        Err(SourceFailed)
    }
}
