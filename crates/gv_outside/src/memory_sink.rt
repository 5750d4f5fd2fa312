ghost use Rattle.std.specs.Prelude.{◌≡◌, ◌<◌, ◌≤◌, ◌↔◌, length, take, Some, IfOk, OnErr, IsErr};
ghost use Rattle.std.specs.Io.KnownBytes.{WriteAppends};
ghost use Rattle.gv_outside.specs.Causes.{HasCause};
ghost use Rattle.gv_outside.specs.SinkState.{new_sink, FailsNext, count_appended, after_appending, after_fault};

use crate::{Sink, SinkFailed};
use gv_types::OutOfMemory;
use std::alloc::Global;
use std::marker::Model;

/// A sink over memory, for tests: it takes its bytes in pieces, up to a number of bytes, and fails
/// the calls that it is told to fail.
#[derive(Drop)]
pub struct MemorySink {
    bytes: Vec<u8>,
    room: usize,
    most: usize,
    failing: Vec<u64>,
    calls: u64,
    faults: u64,
}

impl Model for MemorySink {
    ghost use Rattle.std.specs.Prelude.{◌<◌, ◌≤◌, vec_len, vec_capacity};
    ghost use Rattle.gv_outside.specs.SinkState.{SinkState};

    ghost Value = { SinkState };

    ghost view = { λ s. record {
      held = s.bytes.items;
      room = s.room;
      most = s.most;
      failing = s.failing.items;
      calls = s.calls;
      faults = s.faults;
    } };

    ghost invariant = { λ s. (vec_len s.bytes ≤ s.room) × (s.room ≤ vec_capacity s.bytes) × (0 < s.most) };
}

impl MemorySink {
    /// An empty sink, with the memory for `room` bytes. A call appends at most `most` of them; the
    /// calls whose numbers are in `failing`, counted from 1, fail, and so do those with a piece that
    /// isn't empty when no room is left.
    pub fn new(
        alloc: Global,
        room: usize,
        most: usize,
        failing: Vec<u64>,
    ) -> Result<MemorySink, OutOfMemory>
        requires { 0 < most }
        ensures { IfOk result (λ sink. sink ≡ new_sink room most failing.items) }
    {
        Ok(MemorySink {
            bytes: Vec::with_capacity(alloc, room)?,
            room,
            most,
            failing,
            calls: 0,
            faults: 0,
        })
    }

    /// The bytes that it holds.
    pub fn bytes(&self) -> &[u8]
        ensures { result.now ≡ self.now.held }
    {
        &self.bytes
    }
}

impl Sink for MemorySink {
    ghost held = { λ s. Some s.held };

    ghost faults = { λ s. s.faults };

    /// Appends as many bytes as the piece has, as a call appends at most and as there is room for.
    /// It takes no memory.
    fn write(&mut self, piece: &[u8]) -> Result<usize, SinkFailed>
        ensures some { 0 < length piece.now → IfOk result (λ n. 0 < n) }
        ensures bound { IfOk result (λ n. n ≤ length piece.now) }
        ensures bytes { WriteAppends (Some self.old.held) (Some self.new.held) result piece.now }
        ensures cause { HasCause self.old.faults self.new.faults result }

        ensures fails { IsErr result ↔ FailsNext self.old piece.now }
        ensures count { IfOk result (λ n. n ≡ count_appended self.old piece.now) }
        ensures after { IfOk result (λ n. self.new ≡ after_appending self.old (take n piece.now)) }
        ensures after_fault { OnErr result (self.new ≡ after_fault self.old) }
    {
        self.calls = self.calls.saturating_add(1);
        let room = self.room - self.bytes.len();
        let full = room == 0 && !piece.is_empty();
        if full || self.failing.contains(&self.calls) {
            self.faults = self.faults.saturating_add(1);
            return Err(SinkFailed);
        }
        let count = piece.len().min(self.most).min(room);
        self.bytes.extend_from_slice(&piece[..count]).unwrap();
        Ok(count)
    }
}
