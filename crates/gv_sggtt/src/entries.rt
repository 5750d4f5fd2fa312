ghost use Rattle.std.specs.Prelude.{◌≡◌, ◌+◌, ◌<◌, length, IfOk, IfSome, MatchOption, replicate, slice_index, slice_set};

use gv_types::OutOfMemory;
use std::alloc::Global;
use std::marker::Model;

/// Entries by their slots, of which those that were written since all were 0 are known. So setting all
/// to 0 again costs what was written, and not what there is. A clause sees the values, and how many
/// slots are to be set to 0.
#[derive(Drop)]
pub(crate) struct Entries {
    values: Vec<u64>,
    // the slots that were written, each once, with room for all
    written: Vec<usize>,
    // whether a slot is among them
    is_written: Vec<bool>,
}

impl Model for Entries {
    ghost use Rattle.gv_sggtt.specs.Entries.{Kept, AreWritten};

    ghost Value = { Kept };

    ghost use Rattle.std.specs.Prelude.{length, ◌≤◌, vec_capacity};

    ghost view = { λ s. record {
      values = s.values.items;
      left = length s.written.items;
    } };

    ghost invariant = { λ s. AreWritten s.values.items s.written.items s.is_written.items × (length s.values.items ≤ vec_capacity s.written) };
}

impl Entries {
    /// So many entries of 0.
    pub(crate) fn new(alloc: Global, count: usize) -> Result<Entries, OutOfMemory>
        ensures { IfOk result (λ s. s.values ≡ replicate count 0) }
    {
        Ok(Entries {
            values: vec![in alloc; 0; count]?,
            written: Vec::with_capacity(alloc, count)?,
            is_written: vec![in alloc; false; count]?,
        })
    }

    pub(crate) fn get(&self, slot: usize) -> u64
        requires { slot < length self.now.values }
        ensures { result ≡ slice_index self.now.values slot }
    {
        self.values[slot]
    }

    pub(crate) fn set(&mut self, slot: usize, value: u64)
        requires { slot < length self.old.values }
        ensures { self.new.values ≡ slice_set self.old.values slot value }
    {
        self.values[slot] = value;
        if self.is_written[slot] {
            return;
        }
        self.is_written[slot] = true;
        self.written.push(slot).unwrap();
    }

    /// Sets the entry of one of the written slots to 0, and answers the slot and what its entry was; none,
    /// where every entry is 0 and none is left.
    pub(crate) fn take_written(&mut self) -> Option<(usize, u64)>
        ensures there { MatchOption result (self.new ≡ self.old) (λ taken. taken.0 < length self.old.values) }
        ensures entry { IfSome result (λ taken. taken.1 ≡ slice_index self.old.values taken.0) }
        ensures values { MatchOption result (self.old.values ≡ replicate (length self.old.values) 0) (λ taken. self.new.values ≡ slice_set self.old.values taken.0 0) }
        ensures left { MatchOption result (self.old.left ≡ 0) (λ _. self.new.left + 1 ≡ self.old.left) }
    {
        let slot = self.written.pop()?;
        let entry = self.values[slot];
        self.is_written[slot] = false;
        self.values[slot] = 0;
        Some((slot, entry))
    }
}
