ghost use Rattle.std.specs.Prelude.{◌≡◌, ◌+◌, ◌*◌, ◌^◌, ◌<◌, ◌≤◌, length, IfOk, IfSome, IsSome, None, MatchOption, replicate, slice_index, slice_set};
ghost use Rattle.gv_entry.specs.Entry.{global_frame};
ghost use Rattle.gv_rmap.specs.Leaves.{leaf_at, key};
ghost use Rattle.gv_rmap.specs.Chains.{chain_of};
ghost use Rattle.gv_sggtt.specs.Linked.{leaf_of, leaves_from, names, chains_with, chains_without};

use crate::entries::Entries;
use gv_entry::global_of;
use gv_rmap::{Chains, Leaf, Walk};
use gv_types::{OutOfMemory, PAGE_WORDS};
use std::alloc::Global;
use std::marker::Model;

/// Entries by their slots, and for each frame the slots of the entries that name it. A clause sees the
/// values, how many slots are to be set to 0, and how many frames there are.
#[derive(Drop)]
pub(crate) struct LinkedEntries {
    entries: Entries,
    frames: u32,
    chains: Chains,
}

impl Model for LinkedEntries {
    ghost use Rattle.gv_sggtt.specs.Linked.{Linked, AreLinked};

    ghost Value = { Linked };

    ghost view = { λ s. record {
      values = s.entries.values;
      left = s.entries.left;
      frames = s.frames;
    } };

    ghost invariant = { λ s. AreLinked s.frames s.entries.values s.chains };
}

// The entries count as the words of pages of 512, by their slots.
fn leaf_of(slot: usize) -> Leaf
    ensures { result ≡ leaf_of slot }
{
    Leaf {
        page: (slot / PAGE_WORDS) as u64,
        index: (slot % PAGE_WORDS) as u16,
        writable: true,
    }
}

/// Which slot that is.
pub(crate) fn slot_of_leaf(leaf: Leaf) -> usize
    requires { leaf.page < 2 ^ 32 }
    ensures { result ≡ leaf.page * 512 + leaf.index }
{
    leaf.page as usize * PAGE_WORDS + leaf.index as usize
}

fn unlink(chains: &mut Chains, frame: Option<u32>, slot: usize)
    requires there { IfSome frame (λ frame. frame < length chains.old.chains) }
    requires linked { IfSome frame (λ frame. IsSome (leaf_at (chain_of chains.old frame) (key (leaf_of slot)))) }
    ensures { chains.new ≡ chains_without chains.old frame slot }
{
    if let Some(frame) = frame {
        chains.unlink(frame, leaf_of(slot));
    }
}

fn link(chains: &mut Chains, frame: Option<u32>, slot: usize)
    requires there { IfSome frame (λ frame. frame < length chains.old.chains) }
    requires absent { IfSome frame (λ frame. leaf_at (chain_of chains.old frame) (key (leaf_of slot)) ≡ None) }
    requires room { IfSome frame (λ _. 1 ≤ chains.old.spare) }
    ensures { chains.new ≡ chains_with chains.old frame slot }
{
    if let Some(frame) = frame {
        chains.link(frame, leaf_of(slot));
    }
}

impl LinkedEntries {
    /// So many entries of 0, for so many frames.
    pub(crate) fn new(alloc: Global, count: u32, frames: u32) -> Result<LinkedEntries, OutOfMemory>
        ensures { IfOk result (λ s. (s.values ≡ replicate count 0) × (s.frames ≡ frames)) }
    {
        let mut chains = Chains::new(alloc, frames)?;
        chains.reserve(count)?;
        Ok(LinkedEntries {
            entries: Entries::new(alloc, count as usize)?,
            frames,
            chains,
        })
    }

    pub(crate) fn frames(&self) -> u32
        ensures { result ≡ self.now.frames }
    {
        self.frames
    }

    pub(crate) fn get(&self, slot: usize) -> u64
        requires { slot < length self.now.values }
        ensures { result ≡ slice_index self.now.values slot }
    {
        self.entries.get(slot)
    }

    /// The frame that an entry names, if any.
    pub(crate) fn frame(&self, slot: usize) -> Option<u32>
        requires { slot < length self.now.values }
        ensures { result ≡ global_frame (slice_index self.now.values slot) self.now.frames }
    {
        global_of(self.entries.get(slot), self.frames)
    }

    // Sets an entry to 0.
    fn reset(&mut self, slot: usize)
        requires { slot < length self.old.values }
        ensures values { self.new.values ≡ slice_set self.old.values slot 0 }
        ensures frames { self.new.frames ≡ self.old.frames }
    {
        let frame = self.frame(slot);
        unlink(&mut self.chains, frame, slot);
        self.entries.set(slot, 0);
    }

    // Sets an entry that named no frame.
    fn fill(&mut self, slot: usize, value: u64)
        requires within { slot < length self.old.values }
        requires free { global_frame (slice_index self.old.values slot) self.old.frames ≡ None }
        ensures values { self.new.values ≡ slice_set self.old.values slot value }
        ensures frames { self.new.frames ≡ self.old.frames }
    {
        link(&mut self.chains, global_of(value, self.frames), slot);
        self.entries.set(slot, value);
    }

    pub(crate) fn set(&mut self, slot: usize, value: u64)
        requires { slot < length self.old.values }
        ensures values { self.new.values ≡ slice_set self.old.values slot value }
        ensures frames { self.new.frames ≡ self.old.frames }
    {
        self.reset(slot);
        self.fill(slot, value);
    }

    /// Sets the entry of one of the written slots to 0, and answers the slot and what its entry was; none,
    /// where every entry is 0 and none is left.
    pub(crate) fn take_written(&mut self) -> Option<(usize, u64)>
        ensures there { MatchOption result (self.new ≡ self.old) (λ taken. taken.0 < length self.old.values) }
        ensures entry { IfSome result (λ taken. taken.1 ≡ slice_index self.old.values taken.0) }
        ensures values { MatchOption result (self.old.values ≡ replicate (length self.old.values) 0) (λ taken. self.new.values ≡ slice_set self.old.values taken.0 0) }
        ensures left { MatchOption result (self.old.left ≡ 0) (λ _. self.new.left + 1 ≡ self.old.left) }
        ensures frames { self.new.frames ≡ self.old.frames }
    {
        let (slot, entry) = self.entries.take_written()?;
        unlink(&mut self.chains, global_of(entry, self.frames), slot);
        Some((slot, entry))
    }

    /// The slots whose entries name a frame, each once.
    pub(crate) fn naming(&self, frame: u32) -> Walk<'_>
        requires { frame < self.now.frames }
        ensures { result ≡ leaves_from 0 (names self.now.frames frame) self.now.values }
    {
        self.chains.walk(frame)
    }
}
