ghost use Rattle.std.specs.Prelude.{◌≡◌, ℕ, Some, None, ◌+◌, ◌*◌, ◌/◌, ◌<◌, ◌≤◌, true, false, is_some, length, List, OnOk, OnErr, IfOk, IsErrOf};
ghost use Rattle.gv_types.specs.Memory.{Memory as Words};
ghost use Rattle.gv_entry.specs.Tables.{has_bad_entry};
ghost use Rattle.gv_guest.specs.Placed.{Placed, memory_in};
ghost use Rattle.gv_gpu.specs.Device.{Device};
ghost use Rattle.gv_shape.specs.Counts.{is_among};
ghost use Rattle.gv_sppgtt.specs.Grown.{Rests, HaveSameNodes, nodes_of};
ghost use Rattle.gv_sppgtt.specs.Clearing.{IsWithin};
ghost use Rattle.gv_sppgtt.specs.Sound.{flag};
ghost use Rattle.gv_sppgtt.specs.State.{pages_of, sketch_of, is_table};
ghost use Rattle.gv_sppgtt.specs.Holding.{Holds, Keeps};
ghost use Rattle.gv_sppgtt.specs.Serving.{roots_of, frames_of, roles_of, bit_if, guarded_of, Serves, ChangesTables, Tells, with_root, without_root, is_refused, ChangedAt, IsReady};

use crate::tables::TableFault;
use crate::tell::untouched;
use crate::{Changed, Tables};
use gv_gpu::Gpu;
use gv_guest::{Frames, Memory, Pins};
use gv_nodes::Nodes;
use gv_rmap::Chains;
use gv_types::{GuestId, MAX_LIVE_PAGES, OutOfMemory};
use std::alloc::Global;

// Host pages go by numbers below this one.
const PAGES: usize = MAX_LIVE_PAGES as usize;

impl Tables {
    /// No roots and no shadow tables, for a guest with so many frames.
    pub fn new(alloc: Global, guest: GuestId, frames: u32) -> Result<Tables, OutOfMemory>
        requires { frames ≤ 16384 }
        ensures { IfOk result (λ t. (d : Device) (placed : Placed) (pins : List ℕ) → IsReady guest.0 frames d placed pins → Serves d placed pins t (memory_in d placed)) }
    {
        Ok(Tables {
            alloc,
            guest,
            nodes: Nodes::new(alloc, frames)?,
            chains: Chains::new(alloc, frames)?,
            owners: vec![in alloc; 0; PAGES]?,
            told: vec![in alloc; false; frames as usize]?,
            touched: untouched(),
        })
    }

    /// Announces a root, by its frame's number. A root that is there already changes nothing.
    ///
    /// After `BadEntry` only `clear` may follow. It comes where the frame isn't in memory, and where with it a live
    /// table has a bad entry.
    pub fn create<G: Gpu>(
        &mut self,
        gpu: &mut G,
        memory: &mut Memory,
        root: u64,
    ) -> Result<Changed, TableFault>
        requires serves { Serves (G.state gpu.old) memory.old.frames memory.old.pins self.old (memory_in (G.state gpu.old) memory.old.frames) }
        ensures serves { OnOk result (Serves (G.state gpu.new) memory.new.frames memory.new.pins self.new (memory_in (G.state gpu.new) memory.new.frames)) }
        ensures roots { OnOk result (roots_of self.new ≡ with_root (length memory.old.frames.pages) (roots_of self.old) root) }
        ensures stay { OnOk result (IsWithin (pages_of self.old) (pages_of self.new)) }
        ensures changed { IfOk result (λ changed. Tells (guarded_of self.old) (guarded_of self.new) (length memory.old.frames.pages) changed.guarded.items changed.unguarded.items) }
        ensures good { OnOk result (is_refused (memory_in (G.state gpu.old) memory.old.frames) (roots_of self.old) root ≡ false) }
        ensures bad { IsErrOf result TableFault.BadEntry → is_refused (memory_in (G.state gpu.old) memory.old.frames) (roots_of self.old) root ≡ true }
        ensures frames { memory.new.frames ≡ memory.old.frames }
        ensures holds { Holds (G.state gpu.new) memory.new.frames self.new memory.new.pins }
        ensures changes { ChangesTables memory.old.frames (G.state gpu.old) (G.state gpu.new) self.old self.new memory.old.pins memory.new.pins }
    {
        if root >= u64::from(memory.frames.count()) {
            return Err(TableFault::BadEntry);
        }
        let root = root as u32;
        if self.has_node(root, 4) {
            return Ok(Changed::none(self.alloc));
        }
        self.add_root(gpu, &memory.frames, &mut memory.pins, root)
    }

    /// Follows a change of one word of a frame of the guest's memory: word `index` was changed since the last call,
    /// and no other word.
    ///
    /// After `BadEntry` only `clear` may follow. It comes where a live table has a bad entry.
    pub fn written<G: Gpu>(
        &mut self,
        gpu: &mut G,
        memory: &mut Memory,
        frame: u32,
        index: u16,
    ) -> Result<Changed, TableFault>
        requires serves { (m : Words) × (Serves (G.state gpu.old) memory.old.frames memory.old.pins self.old m × ChangedAt m (memory_in (G.state gpu.old) memory.old.frames) frame index) }
        requires frame { frame < length memory.old.frames.pages }
        requires within { index < 512 }
        ensures serves { OnOk result (Serves (G.state gpu.new) memory.new.frames memory.new.pins self.new (memory_in (G.state gpu.new) memory.new.frames)) }
        ensures roots { OnOk result (roots_of self.new ≡ roots_of self.old) }
        ensures changed { IfOk result (λ changed. Tells (guarded_of self.old) (guarded_of self.new) (length memory.old.frames.pages) changed.guarded.items changed.unguarded.items) }
        ensures shadow_roots { OnOk result ((root : ℕ) → pages_of self.new 4 root ≡ pages_of self.old 4 root) }
        ensures pokes { OnOk result (HaveSameNodes (pages_of self.old) (pages_of self.new) → ((G.state gpu.new).pokes ≤ (G.state gpu.old).pokes + nodes_of (pages_of self.old) frame) × ((level table : ℕ) → pages_of self.new level table ≡ pages_of self.old level table)) }
        ensures good { OnOk result (has_bad_entry (memory_in (G.state gpu.old) memory.old.frames) (roots_of self.old) ≡ false) }
        ensures bad { IsErrOf result TableFault.BadEntry → has_bad_entry (memory_in (G.state gpu.old) memory.old.frames) (roots_of self.old) ≡ true }
        ensures frames { memory.new.frames ≡ memory.old.frames }
        ensures holds { Holds (G.state gpu.new) memory.new.frames self.new memory.new.pins }
        ensures changes { ChangesTables memory.old.frames (G.state gpu.old) (G.state gpu.new) self.old self.new memory.old.pins memory.new.pins }
    {
        self.follow(gpu, &memory.frames, &mut memory.pins, frame, index)
    }

    /// Takes a root away.
    pub fn destroy<G: Gpu>(
        &mut self,
        gpu: &mut G,
        memory: &mut Memory,
        root: u32,
    ) -> Result<Changed, OutOfMemory>
        requires serves { Serves (G.state gpu.old) memory.old.frames memory.old.pins self.old (memory_in (G.state gpu.old) memory.old.frames) }
        requires root { is_among (roots_of self.old) root ≡ true }
        ensures serves { OnOk result (Serves (G.state gpu.new) memory.new.frames memory.new.pins self.new (memory_in (G.state gpu.new) memory.new.frames)) }
        ensures roots { OnOk result (roots_of self.new ≡ without_root (roots_of self.old) root) }
        ensures stay { OnOk result (IsWithin (pages_of self.new) (pages_of self.old)) }
        ensures changed { IfOk result (λ changed. Tells (guarded_of self.old) (guarded_of self.new) (length memory.old.frames.pages) changed.guarded.items changed.unguarded.items) }
        ensures frames { memory.new.frames ≡ memory.old.frames }
        ensures holds { Holds (G.state gpu.new) memory.new.frames self.new memory.new.pins }
        ensures changes { ChangesTables memory.old.frames (G.state gpu.old) (G.state gpu.new) self.old self.new memory.old.pins memory.new.pins }
    {
        self.remove_root(gpu, &memory.frames, &mut memory.pins, root)
    }

    /// Whether the frame is a root.
    pub fn is_root(&self, frame: u32) -> bool
        ensures { result ≡ is_among (roots_of self.now) frame }
    {
        frame < self.nodes.frames() && self.has_node(frame, 4)
    }

    /// The levels at which the frame is a live table: bit level - 1 is set for each.
    pub fn roles(&self, frame: u32) -> u8
        requires { frame < frames_of self.now }
        ensures { result ≡ roles_of self.now frame }
    {
        bit_if(self.has_node(frame, 1), 1)
            + bit_if(self.has_node(frame, 2), 2)
            + bit_if(self.has_node(frame, 3), 4)
            + bit_if(self.has_node(frame, 4), 8)
    }

    /// The host page of a root's shadow table. It stays the same as long as it is a root.
    pub fn shadow_root(&self, root: u32) -> u64
        requires { is_among (roots_of self.now) root ≡ true }
        ensures { pages_of self.now 4 root ≡ Some result }
    {
        let Some(key) = self.nodes.find(root, 4) else {
            unreachable!();
        };
        self.nodes.node(key).page
    }

    // Makes a frame a root, and tells of what became guarded.
    fn add_root<G: Gpu>(
        &mut self,
        gpu: &mut G,
        frames: &Frames,
        pins: &mut Pins,
        root: u32,
    ) -> Result<Changed, TableFault>
        requires serves { Serves (G.state gpu.old) frames.now pins.old self.old (memory_in (G.state gpu.old) frames.now) }
        requires frame { root < length frames.now.pages }
        requires new { pages_of self.old 4 root ≡ None }
        ensures serves { OnOk result (Serves (G.state gpu.new) frames.now pins.new self.new (memory_in (G.state gpu.new) frames.now)) }
        ensures roots { OnOk result (roots_of self.new ≡ with_root (length frames.now.pages) (roots_of self.old) root) }
        ensures stay { OnOk result (IsWithin (pages_of self.old) (pages_of self.new)) }
        ensures changed { IfOk result (λ changed. Tells (guarded_of self.old) (guarded_of self.new) (length frames.now.pages) changed.guarded.items changed.unguarded.items) }
        ensures good { OnOk result (is_refused (memory_in (G.state gpu.old) frames.now) (roots_of self.old) root ≡ false) }
        ensures bad { IsErrOf result TableFault.BadEntry → is_refused (memory_in (G.state gpu.old) frames.now) (roots_of self.old) root ≡ true }
        ensures holds { Holds (G.state gpu.new) frames.now self.new pins.new }
        ensures changes { ChangesTables frames.now (G.state gpu.old) (G.state gpu.new) self.old self.new pins.old pins.new }
    {
        if let Err(fault) = self.acquire(gpu, frames, pins, root, 4) {
            return Err(fault);
        }
        let changed = self.tell(gpu, frames, pins)?;
        Ok(changed)
    }

    // Makes a word of a frame as the guest's again, with all that follows from it.
    fn follow<G: Gpu>(
        &mut self,
        gpu: &mut G,
        frames: &Frames,
        pins: &mut Pins,
        frame: u32,
        index: u16,
    ) -> Result<Changed, TableFault>
        requires serves { (m : Words) × (Serves (G.state gpu.old) frames.now pins.old self.old m × ChangedAt m (memory_in (G.state gpu.old) frames.now) frame index) }
        requires frame { frame < length frames.now.pages }
        requires within { index < 512 }
        ensures serves { OnOk result (Serves (G.state gpu.new) frames.now pins.new self.new (memory_in (G.state gpu.new) frames.now)) }
        ensures roots { OnOk result (roots_of self.new ≡ roots_of self.old) }
        ensures changed { IfOk result (λ changed. Tells (guarded_of self.old) (guarded_of self.new) (length frames.now.pages) changed.guarded.items changed.unguarded.items) }
        ensures shadow_roots { OnOk result ((root : ℕ) → pages_of self.new 4 root ≡ pages_of self.old 4 root) }
        ensures pokes { OnOk result (HaveSameNodes (pages_of self.old) (pages_of self.new) → ((G.state gpu.new).pokes ≤ (G.state gpu.old).pokes + nodes_of (pages_of self.old) frame) × ((level table : ℕ) → pages_of self.new level table ≡ pages_of self.old level table)) }
        ensures good { OnOk result (has_bad_entry (memory_in (G.state gpu.old) frames.now) (roots_of self.old) ≡ false) }
        ensures bad { IsErrOf result TableFault.BadEntry → has_bad_entry (memory_in (G.state gpu.old) frames.now) (roots_of self.old) ≡ true }
        ensures holds { Holds (G.state gpu.new) frames.now self.new pins.new }
        ensures changes { ChangesTables frames.now (G.state gpu.old) (G.state gpu.new) self.old self.new pins.old pins.new }
    {
        if let Err(fault) = self.update(gpu, frames, pins, frame, index) {
            return Err(fault);
        }
        let changed = self.tell(gpu, frames, pins)?;
        Ok(changed)
    }

    // Takes a root away, and tells of what is no longer guarded.
    fn remove_root<G: Gpu>(
        &mut self,
        gpu: &mut G,
        frames: &Frames,
        pins: &mut Pins,
        root: u32,
    ) -> Result<Changed, OutOfMemory>
        requires serves { Serves (G.state gpu.old) frames.now pins.old self.old (memory_in (G.state gpu.old) frames.now) }
        requires root { is_among (roots_of self.old) root ≡ true }
        ensures serves { OnOk result (Serves (G.state gpu.new) frames.now pins.new self.new (memory_in (G.state gpu.new) frames.now)) }
        ensures roots { OnOk result (roots_of self.new ≡ without_root (roots_of self.old) root) }
        ensures stay { OnOk result (IsWithin (pages_of self.new) (pages_of self.old)) }
        ensures changed { IfOk result (λ changed. Tells (guarded_of self.old) (guarded_of self.new) (length frames.now.pages) changed.guarded.items changed.unguarded.items) }
        ensures holds { Holds (G.state gpu.new) frames.now self.new pins.new }
        ensures changes { ChangesTables frames.now (G.state gpu.old) (G.state gpu.new) self.old self.new pins.old pins.new }
    {
        self.release(gpu, frames, pins, root, 4);
        let changed = self.tell(gpu, frames, pins)?;
        Ok(changed)
    }
}

fn bit_if(live: bool, bit: u8) -> u8
    ensures { result ≡ bit_if live bit }
{
    if live { bit } else { 0 }
}
