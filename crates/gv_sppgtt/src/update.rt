ghost use Rattle.std.specs.Prelude.{◌≡◌, ℕ, ◌+◌, ◌-◌, ◌<◌, ◌≤◌, List, length, Some, None, IfSome, IfNone, OnOk, IsErrOf, true, is_some};
ghost use Rattle.gv_entry.specs.Tables.{level_entry, has_bad_entry};
ghost use Rattle.gv_entry.specs.declared.process.Process.TheVariants.{Bad};
ghost use Rattle.gv_gpu.specs.Device.{counted};
ghost use Rattle.gv_guest.specs.Placed.{memory_in};
ghost use Rattle.gv_nodes.specs.NodeMap.{AreNodes};
ghost use Rattle.gv_shape.specs.Counts.{above, rank, one_if};
ghost use Rattle.gv_sppgtt.specs.Sound.{Enters, leaf_entry};
ghost use Rattle.gv_sppgtt.specs.Grown.{Rests, HaveSameNodes, nodes_of};
ghost use Rattle.gv_sppgtt.specs.State.{pages_of, parents_of, readings_of, sketch_of};
ghost use Rattle.gv_sppgtt.specs.Holding.{Holds, Keeps};

use crate::Tables;
use crate::tables::TableFault;
use gv_entry::Process;
use gv_gpu::Gpu;
use gv_guest::{Frames, Pins};
use gv_types::OutOfMemory;

impl Tables {
    // The page of the node of a frame at a level, if there is one.
    pub(crate) fn page_at(&self, frame: u32, level: u8) -> Option<u64>
        requires frame { frame < self.now.nodes.frames }
        requires low { 1 ≤ level }
        requires high { level ≤ 6 }
        requires nodes { AreNodes self.now.nodes }
        ensures some { IfSome result (λ page. pages_of self.now level frame ≡ Some page) }
        ensures none { IfNone result (pages_of self.now level frame ≡ None) }
    {
        let key = self.nodes.find(frame, level)?;
        Some(self.nodes.node(key).page)
    }

    // Puts a leaf, or none, into a word of a table of level 1, with the memory that it takes.
    fn replace_leaf<G: Gpu>(
        &mut self,
        gpu: &mut G,
        frames: &Frames,
        pins: &mut Pins,
        frame: u32,
        page: u64,
        index: u16,
        leaf: Option<(u32, bool)>,
    ) -> Result<(), OutOfMemory>
        requires holds { Holds (G.state gpu.old) frames.now self.old pins.old }
        requires within { index < 512 }
        requires node { pages_of self.old 1 frame ≡ Some page }
        requires frame { IfSome leaf (λ to. to.0 < length frames.now.pages) }
        ensures enters { OnOk result (Enters (readings_of (G.state gpu.old) self.old) (readings_of (G.state gpu.new) self.new) 1 frame index (leaf_entry leaf)) }
        ensures nodes { self.new.nodes ≡ self.old.nodes }
        ensures pokes { OnOk result ((G.state gpu.new).pokes ≡ counted (G.state gpu.old).pokes) }
        ensures holds { Holds (G.state gpu.new) frames.now self.new pins.new }
        ensures keeps { Keeps frames.now (G.state gpu.old) (G.state gpu.new) self.old self.new pins.old pins.new }
    {
        self.chains.reserve(1)?;
        self.put_leaf(gpu, frames, pins, frame, 1, page, index, leaf);
        Ok(())
    }

    // Makes the word of a table of level 1 as the guest's.
    fn relink_leaf<G: Gpu>(
        &mut self,
        gpu: &mut G,
        frames: &Frames,
        pins: &mut Pins,
        frame: u32,
        page: u64,
        index: u16,
    ) -> Result<(), TableFault>
        requires holds { Holds (G.state gpu.old) frames.now self.old pins.old }
        requires frame { frame < length frames.now.pages }
        requires within { index < 512 }
        requires node { pages_of self.old 1 frame ≡ Some page }
        ensures rests { OnOk result ((roots : List ℕ) → Rests (length frames.now.pages) (memory_in (G.state gpu.old) frames.now) roots 1 frame index (sketch_of (G.state gpu.old) self.old) → Rests (length frames.now.pages) (memory_in (G.state gpu.old) frames.now) roots 0 frame index (sketch_of (G.state gpu.new) self.new)) }
        ensures pages { OnOk result ((k f : ℕ) → pages_of self.new k f ≡ pages_of self.old k f) }
        ensures pokes { OnOk result ((G.state gpu.new).pokes ≤ (G.state gpu.old).pokes + 1) }
        ensures holds { Holds (G.state gpu.new) frames.now self.new pins.new }
        ensures keeps { Keeps frames.now (G.state gpu.old) (G.state gpu.new) self.old self.new pins.old pins.new }
        ensures bad { IsErrOf result TableFault.BadEntry → level_entry (memory_in (G.state gpu.old) frames.now) 1 frame index ≡ Bad }
    {
        match self.entry(gpu, frames, frame, 1, index) {
            Process::Absent => {
                self.replace_leaf(gpu, frames, pins, frame, page, index, None)?;
                Ok(())
            }
            Process::Page(to, writable) => {
                self.replace_leaf(gpu, frames, pins, frame, page, index, Some((to, writable)))?;
                Ok(())
            }
            Process::Bad => Err(TableFault::BadEntry),
            Process::Table(_) | Process::Large(_, _) => unreachable!(),
        }
    }

    // Makes a word of a frame at a level of 2 to 4 as the guest's, where the frame is a table there.
    fn step<G: Gpu>(
        &mut self,
        gpu: &mut G,
        frames: &Frames,
        pins: &mut Pins,
        frame: u32,
        level: u8,
        index: u16,
    ) -> Result<(), TableFault>
        requires holds { Holds (G.state gpu.old) frames.now self.old pins.old }
        requires frame { frame < length frames.now.pages }
        requires high { 2 ≤ level }
        requires most { level ≤ 4 }
        requires within { index < 512 }
        requires rests { (roots : List ℕ) × Rests (length frames.now.pages) (memory_in (G.state gpu.old) frames.now) roots level frame index (sketch_of (G.state gpu.old) self.old) }
        ensures rests { OnOk result ((roots : List ℕ) → Rests (length frames.now.pages) (memory_in (G.state gpu.old) frames.now) roots level frame index (sketch_of (G.state gpu.old) self.old) → Rests (length frames.now.pages) (memory_in (G.state gpu.old) frames.now) roots (level - 1) frame index (sketch_of (G.state gpu.new) self.new)) }
        ensures above { OnOk result ((k f : ℕ) → rank level ≤ rank k → pages_of self.new k f ≡ pages_of self.old k f) }
        ensures pokes { OnOk result (((k f : ℕ) → above k ≡ level → is_some (pages_of self.new k f) ≡ is_some (pages_of self.old k f)) → ((G.state gpu.new).pokes ≤ (G.state gpu.old).pokes + one_if (is_some (pages_of self.old level frame))) × ((k f : ℕ) → pages_of self.new k f ≡ pages_of self.old k f)) }
        ensures holds { Holds (G.state gpu.new) frames.now self.new pins.new }
        ensures keeps { Keeps frames.now (G.state gpu.old) (G.state gpu.new) self.old self.new pins.old pins.new }
        ensures bad { IsErrOf result TableFault.BadEntry → (roots : List ℕ) → Rests (length frames.now.pages) (memory_in (G.state gpu.old) frames.now) roots level frame index (sketch_of (G.state gpu.old) self.old) → has_bad_entry (memory_in (G.state gpu.old) frames.now) roots ≡ true }
    {
        let Some(page) = self.page_at(frame, level) else {
            return Ok(());
        };
        self.relink(gpu, frames, pins, frame, level, page, index)
    }

    // After a word of a frame was changed: makes it as the guest's at each level at which the frame is a table,
    // the highest first.
    pub(crate) fn update<G: Gpu>(
        &mut self,
        gpu: &mut G,
        frames: &Frames,
        pins: &mut Pins,
        frame: u32,
        index: u16,
    ) -> Result<(), TableFault>
        requires holds { Holds (G.state gpu.old) frames.now self.old pins.old }
        requires frame { frame < length frames.now.pages }
        requires within { index < 512 }
        requires rests { (roots : List ℕ) × Rests (length frames.now.pages) (memory_in (G.state gpu.old) frames.now) roots 4 frame index (sketch_of (G.state gpu.old) self.old) }
        ensures settled { OnOk result ((roots : List ℕ) → Rests (length frames.now.pages) (memory_in (G.state gpu.old) frames.now) roots 4 frame index (sketch_of (G.state gpu.old) self.old) → Rests (length frames.now.pages) (memory_in (G.state gpu.new) frames.now) roots 0 frame index (sketch_of (G.state gpu.new) self.new)) }
        ensures roots { OnOk result ((f : ℕ) → pages_of self.new 4 f ≡ pages_of self.old 4 f) }
        ensures pokes { OnOk result (HaveSameNodes (pages_of self.old) (pages_of self.new) → ((G.state gpu.new).pokes ≤ (G.state gpu.old).pokes + nodes_of (pages_of self.old) frame) × ((k f : ℕ) → pages_of self.new k f ≡ pages_of self.old k f)) }
        ensures holds { Holds (G.state gpu.new) frames.now self.new pins.new }
        ensures keeps { Keeps frames.now (G.state gpu.old) (G.state gpu.new) self.old self.new pins.old pins.new }
        ensures bad { IsErrOf result TableFault.BadEntry → (roots : List ℕ) → Rests (length frames.now.pages) (memory_in (G.state gpu.old) frames.now) roots 4 frame index (sketch_of (G.state gpu.old) self.old) → has_bad_entry (memory_in (G.state gpu.old) frames.now) roots ≡ true }
    {
        if let Err(fault) = self.step(gpu, frames, pins, frame, 4, index) {
            return Err(fault);
        }
        if let Err(fault) = self.step(gpu, frames, pins, frame, 3, index) {
            return Err(fault);
        }
        if let Err(fault) = self.step(gpu, frames, pins, frame, 2, index) {
            return Err(fault);
        }
        self.last_step(gpu, frames, pins, frame, index)
    }

    // The same at level 1.
    fn last_step<G: Gpu>(
        &mut self,
        gpu: &mut G,
        frames: &Frames,
        pins: &mut Pins,
        frame: u32,
        index: u16,
    ) -> Result<(), TableFault>
        requires holds { Holds (G.state gpu.old) frames.now self.old pins.old }
        requires frame { frame < length frames.now.pages }
        requires within { index < 512 }
        ensures rests { OnOk result ((roots : List ℕ) → Rests (length frames.now.pages) (memory_in (G.state gpu.old) frames.now) roots 1 frame index (sketch_of (G.state gpu.old) self.old) → Rests (length frames.now.pages) (memory_in (G.state gpu.old) frames.now) roots 0 frame index (sketch_of (G.state gpu.new) self.new)) }
        ensures pages { OnOk result ((k f : ℕ) → pages_of self.new k f ≡ pages_of self.old k f) }
        ensures pokes { OnOk result ((G.state gpu.new).pokes ≤ (G.state gpu.old).pokes + one_if (is_some (pages_of self.old 1 frame))) }
        ensures holds { Holds (G.state gpu.new) frames.now self.new pins.new }
        ensures keeps { Keeps frames.now (G.state gpu.old) (G.state gpu.new) self.old self.new pins.old pins.new }
        ensures bad { IsErrOf result TableFault.BadEntry → (roots : List ℕ) → Rests (length frames.now.pages) (memory_in (G.state gpu.old) frames.now) roots 1 frame index (sketch_of (G.state gpu.old) self.old) → has_bad_entry (memory_in (G.state gpu.old) frames.now) roots ≡ true }
    {
        let Some(page) = self.page_at(frame, 1) else {
            return Ok(());
        };
        self.relink_leaf(gpu, frames, pins, frame, page, index)
    }
}
