ghost use Rattle.std.specs.Prelude.{◌≡◌, ℕ, ◌+◌, ◌-◌, ◌*◌, ◌/◌, ◌<◌, ◌≤◌, length, Some, None, IfSome, IfNone, MatchOption, slice_index, true};
ghost use Rattle.gv_entry.specs.Tables.{names};
ghost use Rattle.gv_entry.specs.declared.process.Process.TheVariants.{Absent, Table};
ghost use Rattle.gv_gpu.specs.Device.{released};
ghost use Rattle.gv_nodes.specs.NodeMap.{AreNodes};
ghost use Rattle.gv_shape.specs.Shadow.{has_leaves};
ghost use Rattle.gv_shape.specs.Counts.{namings, naming, above};
ghost use Rattle.gv_sppgtt.specs.Sound.{Enters, IsBelow};
ghost use Rattle.gv_sppgtt.specs.Grown.{Dropped, Emptying, Emptied};
ghost use Rattle.gv_sppgtt.specs.State.{pages_of, parents_of, readings_of, sketch_of, Touches};
ghost use Rattle.gv_sppgtt.specs.Holding.{Holds, Keeps};

use crate::Tables;
use crate::grow::split_level;
use crate::tables::BLOCK;
use gv_gpu::Gpu;
use gv_guest::{Frames, Pins};
use gv_types::PAGE_BYTES;

impl Tables {
    // Takes a parent from the node of a frame at a level, and answers its page where that was the last.
    pub(crate) fn unhold(&mut self, frame: u32, level: u8) -> Option<u64>
        requires frame { frame < self.old.nodes.frames }
        requires low { 1 ≤ level }
        requires high { level ≤ 6 }
        requires nodes { AreNodes self.old.nodes }
        requires some { 1 ≤ parents_of self.old level frame }
        ensures pages { (k f : ℕ) → pages_of self.new k f ≡ pages_of self.old k f }
        ensures here { parents_of self.new level frame + 1 ≡ parents_of self.old level frame }
        ensures others { (k f : ℕ) → (k ≡ level → f ≡ frame → ⊥) → parents_of self.new k f ≡ parents_of self.old k f }
        ensures last { MatchOption result (1 ≤ parents_of self.new level frame) (λ page. (parents_of self.new level frame ≡ 0) × (pages_of self.new level frame ≡ Some page)) }
        ensures nodes { AreNodes self.new.nodes }
        ensures frames { self.new.nodes.frames ≡ self.old.nodes.frames }
        ensures owners { self.new.owners ≡ self.old.owners }
        ensures chains { self.new.chains ≡ self.old.chains }
        ensures told { self.new.told ≡ self.old.told }
        ensures guest { self.new.guest ≡ self.old.guest }
        ensures touched { self.new.touched ≡ self.old.touched }
    {
        let Some(key) = self.nodes.find(frame, level) else {
            unreachable!();
        };
        let last = self.nodes.drop_parent(key);
        let page = self.nodes.node(key).page;
        last.then_some(page)
    }

    // Takes out a node that has no parents.
    fn unboard(&mut self, frame: u32, level: u8)
        requires frame { frame < self.old.nodes.frames }
        requires few { frame < 16384 }
        requires low { 1 ≤ level }
        requires high { level ≤ 6 }
        requires nodes { AreNodes self.old.nodes }
        requires there { (p : ℕ) × (pages_of self.old level frame ≡ Some p) }
        requires none { parents_of self.old level frame ≡ 0 }
        ensures here { pages_of self.new level frame ≡ None }
        ensures others { (k f : ℕ) → (k ≡ level → f ≡ frame → ⊥) → pages_of self.new k f ≡ pages_of self.old k f }
        ensures parents { (k f : ℕ) → parents_of self.new k f ≡ parents_of self.old k f }
        ensures nodes { AreNodes self.new.nodes }
        ensures frames { self.new.nodes.frames ≡ self.old.nodes.frames }
        ensures owners { self.new.owners ≡ self.old.owners }
        ensures chains { self.new.chains ≡ self.old.chains }
        ensures told { self.new.told ≡ self.old.told }
        ensures guest { self.new.guest ≡ self.old.guest }
        ensures touched { Touches frame self.old.touched self.new.touched }
    {
        let Some(key) = self.nodes.find(frame, level) else {
            unreachable!();
        };
        self.nodes.remove(key);
        self.touched[(frame / BLOCK) as usize] = true;
    }

    // Maps nothing by a word of a table of leaves.
    fn empty_leaf<G: Gpu>(
        &mut self,
        gpu: &mut G,
        frames: &Frames,
        pins: &mut Pins,
        frame: u32,
        level: u8,
        page: u64,
        index: u16,
    )
        requires holds { Holds (G.state gpu.old) frames.now self.old pins.old }
        requires leaves { has_leaves level ≡ true }
        requires within { index < 512 }
        requires node { pages_of self.old level frame ≡ Some page }
        ensures emptied { Emptied (length frames.now.pages) level frame index (sketch_of (G.state gpu.old) self.old) (sketch_of (G.state gpu.new) self.new) }
        ensures holds { Holds (G.state gpu.new) frames.now self.new pins.new }
        ensures keeps { Keeps frames.now (G.state gpu.old) (G.state gpu.new) self.old self.new pins.old pins.new }
    {
        self.put_leaf(gpu, frames, pins, frame, level, page, index, None);
    }

    // Names nothing by a word of a table above.
    fn empty_entry<G: Gpu>(
        &mut self,
        gpu: &mut G,
        frames: &Frames,
        pins: &Pins,
        frame: u32,
        level: u8,
        page: u64,
        index: u16,
    )
        requires holds { Holds (G.state gpu.old) frames.now self.old pins.now }
        requires within { index < 512 }
        requires high { 2 ≤ level }
        requires few { level ≤ 4 }
        requires node { pages_of self.old level frame ≡ Some page }
        ensures enters { Enters (readings_of (G.state gpu.old) self.old) (readings_of (G.state gpu.new) self.new) level frame index Absent }
        ensures held { (h lower : ℕ) → readings_of (G.state gpu.old) self.old level frame index ≡ naming lower h → above lower ≡ level → 1 ≤ lower → lower ≤ 6 → namings (length frames.now.pages) (readings_of (G.state gpu.new) self.new) lower h + 1 ≤ parents_of self.new lower h }
        ensures same { self.new ≡ self.old }
        ensures holds { Holds (G.state gpu.new) frames.now self.new pins.now }
        ensures keeps { Keeps frames.now (G.state gpu.old) (G.state gpu.new) self.old self.new pins.now pins.now }
    {
        self.put_table(gpu, frames, frame, level, page, index, None);
    }

    // The node that a word names, if it names one.
    pub(crate) fn child<G: Gpu>(
        &self,
        gpu: &G,
        frames: &Frames,
        pins: &Pins,
        frame: u32,
        level: u8,
        page: u64,
        index: u16,
    ) -> Option<(u32, u8)>
        requires holds { Holds (G.state gpu.now) frames.now self.now pins.now }
        requires within { index < 512 }
        requires high { 2 ≤ level }
        requires few { level ≤ 4 }
        requires node { pages_of self.now level frame ≡ Some page }
        ensures none { IfNone result (readings_of (G.state gpu.now) self.now level frame index ≡ Absent) }
        ensures some { IfSome result (λ to. readings_of (G.state gpu.now) self.now level frame index ≡ naming to.1 to.0) }
        ensures below { IfSome result (λ to. IsBelow (length frames.now.pages) level to.0 to.1) }
    {
        let word = gpu.word(page, index as usize);
        if word % 2 == 0 {
            return None;
        }
        let owner = self.owners[(word / PAGE_BYTES) as usize];
        if word / 4 % 2 == 1 {
            Some((owner, split_level(word / 8 % 2 == 1)))
        } else {
            Some((owner, level - 1))
        }
    }

    // Takes out a node that has no parents, whose words are absent, and its page.
    pub(crate) fn remove<G: Gpu>(
        &mut self,
        gpu: &mut G,
        frames: &Frames,
        pins: &Pins,
        frame: u32,
        level: u8,
        page: u64,
    )
        requires holds { Holds (G.state gpu.old) frames.now self.old pins.now }
        requires low { 1 ≤ level }
        requires high { level ≤ 6 }
        requires frame { frame < length frames.now.pages }
        requires node { pages_of self.old level frame ≡ Some page }
        requires none { parents_of self.old level frame ≡ 0 }
        requires empty { (i : ℕ) → i < 512 → readings_of (G.state gpu.old) self.old level frame i ≡ Absent }
        ensures here { pages_of self.new level frame ≡ None }
        ensures others { (k f : ℕ) → (k ≡ level → f ≡ frame → ⊥) → pages_of self.new k f ≡ pages_of self.old k f }
        ensures parents { (k f : ℕ) → parents_of self.new k f ≡ parents_of self.old k f }
        ensures words { (k f i : ℕ) → i < 512 → readings_of (G.state gpu.new) self.new k f i ≡ readings_of (G.state gpu.old) self.old k f i }
        ensures holds { Holds (G.state gpu.new) frames.now self.new pins.now }
        ensures keeps { Keeps frames.now (G.state gpu.old) (G.state gpu.new) self.old self.new pins.now pins.now }
    {
        self.unboard(frame, level);
        gpu.release(page);
    }

    // The node of a frame at a level has one parent less; with the last one it goes, and so on below.
    #[cycle(release)]
    pub(crate) fn release<G: Gpu>(
        &mut self,
        gpu: &mut G,
        frames: &Frames,
        pins: &mut Pins,
        frame: u32,
        level: u8,
    )
        requires holds { Holds (G.state gpu.old) frames.now self.old pins.old }
        requires frame { frame < length frames.now.pages }
        requires low { 1 ≤ level }
        requires high { level ≤ 6 }
        requires held { namings (length frames.now.pages) (readings_of (G.state gpu.old) self.old) level frame + 1 ≤ parents_of self.old level frame }
        ensures dropped { Dropped (length frames.now.pages) level frame (sketch_of (G.state gpu.old) self.old) (sketch_of (G.state gpu.new) self.new) }
        ensures idle { (p : ℕ) → pages_of self.new level frame ≡ Some p → (G.state gpu.new ≡ G.state gpu.old) × ((k f : ℕ) → pages_of self.new k f ≡ pages_of self.old k f) }
        ensures holds { Holds (G.state gpu.new) frames.now self.new pins.new }
        ensures keeps { Keeps frames.now (G.state gpu.old) (G.state gpu.new) self.old self.new pins.old pins.new }
    {
        let Some(page) = self.unhold(frame, level) else {
            return;
        };
        for index in 0..512u16 {
            self.empty_word(gpu, frames, pins, frame, level, page, index);
        }
        self.remove(gpu, frames, pins, frame, level, page);
    }

    // Takes out what a word of a node names.
    #[cycle(release)]
    pub(crate) fn empty_word<G: Gpu>(
        &mut self,
        gpu: &mut G,
        frames: &Frames,
        pins: &mut Pins,
        frame: u32,
        level: u8,
        page: u64,
        index: u16,
    )
        requires holds { Holds (G.state gpu.old) frames.now self.old pins.old }
        requires frame { frame < length frames.now.pages }
        requires low { 1 ≤ level }
        requires high { level ≤ 6 }
        requires within { index < 512 }
        requires node { pages_of self.old level frame ≡ Some page }
        ensures emptied { Emptied (length frames.now.pages) level frame index (sketch_of (G.state gpu.old) self.old) (sketch_of (G.state gpu.new) self.new) }
        ensures holds { Holds (G.state gpu.new) frames.now self.new pins.new }
        ensures keeps { Keeps frames.now (G.state gpu.old) (G.state gpu.new) self.old self.new pins.old pins.new }
    {
        if level == 1 || level > 4 {
            self.empty_leaf(gpu, frames, pins, frame, level, page, index);
            return;
        }
        let Some((child, lower)) = self.child(gpu, frames, pins, frame, level, page, index) else {
            return;
        };
        self.empty_entry(gpu, frames, pins, frame, level, page, index);
        self.release(gpu, frames, pins, child, lower);
    }
}
