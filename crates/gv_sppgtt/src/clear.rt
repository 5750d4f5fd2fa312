ghost use Rattle.std.specs.Prelude.{◌≡◌, ℕ, ◌+◌, ◌<◌, ◌≤◌, List, [], Some, None, IfSome, IfNone, false, length, slice_index, nat_lt};
ghost use Rattle.gv_types.specs.Memory.{Memory as Words};
ghost use Rattle.gv_gpu.specs.Device.{Device};
ghost use Rattle.gv_guest.specs.Placed.{Placed, memory_in};
ghost use Rattle.gv_nodes.specs.NodeMap.{AreNodes};
ghost use Rattle.gv_shape.specs.Counts.{leaves};
ghost use Rattle.gv_sppgtt.specs.Sound.{flag};
ghost use Rattle.gv_sppgtt.specs.State.{pages_of, parents_of, readings_of};
ghost use Rattle.gv_sppgtt.specs.Holding.{Holds, Keeps};
ghost use Rattle.gv_sppgtt.specs.Serving.{roots_of, guarded_of, frames_of, ChangesTables, IsReady, Serves};
ghost use Rattle.gv_sppgtt.specs.Clearing.{IsWithin, IsTop, AreNone};

use crate::Tables;
use crate::tell::untouched;
use gv_gpu::Gpu;
use gv_guest::{Frames, Memory, Pins};

impl Tables {
    /// Takes all roots and all shadow tables away, with their pages and their pins, whatever state a call that
    /// failed left. No frame is told to be guarded then, and the tables serve any memory, as new ones do. It takes
    /// no memory.
    pub fn clear<G: Gpu>(&mut self, gpu: &mut G, memory: &mut Memory)
        requires holds { Holds (G.state gpu.old) memory.old.frames self.old memory.old.pins }
        ensures none { AreNone (pages_of self.new) }
        ensures roots { roots_of self.new ≡ [] }
        ensures guarded { (frame : ℕ) → guarded_of self.new frame ≡ false }
        ensures released { (level frame page : ℕ) → pages_of self.old level frame ≡ Some page → (G.state gpu.new).label page ≡ None }
        ensures pins { (h : ℕ) → slice_index memory.new.pins h + leaves (length memory.old.frames.pages) (readings_of (G.state gpu.old) self.old) h ≡ slice_index memory.old.pins h }
        ensures serves { (m : Words) → Serves (G.state gpu.new) memory.new.frames memory.new.pins self.new m }
        ensures ready { (d : Device) (placed : Placed) (pins : List ℕ) → IsReady memory.old.frames.guest (length memory.old.frames.pages) d placed pins → Serves d placed pins self.new (memory_in d placed) }
        ensures frames { memory.new.frames ≡ memory.old.frames }
        ensures changes { ChangesTables memory.old.frames (G.state gpu.old) (G.state gpu.new) self.old self.new memory.old.pins memory.new.pins }
    {
        self.drop_all(gpu, &memory.frames, &mut memory.pins);
        self.forget();
    }

    // Takes out all nodes, the levels of tables from the highest on, and then split tables.
    fn drop_all<G: Gpu>(&mut self, gpu: &mut G, frames: &Frames, pins: &mut Pins)
        requires holds { Holds (G.state gpu.old) frames.now self.old pins.old }
        ensures none { AreNone (pages_of self.new) }
        ensures holds { Holds (G.state gpu.new) frames.now self.new pins.new }
        ensures keeps { Keeps frames.now (G.state gpu.old) (G.state gpu.new) self.old self.new pins.old pins.new }
    {
        self.drop_level(gpu, frames, pins, 4);
        self.drop_level(gpu, frames, pins, 3);
        self.drop_level(gpu, frames, pins, 2);
        self.drop_level(gpu, frames, pins, 1);
        self.drop_level(gpu, frames, pins, 5);
        self.drop_level(gpu, frames, pins, 6);
    }

    // Takes out all nodes of a level, above which none stands.
    fn drop_level<G: Gpu>(&mut self, gpu: &mut G, frames: &Frames, pins: &mut Pins, level: u8)
        requires holds { Holds (G.state gpu.old) frames.now self.old pins.old }
        requires low { 1 ≤ level }
        requires high { level ≤ 6 }
        requires top { IsTop (pages_of self.old) level }
        ensures none { (frame : ℕ) → pages_of self.new level frame ≡ None }
        ensures within { IsWithin (pages_of self.new) (pages_of self.old) }
        ensures holds { Holds (G.state gpu.new) frames.now self.new pins.new }
        ensures keeps { Keeps frames.now (G.state gpu.old) (G.state gpu.new) self.old self.new pins.old pins.new }
    {
        for frame in 0..frames.count() {
            self.drop_node(gpu, frames, pins, frame, level);
        }
    }

    // Takes out the node of a frame at a level, if there is one, with all that it names. No word names it.
    fn drop_node<G: Gpu>(
        &mut self,
        gpu: &mut G,
        frames: &Frames,
        pins: &mut Pins,
        frame: u32,
        level: u8,
    )
        requires holds { Holds (G.state gpu.old) frames.now self.old pins.old }
        requires frame { frame < length frames.now.pages }
        requires low { 1 ≤ level }
        requires high { level ≤ 6 }
        requires top { IsTop (pages_of self.old) level }
        ensures none { pages_of self.new level frame ≡ None }
        ensures within { IsWithin (pages_of self.new) (pages_of self.old) }
        ensures holds { Holds (G.state gpu.new) frames.now self.new pins.new }
        ensures keeps { Keeps frames.now (G.state gpu.old) (G.state gpu.new) self.old self.new pins.old pins.new }
    {
        let Some(page) = self.page_at(frame, level) else {
            return;
        };
        for index in 0..512u16 {
            self.empty_word(gpu, frames, pins, frame, level, page, index);
        }
        self.orphan(frame, level);
        self.remove(gpu, frames, pins, frame, level, page);
    }

    // Takes all parents from the node of a frame at a level.
    fn orphan(&mut self, frame: u32, level: u8)
        requires frame { frame < self.old.nodes.frames }
        requires low { 1 ≤ level }
        requires high { level ≤ 6 }
        requires nodes { AreNodes self.old.nodes }
        ensures pages { (k f : ℕ) → pages_of self.new k f ≡ pages_of self.old k f }
        ensures here { parents_of self.new level frame ≡ 0 }
        ensures others { (k f : ℕ) → (k ≡ level → f ≡ frame → ⊥) → parents_of self.new k f ≡ parents_of self.old k f }
        ensures nodes { AreNodes self.new.nodes }
        ensures frames { self.new.nodes.frames ≡ self.old.nodes.frames }
        ensures owners { self.new.owners ≡ self.old.owners }
        ensures chains { self.new.chains ≡ self.old.chains }
        ensures told { self.new.told ≡ self.old.told }
        ensures guest { self.new.guest ≡ self.old.guest }
        ensures touched { self.new.touched ≡ self.old.touched }
    {
        while self.has_parent(frame, level) {
            let _ = self.unhold(frame, level);
        }
    }

    // Whether the node of a frame at a level has a parent.
    fn has_parent(&self, frame: u32, level: u8) -> bool
        requires frame { frame < self.now.nodes.frames }
        requires low { 1 ≤ level }
        requires high { level ≤ 6 }
        requires nodes { AreNodes self.now.nodes }
        ensures { result ≡ nat_lt 0 (parents_of self.now level frame) }
    {
        match self.nodes.find(frame, level) {
            Some(key) => self.nodes.node(key).parents > 0,
            None => false,
        }
    }

    // No frame is told to be guarded, and no block is touched.
    fn forget(&mut self)
        ensures told { (frame : ℕ) → flag self.new.told.items frame ≡ false }
        ensures long { length self.new.told.items ≡ length self.old.told.items }
        ensures untouched { (block : ℕ) → flag self.new.touched block ≡ false }
        ensures nodes { self.new.nodes ≡ self.old.nodes }
        ensures owners { self.new.owners ≡ self.old.owners }
        ensures chains { self.new.chains ≡ self.old.chains }
        ensures guest { self.new.guest ≡ self.old.guest }
    {
        for frame in 0..self.told.len() {
            self.told[frame] = false;
        }
        self.touched = untouched();
    }
}
