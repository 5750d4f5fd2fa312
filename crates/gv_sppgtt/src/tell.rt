ghost use Rattle.std.specs.Prelude.{◌≡◌, ℕ, ◌+◌, ◌*◌, ◌/◌, ◌<◌, ◌≤◌, min, false, is_some, length, OnOk, IfOk};
ghost use Rattle.gv_gpu.specs.Device.{Device};
ghost use Rattle.gv_gpu.specs.Part.{outside};
ghost use Rattle.gv_guest.specs.Placed.{memory_in};
ghost use Rattle.gv_sppgtt.specs.Sound.{flag};
ghost use Rattle.gv_sppgtt.specs.State.{own_part, is_table, pages_of, readings_of};
ghost use Rattle.gv_sppgtt.specs.Holding.{Holds};
ghost use Rattle.gv_sppgtt.specs.Telling.{Telling};
ghost use Rattle.gv_sppgtt.specs.Serving.{ChangesTables, guarded_of};
ghost use Rattle.gv_sppgtt.specs.declared.tables.Tables.{Tables};

use crate::tables::{BLOCK, BLOCKS};
use crate::{Changed, Tables};
use gv_gpu::Gpu;
use gv_guest::{Frames, Pins};
use gv_types::OutOfMemory;

impl Tables {
    // Whether the frame has a node at the level.
    pub(crate) fn has_node(&self, frame: u32, level: u8) -> bool
        requires frame { frame < self.now.nodes.frames }
        requires low { 1 ≤ level }
        requires high { level ≤ 6 }
        ensures { result ≡ is_some (pages_of self.now level frame) }
    {
        match self.nodes.find(frame, level) {
            Some(_) => true,
            None => false,
        }
    }

    // Whether the frame has a node of one of the levels 1 to 4.
    fn is_table(&self, frame: u32) -> bool
        requires { frame < self.now.nodes.frames }
        ensures { result ≡ is_table (pages_of self.now) frame }
    {
        self.has_node(frame, 4)
            || self.has_node(frame, 3)
            || self.has_node(frame, 2)
            || self.has_node(frame, 1)
    }

    // Tells of a frame, where it became a table or no longer is: its leaves follow.
    fn tell_frame<G: Gpu>(
        &mut self,
        gpu: &mut G,
        frames: &Frames,
        pins: &Pins,
        frame: u32,
        changed: &mut Changed,
    ) -> Result<(), OutOfMemory>
        requires holds { Holds (G.state gpu.old) frames.now self.old pins.now }
        requires frame { frame < length frames.now.pages }
        ensures holds { Holds (G.state gpu.new) frames.now self.new pins.now }
        ensures changes { ChangesTables frames.now (G.state gpu.old) (G.state gpu.new) self.old self.new pins.now pins.now }
        ensures idle { guarded_of self.old frame ≡ is_table (pages_of self.old) frame → (G.state gpu.new ≡ G.state gpu.old) × (self.new ≡ self.old) }
        ensures telling { OnOk result ((d : Device) (t : Tables) → Telling frames.now d t frame (G.state gpu.old) self.old changed.old.guarded.items changed.old.unguarded.items → Telling frames.now d t (frame + 1) (G.state gpu.new) self.new changed.new.guarded.items changed.new.unguarded.items) }
    {
        let guarded = self.is_table(frame);
        if guarded == self.told[frame as usize] {
            return Ok(());
        }
        self.flip(gpu, frames, pins, frame, guarded);
        changed.push(frame, guarded)?;
        Ok(())
    }

    // Tells of the frames of a block, where it was touched.
    fn tell_block<G: Gpu>(
        &mut self,
        gpu: &mut G,
        frames: &Frames,
        pins: &Pins,
        block: u32,
        changed: &mut Changed,
    ) -> Result<(), OutOfMemory>
        requires holds { Holds (G.state gpu.old) frames.now self.old pins.now }
        requires block { block < 128 }
        ensures holds { Holds (G.state gpu.new) frames.now self.new pins.now }
        ensures changes { ChangesTables frames.now (G.state gpu.old) (G.state gpu.new) self.old self.new pins.now pins.now }
        ensures idle { ((frame : ℕ) → guarded_of self.old frame ≡ is_table (pages_of self.old) frame) → (G.state gpu.new ≡ G.state gpu.old) × (self.new ≡ self.old) }
        ensures telling { OnOk result ((d : Device) (t : Tables) → ((frame : ℕ) → flag t.touched (frame / 128) ≡ false → guarded_of t frame ≡ is_table (pages_of t) frame) → Telling frames.now d t (min (block * 128) (length frames.now.pages)) (G.state gpu.old) self.old changed.old.guarded.items changed.old.unguarded.items → Telling frames.now d t (min ((block + 1) * 128) (length frames.now.pages)) (G.state gpu.new) self.new changed.new.guarded.items changed.new.unguarded.items) }
    {
        if !self.touched[block as usize] {
            return Ok(());
        }
        let first = first_of(block, frames.count());
        let end = first_of(block + 1, frames.count());
        for frame in first..end {
            self.tell_frame(gpu, frames, pins, frame, changed)?;
        }
        Ok(())
    }

    // Tells of all frames that became tables or no longer are.
    pub(crate) fn tell<G: Gpu>(
        &mut self,
        gpu: &mut G,
        frames: &Frames,
        pins: &Pins,
    ) -> Result<Changed, OutOfMemory>
        requires holds { Holds (G.state gpu.old) frames.now self.old pins.now }
        requires others { (frame : ℕ) → flag self.old.touched (frame / 128) ≡ false → guarded_of self.old frame ≡ is_table (pages_of self.old) frame }
        ensures holds { Holds (G.state gpu.new) frames.now self.new pins.now }
        ensures changes { ChangesTables frames.now (G.state gpu.old) (G.state gpu.new) self.old self.new pins.now pins.now }
        ensures idle { ((frame : ℕ) → guarded_of self.old frame ≡ is_table (pages_of self.old) frame) → G.state gpu.new ≡ G.state gpu.old }
        ensures telling { IfOk result (λ changed. Telling frames.now (G.state gpu.old) self.old (length frames.now.pages) (G.state gpu.new) (record self.new { touched = self.old.touched }) changed.guarded.items changed.unguarded.items) }
        ensures untouched { OnOk result ((block : ℕ) → flag self.new.touched block ≡ false) }
    {
        let mut changed = Changed::none(self.alloc);
        for block in 0..128u32 {
            self.tell_block(gpu, frames, pins, block, &mut changed)?;
        }
        self.touched = untouched();
        Ok(changed)
    }
}

// No block is touched.
pub(crate) fn untouched() -> [bool; BLOCKS]
    ensures { (block : ℕ) → flag result block ≡ false }
{
    [false; BLOCKS]
}

// The first frame of a block, or the number of frames where the block lies behind them.
fn first_of(block: u32, frames: u32) -> u32
    requires { block ≤ 128 }
    ensures { result ≡ min (block * 128) frames }
{
    let first = block * BLOCK;
    if first < frames { first } else { frames }
}
