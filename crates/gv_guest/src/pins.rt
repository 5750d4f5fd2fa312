ghost use Rattle.std.specs.Prelude.{◌≡◌, ◌+◌, ◌-◌, ◌^◌, ◌<◌, ◌≤◌, IfOk, length, replicate, slice_index, slice_set};

use gv_types::OutOfMemory;
use std::alloc::Global;
use std::marker::Model;

/// How often each frame is pinned: a pinned frame keeps its host page, since a physical entry names it. A
/// clause sees the counts, frame by frame.
#[derive(Drop)]
pub struct Pins {
    counts: Vec<u32>,
}

impl Model for Pins {
    ghost use Rattle.std.specs.Prelude.{ℕ, List};

    ghost Value = { List ℕ };

    ghost view = { λ p. p.counts.items };
}

impl Pins {
    /// No pin on any of so many frames.
    pub(crate) fn new(alloc: Global, frames: u32) -> Result<Pins, OutOfMemory>
        ensures { IfOk result (λ pins. pins ≡ replicate frames 0) }
    {
        Ok(Pins {
            counts: vec![in alloc; 0; frames as usize]?,
        })
    }

    /// The pins of a frame.
    pub fn of(&self, frame: u32) -> u32
        requires within { frame < length self.now }
        ensures { result ≡ slice_index self.now frame }
    {
        self.counts[frame as usize]
    }

    /// One pin more on a frame.
    pub fn pin(&mut self, frame: u32)
        requires within { frame < length self.old }
        requires room { slice_index self.old frame < 2 ^ 32 - 1 }
        ensures { self.new ≡ slice_set self.old frame (slice_index self.old frame + 1) }
    {
        self.counts[frame as usize] += 1;
    }

    /// One pin less on a frame.
    pub fn unpin(&mut self, frame: u32)
        requires within { frame < length self.old }
        requires some { 1 ≤ slice_index self.old frame }
        ensures { self.new ≡ slice_set self.old frame (slice_index self.old frame - 1) }
    {
        self.counts[frame as usize] -= 1;
    }
}
