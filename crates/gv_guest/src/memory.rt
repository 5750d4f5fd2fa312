ghost use Rattle.std.specs.Prelude.{◌≡◌, ◌+◌, ◌-◌, ◌*◌, ◌%◌, ◌^◌, ◌<◌, ◌≤◌, ◌↔◌, length, replicate, slice_index, slice_set, IfOk, OnOk, Ok};
ghost use Rattle.gv_gpu.specs.Change.{ChangesOnly};
ghost use Rattle.gv_gpu.specs.Part.{outside, frames_part};
ghost use Rattle.gv_types.specs.Memory.{memory_read, memory_write, zero_memory, bytes_of, all_ones};
ghost use Rattle.gv_guest.specs.Move.{IfMoved, UnlessMoved, MovesFrame};
ghost use Rattle.gv_guest.specs.Placed.{Hosts, memory_in, nowhere};

use crate::frames::Frames;
use crate::page_move::PageMove;
use crate::pins::Pins;
use gv_gpu::Gpu;
use gv_types::{GuestId, OutOfMemory, Width};
use std::alloc::Global;

/// A guest's memory: its frames, and how often each is pinned. The parts are borrowed apart, so that code
/// which pins says by its type that it moves no frame.
#[derive(Drop)]
pub struct Memory {
    pub frames: Frames,
    pub pins: Pins,
}

impl Memory {
    /// Zero frames, with no pin, for a guest that has none in the device: 1 to 16,384.
    pub fn new<G: Gpu>(
        alloc: Global,
        gpu: &mut G,
        guest: GuestId,
        frames: u32,
    ) -> Result<Memory, OutOfMemory>
        requires few { frames ≤ 16384 }
        requires room { (G.state gpu.old).live + frames ≤ 131072 }
        requires none { Hosts (G.state gpu.old) (nowhere guest.0) }
        ensures guest { IfOk result (λ m. m.frames.guest ≡ guest.0) }
        ensures stands { IfOk result (λ m. Hosts (G.state gpu.new) m.frames) }
        ensures memory { IfOk result (λ m. memory_in (G.state gpu.new) m.frames ≡ zero_memory frames) }
        ensures frames { IfOk result (λ m. length m.frames.pages ≡ frames) }
        ensures pins { IfOk result (λ m. m.pins ≡ replicate frames 0) }
        ensures live { OnOk result ((G.state gpu.new).live ≡ (G.state gpu.old).live + frames) }
        ensures outside { outside (frames_part guest.0) (G.state gpu.new) ≡ outside (frames_part guest.0) (G.state gpu.old) }
    {
        let pins = Pins::new(alloc, frames)?;
        let frames = Frames::new(alloc, gpu, guest, frames)?;
        Ok(Memory { frames, pins })
    }

    /// The number of frames.
    pub fn frames(&self) -> u32
        ensures { result ≡ length self.now.frames.pages }
    {
        self.frames.count()
    }

    /// The host page of a frame.
    pub fn page(&self, frame: u32) -> u64
        requires { frame < length self.now.frames.pages }
        ensures { result ≡ slice_index self.now.frames.pages frame }
    {
        self.frames.page(frame)
    }

    /// What an aligned read gives: all ones outside memory.
    pub fn read<G: Gpu>(&self, gpu: &G, at: u64, width: Width) -> u64
        requires stands { Hosts (G.state gpu.now) self.now.frames }
        requires aligned { at % bytes_of width ≡ 0 }
        ensures { result ≡ memory_read (memory_in (G.state gpu.now) self.now.frames) width at }
    {
        self.frames.read(gpu, at, width)
    }

    /// An aligned write, which does nothing outside memory. It pokes one word at the most.
    pub fn write<G: Gpu>(&self, gpu: &mut G, at: u64, width: Width, value: u64)
        requires stands { Hosts (G.state gpu.old) self.now.frames }
        requires aligned { at % bytes_of width ≡ 0 }
        requires fits { value ≤ all_ones width }
        ensures memory { memory_in (G.state gpu.new) self.now.frames ≡ memory_write (memory_in (G.state gpu.old) self.now.frames) width at value }
        ensures stands { Hosts (G.state gpu.new) self.now.frames }
        ensures changes { ChangesOnly (frames_part self.now.frames.guest) 1 (G.state gpu.old) (G.state gpu.new) }
    {
        self.frames.write(gpu, at, width, value)
    }

    /// The pins of a frame.
    pub fn pins(&self, frame: u32) -> u32
        requires within { frame < length self.now.pins }
        ensures { result ≡ slice_index self.now.pins frame }
    {
        self.pins.of(frame)
    }

    /// One pin more on a frame, which then keeps its host page.
    pub fn pin(&mut self, frame: u32)
        requires within { frame < length self.old.pins }
        requires room { slice_index self.old.pins frame < 2 ^ 32 - 1 }
        ensures frames { self.new.frames ≡ self.old.frames }
        ensures pins { self.new.pins ≡ slice_set self.old.pins frame (slice_index self.old.pins frame + 1) }
    {
        self.pins.pin(frame);
    }

    /// One pin less on a frame.
    pub fn unpin(&mut self, frame: u32)
        requires within { frame < length self.old.pins }
        requires some { 1 ≤ slice_index self.old.pins frame }
        ensures frames { self.new.frames ≡ self.old.frames }
        ensures pins { self.new.pins ≡ slice_set self.old.pins frame (slice_index self.old.pins frame - 1) }
    {
        self.pins.unpin(frame);
    }
    /// Puts a frame into another host page, with the same words, and releases its old one; but a frame that
    /// is pinned is kept.
    pub fn move_page<G: Gpu>(&mut self, gpu: &mut G, frame: u32) -> Result<PageMove, OutOfMemory>
        requires stands { Hosts (G.state gpu.old) self.old.frames }
        requires within { frame < length self.old.frames.pages }
        requires counted { frame < length self.old.pins }
        requires room { (G.state gpu.old).live < 131072 }
        ensures kept { (result ≡ Ok PageMove.Kept) ↔ (1 ≤ slice_index self.old.pins frame) }
        ensures moved { IfMoved result (MovesFrame self.old.frames self.new.frames frame (G.state gpu.new)) }
        ensures pins { self.new.pins ≡ self.old.pins }
        ensures memory { memory_in (G.state gpu.new) self.new.frames ≡ memory_in (G.state gpu.old) self.old.frames }
        ensures stands { Hosts (G.state gpu.new) self.new.frames }
        ensures changes { ChangesOnly (frames_part self.old.frames.guest) 512 (G.state gpu.old) (G.state gpu.new) }

        // Where the page didn't move nothing changes.
        ensures unmoved { UnlessMoved result (self.new.frames ≡ self.old.frames) }
        ensures device { UnlessMoved result (G.state gpu.new ≡ G.state gpu.old) }
    {
        if self.pins.of(frame) > 0 {
            return Ok(PageMove::Kept);
        }
        self.frames.move_page(gpu, frame)?;
        Ok(PageMove::Moved)
    }
}
