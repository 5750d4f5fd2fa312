ghost use Rattle.std.specs.Prelude.{◌≡◌, ℕ, ◌+◌, ◌*◌, ◌%◌, ◌<◌, ◌≤◌, Bool, IfOk, OnOk, length};
ghost use Rattle.std.specs.Option.{is_some};
ghost use Rattle.gv_types.specs.Memory.{memory_read};
ghost use Rattle.gv_entry.specs.Ranges.{InParts};
ghost use Rattle.gv_gpu.specs.Device.{Device};
ghost use Rattle.gv_gpu.specs.Part.{outside, frames_part};
ghost use Rattle.gv_guest.specs.Placed.{Hosts, nowhere};
ghost use Rattle.gv_private.specs.Device.{new_device};
ghost use Rattle.gv_sggtt.specs.Mirror.{AreAbsent};

use crate::engine::{Engine, first_engines};
use gv_gpu::Gpu;
use gv_gtt::Gtt;
use gv_guest::Memory;
use gv_mmio::Mmio;
use gv_types::{EngineId, GuestId, OutOfMemory, Ranges, Width};
use std::alloc::Global;

/// One guest's device, over the shared device. Clauses see the private device that it stands for (`private_of`), and
/// that it stands there (`Holds`).
#[derive(Drop)]
pub struct Vgpu {
    pub(crate) gtt: Gtt,
    pub(crate) mmio: Mmio,
    pub(crate) failsafe: bool,
    pub(crate) engines: [Engine; 4],
    ghost four: { length engines ≡ 4 },
}

impl Vgpu {
    ghost use Rattle.gv_vgpu.specs.Idle.{AreIdle, WindowsAreAbsent};
    ghost use Rattle.gv_gtt.specs.Gtt.{frames_of};
    ghost use Rattle.gv_private.specs.Work.{has_work};
    ghost use Rattle.gv_vgpu.specs.Changes.{own_live};
    ghost use Rattle.gv_vgpu.specs.Owners.{is_here};
    ghost use Rattle.gv_vgpu.specs.Vgpu.{pins_of, private_of};
    ghost use Rattle.gv_vgpu.specs.Standing.{Holds};

    /// A guest's device as after a function reset, with so many zero frames, 1 to 16,384, and these ranges, whose
    /// physical entries are absent. The guest has no page and no window in the device yet, and the engines that it will
    /// own are idle.
    pub fn new<G: Gpu>(
        alloc: Global,
        gpu: &mut G,
        guest: GuestId,
        frames: u32,
        ranges: Ranges,
    ) -> Result<Vgpu, OutOfMemory>
        requires guest { guest.0 < 8 }
        requires some { 1 ≤ frames }
        requires few { frames ≤ 16384 }
        requires parts { InParts ranges }
        requires room { (G.state gpu.old).live + (5 * frames + 64) ≤ 131072 }
        requires none { Hosts (G.state gpu.old) (nowhere guest.0) }
        requires absent { AreAbsent (G.state gpu.old) ranges }
        requires windows { WindowsAreAbsent (G.state gpu.old) guest.0 }
        ensures device { IfOk result (λ v. (here : ℕ → Bool) → AreIdle (G.state gpu.old) guest.0 here → private_of (G.state gpu.new) v here ≡ new_device guest.0 frames ranges) }
        ensures holds { IfOk result (λ v. (here : ℕ → Bool) → AreIdle (G.state gpu.old) guest.0 here → Holds (G.state gpu.new) v here) }
        ensures frames { IfOk result (λ v. length (frames_of v.gtt).pages ≡ frames) }
        ensures own { IfOk result (λ v. own_live v ≡ frames) }
        ensures live { OnOk result ((G.state gpu.new).live ≡ (G.state gpu.old).live + frames) }
        ensures outside { outside (frames_part guest.0) (G.state gpu.new) ≡ outside (frames_part guest.0) (G.state gpu.old) }
    {
        let gtt = Gtt::new(alloc, gpu, guest, frames, ranges)?;
        Ok(Vgpu {
            gtt,
            mmio: Mmio::new(guest, ranges),
            failsafe: false,
            engines: first_engines(),
        })
    }

    /// Whether the guest is in failsafe.
    pub fn failsafe(&self) -> bool
        ensures { (d : Device) (here : ℕ → Bool) → result ≡ (private_of d self.now here).failsafe }
    {
        self.failsafe
    }

    /// Whether an element is at work on an engine.
    pub fn at_work(&self, engine: EngineId) -> bool
        requires { engine.0 < 4 }
        ensures { (d : Device) (here : ℕ → Bool) → result ≡ is_some ((private_of d self.now here).engines engine.0).element }
    {
        self.engines[engine.0 as usize].element.is_some()
    }

    /// Whether an element is at work, or a list is there, on an engine.
    pub fn has_work(&self, engine: EngineId) -> bool
        requires { engine.0 < 4 }
        ensures { (d : Device) (here : ℕ → Bool) → result ≡ has_work engine.0 (private_of d self.now here) }
    {
        self.at_work(engine) || self.mmio.current(engine).is_some()
    }

    /// The words of the guest's memory.
    pub fn word<G: Gpu>(&self, gpu: &G, here: [bool; 4], at: u64) -> u64
        requires holds { Holds (G.state gpu.now) self.now (is_here here) }
        requires aligned { at % 8 ≡ 0 }
        ensures { result ≡ memory_read (private_of (G.state gpu.now) self.now (is_here here)).memory Width.Eight at }
    {
        self.gtt.read(gpu, at, Width::Eight)
    }

    /// How many frames the guest has.
    pub fn frames(&self) -> u32
        ensures { result ≡ length (frames_of self.now.gtt).pages }
    {
        self.gtt.frames()
    }

    /// The guest's frames, with the host page of each, and how often each is pinned.
    pub fn memory(&self) -> &Memory
        ensures frames { result.now.frames ≡ frames_of self.now.gtt }
        ensures pins { result.now.pins ≡ pins_of self.now.gtt }
    {
        self.gtt.memory()
    }
}
