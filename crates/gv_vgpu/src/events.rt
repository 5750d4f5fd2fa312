ghost use Rattle.std.specs.Prelude.{◌≡◌, ℕ, ◌+◌, ◌*◌, ◌%◌, ◌^◌, ◌<◌, Bool, None};
ghost use Rattle.gv_element.specs.Works.{KeepsEngines};
ghost use Rattle.gv_gpu.specs.Change.{ChangesOnly};
ghost use Rattle.gv_gpu.specs.Device.{Device};
ghost use Rattle.gv_gpu.specs.Part.{frames_part};
ghost use Rattle.gv_gtt.specs.Gtt.{number_of};
ghost use Rattle.gv_private.specs.Grants.{global_written};
ghost use Rattle.gv_private.specs.Status.{bit_raised, copied, event_given, in_ring};
ghost use Rattle.gv_vgpu.specs.Changes.{Keeps, Makes, injected};
ghost use Rattle.gv_vgpu.specs.Vgpu.{private_of};
ghost use Rattle.gv_vgpu.specs.Owners.{is_here};
ghost use Rattle.gv_vgpu.specs.Standing.{Holds};

use crate::Vgpu;
use gv_csb::Status;
use gv_gpu::Gpu;
use gv_types::{EngineId, PAGE_BYTES};

// The bit of an engine's sixteen that says that its context was switched.
const CONTEXT_SWITCH: u8 = 8;

impl Vgpu {
    /// Raises a bit of an engine's sixteen. Where an interrupt is injected, it answers IIR of its group.
    pub(crate) fn raise(&mut self, engine: EngineId, bit: u8) -> Option<u32>
        requires engine { engine.0 < 4 }
        requires bit { bit < 16 }
        ensures { (d : Device) (here : ℕ → Bool) → Holds d self.old here → Makes here d d self.old self.new (bit_raised (private_of d self.old here) engine.0 bit) (injected result) }
    {
        self.mmio.raise(engine, bit)
    }

    // Puts a status event into an engine's ring, and answers the index of its pair.
    fn push(&mut self, engine: EngineId, status: Status) -> u8
        requires { engine.0 < 4 }
        ensures device { (d : Device) (here : ℕ → Bool) → Holds d self.old here → private_of d self.new here ≡ in_ring (private_of d self.old here) engine.0 status }
        ensures keeps { (d : Device) (here : ℕ → Bool) → Holds d self.old here → Keeps here d d self.old self.new }
        ensures index { (d : Device) (here : ℕ → Bool) → Holds d self.old here → result ≡ ((in_ring (private_of d self.old here) engine.0 status).engines engine.0).slots.write }
        ensures within { result < 6 }
    {
        self.mmio.push(engine, status)
    }

    // Writes a dword of the guest's global space.
    pub(crate) fn write_global<G: Gpu>(&self, gpu: &mut G, here: [bool; 4], at: u64, value: u32)
        requires holds { Holds (G.state gpu.old) self.now (is_here here) }
        requires aligned { at % 4 ≡ 0 }
        requires below { at < 2 ^ 32 }
        ensures device { private_of (G.state gpu.new) self.now (is_here here) ≡ global_written (private_of (G.state gpu.old) self.now (is_here here)) at value }
        ensures keeps { Keeps (is_here here) (G.state gpu.old) (G.state gpu.new) self.now self.now }
        ensures part { ChangesOnly (frames_part (number_of self.now.gtt)) 1 (G.state gpu.old) (G.state gpu.new) }
        ensures engines { KeepsEngines (G.state gpu.old) (G.state gpu.new) }
    {
        self.gtt.write_dword(gpu, at, value);
    }

    // Copies a pair to the engine's status page, and its index.
    fn copy<G: Gpu>(
        &self,
        gpu: &mut G,
        here: [bool; 4],
        engine: EngineId,
        index: u8,
        status: Status,
    )
        requires holds { Holds (G.state gpu.old) self.now (is_here here) }
        requires engine { engine.0 < 4 }
        requires within { index < 6 }
        ensures device { private_of (G.state gpu.new) self.now (is_here here) ≡ copied (private_of (G.state gpu.old) self.now (is_here here)) engine.0 index status }
        ensures keeps { Keeps (is_here here) (G.state gpu.old) (G.state gpu.new) self.now self.now }
        ensures part { ChangesOnly (frames_part (number_of self.now.gtt)) 3 (G.state gpu.old) (G.state gpu.new) }
    {
        let page = u64::from(self.mmio.status_page(engine)) * PAGE_BYTES;
        let pair = 2 * u64::from(index);
        self.write_global(gpu, here, page + 4 * (0x10 + pair), status.word);
        self.write_global(gpu, here, page + 4 * (0x11 + pair), status.number);
        self.write_global(gpu, here, page + 4 * 0x1f, u32::from(index));
    }

    /// Gives a status event: it goes into the engine's ring and to its status page, and the context switch bit is
    /// raised. Where an interrupt is injected, it answers IIR of its group.
    pub(crate) fn give_event<G: Gpu>(
        &mut self,
        gpu: &mut G,
        here: [bool; 4],
        engine: EngineId,
        status: Status,
    ) -> Option<u32>
        requires holds { Holds (G.state gpu.old) self.old (is_here here) }
        requires engine { engine.0 < 4 }
        ensures given { Makes (is_here here) (G.state gpu.old) (G.state gpu.new) self.old self.new (event_given (private_of (G.state gpu.old) self.old (is_here here)) engine.0 status) (injected result) }
        ensures part { ChangesOnly (frames_part (number_of self.old.gtt)) 3 (G.state gpu.old) (G.state gpu.new) }
    {
        let index = self.push(engine, status);
        self.copy(gpu, here, engine, index, status);
        self.raise(engine, CONTEXT_SWITCH)
    }
}
