ghost use Rattle.std.specs.Prelude.{◌≡◌, ◌≢◌, ◌<◌, ℕ, OnErr, OnOk, None, false, true, length};
ghost use Rattle.gv_types.specs.declared.reply.Stop.TheVariants.{DeviceFault};
ghost use Rattle.gv_vgpu.specs.Changes.{Stops};
ghost use Rattle.gv_vgpu.specs.Exchange.{Exchanges, HasSixteen, owning, shadow_of};
ghost use Rattle.gv_vgpu.specs.Vgpu.{engine_at};
ghost use Rattle.gv_vgpu.specs.Owners.{is_here};
ghost use Rattle.gv_vgpu.specs.Standing.{Holds};

use crate::Vgpu;
use gv_gpu::{Gpu, GpuFailed};
use gv_types::EngineId;

impl Vgpu {
    /// The descriptor of the shadow context of the element at work on an engine, if there is one.
    pub fn shadow(&self, engine: EngineId) -> Option<u64>
        requires { engine.0 < 4 }
        ensures { result ≡ shadow_of (engine_at self.now engine.0).element }
    {
        match &self.engines[engine.0 as usize].element {
            Some(element) => Some(element.descriptor()),
            None => None,
        }
    }

    /// The general registers that are kept for an engine while the guest doesn't own it.
    pub fn kept(&self, engine: EngineId) -> &[u64; 16]
        requires { engine.0 < 4 }
        ensures { result.now ≡ (engine_at self.now engine.0).kept }
    {
        &self.engines[engine.0 as usize].kept
    }

    // Keeps these general registers for an engine.
    fn keep(&mut self, engine: EngineId, kept: [u64; 16])
        requires engine { engine.0 < 4 }
        ensures own { engine_at self.new engine.0 ≡ record (engine_at self.old engine.0) { kept = kept } }
        ensures others { (k : ℕ) → k ≢ engine.0 → engine_at self.new k ≡ engine_at self.old k }
        ensures gtt { self.new.gtt ≡ self.old.gtt }
        ensures mmio { self.new.mmio ≡ self.old.mmio }
        ensures failsafe { self.new.failsafe ≡ self.old.failsafe }
    {
        self.engines[engine.0 as usize].kept = kept;
    }

    /// Puts away what an engine that the guest owns has of it: the context of its element, if one is at work, goes into
    /// the element's image, and the general registers are kept. No context is loaded then, and the guest owns the engine
    /// no more.
    pub fn put_away<G: Gpu>(
        &mut self,
        gpu: &mut G,
        here: [bool; 4],
        engine: EngineId,
    ) -> Result<(), GpuFailed>
        requires holds { Holds (G.state gpu.old) self.old (is_here here) }
        requires engine { engine.0 < 4 }
        requires own { is_here here engine.0 ≡ true }
        ensures exchanges { OnOk result (Exchanges (is_here here) (is_here here) (owning (is_here here) engine.0 false) (G.state gpu.old) (G.state gpu.new) self.old self.new) }
        ensures idle { OnOk result ((G.state gpu.new).loaded engine.0 ≡ None) }
        ensures sixteen { OnOk result (HasSixteen (G.state gpu.new) engine.0) }
        ensures faults { OnErr result (Stops (is_here here) (G.state gpu.old) (G.state gpu.new) self.old DeviceFault) }
    {
        let mut kept = [0; 16];
        gv_switch::put_away(gpu, engine, &mut kept)?;
        self.keep(engine, kept);
        Ok(())
    }

    /// Brings what the guest has of an engine to it, on which no context is loaded: the general registers that were kept,
    /// and the context of its element, if one is at work. The guest owns the engine then.
    pub fn bring<G: Gpu>(
        &self,
        gpu: &mut G,
        here: [bool; 4],
        engine: EngineId,
    ) -> Result<(), GpuFailed>
        requires holds { Holds (G.state gpu.old) self.now (is_here here) }
        requires engine { engine.0 < 4 }
        requires away { is_here here engine.0 ≡ false }
        requires idle { (G.state gpu.old).loaded engine.0 ≡ None }
        requires sixteen { HasSixteen (G.state gpu.old) engine.0 }
        ensures exchanges { OnOk result (Exchanges (owning (is_here here) engine.0 true) (is_here here) (owning (is_here here) engine.0 true) (G.state gpu.old) (G.state gpu.new) self.now self.now) }
        ensures faults { OnErr result (Stops (owning (is_here here) engine.0 true) (G.state gpu.old) (G.state gpu.new) self.now DeviceFault) }
    {
        let kept = &self.engines[engine.0 as usize].kept;
        gv_switch::bring(gpu, engine, self.mmio.guest(), kept, self.shadow(engine))
    }
}
