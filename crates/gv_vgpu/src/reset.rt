ghost use Rattle.std.specs.Prelude.{◌≡◌, ◌≢◌, ◌≤◌, ◌<◌, ℕ, IfOk, OnOk, OnErr};
ghost use Rattle.gv_types.specs.declared.reply.Stop.TheVariants.{DeviceFault};
ghost use Rattle.gv_gpu.specs.Device.{counted, with_faults};
ghost use Rattle.gv_private.specs.Device.{fails, function_reset};
ghost use Rattle.gv_private.specs.Registers.{is_named};
ghost use Rattle.gv_mmio.specs.Mmio.{rest_reset};
ghost use Rattle.gv_vgpu.specs.Changes.{Keeps, Makes, Stops};
ghost use Rattle.gv_vgpu.specs.Vgpu.{engine_at, private_of};
ghost use Rattle.gv_vgpu.specs.Owners.{is_here};
ghost use Rattle.gv_vgpu.specs.Reset.{AreReset, IsGoneIf, IsOn, IsReset, RestsIf, are_below, general_zeroed, taken_off, zero_engine};
ghost use Rattle.gv_vgpu.specs.Standing.{HoldsBut, Occupies};

use crate::Vgpu;
use crate::engine::Engine;
use crate::notice::Notice;
use gv_gpu::{Gpu, GpuFailed};
use gv_types::{EngineId, Reason};
use std::mem::replace;

// The sixteen general registers that the device has for an engine become zeros.
fn zero_general<G: Gpu>(gpu: &mut G, engine: EngineId)
    requires { engine.0 < 4 }
    ensures { G.state gpu.new ≡ general_zeroed (G.state gpu.old) engine.0 }
{
    for n in 0..16u8 {
        gpu.set_general(engine, n, 0);
    }
}

impl Vgpu {
    // Takes what the device has of an engine that the guest owns off it: the context of an element, and the general
    // registers.
    fn take_off<G: Gpu>(&self, gpu: &mut G, engine: EngineId) -> Result<(), GpuFailed>
        requires engine { engine.0 < 4 }
        requires window { IsOn engine.0 (engine_at self.now engine.0).element }
        ensures ok { OnOk result (G.state gpu.new ≡ taken_off (G.state gpu.old) engine.0 (engine_at self.now engine.0).element) }
        ensures err { OnErr result (G.state gpu.new ≡ with_faults (G.state gpu.old) (G.state gpu.new).faults) }
        ensures cause { OnErr result (counted (G.state gpu.old).faults ≤ (G.state gpu.new).faults) }
    {
        if let Some(element) = &self.engines[engine.0 as usize].element {
            element.stop(gpu, engine)?;
        }
        zero_general(gpu, engine);
        Ok(())
    }

    // Takes the element of an engine away, if it has one, with its window. Its context isn't loaded. The registers that
    // are kept are zeros then.
    fn clear_engine<G: Gpu>(&mut self, gpu: &mut G, engine: EngineId)
        requires engine { engine.0 < 4 }
        requires rests { RestsIf (G.state gpu.old) (engine_at self.old engine.0).element }
        ensures gone { IsGoneIf (G.state gpu.old) (G.state gpu.new) (engine_at self.old engine.0).element }
        ensures own { engine_at self.new engine.0 ≡ zero_engine }
        ensures others { (k : ℕ) → k ≢ engine.0 → engine_at self.new k ≡ engine_at self.old k }
        ensures gtt { self.new.gtt ≡ self.old.gtt }
        ensures mmio { self.new.mmio ≡ self.old.mmio }
        ensures failsafe { self.new.failsafe ≡ self.old.failsafe }
    {
        let old = replace(&mut self.engines[engine.0 as usize], Engine::new());
        if let Some(element) = old.element {
            element.release(gpu);
        }
    }

    // Resets an engine: it has no element then, and zeros for general registers. After a fault nothing of the guest's
    // changed.
    fn reset_engine<G: Gpu>(
        &mut self,
        gpu: &mut G,
        here: [bool; 4],
        engine: EngineId,
    ) -> Result<(), GpuFailed>
        requires occupies { Occupies (G.state gpu.old) self.old (is_here here) }
        requires engine { engine.0 < 4 }
        ensures reset { OnOk result (IsReset (is_here here) engine.0 (G.state gpu.old) (G.state gpu.new) self.old self.new) }
        ensures err { OnErr result (G.state gpu.new ≡ with_faults (G.state gpu.old) (G.state gpu.new).faults) }
        ensures cause { OnErr result (counted (G.state gpu.old).faults ≤ (G.state gpu.new).faults) }
    {
        if here[engine.0 as usize] {
            self.take_off(gpu, engine)?;
        }
        self.clear_engine(gpu, engine);
        Ok(())
    }

    /// Resets the engines that are named, as far as they aren't kept in registers and ports.
    pub(crate) fn reset_named<G: Gpu>(
        &mut self,
        gpu: &mut G,
        here: [bool; 4],
        named: [bool; 4],
    ) -> Result<(), GpuFailed>
        requires holds { HoldsBut (is_named named) (G.state gpu.old) self.old (is_here here) }
        ensures device { OnOk result (private_of (G.state gpu.new) self.new (is_here here) ≡ rest_reset named (private_of (G.state gpu.old) self.old (is_here here))) }
        ensures keeps { OnOk result (Keeps (is_here here) (G.state gpu.old) (G.state gpu.new) self.old self.new) }
        ensures faults { OnErr result (Stops (is_here here) (G.state gpu.old) (G.state gpu.new) self.old DeviceFault) }
    {
        for engine in 0..4u8 {
            if named[engine as usize] {
                self.reset_engine(gpu, here, EngineId(engine))?;
            }
        }
        Ok(())
    }

    // Resets all four engines.
    fn reset_engines<G: Gpu>(&mut self, gpu: &mut G, here: [bool; 4]) -> Result<(), GpuFailed>
        requires occupies { Occupies (G.state gpu.old) self.old (is_here here) }
        ensures reset { OnOk result (AreReset (are_below 4) (is_here here) (G.state gpu.old) (G.state gpu.new) self.old self.new) }
        ensures faults { OnErr result (Stops (is_here here) (G.state gpu.old) (G.state gpu.new) self.old DeviceFault) }
    {
        for engine in 0..4u8 {
            self.reset_engine(gpu, here, EngineId(engine))?;
        }
        Ok(())
    }

    // As after a function reset, but for failsafe, whatever state a call left. Memory stays.
    fn start_over<G: Gpu>(
        &mut self,
        gpu: &mut G,
        here: [bool; 4],
        failsafe: bool,
    ) -> Result<(), GpuFailed>
        requires occupies { Occupies (G.state gpu.old) self.old (is_here here) }
        ensures device { OnOk result (private_of (G.state gpu.new) self.new (is_here here) ≡ record (function_reset (private_of (G.state gpu.old) self.old (is_here here))) { failsafe = failsafe }) }
        ensures keeps { OnOk result (Keeps (is_here here) (G.state gpu.old) (G.state gpu.new) self.old self.new) }
        ensures faults { OnErr result (Stops (is_here here) (G.state gpu.old) (G.state gpu.new) self.old DeviceFault) }
    {
        self.reset_engines(gpu, here)?;
        self.gtt.clear(gpu);
        self.mmio.reset();
        self.failsafe = failsafe;
        Ok(())
    }

    /// Puts the guest into failsafe, whatever state a call left: it is as after a function reset until the next one. No
    /// other guest is.
    pub fn fail<G: Gpu>(
        &mut self,
        gpu: &mut G,
        here: [bool; 4],
        reason: Reason,
    ) -> Result<Notice, GpuFailed>
        requires occupies { Occupies (G.state gpu.old) self.old (is_here here) }
        ensures failed { IfOk result (λ notice. Makes (is_here here) (G.state gpu.old) (G.state gpu.new) self.old self.new (fails (private_of (G.state gpu.old) self.old (is_here here)) reason) notice) }
        ensures faults { OnErr result (Stops (is_here here) (G.state gpu.old) (G.state gpu.new) self.old DeviceFault) }
    {
        self.start_over(gpu, here, true)?;
        Ok(Notice {
            irq: None,
            failsafe: Some(reason),
        })
    }

    /// A function reset: all is as at first, and failsafe is left. Memory stays.
    pub fn reset<G: Gpu>(&mut self, gpu: &mut G, here: [bool; 4]) -> Result<(), GpuFailed>
        requires occupies { Occupies (G.state gpu.old) self.old (is_here here) }
        ensures device { OnOk result (private_of (G.state gpu.new) self.new (is_here here) ≡ function_reset (private_of (G.state gpu.old) self.old (is_here here))) }
        ensures keeps { OnOk result (Keeps (is_here here) (G.state gpu.old) (G.state gpu.new) self.old self.new) }
        ensures faults { OnErr result (Stops (is_here here) (G.state gpu.old) (G.state gpu.new) self.old DeviceFault) }
    {
        self.start_over(gpu, here, false)
    }
}
