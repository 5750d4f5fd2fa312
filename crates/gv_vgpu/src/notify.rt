ghost use Rattle.std.specs.Prelude.{◌≡◌, ℕ, ◌<◌, Bool, IfOk, IfErr, IsErrOf, OnOk, OnErr, IsSome};
ghost use Rattle.gv_element.specs.Works.{KeepsEngines};
ghost use Rattle.gv_gpu.specs.Device.{Device};
ghost use Rattle.gv_private.specs.Roots.{is_at_work, notify_written, root_created, root_destroyed, works_over};
ghost use Rattle.gv_vgpu.specs.Changes.{Keeps, Makes, Stops};
ghost use Rattle.gv_vgpu.specs.Vgpu.{element_in, private_of};
ghost use Rattle.gv_vgpu.specs.Owners.{is_here};
ghost use Rattle.gv_vgpu.specs.Standing.{Holds};

use crate::Vgpu;
use crate::engine::Engine;
use crate::notice::Notice;
use crate::stop::or_stop;
use gv_gpu::Gpu;
use gv_sppgtt::TableFault;
use gv_types::{Reason, Stop};

// Whether an element at work on an engine has this root.
fn works_over(engine: &Engine, root: u64) -> bool
    ensures { (d : Device) (guest number : ℕ) (here : Bool) → result ≡ works_over root (element_in d guest number here engine.now.element) }
{
    match &engine.element {
        Some(element) => u64::from(element.root()) == root,
        None => false,
    }
}

impl Vgpu {
    // Whether a frame is the root of an element at work.
    fn is_at_work(&self, root: u64) -> bool
        ensures { (d : Device) (here : ℕ → Bool) → result ≡ is_at_work (private_of d self.now here) root }
    {
        works_over(&self.engines[0], root)
            || works_over(&self.engines[1], root)
            || works_over(&self.engines[2], root)
            || works_over(&self.engines[3], root)
    }

    // Announces a root. A guest whose frame isn't in memory, or with which a live table has a bad entry, fails.
    fn create_root<G: Gpu>(
        &mut self,
        gpu: &mut G,
        here: [bool; 4],
        root: u64,
    ) -> Result<Notice, Stop>
        requires { Holds (G.state gpu.old) self.old (is_here here) }
        ensures created { IfOk result (λ notice. Makes (is_here here) (G.state gpu.old) (G.state gpu.new) self.old self.new (root_created (private_of (G.state gpu.old) self.old (is_here here)) root) notice) }
        ensures stops { IfErr result (λ stop. Stops (is_here here) (G.state gpu.old) (G.state gpu.new) self.old stop) }
        ensures listed { IsErrOf result Stop.DeviceFault → IsSome (root_created (private_of (G.state gpu.old) self.old (is_here here)) root).reason }
        ensures unsubmitted { IsErrOf result Stop.OutOfMemory → KeepsEngines (G.state gpu.old) (G.state gpu.new) }
    {
        match self.gtt.create_root(gpu, root) {
            Ok(()) => Ok(Notice::none()),
            Err(TableFault::OutOfMemory) => Err(Stop::OutOfMemory),
            Err(TableFault::BadEntry) => or_stop(self.fail(gpu, here, Reason::Entry)),
        }
    }

    // Takes a root away, if it is there and isn't that of an element at work.
    fn destroy_root<G: Gpu>(&mut self, gpu: &mut G, here: [bool; 4], root: u64) -> Result<(), Stop>
        requires { Holds (G.state gpu.old) self.old (is_here here) }
        ensures device { OnOk result (private_of (G.state gpu.new) self.new (is_here here) ≡ root_destroyed (private_of (G.state gpu.old) self.old (is_here here)) root) }
        ensures keeps { OnOk result (Keeps (is_here here) (G.state gpu.old) (G.state gpu.new) self.old self.new) }
        ensures stops { IfErr result (λ stop. Stops (is_here here) (G.state gpu.old) (G.state gpu.new) self.old stop) }
        ensures memory { OnErr result (result ≡ Err Stop.OutOfMemory) }
        ensures unsubmitted { KeepsEngines (G.state gpu.old) (G.state gpu.new) }
    {
        if root < u64::from(self.gtt.frames()) && !self.is_at_work(root) {
            match self.gtt.destroy_root(gpu, root as u32) {
                Ok(()) => Ok(()),
                Err(_) => Err(Stop::OutOfMemory),
            }
        } else {
            Ok(())
        }
    }

    /// Writes notify: 4 creates the root that the PVINFO page names, 5 destroys it, and any other value does nothing.
    pub(crate) fn notify<G: Gpu>(
        &mut self,
        gpu: &mut G,
        here: [bool; 4],
        value: u32,
    ) -> Result<Notice, Stop>
        requires { Holds (G.state gpu.old) self.old (is_here here) }
        ensures notified { IfOk result (λ notice. Makes (is_here here) (G.state gpu.old) (G.state gpu.new) self.old self.new (notify_written (private_of (G.state gpu.old) self.old (is_here here)) value) notice) }
        ensures stops { IfErr result (λ stop. Stops (is_here here) (G.state gpu.old) (G.state gpu.new) self.old stop) }
        ensures listed { IsErrOf result Stop.DeviceFault → IsSome (notify_written (private_of (G.state gpu.old) self.old (is_here here)) value).reason }
        ensures unsubmitted { IsErrOf result Stop.OutOfMemory → KeepsEngines (G.state gpu.old) (G.state gpu.new) }
    {
        let root = self.mmio.root();
        match value {
            4 => self.create_root(gpu, here, root),
            5 => {
                self.destroy_root(gpu, here, root)?;
                Ok(Notice::none())
            }
            _ => Ok(Notice::none()),
        }
    }
}
