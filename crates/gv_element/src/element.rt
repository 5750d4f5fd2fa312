ghost use Rattle.std.specs.Prelude.{◌≡◌, ◌≤◌, ◌<◌, ◌+◌, ◌-◌, ℕ, [], IfOk, OnOk, OnErr, IsErrOf, None, true, length};
ghost use Rattle.gv_element.specs.Works.{Begins, IsWindow, KeepsEngines, ResumesWork, Rests, StopsWork, element_part, image_filled, started};
ghost use Rattle.gv_gpu.specs.Context.{stopped, context_submitted};
ghost use Rattle.gv_gpu.specs.Device.{counted, with_faults, with_spare};
ghost use Rattle.gv_gpu.specs.Part.{outside, window_part};
ghost use Rattle.gv_scan.specs.Layout.{FitsWindow};
ghost use Rattle.gv_sring.specs.Window.{Shows, WindowIsAbsent, descriptor_at, page_at};

use crate::LoadFault;
use gv_ctx::{Image, Saved};
use gv_gpu::{Gpu, GpuFailed};
use gv_scan::Program;
use gv_sctx::fill;
use gv_sring::{Shadow, build, drop_all};
use gv_types::{EngineId, GuestId};
use std::alloc::Global;
use std::marker::Model;

/// An element at work on an engine. A clause sees the frame of its root, the tail that its image had at
/// the load, and its window.
#[derive(Drop)]
pub struct Element {
    pub(crate) root: u32,
    pub(crate) tail: u32,
    pub(crate) shadow: Shadow,
}

impl Model for Element {
    ghost use Rattle.gv_element.specs.Works.{Held};

    ghost Value = { Held };

    ghost view = { λ s. record { root = s.root; tail = s.tail; window = s.shadow } };
}

/// Fills the image of a shadow with the front of its ring copy.
fn fill_image<G: Gpu>(gpu: &mut G, shadow: &Shadow, shadow_root: u64)
    requires shows { Shows (G.state gpu.old) shadow.now }
    requires root { shadow_root < 131072 }
    ensures { G.state gpu.new ≡ image_filled (G.state gpu.old) shadow.now shadow_root }
{
    let front = Saved {
        ring: 0,
        first: None,
        second: None,
    };
    fill(
        gpu,
        shadow.image(),
        shadow.start(),
        &front,
        shadow.tail(),
        shadow_root,
    );
}

/// Makes room in the journal, and only then loads a context, where none is loaded.
fn start<G: Gpu>(
    gpu: &mut G,
    guest: GuestId,
    engine: EngineId,
    descriptor: u64,
) -> Result<(), LoadFault>
    requires engine { engine.0 < 4 }
    requires idle { (G.state gpu.old).loaded engine.0 ≡ None }
    ensures ok { OnOk result (G.state gpu.new ≡ started (G.state gpu.old) (G.state gpu.new).spare engine.0 guest.0 descriptor) }
    ensures room { OnOk result (1 ≤ (G.state gpu.new).spare) }
    ensures err { OnErr result (G.state gpu.new ≡ with_faults (with_spare (G.state gpu.old) (G.state gpu.new).spare) (G.state gpu.new).faults) }
    ensures memory { IsErrOf result LoadFault.OutOfMemory → (G.state gpu.new).faults ≡ (G.state gpu.old).faults }
    ensures cause { IsErrOf result LoadFault.GpuFailed → counted (G.state gpu.old).faults ≤ (G.state gpu.new).faults }
{
    gpu.reserve(1)?;
    gpu.submit(engine, guest, descriptor)?;
    Ok(())
}

impl Element {
    /// The frame of the root of its per-process tables.
    pub fn root(&self) -> u32
        ensures { result ≡ self.now.root }
    {
        self.root
    }

    /// The tail that its image had at the load.
    pub fn tail(&self) -> u32
        ensures { result ≡ self.now.tail }
    {
        self.tail
    }

    /// The descriptor that its context is submitted with.
    pub fn descriptor(&self) -> u64
        ensures { result ≡ descriptor_at self.now.window.guest self.now.window.engine }
    {
        self.shadow.descriptor()
    }

    /// Loads an element whose fetch gave this program, on an engine on which no context is loaded, and
    /// whose window is absent. Its per-process space is that of the root's host page. All memory is taken
    /// before the context is submitted, a journal entry's too, so that the first step needs none.
    ///
    /// After a fault nothing is loaded and every other engine is as it was, the window is absent again, and no page is
    /// kept.
    pub fn load<G: Gpu>(
        alloc: Global,
        gpu: &mut G,
        guest: GuestId,
        engine: EngineId,
        root: u32,
        image: &Image,
        program: &Program,
        shadow_root: u64,
    ) -> Result<Self, LoadFault>
        requires guest { guest.0 < 8 }
        requires engine { engine.0 < 4 }
        requires idle { (G.state gpu.old).loaded engine.0 ≡ None }
        requires absent { WindowIsAbsent (G.state gpu.old) guest.0 engine.0 }
        requires room { (G.state gpu.old).live + 274 ≤ 131072 }
        requires fits { FitsWindow program.now.ring.items program.now.batches.items }
        requires root { shadow_root < 131072 }
        ensures begins { IfOk result (λ x. Begins (G.state gpu.new) guest.0 engine.0 shadow_root program.now.ring.items program.now.batches.items x) }
        ensures shows { IfOk result (λ x. Shows (G.state gpu.new) x.window) }
        ensures window { IfOk result (λ x. IsWindow guest.0 engine.0 x.window) }
        ensures root { IfOk result (λ x. x.root ≡ root) }
        ensures tail { IfOk result (λ x. x.tail ≡ image.now.tail) }
        ensures live { IfOk result (λ x. (G.state gpu.new).live ≡ (G.state gpu.old).live + length x.window.pages) }
        ensures room { OnOk result (1 ≤ (G.state gpu.new).spare) }
        ensures outside { IfOk result (λ x. outside (element_part guest.0 engine.0 x.window.pages) (G.state gpu.new) ≡ outside (element_part guest.0 engine.0 []) (G.state gpu.old)) }
        ensures registers { (G.state gpu.new).general ≡ (G.state gpu.old).general }

        // after a fault
        ensures unsubmitted { OnErr result (KeepsEngines (G.state gpu.old) (G.state gpu.new)) }
        ensures unchanged { OnErr result (outside (element_part guest.0 engine.0 []) (G.state gpu.new) ≡ outside (element_part guest.0 engine.0 []) (with_faults (G.state gpu.old) (G.state gpu.new).faults)) }
        ensures idle { OnErr result ((G.state gpu.new).loaded engine.0 ≡ None) }
        ensures absent { OnErr result (WindowIsAbsent (G.state gpu.new) guest.0 engine.0) }
        ensures none_more { OnErr result ((G.state gpu.new).live ≡ (G.state gpu.old).live) }
        ensures memory { IsErrOf result LoadFault.OutOfMemory → (G.state gpu.new).faults ≡ (G.state gpu.old).faults }
        ensures cause { IsErrOf result LoadFault.GpuFailed → counted (G.state gpu.old).faults ≤ (G.state gpu.new).faults }
    {
        let shadow = build(alloc, gpu, guest, engine, program)?;
        fill_image(gpu, &shadow, shadow_root);
        match start(gpu, guest, engine, shadow.descriptor()) {
            Ok(()) => Ok(Element {
                root,
                tail: image.tail,
                shadow,
            }),
            Err(fault) => {
                drop_all(gpu, shadow);
                Err(fault)
            }
        }
    }

    /// Takes an element away whose context isn't loaded: its window is absent then, and its pages are gone.
    pub fn release<G: Gpu>(self, gpu: &mut G)
        requires { Rests (G.state gpu.old) self.window }
        ensures absent { WindowIsAbsent (G.state gpu.new) self.window.guest self.window.engine }
        ensures gone { (k : ℕ) → k < length self.window.pages → (G.state gpu.new).label (page_at self.window k) ≡ None }
        ensures live { (G.state gpu.new).live ≡ (G.state gpu.old).live - length self.window.pages }
        ensures outside { outside (window_part self.window.guest self.window.engine []) (G.state gpu.new) ≡ outside (window_part self.window.guest self.window.engine self.window.pages) (G.state gpu.old) }
    {
        drop_all(gpu, self.shadow);
    }

    /// Puts its context away into its image, for a switch or a reset. The element works on with the same
    /// left. After `GpuFailed` the device is as before.
    pub fn stop<G: Gpu>(&self, gpu: &mut G, engine: EngineId) -> Result<(), GpuFailed>
        requires below { engine.0 < 4 }
        requires engine { self.now.window.engine ≡ engine.0 }
        ensures works { OnOk result (StopsWork (G.state gpu.old) (G.state gpu.new) self.now) }
        ensures idle { OnOk result ((G.state gpu.new).loaded engine.0 ≡ None) }
        ensures ok { OnOk result (G.state gpu.new ≡ stopped (G.state gpu.old) engine.0) }
        ensures err { OnErr result (G.state gpu.new ≡ with_faults (G.state gpu.old) (G.state gpu.new).faults) }
        ensures cause { OnErr result (counted (G.state gpu.old).faults ≤ (G.state gpu.new).faults) }
    {
        gpu.stop(engine)
    }

    /// Brings its context back from its image, where none is loaded. The element works on with the same
    /// left. After `GpuFailed` the device is as before.
    pub fn resume<G: Gpu>(
        &self,
        gpu: &mut G,
        guest: GuestId,
        engine: EngineId,
    ) -> Result<(), GpuFailed>
        requires below { engine.0 < 4 }
        requires guest { self.now.window.guest ≡ guest.0 }
        requires engine { self.now.window.engine ≡ engine.0 }
        requires idle { (G.state gpu.old).loaded engine.0 ≡ None }
        ensures works { OnOk result (ResumesWork (G.state gpu.old) (G.state gpu.new) self.now) }
        ensures ok { OnOk result (G.state gpu.new ≡ context_submitted (G.state gpu.old) engine.0 guest.0 (descriptor_at guest.0 engine.0)) }
        ensures err { OnErr result (G.state gpu.new ≡ with_faults (G.state gpu.old) (G.state gpu.new).faults) }
        ensures cause { OnErr result (counted (G.state gpu.old).faults ≤ (G.state gpu.new).faults) }
    {
        gpu.submit(engine, guest, self.descriptor())
    }
}
