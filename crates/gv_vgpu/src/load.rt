ghost use Rattle.std.specs.Prelude.{◌≡◌, ◌≢◌, ℕ, ◌<◌, true, false, None, Some, Ok, Err, length, IfOk, IfErr, IsErrOf, OnOk, OnErr};
ghost use Rattle.gv_ctx.specs.Image.{IsImage};
ghost use Rattle.gv_element.specs.Works.{KeepsEngines};
ghost use Rattle.gv_fetch.specs.Fetch.{fetched};
ghost use Rattle.gv_entry.specs.SameTables.{has};
ghost use Rattle.gv_gtt.specs.Gtt.{roots_in};
ghost use Rattle.gv_mmio.specs.Mmio.{ports_at};
ghost use Rattle.gv_private.specs.Load.{fetched_into, global_space, loaded};
ghost use Rattle.gv_private.specs.Roots.{announced};
ghost use Rattle.gv_private.specs.Turn.{turned};
ghost use Rattle.gv_scan.specs.Layout.{FitsWindow};
ghost use Rattle.gv_scan.specs.Scan.{Scanned};
ghost use Rattle.gv_vgpu.specs.Changes.{Keeps, MayLoad, Stops, Turns};
ghost use Rattle.gv_vgpu.specs.Loading.{LoadsOn, Refuses};
ghost use Rattle.gv_vgpu.specs.Vgpu.{engine_at, private_of};
ghost use Rattle.gv_vgpu.specs.Owners.{is_here};
ghost use Rattle.gv_vgpu.specs.Standing.{HasRoomToLoad, Holds};

use crate::Vgpu;
use crate::engine::Engine;
use crate::fetch::{fetch, image};
use crate::notice::{Notice, Turned};
use gv_ctx::{Descriptor, Image};
use gv_element::{Element, LoadFault};
use gv_gpu::{Gpu, GpuFailed};
use gv_scan::Program;
use gv_sppgtt::TableFault;
use gv_types::{EngineId, Outcome, Reason, Stop};
use std::alloc::Global;

/// Why no element was loaded: the guest fails, or no further event is taken.
#[derive(Clone, Copy, Debug, PartialEq, Eq)]
pub(crate) enum Refusal {
    Fails(Reason),
    Stopped(Stop),
}

// An engine has this element at work.
fn take_on(engine: &mut Engine, element: Element)
    ensures { engine.new ≡ record engine.old { element = Some element } }
{
    engine.element = Some(element);
}

impl Vgpu {
    // Announces the root of a context.
    fn announce<G: Gpu>(&mut self, gpu: &mut G, here: [bool; 4], root: u64) -> Result<(), Refusal>
        requires { Holds (G.state gpu.old) self.old (is_here here) }
        ensures device { OnOk result (announced (private_of (G.state gpu.old) self.old (is_here here)) root ≡ Ok (private_of (G.state gpu.new) self.new (is_here here))) }
        ensures keeps { OnOk result (Keeps (is_here here) (G.state gpu.old) (G.state gpu.new) self.old self.new) }
        ensures refuses { IfErr result (Refuses (is_here here) (G.state gpu.old) (G.state gpu.new) self.old self.new (announced (private_of (G.state gpu.old) self.old (is_here here)) root)) }
        ensures room { OnOk result (HasRoomToLoad (G.state gpu.old) self.old → HasRoomToLoad (G.state gpu.new) self.new) }
        ensures mmio { self.new.mmio ≡ self.old.mmio }
        ensures failsafe { self.new.failsafe ≡ self.old.failsafe }
        ensures engines { self.new.engines ≡ self.old.engines }
        ensures unsubmitted { KeepsEngines (G.state gpu.old) (G.state gpu.new) }
    {
        match self.gtt.create_root(gpu, root) {
            Ok(()) => Ok(()),
            Err(TableFault::OutOfMemory) => Err(Refusal::Stopped(Stop::OutOfMemory)),
            Err(TableFault::BadEntry) => Err(Refusal::Fails(Reason::Entry)),
        }
    }

    // Puts an element to work on an engine.
    fn put_element(&mut self, engine: EngineId, element: Element)
        requires { engine.0 < 4 }
        ensures own { engine_at self.new engine.0 ≡ record (engine_at self.old engine.0) { element = Some element } }
        ensures others { (k : ℕ) → k ≢ engine.0 → engine_at self.new k ≡ engine_at self.old k }
        ensures gtt { self.new.gtt ≡ self.old.gtt }
        ensures mmio { self.new.mmio ≡ self.old.mmio }
        ensures failsafe { self.new.failsafe ≡ self.old.failsafe }
    {
        take_on(&mut self.engines[engine.0 as usize], element);
    }

    // Loads a program that was fetched, of which the root was announced.
    fn put_to_work<G: Gpu>(
        &mut self,
        alloc: Global,
        gpu: &mut G,
        here: [bool; 4],
        engine: EngineId,
        image: &Image,
        program: &Program,
    ) -> Result<(), Stop>
        requires holds { Holds (G.state gpu.old) self.old (is_here here) }
        requires room { HasRoomToLoad (G.state gpu.old) self.old }
        requires engine { engine.0 < 4 }
        requires own { is_here here engine.0 ≡ true }
        requires none { (engine_at self.old engine.0).element ≡ None }
        requires list { 0 < length (ports_at self.old.mmio engine.0).slots.running }
        requires awake { self.old.failsafe ≡ false }
        requires image { IsImage image.now }
        requires root { has (roots_in self.old.gtt) image.now.root ≡ true }
        requires items { Scanned (fetched (global_space (private_of (G.state gpu.old) self.old (is_here here))) engine.0 image.now) program.now.ring.items program.now.batches.items }
        requires fits { FitsWindow program.now.ring.items program.now.batches.items }
        ensures device { OnOk result (fetched_into (private_of (G.state gpu.old) self.old (is_here here)) engine.0 image.now ≡ Ok (private_of (G.state gpu.new) self.new (is_here here))) }
        ensures keeps { OnOk result (MayLoad (is_here here) (G.state gpu.old) (G.state gpu.new) self.old self.new) }
        ensures stops { IfErr result (λ stop. Stops (is_here here) (G.state gpu.old) (G.state gpu.new) self.old stop) }
        ensures unsubmitted { OnErr result (KeepsEngines (G.state gpu.old) (G.state gpu.new)) }
        ensures ready { OnOk result (LoadsOn engine.0 (G.state gpu.old) (G.state gpu.new)) }
    {
        let root = image.root as u32;
        let shadow_root = self.gtt.shadow_root(root);
        let guest = self.mmio.guest();
        match Element::load(alloc, gpu, guest, engine, root, image, program, shadow_root) {
            Ok(element) => {
                self.put_element(engine, element);
                Ok(())
            }
            Err(LoadFault::OutOfMemory) => Err(Stop::OutOfMemory),
            Err(LoadFault::GpuFailed) => Err(Stop::DeviceFault),
        }
    }

    // Fetches the program of an image, whose root was announced, and loads it, or tells why it isn't loaded.
    fn fetch_into<G: Gpu>(
        &mut self,
        alloc: Global,
        gpu: &mut G,
        here: [bool; 4],
        engine: EngineId,
        image: &Image,
    ) -> Result<(), Refusal>
        requires holds { Holds (G.state gpu.old) self.old (is_here here) }
        requires room { HasRoomToLoad (G.state gpu.old) self.old }
        requires engine { engine.0 < 4 }
        requires own { is_here here engine.0 ≡ true }
        requires none { (engine_at self.old engine.0).element ≡ None }
        requires list { 0 < length (ports_at self.old.mmio engine.0).slots.running }
        requires awake { self.old.failsafe ≡ false }
        requires image { IsImage image.now }
        requires root { has (roots_in self.old.gtt) image.now.root ≡ true }
        ensures device { OnOk result (fetched_into (private_of (G.state gpu.old) self.old (is_here here)) engine.0 image.now ≡ Ok (private_of (G.state gpu.new) self.new (is_here here))) }
        ensures keeps { OnOk result (MayLoad (is_here here) (G.state gpu.old) (G.state gpu.new) self.old self.new) }
        ensures refuses { IfErr result (Refuses (is_here here) (G.state gpu.old) (G.state gpu.new) self.old self.new (fetched_into (private_of (G.state gpu.old) self.old (is_here here)) engine.0 image.now)) }
        ensures unsubmitted { OnErr result (KeepsEngines (G.state gpu.old) (G.state gpu.new)) }
        ensures ready { OnOk result (LoadsOn engine.0 (G.state gpu.old) (G.state gpu.new)) }
    {
        let program = match fetch(alloc, &self.gtt, gpu, engine, image) {
            Ok(program) => program,
            Err(refusal) => return Err(refusal),
        };
        match self.put_to_work(alloc, gpu, here, engine, image, &program) {
            Ok(()) => Ok(()),
            Err(stop) => Err(Refusal::Stopped(stop)),
        }
    }

    // Loads the element of a descriptor, or tells why it isn't loaded.
    fn bring_in<G: Gpu>(
        &mut self,
        alloc: Global,
        gpu: &mut G,
        here: [bool; 4],
        engine: EngineId,
        descriptor: u64,
    ) -> Result<(), Refusal>
        requires holds { Holds (G.state gpu.old) self.old (is_here here) }
        requires room { HasRoomToLoad (G.state gpu.old) self.old }
        requires engine { engine.0 < 4 }
        requires own { is_here here engine.0 ≡ true }
        requires none { (engine_at self.old engine.0).element ≡ None }
        requires list { 0 < length (ports_at self.old.mmio engine.0).slots.running }
        requires awake { self.old.failsafe ≡ false }
        ensures device { OnOk result (loaded (private_of (G.state gpu.old) self.old (is_here here)) engine.0 descriptor ≡ Ok (private_of (G.state gpu.new) self.new (is_here here))) }
        ensures keeps { OnOk result (MayLoad (is_here here) (G.state gpu.old) (G.state gpu.new) self.old self.new) }
        ensures refuses { IfErr result (Refuses (is_here here) (G.state gpu.old) (G.state gpu.new) self.old self.new (loaded (private_of (G.state gpu.old) self.old (is_here here)) engine.0 descriptor)) }
        ensures unsubmitted { OnErr result (KeepsEngines (G.state gpu.old) (G.state gpu.new)) }
        ensures ready { OnOk result (LoadsOn engine.0 (G.state gpu.old) (G.state gpu.new)) }
    {
        let image = match image(&self.gtt, gpu, Descriptor::of(descriptor)) {
            Ok(image) => image,
            Err(reason) => return Err(Refusal::Fails(reason)),
        };
        match self.announce(gpu, here, image.root) {
            Ok(()) => self.fetch_into(alloc, gpu, here, engine, &image),
            Err(refusal) => Err(refusal),
        }
    }

    /// Loads the front element of an engine's running list, on an engine that the guest owns and that has no element at
    /// work. All memory is taken before the context is submitted, the first journal entry's too. The outcome is
    /// `Loaded`, and every other engine is as it was, or `Failed`, and the guest is then in failsafe. After want of memory
    /// no engine's state changed.
    pub fn load<G: Gpu>(
        &mut self,
        alloc: Global,
        gpu: &mut G,
        here: [bool; 4],
        engine: EngineId,
    ) -> Result<Turned, Stop>
        requires holds { Holds (G.state gpu.old) self.old (is_here here) }
        requires room { HasRoomToLoad (G.state gpu.old) self.old }
        requires engine { engine.0 < 4 }
        requires own { is_here here engine.0 ≡ true }
        requires none { (engine_at self.old engine.0).element ≡ None }
        requires list { 0 < length (ports_at self.old.mmio engine.0).slots.running }
        requires awake { self.old.failsafe ≡ false }
        ensures turns { IfOk result (λ t. Turns (is_here here) (G.state gpu.old) (G.state gpu.new) self.old self.new (turned (private_of (G.state gpu.old) self.old (is_here here)) engine.0) t.outcome t.notice) }
        ensures stops { IfErr result (λ stop. Stops (is_here here) (G.state gpu.old) (G.state gpu.new) self.old stop) }
        ensures unsubmitted { IsErrOf result Stop.OutOfMemory → KeepsEngines (G.state gpu.old) (G.state gpu.new) }
        ensures ready { IfOk result (λ t. t.outcome ≡ Outcome.Loaded → LoadsOn engine.0 (G.state gpu.old) (G.state gpu.new)) }
    {
        let Some(descriptor) = self.mmio.current(engine) else {
            unreachable!();
        };
        match self.bring_in(alloc, gpu, here, engine, descriptor) {
            Ok(()) => Ok(Turned {
                outcome: Outcome::Loaded,
                notice: Notice::none(),
            }),
            Err(Refusal::Fails(reason)) => match self.fail(gpu, here, reason) {
                Ok(notice) => Ok(Turned {
                    outcome: Outcome::Failed,
                    notice,
                }),
                Err(GpuFailed) => Err(Stop::DeviceFault),
            },
            Err(Refusal::Stopped(stop)) => Err(stop),
        }
    }
}
