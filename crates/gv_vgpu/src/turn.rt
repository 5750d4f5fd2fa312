ghost use Rattle.std.specs.Prelude.{◌≡◌, ◌≢◌, ℕ, ◌<◌, Bool, true, false, IfOk, IfErr, IsErrOf, IsSome, OnErr, length, slice_index};
ghost use Rattle.gv_csb.specs.Status.{in_order};
ghost use Rattle.gv_element.specs.Works.{KeepsEngines};
ghost use Rattle.gv_gpu.specs.Device.{Device};
ghost use Rattle.gv_mmio.specs.Mmio.{ports_at};
ghost use Rattle.gv_private.specs.Status.{command_raised, events_given};
ghost use Rattle.gv_private.specs.Turn.{turned};
ghost use Rattle.gv_vgpu.specs.Changes.{Keeps, Makes, Stops, Turns, injected};
ghost use Rattle.gv_vgpu.specs.Loading.{LoadsOn};
ghost use Rattle.gv_vgpu.specs.Vgpu.{engine_at, private_of};
ghost use Rattle.gv_vgpu.specs.Owners.{is_here};
ghost use Rattle.gv_vgpu.specs.Standing.{HasRoomToLoad, Holds};
ghost use Rattle.gv_vgpu.specs.Turn.{Completes, EndOf, HasEnded, HasSmallDwords, Made, StepsOnce, Unmade, front_tail_written, raised_where};

use crate::Vgpu;
use crate::notice::{Notice, Turned};
use crate::stop::or_stop;
use gv_cmd::Command;
use gv_csb::Events;
use gv_ctx::Descriptor;
use gv_gpu::{Gpu, Step};
use gv_types::{EngineId, Outcome, PAGE_BYTES, Reason, Stop};
use std::alloc::Global;

// The interrupt bits of an engine that a command can raise.
const USER_INTERRUPT: u8 = 0;

const NOTIFY: u8 = 4;

// The second dword of a command, or 0.
fn second_dword(command: &Command) -> u32
    ensures { result ≡ slice_index command.now 1 }
{
    command.words().get(1).copied().unwrap_or(0)
}

// The dwords of a command are of 32 bits. The function does nothing: its clause says so.
fn dwords_are_small(step: &Step)
    ensures { HasSmallDwords step.now }
{
    if let Step::Ran { command, .. } = step {
        second_dword(command);
    }
}

// Makes one step of an engine, with room for it in the journal.
fn one_step<G: Gpu>(gpu: &mut G, engine: EngineId) -> Result<Step, Stop>
    requires { engine.0 < 4 }
    ensures made { IfOk result (λ answer. Made (G.state gpu.old) (G.state gpu.new) engine.0 answer) }
    ensures small { IfOk result HasSmallDwords }
    ensures stops { IfErr result (λ stop. Unmade (G.state gpu.old) (G.state gpu.new) stop) }
    ensures spare { IsErrOf result Stop.OutOfMemory → (G.state gpu.old).spare ≡ 0 }
    ensures unmade { IsErrOf result Stop.OutOfMemory → G.state gpu.new ≡ G.state gpu.old }
{
    match gpu.reserve(1) {
        Ok(()) => {
            let step = or_stop(gpu.step(engine))?;
            dwords_are_small(&step);
            Ok(step)
        }
        Err(_) => Err(Stop::OutOfMemory),
    }
}

impl Vgpu {
    // Gives the status events of a completion.
    fn give_events<G: Gpu>(
        &mut self,
        gpu: &mut G,
        here: [bool; 4],
        engine: EngineId,
        events: Events,
    ) -> Option<u32>
        requires holds { Holds (G.state gpu.old) self.old (is_here here) }
        requires engine { engine.0 < 4 }
        requires awake { self.old.failsafe ≡ false }
        ensures given { Makes (is_here here) (G.state gpu.old) (G.state gpu.new) self.old self.new (events_given (private_of (G.state gpu.old) self.old (is_here here)) engine.0 (in_order events)) (injected result) }
        ensures engines { KeepsEngines (G.state gpu.old) (G.state gpu.new) }
    {
        let first = self.give_event(gpu, here, engine, events.first);
        match events.second {
            Some(second) => {
                let second = self.give_event(gpu, here, engine, second);
                first.or(second)
            }
            None => first,
        }
    }

    // Takes away an element whose context the engine took off, and answers the tail that its image had.
    fn take_ended<G: Gpu>(&mut self, gpu: &mut G, here: [bool; 4], engine: EngineId) -> u32
        requires ended { HasEnded (G.state gpu.old) self.old (is_here here) engine.0 }
        requires engine { engine.0 < 4 }
        ensures ends { (ended : HasEnded (G.state gpu.old) self.old (is_here here) engine.0) → EndOf (is_here here) engine.0 ended.before (G.state gpu.new) self.old self.new ended.element result }
        ensures engines { KeepsEngines (G.state gpu.old) (G.state gpu.new) }
    {
        match self.engines[engine.0 as usize].element.take() {
            Some(element) => {
                let tail = element.tail();
                element.release(gpu);
                tail
            }
            None => unreachable!(),
        }
    }

    // Writes the tail of the front element's context to its image, through the global table.
    fn write_tail<G: Gpu>(&self, gpu: &mut G, here: [bool; 4], engine: EngineId, tail: u32)
        requires holds { Holds (G.state gpu.old) self.now (is_here here) }
        requires engine { engine.0 < 4 }
        requires list { 0 < length (ports_at self.now.mmio engine.0).slots.running }
        ensures device { private_of (G.state gpu.new) self.now (is_here here) ≡ front_tail_written (private_of (G.state gpu.old) self.now (is_here here)) engine.0 tail }
        ensures keeps { Keeps (is_here here) (G.state gpu.old) (G.state gpu.new) self.now self.now }
        ensures engines { KeepsEngines (G.state gpu.old) (G.state gpu.new) }
    {
        if let Some(descriptor) = self.mmio.current(engine) {
            let image = u64::from(Descriptor::of(descriptor).page) + 1;
            if image < 0x10_0000 {
                self.write_global(gpu, here, image * PAGE_BYTES + 4 * 0x05, tail);
            }
        }
    }

    /// Finishes an element whose context the engine took off: the tail that its image had at the load is written to the
    /// image, the element is gone from its list, and status events follow. No engine's state changes. It can't fail. Where
    /// an interrupt is injected, it answers IIR of its group.
    pub fn finish<G: Gpu>(&mut self, gpu: &mut G, here: [bool; 4], engine: EngineId) -> Option<u32>
        requires ended { HasEnded (G.state gpu.old) self.old (is_here here) engine.0 }
        requires engine { engine.0 < 4 }
        ensures completes { (ended : HasEnded (G.state gpu.old) self.old (is_here here) engine.0)
            → Completes (is_here here) engine.0 ended.before (G.state gpu.new) self.old self.new ended.element (injected result) }
        ensures engines { KeepsEngines (G.state gpu.old) (G.state gpu.new) }
    {
        let tail = self.take_ended(gpu, here, engine);
        self.write_tail(gpu, here, engine, tail);
        let events = self.mmio.complete(engine);
        self.give_events(gpu, here, engine, events)
    }

    // Raises a bit of an engine's sixteen, where that is asked. Where an interrupt is injected, it answers IIR of its
    // group.
    fn raise_where(&mut self, engine: EngineId, asked: bool, bit: u8) -> Option<u32>
        requires engine { engine.0 < 4 }
        requires bit { bit < 16 }
        ensures { (d : Device) (here : ℕ → Bool) → Holds d self.old here → Makes here d d self.old self.new (raised_where asked (private_of d self.old here) engine.0 bit) (injected result) }
    {
        if asked { self.raise(engine, bit) } else { None }
    }

    /// Raises the interrupt bits of an engine that a command raised, which ran there. Where an interrupt is injected, it
    /// answers IIR of its group.
    pub fn ran(&mut self, engine: EngineId, raise: u16) -> Option<u32>
        requires engine { engine.0 < 4 }
        requires awake { self.old.failsafe ≡ false }
        ensures { (d : Device) (here : ℕ → Bool) → Holds d self.old here
            → Makes here d d self.old self.new (command_raised (private_of d self.old here) engine.0 raise) (injected result) }
    {
        let user = self.raise_where(engine, raise % 2 == 1, USER_INTERRUPT);
        let notify = self.raise_where(engine, raise / 16 % 2 == 1, NOTIFY);
        user.or(notify)
    }

    // One step of an engine on which an element of the guest's is at work, and what follows of it.
    fn step<G: Gpu>(
        &mut self,
        gpu: &mut G,
        here: [bool; 4],
        engine: EngineId,
    ) -> Result<Turned, Stop>
        requires holds { Holds (G.state gpu.old) self.old (is_here here) }
        requires engine { engine.0 < 4 }
        requires own { is_here here engine.0 ≡ true }
        requires work { IsSome (engine_at self.old engine.0).element }
        ensures turns { IfOk result (λ t. Turns (is_here here) (G.state gpu.old) (G.state gpu.new) self.old self.new (turned (private_of (G.state gpu.old) self.old (is_here here)) engine.0) t.outcome t.notice) }
        ensures stops { IfErr result (λ stop. Stops (is_here here) (G.state gpu.old) (G.state gpu.new) self.old stop) }
        ensures once { IfOk result (λ t. StepsOnce (is_here here) (G.state gpu.old) (G.state gpu.new) self.old self.new engine.0 t.outcome) }
        ensures spare { IsErrOf result Stop.OutOfMemory → (G.state gpu.old).spare ≡ 0 }
        ensures unmade { IsErrOf result Stop.OutOfMemory → G.state gpu.new ≡ G.state gpu.old }
    {
        match one_step(gpu, engine) {
            Ok(Step::Ran { raise, .. }) => Ok(Turned {
                outcome: Outcome::Ran,
                notice: Notice::injected(self.ran(engine, raise)),
            }),
            Ok(Step::Waits) => Ok(Turned {
                outcome: Outcome::Waited,
                notice: Notice::none(),
            }),
            Ok(Step::Ended) => Ok(Turned {
                outcome: Outcome::Ended,
                notice: Notice::injected(self.finish(gpu, here, engine)),
            }),
            Ok(Step::Unlisted) => match or_stop(self.fail(gpu, here, Reason::Command)) {
                Ok(notice) => Ok(Turned {
                    outcome: Outcome::Failed,
                    notice,
                }),
                Err(stop) => Err(stop),
            },
            Ok(Step::Idle) => unreachable!(),
            Err(stop) => Err(stop),
        }
    }

    /// A turn of an engine that the guest owns. An element at work makes one step; else the next is loaded. A turn that is
    /// idle doesn't fail, and a step takes no memory where the journal has room for an entry, as it has behind a load.
    /// After want of memory no context was loaded or taken off, and no general register written; with an element at work
    /// the device is as before.
    pub fn turn<G: Gpu>(
        &mut self,
        alloc: Global,
        gpu: &mut G,
        here: [bool; 4],
        engine: EngineId,
    ) -> Result<Turned, Stop>
        requires holds { Holds (G.state gpu.old) self.old (is_here here) }
        requires room { HasRoomToLoad (G.state gpu.old) self.old }
        requires engine { engine.0 < 4 }
        requires own { is_here here engine.0 ≡ true }
        ensures turns { IfOk result (λ t. Turns (is_here here) (G.state gpu.old) (G.state gpu.new) self.old self.new (turned (private_of (G.state gpu.old) self.old (is_here here)) engine.0) t.outcome t.notice) }
        ensures stops { IfErr result (λ stop. Stops (is_here here) (G.state gpu.old) (G.state gpu.new) self.old stop) }
        ensures once { IfOk result (λ t. StepsOnce (is_here here) (G.state gpu.old) (G.state gpu.new) self.old self.new engine.0 t.outcome) }
        ensures busy { OnErr result ((turned (private_of (G.state gpu.old) self.old (is_here here)) engine.0).outcome ≢ Outcome.Idle) }
        ensures spare { IsErrOf result Stop.OutOfMemory → IsSome (engine_at self.old engine.0).element → (G.state gpu.old).spare ≡ 0 }
        ensures unmade { IsErrOf result Stop.OutOfMemory → IsSome (engine_at self.old engine.0).element → G.state gpu.new ≡ G.state gpu.old }
        ensures unsubmitted { IsErrOf result Stop.OutOfMemory → KeepsEngines (G.state gpu.old) (G.state gpu.new) }
        ensures ready { IfOk result (λ t. t.outcome ≡ Outcome.Loaded → LoadsOn engine.0 (G.state gpu.old) (G.state gpu.new)) }
    {
        if self.failsafe {
            return Ok(Turned {
                outcome: Outcome::Idle,
                notice: Notice::none(),
            });
        }
        if self.engines[engine.0 as usize].element.is_some() {
            return self.step(gpu, here, engine);
        }
        if self.mmio.current(engine).is_none() {
            return Ok(Turned {
                outcome: Outcome::Idle,
                notice: Notice::none(),
            });
        }
        self.load(alloc, gpu, here, engine)
    }
}
