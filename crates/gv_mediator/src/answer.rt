ghost use Rattle.std.specs.Prelude.{◌≡◌, ◌<◌, length, false, Some, is_err, IfOk, IfErr};
ghost use Rattle.gv_gtt.specs.Gtt.{frames_of, number_of};
ghost use Rattle.gv_machine.specs.Machine.{Machine, event_receiver, guest_in};
ghost use Rattle.gv_sched.specs.Rota.{owner_of};
ghost use Rattle.gv_vgpu.specs.Owners.{is_here};
ghost use Rattle.gv_vgpu.specs.Standing.{HasRoomToLoad, Holds};
ghost use Rattle.gv_mediator.specs.Answers.{Answers, StopsBy, DeviceAnswers, DeviceStopsBy};
ghost use Rattle.gv_mediator.specs.Event.{GoesToDevice, IsEvent, IsGuestEvent};
ghost use Rattle.gv_mediator.specs.Listed.{KeepsOwner};
ghost use Rattle.gv_mediator.specs.Tied.{Tied, machine_of};

use crate::mediator::Mediator;
use gv_gpu::{Gpu, GpuFailed};
use gv_types::{Answer, Event, GuestId, Reply, Stop};
use gv_vgpu::Vgpu;
use std::alloc::Global;

// One event of a guest, over its device.
fn answer<G: Gpu>(
    alloc: Global,
    gpu: &mut G,
    device: &mut Vgpu,
    guest: GuestId,
    here: [bool; 4],
    event: &Event,
) -> Result<Reply, Stop>
    requires holds { Holds (G.state gpu.old) device.old (is_here here) }
    requires number { guest.0 ≡ number_of device.old.gtt }
    requires room { HasRoomToLoad (G.state gpu.old) device.old }
    requires below { (G.state gpu.old).live < 131072 }
    requires event { IsGuestEvent (number_of device.old.gtt) (length (frames_of device.old.gtt).pages) (is_here here) event.now }
    ensures answers { IfOk result (λ reply. DeviceAnswers (is_here here) (G.state gpu.old) (G.state gpu.new) device.old device.new event.now reply) }
    ensures stops { IfErr result (λ stop. DeviceStopsBy (is_here here) (G.state gpu.old) (G.state gpu.new) device.old event.now stop) }
{
    match event {
        Event::Turn { engine } => {
            let turned = device.turn(alloc, gpu, here, *engine)?;
            Ok(turned.notice.reply(guest, Answer::Turn(turned.outcome)))
        }
        Event::Reset { guest } => match device.reset(gpu, here) {
            Ok(()) => Ok(Reply {
                guest: *guest,
                answer: Answer::Nothing,
                irq: None,
                failsafe: None,
            }),
            Err(_) => Err(Stop::DeviceFault),
        },
        _ => device.access(gpu, here, event),
    }
}

impl Mediator {
    // The guest whose device takes an event: the one that it names, or the owner of its engine.
    fn receiver(&self, event: &Event) -> GuestId
        requires event { (m : Machine) × IsEvent m event.now }
        requires device { GoesToDevice event.now }
        ensures { guest_in (event_receiver (owner_of self.now.rota) event.now) ≡ Some result.0 }
    {
        match event {
            Event::Read { guest, .. } => *guest,
            Event::Write { guest, .. } => *guest,
            Event::Move { guest, .. } => *guest,
            Event::Reset { guest } => *guest,
            Event::Turn { engine } => self.rota.owner(*engine),
            Event::Switch { .. } => unreachable!(),
        }
    }

    // An event that a guest's device takes.
    fn guest_event<G: Gpu>(
        &mut self,
        alloc: Global,
        gpu: &mut G,
        event: &Event,
    ) -> Result<Reply, Stop>
        requires tied { Tied (G.state gpu.old) self.old }
        requires event { IsEvent (machine_of (G.state gpu.old) self.old) event.now }
        requires device { GoesToDevice event.now }
        ensures answers { IfOk result (λ reply. Answers (G.state gpu.old) (G.state gpu.new) self.old self.new event.now reply) }
        ensures stops { IfErr result (λ stop. StopsBy (G.state gpu.old) (G.state gpu.new) self.old event.now stop) }
    {
        let guest = self.receiver(event);
        let here = self.owned_by(guest);
        let device = &mut self.guests[guest.0 as usize];
        answer(alloc, gpu, device, guest, here, event)
    }

    // Does an event, where it goes.
    fn received<G: Gpu>(&mut self, alloc: Global, gpu: &mut G, event: &Event) -> Result<Reply, Stop>
        requires tied { Tied (G.state gpu.old) self.old }
        requires event { IsEvent (machine_of (G.state gpu.old) self.old) event.now }
        ensures answers { IfOk result (λ reply. Answers (G.state gpu.old) (G.state gpu.new) self.old self.new event.now reply) }
        ensures stops { IfErr result (λ stop. StopsBy (G.state gpu.old) (G.state gpu.new) self.old event.now stop) }
        ensures stays { KeepsOwner (machine_of (G.state gpu.old) self.old) event.now → G.state gpu.new ≡ G.state gpu.old }
    {
        match event {
            Event::Switch { engine } => match self.switch(gpu, *engine) {
                Ok(reply) => Ok(reply),
                Err(GpuFailed) => Err(Stop::DeviceFault),
            },
            _ => self.guest_event(alloc, gpu, event),
        }
    }

    /// One event: the reply is that of the machine, which is as after the event then (`Answers`). After a `Stop`, which
    /// leaves what `StopsBy` says, no further event is taken. `DeviceFault` comes only at a turn that isn't idle, at a
    /// reset, at an access at which the guest's device may fault, and at a switch by which the owner changes;
    /// `OutOfMemory` only at a turn that isn't idle, at a move that isn't kept, and at a write of a live table or of
    /// notify, and where no fault was counted; no engine's state changed then. A reply passes over no fault of the device.
    pub fn event<G: Gpu>(
        &mut self,
        alloc: Global,
        gpu: &mut G,
        event: &Event,
    ) -> Result<Reply, Stop>
        requires tied { Tied (G.state gpu.old) self.old }
        requires running { self.old.stopped ≡ false }
        requires event { IsEvent (machine_of (G.state gpu.old) self.old) event.now }
        ensures answers { IfOk result (λ reply. Answers (G.state gpu.old) (G.state gpu.new) self.old self.new event.now reply) }
        ensures stops { IfErr result (λ stop. StopsBy (G.state gpu.old) (G.state gpu.new) self.old event.now stop) }
        ensures stopped { self.new.stopped ≡ is_err result }
        ensures stays { KeepsOwner (machine_of (G.state gpu.old) self.old) event.now → G.state gpu.new ≡ G.state gpu.old }
    {
        let answer = self.received(alloc, gpu, event);
        self.stopped = answer.is_err();
        answer
    }
}
