ghost use Rattle.std.specs.Prelude.{◌≡◌, ◌≢◌, ℕ, ◌<◌, ◌≤◌, [], false, length, take, Option, IfOk, OnOk, OnErr};
ghost use Rattle.gv_gpu.specs.Change.{Ran};
ghost use Rattle.gv_gpu.specs.Device.{Device, counted};
ghost use Rattle.gv_machine.specs.Machine.{owner_after, owner_told, switch_course, work_on};
ghost use Rattle.gv_sched.specs.Rota.{owner_of};
ghost use Rattle.gv_vgpu.specs.Exchange.{owning};
ghost use Rattle.gv_vgpu.specs.Owners.{is_here};
ghost use Rattle.gv_mediator.specs.Tables.{AllCopiesStay};
ghost use Rattle.gv_mediator.specs.Tied.{Tied, devices_in, machine_of};

use crate::mediator::Mediator;
use gv_gpu::{Gpu, GpuFailed};
use gv_types::{Answer, EngineId, GuestId, Reply};
use gv_vgpu::Vgpu;

// Which guests have work on an engine: the first ones of eight.
fn works_on(guests: &[Vgpu], engine: EngineId) -> [bool; 8]
    requires engine { engine.0 < 4 }
    requires few { length guests.now ≤ 8 }
    ensures { (d : Device) (owners : ℕ → Option ℕ) → take (length guests.now) result ≡ work_on engine.0 (devices_in d owners guests.now) }
{
    let mut works = [false; 8];
    for (number, guest) in guests.iter().enumerate() {
        works[number] = guest.has_work(engine);
    }
    works
}

// These engines but one.
fn without(here: [bool; 4], engine: EngineId) -> [bool; 4]
    requires { engine.0 < 4 }
    ensures { is_here result ≡ owning (is_here here) engine.0 false }
{
    let mut others = here;
    others[engine.0 as usize] = false;
    others
}

// A switch is told to the new owner.
fn owner_reply(owner: GuestId) -> Reply
    ensures { result ≡ (owner_told owner.0).reply }
{
    Reply {
        guest: owner,
        answer: Answer::Owner,
        irq: None,
        failsafe: None,
    }
}

impl Mediator {
    // A switch of an engine: where another guest gets it, what the owner has of it is put away, and what the other guest
    // has is brought.
    pub(crate) fn switch<G: Gpu>(
        &mut self,
        gpu: &mut G,
        engine: EngineId,
    ) -> Result<Reply, GpuFailed>
        requires tied { Tied (G.state gpu.old) self.old }
        requires engine { engine.0 < 4 }
        ensures reply { IfOk result (λ reply. reply ≡ (owner_told (owner_after (machine_of (G.state gpu.old) self.old) engine.0)).reply) }
        ensures machine { OnOk result (machine_of (G.state gpu.new) self.new ≡ (switch_course (machine_of (G.state gpu.old) self.old) engine).left) }
        ensures tied { OnOk result (Tied (G.state gpu.new) self.new) }
        ensures ran { Ran (G.state gpu.old) (G.state gpu.new) [] }
        ensures quiet { OnOk result ((G.state gpu.new).faults ≡ (G.state gpu.old).faults) }
        ensures cause { OnErr result (counted (G.state gpu.old).faults ≤ (G.state gpu.new).faults) }
        ensures stays { owner_after (machine_of (G.state gpu.old) self.old) engine.0 ≡ owner_of self.old.rota engine.0 → G.state gpu.new ≡ G.state gpu.old }
        ensures copies { OnOk result (AllCopiesStay (G.state gpu.old) (G.state gpu.new) self.old self.new) }
        ensures changes { OnErr result (owner_after (machine_of (G.state gpu.old) self.old) engine.0 ≢ owner_of self.old.rota engine.0) }
    {
        let works = works_on(&self.guests, engine);
        let owner = self.rota.owner(engine);
        let here = self.owned_by(owner);
        let next = self.rota.switch(engine, &works[..self.guests.len()]);
        if next.0 == owner.0 {
            return Ok(owner_reply(owner));
        }
        let there = without(self.owned_by(next), engine);
        self.guests[owner.0 as usize].put_away(gpu, here, engine)?;
        self.guests[next.0 as usize].bring(gpu, there, engine)?;
        Ok(owner_reply(next))
    }
}
