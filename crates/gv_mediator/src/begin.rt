ghost use Rattle.std.specs.Prelude.{◌≡◌, ℕ, ◌+◌, ◌<◌, ◌≤◌, ◌++◌, ◌∷◌, [], true, false, length, IfOk, OnOk};
ghost use Rattle.gv_balloon.specs.Shares.{fits, given_after, next_ranges};
ghost use Rattle.gv_balloon.specs.declared.given.Given.{Given as GivenOut};
ghost use Rattle.gv_gpu.specs.Change.{Ran};
ghost use Rattle.gv_gpu.specs.Device.{IsEmpty};
ghost use Rattle.gv_private.specs.Device.{new_device};
ghost use Rattle.gv_mediator.specs.First.{MayBegin, first_machine};
ghost use Rattle.gv_mediator.specs.Joining.{Joined, first_owner};
ghost use Rattle.gv_mediator.specs.Tied.{Tied, devices_in, machine_of};

use crate::guest::Guest;
use crate::mediator::Mediator;
use gv_balloon::Given;
use gv_gpu::Gpu;
use gv_sched::Rota;
use gv_types::{GuestId, OutOfMemory};
use gv_vgpu::Vgpu;
use std::alloc::Global;

// A guest joins: its device is made, with the next ranges of the global table.
fn join<G: Gpu>(
    alloc: Global,
    gpu: &mut G,
    devices: &mut Vec<Vgpu>,
    given: &mut Given,
    guest: &Guest,
) -> Result<(), OutOfMemory>
    requires joined { Joined (G.state gpu.old) devices.old.items given.old }
    requires few { length devices.old.items < 8 }
    requires some { 1 ≤ guest.now.frames }
    requires memory { (G.state gpu.old).live + guest.now.frames ≤ 16384 }
    requires fit { fits given.old guest.now.want ≡ true }
    ensures joined { OnOk result (Joined (G.state gpu.new) devices.new.items given.new) }
    ensures given { OnOk result (given.new ≡ given_after given.old guest.now.want) }
    ensures devices { OnOk result (devices_in (G.state gpu.new) first_owner devices.new.items
        ≡ devices_in (G.state gpu.old) first_owner devices.old.items ++ new_device (length devices.old.items) guest.now.frames (next_ranges given.old guest.now.want) ∷ []) }
    ensures count { OnOk result (length devices.new.items ≡ length devices.old.items + 1) }
    ensures live { OnOk result ((G.state gpu.new).live ≡ (G.state gpu.old).live + guest.now.frames) }
    ensures ran { Ran (G.state gpu.old) (G.state gpu.new) [] }
    ensures quiet { (G.state gpu.new).faults ≡ (G.state gpu.old).faults }
{
    devices.reserve(1)?;
    let number = GuestId(devices.len() as u8);
    let ranges = given.next(&guest.want);
    let device = Vgpu::new(alloc, gpu, number, guest.frames, ranges)?;
    devices.push(device).unwrap();
    *given = given.after(&guest.want);
    Ok(())
}

// All guests join, one after another.
fn join_all<G: Gpu>(alloc: Global, gpu: &mut G, guests: &[Guest]) -> Result<Vec<Vgpu>, OutOfMemory>
    requires begin { MayBegin guests.now }
    requires empty { IsEmpty (G.state gpu.old) }
    ensures joined { IfOk result (λ devices. (given : GivenOut) × Joined (G.state gpu.new) devices.items given) }
    ensures machine { IfOk result (λ devices. record { devices = devices_in (G.state gpu.new) first_owner devices.items; owners = λ engine. 0 } ≡ first_machine guests.now) }
    ensures count { IfOk result (λ devices. length devices.items ≡ length guests.now) }
    ensures few { OnOk result ((G.state gpu.new).live ≤ 16384) }
    ensures ran { Ran (G.state gpu.old) (G.state gpu.new) [] }
    ensures quiet { (G.state gpu.new).faults ≡ (G.state gpu.old).faults }
{
    let mut devices = Vec::new(alloc);
    let mut given = Given::NOTHING;
    for guest in guests {
        join(alloc, gpu, &mut devices, &mut given, guest)?;
    }
    Ok(devices)
}

impl Mediator {
    /// The devices of these guests, over an empty device. Guest 0 owns every engine.
    pub fn new<G: Gpu>(
        alloc: Global,
        gpu: &mut G,
        guests: &[Guest],
    ) -> Result<Mediator, OutOfMemory>
        requires begin { MayBegin guests.now }
        requires empty { IsEmpty (G.state gpu.old) }
        ensures machine { IfOk result (λ m. machine_of (G.state gpu.new) m ≡ first_machine guests.now) }
        ensures tied { IfOk result (λ m. Tied (G.state gpu.new) m) }
        ensures running { IfOk result (λ m. m.stopped ≡ false) }
        ensures ran { Ran (G.state gpu.old) (G.state gpu.new) [] }
        ensures quiet { (G.state gpu.new).faults ≡ (G.state gpu.old).faults }
    {
        let devices = join_all(alloc, gpu, guests)?;
        Ok(Mediator {
            guests: devices,
            rota: Rota::new(guests.len() as u8),
            stopped: false,
        })
    }
}
