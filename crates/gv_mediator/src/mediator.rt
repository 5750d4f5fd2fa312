ghost use Rattle.std.specs.Prelude.{◌≡◌, ◌%◌, ◌<◌, length};
ghost use Rattle.gv_types.specs.Memory.{memory_read};
ghost use Rattle.gv_machine.specs.Machine.{device_at};

use gv_gpu::Gpu;
use gv_sched::Rota;
use gv_types::{EngineId, GuestId, Width};
use gv_vgpu::Vgpu;

/// All guests' devices, and who owns each engine. Clauses see the machine that it stands for (`machine_of`), and that it
/// stands in the shared device (`Tied`).
#[derive(Drop)]
pub struct Mediator {
    pub(crate) guests: Vec<Vgpu>,
    pub(crate) rota: Rota,
    pub(crate) stopped: bool,
}

impl Mediator {
    ghost use Rattle.gv_vgpu.specs.Owners.{is_here};
    ghost use Rattle.gv_mediator.specs.Rota.{owners_in, owns};
    ghost use Rattle.gv_mediator.specs.Tied.{Tied, machine_of};

    // The engines that a guest owns.
    pub(crate) fn owned_by(&self, guest: GuestId) -> [bool; 4]
        ensures { is_here result ≡ owns (owners_in self.now.rota) guest.0 }
    {
        [
            self.rota.owner(EngineId::RCS).0 == guest.0,
            self.rota.owner(EngineId::BCS).0 == guest.0,
            self.rota.owner(EngineId::VCS).0 == guest.0,
            self.rota.owner(EngineId::VECS).0 == guest.0,
        ]
    }

    /// Whether it was stopped.
    pub fn stopped(&self) -> bool
        ensures { result ≡ self.now.stopped }
    {
        self.stopped
    }

    /// How many frames a guest has.
    pub fn frames<G: Gpu>(&self, _gpu: &G, guest: GuestId) -> u32
        requires tied { Tied (G.state _gpu.now) self.now }
        requires there { guest.0 < length (machine_of (G.state _gpu.now) self.now).devices }
        ensures { result ≡ length (device_at (machine_of (G.state _gpu.now) self.now).devices guest.0).memory }
    {
        self.guests[guest.0 as usize].frames()
    }

    /// A word of a guest's memory, at a byte address that is a multiple of 8.
    pub fn memory_word<G: Gpu>(&self, gpu: &G, guest: GuestId, at: u64) -> u64
        requires tied { Tied (G.state gpu.now) self.now }
        requires there { guest.0 < length (machine_of (G.state gpu.now) self.now).devices }
        requires aligned { at % 8 ≡ 0 }
        ensures { result ≡ memory_read (device_at (machine_of (G.state gpu.now) self.now).devices guest.0).memory Width.Eight at }
    {
        let here = self.owned_by(guest);
        self.guests[guest.0 as usize].word(gpu, here, at)
    }
}
