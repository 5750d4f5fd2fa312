ghost use Rattle.std.specs.Prelude.{◌≡◌, IsTrue};
ghost use Rattle.gv_irq.specs.Irq.{register_at, is_interrupt_register};

use crate::group::GroupId;

/// The register of the bits that are deliverable, and of bit 31 that lets them be delivered.
const MASTER: u32 = 0x4_4200;

/// Where the groups' registers begin: 16 bytes for each number of a group.
const GROUPS: u32 = 0x4_4300;

/// A register by its meaning: master, or one of the four of a group. ISR is the same in each group: it reads
/// 0 and isn't written.
#[derive(Clone, Copy, Debug, PartialEq, Eq)]
pub enum Register {
    Master,
    Isr,
    Imr(GroupId),
    Iir(GroupId),
    Ier(GroupId),
}

/// The register at an offset in bytes.
pub fn register_at(offset: u32) -> Register
    requires { IsTrue (is_interrupt_register offset) }
    ensures { result ≡ register_at offset }
{
    if offset == MASTER {
        return Register::Master;
    }
    let id = GroupId::of((offset - GROUPS) / 0x10);
    match offset % 0x10 {
        0 => Register::Isr,
        4 => Register::Imr(id),
        8 => Register::Iir(id),
        _ => Register::Ier(id),
    }
}
