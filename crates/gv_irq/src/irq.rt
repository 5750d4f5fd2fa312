ghost use Rattle.std.specs.Prelude.{◌≡◌, ◌≢◌, ◌+◌, ◌/◌, ◌<◌, ◌≤◌, [], ◌∷◌, map, IsTrue, if◌then◌else◌};
ghost use Rattle.gv_irq.specs.Irq.{reset_irq, raised, raising_tells, is_interrupt_register, irq_read, master_read, irq_written, writing_tells, first_deliverable, number_in, interrupt_bit, AreDwords};

use crate::group::{Group, GroupId};
use crate::register::{Register, register_at};
use gv_types::{EngineId, has_bit};
use std::marker::Model;

/// The interrupt registers of one guest: a master, and ISR, IMR, IIR and IER of each of the groups 0, 1 and
/// 3. No call takes memory.
#[derive(Drop)]
pub struct Irq {
    master: bool,
    zero: Group,
    one: Group,
    three: Group,
}

impl Model for Irq {
    ghost use Rattle.gv_irq.specs.Irq.{Interrupts, AllDwords};

    ghost Value = { Interrupts };

    ghost use Rattle.gv_irq.specs.Fields.{interrupts_of};

    ghost view = { interrupts_of };

    ghost invariant = { λ s. AllDwords (interrupts_of s) };
}

impl Irq {
    ghost use Rattle.gv_irq.specs.Irq.{group, with_group, written_by, read_by, is_deliverable, told_of, write_injects};
    ghost use Rattle.gv_irq.specs.Fields.{group_of};

    /// As after a reset: every bit is masked, none is pending, none may interrupt, and master's bit
    /// 31 is clear.
    pub fn new() -> Irq
        ensures { result ≡ reset_irq }
    {
        Irq {
            master: false,
            zero: Group::new(),
            one: Group::new(),
            three: Group::new(),
        }
    }

    /// Registers that hold these: bit 31 of master, and IMR, IIR and IER of the groups 0, 1 and 3.
    pub fn of(master: bool, zero: Group, one: Group, three: Group) -> Irq
        ensures { result ≡ record { master = master; zero = group_of zero; one = group_of one; three = group_of three } }
    {
        Irq {
            master,
            zero,
            one,
            three,
        }
    }

    /// Master's bit 31.
    pub fn is_enabled(&self) -> bool
        ensures { result ≡ self.now.master }
    {
        self.master
    }

    /// What the groups 0, 1 and 3 hold, in this order.
    pub fn groups(&self) -> [Group; 3]
        ensures { map group_of result ≡ self.now.zero ∷ self.now.one ∷ self.now.three ∷ [] }
    {
        [self.zero, self.one, self.three]
    }

    fn group(&self, id: GroupId) -> Group
        ensures value { group_of result ≡ group self.now id }
        ensures dwords { AreDwords (group_of result) }
    {
        match id {
            GroupId::Zero => self.zero,
            GroupId::One => self.one,
            GroupId::Three => self.three,
        }
    }

    fn set_group(&mut self, id: GroupId, group: Group)
        requires { AreDwords (group_of group) }
        ensures { self.new ≡ with_group self.old id (group_of group) }
    {
        match id {
            GroupId::Zero => self.zero = group,
            GroupId::One => self.one = group,
            GroupId::Three => self.three = group,
        }
    }

    /// Raises a bit: sets it in its group's IIR, unless the group's IMR masks it. The bits are counted through
    /// the groups, 32 times the group's number on. Where an interrupt is injected it answers IIR of the
    /// group afterwards: where IMR doesn't mask the bit, it was clear before, IER has it and master's bit 31
    /// is set.
    pub fn raise(&mut self, bit: u8) -> Option<u32>
        requires below { bit < 128 }
        requires group { bit / 32 ≢ 2 }
        ensures injected { result ≡ raising_tells self.old bit }
        ensures after { self.new ≡ raised self.old bit }
    {
        let id = GroupId::of(u32::from(bit / 32));
        let mut group = self.group(id);
        let injects = group.raise(bit % 32) && self.master;
        self.set_group(id, group);
        if injects { Some(group.iir) } else { None }
    }

    /// A register. Master reads bit 31; bits 0 and 1 where group 0's `IIR & IER` has a bit of 15..0 and of
    /// 31..16; bit 2 where group 1's has a bit of 15..0; bit 6 where group 3's has one of 15..0. ISR reads 0.
    pub fn read(&self, offset: u32) -> u32
        requires { IsTrue (is_interrupt_register offset) }
        ensures { result ≡ irq_read self.now offset }
    {
        match register_at(offset) {
            Register::Master => self.master(),
            Register::Isr => 0,
            Register::Imr(id) => self.group(id).imr,
            Register::Iir(id) => self.group(id).iir,
            Register::Ier(id) => self.group(id).ier,
        }
    }

    fn master(&self) -> u32
        ensures { result ≡ master_read self.now }
    {
        let zero = self.zero.deliverable();
        let one = self.one.deliverable();
        let three = self.three.deliverable();
        bit_where(self.master, 0x8000_0000)
            + bit_where(zero & 0xffff != 0, 1)
            + bit_where(zero >> 16 != 0, 2)
            + bit_where(one & 0xffff != 0, 4)
            + bit_where(three & 0xffff != 0, 0x40)
    }

    /// Writes a register: bit 31 of master, IMR and IER as they are; a one clears that bit of IIR, and ISR
    /// isn't written. Where an interrupt is injected it answers IIR of its group afterwards. A write to a
    /// group's IER injects one of that group where it makes the group deliverable; a write to master one of
    /// the lowest deliverable group where none was deliverable before.
    pub fn write(&mut self, offset: u32, value: u32) -> Option<u32>
        requires { IsTrue (is_interrupt_register offset) }
        ensures injected { result ≡ writing_tells self.old offset value }
        ensures after { self.new ≡ irq_written self.old offset value }
    {
        match register_at(offset) {
            Register::Master => self.write_master(value),
            Register::Isr => None,
            Register::Imr(id) => {
                let mut group = self.group(id);
                group.imr = value;
                self.set_group(id, group);
                None
            }
            Register::Iir(id) => {
                let mut group = self.group(id);
                group.iir &= !value;
                self.set_group(id, group);
                None
            }
            Register::Ier(id) => self.write_ier(id, value),
        }
    }

    fn write_master(&mut self, value: u32) -> Option<u32>
        ensures injected { result ≡ told_of (write_injects Register.Master self.old self.new) self.new }
        ensures after { self.new ≡ written_by Register.Master self.old value }
    {
        let before = self.first_group();
        self.master = has_bit(value, 31);
        match (before, self.first_group()) {
            (None, Some(id)) => Some(self.group(id).iir),
            _ => None,
        }
    }

    fn write_ier(&mut self, id: GroupId, value: u32) -> Option<u32>
        ensures injected { result ≡ told_of (write_injects (Register.Ier id) self.old self.new) self.new }
        ensures after { self.new ≡ written_by (Register.Ier id) self.old value }
    {
        let before = self.is_deliverable(id);
        let mut group = self.group(id);
        group.ier = value;
        self.set_group(id, group);
        if !before && self.is_deliverable(id) {
            Some(group.iir)
        } else {
            None
        }
    }

    fn is_deliverable(&self, id: GroupId) -> bool
        ensures { result ≡ is_deliverable self.now id }
    {
        self.master && self.group(id).deliverable() != 0
    }

    // The lowest deliverable group.
    fn first_group(&self) -> Option<GroupId>
        ensures { result ≡ first_deliverable self.now }
    {
        if self.is_deliverable(GroupId::Zero) {
            Some(GroupId::Zero)
        } else if self.is_deliverable(GroupId::One) {
            Some(GroupId::One)
        } else if self.is_deliverable(GroupId::Three) {
            Some(GroupId::Three)
        } else {
            None
        }
    }

    /// The number of the lowest group that is deliverable: master's bit 31 is set and the group's `IIR & IER`
    /// isn't 0.
    pub fn first(&self) -> Option<u8>
        ensures { result ≡ number_in (first_deliverable self.now) }
    {
        match self.first_group() {
            Some(id) => Some(id.number()),
            None => None,
        }
    }

    /// As a new one.
    pub fn reset(&mut self)
        ensures { self.new ≡ reset_irq }
    {
        *self = Irq::new();
    }
}

impl Default for Irq {
    ghost is_default = { λ s. s ≡ reset_irq };

    fn default() -> Self {
        Irq::new()
    }
}

fn bit_where(set: bool, bit: u32) -> u32
    ensures value { result ≡ (if set then bit else 0) }
    ensures most { result ≤ bit }
{
    if set { bit } else { 0 }
}

/// A bit of an engine's sixteen, as `raise` counts the bits of all groups. Of the sixteen, bit 0 is the user
/// interrupt, bit 4 notify and bit 8 context switch.
pub fn interrupt_bit(engine: EngineId, bit: u8) -> u8
    requires engine { engine.0 < 4 }
    requires bit { bit < 16 }
    ensures value { result ≡ interrupt_bit engine.0 bit }
    ensures below { result < 128 }
    ensures group { result / 32 ≢ 2 }
{
    match engine {
        EngineId::RCS => bit,
        EngineId::BCS => 16 + bit,
        EngineId::VCS => 32 + bit,
        _ => 96 + bit,
    }
}
