ghost use Rattle.std.specs.Prelude.{◌≡◌, ◌<◌};
ghost use Rattle.gv_types.specs.Bits.{has_bit};
ghost use Rattle.gv_irq.specs.Irq.{group_raised, may_interrupt, deliverable_bits, reset_group, AreDwords};

use gv_types::has_bit;

/// The groups by their numbers: 0 has the bits of RCS and BCS, 1 those of VCS, 3 those of VECS.
#[derive(Clone, Copy, Debug, PartialEq, Eq)]
pub enum GroupId {
    Zero,
    One,
    Three,
}

impl GroupId {
    ghost use Rattle.gv_irq.specs.Irq.{number_of, group_numbered};

    /// The group with this number, 0, 1 or 3.
    pub fn of(number: u32) -> GroupId
        ensures { result ≡ group_numbered number }
    {
        match number {
            0 => GroupId::Zero,
            1 => GroupId::One,
            _ => GroupId::Three,
        }
    }

    /// Its number.
    pub fn number(self) -> u8
        ensures { result ≡ number_of self }
    {
        match self {
            GroupId::Zero => 0,
            GroupId::One => 1,
            GroupId::Three => 3,
        }
    }
}

/// A group of 32 interrupt bits: those that are masked, that are pending and that may interrupt.
#[derive(Clone, Copy, Debug, PartialEq, Eq)]
pub struct Group {
    pub imr: u32,
    pub iir: u32,
    pub ier: u32,
}

impl Group {
    ghost use Rattle.gv_irq.specs.Fields.{group_of};

    /// Every bit masked, none pending, and none that may interrupt.
    pub fn new() -> Group
        ensures { group_of result ≡ reset_group }
    {
        Group {
            imr: u32::MAX,
            iir: 0,
            ier: 0,
        }
    }

    /// Sets the bit of IIR, unless IMR masks it. Answers whether it wasn't masked, was clear before, and may
    /// interrupt.
    pub fn raise(&mut self, bit: u8) -> bool
        requires { bit < 32 }
        ensures answer { result ≡ may_interrupt (group_of self.old) bit }
        ensures dwords { AreDwords (group_of self.old) → AreDwords (group_of self.new) }
        ensures after { group_of self.new ≡ group_raised (group_of self.old) bit }
    {
        if has_bit(self.imr, bit) {
            return false;
        }
        let injects = !has_bit(self.iir, bit) && has_bit(self.ier, bit);
        self.iir |= 1 << bit;
        injects
    }

    /// The bits that are pending and may interrupt.
    pub fn deliverable(&self) -> u32
        ensures { result ≡ deliverable_bits (group_of self.now) }
    {
        self.iir & self.ier
    }
}
