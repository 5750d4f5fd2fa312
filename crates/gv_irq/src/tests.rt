ghost use Rattle.std.specs.Prelude.{◌<◌, IsTrue};
ghost use Rattle.gv_irq.specs.Irq.{is_interrupt_register};

use crate::{Irq, interrupt_bit};
use gv_types::EngineId;
use std::process::Abort;
use std::test::Fail;

const RCS: EngineId = EngineId::RCS;

const BCS: EngineId = EngineId::BCS;

const VCS: EngineId = EngineId::VCS;

const VECS: EngineId = EngineId::VECS;

// Bits of an engine.
const USER: u8 = 0;

const NOTIFY: u8 = 4;

const SWITCH: u8 = 8;

const MASTER: u32 = 0x44200;

/// The groups 0, 1 and 3.
#[derive(Clone, Copy)]
enum Of {
    Zero,
    One,
    Three,
}

fn isr(of: Of) -> u32
    ensures { IsTrue (is_interrupt_register result) }
{
    match of {
        Of::Zero => 0x44300,
        Of::One => 0x44310,
        Of::Three => 0x44330,
    }
}

fn imr(of: Of) -> u32
    ensures { IsTrue (is_interrupt_register result) }
{
    match of {
        Of::Zero => 0x44304,
        Of::One => 0x44314,
        Of::Three => 0x44334,
    }
}

fn iir(of: Of) -> u32
    ensures { IsTrue (is_interrupt_register result) }
{
    match of {
        Of::Zero => 0x44308,
        Of::One => 0x44318,
        Of::Three => 0x44338,
    }
}

fn ier(of: Of) -> u32
    ensures { IsTrue (is_interrupt_register result) }
{
    match of {
        Of::Zero => 0x4430c,
        Of::One => 0x4431c,
        Of::Three => 0x4433c,
    }
}

#[derive(Clone, Copy)]
enum Step {
    Raise(EngineId, u8),
    Master(u32),
    Isr(Of, u32),
    Imr(Of, u32),
    Iir(Of, u32),
    Ier(Of, u32),
    Reset,
}

fn take(irq: &mut Irq, step: Step) -> Option<u32> {
    match step {
        Step::Raise(engine, bit) => irq.raise(interrupt_bit(EngineId(engine.0 % 4), bit % 16)),
        Step::Master(value) => irq.write(MASTER, value),
        Step::Isr(of, value) => irq.write(isr(of), value),
        Step::Imr(of, value) => irq.write(imr(of), value),
        Step::Iir(of, value) => irq.write(iir(of), value),
        Step::Ier(of, value) => irq.write(ier(of), value),
        Step::Reset => {
            irq.reset();
            None
        }
    }
}

/// A sentence of the rule, a step that shows it, what it tells of an injected interrupt, and what master and
/// the three IIRs read afterwards.
type Row = (&'static str, Step, Option<u32>, u32, [u32; 3]);

#[test]
fn one_group(rt: HostRuntime) -> Result<(), Fail> {
    use Of::Zero;
    let rows: [Row; 20] = [
        (
            "every bit is masked",
            Step::Raise(BCS, SWITCH),
            None,
            0,
            [0, 0, 0],
        ),
        (
            "it was lost",
            Step::Imr(Zero, 0xfeff_fefe),
            None,
            0,
            [0, 0, 0],
        ),
        (
            "set without master and IER",
            Step::Raise(BCS, SWITCH),
            None,
            0,
            [0x100_0000, 0, 0],
        ),
        (
            "master is off",
            Step::Ier(Zero, 0x100_0001),
            None,
            2,
            [0x100_0000, 0, 0],
        ),
        (
            "master makes it deliverable",
            Step::Master(0x8000_0000),
            Some(0x100_0000),
            0x8000_0002,
            [0x100_0000, 0, 0],
        ),
        (
            "it was deliverable before",
            Step::Master(0xffff_ffff),
            None,
            0x8000_0002,
            [0x100_0000, 0, 0],
        ),
        (
            "the bit was set before",
            Step::Raise(BCS, SWITCH),
            None,
            0x8000_0002,
            [0x100_0000, 0, 0],
        ),
        (
            "another bit",
            Step::Raise(RCS, USER),
            Some(0x100_0001),
            0x8000_0003,
            [0x100_0001, 0, 0],
        ),
        (
            "IER lacks the bit",
            Step::Raise(RCS, SWITCH),
            None,
            0x8000_0003,
            [0x100_0101, 0, 0],
        ),
        (
            "some were deliverable",
            Step::Ier(Zero, 0x100_0101),
            None,
            0x8000_0003,
            [0x100_0101, 0, 0],
        ),
        (
            "a written zero clears nothing",
            Step::Iir(Zero, 0),
            None,
            0x8000_0003,
            [0x100_0101, 0, 0],
        ),
        (
            "written ones clear",
            Step::Iir(Zero, 0x100_0100),
            None,
            0x8000_0001,
            [1, 0, 0],
        ),
        (
            "ISR isn't written",
            Step::Isr(Zero, 0xffff_ffff),
            None,
            0x8000_0001,
            [1, 0, 0],
        ),
        (
            "a write to IMR injects nothing",
            Step::Imr(Zero, 0),
            None,
            0x8000_0001,
            [1, 0, 0],
        ),
        (
            "IER without a bit of IIR",
            Step::Ier(Zero, 0x100),
            None,
            0x8000_0000,
            [1, 0, 0],
        ),
        (
            "IER makes it deliverable",
            Step::Ier(Zero, 1),
            Some(1),
            0x8000_0001,
            [1, 0, 0],
        ),
        (
            "bit 31 alone is kept",
            Step::Master(0x7fff_ffff),
            None,
            1,
            [1, 0, 0],
        ),
        ("cleared", Step::Iir(Zero, 0xffff_ffff), None, 0, [0, 0, 0]),
        (
            "raised while master is off",
            Step::Raise(RCS, USER),
            None,
            1,
            [1, 0, 0],
        ),
        ("a reset masks every bit", Step::Reset, None, 0, [0, 0, 0]),
    ];
    follows(&rt, &rows)
}

#[test]
fn three_groups(rt: HostRuntime) -> Result<(), Fail> {
    use Of::{One, Three, Zero};
    let rows: [Row; 17] = [
        ("all may be raised", Step::Imr(Zero, 0), None, 0, [0, 0, 0]),
        ("group 1", Step::Imr(One, 0), None, 0, [0, 0, 0]),
        (
            "group 3 but notify",
            Step::Imr(Three, 0x10),
            None,
            0,
            [0, 0, 0],
        ),
        (
            "VECS has bits of group 3",
            Step::Raise(VECS, SWITCH),
            None,
            0,
            [0, 0, 0x100],
        ),
        (
            "VCS has bits of group 1",
            Step::Raise(VCS, NOTIFY),
            None,
            0,
            [0, 0x10, 0x100],
        ),
        (
            "a bit that its group masks",
            Step::Raise(VECS, NOTIFY),
            None,
            0,
            [0, 0x10, 0x100],
        ),
        (
            "master reads bit 6",
            Step::Ier(Three, 0xffff_ffff),
            None,
            0x40,
            [0, 0x10, 0x100],
        ),
        (
            "and bit 2",
            Step::Ier(One, 0x10),
            None,
            0x44,
            [0, 0x10, 0x100],
        ),
        (
            "the lowest group",
            Step::Master(0x8000_0000),
            Some(0x10),
            0x8000_0044,
            [0, 0x10, 0x100],
        ),
        (
            "nothing more of master",
            Step::Master(0x8000_0000),
            None,
            0x8000_0044,
            [0, 0x10, 0x100],
        ),
        (
            "another group's bit",
            Step::Raise(BCS, NOTIFY),
            None,
            0x8000_0044,
            [0x10_0000, 0x10, 0x100],
        ),
        (
            "its IER injects of its group",
            Step::Ier(Zero, 0x10_0000),
            Some(0x10_0000),
            0x8000_0046,
            [0x10_0000, 0x10, 0x100],
        ),
        (
            "raised in group 3",
            Step::Raise(VECS, USER),
            Some(0x101),
            0x8000_0046,
            [0x10_0000, 0x10, 0x101],
        ),
        (
            "cleared in group 1 alone",
            Step::Iir(One, 0x110),
            None,
            0x8000_0042,
            [0x10_0000, 0, 0x101],
        ),
        (
            "raised in group 1",
            Step::Raise(VCS, NOTIFY),
            Some(0x10),
            0x8000_0046,
            [0x10_0000, 0x10, 0x101],
        ),
        (
            "nothing of group 0",
            Step::Ier(Zero, 0),
            None,
            0x8000_0044,
            [0x10_0000, 0x10, 0x101],
        ),
        (
            "one of group 3 alone",
            Step::Iir(One, 0x10),
            None,
            0x8000_0040,
            [0x10_0000, 0, 0x101],
        ),
    ];
    follows(&rt, &rows)
}

fn follows(rt: &impl Abort, rows: &[Row]) -> Result<(), Fail> {
    let mut irq = Irq::default();
    for (says, step, told, master, pending) in rows {
        assert_eq!(rt; take(&mut irq, *step), *told, "{says}");
        assert_eq!(rt; irq.read(MASTER), *master, "{says}: master");
        let read = [
            irq.read(iir(Of::Zero)),
            irq.read(iir(Of::One)),
            irq.read(iir(Of::Three)),
        ];
        assert_eq!(rt; read, *pending, "{says}: IIR");
        assert_eq!(rt; irq.read(isr(Of::One)), 0, "{says}: ISR");
        let first = if *master < 0x8000_0000 {
            None
        } else if *master & 3 != 0 {
            Some(0)
        } else if *master & 4 != 0 {
            Some(1)
        } else if *master & 0x40 != 0 {
            Some(3)
        } else {
            None
        };
        assert_eq!(rt; irq.first(), first, "{says}: the lowest group");
    }
    Ok(())
}

#[test]
fn registers_after_a_reset(rt: HostRuntime) {
    let irq = Irq::new();
    for of in [Of::Zero, Of::One, Of::Three] {
        assert_eq!(rt; irq.read(imr(of)), 0xffff_ffff);
        assert_eq!(rt; irq.read(ier(of)), 0);
    }
}
