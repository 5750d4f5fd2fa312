ghost use Rattle.std.specs.Prelude.{◌≡◌, ◌+◌, ◌-◌, ◌/◌, ◌%◌, ◌<◌, ◌≤◌, true, IfSome};
ghost use Rattle.std.specs.List.{find};
ghost use Rattle.std.specs.Option.{option_map};
ghost use Rattle.gv_regs.specs.Table.{target_at, engines_reset};
ghost use Rattle.gv_regs.specs.Registers.{IsTarget};
ghost use Rattle.gv_regs.specs.Decoded.{StandsAt, row_covers, target_in, register_of, engine_number_at};

use crate::effect::Target;
use crate::table::{ENGINE_ROWS, ENGINE_SLOTS, Kind, Row, SHARED_ROWS, SHARED_SLOTS};
use gv_types::{EngineId, has_bit};

/// What stands at an offset: a register of the register file, with the slot of a kept dword that it reads, or
/// one that another part of the device serves.
#[derive(Clone, Copy, Debug, PartialEq, Eq)]
pub enum Register {
    Own(Kind, usize),
    Elsewhere(Target),
    Absent,
}

/// What stands at the offset.
pub fn register_at(offset: u32) -> Register
    ensures { StandsAt offset result }
{
    if offset % 4 != 0 {
        return Register::Absent;
    }
    match engine_at(offset) {
        Some(engine) => {
            let first_slot = engine.0 as usize * ENGINE_SLOTS;
            register_in(&ENGINE_ROWS, offset % 0x1000, engine, first_slot)
        }
        None => register_in(&SHARED_ROWS, offset, EngineId::RCS, SHARED_SLOTS),
    }
}

// The engine in whose 4 KiB the offset stands: they begin at its base.
fn engine_at(offset: u32) -> Option<EngineId>
    ensures { option_map (λ engine. engine.0) result ≡ engine_number_at offset }
{
    match offset / 0x1000 {
        0x2 => Some(EngineId::RCS),
        0x22 => Some(EngineId::BCS),
        0x12 => Some(EngineId::VCS),
        0x1a => Some(EngineId::VECS),
        _ => None,
    }
}

// The register of this engine in these rows, whose kept dwords begin at a slot.
fn register_in(rows: &[Row], at: u32, engine: EngineId, first_slot: usize) -> Register
    requires { first_slot ≤ 24 }
    ensures { result ≡ register_of (find (λ row. row_covers row at) rows.now) at engine first_slot }
{
    let Some(row) = row_of(rows, at) else {
        return Register::Absent;
    };
    let number = row.number_of(at);
    let Row(_, _, kind, target, slot) = row;
    match target_in(target, engine, number) {
        Target::Own => Register::Own(kind, first_slot + usize::from(slot) + usize::from(number)),
        Target::Absent => Register::Absent,
        target => Register::Elsewhere(target),
    }
}

// The row that has the offset.
fn row_of(rows: &[Row], at: u32) -> Option<Row>
    ensures row { result ≡ find (λ row. row_covers row at) rows.now }
    ensures covers { IfSome result (λ row. row_covers row at ≡ true) }
{
    rows.iter().copied().find(|row| row.covers(at))
}

impl Row {
    fn covers(&self, at: u32) -> bool
        ensures { result ≡ row_covers self.now at }
    {
        let Row(first, dwords, ..) = *self;
        first <= at && at - first < 4 * u32::from(dwords)
    }

    // The number of the offset's dword among the row's.
    fn number_of(&self, at: u32) -> u8
        requires { row_covers self.now at ≡ true }
        ensures { result ≡ (at - self.now.0) / 4 }
    {
        let Row(first, dwords, ..) = *self;
        ((at - first) / 4) as u8
    }
}

// The target of an engine's register, where the table names that of RCS, so many dwords on.
fn target_in(target: Target, engine: EngineId, number: u8) -> Target
    ensures { result ≡ target_in target engine number }
{
    match target {
        Target::Elsp(_) => Target::Elsp(engine),
        Target::Status(..) => Target::Status(engine, number),
        Target::StatusPointer(_) => Target::StatusPointer(engine),
        Target::General(..) => Target::General(engine, number),
        other => other,
    }
}

/// Which part of the device serves the register at an offset, from 0 on, in bytes. `Absent` where
/// there is no register, which is so of each offset from 0x800000 on and of each that isn't a
/// multiple of 4.
pub fn target(offset: u32) -> Target
    ensures target { result ≡ target_at offset }
    ensures form { IsTarget offset result }
{
    match register_at(offset) {
        Register::Own(..) => Target::Own,
        Register::Elsewhere(target) => target,
        Register::Absent => Target::Absent,
    }
}

/// Which engines a value resets that is written to the engine reset register, by number: bit 0 resets every
/// engine, bit 1 RCS, bit 3 BCS, bit 2 VCS and bit 4 VECS.
pub fn engines_reset(value: u32) -> [bool; 4]
    ensures { result ≡ engines_reset value }
{
    let all = has_bit(value, 0);
    [
        all || has_bit(value, 1),
        all || has_bit(value, 3),
        all || has_bit(value, 2),
        all || has_bit(value, 4),
    ]
}
