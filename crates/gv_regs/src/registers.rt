ghost use Rattle.std.specs.Prelude.{◌≡◌, ◌+◌, ◌<◌, ◌≤◌};
ghost use Rattle.gv_regs.specs.Registers.{map_of, found_at, IsFound, register_read, register_written, effect_at, IsEffect, IsLeft, reset_registers, engine_reset, masked, HasMaskedBits};

use crate::decode::{Register, register_at};
use crate::effect::{Effect, Lookup};
use crate::table::{ENGINE_SLOTS, KEPT, Kind};
use gv_types::{EngineId, GuestId, Ranges};
use std::marker::Model;

/// The register file of one guest: the registers that are kept here, and the constants of its PVINFO
/// page. No call takes memory.
#[derive(Drop)]
pub struct Registers {
    guest: GuestId,
    ranges: Ranges,
    kept: [u32; KEPT],
}

impl Model for Registers {
    ghost use Rattle.std.specs.Prelude.{◌≡◌, length};
    ghost use Rattle.gv_regs.specs.Registers.{RegisterFile, AreRanges};

    ghost Value = { RegisterFile };

    ghost use Rattle.gv_regs.specs.Fields.{file_of};

    ghost view = { file_of };

    ghost invariant = { λ s. AreRanges s.ranges × (length s.kept ≡ 33) };
}

impl Registers {
    /// The registers of the guest with these ranges of the global table, as after a reset.
    pub fn new(guest: GuestId, ranges: Ranges) -> Registers
        requires low { ranges.low.first + ranges.low.pages ≤ 65536 }
        requires high { ranges.high.first + ranges.high.pages ≤ 1032192 }
        ensures guest { result.guest ≡ guest.0 }
        ensures ranges { result.ranges ≡ ranges }
        ensures map { map_of result ≡ reset_registers }
    {
        Registers {
            guest,
            ranges,
            kept: [0; KEPT],
        }
    }

    /// Registers that hold these dwords, in the table's order: for each engine tail, head, start and control of the
    /// ring, the page of the status page and mode; the three force-wake requests; PDP0, low and high; and control,
    /// stride, size and surface of the display plane.
    pub fn of(guest: GuestId, ranges: Ranges, kept: [u32; KEPT]) -> Registers
        requires low { ranges.low.first + ranges.low.pages ≤ 65536 }
        requires high { ranges.high.first + ranges.high.pages ≤ 1032192 }
        ensures { result ≡ record { guest = guest.0; ranges = ranges; kept = kept } }
    {
        Registers {
            guest,
            ranges,
            kept,
        }
    }

    /// The dwords that they hold, in the same order.
    pub fn kept(&self) -> &[u32; KEPT]
        ensures { result.now ≡ self.now.kept }
    {
        &self.kept
    }

    /// Whose registers they are.
    pub fn guest(&self) -> GuestId
        ensures { result.0 ≡ self.now.guest }
    {
        self.guest
    }

    /// What a read at an offset in bytes finds: the value of a register that is kept here, of a constant or of
    /// a request that is acknowledged, and 0 at an absent offset. `Goes` names the part of the device that serves
    /// the register and is to be read.
    pub fn lookup(&self, offset: u32) -> Lookup
        ensures found { result ≡ found_at self.now.guest self.now.ranges (map_of self.now) offset }
        ensures form { IsFound offset result }
    {
        match register_at(offset) {
            Register::Own(kind, slot) => Lookup::Value(match kind {
                Kind::Plain | Kind::Masked | Kind::Acknowledges(_) => self.kept[slot],
                Kind::Fixed(constant) => constant.value(self.guest, &self.ranges),
                _ => 0,
            }),
            Register::Elsewhere(target) => Lookup::Goes(target),
            Register::Absent => Lookup::Value(0),
        }
    }

    /// The dword at an offset in bytes, as `lookup` finds it. It is 0 where another part of the device serves
    /// the register.
    pub fn read(&self, offset: u32) -> u32
        ensures { result ≡ register_read self.now.guest self.now.ranges (map_of self.now) offset }
    {
        match self.lookup(offset) {
            Lookup::Value(value) => value,
            Lookup::Goes(_) => 0,
        }
    }

    /// Writes the dword at an offset in bytes. A register that is kept here is written by its kind; at
    /// each other offset nothing changes. `Goes` names the part of the device that serves the register
    /// and is to take the value.
    pub fn write(&mut self, offset: u32, value: u32) -> Effect
        ensures effect { result ≡ effect_at offset }
        ensures form { IsEffect offset result }
        ensures map { map_of self.new ≡ register_written (map_of self.old) offset value }
        ensures left { IsLeft result (map_of self.old) (map_of self.new) }
        ensures guest { self.new.guest ≡ self.old.guest }
        ensures ranges { self.new.ranges ≡ self.old.ranges }
    {
        match register_at(offset) {
            Register::Own(Kind::Plain, slot) => {
                self.kept[slot] = value;
                Effect::Kept
            }
            Register::Own(Kind::Masked, slot) => {
                self.kept[slot] = masked(self.kept[slot], value);
                Effect::Kept
            }
            Register::Own(..) | Register::Absent => Effect::Nothing,
            Register::Elsewhere(target) => Effect::Goes(target),
        }
    }

    /// As after a reset of the engine: its registers have their reset values.
    pub fn reset_engine(&mut self, engine: EngineId)
        requires { engine.0 < 4 }
        ensures map { map_of self.new ≡ engine_reset engine.0 (map_of self.old) }
        ensures guest { self.new.guest ≡ self.old.guest }
        ensures ranges { self.new.ranges ≡ self.old.ranges }
    {
        let first = engine.0 as usize * ENGINE_SLOTS;
        self.kept[first..first + ENGINE_SLOTS].fill(0);
    }

    /// As after a function reset: each register has its reset value.
    pub fn reset(&mut self)
        ensures map { map_of self.new ≡ reset_registers }
        ensures guest { self.new.guest ≡ self.old.guest }
        ensures ranges { self.new.ranges ≡ self.old.ranges }
    {
        self.kept = [0; KEPT];
    }
}

/// What a masked register of 16 bits holds after a write: of the value those bits whose bit 16 places
/// higher is set, and of the old dword the others.
fn masked(old: u32, value: u32) -> u32
    ensures value { result ≡ masked old value }
    ensures bits { HasMaskedBits old value result }
{
    let mask = value >> 16;
    (old & (0xffff - mask)) | (value & mask)
}
