ghost use Rattle.std.specs.Prelude.{◌≡◌, ℕ, ◌+◌, ◌^◌, ◌<◌, ◌≤◌, false, ◌==◌, ◌&&◌, length, Some, None, if◌then◌else◌};
ghost use Rattle.gv_entry.specs.Ranges.{InParts};
ghost use Rattle.gv_csb.specs.Slots.{completed, completion_events, current_of, pointer_written, submission_answer, submitted};
ghost use Rattle.gv_csb.specs.Status.{in_order};
ghost use Rattle.gv_types.specs.Engines.{register_base};
ghost use Rattle.gv_regs.specs.Registers.{map_of};
ghost use Rattle.gv_private.specs.Device.{PrivateDevice, with_slots};
ghost use Rattle.gv_private.specs.Registers.{status_read, is_named, one_registers_reset, engines_are_reset};
ghost use Rattle.gv_private.specs.Roots.{named_root};
ghost use Rattle.gv_private.specs.Status.{bit_raised, in_ring, status_page};
ghost use Rattle.gv_private.specs.Submission.{with_writes, list_submitted};
ghost use Rattle.gv_mmio.specs.Port.{writes_of, port_after, submission_in};
ghost use Rattle.gv_mmio.specs.Ports.{ports_in};

use crate::port::Submission;
use crate::ports::{Ports, first_ports};
use gv_csb::{Events, Status, Submitted};
use gv_irq::{Irq, interrupt_bit};
use gv_regs::{Effect, Lookup, Registers, Target, engines_reset};
use gv_types::{EngineId, GuestId, Ranges};

/// What a read of a dword finds: its value, or the general register that it is half of, by its engine and the number
/// of the dword among the engine's 32.
#[derive(Clone, Copy, Debug, PartialEq, Eq)]
pub enum Read {
    Value(u32),
    General(EngineId, u8),
}

/// What became of a write of a dword.
#[derive(Clone, Copy, Debug, PartialEq, Eq)]
pub enum Wrote {
    /// It is done. Where an interrupt was injected, IIR of its group.
    Done(Option<u32>),
    /// It goes to a dword of the engine's general registers.
    General(EngineId, u8),
    /// These engines were reset, as far as they are kept here.
    Engines([bool; 4]),
    /// It goes to notify.
    Notify,
    /// A list was submitted that starts on the idle engine, of which a status event tells.
    Starts(EngineId),
}

// The offset of the register HWS_PGA of an engine.
fn status_register(engine: EngineId) -> u32
    requires { engine.0 < 4 }
    ensures { result ≡ register_base engine.0 + 0x80 }
{
    match engine {
        EngineId::RCS => 0x2080,
        EngineId::BCS => 0x22080,
        EngineId::VCS => 0x12080,
        _ => 0x1a080,
    }
}

/// The registers, interrupts and ports of one guest's device. A clause sees them in a private device (`behind`).
#[derive(Drop)]
pub struct Mmio {
    pub(crate) registers: Registers,
    pub(crate) interrupts: Irq,
    pub(crate) engines: [Ports; 4],
    ghost four: { length engines ≡ 4 },
}

impl Mmio {
    ghost use Rattle.gv_mmio.specs.Ports.{no_ports};
    ghost use Rattle.gv_mmio.specs.Mmio.{ports_at};
    ghost use Rattle.gv_mmio.specs.Mmio.{behind, guest_of, ranges_of, SameGuest, Reads, Writes, WritesPort, SubmitsList, rest_reset, at_first};

    /// As after a function reset, for a guest with these ranges of the global table.
    pub fn new(guest: GuestId, ranges: Ranges) -> Mmio
        requires { InParts ranges }
        ensures guest { guest_of result ≡ guest.0 }
        ensures ranges { ranges_of result ≡ ranges }
        ensures device { (p : PrivateDevice) → behind p result ≡ at_first p guest.0 ranges }
    {
        Mmio {
            registers: Registers::new(guest, ranges),
            interrupts: Irq::new(),
            engines: first_ports(),
        }
    }

    /// The device's part with these registers, interrupts and, for each engine, ports.
    pub fn of(registers: Registers, interrupts: Irq, engines: [Ports; 4]) -> Mmio
        ensures guest { guest_of result ≡ registers.guest }
        ensures ranges { ranges_of result ≡ registers.ranges }
        ensures registers { (p : PrivateDevice) → (behind p result).registers ≡ map_of registers }
        ensures interrupts { (p : PrivateDevice) → (behind p result).interrupts ≡ interrupts }
        ensures engines { (engine : ℕ) → ports_at result engine ≡ ports_in engines engine }
    {
        Mmio {
            registers,
            interrupts,
            engines,
        }
    }

    /// The registers that are kept here.
    pub fn registers(&self) -> &Registers
        ensures guest { result.now.guest ≡ guest_of self.now }
        ensures ranges { result.now.ranges ≡ ranges_of self.now }
        ensures map { (p : PrivateDevice) → map_of result.now ≡ (behind p self.now).registers }
    {
        &self.registers
    }

    /// The interrupt registers.
    pub fn interrupts(&self) -> &Irq
        ensures { (p : PrivateDevice) → result.now ≡ (behind p self.now).interrupts }
    {
        &self.interrupts
    }

    /// What is submitted to an engine.
    pub fn ports(&self, engine: EngineId) -> &Ports
        requires { engine.0 < 4 }
        ensures { result.now ≡ ports_at self.now engine.0 }
    {
        &self.engines[engine.0 as usize]
    }

    /// Whose registers they are.
    pub fn guest(&self) -> GuestId
        ensures { result.0 ≡ guest_of self.now }
    {
        self.registers.guest()
    }

    /// Reads a dword at an offset of the register range, in bytes.
    pub fn read(&self, offset: u32) -> Read
        ensures { Reads self.now offset result }
    {
        match self.registers.lookup(offset) {
            Lookup::Value(value) => Read::Value(value),
            Lookup::Goes(Target::Interrupts) => Read::Value(self.interrupts.read(offset)),
            Lookup::Goes(Target::Status(engine, n)) => Read::Value(self.status_dword(engine, n)),
            Lookup::Goes(Target::StatusPointer(engine)) => {
                Read::Value(self.engines[engine.0 as usize].slots.pointer())
            }
            Lookup::Goes(Target::General(engine, n)) => Read::General(engine, n),
            Lookup::Goes(_) => Read::Value(0),
        }
    }

    // A dword of the status pairs of an engine.
    fn status_dword(&self, engine: EngineId, n: u8) -> u32
        requires engine { engine.0 < 4 }
        requires within { n < 12 }
        ensures { result ≡ status_read (ports_at self.now engine.0).slots n }
    {
        let (event, number) = self.engines[engine.0 as usize].slots.pair(n / 2);
        if n % 2 == 0 { event } else { number }
    }

    /// Writes a dword at an offset of the register range, as far as it is kept here.
    pub fn write(&mut self, offset: u32, value: u32) -> Wrote
        ensures wrote { Writes self.old offset value self.new result }
        ensures same { SameGuest self.old self.new }
    {
        match self.registers.write(offset, value) {
            Effect::Goes(Target::Interrupts) => Wrote::Done(self.interrupts.write(offset, value)),
            Effect::Goes(Target::Elsp(engine)) => self.write_port(engine, value),
            Effect::Goes(Target::StatusPointer(engine)) => {
                self.write_pointer(engine, value);
                Wrote::Done(None)
            }
            Effect::Goes(Target::General(engine, n)) => Wrote::General(engine, n),
            Effect::Goes(Target::EngineReset) => {
                let named = engines_reset(value);
                self.reset_engines(named);
                Wrote::Engines(named)
            }
            Effect::Goes(Target::Notify) => Wrote::Notify,
            _ => Wrote::Done(None),
        }
    }

    // Writes the status pointer of an engine.
    fn write_pointer(&mut self, engine: EngineId, value: u32)
        requires { engine.0 < 4 }
        ensures device { (p : PrivateDevice) → behind p self.new ≡ with_slots (behind p self.old) engine.0 (pointer_written (ports_at self.old engine.0).slots value) }
        ensures same { SameGuest self.old self.new }
    {
        self.engines[engine.0 as usize].slots.set_pointer(value);
    }

    // Writes the port of an engine. The fourth dword submits a list.
    fn write_port(&mut self, engine: EngineId, value: u32) -> Wrote
        requires { engine.0 < 4 }
        ensures wrote { WritesPort self.old engine.0 value self.new result }
        ensures same { SameGuest self.old self.new }
    {
        match self.take_write(engine, value) {
            Some(list) => self.submit(engine, list),
            None => Wrote::Done(None),
        }
    }

    // The port takes a dword, and the fourth empties it.
    fn take_write(&mut self, engine: EngineId, value: u32) -> Option<Submission>
        requires { engine.0 < 4 }
        ensures list { result ≡ submission_in (writes_of (ports_at self.old engine.0).port) value }
        ensures device { (p : PrivateDevice) → behind p self.new ≡ with_writes (behind p self.old) engine.0 (port_after (writes_of (ports_at self.old engine.0).port) value) }
        ensures same { SameGuest self.old self.new }
        ensures slots { (ports_at self.new engine.0).slots ≡ (ports_at self.old engine.0).slots }
    {
        self.engines[engine.0 as usize].port.write(value)
    }

    // Submits a list.
    fn submit(&mut self, engine: EngineId, list: Submission) -> Wrote
        requires { engine.0 < 4 }
        ensures wrote { (p : PrivateDevice) → SubmitsList (list_submitted (behind p self.old) engine.0 list.first list.second) (behind p self.new) engine.0 result }
        ensures same { SameGuest self.old self.new }
    {
        match self.enqueue(engine, list) {
            Submitted::Accepted { starts: true } => Wrote::Starts(engine),
            Submitted::Accepted { starts: false } => Wrote::Done(None),
            Submitted::Dropped => Wrote::Done(None),
        }
    }

    // Puts a list into a slot, where it isn't dropped.
    fn enqueue(&mut self, engine: EngineId, list: Submission) -> Submitted
        requires { engine.0 < 4 }
        ensures answer { result ≡ submission_answer (ports_at self.old engine.0).slots list.first }
        ensures device { (p : PrivateDevice) → behind p self.new ≡ with_slots (behind p self.old) engine.0 (submitted (ports_at self.old engine.0).slots list.first list.second) }
        ensures same { SameGuest self.old self.new }
    {
        self.engines[engine.0 as usize]
            .slots
            .submit(list.first, list.second)
    }

    // Resets each engine that is named, as far as it is kept here.
    fn reset_engines(&mut self, named: [bool; 4])
        requires { (engine : ℕ) → 4 ≤ engine → is_named named engine ≡ false }
        ensures device { (p : PrivateDevice) → engines_are_reset named (behind p self.old) ≡ rest_reset named (behind p self.new) }
        ensures same { SameGuest self.old self.new }
    {
        self.reset_if_named(named, EngineId::RCS);
        self.reset_if_named(named, EngineId::BCS);
        self.reset_if_named(named, EngineId::VCS);
        self.reset_if_named(named, EngineId::VECS);
    }

    // Resets an engine, where it is named.
    fn reset_if_named(&mut self, named: [bool; 4], engine: EngineId)
        requires { engine.0 < 4 }
        ensures registers { map_of self.new.registers ≡ one_registers_reset named engine.0 (map_of self.old.registers) }
        ensures ports { (k : ℕ) → ports_at self.new k ≡ (if k == engine.0 && is_named named k then no_ports else ports_at self.old k) }
        ensures interrupts { self.new.interrupts ≡ self.old.interrupts }
        ensures same { SameGuest self.old self.new }
    {
        if named[engine.0 as usize] {
            self.registers.reset_engine(engine);
            self.engines[engine.0 as usize] = Ports::new();
        }
    }

    /// Raises a bit of an engine's sixteen. Where an interrupt is injected, it answers IIR of its group.
    pub fn raise(&mut self, engine: EngineId, bit: u8) -> Option<u32>
        requires engine { engine.0 < 4 }
        requires bit { bit < 16 }
        ensures raised { (p : PrivateDevice) → bit_raised (behind p self.old) engine.0 bit ≡ record { device = behind p self.new; irq = result; reason = None } }
        ensures same { SameGuest self.old self.new }
    {
        self.interrupts.raise(interrupt_bit(engine, bit))
    }

    /// Puts a status event into an engine's ring, and answers the index of its pair.
    pub fn push(&mut self, engine: EngineId, status: Status) -> u8
        requires { engine.0 < 4 }
        ensures device { (p : PrivateDevice) → behind p self.new ≡ in_ring (behind p self.old) engine.0 status }
        ensures index { (p : PrivateDevice) → result ≡ ((behind p self.new).engines engine.0).slots.write }
        ensures within { result < 6 }
        ensures same { SameGuest self.old self.new }
    {
        self.engines[engine.0 as usize].slots.push(status)
    }

    /// The front element of an engine's running list is completed: it answers the events that tell of it.
    pub fn complete(&mut self, engine: EngineId) -> Events
        requires engine { engine.0 < 4 }
        requires list { 0 < length (ports_at self.old engine.0).slots.running }
        ensures device { (p : PrivateDevice) → behind p self.new ≡ with_slots (behind p self.old) engine.0 (completed (ports_at self.old engine.0).slots) }
        ensures events { in_order result ≡ completion_events (ports_at self.old engine.0).slots.running (ports_at self.old engine.0).slots.pending }
        ensures same { SameGuest self.old self.new }
    {
        self.engines[engine.0 as usize].slots.complete()
    }

    /// The context descriptor at the front of an engine's running list, if there is one.
    pub fn current(&self, engine: EngineId) -> Option<u64>
        requires { engine.0 < 4 }
        ensures { result ≡ current_of (ports_at self.now engine.0).slots.running }
    {
        self.engines[engine.0 as usize].slots.current()
    }

    /// The global page of an engine's status page.
    pub fn status_page(&self, engine: EngineId) -> u32
        requires { engine.0 < 4 }
        ensures value { (p : PrivateDevice) → result ≡ status_page (behind p self.now) engine.0 }
        ensures below { result < 2 ^ 20 }
    {
        self.registers.read(status_register(engine)) / 4096
    }

    /// The frame of the root that the PVINFO page names: bits 47..12 of its two dwords.
    pub fn root(&self) -> u64
        ensures { (p : PrivateDevice) → result ≡ named_root (behind p self.now) }
    {
        let low = u64::from(self.registers.read(0x7_8838));
        let high = u64::from(self.registers.read(0x7_883c));
        high % 0x1_0000 * 0x10_0000 + low / 0x1000
    }

    /// As after a function reset.
    pub fn reset(&mut self)
        ensures device { (p : PrivateDevice) → behind p self.new ≡ at_first p (guest_of self.old) (ranges_of self.old) }
        ensures same { SameGuest self.old self.new }
    {
        self.registers.reset();
        self.interrupts.reset();
        self.engines = first_ports();
    }
}
