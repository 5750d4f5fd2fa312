use self::Kind::{Acknowledges, Acting, Fixed, Masked, OnesClear, Plain, ReadOnly, TopBit};
use crate::constant::Constant::{self, GuestNumber, HighBase, HighSize, LowBase, LowSize, Number};
use crate::effect::Target::{
    self, Elsp, EngineReset, General, Interrupts, Notify, Own, Status, StatusPointer,
};
use gv_types::EngineId;

const RCS: EngineId = EngineId::RCS;

/// What a read and a write of a register do.
#[derive(Clone, Copy, Debug, PartialEq, Eq)]
pub enum Kind {
    /// Reads what was written.
    Plain,
    /// Keeps 16 bits; a write changes those of them whose bit 16 places higher is set.
    Masked,
    /// Isn't written.
    ReadOnly,
    /// Isn't written, and reads what the request at this offset reads.
    Acknowledges(u32),
    /// Keeps bit 31 alone.
    TopBit,
    /// A one that is written clears its bit.
    OnesClear,
    /// Reads 0; a write acts.
    Acting,
    /// Isn't written, and always reads this.
    Fixed(Constant),
}

/// A row of the register table: one or more dwords, one behind the other. It says the offset of the first, how
/// many they are, their kind and the part of the device that serves them, and for the registers that are kept
/// here where the first stands among the kept dwords; for an acknowledgement, where its request stands.
#[derive(Clone, Copy, Debug, PartialEq, Eq)]
pub struct Row(pub u32, pub u8, pub Kind, pub Target, pub u8);

/// How many dwords are kept for each engine.
pub const ENGINE_SLOTS: usize = 6;

/// Where the kept dwords begin that no engine has.
pub const SHARED_SLOTS: usize = 24;

/// How many dwords are kept.
pub const KEPT: usize = 33;

/// The registers of each engine, by their offsets from its base. The targets here name RCS.
pub const ENGINE_ROWS: [Row; 7] = [
    // tail, head, start and control of the ring
    Row(0x30, 4, Plain, Own, 0),
    // the global page of the status page
    Row(0x80, 1, Plain, Own, 4),
    Row(0x230, 1, Acting, Elsp(RCS), 0),
    // mode
    Row(0x29c, 1, Masked, Own, 5),
    Row(0x370, 12, ReadOnly, Status(RCS, 0), 0),
    Row(0x3a0, 1, Masked, StatusPointer(RCS), 0),
    Row(0x600, 32, Plain, General(RCS, 0), 0),
];

/// The registers that no engine has.
pub const SHARED_ROWS: [Row; 36] = [
    // master, and ISR, IMR, IIR and IER of the interrupt groups 0, 1 and 3
    Row(0x4_4200, 1, TopBit, Interrupts, 0),
    Row(0x4_4300, 1, ReadOnly, Interrupts, 0),
    Row(0x4_4304, 1, Plain, Interrupts, 0),
    Row(0x4_4308, 1, OnesClear, Interrupts, 0),
    Row(0x4_430c, 1, Plain, Interrupts, 0),
    Row(0x4_4310, 1, ReadOnly, Interrupts, 0),
    Row(0x4_4314, 1, Plain, Interrupts, 0),
    Row(0x4_4318, 1, OnesClear, Interrupts, 0),
    Row(0x4_431c, 1, Plain, Interrupts, 0),
    Row(0x4_4330, 1, ReadOnly, Interrupts, 0),
    Row(0x4_4334, 1, Plain, Interrupts, 0),
    Row(0x4_4338, 1, OnesClear, Interrupts, 0),
    Row(0x4_433c, 1, Plain, Interrupts, 0),
    Row(0x941c, 1, Acting, EngineReset, 0),
    // force-wake requests of media, render and blitter, and their acknowledgements
    Row(0xa270, 1, Masked, Own, 0),
    Row(0xa278, 1, Masked, Own, 1),
    Row(0xa188, 1, Masked, Own, 2),
    Row(0xd88, 1, Acknowledges(0xa270), Own, 0),
    Row(0xd84, 1, Acknowledges(0xa278), Own, 1),
    Row(0x13_0044, 1, Acknowledges(0xa188), Own, 2),
    // the PVINFO page
    Row(0x7_8000, 1, Fixed(Number(0x7654_4776)), Own, 0),
    Row(0x7_8004, 1, Fixed(Number(0x4776_5447)), Own, 0),
    Row(0x7_8008, 1, Fixed(Number(1)), Own, 0),
    Row(0x7_800c, 1, Fixed(GuestNumber), Own, 0),
    Row(0x7_8010, 1, Fixed(Number(0x1c)), Own, 0),
    Row(0x7_8040, 1, Fixed(LowBase), Own, 0),
    Row(0x7_8044, 1, Fixed(LowSize), Own, 0),
    Row(0x7_8048, 1, Fixed(HighBase), Own, 0),
    Row(0x7_804c, 1, Fixed(HighSize), Own, 0),
    Row(0x7_8050, 1, Fixed(Number(0)), Own, 0),
    Row(0x7_8818, 1, Acting, Notify, 0),
    // PDP0, low and high
    Row(0x7_8838, 2, Plain, Own, 3),
    // control, stride, size and surface of the display plane
    Row(0x7_0180, 1, Plain, Own, 5),
    Row(0x7_0188, 1, Plain, Own, 6),
    Row(0x7_0190, 1, Plain, Own, 7),
    Row(0x7_019c, 1, Plain, Own, 8),
];
