use gv_types::EngineId;

/// Which part of the device serves a register. A number counts the dwords of the status pairs
/// (twelve) or of the general registers (32).
#[derive(Clone, Copy, Debug, PartialEq, Eq)]
pub enum Target {
    /// The register file itself.
    Own,
    Elsp(EngineId),
    Status(EngineId, u8),
    StatusPointer(EngineId),
    General(EngineId, u8),
    Interrupts,
    EngineReset,
    /// The register of the PVINFO page that announces and forgets roots.
    Notify,
    /// There is no register.
    Absent,
}

/// What a read finds: the value of a register that is kept here, of a constant, of an acknowledged request or of
/// an absent offset, which reads 0; or the part of the device that serves the register and is to be read.
#[derive(Clone, Copy, Debug, PartialEq, Eq)]
pub enum Lookup {
    Value(u32),
    Goes(Target),
}

/// What became of a write: the register file kept it, it did nothing, or it goes to the part of the
/// device that serves the register.
#[derive(Clone, Copy, Debug, PartialEq, Eq)]
pub enum Effect {
    Kept,
    Nothing,
    Goes(Target),
}
