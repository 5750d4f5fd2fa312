ghost use Rattle.std.specs.Prelude.{◌≡◌};

use crate::{EngineId, GuestId};

/// How many bytes an access has.
#[derive(Clone, Copy, Debug, PartialEq, Eq)]
pub enum Width {
    Four,
    Eight,
}

impl Width {
    ghost use Rattle.gv_types.specs.Memory.{bytes_of, all_ones};

    /// The number of bytes.
    pub fn bytes(self) -> u64
        ensures { result ≡ bytes_of self }
    {
        match self {
            Width::Four => 4,
            Width::Eight => 8,
        }
    }

    /// The value that has each of its bits set: what a read outside memory gives.
    pub fn all_ones(self) -> u64
        ensures { result ≡ all_ones self }
    {
        match self {
            Width::Four => u64::from(u32::MAX),
            Width::Eight => u64::MAX,
        }
    }
}

/// What an access goes to: guest memory, the register range (registers, the PVINFO page and the
/// global table), or the aperture.
#[derive(Clone, Copy, Debug, PartialEq, Eq)]
pub enum Place {
    Memory,
    Registers,
    Aperture,
}

/// One atomic step: an access of a guest, a turn of an engine, a switch of an engine's owner, the
/// move of a frame to another host page, or a function reset. Addresses and offsets are in bytes.
#[derive(Clone, Copy, Debug, PartialEq, Eq)]
pub enum Event {
    Read {
        guest: GuestId,
        place: Place,
        width: Width,
        at: u64,
    },
    Write {
        guest: GuestId,
        place: Place,
        width: Width,
        at: u64,
        value: u64,
    },
    Turn {
        engine: EngineId,
    },
    Switch {
        engine: EngineId,
    },
    Move {
        guest: GuestId,
        frame: u32,
    },
    Reset {
        guest: GuestId,
    },
}
