use gv_types::{EngineId, GuestId, Place, Reason, Width};

/// A line of a report: what a read gave, the interrupt request (IIR) after an interrupt was injected,
/// why a guest entered failsafe, the turns of an engine, its new owner, whether a page moved, a
/// function reset, a word of memory at the end, and how the report ends. `Lines`, `Bytes` and `Fold`
/// sum a whole report up.
#[derive(Clone, Copy, Debug, PartialEq, Eq)]
pub enum ReportLine {
    Read {
        guest: GuestId,
        place: Place,
        width: Width,
        at: u64,
        value: u64,
    },
    Irq {
        guest: GuestId,
        value: u32,
    },
    Failsafe {
        guest: GuestId,
        reason: Reason,
    },
    Turn {
        guest: GuestId,
        engine: EngineId,
        /// How many turns ran, waited, ended, loaded, failed and were idle, in this order.
        counts: [u32; 6],
    },
    Rota {
        engine: EngineId,
        guest: GuestId,
    },
    Move {
        guest: GuestId,
        frame: u32,
        moved: bool,
    },
    Reset {
        guest: GuestId,
    },
    Memory {
        guest: GuestId,
        at: u64,
        value: u64,
    },
    Done,
    /// The number of the line that was refused, from 1.
    Refused(u64),
    TooLong,
    Lines(u64),
    Bytes(u64),
    Fold(u64),
}
