use crate::Blit;

/// What a FLUSH_DW or a PIPE_CONTROL writes when it is done: one dword or two, at a multiple of 8.
#[derive(Clone, Copy, Debug, PartialEq, Eq)]
pub struct PostWrite {
    pub global: bool,
    pub at: u64,
    pub low: u32,
    pub high: Option<u32>,
}

/// A command with its fields. `global` is the global space, else the per-process one; `at`, `from`
/// and `to` are byte addresses in it. Registers are byte offsets.
#[derive(Clone, Copy, Debug, PartialEq, Eq)]
pub enum Kind {
    Noop,
    UserInterrupt,
    ArbCheck,
    ArbOnOff,
    BatchEnd,
    SemaphoreWait {
        global: bool,
        compare: u8,
        operand: u32,
        at: u64,
    },
    Store {
        global: bool,
        at: u64,
        low: u32,
        high: Option<u32>,
    },
    LoadRegisters {
        pairs: u8,
    },
    StoreRegister {
        global: bool,
        register: u32,
        at: u64,
    },
    LoadRegister {
        global: bool,
        register: u32,
        at: u64,
    },
    MoveRegister {
        from: u32,
        to: u32,
    },
    CopyMemory {
        from_global: bool,
        from: u64,
        to_global: bool,
        to: u64,
    },
    Flush {
        write: Option<PostWrite>,
    },
    PipeControl {
        notify: bool,
        write: Option<PostWrite>,
    },
    BatchStart {
        live: bool,
        second: bool,
        at: u64,
    },
    ColourBlit(Blit),
    CopyBlit(Blit),
}
