use crate::Values;
use gv_types::{Place, Want, Width};
use std::error::Error;
use std::fmt;

/// A `guest` line: frames of memory, and pages of the low and of the high part of the global table.
#[derive(Clone, Copy, Debug, PartialEq, Eq)]
pub struct Guest {
    pub frames: u32,
    pub low: u32,
    pub high: u32,
}

impl Guest {
    ghost use Rattle.std.specs.Prelude.{◌≡◌};
    ghost use Rattle.gv_text.specs.Script.{want_of};

    /// The pages that it asks for.
    pub fn want(&self) -> Want
        ensures { result ≡ want_of self.now }
    {
        Want {
            low: self.low,
            high: self.high,
        }
    }
}

/// What a line of a script says.
#[derive(Debug, PartialEq, Eq, Drop)]
pub enum Line {
    /// An empty line, or one that begins with `#`.
    Blank,
    /// `guest F L H`
    Guest(Guest),
    /// `r4 G A` (memory), `i4 G O` (the register range), `a4 G A` (the aperture), and with 8 the same
    /// of eight bytes: the address or offset is a multiple of the access's bytes.
    Read {
        guest: u8,
        place: Place,
        width: Width,
        at: u64,
    },
    /// `w4 G A V ..` (memory), `o4 G O V ..` (the register range), `b4 G A V ..` (the aperture), and
    /// with 8 the same of eight bytes: the first value is written at the address or offset, each
    /// further one behind the one before.
    Write {
        guest: u8,
        place: Place,
        width: Width,
        at: u64,
        values: Values,
    },
    /// `elsp G E X Y`: the context descriptors of a submission, of its second element and of its first.
    Elsp {
        guest: u8,
        engine: u8,
        second: u64,
        first: u64,
    },
    /// `turn E N`: so many turns of an engine, 1 to 65,536.
    Turn {
        engine: u8,
        count: u32,
    },
    /// `switch E`: the engine goes to the next guest that has work on it.
    Switch {
        engine: u8,
    },
    /// `move G F`
    Move {
        guest: u8,
        frame: u32,
    },
    /// `reset G`
    Reset {
        guest: u8,
    },
    /// `end`
    End,
}

impl Line {
    ghost use Rattle.std.specs.Prelude.{◌≡◌};
    ghost use Rattle.gv_text.specs.Script.{is_end};

    /// Whether it is the line `end`.
    pub fn is_end(&self) -> bool
        ensures { result ≡ is_end self.now }
    {
        matches!(self, Line::End)
    }
}

/// The bytes aren't a line of a script.
#[derive(Clone, Copy, Debug, PartialEq, Eq)]
pub struct BadLine;

impl fmt::Display for BadLine {
    fn fmt<W: fmt::Write>(&self, f: &mut fmt::Formatter<W>) -> fmt::Result {
        write!(f, "the bytes are no line of a script")
    }
}

impl Error for BadLine {}
