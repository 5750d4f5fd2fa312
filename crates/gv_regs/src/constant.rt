ghost use Rattle.std.specs.Prelude.{◌≡◌, ◌+◌, ◌≤◌};
ghost use Rattle.gv_regs.specs.Registers.{base_of};

use gv_types::{GuestId, PAGE_BYTES, Ranges, Span};

/// What a constant register reads: a number, the guest's number plus 1, or base or size of one of
/// its ranges in bytes.
#[derive(Clone, Copy, Debug, PartialEq, Eq)]
pub enum Constant {
    Number(u32),
    GuestNumber,
    LowBase,
    LowSize,
    HighBase,
    HighSize,
}

impl Constant {
    ghost use Rattle.gv_regs.specs.Registers.{value_of, AreRanges};

    pub fn value(self, guest: GuestId, ranges: &Ranges) -> u32
        requires { AreRanges ranges.now }
        ensures { result ≡ value_of guest.0 ranges.now self }
    {
        match self {
            Constant::Number(number) => number,
            Constant::GuestNumber => u32::from(guest.0) + 1,
            Constant::LowBase => base(&ranges.low),
            Constant::LowSize => ranges.low.pages * PAGE_BYTES as u32,
            Constant::HighBase => base(&ranges.high),
            Constant::HighSize => ranges.high.pages * PAGE_BYTES as u32,
        }
    }
}

fn base(span: &Span) -> u32
    requires { span.now.first + span.now.pages ≤ 1032192 }
    ensures { result ≡ base_of span.now }
{
    if span.pages == 0 {
        0
    } else {
        span.first * PAGE_BYTES as u32
    }
}
