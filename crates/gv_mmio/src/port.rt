ghost use Rattle.std.specs.Prelude.{◌≡◌, ◌+◌, ◌*◌, ◌^◌, ◌≤◌, take};
ghost use Rattle.gv_mmio.specs.Port.{counted_writes, port_after, submission_in};

use std::marker::Model;

/// A list that is submitted, by the context descriptors of its two elements. The second may be invalid.
#[derive(Clone, Copy, Debug, PartialEq, Eq)]
pub struct Submission {
    pub first: u64,
    pub second: u64,
}

/// The execlist submit port (ELSP) of an engine: the dwords of a submission that is half made, in their order. It
/// takes four: high and low dword of element 1, then of element 0.
#[derive(Clone, Copy, Debug, PartialEq, Eq)]
pub enum Port {
    Empty,
    One(u32),
    Two(u32, u32),
    Three(u32, u32, u32),
}

impl Port {
    ghost use Rattle.gv_mmio.specs.Port.{writes_of};

    /// The port that took the first so many of these dwords, at most three.
    pub fn of(dwords: [u32; 3], count: u8) -> Port
        requires { count ≤ 3 }
        ensures { writes_of result ≡ take count dwords }
    {
        let [first, second, third] = dwords;
        match count {
            0 => Port::Empty,
            1 => Port::One(first),
            2 => Port::Two(first, second),
            _ => Port::Three(first, second, third),
        }
    }

    /// The dwords that it took, filled up with 0, and how many they are.
    pub fn dwords(&self) -> ([u32; 3], u8)
        ensures { result ≡ counted_writes (writes_of self.now) }
    {
        match *self {
            Port::Empty => ([0, 0, 0], 0),
            Port::One(first) => ([first, 0, 0], 1),
            Port::Two(first, second) => ([first, second, 0], 2),
            Port::Three(first, second, third) => ([first, second, third], 3),
        }
    }

    /// Takes a dword. The fourth makes the submission, and the port is empty then.
    pub fn write(&mut self, value: u32) -> Option<Submission>
        ensures after { writes_of self.new ≡ port_after (writes_of self.old) value }
        ensures submission { result ≡ submission_in (writes_of self.old) value }
    {
        match *self {
            Port::Empty => {
                *self = Port::One(value);
                None
            }
            Port::One(first) => {
                *self = Port::Two(first, value);
                None
            }
            Port::Two(first, second) => {
                *self = Port::Three(first, second, value);
                None
            }
            Port::Three(high, low, front_high) => {
                *self = Port::Empty;
                Some(Submission {
                    first: joined(front_high, value),
                    second: joined(high, low),
                })
            }
        }
    }
}

// A quadword from its halves.
fn joined(high: u32, low: u32) -> u64
    ensures { result ≡ high * 2 ^ 32 + low }
{
    u64::from(high) * 0x1_0000_0000 + u64::from(low)
}
