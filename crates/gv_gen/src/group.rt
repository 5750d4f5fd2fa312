ghost use Rattle.std.specs.Prelude.{◌≡◌, ◌≢◌, ◌<◌, ◌≤◌, [], ◌∷◌, length, slice_get, OnSome, IsSome};
ghost use Rattle.gv_gen.specs.Script.{guest_lines, set_up_lines, lines_by, submit_lines, group_lines};

use crate::draw::{Draw, Kind};
use gv_text::{Guest, Line, Values};
use gv_types::{Place, Width};

/// The blitter engine (BCS).
const BLITTER: u8 = 1;

/// Lines that belong together.
#[derive(Clone, Copy, Debug, PartialEq, Eq)]
pub(crate) enum Group {
    Guests,
    SetUp(u8),
    Round(Draw),
    End,
}

impl Group {
    /// The line at an index, or nothing behind the last one.
    pub fn line(&self, index: u8) -> Option<Line>
        ensures line { result ≡ slice_get (group_lines self.now) index }
        ensures few { OnSome result (index < 9) }
        ensures some { index ≡ 0 → IsSome result }
    {
        match self {
            Group::Guests => guest_line(index),
            Group::SetUp(guest) => set_up_line(*guest, index),
            Group::Round(draw) => round_line(draw, index),
            Group::End => match index {
                0 => Some(Line::End),
                _ => None,
            },
        }
    }
}

fn guest_line(index: u8) -> Option<Line>
    ensures { result ≡ slice_get guest_lines index }
{
    if index < 2 {
        Some(Line::Guest(Guest {
            frames: 0x20,
            low: 0x10,
            high: 0,
        }))
    } else {
        None
    }
}

/// Writes of a guest's memory.
fn memory(guest: u8, width: Width, at: u64, values: &[u64]) -> Line
    requires { length values.now ≤ 16 }
    ensures { result ≡ Line.Write guest Place.Memory width at values.now }
{
    Line::Write {
        guest,
        place: Place::Memory,
        width,
        at,
        values: Values::from_slice(values),
    }
}

/// Writes of a guest's register range.
fn registers(guest: u8, width: Width, at: u64, values: &[u64]) -> Line
    requires { length values.now ≤ 16 }
    ensures { result ≡ Line.Write guest Place.Registers width at values.now }
{
    Line::Write {
        guest,
        place: Place::Registers,
        width,
        at,
        values: Values::from_slice(values),
    }
}

fn set_up_line(guest: u8, index: u8) -> Option<Line>
    ensures { result ≡ slice_get (set_up_lines guest) index }
{
    let number = u64::from(guest);
    let pages = [1, 0x1001, 0x2001, 0x3001, 0x4001];
    Some(match index {
        0 => registers(guest, Width::Eight, 0x80_0000 + 0x80 * number, &pages),
        1 => registers(guest, Width::Four, 0x2_2080, &[0x3000 + 0x1_0000 * number]),
        2 => memory(guest, Width::Four, 0x1024, &[0x2000 + 0x1_0000 * number]),
        3 => memory(guest, Width::Four, 0x102c, &[1]),
        4 => memory(guest, Width::Four, 0x10cc, &[0x8000]),
        5 => memory(guest, Width::Eight, 0x8000, &[0x9003]),
        6 => memory(guest, Width::Eight, 0x9000, &[0xa003]),
        7 => memory(guest, Width::Eight, 0xa000, &[0xb003]),
        8 => memory(guest, Width::Eight, 0xb000, &[0xc003, 0xd003, 0xe003]),
        _ => return None,
    })
}

fn round_line(draw: &Draw, index: u8) -> Option<Line>
    ensures { result ≡ slice_get (lines_by draw.now.kind draw.now.guest draw.now.value) index }
{
    if draw.kind == Kind::Submit {
        submit_line(draw.guest, draw.value, index)
    } else if index == 0 {
        Some(lone_line(draw))
    } else {
        None
    }
}

/// The line of a round that has one.
fn lone_line(draw: &Draw) -> Line
    requires { draw.now.kind ≢ Kind.Submit }
    ensures { lines_by draw.now.kind draw.now.guest draw.now.value ≡ result ∷ [] }
{
    let Draw { kind, guest, value } = *draw;
    let number = u64::from(value);
    let dword = 0xd000 + 4 * (number % 1024);
    match kind {
        Kind::Store => memory(guest, Width::Four, dword, &[number]),
        Kind::Load => Line::Read {
            guest,
            place: Place::Memory,
            width: Width::Four,
            at: dword,
        },
        Kind::Submit => unreachable!(),
        Kind::Turns => Line::Turn {
            engine: BLITTER,
            count: 1 + value % 64,
        },
        Kind::Switch => Line::Switch { engine: BLITTER },
        Kind::Map => {
            let entry = 0x1000 * (12 + number % 4) + 3;
            memory(guest, Width::Eight, 0xb000 + 8 * (number % 3), &[entry])
        }
        Kind::Pointer => Line::Read {
            guest,
            place: Place::Registers,
            width: Width::Four,
            at: 0x2_23a0,
        },
        Kind::Move => Line::Move {
            guest,
            frame: 12 + value % 4,
        },
    }
}

/// A store of a value is put into the ring, and the context submitted.
fn submit_line(guest: u8, value: u32, index: u8) -> Option<Line>
    ensures { result ≡ slice_get (submit_lines guest value) index }
{
    let number = u64::from(value);
    let operand = 0x1000 + 4 * (number % 1024);
    Some(match index {
        0 => memory(
            guest,
            Width::Four,
            0x2000,
            &[0x1000_0002, operand, 0, number],
        ),
        1 => memory(guest, Width::Four, 0x1014, &[0]),
        2 => memory(guest, Width::Four, 0x101c, &[0x10]),
        3 => Line::Elsp {
            guest,
            engine: BLITTER,
            second: 0,
            first: 0x5_0000_0119 + 0x1_0001_0000 * u64::from(guest),
        },
        _ => return None,
    })
}
