ghost use Rattle.std.specs.Prelude.{◌<◌};
ghost use Rattle.gv_text.specs.Report.{IsPrintable};

use crate::{BadLine, Guest, Known, Line, ReportLine, Values, line, print};
use gv_balloon::Given;
use gv_types::{EngineId, GuestId, Place, Reason, Width};
use std::process::Abort;

fn read_at(guest: u8, place: Place, width: Width, at: u64) -> Result<Line, BadLine> {
    Ok(Line::Read {
        guest,
        place,
        width,
        at,
    })
}

fn read(guest: u8, width: Width, at: u64) -> Result<Line, BadLine> {
    read_at(guest, Place::Memory, width, at)
}

fn write_at(
    guest: u8,
    place: Place,
    width: Width,
    at: u64,
    items: &[u64],
) -> Result<Line, BadLine> {
    let mut values = Values::new();
    for item in items {
        if values.len() < 16 {
            values.push(*item);
        }
    }
    Ok(Line::Write {
        guest,
        place,
        width,
        at,
        values,
    })
}

fn write(guest: u8, width: Width, at: u64, items: &[u64]) -> Result<Line, BadLine> {
    write_at(guest, Place::Memory, width, at, items)
}

fn guest(frames: u32, low: u32, high: u32) -> Result<Line, BadLine> {
    Ok(Line::Guest(Guest { frames, low, high }))
}

#[test]
fn lines_that_say_nothing(rt: HostRuntime) {
    assert_eq!(rt; line(b""), Ok(Line::Blank));
    assert_eq!(rt; line(b"#"), Ok(Line::Blank));
    assert_eq!(rt; line(b"# two  spaces, \t and \xff\x00 "), Ok(Line::Blank));
    assert_eq!(rt; line(&[b'#'; 256]), Ok(Line::Blank));
    assert_eq!(rt; line(b"end"), Ok(Line::End));
}

#[test]
fn guests(rt: HostRuntime) {
    assert_eq!(rt; line(b"guest 1 0 0"), guest(1, 0, 0));
    assert_eq!(rt; line(b"guest 1 ffff 0"), guest(1, 0xffff, 0));
    assert_eq!(rt;
        line(b"guest 4000 ffffffff 00000000ffffffff"),
        guest(0x4000, u32::MAX, u32::MAX)
    );
}

#[test]
fn reads(rt: HostRuntime) {
    assert_eq!(rt; line(b"r4 0 ffc"), read(0, Width::Four, 0xffc));
    assert_eq!(rt; line(b"r8 0 1000"), read(0, Width::Eight, 0x1000));
    assert_eq!(rt;
        line(b"r4 7 fffffffffffffffc"),
        read(7, Width::Four, 0xffff_ffff_ffff_fffc)
    );
    assert_eq!(rt;
        line(b"r8 0000000000000003 0000000000000008"),
        read(3, Width::Eight, 8)
    );
}

#[test]
fn writes(rt: HostRuntime) {
    assert_eq!(rt; line(b"w4 0 10 7"), write(0, Width::Four, 0x10, &[7]));
    assert_eq!(rt;
        line(b"w4 1 4 0 ffffffff"),
        write(1, Width::Four, 4, &[0, 0xffff_ffff])
    );
    assert_eq!(rt;
        line(b"w8 2 8 ffffffffffffffff"),
        write(2, Width::Eight, 8, &[u64::MAX])
    );
    assert_eq!(rt;
        line(b"w8 0 fffffffffffffff0 1 2"),
        write(0, Width::Eight, u64::MAX - 15, &[1, 2])
    );
    assert_eq!(rt;
        line(b"w4 0 0 1 2 3 4 5 6 7 8 9 a b c d e f 10"),
        write(
            0,
            Width::Four,
            0,
            &[1, 2, 3, 4, 5, 6, 7, 8, 9, 10, 11, 12, 13, 14, 15, 16]
        )
    );
}

#[test]
fn register_accesses(rt: HostRuntime) {
    let place = Place::Registers;
    assert_eq!(rt;
        line(b"i4 0 12030"),
        read_at(0, place, Width::Four, 0x1_2030)
    );
    assert_eq!(rt;
        line(b"i4 0 78818"),
        read_at(0, place, Width::Four, 0x7_8818)
    );
    assert_eq!(rt;
        line(b"i8 7 fffff8"),
        read_at(7, place, Width::Eight, 0xff_fff8)
    );
    assert_eq!(rt;
        line(b"o4 0 2234 1"),
        write_at(0, place, Width::Four, 0x2234, &[1])
    );
    assert_eq!(rt;
        line(b"o8 0 78810 1"),
        write_at(0, place, Width::Eight, 0x7_8810, &[1])
    );
    assert_eq!(rt;
        line(b"o4 0 fffff8 1 2"),
        write_at(0, place, Width::Four, 0xff_fff8, &[1, 2])
    );
    assert_eq!(rt;
        line(b"o8 2 fffff8 5001"),
        write_at(2, place, Width::Eight, 0xff_fff8, &[0x5001])
    );
}

/// Lines at every offset of the register range, submissions, turns, switches and moves.
const ACCEPTED: [&[u8]; 22] = [
    b"i4 0 0",
    b"i4 0 2230",
    b"i8 0 2370",
    b"i4 0 239c",
    b"i8 0 23a0",
    b"i4 0 267c",
    b"i4 0 222c",
    b"i8 0 12678",
    b"i4 0 1a3a0",
    b"o4 0 2230 1",
    b"o8 0 2228 1 2",
    b"o4 0 23a0 1",
    b"o4 0 78818 4",
    b"o8 0 78818 4",
    b"turn 0 1",
    b"turn 3 10000",
    b"switch 3",
    b"switch 0000000000000001",
    b"elsp 0 1 0 500000119",
    b"elsp 7 3 ffffffffffffffff 1",
    b"move 0 0",
    b"move 7 ffffffff",
];

#[test]
fn accepted_lines(rt: HostRuntime) {
    for text in ACCEPTED {
        assert!(rt; line(text).is_ok());
    }
}

#[test]
fn switches(rt: HostRuntime) {
    assert_eq!(rt; line(b"switch 0"), Ok(Line::Switch { engine: 0 }));
    assert_eq!(rt; line(b"switch 3"), Ok(Line::Switch { engine: 3 }));
}

#[test]
fn resets(rt: HostRuntime) {
    assert_eq!(rt; line(b"reset 0"), Ok(Line::Reset { guest: 0 }));
    assert_eq!(rt; line(b"reset 7"), Ok(Line::Reset { guest: 7 }));
}

#[test]
fn aperture_accesses(rt: HostRuntime) {
    let place = Place::Aperture;
    assert_eq!(rt; line(b"a4 0 4ff8"), read_at(0, place, Width::Four, 0x4ff8));
    assert_eq!(rt;
        line(b"a4 0 fffffffc"),
        read_at(0, place, Width::Four, 0xffff_fffc)
    );
    assert_eq!(rt;
        line(b"a8 0 fffffff8"),
        read_at(0, place, Width::Eight, 0xffff_fff8)
    );
    assert_eq!(rt; line(b"b4 3 0 6"), write_at(3, place, Width::Four, 0, &[6]));
    assert_eq!(rt;
        line(b"b4 0 fffffff8 1 2"),
        write_at(0, place, Width::Four, 0xffff_fff8, &[1, 2])
    );
    assert_eq!(rt;
        line(b"b8 0 fffffff0 1 2"),
        write_at(0, place, Width::Eight, 0xffff_fff0, &[1, 2])
    );
}

/// A line of 256 bytes, and the same with one more zero.
#[test]
fn the_longest_line(rt: HostRuntime) {
    let long =
        b"w4 0 0 0000000000000001 0000000000000001 0000000000000001 0000000000000001 0000000000000001 0000000000000001 0000000000000001 0000000000000001 0000000000000001 0000000000000001 0000000000000001 0000000000000001 0000000000000001 0000000000000001 000000000010";
    assert_eq!(rt; long.len(), 257);
    assert_eq!(rt; line(&long[..256]), write(0, Width::Four, 0, &[1; 15]));
    assert_eq!(rt; line(long), Err(BadLine));
    assert_eq!(rt; line(&[b'#'; 257]), Err(BadLine));
}

const REFUSED: [&[u8]; 79] = [
    b" ",
    b" #",
    b" end",
    b"end ",
    b"End",
    b"END",
    b"end end",
    b"end 0",
    b"\tend",
    b"end\r",
    b"guest 1  0 0",
    b"guest 1 0 0 ",
    b" guest 1 0 0",
    b"guest\t1 0 0",
    b"guest 1 0 0\r",
    b"guest 0 0 0",
    b"guest 4001 0 0",
    b"guest 1 100000000 0",
    b"guest 1 0 100000000",
    b"guest 1 0",
    b"guest 1 0 0 0",
    b"guest 1 F 0",
    b"guest 0x1 0 0",
    b"guest -1 0 0",
    b"guest 00000000000000001 0 0",
    b"r4 0 3",
    b"r8 0 4",
    b"r4 8 0",
    b"r4 0",
    b"r4 0 0 0",
    b"r4  0",
    b"r4 0 ",
    b"r4 0 g",
    b"r4 0 00000000000000000",
    b"r4 0 10000000000000000",
    b"w4 0 0",
    b"w4 0 0 100000000",
    b"w4 0 2 0",
    b"w8 0 4 0",
    b"w4 0 0 1 2 3 4 5 6 7 8 9 a b c d e f 10 11",
    b"w4 0 fffffffffffffffc 1 2",
    b"i4 0 2",
    b"i8 0 4",
    b"i4 8 0",
    b"i4 0 1000000",
    b"i4 0 0 1",
    b"o4 0 fffffc 1 2",
    b"o8 0 fffff8 1 2",
    b"o4 0 0 100000000",
    b"o4 0 0",
    b"a4 0 2",
    b"a8 0 4",
    b"a4 0 100000000",
    b"a4 0 0 0",
    b"b4 0 fffffffc 1 2",
    b"b8 0 fffffff8 1 2",
    b"b4 0 100000000 1",
    b"switch",
    b"switch 4",
    b"switch 1 0",
    b"switch  1",
    b"Switch 1",
    b"turn 4 1",
    b"turn 1 0",
    b"turn 1 10001",
    b"turn 1",
    b"turn 1 1 1",
    b"elsp 0 1 0",
    b"elsp 0 4 0 1",
    b"elsp 8 1 0 1",
    b"elsp 0 1 0 10000000000000000",
    b"elsp 0 1 0 1 2",
    b"move 0",
    b"move 8 1",
    b"move 0 100000000",
    b"reset",
    b"reset 8",
    b"reset  0",
    b"reset 0 0",
];

#[test]
fn refused_lines(rt: HostRuntime) {
    for text in REFUSED {
        assert_eq!(rt; line(text), Err(BadLine));
    }
}

#[test]
fn values_are_told_in_order(rt: HostRuntime) {
    let Ok(Line::Write { values, .. }) = line(b"w8 0 0 5 4 3") else {
        panic!(rt; "a line of writes");
    };
    assert_eq!(rt; values.as_slice(), [5, 4, 3].as_slice());
    assert_eq!(rt; values.len(), 3);
    assert!(rt; !values.is_empty());
}

/// What is known after a line that is accepted.
fn known_after(known: &Known, bytes: &[u8]) -> Option<Known> {
    let line = known.accepted(bytes)?;
    Some(known.after(&line))
}

#[test]
fn lines_in_their_order(rt: HostRuntime) {
    let guest = Known {
        guests: 1,
        frames: 1,
        sizes: [1, 0, 0, 0, 0, 0, 0, 0],
        given: Given {
            low: 0xffff,
            high: 0xec000,
        },
        begun: false,
    };
    let two = Known {
        guests: 2,
        frames: 0x4000,
        sizes: [1, 0x3fff, 0, 0, 0, 0, 0, 0],
        given: Given {
            low: 0x1_0000,
            high: 0xec000,
        },
        begun: false,
    };
    let begun = Known {
        begun: true,
        ..guest
    };
    let nothing = Known::NOTHING;
    assert_eq!(rt; known_after(&nothing, b"guest 1 ffff ec000"), Some(guest));
    assert_eq!(rt; known_after(&nothing, b"a4 0 0"), None);
    assert_eq!(rt; known_after(&guest, b"guest 3fff 1 0"), Some(two));
    assert_eq!(rt; known_after(&guest, b"guest 4000 1 0"), None);
    assert_eq!(rt; known_after(&guest, b"guest 1 2 0"), None);
    assert_eq!(rt; known_after(&guest, b"guest 1 0 1"), None);
    assert_eq!(rt; known_after(&guest, b"a4 0 0"), Some(begun));
    assert_eq!(rt; known_after(&guest, b"o4 0 800000 1"), Some(begun));
    assert_eq!(rt; known_after(&guest, b"reset 0"), Some(begun));
    assert_eq!(rt; known_after(&guest, b"reset 1"), None);
    assert_eq!(rt; known_after(&guest, b"switch 3"), Some(begun));
    assert_eq!(rt; known_after(&nothing, b"switch 0"), None);
    assert_eq!(rt; known_after(&guest, b"a4 1 0"), None);
    assert_eq!(rt; known_after(&begun, b"guest 1 0 0"), None);
}

fn access(guest: u8, place: Place, width: Width, at: u64, value: u64) -> ReportLine
    requires { guest < 8 }
    ensures { IsPrintable result }
{
    ReportLine::Read {
        guest: GuestId(guest),
        place,
        width,
        at,
        value,
    }
}

fn printed(rt: &impl Abort, line: ReportLine, expected: &[u8])
    requires { IsPrintable line }
{
    assert_eq!(rt; print(&line).bytes(), expected);
}

#[test]
fn printed_reads(rt: HostRuntime) {
    printed(
        &rt,
        access(0, Place::Memory, Width::Four, 0xffc, 0),
        b"0 r4 ffc 0\n",
    );
    printed(
        &rt,
        access(7, Place::Memory, Width::Eight, u64::MAX - 7, u64::MAX),
        b"7 r8 fffffffffffffff8 ffffffffffffffff\n",
    );
    printed(
        &rt,
        access(1, Place::Registers, Width::Four, 0x7800c, 2),
        b"1 i4 7800c 2\n",
    );
    printed(
        &rt,
        access(0, Place::Registers, Width::Eight, 0x22378, 0x5_0000_0018),
        b"0 i8 22378 500000018\n",
    );
    printed(
        &rt,
        access(0, Place::Aperture, Width::Four, 0x4ff8, 6),
        b"0 a4 4ff8 6\n",
    );
    printed(
        &rt,
        access(0, Place::Aperture, Width::Eight, 0, 0x55),
        b"0 a8 0 55\n",
    );
}

#[test]
fn printed_events(rt: HostRuntime) {
    let guest = GuestId(0);
    printed(
        &rt,
        ReportLine::Irq {
            guest,
            value: 0x101_0000,
        },
        b"0 irq 1010000\n",
    );
    printed(
        &rt,
        ReportLine::Failsafe {
            guest,
            reason: Reason::Command,
        },
        b"0 failsafe command\n",
    );
    printed(
        &rt,
        ReportLine::Failsafe {
            guest,
            reason: Reason::Range,
        },
        b"0 failsafe range\n",
    );
    printed(
        &rt,
        ReportLine::Failsafe {
            guest,
            reason: Reason::Context,
        },
        b"0 failsafe context\n",
    );
    printed(
        &rt,
        ReportLine::Failsafe {
            guest,
            reason: Reason::Size,
        },
        b"0 failsafe size\n",
    );
    printed(
        &rt,
        ReportLine::Failsafe {
            guest,
            reason: Reason::Entry,
        },
        b"0 failsafe entry\n",
    );
    printed(
        &rt,
        ReportLine::Move {
            guest,
            frame: 12,
            moved: true,
        },
        b"0 move c moved\n",
    );
    printed(
        &rt,
        ReportLine::Move {
            guest,
            frame: 0x201,
            moved: false,
        },
        b"0 move 201 kept\n",
    );
    printed(&rt, ReportLine::Reset { guest }, b"0 reset\n");
    printed(
        &rt,
        ReportLine::Memory {
            guest,
            at: 0x10,
            value: 7,
        },
        b"0 mem 10 7\n",
    );
}

#[test]
fn printed_turns(rt: HostRuntime) {
    let engine = EngineId(1);
    printed(
        &rt,
        ReportLine::Turn {
            guest: GuestId(0),
            engine,
            counts: [0, 0, 2, 2, 0, 1],
        },
        b"0 turn 1 0 0 2 2 0 1\n",
    );
    printed(
        &rt,
        ReportLine::Turn {
            guest: GuestId(7),
            engine: EngineId(3),
            counts: [u32::MAX; 6],
        },
        b"7 turn 3 ffffffff ffffffff ffffffff ffffffff ffffffff ffffffff\n",
    );
    printed(
        &rt,
        ReportLine::Rota {
            engine,
            guest: GuestId(2),
        },
        b"rota 1 2\n",
    );
}

#[test]
fn printed_endings(rt: HostRuntime) {
    printed(&rt, ReportLine::Done, b"done\n");
    printed(&rt, ReportLine::Refused(9), b"refused 9\n");
    printed(&rt, ReportLine::TooLong, b"too long\n");
    printed(&rt, ReportLine::Lines(0xc9e), b"lines c9e\n");
    printed(&rt, ReportLine::Bytes(0xcd9b), b"bytes cd9b\n");
    printed(
        &rt,
        ReportLine::Fold(0xa413_2724_843a_d2cc),
        b"fold a4132724843ad2cc\n",
    );
}
