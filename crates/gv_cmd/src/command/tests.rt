use crate::{Blit, Kind, PostWrite, Stands, allowed, decode, length};
use std::process::Abort;

/// The dwords are one listed command, with these fields.
fn listed(rt: &impl Abort, words: &[u32], kind: Kind) {
    let Ok((command, dwords)) = decode(words) else {
        panic!(rt; "unlisted");
    };
    assert_eq!(rt; dwords, words.len());
    assert!(rt; command.words() == words);
    assert!(rt; command.kind() == kind);
}

fn unlisted(rt: &impl Abort, words: &[u32]) {
    assert!(rt; decode(words).is_err());
}

#[test]
fn rows_without_memory(rt: HostRuntime) {
    listed(&rt, &[0x007f_ffff], Kind::Noop);
    listed(&rt, &[0x0100_0000], Kind::UserInterrupt);
    listed(&rt, &[0x0280_0000], Kind::ArbCheck);
    listed(&rt, &[0x0400_0001], Kind::ArbOnOff);
    listed(&rt, &[0x0500_0000], Kind::BatchEnd);
    listed(
        &rt,
        &[0x1100_0001, 0x22600, 5],
        Kind::LoadRegisters { pairs: 1 },
    );
    let moved = Kind::MoveRegister {
        from: 0x22600,
        to: 0x2260c,
    };
    listed(&rt, &[0x1500_0001, 0xff82_2603, 0x2260d], moved);
    let start = Kind::BatchStart {
        live: true,
        second: true,
        at: 0x1_0000_4000,
    };
    listed(&rt, &[0x18c0_0101, 0x4003, 0x7_0001], start);
}

#[test]
fn rows_with_memory(rt: HostRuntime) {
    let wait = Kind::SemaphoreWait {
        global: true,
        compare: 4,
        operand: 1,
        at: 0x2800,
    };
    listed(&rt, &[0x0e40_c002, 1, 0x2800, 0], wait);
    let one = Kind::Store {
        global: true,
        at: 0x2800,
        low: 0x11,
        high: None,
    };
    listed(&rt, &[0x1040_0002, 0x2800, 0, 0x11], one);
    let two = Kind::Store {
        global: false,
        at: 0x12_0000_1004,
        low: 0x11,
        high: Some(0x22),
    };
    listed(&rt, &[0x1020_0003, 0x1007, 0xabcd_0012, 0x11, 0x22], two);
    let stored = Kind::StoreRegister {
        global: true,
        register: 0x22600,
        at: 0x1000,
    };
    listed(&rt, &[0x1240_0002, 0x22600, 0x1000, 0], stored);
    let loaded = Kind::LoadRegister {
        global: false,
        register: 0x22604,
        at: 0x1004,
    };
    listed(&rt, &[0x1480_0002, 0x22604, 0x1004, 0], loaded);
    let copied = Kind::CopyMemory {
        from_global: false,
        from: 0x5000,
        to_global: true,
        to: 0x4000,
    };
    listed(&rt, &[0x1720_0003, 0x4000, 0, 0x5000, 0], copied);
}

#[test]
fn rows_that_write_when_done(rt: HostRuntime) {
    listed(
        &rt,
        &[0x1300_0002, 0x3104, 0, 1],
        Kind::Flush { write: None },
    );
    let write = PostWrite {
        global: true,
        at: 0x3100,
        low: 0x2a,
        high: None,
    };
    listed(
        &rt,
        &[0x1300_4002, 0x3104, 0, 0x2a],
        Kind::Flush { write: Some(write) },
    );
    let both = PostWrite {
        global: false,
        high: Some(0x2b),
        ..write
    };
    listed(
        &rt,
        &[0x1300_4003, 0x3103, 0, 0x2a, 0x2b],
        Kind::Flush { write: Some(both) },
    );
    let done = Kind::PipeControl {
        notify: true,
        write: Some(PostWrite {
            global: true,
            ..both
        }),
    };
    listed(
        &rt,
        &[0x7a00_0004, 0x0100_4100, 0x3107, 0, 0x2a, 0x2b],
        done,
    );
    let none = Kind::PipeControl {
        notify: false,
        write: None,
    };
    listed(
        &rt,
        &[0x7a00_0004, 0x0100_0000, 0x3107, 0, 0x2a, 0x2b],
        none,
    );
}

const COLOUR: [u32; 7] = [
    0x5430_0005,
    0x03f0_0010,
    1,
    0x2_0002,
    0x1000,
    0,
    0xabcd_1234,
];

const COPY: [u32; 10] = [
    0x54c0_0008,
    0x00cc_0010,
    0,
    0x1_0008,
    0x1004,
    0,
    0x3_0005,
    0x20,
    0x1001,
    1,
];

#[test]
fn blits_have_their_fields(rt: HostRuntime) {
    let colour = Blit {
        bytes: 4,
        to: 0x1000,
        to_pitch: 16,
        x1: 1,
        y1: 0,
        x2: 2,
        y2: 2,
        colour: 0xabcd_1234,
        from: 0,
        from_pitch: 0,
        from_x: 0,
        from_y: 0,
    };
    listed(&rt, &COLOUR, Kind::ColourBlit(colour));
    let copy = Blit {
        bytes: 1,
        to: 0x1004,
        to_pitch: 16,
        x1: 0,
        y1: 0,
        x2: 8,
        y2: 1,
        colour: 0,
        from: 0x1_0000_1001,
        from_pitch: 0x20,
        from_x: 5,
        from_y: 3,
    };
    listed(&rt, &COPY, Kind::CopyBlit(copy));
}

/// One dword after the other in place of one of the blit's makes it unlisted.
fn spoilt(rt: &impl Abort, blit: &[u32], place: usize, value: u32) {
    let mut words = [0; 10];
    let words = &mut words[..blit.len().min(10)];
    for (to, from) in words.iter_mut().zip(blit) {
        *to = *from;
    }
    if let Some(word) = words.get_mut(place) {
        *word = value;
    }
    unlisted(rt, words);
}

#[test]
fn blits_are_unlisted(rt: HostRuntime) {
    for (place, value) in [
        (0, 0x5430_0004),
        (0, 0x5430_8005),
        (0, 0x5430_0805),
        (0, 0x5410_0005),
        (0, 0x5420_0005),
        (1, 0x03cc_0010),
        (1, 0x02f0_0010),
        (1, 0x43f0_0010),
        (1, 0x03f0_8000),
        (2, 0x1001),
        (2, 0x1001_0000),
        (3, 0x1001),
        (3, 0x1001_0000),
    ] {
        spoilt(&rt, &COLOUR, place, value);
    }
    for (place, value) in [
        (0, 0x54c0_0009),
        (1, 0x00f0_0010),
        (6, 0x1001),
        (6, 0x1001_0000),
        (7, 0x8000),
    ] {
        spoilt(&rt, &COPY, place, value);
    }
}

#[test]
fn other_dwords_are_unlisted(rt: HostRuntime) {
    unlisted(&rt, &[]);
    unlisted(&rt, &[0x1040_0002, 0x2800]);
    assert_eq!(rt; length(0x1040_0002), Some(4));
    for header in [
        0x7b00_0005,
        0x7a00_0204,
        0x2000_0000,
        0x0080_0000,
        0x0e40_4002,
        0x0e40_e002,
        0x1020_0002,
        0x1000_0003,
        0x1000_0082,
        0x1100_0002,
        0x1100_0041,
        0x1300_8002,
        0x1320_4002,
        0x1300_4001,
        0x1880_0102,
    ] {
        assert_eq!(rt; length(header), None);
        unlisted(&rt, &[header, 0, 0, 0, 0, 0]);
    }
    unlisted(&rt, &[0x7a00_0004, 0x8000, 0, 0, 0, 0]);
    unlisted(&rt, &[0x7a00_0004, 0x20_0000, 0, 0, 0, 0]);
}

#[test]
fn pairs_shapes_and_places(rt: HostRuntime) {
    let Ok((command, 5)) = decode(&[0x1100_0003, 0x22601, 5, 0xff82_2604, 6, 0x0500_0000]) else {
        panic!(rt; "unlisted");
    };
    assert_eq!(rt; command.words().len(), 5);
    assert!(rt; command.pair(0) == (0x22600, 5));
    assert!(rt; command.pair(1) == (0x22604, 6));
    assert!(rt; command.shape() == command);
    let Ok((start, 3)) = decode(&[0x1880_0001, 0x4000, 7]) else {
        panic!(rt; "unlisted");
    };
    assert!(rt; start.shape().words() == [0x1880_0001, 0, 0].as_slice());
    assert!(rt; allowed(&start, Stands::Ring, 1));
    assert!(rt; !allowed(&start, Stands::Live, 1));
}
