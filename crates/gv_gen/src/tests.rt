//! Lines against those that were worked out by hand, or by another program, from the number.
use crate::Script;
use gv_text::{Line, line};
use gv_types::{Place, Width};
use std::test::Fail;

fn is_line(found: Option<Line>, text: &[u8]) -> bool {
    match line(text) {
        Ok(line) => found == Some(line),
        Err(_) => false,
    }
}

#[test]
fn a_script_begins_with_the_set_up(rt: HostRuntime) -> Result<(), Fail> {
    let mut script = Script::new(1);
    for text in [
        b"guest 20 10 0".as_slice(),
        b"guest 20 10 0".as_slice(),
        b"o8 0 800000 1 1001 2001 3001 4001".as_slice(),
        b"o4 0 22080 3000".as_slice(),
        b"w4 0 1024 2000".as_slice(),
        b"w4 0 102c 1".as_slice(),
        b"w4 0 10cc 8000".as_slice(),
        b"w8 0 8000 9003".as_slice(),
        b"w8 0 9000 a003".as_slice(),
        b"w8 0 a000 b003".as_slice(),
        b"w8 0 b000 c003 d003 e003".as_slice(),
        b"o8 1 800080 1 1001 2001 3001 4001".as_slice(),
        b"o4 1 22080 13000".as_slice(),
        b"w4 1 1024 12000".as_slice(),
        b"w4 1 102c 1".as_slice(),
        b"w4 1 10cc 8000".as_slice(),
        b"w8 1 8000 9003".as_slice(),
        b"w8 1 9000 a003".as_slice(),
        b"w8 1 a000 b003".as_slice(),
        b"w8 1 b000 c003 d003 e003".as_slice(),
    ] {
        assert_eq!(rt; is_line(script.next(), text), true);
    }
    Ok(())
}

fn pointer(guest: u8) -> Line {
    Line::Read {
        guest,
        place: Place::Registers,
        width: Width::Four,
        at: 0x2_23a0,
    }
}

fn elsp(guest: u8, first: u64) -> Line {
    Line::Elsp {
        guest,
        engine: 1,
        second: 0,
        first,
    }
}

#[test]
fn the_rounds_of_one(rt: HostRuntime) -> Result<(), Fail> {
    let mut script = Script::new(1);
    for _ in 0..20 {
        assert_eq!(rt; script.next().is_some(), true);
    }
    assert_eq!(rt; script.next(), Some(pointer(1)));
    assert_eq!(rt; script.next(), Some(pointer(0)));
    assert_eq!(rt;
        is_line(script.next(), b"w4 0 2000 10000002 14a4 0 6b7c2529"),
        true
    );
    assert_eq!(rt; is_line(script.next(), b"w4 0 1014 0"), true);
    assert_eq!(rt; is_line(script.next(), b"w4 0 101c 10"), true);
    assert_eq!(rt; script.next(), Some(elsp(0, 0x5_0000_0119)));
    assert_eq!(rt;
        is_line(script.next(), b"w4 1 2000 10000002 13c8 0 4493b4f2"),
        true
    );
    assert_eq!(rt; is_line(script.next(), b"w4 1 1014 0"), true);
    assert_eq!(rt; is_line(script.next(), b"w4 1 101c 10"), true);
    assert_eq!(rt; script.next(), Some(elsp(1, 0x6_0001_0119)));
    for _ in 0..3 {
        assert_eq!(rt; script.next(), Some(Line::Switch { engine: 1 }));
    }
    assert_eq!(rt; is_line(script.next(), b"w8 0 b000 e003"), true);
    assert_eq!(rt; is_line(script.next(), b"w8 0 b000 c003"), true);
    assert_eq!(rt; is_line(script.next(), b"w4 1 de80 71a717a0"), true);
    assert_eq!(rt;
        script.next(),
        Some(Line::Move {
            guest: 0,
            frame: 12
        })
    );
    Ok(())
}

#[test]
fn a_script_has_its_rounds_and_ends(rt: HostRuntime) -> Result<(), Fail> {
    for (number, count) in [(0, 5_725), (1, 5_740), (u32::MAX, 5_743)] {
        let mut script = Script::new(number);
        for _ in 1..count {
            assert_eq!(rt; script.next() == Some(Line::End), false);
        }
        assert_eq!(rt; script.next(), Some(Line::End));
        assert_eq!(rt; script.next(), None);
    }
    Ok(())
}
