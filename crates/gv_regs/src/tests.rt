use crate::{Effect, Lookup, Registers, Target, engines_reset, target};
use gv_types::{EngineId, GuestId, Ranges, Span};
use std::test::Fail;

const RCS: EngineId = EngineId::RCS;

const BCS: EngineId = EngineId::BCS;

const VCS: EngineId = EngineId::VCS;

const VECS: EngineId = EngineId::VECS;

/// Guest 1 of two that ask for 16 low and 8 high pages each.
fn registers() -> Registers {
    let ranges = Ranges {
        low: Span {
            first: 0x10,
            pages: 0x10,
        },
        high: Span {
            first: 0x1_0008,
            pages: 8,
        },
    };
    Registers::new(GuestId(1), ranges)
}

#[test]
fn targets_are_those_of_the_table(rt: HostRuntime) -> Result<(), Fail> {
    for (offset, wanted) in [
        (0x202c, Target::Absent),
        (0x2030, Target::Own),
        (0x2032, Target::Absent),
        (0x203c, Target::Own),
        (0x2040, Target::Absent),
        (0x2_2080, Target::Own),
        (0x2_2230, Target::Elsp(BCS)),
        (0x2_2234, Target::Absent),
        (0x229c, Target::Own),
        (0x2370, Target::Status(RCS, 0)),
        (0x239c, Target::Status(RCS, 11)),
        (0x23a0, Target::StatusPointer(RCS)),
        (0x2600, Target::General(RCS, 0)),
        (0x2_267c, Target::General(BCS, 31)),
        (0x2_2680, Target::Absent),
        (0x1_2030, Target::Own),
        (0x1_2234, Target::Absent),
        (0x1_23a0, Target::StatusPointer(VCS)),
        (0x1_a230, Target::Elsp(VECS)),
        (0x1_a600, Target::General(VECS, 0)),
        (0x1_a67c, Target::General(VECS, 31)),
        (0x1_2370, Target::Status(VCS, 0)),
        (0x1_3030, Target::Absent),
        (0x2_a600, Target::Absent),
        (0xa270, Target::Own),
        (0xa278, Target::Own),
        (0xa188, Target::Own),
        (0xd88, Target::Own),
        (0xd84, Target::Own),
        (0x13_0044, Target::Own),
        (0x941c, Target::EngineReset),
        (0x4_4200, Target::Interrupts),
        (0x4_4300, Target::Interrupts),
        (0x4_430c, Target::Interrupts),
        (0x4_4310, Target::Interrupts),
        (0x4_431c, Target::Interrupts),
        (0x4_4320, Target::Absent),
        (0x4_432c, Target::Absent),
        (0x4_433c, Target::Interrupts),
        (0x4_4340, Target::Absent),
        (0x4_4204, Target::Absent),
        (0x7_8000, Target::Own),
        (0x7_8014, Target::Absent),
        (0x7_8050, Target::Own),
        (0x7_8818, Target::Notify),
        (0x7_8838, Target::Own),
        (0x7_883c, Target::Own),
        (0x7_8840, Target::Absent),
        (0x80_0000, Target::Absent),
        (u32::MAX, Target::Absent),
    ] {
        assert_eq!(rt; target(offset), wanted, "{offset:x}");
    }
    Ok(())
}

#[test]
fn registers_are_read_and_written_by_their_kinds(rt: HostRuntime) -> Result<(), Fail> {
    let mut registers = registers();
    for (offset, value, effect, reads) in [
        (0x2030, 5, Effect::Kept, 5),
        (0x2_203c, 0xffff_ffff, Effect::Kept, 0xffff_ffff),
        (0x2_2080, 0x3000, Effect::Kept, 0x3000),
        (0x229c, 0x00ff_1234, Effect::Kept, 0x34),
        (0x229c, 0xff00_5678, Effect::Kept, 0x5634),
        (0x229c, 0x0000_ffff, Effect::Kept, 0x5634),
        (0xa188, 0x1_0001, Effect::Kept, 1),
        (0xd88, 0x1_0001, Effect::Nothing, 0),
        (0x7_8838, 0x8000, Effect::Kept, 0x8000),
        (0x7_8000, 7, Effect::Nothing, 0x7654_4776),
        (0x2234, 7, Effect::Nothing, 0),
        (0x2230, 7, Effect::Goes(Target::Elsp(RCS)), 0),
        (0x2370, 7, Effect::Goes(Target::Status(RCS, 0)), 0),
        (0x2604, 7, Effect::Goes(Target::General(RCS, 1)), 0),
        (0x4_4304, 7, Effect::Goes(Target::Interrupts), 0),
        (0x941c, 2, Effect::Goes(Target::EngineReset), 0),
        (0x7_8818, 4, Effect::Goes(Target::Notify), 0),
    ] {
        assert_eq!(rt; registers.write(offset, value), effect, "{offset:x}");
        assert_eq!(rt; registers.read(offset), reads, "{offset:x}");
    }
    assert_eq!(rt;
        registers.read(0x13_0044),
        1,
        "the blitter's request is acknowledged"
    );
    assert_eq!(rt; registers.write(0x1_2030, 9), Effect::Kept);
    registers.reset_engine(RCS);
    registers.reset_engine(VECS);
    assert_eq!(rt; registers.read(0x1_2030), 9);
    registers.reset_engine(VCS);
    assert_eq!(rt; registers.read(0x1_2030), 0);
    for (offset, reads) in [
        (0x2030, 0),
        (0x229c, 0),
        (0x2_203c, 0xffff_ffff),
        (0x2_2080, 0x3000),
        (0xa188, 1),
        (0x7_8838, 0x8000),
    ] {
        assert_eq!(rt; registers.read(offset), reads, "{offset:x}");
    }
    registers.reset_engine(BCS);
    assert_eq!(rt; registers.read(0x2_2080), 0);
    assert_eq!(rt; registers.read(0xa188), 1);
    registers.reset();
    assert_eq!(rt; registers.read(0xa188), 0);
    assert_eq!(rt; registers.read(0x7_8838), 0);
    assert_eq!(rt; registers.read(0x7_8000), 0x7654_4776);
    Ok(())
}

#[test]
fn pvinfo_tells_the_guest_its_ranges(rt: HostRuntime) -> Result<(), Fail> {
    let registers = registers();
    for (offset, reads) in [
        (0x7_8000, 0x7654_4776),
        (0x7_8004, 0x4776_5447),
        (0x7_8008, 1),
        (0x7_800c, 2),
        (0x7_8010, 0x1c),
        (0x7_8040, 0x1_0000),
        (0x7_8044, 0x1_0000),
        (0x7_8048, 0x1000_8000),
        (0x7_804c, 0x8000),
        (0x7_8050, 0),
    ] {
        assert_eq!(rt; registers.read(offset), reads, "{offset:x}");
    }
    let empty = Ranges {
        low: Span {
            first: 0x20,
            pages: 0,
        },
        high: Span {
            first: 0x1_0000,
            pages: 1,
        },
    };
    let registers = Registers::new(GuestId(0), empty);
    assert_eq!(rt; registers.read(0x7_8040), 0, "the base of an empty range");
    assert_eq!(rt; registers.read(0x7_8048), 0x1000_0000);
    Ok(())
}

#[test]
fn a_read_finds_a_value_or_the_part_that_serves_it(rt: HostRuntime) {
    let registers = registers();
    for (offset, found) in [
        (0x7_800c, Lookup::Value(2)),
        (0x2030, Lookup::Value(0)),
        (0x2234, Lookup::Value(0)),
        (0x4_4338, Lookup::Goes(Target::Interrupts)),
        (0x1_a230, Lookup::Goes(Target::Elsp(VECS))),
        (0x941c, Lookup::Goes(Target::EngineReset)),
    ] {
        assert_eq!(rt; registers.lookup(offset), found, "{offset:x}");
    }
}

#[test]
fn engine_reset_names_engines_by_bits(rt: HostRuntime) {
    // RCS, BCS, VCS and VECS
    for (value, engines) in [
        (0, [false, false, false, false]),
        (1, [true, true, true, true]),
        (2, [true, false, false, false]),
        (4, [false, false, true, false]),
        (8, [false, true, false, false]),
        (0x10, [false, false, false, true]),
        (0xa, [true, true, false, false]),
        (0xffff_ffe0, [false, false, false, false]),
    ] {
        assert_eq!(rt; engines_reset(value), engines, "{value:x}");
    }
}
