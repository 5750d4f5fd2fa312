//! Whole scripts that switch engines between guests, with reports that were worked out by hand.
use crate::rows::{Row, check_row};
use gv_run::Status;
use std::test::Fail;

const END_OF_A_RANGE: Row = Row {
    name: "end of a range",
    script: "guest 20 10 0\nguest 20 10 0\no8 0 800000 1 1001 2001 3001 4001\no4 0 22080 3000\nw4 0 1024 2000\nw4 0 102c 1\nw4 0 10cc 8000\nw8 0 8000 9003\nw8 0 9000 a003\nw8 0 a000 b003\nw8 0 b000 c003 d003 e003\no8 1 800080 1 1001 2001 3001 4001\no4 1 22080 13000\nw4 1 1024 12000\nw4 1 102c 1\nw4 1 10cc 8000\nw8 1 8000 9003\nw8 1 9000 a003\nw8 1 a000 b003\nw8 1 b000 c003 d003 e003\no8 0 800078 4001\nw4 0 2000 10400002 fffc 0 99 10600003 fffc 0 98 97 0\nw4 0 101c 10\nelsp 0 1 0 500000119\nturn 1 3\nr4 0 4ffc\nw4 0 101c 28\nelsp 0 1 0 500000119\nturn 1 1\nw4 1 2000 10400002 14000 0 55\nw4 1 101c 10\nelsp 1 1 0 600010119\nswitch 1\nturn 1 3\nr4 1 4000\nr4 1 0\ni4 0 78000\nend\n",
    status: Status::Done,
    report: "0 turn 1 1 0 1 1 0 0\n0 r4 4ffc 99\n0 failsafe range\n0 turn 1 0 0 0 0 1 0\nrota 1 1\n1 turn 1 1 0 1 1 0 0\n1 r4 4000 55\n1 r4 0 0\n0 i4 78000 0\n0 mem 1010 1000000000\n0 mem 1018 2800000000\n0 mem 1020 200000000000\n0 mem 1028 100000000\n0 mem 10c8 800000000000\n0 mem 2000 fffc10400002\n0 mem 2008 9900000000\n0 mem 2010 fffc10600003\n0 mem 2018 9800000000\n0 mem 2020 97\n0 mem 3040 1\n0 mem 3048 500000018\n0 mem 3050 1\n0 mem 3078 200000000\n0 mem 4ff8 9900000000\n0 mem 8000 9003\n0 mem 9000 a003\n0 mem a000 b003\n0 mem b000 c003\n0 mem b008 d003\n0 mem b010 e003\n1 mem 1010 1000000000\n1 mem 1018 1000000000\n1 mem 1020 1200000000000\n1 mem 1028 100000000\n1 mem 10c8 800000000000\n1 mem 2000 1400010400002\n1 mem 2008 5500000000\n1 mem 3040 1\n1 mem 3048 600000018\n1 mem 3078 100000000\n1 mem 4000 55\n1 mem 8000 9003\n1 mem 9000 a003\n1 mem a000 b003\n1 mem b000 c003\n1 mem b008 d003\n1 mem b010 e003\ndone\n",
};

pub(crate) const IN_A_SECOND_LEVEL: Row = Row {
    name: "switch in a second level",
    script: "guest 20 10 0\nguest 20 10 0\no8 0 800000 1 1001 2001 3001 4001\no4 0 22080 3000\nw4 0 1024 2000\nw4 0 102c 1\nw4 0 10cc 8000\nw8 0 8000 9003\nw8 0 9000 a003\nw8 0 a000 b003\nw8 0 b000 c003 d003 e003\no8 1 800080 1 1001 2001 3001 4001\no4 1 22080 13000\nw4 1 1024 12000\nw4 1 102c 1\nw4 1 10cc 8000\nw8 1 8000 9003\nw8 1 9000 a003\nw8 1 a000 b003\nw8 1 b000 c003 d003 e003\nw4 0 2000 18800001 4000 0 0\nw4 0 4000 11000001 22600 5 18c00101 0 0 5000000\nw4 0 c000 0 12000002 22600 1000 0 5000000\nw4 0 101c 10\nw4 1 2000 11000001 22600 9 0\nw4 1 101c 10\nelsp 0 1 0 500000119\nelsp 1 1 0 600010119\nturn 1 5\nswitch 1\nturn 1 4\nswitch 1\nturn 1 5\nr4 0 d000\ni4 0 22600\ni4 1 22600\nend\n",
    status: Status::Done,
    report: "0 turn 1 4 0 0 1 0 0\nrota 1 1\n1 turn 1 2 0 1 1 0 0\nrota 1 0\n0 turn 1 4 0 1 0 0 0\n0 r4 d000 5\n0 i4 22600 5\n1 i4 22600 9\n0 mem 1010 1000000000\n0 mem 1018 1000000000\n0 mem 1020 200000000000\n0 mem 1028 100000000\n0 mem 10c8 800000000000\n0 mem 2000 400018800001\n0 mem 3040 1\n0 mem 3048 500000018\n0 mem 3078 100000000\n0 mem 4000 2260011000001\n0 mem 4008 18c0010100000005\n0 mem 4018 5000000\n0 mem 8000 9003\n0 mem 9000 a003\n0 mem a000 b003\n0 mem b000 c003\n0 mem b008 d003\n0 mem b010 e003\n0 mem c000 1200000200000000\n0 mem c008 100000022600\n0 mem c010 500000000000000\n0 mem d000 5\n1 mem 1010 1000000000\n1 mem 1018 1000000000\n1 mem 1020 1200000000000\n1 mem 1028 100000000\n1 mem 10c8 800000000000\n1 mem 2000 2260011000001\n1 mem 2008 9\n1 mem 3040 1\n1 mem 3048 600000018\n1 mem 3078 100000000\n1 mem 8000 9003\n1 mem 9000 a003\n1 mem a000 b003\n1 mem b000 c003\n1 mem b008 d003\n1 mem b010 e003\ndone\n",
};

const RESET_BETWEEN: Row = Row {
    name: "a reset between switches",
    script: "guest 20 10 0\nguest 20 10 0\no8 0 800000 1 1001 2001 3001 4001\no4 0 22080 3000\nw4 0 1024 2000\nw4 0 102c 1\nw4 0 10cc 8000\nw8 0 8000 9003\nw8 0 9000 a003\nw8 0 a000 b003\nw8 0 b000 c003 d003 e003\no8 1 800080 1 1001 2001 3001 4001\no4 1 22080 13000\nw4 1 1024 12000\nw4 1 102c 1\nw4 1 10cc 8000\nw8 1 8000 9003\nw8 1 9000 a003\nw8 1 a000 b003\nw8 1 b000 c003 d003 e003\nw4 0 2000 18800001 4000 0 0\nw4 0 4000 11000001 22600 5 18c00101 0 0 5000000\nw4 0 c000 0 12000002 22600 1000 0 5000000\nw4 0 101c 10\nw4 1 2000 11000001 22600 9 0\nw4 1 101c 10\nelsp 0 1 0 500000119\nelsp 1 1 0 600010119\nturn 1 5\nswitch 1\nreset 0\nturn 1 4\nswitch 1\ni4 0 22600\ni4 1 22600\nend\n",
    status: Status::Done,
    report: "0 turn 1 4 0 0 1 0 0\nrota 1 1\n0 reset\n1 turn 1 2 0 1 1 0 0\nrota 1 1\n0 i4 22600 0\n1 i4 22600 9\n0 mem 1018 1000000000\n0 mem 1020 200000000000\n0 mem 1028 100000000\n0 mem 10c8 800000000000\n0 mem 2000 400018800001\n0 mem 3040 1\n0 mem 4000 2260011000001\n0 mem 4008 18c0010100000005\n0 mem 4018 5000000\n0 mem 8000 9003\n0 mem 9000 a003\n0 mem a000 b003\n0 mem b000 c003\n0 mem b008 d003\n0 mem b010 e003\n0 mem c000 1200000200000000\n0 mem c008 100000022600\n0 mem c010 500000000000000\n1 mem 1010 1000000000\n1 mem 1018 1000000000\n1 mem 1020 1200000000000\n1 mem 1028 100000000\n1 mem 10c8 800000000000\n1 mem 2000 2260011000001\n1 mem 2008 9\n1 mem 3040 1\n1 mem 3048 600000018\n1 mem 3078 100000000\n1 mem 8000 9003\n1 mem 9000 a003\n1 mem a000 b003\n1 mem b000 c003\n1 mem b008 d003\n1 mem b010 e003\ndone\n",
};

// The lists are bad, which shows where they are loaded. Each is work on the engine till then.
const OWNERS: [Row; 4] = [
    Row {
        name: "the owner goes round",
        script: "guest 1 0 0\nguest 1 0 0\nguest 1 0 0\nswitch 1\nelsp 2 1 0 1\nelsp 1 1 0 1\nswitch 1\nswitch 1\nswitch 1\nturn 1 1\nswitch 1\nturn 0 1\nturn 1 2\nswitch 1\nswitch 3\nend\n",
        status: Status::Done,
        report: "rota 1 0\nrota 1 1\nrota 1 2\nrota 1 1\n1 failsafe context\n1 turn 1 0 0 0 0 1 0\nrota 1 2\n0 turn 0 0 0 0 0 0 1\n2 failsafe context\n2 turn 1 0 0 0 0 1 1\nrota 1 2\nrota 3 0\ndone\n",
    },
    Row {
        name: "no guest to own an engine",
        script: "switch 0\nguest 1 0 0\nend\n",
        status: Status::BadScript(1),
        report: "refused 1\n",
    },
    Row {
        name: "a fifth engine",
        script: "guest 1 0 0\nswitch 4\nend\n",
        status: Status::BadScript(2),
        report: "refused 2\n",
    },
    Row {
        name: "a guest after a switch",
        script: "guest 1 0 0\nswitch 3\nguest 1 0 0\nend\n",
        status: Status::BadScript(3),
        report: "rota 3 0\nrefused 3\n",
    },
];

#[test]
fn a_failed_guest_leaves_the_other_at_work(rt: HostRuntime) -> Result<(), Fail> {
    check_row(&rt, rt.alloc(), &END_OF_A_RANGE, 65_536, 65_536)
}

#[test]
fn a_place_in_a_second_level_is_kept(rt: HostRuntime) -> Result<(), Fail> {
    check_row(&rt, rt.alloc(), &IN_A_SECOND_LEVEL, 65_536, 65_536)
}

#[test]
fn a_reset_forgets_an_element_that_waits(rt: HostRuntime) -> Result<(), Fail> {
    check_row(&rt, rt.alloc(), &RESET_BETWEEN, 65_536, 65_536)
}

#[test]
fn owners_of_engines(rt: HostRuntime) -> Result<(), Fail> {
    for row in &OWNERS {
        check_row(&rt, rt.alloc(), row, 65_536, 65_536)?;
    }
    Ok(())
}
