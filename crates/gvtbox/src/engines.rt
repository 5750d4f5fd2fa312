//! Whole scripts in which engines run, with reports that were worked out by hand.
use crate::rows::{Row, check_row};
use gv_run::Status;
use std::test::Fail;

const CONTEXTS: [Row; 4] = [
    Row {
        name: "bad context",
        script: "guest 20 10 0\no8 0 800000 1 1001 2001 3001 4001\no4 0 22080 3000\nw4 0 1024 2000\nw4 0 102c 1\nw4 0 10cc 8000\nw8 0 8000 9003\nw8 0 9000 a003\nw8 0 a000 b003\nw8 0 b000 c003 d003 e003\nw4 0 101c 4\nelsp 0 1 0 500000119\nturn 1 1\nend\n",
        status: Status::Done,
        report: "0 failsafe context\n0 turn 1 0 0 0 0 1 0\n0 mem 1018 400000000\n0 mem 1020 200000000000\n0 mem 1028 100000000\n0 mem 10c8 800000000000\n0 mem 3040 1\n0 mem 8000 9003\n0 mem 9000 a003\n0 mem a000 b003\n0 mem b000 c003\n0 mem b008 d003\n0 mem b010 e003\ndone\n",
    },
    Row {
        name: "status ring wraps",
        script: "guest 20 10 0\no8 0 800000 1 1001 2001 3001 4001\no4 0 22080 3000\nw4 0 1024 2000\nw4 0 102c 1\nw4 0 10cc 8000\nw8 0 8000 9003\nw8 0 9000 a003\nw8 0 a000 b003\nw8 0 b000 c003 d003 e003\nelsp 0 1 700000119 500000119\nturn 1 4\nelsp 0 1 0 800000119\nturn 1 2\nelsp 0 1 0 900000119\nturn 1 2\ni8 0 22370\ni8 0 22378\ni8 0 22380\ni4 0 223a0\nr4 0 307c\nend\n",
        status: Status::Done,
        report: "0 turn 1 0 0 2 2 0 0\n0 turn 1 0 0 1 1 0 0\n0 turn 1 0 0 1 1 0 0\n0 i8 22370 900000018\n0 i8 22378 500000014\n0 i8 22380 700000018\n0 i4 223a0 0\n0 r4 307c 0\n0 mem 1020 200000000000\n0 mem 1028 100000000\n0 mem 10c8 800000000000\n0 mem 3040 900000018\n0 mem 3048 500000014\n0 mem 3050 700000018\n0 mem 3058 1\n0 mem 3060 800000018\n0 mem 3068 1\n0 mem 8000 9003\n0 mem 9000 a003\n0 mem a000 b003\n0 mem b000 c003\n0 mem b008 d003\n0 mem b010 e003\ndone\n",
    },
    Row {
        name: "both slots full",
        script: "guest 20 10 0\no8 0 800000 1 1001 2001 3001 4001\no4 0 22080 3000\nw4 0 1024 2000\nw4 0 102c 1\nw4 0 10cc 8000\nw8 0 8000 9003\nw8 0 9000 a003\nw8 0 a000 b003\nw8 0 b000 c003 d003 e003\nelsp 0 1 0 500000119\nelsp 0 1 0 700000119\nelsp 0 1 0 900000119\nturn 1 5\ni8 0 22378\ni8 0 22380\ni8 0 22388\ni4 0 223a0\nend\n",
        status: Status::Done,
        report: "0 turn 1 0 0 2 2 0 1\n0 i8 22378 500000018\n0 i8 22380 1\n0 i8 22388 700000018\n0 i4 223a0 3\n0 mem 1020 200000000000\n0 mem 1028 100000000\n0 mem 10c8 800000000000\n0 mem 3040 1\n0 mem 3048 500000018\n0 mem 3050 1\n0 mem 3058 700000018\n0 mem 3078 300000000\n0 mem 8000 9003\n0 mem 9000 a003\n0 mem a000 b003\n0 mem b000 c003\n0 mem b008 d003\n0 mem b010 e003\ndone\n",
    },
    Row {
        name: "wrap and empty ring",
        script: "guest 20 10 0\no8 0 800000 1 1001 2001 3001 4001\no4 0 22080 3000\nw4 0 1024 2000\nw4 0 102c 1\nw4 0 10cc 8000\nw8 0 8000 9003\nw8 0 9000 a003\nw8 0 a000 b003\nw8 0 b000 c003 d003 e003\nw4 0 2ff8 10400002 2800\nw4 0 2000 0 33\nw4 0 1014 ff8\nw4 0 101c 8\nelsp 0 1 0 500000119\nturn 1 3\nr4 0 2800\nr4 0 1014\nelsp 0 1 0 500000119\nturn 1 2\nend\n",
        status: Status::Done,
        report: "0 turn 1 1 0 1 1 0 0\n0 r4 2800 33\n0 r4 1014 8\n0 turn 1 0 0 1 1 0 0\n0 mem 1010 800000000\n0 mem 1018 800000000\n0 mem 1020 200000000000\n0 mem 1028 100000000\n0 mem 10c8 800000000000\n0 mem 2000 3300000000\n0 mem 2800 33\n0 mem 2ff8 280010400002\n0 mem 3040 1\n0 mem 3048 500000018\n0 mem 3050 1\n0 mem 3058 500000018\n0 mem 3078 300000000\n0 mem 8000 9003\n0 mem 9000 a003\n0 mem a000 b003\n0 mem b000 c003\n0 mem b008 d003\n0 mem b010 e003\ndone\n",
    },
];

const RINGS: [Row; 3] = [
    Row {
        name: "unlisted in the ring",
        script: "guest 20 10 0\no8 0 800000 1 1001 2001 3001 4001\no4 0 22080 3000\nw4 0 1024 2000\nw4 0 102c 1\nw4 0 10cc 8000\nw8 0 8000 9003\nw8 0 9000 a003\nw8 0 a000 b003\nw8 0 b000 c003 d003 e003\nw4 0 2000 7b000005 0\nw4 0 101c 8\nelsp 0 1 0 500000119\nturn 1 1\ni4 0 78000\nreset 0\ni4 0 78000\nend\n",
        status: Status::Done,
        report: "0 failsafe command\n0 turn 1 0 0 0 0 1 0\n0 i4 78000 0\n0 reset\n0 i4 78000 76544776\n0 mem 1018 800000000\n0 mem 1020 200000000000\n0 mem 1028 100000000\n0 mem 10c8 800000000000\n0 mem 2000 7b000005\n0 mem 3040 1\n0 mem 8000 9003\n0 mem 9000 a003\n0 mem a000 b003\n0 mem b000 c003\n0 mem b008 d003\n0 mem b010 e003\ndone\n",
    },
    Row {
        name: "pipe control on fourth engine",
        script: "guest 20 10 0\no8 0 800000 1 1001 2001 3001 4001\no4 0 22080 3000\nw4 0 1024 2000\nw4 0 102c 1\nw4 0 10cc 8000\nw8 0 8000 9003\nw8 0 9000 a003\nw8 0 a000 b003\nw8 0 b000 c003 d003 e003\nw4 0 2000 7a000004 0 0 0 0 0\nw4 0 101c 18\nelsp 0 3 0 500000119\nturn 3 1\nend\n",
        status: Status::Done,
        report: "0 failsafe command\n0 turn 3 0 0 0 0 1 0\n0 mem 40 1\n0 mem 1018 1800000000\n0 mem 1020 200000000000\n0 mem 1028 100000000\n0 mem 10c8 800000000000\n0 mem 2000 7a000004\n0 mem 8000 9003\n0 mem 9000 a003\n0 mem a000 b003\n0 mem b000 c003\n0 mem b008 d003\n0 mem b010 e003\ndone\n",
    },
    Row {
        name: "semaphore between engines",
        script: "guest 20 10 0\no8 0 800000 1 1001 2001 3001 4001\no4 0 22080 3000\nw4 0 1024 2000\nw4 0 102c 1\nw4 0 10cc 8000\nw8 0 8000 9003\nw8 0 9000 a003\nw8 0 a000 b003\nw8 0 b000 c003 d003 e003\no8 0 800028 5001 6001 7001\nw4 0 2000 e40c002 1 2800 0\nw4 0 101c 10\nw4 0 6024 7000\nw4 0 602c 1\nw4 0 60cc 8000\nw4 0 601c 10\nw4 0 7000 10400002 2800 0 1\nelsp 0 1 0 500000119\nturn 1 3\nelsp 0 0 0 600005119\nturn 0 3\nturn 1 2\nend\n",
        status: Status::Done,
        report: "0 turn 1 0 2 0 1 0 0\n0 turn 0 1 0 1 1 0 0\n0 turn 1 1 0 1 0 0 0\n0 mem 40 1\n0 mem 48 600000018\n0 mem 78 100000000\n0 mem 1010 1000000000\n0 mem 1018 1000000000\n0 mem 1020 200000000000\n0 mem 1028 100000000\n0 mem 10c8 800000000000\n0 mem 2000 10e40c002\n0 mem 2008 2800\n0 mem 2800 1\n0 mem 3040 1\n0 mem 3048 500000018\n0 mem 3078 100000000\n0 mem 6010 1000000000\n0 mem 6018 1000000000\n0 mem 6020 700000000000\n0 mem 6028 100000000\n0 mem 60c8 800000000000\n0 mem 7000 280010400002\n0 mem 7008 100000000\n0 mem 8000 9003\n0 mem 9000 a003\n0 mem a000 b003\n0 mem b000 c003\n0 mem b008 d003\n0 mem b010 e003\ndone\n",
    },
];

const FETCHED: [Row; 3] = [
    Row {
        name: "changed after load a",
        script: "guest 20 10 0\no8 0 800000 1 1001 2001 3001 4001\no4 0 22080 3000\nw4 0 1024 2000\nw4 0 102c 1\nw4 0 10cc 8000\nw8 0 8000 9003\nw8 0 9000 a003\nw8 0 a000 b003\nw8 0 b000 c003 d003 e003\nw4 0 2000 18800001 4000 0 0\nw4 0 4000 10400002 2800 0 11 5000000\nw4 0 101c 10\nelsp 0 1 0 500000119\nturn 1 1\nw4 0 400c 22\nturn 1 5\nr4 0 2800\nend\n",
        status: Status::Done,
        report: "0 turn 1 0 0 0 1 0 0\n0 turn 1 4 0 1 0 0 0\n0 r4 2800 11\n0 mem 1010 1000000000\n0 mem 1018 1000000000\n0 mem 1020 200000000000\n0 mem 1028 100000000\n0 mem 10c8 800000000000\n0 mem 2000 400018800001\n0 mem 2800 11\n0 mem 3040 1\n0 mem 3048 500000018\n0 mem 3078 100000000\n0 mem 4000 280010400002\n0 mem 4008 2200000000\n0 mem 4010 5000000\n0 mem 8000 9003\n0 mem 9000 a003\n0 mem a000 b003\n0 mem b000 c003\n0 mem b008 d003\n0 mem b010 e003\ndone\n",
    },
    Row {
        name: "second level batch",
        script: "guest 20 10 0\no8 0 800000 1 1001 2001 3001 4001\no4 0 22080 3000\nw4 0 1024 2000\nw4 0 102c 1\nw4 0 10cc 8000\nw8 0 8000 9003\nw8 0 9000 a003\nw8 0 a000 b003\nw8 0 b000 c003 d003 e003\nw4 0 2000 18800001 4000 0 0\nw4 0 4000 18c00001 4800 0 5000000\nw4 0 4800 10400002 2800 0 44 5000000\nw4 0 101c 10\nelsp 0 1 0 500000119\nturn 1 8\nr4 0 2800\nend\n",
        status: Status::Done,
        report: "0 turn 1 6 0 1 1 0 0\n0 r4 2800 44\n0 mem 1010 1000000000\n0 mem 1018 1000000000\n0 mem 1020 200000000000\n0 mem 1028 100000000\n0 mem 10c8 800000000000\n0 mem 2000 400018800001\n0 mem 2800 44\n0 mem 3040 1\n0 mem 3048 500000018\n0 mem 3078 100000000\n0 mem 4000 480018c00001\n0 mem 4008 500000000000000\n0 mem 4800 280010400002\n0 mem 4808 4400000000\n0 mem 4810 5000000\n0 mem 8000 9003\n0 mem 9000 a003\n0 mem a000 b003\n0 mem b000 c003\n0 mem b008 d003\n0 mem b010 e003\ndone\n",
    },
    Row {
        name: "third level batch",
        script: "guest 20 10 0\no8 0 800000 1 1001 2001 3001 4001\no4 0 22080 3000\nw4 0 1024 2000\nw4 0 102c 1\nw4 0 10cc 8000\nw8 0 8000 9003\nw8 0 9000 a003\nw8 0 a000 b003\nw8 0 b000 c003 d003 e003\nw4 0 2000 18800001 4000 0 0\nw4 0 4000 18c00001 4800 0 5000000\nw4 0 4800 18c00001 4800 0\nw4 0 101c 10\nelsp 0 1 0 500000119\nturn 1 1\nr4 0 2800\nend\n",
        status: Status::Done,
        report: "0 failsafe command\n0 turn 1 0 0 0 0 1 0\n0 r4 2800 0\n0 mem 1018 1000000000\n0 mem 1020 200000000000\n0 mem 1028 100000000\n0 mem 10c8 800000000000\n0 mem 2000 400018800001\n0 mem 3040 1\n0 mem 4000 480018c00001\n0 mem 4008 500000000000000\n0 mem 4800 480018c00001\n0 mem 8000 9003\n0 mem 9000 a003\n0 mem a000 b003\n0 mem b000 c003\n0 mem b008 d003\n0 mem b010 e003\ndone\n",
    },
];

const LIVE: [Row; 2] = [
    Row {
        name: "changed after load b",
        script: "guest 20 10 0\no8 0 800000 1 1001 2001 3001 4001\no4 0 22080 3000\nw4 0 1024 2000\nw4 0 102c 1\nw4 0 10cc 8000\nw8 0 8000 9003\nw8 0 9000 a003\nw8 0 a000 b003\nw8 0 b000 c003 d003 e003\nw4 0 2000 18800101 0 0 0\nw4 0 c000 10000002 1000 0 11 5000000\nw4 0 101c 10\nelsp 0 1 0 500000119\nturn 1 1\nw4 0 c00c 22\nturn 1 5\nr4 0 d000\nend\n",
        status: Status::Done,
        report: "0 turn 1 0 0 0 1 0 0\n0 turn 1 4 0 1 0 0 0\n0 r4 d000 22\n0 mem 1010 1000000000\n0 mem 1018 1000000000\n0 mem 1020 200000000000\n0 mem 1028 100000000\n0 mem 10c8 800000000000\n0 mem 2000 18800101\n0 mem 3040 1\n0 mem 3048 500000018\n0 mem 3078 100000000\n0 mem 8000 9003\n0 mem 9000 a003\n0 mem a000 b003\n0 mem b000 c003\n0 mem b008 d003\n0 mem b010 e003\n0 mem c000 100010000002\n0 mem c008 2200000000\n0 mem c010 5000000\n0 mem d000 22\ndone\n",
    },
    Row {
        name: "unlisted in a live batch",
        script: "guest 20 10 0\no8 0 800000 1 1001 2001 3001 4001\no4 0 22080 3000\nw4 0 1024 2000\nw4 0 102c 1\nw4 0 10cc 8000\nw8 0 8000 9003\nw8 0 9000 a003\nw8 0 a000 b003\nw8 0 b000 c003 d003 e003\nw4 0 2000 18800101 0 0 0\nw4 0 c000 10000002 1000 0 11 7b000005\nw4 0 101c 10\nelsp 0 1 0 500000119\nturn 1 4\nr4 0 d000\nend\n",
        status: Status::Done,
        report: "0 failsafe command\n0 turn 1 2 0 0 1 1 0\n0 r4 d000 11\n0 mem 1018 1000000000\n0 mem 1020 200000000000\n0 mem 1028 100000000\n0 mem 10c8 800000000000\n0 mem 2000 18800101\n0 mem 3040 1\n0 mem 8000 9003\n0 mem 9000 a003\n0 mem a000 b003\n0 mem b000 c003\n0 mem b008 d003\n0 mem b010 e003\n0 mem c000 100010000002\n0 mem c008 1100000000\n0 mem c010 7b000005\n0 mem d000 11\ndone\n",
    },
];

const SIZES: [Row; 2] = [
    Row {
        name: "batches just short enough",
        script: "guest 20 10 0\no8 0 800000 1 1001 2001 3001 4001\no4 0 22080 3000\nw4 0 1024 2000\nw4 0 102c 1\nw4 0 10cc 8000\nw8 0 8000 9003\nw8 0 9000 a003\nw8 0 a000 b003\nw8 0 b000 c003 d003 e003\no8 0 800078 5001\nw4 0 5ffc 5000000\nw4 0 2000 18800001 4000 0 18800001 4000 0 18800001 4000 0 18800001 4000 0 18800001 4000 0 18800001\nw4 0 2040 4000 0 18800001 4000 0 18800001 4000 0 18800001 4000 0 18800001 4000 0 18800001 4000\nw4 0 2080 0 18800001 4000 0 18800001 4000 0 18800001 4000 0 18800001 4000 0 18800001 4000 0\nw4 0 20c0 18800001 4000 0 18800001 4000 0 18800001 4000 0 18800001 4000 0 18800001 4000 0 0\nw4 0 101c 100\nelsp 0 1 0 500000119\nturn 1 1\nend\n",
        status: Status::Done,
        report: "0 turn 1 0 0 0 1 0 0\n0 mem 1018 10000000000\n0 mem 1020 200000000000\n0 mem 1028 100000000\n0 mem 10c8 800000000000\n0 mem 2000 400018800001\n0 mem 2008 1880000100000000\n0 mem 2010 4000\n0 mem 2018 400018800001\n0 mem 2020 1880000100000000\n0 mem 2028 4000\n0 mem 2030 400018800001\n0 mem 2038 1880000100000000\n0 mem 2040 4000\n0 mem 2048 400018800001\n0 mem 2050 1880000100000000\n0 mem 2058 4000\n0 mem 2060 400018800001\n0 mem 2068 1880000100000000\n0 mem 2070 4000\n0 mem 2078 400018800001\n0 mem 2080 1880000100000000\n0 mem 2088 4000\n0 mem 2090 400018800001\n0 mem 2098 1880000100000000\n0 mem 20a0 4000\n0 mem 20a8 400018800001\n0 mem 20b0 1880000100000000\n0 mem 20b8 4000\n0 mem 20c0 400018800001\n0 mem 20c8 1880000100000000\n0 mem 20d0 4000\n0 mem 20d8 400018800001\n0 mem 20e0 1880000100000000\n0 mem 20e8 4000\n0 mem 20f0 400018800001\n0 mem 3040 1\n0 mem 5ff8 500000000000000\n0 mem 8000 9003\n0 mem 9000 a003\n0 mem a000 b003\n0 mem b000 c003\n0 mem b008 d003\n0 mem b010 e003\ndone\n",
    },
    Row {
        name: "batches too long",
        script: "guest 20 10 0\no8 0 800000 1 1001 2001 3001 4001\no4 0 22080 3000\nw4 0 1024 2000\nw4 0 102c 1\nw4 0 10cc 8000\nw8 0 8000 9003\nw8 0 9000 a003\nw8 0 a000 b003\nw8 0 b000 c003 d003 e003\no8 0 800078 5001\nw4 0 5ffc 5000000\nw4 0 2000 18800001 4000 0 18800001 4000 0 18800001 4000 0 18800001 4000 0 18800001 4000 0 18800001\nw4 0 2040 4000 0 18800001 4000 0 18800001 4000 0 18800001 4000 0 18800001 4000 0 18800001 4000\nw4 0 2080 0 18800001 4000 0 18800001 4000 0 18800001 4000 0 18800001 4000 0 18800001 4000 0\nw4 0 20c0 18800001 4000 0 18800001 4000 0 18800001 4000 0 18800001 4000 0 18800001 4000 0 18800001\nw4 0 2100 4000 0\nw4 0 101c 108\nelsp 0 1 0 500000119\nturn 1 1\nend\n",
        status: Status::Done,
        report: "0 failsafe size\n0 turn 1 0 0 0 0 1 0\n0 mem 1018 10800000000\n0 mem 1020 200000000000\n0 mem 1028 100000000\n0 mem 10c8 800000000000\n0 mem 2000 400018800001\n0 mem 2008 1880000100000000\n0 mem 2010 4000\n0 mem 2018 400018800001\n0 mem 2020 1880000100000000\n0 mem 2028 4000\n0 mem 2030 400018800001\n0 mem 2038 1880000100000000\n0 mem 2040 4000\n0 mem 2048 400018800001\n0 mem 2050 1880000100000000\n0 mem 2058 4000\n0 mem 2060 400018800001\n0 mem 2068 1880000100000000\n0 mem 2070 4000\n0 mem 2078 400018800001\n0 mem 2080 1880000100000000\n0 mem 2088 4000\n0 mem 2090 400018800001\n0 mem 2098 1880000100000000\n0 mem 20a0 4000\n0 mem 20a8 400018800001\n0 mem 20b0 1880000100000000\n0 mem 20b8 4000\n0 mem 20c0 400018800001\n0 mem 20c8 1880000100000000\n0 mem 20d0 4000\n0 mem 20d8 400018800001\n0 mem 20e0 1880000100000000\n0 mem 20e8 4000\n0 mem 20f0 400018800001\n0 mem 20f8 1880000100000000\n0 mem 2100 4000\n0 mem 3040 1\n0 mem 5ff8 500000000000000\n0 mem 8000 9003\n0 mem 9000 a003\n0 mem a000 b003\n0 mem b000 c003\n0 mem b008 d003\n0 mem b010 e003\ndone\n",
    },
];

// Nine commands run. The tenth step ends the element.
pub(crate) const BLITTER_REQUEST: Row = Row {
    name: "blitter request",
    script: "guest 20 10 0\no8 0 800000 1 1001 2001 3001 4001\no4 0 22080 3000\nw4 0 1024 2000\nw4 0 102c 1\nw4 0 10cc 8000\nw8 0 8000 9003\nw8 0 9000 a003\nw8 0 a000 b003\nw8 0 b000 c003 d003 e003\no4 0 44304 0\no4 0 4430c ffffffff\no4 0 44200 80000000\nw4 0 2000 4000001 18800101 0 0 4000000 0 13004002 3104 0 2a 1000000 0\nw4 0 c000 54f00008 3cc0010 0 20002 1000 0 0 10 2000 0 5000000 0\nw4 0 e000 11111111 22222222\nw4 0 e010 33333333 44444444\nw4 0 101c 30\nelsp 0 1 0 500000119\nturn 1 c\nr8 0 d000\nr8 0 d010\nr4 0 3100\ni8 0 22370\ni8 0 22378\ni4 0 223a0\ni4 0 44308\ni4 0 44200\nend\n",
    status: Status::Done,
    report: "0 irq 1000000\n0 irq 1010000\n0 turn 1 9 0 1 1 0 1\n0 r8 d000 2222222211111111\n0 r8 d010 4444444433333333\n0 r4 3100 2a\n0 i8 22370 1\n0 i8 22378 500000018\n0 i4 223a0 1\n0 i4 44308 1010000\n0 i4 44200 80000002\n0 mem 1010 3000000000\n0 mem 1018 3000000000\n0 mem 1020 200000000000\n0 mem 1028 100000000\n0 mem 10c8 800000000000\n0 mem 2000 1880010104000001\n0 mem 2010 4000000\n0 mem 2018 310413004002\n0 mem 2020 2a00000000\n0 mem 2028 1000000\n0 mem 3040 1\n0 mem 3048 500000018\n0 mem 3078 100000000\n0 mem 3100 2a\n0 mem 8000 9003\n0 mem 9000 a003\n0 mem a000 b003\n0 mem b000 c003\n0 mem b008 d003\n0 mem b010 e003\n0 mem c000 3cc001054f00008\n0 mem c008 2000200000000\n0 mem c010 1000\n0 mem c018 1000000000\n0 mem c020 2000\n0 mem c028 5000000\n0 mem d000 2222222211111111\n0 mem d010 4444444433333333\n0 mem e000 2222222211111111\n0 mem e010 4444444433333333\ndone\n",
};

const BLITS: [Row; 2] = [
    Row {
        name: "blit row over itself",
        script: "guest 20 10 0\no8 0 800000 1 1001 2001 3001 4001\no4 0 22080 3000\nw4 0 1024 2000\nw4 0 102c 1\nw4 0 10cc 8000\nw8 0 8000 9003\nw8 0 9000 a003\nw8 0 a000 b003\nw8 0 b000 c003 d003 e003\nw4 0 2000 18800101 0 0 0\nw8 0 d000 807060504030201\nw4 0 c000 54c00008 cc0010 0 10008 1004 0 0 10 1000 0 5000000\nw4 0 101c 10\nelsp 0 1 0 500000119\nturn 1 6\nr8 0 d000\nr8 0 d008\nr8 0 d010\nend\n",
        status: Status::Done,
        report: "0 turn 1 4 0 1 1 0 0\n0 r8 d000 403020104030201\n0 r8 d008 8070605\n0 r8 d010 0\n0 mem 1010 1000000000\n0 mem 1018 1000000000\n0 mem 1020 200000000000\n0 mem 1028 100000000\n0 mem 10c8 800000000000\n0 mem 2000 18800101\n0 mem 3040 1\n0 mem 3048 500000018\n0 mem 3078 100000000\n0 mem 8000 9003\n0 mem 9000 a003\n0 mem a000 b003\n0 mem b000 c003\n0 mem b008 d003\n0 mem b010 e003\n0 mem c000 cc001054c00008\n0 mem c008 1000800000000\n0 mem c010 1004\n0 mem c018 1000000000\n0 mem c020 1000\n0 mem c028 5000000\n0 mem d000 403020104030201\n0 mem d008 8070605\ndone\n",
    },
    Row {
        name: "colour blit",
        script: "guest 20 10 0\no8 0 800000 1 1001 2001 3001 4001\no4 0 22080 3000\nw4 0 1024 2000\nw4 0 102c 1\nw4 0 10cc 8000\nw8 0 8000 9003\nw8 0 9000 a003\nw8 0 a000 b003\nw8 0 b000 c003 d003 e003\nw4 0 2000 18800101 0 0 0\nw4 0 c000 54300005 3f00010 1 20002 1000 0 abcd1234 5000000\nw4 0 101c 10\nelsp 0 1 0 500000119\nturn 1 6\nr8 0 d000\nr8 0 d008\nr8 0 d010\nend\n",
        status: Status::Done,
        report: "0 turn 1 4 0 1 1 0 0\n0 r8 d000 abcd123400000000\n0 r8 d008 0\n0 r8 d010 abcd123400000000\n0 mem 1010 1000000000\n0 mem 1018 1000000000\n0 mem 1020 200000000000\n0 mem 1028 100000000\n0 mem 10c8 800000000000\n0 mem 2000 18800101\n0 mem 3040 1\n0 mem 3048 500000018\n0 mem 3078 100000000\n0 mem 8000 9003\n0 mem 9000 a003\n0 mem a000 b003\n0 mem b000 c003\n0 mem b008 d003\n0 mem b010 e003\n0 mem c000 3f0001054300005\n0 mem c008 2000200000001\n0 mem c010 1000\n0 mem c018 5000000abcd1234\n0 mem d000 abcd123400000000\n0 mem d010 abcd123400000000\ndone\n",
    },
];

const TABLES: [Row; 4] = [
    Row {
        name: "bad entry",
        script: "guest 20 10 0\nguest 20 10 0\no8 0 800000 1 1001 2001 3001 4001\no4 0 22080 3000\nw4 0 1024 2000\nw4 0 102c 1\nw4 0 10cc 8000\nw8 0 8000 9003\nw8 0 9000 a003\nw8 0 a000 b003\nw8 0 b000 c003 d003 e003\no4 0 78838 8000\no4 0 78818 4\nw8 0 9000 a083\nr8 0 9000\ni4 1 78000\nend\n",
        status: Status::Done,
        report: "0 failsafe entry\n0 r8 9000 a083\n1 i4 78000 76544776\n0 mem 1020 200000000000\n0 mem 1028 100000000\n0 mem 10c8 800000000000\n0 mem 8000 9003\n0 mem 9000 a083\n0 mem a000 b003\n0 mem b000 c003\n0 mem b008 d003\n0 mem b010 e003\ndone\n",
    },
    Row {
        name: "frame at two levels",
        script: "guest 20 10 0\no8 0 800000 1 1001 2001 3001 4001\no4 0 22080 3000\nw4 0 1024 2000\nw4 0 102c 1\nw4 0 10cc 8000\nw8 0 8000 9003\nw8 0 9000 a003\nw8 0 a000 b003\nw8 0 b000 c003 d003 e003\nw8 0 9008 b003\nw8 0 c000 10003\nw8 0 f000 11003\nw8 0 10000 aa\nw8 0 11000 bb\nw4 0 2000 17200003 4000 0 0 0 17200003 4004 0 40000000 0\nw4 0 2028 17200003 4008 0 0 0 17200003 400c 0 40000000 0\nw4 0 101c 28\nelsp 0 1 0 500000119\nturn 1 4\nw8 0 b000 f003\nw4 0 101c 50\nelsp 0 1 0 500000119\nturn 1 4\nr8 0 4000\nr8 0 4008\nend\n",
        status: Status::Done,
        report: "0 turn 1 2 0 1 1 0 0\n0 turn 1 2 0 1 1 0 0\n0 r8 4000 aa00010003\n0 r8 4008 bb00011003\n0 mem 1010 5000000000\n0 mem 1018 5000000000\n0 mem 1020 200000000000\n0 mem 1028 100000000\n0 mem 10c8 800000000000\n0 mem 2000 400017200003\n0 mem 2010 1720000300000000\n0 mem 2018 4004\n0 mem 2020 40000000\n0 mem 2028 400817200003\n0 mem 2038 1720000300000000\n0 mem 2040 400c\n0 mem 2048 40000000\n0 mem 3040 1\n0 mem 3048 500000018\n0 mem 3050 1\n0 mem 3058 500000018\n0 mem 3078 300000000\n0 mem 4000 aa00010003\n0 mem 4008 bb00011003\n0 mem 8000 9003\n0 mem 9000 a003\n0 mem 9008 b003\n0 mem a000 b003\n0 mem b000 f003\n0 mem b008 d003\n0 mem b010 e003\n0 mem c000 10003\n0 mem f000 11003\n0 mem 10000 aa\n0 mem 11000 bb\ndone\n",
    },
    Row {
        name: "root at four levels",
        script: "guest 20 10 0\no8 0 800000 1 1001 2001 3001 4001\no4 0 22080 3000\nw4 0 1024 2000\nw4 0 102c 1\nw4 0 10cc 8000\nw8 0 8000 9003\nw8 0 9000 a003\nw8 0 a000 b003\nw8 0 b000 c003 d003 e003\nw8 0 8000 8003\nw4 0 2000 10000002 0 0 77 17200003 4000 0 0 0 0\nw4 0 101c 28\nelsp 0 1 0 500000119\nturn 1 5\nr4 0 8000\nr4 0 4000\nend\n",
        status: Status::Done,
        report: "0 turn 1 3 0 1 1 0 0\n0 r4 8000 8003\n0 r4 4000 8003\n0 mem 1010 2800000000\n0 mem 1018 2800000000\n0 mem 1020 200000000000\n0 mem 1028 100000000\n0 mem 10c8 800000000000\n0 mem 2000 10000002\n0 mem 2008 7700000000\n0 mem 2010 400017200003\n0 mem 3040 1\n0 mem 3048 500000018\n0 mem 3078 100000000\n0 mem 4000 8003\n0 mem 8000 8003\n0 mem 9000 a003\n0 mem a000 b003\n0 mem b000 c003\n0 mem b008 d003\n0 mem b010 e003\ndone\n",
    },
    Row {
        name: "two roots over one subtree",
        script: "guest 20 10 0\no8 0 800000 1 1001 2001 3001 4001\no4 0 22080 3000\nw4 0 1024 2000\nw4 0 102c 1\nw4 0 10cc 8000\nw8 0 8000 9003\nw8 0 9000 a003\nw8 0 a000 b003\nw8 0 b000 c003 d003 e003\nw8 0 11000 9003\no8 0 800028 8001 9001\no4 0 78838 8000\no4 0 78818 4\no4 0 78838 11000\no4 0 78818 4\na4 0 5000\no4 0 78838 8000\no4 0 78818 5\na4 0 5000\na4 0 6000\no4 0 78838 11000\no4 0 78818 5\na4 0 6000\nend\n",
        status: Status::Done,
        report: "0 a4 5000 0\n0 a4 5000 9003\n0 a4 6000 0\n0 a4 6000 a003\n0 mem 1020 200000000000\n0 mem 1028 100000000\n0 mem 10c8 800000000000\n0 mem 8000 9003\n0 mem 9000 a003\n0 mem a000 b003\n0 mem b000 c003\n0 mem b008 d003\n0 mem b010 e003\n0 mem 11000 9003\ndone\n",
    },
];

const GUARDS: [Row; 3] = [
    Row {
        name: "guarded through the aperture",
        script: "guest 20 10 0\no8 0 800000 1 1001 2001 3001 4001\no4 0 22080 3000\nw4 0 1024 2000\nw4 0 102c 1\nw4 0 10cc 8000\nw8 0 8000 9003\nw8 0 9000 a003\nw8 0 a000 b003\nw8 0 b000 c003 d003 e003\nw4 0 4ff8 6\na4 0 4ff8\no4 0 78838 4000\no4 0 78818 4\na4 0 4ff8\no4 0 78818 5\na4 0 4ff8\nend\n",
        status: Status::Done,
        report: "0 a4 4ff8 6\n0 a4 4ff8 0\n0 a4 4ff8 6\n0 mem 1020 200000000000\n0 mem 1028 100000000\n0 mem 10c8 800000000000\n0 mem 4ff8 6\n0 mem 8000 9003\n0 mem 9000 a003\n0 mem a000 b003\n0 mem b000 c003\n0 mem b008 d003\n0 mem b010 e003\ndone\n",
    },
    Row {
        name: "guarding both ways",
        script: "guest 20 10 0\no8 0 800000 1 1001 2001 3001 4001\no4 0 22080 3000\nw4 0 1024 2000\nw4 0 102c 1\nw4 0 10cc 8000\nw8 0 8000 9003\nw8 0 9000 a003\nw8 0 a000 b003\nw8 0 b000 c003 d003 e003\nw4 0 2000 10000002 0 0 77 10000002 0 0 88\nw4 0 101c 10\no4 0 78838 8000\no4 0 78818 4\no4 0 78838 c000\no4 0 78818 4\nelsp 0 1 0 500000119\nturn 1 3\nr4 0 c000\no4 0 78818 5\nw4 0 101c 20\nelsp 0 1 0 500000119\nturn 1 3\nr4 0 c000\nend\n",
        status: Status::Done,
        report: "0 turn 1 1 0 1 1 0 0\n0 r4 c000 0\n0 turn 1 1 0 1 1 0 0\n0 r4 c000 88\n0 mem 1010 2000000000\n0 mem 1018 2000000000\n0 mem 1020 200000000000\n0 mem 1028 100000000\n0 mem 10c8 800000000000\n0 mem 2000 10000002\n0 mem 2008 7700000000\n0 mem 2010 10000002\n0 mem 2018 8800000000\n0 mem 3040 1\n0 mem 3048 500000018\n0 mem 3050 1\n0 mem 3058 500000018\n0 mem 3078 300000000\n0 mem 8000 9003\n0 mem 9000 a003\n0 mem a000 b003\n0 mem b000 c003\n0 mem b008 d003\n0 mem b010 e003\n0 mem c000 88\ndone\n",
    },
    Row {
        name: "pins",
        script: "guest 20 10 0\no8 0 800000 1 1001 2001 3001 4001\no4 0 22080 3000\nw4 0 1024 2000\nw4 0 102c 1\nw4 0 10cc 8000\nw8 0 8000 9003\nw8 0 9000 a003\nw8 0 a000 b003\nw8 0 b000 c003 d003 e003\no4 0 78838 8000\no4 0 78818 4\nw4 0 c000 7\nmove 0 c\nw8 0 b000 0\nmove 0 c\nr4 0 c000\nmove 0 8\nmove 0 1\nend\n",
        status: Status::Done,
        report: "0 move c kept\n0 move c moved\n0 r4 c000 7\n0 move 8 moved\n0 move 1 kept\n0 mem 1020 200000000000\n0 mem 1028 100000000\n0 mem 10c8 800000000000\n0 mem 8000 9003\n0 mem 9000 a003\n0 mem a000 b003\n0 mem b008 d003\n0 mem b010 e003\n0 mem c000 7\ndone\n",
    },
];

const LARGE: [Row; 3] = [
    Row {
        name: "guarded frame in large page",
        script: "guest 400 10 0\no8 0 800000 1 1001 2001 3001 4001\no4 0 22080 3000\nw4 0 1024 2000\nw4 0 102c 1\nw4 0 10cc 8000\nw8 0 8000 9003\nw8 0 9000 a003\nw8 0 a000 b003\nw8 0 b000 c003 d003 e003\nw8 0 a008 200083\no4 0 78838 201000\no4 0 78818 4\nw4 0 2000 10000002 201008 0 66 10000002 202008 0 67\nw4 0 101c 20\nelsp 0 1 0 500000119\nturn 1 4\nr4 0 201008\nr4 0 202008\nend\n",
        status: Status::Done,
        report: "0 turn 1 2 0 1 1 0 0\n0 r4 201008 0\n0 r4 202008 67\n0 mem 1010 2000000000\n0 mem 1018 2000000000\n0 mem 1020 200000000000\n0 mem 1028 100000000\n0 mem 10c8 800000000000\n0 mem 2000 20100810000002\n0 mem 2008 6600000000\n0 mem 2010 20200810000002\n0 mem 2018 6700000000\n0 mem 3040 1\n0 mem 3048 500000018\n0 mem 3078 100000000\n0 mem 8000 9003\n0 mem 9000 a003\n0 mem a000 b003\n0 mem a008 200083\n0 mem b000 c003\n0 mem b008 d003\n0 mem b010 e003\n0 mem 202008 67\ndone\n",
    },
    Row {
        name: "large page",
        script: "guest 400 10 0\no8 0 800000 1 1001 2001 3001 4001\no4 0 22080 3000\nw4 0 1024 2000\nw4 0 102c 1\nw4 0 10cc 8000\nw8 0 8000 9003\nw8 0 9000 a003\nw8 0 a000 b003\nw8 0 b000 c003 d003 e003\nw8 0 a008 200083\nw4 0 2000 10000002 201008 0 66\nw4 0 101c 10\nelsp 0 1 0 500000119\nturn 1 3\nr4 0 201008\nmove 0 201\nw8 0 a008 0\nmove 0 201\nend\n",
        status: Status::Done,
        report: "0 turn 1 1 0 1 1 0 0\n0 r4 201008 66\n0 move 201 kept\n0 move 201 moved\n0 mem 1010 1000000000\n0 mem 1018 1000000000\n0 mem 1020 200000000000\n0 mem 1028 100000000\n0 mem 10c8 800000000000\n0 mem 2000 20100810000002\n0 mem 2008 6600000000\n0 mem 3040 1\n0 mem 3048 500000018\n0 mem 3078 100000000\n0 mem 8000 9003\n0 mem 9000 a003\n0 mem a000 b003\n0 mem b000 c003\n0 mem b008 d003\n0 mem b010 e003\n0 mem 201008 66\ndone\n",
    },
    Row {
        name: "large page past memory",
        script: "guest 3ff 10 0\no8 0 800000 1 1001 2001 3001 4001\no4 0 22080 3000\nw4 0 1024 2000\nw4 0 102c 1\nw4 0 10cc 8000\nw8 0 8000 9003\nw8 0 9000 a003\nw8 0 a000 b003\nw8 0 b000 c003 d003 e003\no4 0 78838 8000\no4 0 78818 4\nw8 0 a008 200083\nr8 0 a008\nend\n",
        status: Status::Done,
        report: "0 failsafe entry\n0 r8 a008 200083\n0 mem 1020 200000000000\n0 mem 1028 100000000\n0 mem 10c8 800000000000\n0 mem 8000 9003\n0 mem 9000 a003\n0 mem a000 b003\n0 mem a008 200083\n0 mem b000 c003\n0 mem b008 d003\n0 mem b010 e003\ndone\n",
    },
];

const RESETS: [Row; 3] = [
    Row {
        name: "engine reset",
        script: "guest 1 0 0\no4 0 2030 5\ni4 0 2030\no4 0 44304 0\ni4 0 44304\no4 0 44304 1\no4 0 941c 2\ni4 0 2030\ni4 0 44304\ni4 0 12030\nreset 0\ni4 0 44304\nend\n",
        status: Status::Done,
        report: "0 i4 2030 5\n0 i4 44304 0\n0 i4 2030 0\n0 i4 44304 1\n0 i4 12030 0\n0 reset\n0 i4 44304 ffffffff\ndone\n",
    },
    Row {
        name: "masked writes",
        script: "guest 1 0 0\no4 0 223a0 7000300\ni4 0 223a0\no4 0 a188 10001\ni4 0 130044\no4 0 a188 10000\ni4 0 130044\nend\n",
        status: Status::Done,
        report: "0 i4 223a0 307\n0 i4 130044 1\n0 i4 130044 0\ndone\n",
    },
    Row {
        name: "third engine interrupts",
        script: "guest 20 10 0\no8 0 800000 1 1001 2001 3001 4001\no4 0 22080 3000\nw4 0 1024 2000\nw4 0 102c 1\nw4 0 10cc 8000\nw8 0 8000 9003\nw8 0 9000 a003\nw8 0 a000 b003\nw8 0 b000 c003 d003 e003\no4 0 12080 3000\no4 0 44314 0\no4 0 4431c ffffffff\no4 0 44200 80000000\nw4 0 2000 1000000 0\nw4 0 101c 8\nelsp 0 2 0 500000119\nturn 2 5\ni4 0 44318\ni4 0 44308\ni4 0 44200\ni4 0 123a0\nend\n",
        status: Status::Done,
        report: "0 irq 100\n0 irq 101\n0 turn 2 2 0 1 1 0 1\n0 i4 44318 101\n0 i4 44308 0\n0 i4 44200 80000004\n0 i4 123a0 1\n0 mem 1010 800000000\n0 mem 1018 800000000\n0 mem 1020 200000000000\n0 mem 1028 100000000\n0 mem 10c8 800000000000\n0 mem 2000 1000000\n0 mem 3040 1\n0 mem 3048 500000018\n0 mem 3078 100000000\n0 mem 8000 9003\n0 mem 9000 a003\n0 mem a000 b003\n0 mem b000 c003\n0 mem b008 d003\n0 mem b010 e003\ndone\n",
    },
];

#[test]
fn contexts_are_loaded_and_refused(rt: HostRuntime) -> Result<(), Fail> {
    for row in &CONTEXTS {
        check_row(&rt, rt.alloc(), row, 65_536, 65_536)?;
    }
    Ok(())
}

#[test]
fn commands_of_a_ring_run(rt: HostRuntime) -> Result<(), Fail> {
    for row in &RINGS {
        check_row(&rt, rt.alloc(), row, 65_536, 65_536)?;
    }
    Ok(())
}

#[test]
fn batches_are_fetched(rt: HostRuntime) -> Result<(), Fail> {
    for row in &FETCHED {
        check_row(&rt, rt.alloc(), row, 65_536, 65_536)?;
    }
    Ok(())
}

#[test]
fn live_batches_run_in_place(rt: HostRuntime) -> Result<(), Fail> {
    for row in &LIVE {
        check_row(&rt, rt.alloc(), row, 65_536, 65_536)?;
    }
    Ok(())
}

#[test]
fn batches_have_a_size(rt: HostRuntime) -> Result<(), Fail> {
    for row in &SIZES {
        check_row(&rt, rt.alloc(), row, 65_536, 65_536)?;
    }
    Ok(())
}

#[test]
fn blits_copy_and_fill(rt: HostRuntime) -> Result<(), Fail> {
    for row in &BLITS {
        check_row(&rt, rt.alloc(), row, 65_536, 65_536)?;
    }
    check_row(&rt, rt.alloc(), &BLITTER_REQUEST, 65_536, 65_536)
}

#[test]
fn tables_are_shadowed(rt: HostRuntime) -> Result<(), Fail> {
    for row in &TABLES {
        check_row(&rt, rt.alloc(), row, 65_536, 65_536)?;
    }
    Ok(())
}

#[test]
fn live_tables_are_guarded(rt: HostRuntime) -> Result<(), Fail> {
    for row in &GUARDS {
        check_row(&rt, rt.alloc(), row, 65_536, 65_536)?;
    }
    Ok(())
}

#[test]
fn pages_of_two_mebibytes(rt: HostRuntime) -> Result<(), Fail> {
    for row in &LARGE {
        check_row(&rt, rt.alloc(), row, 65_536, 65_536)?;
    }
    Ok(())
}

#[test]
fn engines_are_reset_and_interrupt(rt: HostRuntime) -> Result<(), Fail> {
    for row in &RESETS {
        check_row(&rt, rt.alloc(), row, 65_536, 65_536)?;
    }
    Ok(())
}
