ghost use Rattle.std.proofs.Common.{rules};
ghost use Rattle.std.specs.Prelude.{◌≤◌, ◌^◌, ◌/◌, nat_lt, unwrap_or, slice_get};
ghost use Rattle.gv_fetch.specs.Fetch.{GlobalSpace};

use crate::{Program, Reader, ScanFault, scan};
use gv_ctx::Image;
use gv_types::{EngineId, Reason};
use std::alloc::{AllocError, Global};
use std::process::Abort;
use std::test::Fail;

/// A guest that owns the first pages of the global table, with these dwords from address 0 on.
#[derive(Drop)]
struct Pages {
    count: u64,
    words: Vec<u32>,
    ghost few: { count ≤ 2 ^ 20 },
}

impl Reader for Pages {
    ghost space = { λ s. record { owned = λ page. nat_lt page s.count; word = λ at. unwrap_or (slice_get s.words.items (at / 4)) 0 } };

    fn owned(&self, page: u64) -> bool {
        page < self.count
    }

    fn word(&self, at: u32) -> u32 {
        self.words.get((at / 4) as usize).copied().unwrap_or(0)
    }

    ghost below = { λ s page own. Prim.search rules };
}

impl Pages {
    /// Sixteen pages of zeros.
    fn new(alloc: Global) -> Result<Self, AllocError> {
        let words = vec![in alloc; 0; 16384]?;
        Ok(Pages { count: 16, words })
    }

    /// Dwords from an address on.
    fn put(&mut self, at: usize, values: &[u32]) {
        for (n, value) in values.iter().enumerate() {
            if let Some(word) = self.words.get_mut((at / 4).wrapping_add(n)) {
                *word = *value;
            }
        }
    }

    /// The scan of a ring of so many pages from a start on.
    fn scan_ring(
        &self,
        alloc: Global,
        engine: u8,
        start: u32,
        control: u32,
        head: u32,
        tail: u32,
    ) -> Result<Program, ScanFault> {
        let mut page = [0; 1024];
        page[0x05] = head;
        page[0x07] = tail;
        page[0x09] = start;
        page[0x0b] = control;
        match Image::read(&page) {
            Ok(image) => scan(alloc, EngineId(engine), &image, self),
            Err(_) => Err(ScanFault::OutOfMemory),
        }
    }

    /// The scan of the ring at 0x2000, one page, from the head to the tail.
    fn scan(&self, alloc: Global, engine: u8, head: u32, tail: u32) -> Result<Program, ScanFault> {
        self.scan_ring(alloc, engine, 0x2000, 1, head, tail)
    }
}

fn gives(rt: &impl Abort, outcome: Result<Program, ScanFault>, ring: &[u32], batches: &[u32]) {
    match outcome {
        Ok(program) => {
            assert!(rt; program.ring.as_slice() == ring);
            assert!(rt; program.batches.as_slice() == batches);
        }
        Err(_) => panic!(rt; "no program"),
    }
}

fn refused(rt: &impl Abort, outcome: Result<Program, ScanFault>, reason: Reason) {
    match outcome {
        Ok(_) => panic!(rt; "a program"),
        Err(fault) => assert!(rt; fault == ScanFault::Refused(reason)),
    }
}

const END: u32 = 0x0500_0000;

const PRIVILEGED: u32 = 0x1880_0001;

const SECOND: u32 = 0x18c0_0001;

/// A command of each row that any engine runs. All operands are at 0x2800 or at 0x3000.
const COMMANDS: [&[u32]; 13] = [
    &[0],
    &[0x0100_0000],
    &[0x0280_0000],
    &[0x0400_0001],
    &[0x0e40_c002, 1, 0x2800, 0],
    &[0x1040_0002, 0x2800, 0, 0x11],
    &[0x1060_0003, 0x2800, 0, 0x11, 0x22],
    &[0x1100_0003, 0x22600, 5, 0x22604, 6],
    &[0x1240_0002, 0x22600, 0x2800, 0],
    &[0x14c0_0002, 0x22604, 0x2804, 0],
    &[0x1500_0001, 0x22600, 0x2260c],
    &[0x1760_0003, 0x3000, 0, 0x2800, 0],
    &[0x1700_0003, 0xffff_0000, 0xffff, 0xffff_0004, 0xffff],
];

const FLUSH: &[u32] = &[0x1300_4003, 0x2804, 0, 0x2a, 0x2b];

const PIPE_CONTROL: &[u32] = &[0x7a00_0004, 0x0100_4100, 0x2800, 0, 0x2a, 0x2b];

const COLOUR: &[u32] = &[
    0x5430_0005,
    0x03f0_0010,
    1,
    0x2_0002,
    0x1000,
    0,
    0xabcd_1234,
];

const COPY: &[u32] = &[
    0x54c0_0008,
    0x00cc_0010,
    0,
    0x1_0008,
    0x1004,
    0,
    0x3_0005,
    0x20,
    0x1001,
    1,
];

const LIVE: &[u32] = &[0x1880_0101, 0x1234_5670, 7];

const LIVE_SECOND: &[u32] = &[0x18c0_0101, 0x1234_5670, 7];

/// A command in the ring, padded by NOOPs to ten dwords.
fn in_ring(alloc: Global, engine: u8, command: &[u32]) -> Result<Program, ScanFault> {
    let mut pages = Pages::new(alloc)?;
    pages.put(0x2000, command);
    pages.scan(alloc, engine, 0, 0x28)
}

/// A command at the front of a privileged batch of eleven dwords, which ends.
fn in_batch(alloc: Global, engine: u8, command: &[u32]) -> Result<Program, ScanFault> {
    let mut pages = Pages::new(alloc)?;
    pages.put(0x2000, &[PRIVILEGED, 0x4000, 0, 0]);
    pages.put(0x4000, command);
    pages.put(0x4028, &[END]);
    pages.scan(alloc, engine, 0, 0x10)
}

/// A command at the front of a batch of the second level of eleven dwords, which ends.
fn in_second(alloc: Global, engine: u8, command: &[u32]) -> Result<Program, ScanFault> {
    let mut pages = Pages::new(alloc)?;
    pages.put(0x2000, &[PRIVILEGED, 0x4000, 0, 0]);
    pages.put(0x4000, &[SECOND, 0x4800, 0, END]);
    pages.put(0x4800, command);
    pages.put(0x4828, &[END]);
    pages.scan(alloc, engine, 0, 0x10)
}

/// A command with zeros behind it up to so many dwords, and then others.
fn padded(
    alloc: Global,
    command: &[u32],
    count: usize,
    behind: &[u32],
) -> Result<Vec<u32>, AllocError> {
    let mut words = Vec::new(alloc);
    words.extend_from_slice(command)?;
    for _zero in command.len()..count {
        words.push(0)?;
    }
    words.extend_from_slice(behind)?;
    Ok(words)
}

/// Where a command may stand, of the ring, a batch and the second level, the scan copies it; elsewhere
/// the reason is `Command`.
fn stands(
    rt: &impl Abort,
    alloc: Global,
    engine: u8,
    command: &[u32],
    places: (bool, bool, bool),
) -> Result<(), AllocError> {
    let (ring, batch, second) = places;
    if ring {
        let copy = padded(alloc, command, 10, &[])?;
        gives(rt, in_ring(alloc, engine, command), &copy, &[]);
    } else {
        refused(rt, in_ring(alloc, engine, command), Reason::Command);
    }
    if batch {
        let copy = padded(alloc, command, 10, &[END])?;
        gives(
            rt,
            in_batch(alloc, engine, command),
            &[PRIVILEGED, 0, 0, 0],
            &copy,
        );
    } else {
        refused(rt, in_batch(alloc, engine, command), Reason::Command);
    }
    if second {
        // the second level is copied first: 44 bytes
        let copy = padded(alloc, command, 10, &[END, SECOND, 0, 0, END])?;
        gives(
            rt,
            in_second(alloc, engine, command),
            &[PRIVILEGED, 44, 0, 0],
            &copy,
        );
    } else {
        refused(rt, in_second(alloc, engine, command), Reason::Command);
    }
    Ok(())
}

#[test]
fn commands_of_every_engine(rt: HostRuntime) -> Result<(), Fail> {
    for command in COMMANDS {
        for engine in 0..4 {
            stands(&rt, rt.alloc(), engine, command, (true, true, true))?;
        }
    }
    Ok(())
}

#[test]
fn commands_of_some_engines(rt: HostRuntime) -> Result<(), Fail> {
    for engine in 0..4 {
        let flush = engine != 0;
        stands(&rt, rt.alloc(), engine, FLUSH, (flush, flush, flush))?;
        let pipe = engine == 0;
        stands(&rt, rt.alloc(), engine, PIPE_CONTROL, (pipe, pipe, pipe))?;
        let blit = engine == 1;
        stands(&rt, rt.alloc(), engine, COLOUR, (blit, blit, blit))?;
        stands(&rt, rt.alloc(), engine, COPY, (blit, blit, blit))?;
    }
    Ok(())
}

/// The same reason in each of the three places.
fn refused_everywhere(rt: &impl Abort, alloc: Global, engine: u8, command: &[u32], reason: Reason) {
    refused(rt, in_ring(alloc, engine, command), reason);
    refused(rt, in_batch(alloc, engine, command), reason);
    refused(rt, in_second(alloc, engine, command), reason);
}

#[test]
fn starts_and_ends(rt: HostRuntime) -> Result<(), Fail> {
    stands(&rt, rt.alloc(), 2, LIVE, (true, false, false))?;
    stands(&rt, rt.alloc(), 2, LIVE_SECOND, (false, true, false))?;
    let end: &[u32] = &[END];
    refused(&rt, in_ring(rt.alloc(), 1, end), Reason::Command);
    let second: &[u32] = &[SECOND, 0x4800];
    refused(&rt, in_ring(rt.alloc(), 1, second), Reason::Command);
    refused(&rt, in_second(rt.alloc(), 1, second), Reason::Command);
    let first: &[u32] = &[PRIVILEGED, 0x4800];
    refused(&rt, in_batch(rt.alloc(), 1, first), Reason::Command);
    refused(&rt, in_second(rt.alloc(), 1, first), Reason::Command);
    Ok(())
}

/// An unlisted header, and a listed one whose other dwords make it unlisted.
#[test]
fn unlisted(rt: HostRuntime) {
    refused_everywhere(&rt, rt.alloc(), 1, &[0x7a00_0005], Reason::Command);
    let clipped: &[u32] = &[0x5430_0005, 0x43f0_0010, 1, 0x2_0002, 0x1000, 0, 0];
    refused_everywhere(&rt, rt.alloc(), 1, clipped, Reason::Command);
}

/// Every global operand past the last owned page, 0xf: the first dword, or only the second one.
const AWAY: [&[u32]; 9] = [
    &[0x0e40_c002, 1, 0x10000, 0],
    &[0x1040_0002, 0x2800, 1, 0x11],
    &[0x1060_0003, 0xfffc, 0, 0x11, 0x22],
    &[0x1240_0002, 0x22600, 0x10000, 0],
    &[0x14c0_0002, 0x22604, 0x10000, 0],
    &[0x1760_0003, 0x10000, 0, 0x2800, 0],
    &[0x1760_0003, 0x3000, 0, 0x10000, 0],
    &[0x1720_0003, 0x10000, 0, 0x10000, 0],
    &[0x1300_4003, 0x10004, 0, 0x2a, 0x2b],
];

#[test]
fn operands(rt: HostRuntime) {
    for command in AWAY {
        refused_everywhere(&rt, rt.alloc(), 1, command, Reason::Range);
    }
    let pipe: &[u32] = &[0x7a00_0004, 0x0100_4000, 0x10000, 0, 0, 0];
    refused_everywhere(&rt, rt.alloc(), 0, pipe, Reason::Range);
    // the last dwords that are owned
    let last: &[u32] = &[0x1060_0003, 0xfff8, 0, 0x11, 0x22];
    let ring: &[u32] = &[0x1060_0003, 0xfff8, 0, 0x11, 0x22, 0, 0, 0, 0, 0];
    gives(&rt, in_ring(rt.alloc(), 1, last), ring, &[]);
}

/// A batch that begins at an address, with these dwords there.
fn batch_at(alloc: Global, to: u32, high: u32, command: &[u32]) -> Result<Program, ScanFault> {
    let mut pages = Pages::new(alloc)?;
    pages.put(0x2000, &[PRIVILEGED, to, high, 0]);
    pages.put(to as usize, command);
    pages.scan(alloc, 1, 0, 0x10)
}

/// In a batch: the header's page, an unlisted header, the other dwords' pages, where it stands, and
/// operands, in this order.
#[test]
fn the_order_of_tests(rt: HostRuntime) {
    refused(&rt, batch_at(rt.alloc(), 0x10000, 0, &[]), Reason::Range);
    let unlisted: &[u32] = &[0x1040_0003];
    refused(
        &rt,
        batch_at(rt.alloc(), 0xfffc, 0, unlisted),
        Reason::Command,
    );
    let pipe: &[u32] = &[0x7a00_0004, 0x0100_4000];
    refused(&rt, batch_at(rt.alloc(), 0xfffc, 0, pipe), Reason::Range);
    refused(&rt, batch_at(rt.alloc(), 0xfff8, 0, pipe), Reason::Range);
    let away: &[u32] = &[0x7a00_0004, 0x0100_4000, 0x10000];
    refused(&rt, batch_at(rt.alloc(), 0x4000, 0, away), Reason::Command);
    // a batch that runs off the last page, and one above 2^32
    refused(&rt, batch_at(rt.alloc(), 0xff00, 0, &[]), Reason::Range);
    refused(&rt, batch_at(rt.alloc(), 0x4000, 1, &[]), Reason::Range);
}

const STORE: &[u32] = &[0x1040_0002, 0x2800, 0, 0x33];

#[test]
fn a_command_ends_by_the_tail(rt: HostRuntime) -> Result<(), Fail> {
    let mut pages = Pages::new(rt.alloc())?;
    pages.put(0x2000, STORE);
    refused(&rt, pages.scan(rt.alloc(), 1, 0, 8), Reason::Command);
    gives(&rt, pages.scan(rt.alloc(), 1, 0, 0x10), STORE, &[]);
    // across the end of the ring, also from a head that is 4 modulo 8
    let mut wrapped = Pages::new(rt.alloc())?;
    wrapped.put(0x2ff4, &[0x0100_0000, 0x1040_0002, 0x2800]);
    wrapped.put(0x2000, &[0, 0x33]);
    gives(&rt, wrapped.scan(rt.alloc(), 1, 0xff8, 8), STORE, &[]);
    let odd: &[u32] = &[0x0100_0000, 0x1040_0002, 0x2800, 0, 0x33];
    gives(&rt, wrapped.scan(rt.alloc(), 1, 0xff4, 8), odd, &[]);
    gives(&rt, wrapped.scan(rt.alloc(), 1, 8, 8), &[], &[]);
    Ok(())
}

#[test]
fn the_rings_pages_are_owned(rt: HostRuntime) -> Result<(), Fail> {
    let pages = Pages::new(rt.alloc())?;
    gives(
        &rt,
        pages.scan_ring(rt.alloc(), 1, 0xf000, 1, 0, 8),
        &[0, 0],
        &[],
    );
    let past = pages.scan_ring(rt.alloc(), 1, 0xf000, 0x1001, 0, 8);
    refused(&rt, past, Reason::Range);
    Ok(())
}

#[test]
fn levels(rt: HostRuntime) -> Result<(), Fail> {
    // a batch that its guest changes after the load is what it was
    let mut pages = Pages::new(rt.alloc())?;
    pages.put(0x2000, &[PRIVILEGED, 0x4000, 0, 0]);
    pages.put(0x4000, &[0x1040_0002, 0x2800, 0, 0x11, END]);
    let ring: &[u32] = &[PRIVILEGED, 0, 0, 0];
    let batch: &[u32] = &[0x1040_0002, 0x2800, 0, 0x11, END];
    gives(&rt, pages.scan(rt.alloc(), 1, 0, 0x10), ring, batch);
    // a batch of the second level
    pages.put(0x4000, &[SECOND, 0x4800, 0, END]);
    pages.put(0x4800, &[0x1040_0002, 0x2800, 0, 0x44, END]);
    let ring: &[u32] = &[PRIVILEGED, 20, 0, 0];
    let both: &[u32] = &[0x1040_0002, 0x2800, 0, 0x44, END, SECOND, 0, 0, END];
    gives(&rt, pages.scan(rt.alloc(), 1, 0, 0x10), ring, both);
    // and one of the third
    pages.put(0x4800, &[SECOND, 0x4800, 0]);
    refused(&rt, pages.scan(rt.alloc(), 1, 0, 0x10), Reason::Command);
    Ok(())
}

/// A batch is fetched each time it is started.
#[test]
fn a_batch_twice(rt: HostRuntime) -> Result<(), Fail> {
    let mut pages = Pages::new(rt.alloc())?;
    pages.put(0x2000, &[PRIVILEGED, 0x4000, 0, PRIVILEGED, 0x4000, 0]);
    pages.put(0x4000, &[0x0100_0000, END]);
    let ring: &[u32] = &[PRIVILEGED, 0, 0, PRIVILEGED, 8, 0];
    let batches: &[u32] = &[0x0100_0000, END, 0x0100_0000, END];
    gives(&rt, pages.scan(rt.alloc(), 1, 0, 0x18), ring, batches);
    Ok(())
}

/// So many starts of a batch of 12,288 dwords, whose end is the last dword of page 0xf.
fn starts(alloc: Global, count: usize, tail: u32) -> Result<Program, ScanFault> {
    let mut pages = Pages::new(alloc)?;
    pages.put(0xfffc, &[END]);
    let mut at = 0x2000usize;
    for _start in 0..count {
        pages.put(at, &[PRIVILEGED, 0x4000, 0]);
        at = at.wrapping_add(12);
    }
    pages.scan(alloc, 1, 0, tail)
}

#[test]
fn many_batches(rt: HostRuntime) {
    match starts(rt.alloc(), 21, 0x100) {
        Ok(program) => {
            assert_eq!(rt; program.ring.len(), 64);
            assert_eq!(rt; program.batches.len(), 258048);
        }
        Err(_) => panic!(rt; "no program"),
    }
    refused(&rt, starts(rt.alloc(), 22, 0x108), Reason::Size);
}

/// One batch of as many dwords, whose last one ends it. The guest owns 264 pages.
fn long_batch(alloc: Global, count: usize) -> Result<Program, ScanFault> {
    let words = vec![in alloc; 0; 270336]?;
    let mut pages = Pages { count: 264, words };
    pages.put(0x2000, &[PRIVILEGED, 0x4000, 0, 0]);
    pages.put(count.wrapping_mul(4).wrapping_add(0x3ffc), &[END]);
    pages.scan(alloc, 3, 0, 0x10)
}

#[test]
fn the_longest_batch(rt: HostRuntime) {
    match long_batch(rt.alloc(), 262144) {
        Ok(program) => {
            assert_eq!(rt; program.batches.len(), 262144);
            assert!(rt; program.batches.last().copied() == Some(END));
        }
        Err(_) => panic!(rt; "no program"),
    }
    refused(&rt, long_batch(rt.alloc(), 262145), Reason::Size);
}
