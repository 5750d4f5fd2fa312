//! A device in memory is stepped through a ring. The expected values are worked out by hand.
use crate::{Entry, SoftGpu};
use gv_gpu::{Gpu, Step};
use gv_types::{EngineId, GuestId, Label, OutOfMemory};
use std::alloc::Global;
use std::process::Abort;
use std::test::Fail;

const ENGINE: EngineId = EngineId(1);

// The context's image has the global pages 0xfc200 and 0xfc201.
const DESCRIPTOR: u64 = 0xfc20_0119;

// The pages, by the order in which they are added: two of the image, then one each of the ring, the
// fetched batch, the root, and the tables of the levels 3, 2 and 1, all of them shadow pages. After them
// come the guest's: the live batch, the one of the second level, and two of data.
const IMAGE: usize = 0;

const STATE: usize = 1;

const RING: usize = 2;

const FETCHED: usize = 3;

const ROOT: usize = 4;

const THIRD: usize = 5;

const SECOND_TABLE: usize = 6;

const FIRST_TABLE: usize = 7;

const LIVE: usize = 8;

const SECOND: usize = 9;

const LEFT: usize = 10;

const RIGHT: usize = 11;

fn label_of(page: usize) -> Label {
    Label {
        guest: GuestId(0),
        shadow: page < LIVE,
    }
}

/// A device with those pages, and their numbers.
#[derive(Drop)]
struct Rig {
    gpu: SoftGpu,
    pages: [u64; 12],
}

impl Rig {
    fn number(&self, page: usize) -> u64 {
        if page < 12 { self.pages[page] } else { 0 }
    }

    /// An entry that names a page.
    fn entry(&self, page: usize, bits: u64) -> u64 {
        self.number(page).wrapping_mul(4096).wrapping_add(bits)
    }

    fn word(&self, page: usize, index: usize) -> u64 {
        let page = self.number(page);
        if index < 512 {
            self.gpu.word_or_zero(page, index)
        } else {
            0
        }
    }

    fn poke(&mut self, page: usize, index: usize, word: u64) {
        let page = self.number(page);
        if self.gpu.label(page).is_some() && index < 512 {
            self.gpu.poke(page, index, word);
        }
    }

    /// Writes dwords, an even number, from the start of a page on.
    fn write(&mut self, page: usize, dwords: &[u32]) {
        for n in 0..dwords.len() / 2 {
            let word = u64::from(dwords[2 * n + 1]) * 0x1_0000_0000 + u64::from(dwords[2 * n]);
            self.poke(page, n, word);
        }
    }

    /// Writes one dword of the image with an odd number, and 0 before it.
    fn set_state(&mut self, dword: usize, value: u64) {
        self.poke(STATE, dword / 2, value.wrapping_mul(0x1_0000_0000));
    }

    fn state(&self, dword: usize) -> u64 {
        self.word(STATE, dword / 2) >> 32
    }

    fn map(&mut self, index: u32, page: usize, bits: u64) {
        let entry = self.entry(page, bits);
        let page = self.number(page);
        if self.gpu.label(page).is_some() && index < 1_048_576 {
            self.gpu.set_global(index, entry);
        }
    }
}

fn with_pages(alloc: Global) -> Result<Rig, OutOfMemory> {
    let mut gpu = SoftGpu::new(alloc);
    let mut pages = [0; 12];
    for page in 0..12 {
        pages[page] = gpu.add_page(label_of(page))?;
    }
    Ok(Rig { gpu, pages })
}

fn write_tables(rig: &mut Rig) {
    rig.map(0x10, LEFT, 3);
    rig.map(0xf_c200, IMAGE, 3);
    rig.map(0xf_c201, STATE, 3);
    rig.map(0xf_c210, RING, 1);
    rig.map(0xf_c220, FETCHED, 1);
    rig.poke(ROOT, 0, rig.entry(THIRD, 1));
    rig.poke(THIRD, 0, rig.entry(SECOND_TABLE, 1));
    rig.poke(SECOND_TABLE, 0, rig.entry(FIRST_TABLE, 1));
    rig.poke(FIRST_TABLE, 0, rig.entry(LIVE, 1));
    rig.poke(FIRST_TABLE, 1, rig.entry(SECOND, 1));
    rig.poke(FIRST_TABLE, 2, rig.entry(LEFT, 3));
    rig.poke(FIRST_TABLE, 3, rig.entry(RIGHT, 3));
}

fn write_commands(rig: &mut Rig) {
    rig.write(RING, &RING_DWORDS);
    rig.write(FETCHED, &[0x1040_0002, 0x1_0020, 0, 0x77, 0x0500_0000, 0]);
    rig.write(LIVE, &LIVE_DWORDS);
    rig.write(
        SECOND,
        &[0x1300_4002, 0x3000, 0, 0x55, 0x0100_0000, 0x0500_0000],
    );
    rig.poke(LEFT, 511, 0x0403_0201_0000_0000);
    rig.set_state(0x07, 0x58);
    rig.set_state(0x09, 0xfc21_0000);
    rig.set_state(0x0b, 0xf001);
    rig.set_state(0x33, rig.entry(ROOT, 0));
}

// A fetched batch is started, a wait for the dword at 0x2008 follows, then a live batch, a copy of
// the eight bytes at 0x2ffc to 0x2100, and a user interrupt.
const RING_DWORDS: [u32; 22] = [
    0x1880_0001,
    0xfc22_0000,
    0,
    0x0e00_c002,
    1,
    0x2008,
    0,
    0x1880_0101,
    0,
    0,
    0x54c0_0008,
    0x00cc_1000,
    0,
    0x1_0008,
    0x2100,
    0,
    0,
    0x1000,
    0x2ffc,
    0,
    0x0100_0000,
    0,
];

// A general register is set, a batch of the second level is started, and the register is stored.
const LIVE_DWORDS: [u32; 12] = [
    0x1100_0001,
    0x2_2600,
    0xabcd,
    0x18c0_0101,
    0x1000,
    0,
    0x1200_0002,
    0x2_2600,
    0x2010,
    0,
    0x0500_0000,
    0,
];

const BLIT: [u32; 10] = [
    0x54c0_0008,
    0x00cc_1000,
    0,
    0x1_0008,
    0x2100,
    0,
    0,
    0x1000,
    0x2ffc,
    0,
];

fn step(rig: &mut Rig) -> Result<Step, Fail> {
    rig.gpu.reserve(1)?;
    Ok(rig.gpu.step(ENGINE)?)
}

fn ran(rt: &impl Abort, rig: &mut Rig, words: &[u32], wanted: u16) -> Result<(), Fail> {
    match step(rig)? {
        Step::Ran { command, raise } => {
            assert!(rt; command.words() == words);
            assert_eq!(rt; raise, wanted);
        }
        _ => panic!(rt; "it didn't run"),
    }
    Ok(())
}

/// The steps up to the start of the second level, and a wait that doesn't hold at first.
fn first_half(rt: &impl Abort, rig: &mut Rig) -> Result<(), Fail> {
    ran(rt, rig, &[0x1880_0001, 0xfc22_0000, 0], 0)?;
    ran(rt, rig, &[0x1040_0002, 0x1_0020, 0, 0x77], 0)?;
    ran(rt, rig, &[0x0500_0000], 0)?;
    assert!(rt; step(rig)? == Step::Waits);
    rig.poke(LEFT, 1, 1);
    ran(rt, rig, &[0x0e00_c002, 1, 0x2008, 0], 0)?;
    ran(rt, rig, &[0x1880_0101, 0, 0], 0)?;
    ran(rt, rig, &[0x1100_0001, 0x2_2600, 0xabcd], 0)?;
    ran(rt, rig, &[0x18c0_0101, 0x1000, 0], 0)
}

/// The others. A user interrupt raises nothing in a live batch.
fn second_half(rt: &impl Abort, rig: &mut Rig) -> Result<(), Fail> {
    ran(rt, rig, &[0x1300_4002, 0x3000, 0, 0x55], 0)?;
    ran(rt, rig, &[0x0100_0000], 0)?;
    ran(rt, rig, &[0x0500_0000], 0)?;
    ran(rt, rig, &[0x1200_0002, 0x2_2600, 0x2010, 0], 0)?;
    ran(rt, rig, &[0x0500_0000], 0)?;
    ran(rt, rig, &BLIT, 0)?;
    ran(rt, rig, &[0x0100_0000], 1)?;
    ran(rt, rig, &[0], 0)?;
    assert!(rt; step(rig)? == Step::Ended);
    assert!(rt; step(rig)? == Step::Idle);
    Ok(())
}

/// The place is behind the live batch's start in the ring, behind the second start in that batch,
/// and at the start of the second level.
fn has_saved_place(rt: &impl Abort, rig: &Rig) {
    assert_eq!(rt; rig.state(0x05), 0x28);
    assert_eq!(rt; rig.state(0x0d), 0);
    assert_eq!(rt; rig.state(0x0f), 0x18);
    assert_eq!(rt; rig.state(0x11), 3);
    assert_eq!(rt; rig.state(0x13), 0);
    assert_eq!(rt; rig.state(0x15), 0x1000);
    assert_eq!(rt; rig.state(0x17), 3);
}

/// The journal's entries are these.
fn has_journal(rt: &impl Abort, rig: &Rig, shapes: &[&[u32]]) {
    let journal = rig.gpu.journal();
    assert_eq!(rt; journal.len(), shapes.len());
    for (entry, shape) in journal.iter().zip(shapes) {
        let Entry {
            engine,
            guest,
            shape: ran,
        } = entry;
        assert!(rt; *engine == ENGINE);
        assert!(rt; *guest == GuestId(0));
        assert!(rt; ran.words() == *shape);
    }
}

#[test]
fn a_ring_is_stepped_through(rt: HostRuntime) -> Result<(), Fail> {
    let mut rig = with_pages(rt.alloc())?;
    write_tables(&mut rig);
    write_commands(&mut rig);
    rig.gpu.submit(ENGINE, GuestId(0), DESCRIPTOR)?;
    first_half(&rt, &mut rig)?;
    rig.gpu.stop(ENGINE)?;
    has_saved_place(&rt, &rig);
    assert!(rt; step(&mut rig)? == Step::Idle);
    rig.gpu.submit(ENGINE, GuestId(0), DESCRIPTOR)?;
    second_half(&rt, &mut rig)?;
    assert_eq!(rt; rig.word(LEFT, 1), 1);
    assert_eq!(rt; rig.word(LEFT, 2), 0xabcd);
    assert_eq!(rt; rig.word(LEFT, 4), 0x77);
    assert_eq!(rt; rig.word(LEFT, 32), 0x55_0403_0201);
    assert_eq!(rt; rig.word(RIGHT, 0), 0x55);
    assert_eq!(rt; rig.gpu.general(ENGINE, 0), 0xabcd);
    assert_eq!(rt; rig.gpu.general(EngineId(0), 0), 0);
    Ok(())
}

#[test]
fn the_journal_is_the_list_of_shapes(rt: HostRuntime) -> Result<(), Fail> {
    let mut rig = with_pages(rt.alloc())?;
    write_tables(&mut rig);
    write_commands(&mut rig);
    let pokes = rig.gpu.pokes();
    rig.gpu.submit(ENGINE, GuestId(0), DESCRIPTOR)?;
    first_half(&rt, &mut rig)?;
    second_half(&rt, &mut rig)?;
    assert_eq!(rt; rig.gpu.pokes().wrapping_sub(pokes), 1);
    has_journal(
        &rt,
        &rig,
        &[
            &[0x1880_0001, 0, 0],
            &[0x1040_0002, 0x1_0020, 0, 0x77],
            &[0x0500_0000],
            &[0x0e00_c002, 1, 0x2008, 0],
            &[0x1880_0101, 0, 0],
            &[0x1100_0001, 0x2_2600, 0xabcd],
            &[0x18c0_0101, 0x1000, 0],
            &[0x1300_4002, 0x3000, 0, 0x55],
            &[0x0100_0000],
            &[0x0500_0000],
            &[0x1200_0002, 0x2_2600, 0x2010, 0],
            &[0x0500_0000],
            &BLIT,
            &[0x0100_0000],
            &[0],
        ],
    );
    Ok(())
}

// A row of zeros over the entry that it is written through, and over the next one. The first byte makes
// that entry absent, so no other byte is written.
#[test]
fn a_row_over_its_own_table_stops(rt: HostRuntime) -> Result<(), Fail> {
    let mut rig = with_pages(rt.alloc())?;
    write_tables(&mut rig);
    write_commands(&mut rig);
    let fill = [0x5400_0005, 0x00f0_1000, 0, 0x1_0010, 0x4020, 0, 0, 0];
    rig.write(RING, &fill);
    rig.set_state(0x07, 0x20);
    rig.poke(FIRST_TABLE, 4, rig.entry(FIRST_TABLE, 3));
    rig.poke(FIRST_TABLE, 5, 0x1111);
    rig.gpu.submit(ENGINE, GuestId(0), DESCRIPTOR)?;
    ran(&rt, &mut rig, &fill[..7], 0)?;
    assert_eq!(rt; rig.word(FIRST_TABLE, 4), rig.entry(FIRST_TABLE, 0));
    assert_eq!(rt; rig.word(FIRST_TABLE, 5), 0x1111);
    Ok(())
}
