//! What a changed word costs, whatever the size of the other tables.
ghost use Rattle.std.specs.Prelude.{◌<◌, IfOk};
ghost use Rattle.gv_gpu.specs.Device.{IsEmpty};
ghost use Rattle.gv_engine.specs.Whole.{whole};
ghost use Rattle.gv_devices.specs.Counting.{whole as counting_whole};
ghost use Rattle.gv_trees.specs.Served.{IsServed};

use crate::guest::{Guest, Trouble, write_all};
use gv_devices::CountingGpu;
use gv_engine::SoftGpu;
use gv_gpu::Gpu;
use std::alloc::Global;
use std::process::Abort;
use std::test::Fail;

// Words of the tables above level 1: the root in frame 0, tables of level 3 in frames 1 and 2, and of level 2 in
// frames 3 and 4.
const ABOVE: [(u64, u64); 8] = [
    (0x0000, 0x1003),
    (0x0008, 0x2003),
    (0x0010, 0x1003),
    (0x1000, 0x3003),
    (0x1008, 0x4003),
    (0x1010, 0x3003),
    (0x2000, 0x3003),
    (0x2008, 0x4003),
];

// Changes after which the same tables are live: three at level 1, and one at each level above.
const CHANGES: [(u64, u64); 6] = [
    (0x8028, 0x6_5003),
    (0x8030, 0),
    (0x8030, 0x6_6001),
    (0x3028, 0xe003),
    (0x1010, 0x4003),
    (0x0010, 0x2003),
];

// Frame 3 names 64 full tables of level 1, each twice.
fn full_tables<G: Gpu>(alloc: Global, gpu: &mut G) -> Result<Guest, Trouble>
    requires { IsEmpty (G.state gpu.old) }
    ensures { IfOk result (λ made. IsServed (G.state gpu.new) made.memory made.tables) }
{
    let mut guest = Guest::new(alloc, gpu, 256)?;
    write_all(gpu, &mut guest, &ABOVE)?;
    fill_tables(gpu, &mut guest)?;
    guest.create(gpu, 0)?.changed()?;
    Ok(guest)
}

fn fill_tables<G: Gpu>(gpu: &mut G, guest: &mut Guest) -> Result<(), Trouble>
    requires { IsServed (G.state gpu.old) guest.old.memory guest.old.tables }
    ensures { IsServed (G.state gpu.new) guest.new.memory guest.new.tables }
{
    for table in 0..64u64 {
        let entry = (table + 8) * 4096 + 3;
        guest.write(gpu, 0x3000 + table * 8, entry)?;
        guest.write(gpu, 0x3200 + table * 8, entry)?;
        fill(gpu, guest, table + 8)?;
    }
    Ok(())
}

fn fill<G: Gpu>(gpu: &mut G, guest: &mut Guest, table: u64) -> Result<(), Trouble>
    requires served { IsServed (G.state gpu.old) guest.old.memory guest.old.tables }
    requires few { table < 100 }
    ensures { IsServed (G.state gpu.new) guest.new.memory guest.new.tables }
{
    for index in 0..512u64 {
        guest.write(
            gpu,
            (table * 512 + index) * 8,
            (100 + index % 128) * 4096 + 3,
        )?;
    }
    Ok(())
}

fn reads_few(
    rt: &impl Abort,
    gpu: &mut CountingGpu,
    guest: &mut Guest,
    at: u64,
    value: u64,
) -> Result<(), Trouble>
    requires { IsServed (counting_whole gpu.old) guest.old.memory guest.old.tables }
    ensures { IsServed (counting_whole gpu.new) guest.new.memory guest.new.tables }
{
    let before = gpu.reads();
    guest.write(gpu, at, value)?.changed()?;
    let reads = gpu.reads().saturating_sub(before);
    assert!(rt; 0 < reads && reads <= 64, "{reads} words read at {at:x}");
    Ok(())
}

#[test]
fn a_changed_word_reads_few_words(rt: HostRuntime) -> Result<(), Fail> {
    let mut gpu = CountingGpu::new(rt.alloc());
    let mut guest = full_tables(rt.alloc(), &mut gpu)?;
    for (at, value) in &CHANGES {
        reads_few(&rt, &mut gpu, &mut guest, *at, *value)?;
    }
    Ok(())
}

// The next number of a sequence, and the word of a full table that it stands for: its address, and an entry of one
// of the frames behind the tables, which may be read-only.
fn next_word(number: u64) -> (u64, u64, u64) {
    let next = number
        .wrapping_mul(6_364_136_223_846_793_005)
        .wrapping_add(1_442_695_040_888_963_407);
    let table = 8 + (next >> 33) % 64;
    let index = (next >> 40) % 512;
    let frame = 100 + (next >> 50) % 128;
    let bits = 1 + 2 * ((next >> 60) % 2);
    (next, (table * 512 + index) * 8, frame * 4096 + bits)
}

#[test]
fn thousands_of_words_read_few_words(rt: HostRuntime) -> Result<(), Fail> {
    let mut gpu = CountingGpu::new(rt.alloc());
    let mut guest = full_tables(rt.alloc(), &mut gpu)?;
    let mut number = 18;
    for _ in 0..3000u32 {
        let (next, at, value) = next_word(number);
        number = next;
        reads_few(&rt, &mut gpu, &mut guest, at, value)?;
    }
    Ok(())
}

fn pokes_two(
    rt: &impl Abort,
    gpu: &mut SoftGpu,
    guest: &mut Guest,
    at: u64,
    value: u64,
) -> Result<(), Trouble>
    requires { IsServed (whole gpu.old) guest.old.memory guest.old.tables }
    ensures { IsServed (whole gpu.new) guest.new.memory guest.new.tables }
{
    let before = gpu.pokes();
    guest.write(gpu, at, value)?.changed()?;
    let pokes = gpu.pokes().saturating_sub(before);
    assert_eq!(rt; pokes, 2, "at {at:x}");
    Ok(())
}

fn pokes_two_at_most(
    rt: &impl Abort,
    gpu: &mut SoftGpu,
    guest: &mut Guest,
    at: u64,
    value: u64,
) -> Result<(), Trouble>
    requires { IsServed (whole gpu.old) guest.old.memory guest.old.tables }
    ensures { IsServed (whole gpu.new) guest.new.memory guest.new.tables }
{
    let before = gpu.pokes();
    guest.write(gpu, at, value)?.changed()?;
    let pokes = gpu.pokes().saturating_sub(before);
    assert!(rt; 0 < pokes && pokes <= 2, "{pokes} words poked at {at:x}");
    Ok(())
}

#[test]
fn thousands_of_words_poke_two_words_at_most(rt: HostRuntime) -> Result<(), Fail> {
    let mut gpu = SoftGpu::new(rt.alloc());
    let mut guest = full_tables(rt.alloc(), &mut gpu)?;
    let mut number = 18;
    for _ in 0..3000u32 {
        let (next, at, value) = next_word(number);
        number = next;
        pokes_two_at_most(&rt, &mut gpu, &mut guest, at, value)?;
    }
    Ok(())
}

// The guest's own word, and the table's.
#[test]
fn a_changed_word_pokes_two_words(rt: HostRuntime) -> Result<(), Fail> {
    let mut gpu = SoftGpu::new(rt.alloc());
    let mut guest = full_tables(rt.alloc(), &mut gpu)?;
    for (at, value) in &CHANGES {
        pokes_two(&rt, &mut gpu, &mut guest, *at, *value)?;
    }
    Ok(())
}
