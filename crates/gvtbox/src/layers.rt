//! A guest's memory and its global table, over the device in memory.
ghost use Rattle.std.specs.Prelude.{◌≡◌, ◌≤◌, IfOk, length, replicate, false};
ghost use Rattle.gv_entry.specs.Ranges.{InParts};
ghost use Rattle.gv_guest.specs.Placed.{Hosts};
ghost use Rattle.gv_sggtt.specs.Mirror.{Mirrors};
ghost use Rattle.gv_sggtt.specs.Pins.{HasPins};

use gv_engine::SoftGpu;
use gv_gpu::Gpu;
use gv_guest::{Memory, PageMove};
use gv_sggtt::GlobalTable;
use gv_types::{GuestId, OutOfMemory, Ranges, Span, Width};
use std::alloc::Global;
use std::test::Fail;

// A guest with two frames, two low pages from page 4 on, and one high page.
const RANGES: Ranges = Ranges {
    low: Span { first: 4, pages: 2 },
    high: Span {
        first: 65_536,
        pages: 1,
    },
};

// A guest with pages 0 to 99,999.
const WIDE: Ranges = Ranges {
    low: Span {
        first: 0,
        pages: 65_536,
    },
    high: Span {
        first: 65_536,
        pages: 34_464,
    },
};

fn guest(
    alloc: Global,
    ranges: Ranges,
    frames: u32,
) -> Result<(SoftGpu, Memory, GlobalTable), OutOfMemory>
    requires parts { InParts ranges }
    requires some { 1 ≤ frames }
    requires few { frames ≤ 16384 }
    ensures stands { IfOk result (λ made. Hosts (⟦<SoftGpu as Gpu>⟧.state made.0) made.1.frames) }
    ensures frames { IfOk result (λ made. length made.1.frames.pages ≡ made.2.frames) }
    ensures mirrors { IfOk result (λ made. Mirrors (⟦<SoftGpu as Gpu>⟧.state made.0) made.2 made.1.frames) }
    ensures pinned { IfOk result (λ made. HasPins made.2 made.1.pins) }
    ensures guarded { IfOk result (λ made. made.2.guarded ≡ replicate made.2.frames false) }
    ensures known { IfOk result (λ made. made.2.frames ≡ frames) }
{
    let mut gpu = SoftGpu::new(alloc);
    let memory = Memory::new(alloc, &mut gpu, GuestId(0), frames)?;
    let table = GlobalTable::new(alloc, ranges, frames)?;
    Ok((gpu, memory, table))
}

#[test]
fn entries_of_two_ranges(rt: HostRuntime) -> Result<(), Fail> {
    let (mut gpu, mut memory, mut table) = guest(rt.alloc(), RANGES, 2)?;
    table.write_entry(&mut gpu, &mut memory, 3, 0x1001);
    table.write_entry(&mut gpu, &mut memory, 5, 0x1001);
    table.write_entry(&mut gpu, &mut memory, 65_536, 0x2001);
    for (page, entry, frame) in [
        (3, 0, None),
        (4, 0, None),
        (5, 0x1001, Some(1)),
        (6, 0, None),
        (65_536, 0x2001, None),
    ] {
        assert_eq!(rt; table.entry(page), entry);
        assert_eq!(rt; table.granted(page), frame);
    }
    table.clear(&mut gpu, &mut memory);
    assert_eq!(rt; table.entry(5), 0);
    Ok(())
}

// Two entries name frame 1, one of them twice over. Guarding the frame takes their pins and their grants, and
// gives them back with it.
#[test]
fn a_frame_is_guarded(rt: HostRuntime) -> Result<(), Fail> {
    let (mut gpu, mut memory, mut table) = guest(rt.alloc(), RANGES, 2)?;
    table.write_entry(&mut gpu, &mut memory, 4, 0x1001);
    table.write_entry(&mut gpu, &mut memory, 5, 0x1003);
    table.write_entry(&mut gpu, &mut memory, 5, 0x1001);
    assert_eq!(rt; memory.pins(0), 0);
    assert_eq!(rt; memory.pins(1), 2);
    table.guard(&mut gpu, &mut memory, 1);
    assert_eq!(rt; memory.pins(1), 0);
    assert_eq!(rt; table.granted(5), None);
    assert_eq!(rt; table.entry(5), 0x1001);
    table.write_entry(&mut gpu, &mut memory, 4, 0);
    table.unguard(&mut gpu, &mut memory, 1);
    assert_eq!(rt; memory.pins(1), 1);
    assert_eq!(rt; table.granted(4), None);
    assert_eq!(rt; table.granted(5), Some(1));
    table.guard(&mut gpu, &mut memory, 0);
    table.clear(&mut gpu, &mut memory);
    assert_eq!(rt; memory.pins(1), 0);
    assert_eq!(rt; table.granted(5), None);
    Ok(())
}

// Writes the entries of so many pages, for the frames in turn.
fn write_all<G: Gpu>(gpu: &mut G, memory: &mut Memory, table: &mut GlobalTable, pages: u32)
    requires stands { Hosts (G.state gpu.old) memory.old.frames }
    requires frames { length memory.old.frames.pages ≡ table.old.frames }
    requires mirrors { Mirrors (G.state gpu.old) table.old memory.old.frames }
    requires pinned { HasPins table.old memory.old.pins }
    ensures stands { Hosts (G.state gpu.new) memory.new.frames }
    ensures frames { length memory.new.frames.pages ≡ table.new.frames }
    ensures mirrors { Mirrors (G.state gpu.new) table.new memory.new.frames }
    ensures pinned { HasPins table.new memory.new.pins }
    ensures same { table.new.frames ≡ table.old.frames }
    ensures guarded { table.new.guarded ≡ table.old.guarded }
{
    for page in 0..pages {
        table.write_entry(gpu, memory, page, u64::from(page % 16_384) * 4096 + 1);
    }
}

// Guards each frame, and then no longer.
fn guard_each<G: Gpu>(gpu: &mut G, memory: &mut Memory, table: &mut GlobalTable, frames: u32)
    requires stands { Hosts (G.state gpu.old) memory.old.frames }
    requires frames { length memory.old.frames.pages ≡ table.old.frames }
    requires mirrors { Mirrors (G.state gpu.old) table.old memory.old.frames }
    requires pinned { HasPins table.old memory.old.pins }
    requires all { frames ≤ table.old.frames }
    requires free { table.old.guarded ≡ replicate table.old.frames false }
    ensures stands { Hosts (G.state gpu.new) memory.new.frames }
    ensures frames { length memory.new.frames.pages ≡ table.new.frames }
    ensures mirrors { Mirrors (G.state gpu.new) table.new memory.new.frames }
    ensures pinned { HasPins table.new memory.new.pins }
    ensures same { table.new.frames ≡ table.old.frames }
{
    for frame in 0..frames {
        table.guard(gpu, memory, frame);
        table.unguard(gpu, memory, frame);
    }
}

// This takes a time that grows with the number of entries and frames. Were the range looked through for each
// frame, it would take some thousand times as long.
#[test]
fn many_entries_of_many_frames(rt: HostRuntime) -> Result<(), Fail> {
    let (mut gpu, mut memory, mut table) = guest(rt.alloc(), WIDE, 16_384)?;
    write_all(&mut gpu, &mut memory, &mut table, 100_000);
    assert_eq!(rt; memory.pins(0), 7);
    assert_eq!(rt; memory.pins(16_383), 6);
    guard_each(&mut gpu, &mut memory, &mut table, 16_384);
    assert_eq!(rt; memory.pins(16_383), 6);
    assert_eq!(rt; table.granted(99_999), Some(1_695));
    table.clear(&mut gpu, &mut memory);
    assert_eq!(rt; memory.pins(0), 0);
    assert_eq!(rt; table.entry(99_999), 0);
    Ok(())
}

// A pinned frame is kept. The other one goes into another page, with its words.
#[test]
fn a_frame_moves(rt: HostRuntime) -> Result<(), Fail> {
    let mut gpu = SoftGpu::new(rt.alloc());
    let mut memory = Memory::new(rt.alloc(), &mut gpu, GuestId(0), 2)?;
    memory.write(&mut gpu, 0x1008, Width::Eight, 9);
    memory.pin(0);
    assert_eq!(rt; memory.pins(0), 1);
    let (first, second) = (memory.page(0), memory.page(1));
    assert_eq!(rt; memory.move_page(&mut gpu, 0)?, PageMove::Kept);
    assert_eq!(rt; memory.move_page(&mut gpu, 1)?, PageMove::Moved);
    assert_eq!(rt; memory.page(0), first);
    assert!(rt; memory.page(1) != second);
    assert_eq!(rt; memory.read(&gpu, 0x1008, Width::Eight), 9);
    memory.unpin(0);
    assert_eq!(rt; memory.move_page(&mut gpu, 0)?, PageMove::Moved);
    Ok(())
}

// Two frames: the last word of the first, the first of the second, and past the end.
#[test]
fn two_frames(rt: HostRuntime) -> Result<(), Fail> {
    let mut gpu = SoftGpu::new(rt.alloc());
    let memory = Memory::new(rt.alloc(), &mut gpu, GuestId(0), 2)?;
    assert_eq!(rt; memory.frames(), 2);
    memory.write(&mut gpu, 0xff8, Width::Eight, 0x1122_3344_5566_7788);
    memory.write(&mut gpu, 0xffc, Width::Four, 0xaabb_ccdd);
    memory.write(&mut gpu, 0x1000, Width::Four, 7);
    memory.write(&mut gpu, 0x2000, Width::Eight, 9);
    assert_eq!(rt;
        memory.read(&gpu, 0xff8, Width::Eight),
        0xaabb_ccdd_5566_7788
    );
    assert_eq!(rt; memory.read(&gpu, 0xff8, Width::Four), 0x5566_7788);
    assert_eq!(rt; memory.read(&gpu, 0x1000, Width::Eight), 7);
    assert_eq!(rt; memory.read(&gpu, 0x2000, Width::Four), 0xffff_ffff);
    Ok(())
}
