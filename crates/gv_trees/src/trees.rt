//! Small trees by hand: their roots come and go, and their words change. What is expected was worked out by hand.
ghost use Rattle.std.specs.Prelude.{◌≤◌, IfOk};
ghost use Rattle.gv_gpu.specs.Device.{IsEmpty};
ghost use Rattle.gv_trees.specs.Served.{IsServed};

use crate::guest::{Answer, Guest, Trouble, write_all};
use crate::physical::{root_page, walked};
use gv_engine::SoftGpu;
use gv_gpu::Gpu;
use gv_sppgtt::Changed;
use std::alloc::Global;
use std::process::Abort;
use std::test::Fail;

// A root at frame 8 over the frames 9, 10 and 11, and three pages.
const TREE: [(u64, u64); 6] = [
    (0x8000, 0x9003),
    (0x9000, 0xa003),
    (0xa000, 0xb003),
    (0xb000, 0xc003),
    (0xb008, 0xd003),
    (0xb010, 0xe003),
];

const NONE: [u32; 0] = [];

// A guest with these words.
fn guest_with<G: Gpu>(
    alloc: Global,
    gpu: &mut G,
    frames: u32,
    words: &[(u64, u64)],
) -> Result<Guest, Trouble>
    requires empty { IsEmpty (G.state gpu.old) }
    requires few { frames ≤ 16384 }
    ensures { IfOk result (λ made. IsServed (G.state gpu.new) made.memory made.tables) }
{
    let mut guest = Guest::new(alloc, gpu, frames)?;
    write_all(gpu, &mut guest, &TREE)?;
    write_all(gpu, &mut guest, words)?;
    Ok(guest)
}

// An address leads to this frame's host page, and is writable or not.
fn leads<G: Gpu>(
    rt: &impl Abort,
    gpu: &G,
    guest: &Guest,
    root: u32,
    at: u64,
    frame: u32,
    writable: bool,
)
    requires { IsServed (G.state gpu.now) guest.now.memory guest.now.tables }
{
    let page = guest.page(frame);
    assert!(rt; page.is_some(), "{frame} is a frame");
    let wanted = page.map(|page| (page, writable));
    assert_eq!(rt;
        walked(gpu, guest, root, at),
        wanted,
        "at {at:x}, by root {root}"
    );
}

// A frame is a table at these levels, as bits, and has so many pins.
fn holds<G: Gpu>(rt: &impl Abort, gpu: &G, guest: &Guest, frame: u32, roles: u8, pins: u32)
    requires { IsServed (G.state gpu.now) guest.now.memory guest.now.tables }
{
    assert_eq!(rt;
        guest.roles_and_pins(gpu, frame),
        Some((roles, pins)),
        "of {frame}"
    );
}

// These frames became guarded, and these no longer are.
fn tells(rt: &impl Abort, changed: &Changed, guarded: &[u32], unguarded: &[u32]) {
    assert_eq!(rt; changed.guarded.as_slice(), guarded);
    assert_eq!(rt; changed.unguarded.as_slice(), unguarded);
}

fn at_four_levels<G: Gpu>(rt: &impl Abort, alloc: Global, gpu: &mut G) -> Result<(), Trouble>
    requires { IsEmpty (G.state gpu.old) }
{
    let mut guest = guest_with(alloc, gpu, 32, &[(0x8000, 0x8003)])?;
    let changed = guest.create(gpu, 8)?.changed()?;
    tells(rt, &changed, &[8], &NONE);
    holds(rt, gpu, &guest, 8, 15, 1);
    leads(rt, gpu, &guest, 8, 0, 8, false);
    assert_eq!(rt; walked(gpu, &guest, 8, 0x4000), None);
    // the root names its subtree again
    let changed = guest.write(gpu, 0x8008, 0x9001)?.changed()?;
    tells(rt, &changed, &[9, 10, 11], &NONE);
    leads(rt, gpu, &guest, 8, 1 << 39, 12, true);
    Ok(())
}

#[test]
fn a_root_at_four_levels(rt: HostRuntime) -> Result<(), Fail> {
    let mut gpu = SoftGpu::new(rt.alloc());
    at_four_levels(&rt, rt.alloc(), &mut gpu)?;
    Ok(())
}

// Frame 11 is a table of level 1 at address 0, and one of level 2 at 1 GiB, where the frames that it names are
// tables of level 1.
fn at_two_levels<G: Gpu>(rt: &impl Abort, alloc: Global, gpu: &mut G) -> Result<(), Trouble>
    requires { IsEmpty (G.state gpu.old) }
{
    let mut guest = guest_with(
        alloc,
        gpu,
        32,
        &[(0x9008, 0xb003), (0xc000, 0x10003), (0xf000, 0x11003)],
    )?;
    let changed = guest.create(gpu, 8)?.changed()?;
    tells(rt, &changed, &[8, 9, 10, 11, 12, 13, 14], &NONE);
    holds(rt, gpu, &guest, 11, 3, 0);
    leads(rt, gpu, &guest, 8, 0, 12, false);
    leads(rt, gpu, &guest, 8, 0x4000_0000, 16, true);
    let changed = guest.write(gpu, 0xb000, 0xf003)?.changed()?;
    tells(rt, &changed, &[15], &[12]);
    leads(rt, gpu, &guest, 8, 0, 15, false);
    leads(rt, gpu, &guest, 8, 0x4000_0000, 17, true);
    holds(rt, gpu, &guest, 16, 0, 0);
    holds(rt, gpu, &guest, 17, 0, 1);
    Ok(())
}

#[test]
fn a_frame_at_two_levels(rt: HostRuntime) -> Result<(), Fail> {
    let mut gpu = SoftGpu::new(rt.alloc());
    at_two_levels(&rt, rt.alloc(), &mut gpu)?;
    Ok(())
}

// What is below frame 9 stays as long as one of two roots names it.
fn over_one_subtree<G: Gpu>(rt: &impl Abort, alloc: Global, gpu: &mut G) -> Result<(), Trouble>
    requires { IsEmpty (G.state gpu.old) }
{
    let mut guest = guest_with(alloc, gpu, 32, &[(0x11000, 0x9003)])?;
    let changed = guest.create(gpu, 8)?.changed()?;
    tells(rt, &changed, &[8, 9, 10, 11], &NONE);
    let changed = guest.create(gpu, 17)?.changed()?;
    tells(rt, &changed, &[17], &NONE);
    let changed = guest.create(gpu, 17)?.changed()?;
    tells(rt, &changed, &NONE, &NONE);
    let changed = guest.destroy(gpu, 8)?;
    tells(rt, &changed, &NONE, &[8]);
    assert_eq!(rt; walked(gpu, &guest, 8, 0), None);
    leads(rt, gpu, &guest, 17, 0, 12, true);
    let changed = guest.destroy(gpu, 17)?;
    tells(rt, &changed, &NONE, &[9, 10, 11, 17]);
    holds(rt, gpu, &guest, 12, 0, 0);
    Ok(())
}

#[test]
fn two_roots_over_one_subtree(rt: HostRuntime) -> Result<(), Fail> {
    let mut gpu = SoftGpu::new(rt.alloc());
    over_one_subtree(&rt, rt.alloc(), &mut gpu)?;
    Ok(())
}

// A page becomes a root, so that it can't be written, and then it is a page again.
fn both_ways<G: Gpu>(rt: &impl Abort, alloc: Global, gpu: &mut G) -> Result<(), Trouble>
    requires { IsEmpty (G.state gpu.old) }
{
    let mut guest = guest_with(alloc, gpu, 32, &[])?;
    let changed = guest.create(gpu, 8)?.changed()?;
    tells(rt, &changed, &[8, 9, 10, 11], &NONE);
    leads(rt, gpu, &guest, 8, 0, 12, true);
    let changed = guest.create(gpu, 12)?.changed()?;
    tells(rt, &changed, &[12], &NONE);
    leads(rt, gpu, &guest, 8, 0, 12, false);
    let changed = guest.destroy(gpu, 12)?;
    tells(rt, &changed, &NONE, &[12]);
    leads(rt, gpu, &guest, 8, 0, 12, true);
    Ok(())
}

#[test]
fn guarding_both_ways(rt: HostRuntime) -> Result<(), Fail> {
    let mut gpu = SoftGpu::new(rt.alloc());
    both_ways(&rt, rt.alloc(), &mut gpu)?;
    Ok(())
}

// Frames 512 to 1023 as one large page, from 2 MiB on.
fn with_large_page<G: Gpu>(rt: &impl Abort, alloc: Global, gpu: &mut G) -> Result<(), Trouble>
    requires { IsEmpty (G.state gpu.old) }
{
    let mut guest = guest_with(alloc, gpu, 1024, &[(0xa008, 0x20_0083)])?;
    let changed = guest.create(gpu, 8)?.changed()?;
    tells(rt, &changed, &[8, 9, 10, 11], &NONE);
    leads(rt, gpu, &guest, 8, 0x20_1008, 513, true);
    holds(rt, gpu, &guest, 513, 0, 1);
    let changed = guest.write(gpu, 0xa008, 0)?.changed()?;
    tells(rt, &changed, &NONE, &NONE);
    assert_eq!(rt; walked(gpu, &guest, 8, 0x20_1008), None);
    holds(rt, gpu, &guest, 513, 0, 0);
    Ok(())
}

#[test]
fn a_large_page(rt: HostRuntime) -> Result<(), Fail> {
    let mut gpu = SoftGpu::new(rt.alloc());
    with_large_page(&rt, rt.alloc(), &mut gpu)?;
    Ok(())
}

// A frame of a large page becomes a root, and the one beside it doesn't.
fn guarded_in_large_page<G: Gpu>(rt: &impl Abort, alloc: Global, gpu: &mut G) -> Result<(), Trouble>
    requires { IsEmpty (G.state gpu.old) }
{
    let mut guest = guest_with(alloc, gpu, 1024, &[(0xa008, 0x20_0083)])?;
    guest.create(gpu, 8)?.changed()?;
    let changed = guest.create(gpu, 513)?.changed()?;
    tells(rt, &changed, &[513], &NONE);
    leads(rt, gpu, &guest, 8, 0x20_1008, 513, false);
    leads(rt, gpu, &guest, 8, 0x20_2008, 514, true);
    let changed = guest.destroy(gpu, 513)?;
    tells(rt, &changed, &NONE, &[513]);
    leads(rt, gpu, &guest, 8, 0x20_1008, 513, true);
    Ok(())
}

#[test]
fn a_guarded_frame_in_a_large_page(rt: HostRuntime) -> Result<(), Fail> {
    let mut gpu = SoftGpu::new(rt.alloc());
    guarded_in_large_page(&rt, rt.alloc(), &mut gpu)?;
    Ok(())
}

fn is_refused(answer: Answer) -> bool {
    match answer {
        Answer::BadEntry => true,
        Answer::Follows(_) => false,
    }
}

// A root comes, and goes with all tables at a bad entry: frame 512 is none of the guest's.
fn come_and_go<G: Gpu>(rt: &impl Abort, gpu: &mut G, guest: &mut Guest) -> Result<(), Trouble>
    requires { IsServed (G.state gpu.old) guest.old.memory guest.old.tables }
    ensures { IsServed (G.state gpu.new) guest.new.memory guest.new.tables }
{
    guest.create(gpu, 8)?.changed()?;
    let page = root_page(guest, 8).unwrap_or(u64::MAX);
    assert!(rt; page < 128, "the root's table stands in page {page}");
    let answer = guest.write(gpu, 0x8008, 0x20_0003)?;
    assert!(rt; is_refused(answer));
    holds(rt, gpu, guest, 8, 0, 0);
    holds(rt, gpu, guest, 12, 0, 0);
    guest.write(gpu, 0x8008, 0)?.changed()?;
    Ok(())
}

fn come_and_go_often<G: Gpu>(rt: &impl Abort, alloc: Global, gpu: &mut G) -> Result<(), Trouble>
    requires { IsEmpty (G.state gpu.old) }
{
    let mut guest = guest_with(alloc, gpu, 32, &[])?;
    for _ in 0..200 {
        come_and_go(rt, gpu, &mut guest)?;
    }
    Ok(())
}

// Were one page left each time, the numbers of pages would rise.
#[test]
fn cleared_pages_come_back(rt: HostRuntime) -> Result<(), Fail> {
    let mut gpu = SoftGpu::new(rt.alloc());
    come_and_go_often(&rt, rt.alloc(), &mut gpu)?;
    Ok(())
}
