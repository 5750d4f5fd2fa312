//! Many words and roots by a generator. After each call the shadow tables are compared with the guest's own, read
//! plainly: the levels of each frame, what became guarded, the leaves of each frame, and some walks.
ghost use Rattle.std.specs.Prelude.{◌+◌, ◌<◌, ◌≤◌};
ghost use Rattle.gv_gpu.specs.Device.{IsEmpty};
ghost use Rattle.gv_trees.specs.Served.{IsServed};

use crate::guest::{Answer, Guest, Trouble};
use crate::physical::walked;
use crate::plain::{INDICES, Live, live_tables, walk};
use gv_engine::SoftGpu;
use gv_gpu::Gpu;
use gv_sppgtt::Changed;
use std::alloc::Global;
use std::process::Abort;
use std::test::Fail;

/// A sequence of numbers, from a fixed one on.
#[derive(Drop)]
struct Numbers {
    state: u64,
}

impl Numbers {
    fn below(&mut self, end: u64) -> u64
        requires { 0 < end }
        ensures { result < end }
    {
        self.state = self
            .state
            .wrapping_mul(6_364_136_223_846_793_005)
            .wrapping_add(1_442_695_040_888_963_407);
        (self.state >> 33) % end
    }

    // One of the indices that have entries.
    fn index(&mut self) -> u64
        ensures { result < 512 }
    {
        match self.below(4) {
            0 => 1,
            1 => 511,
            _ => 0,
        }
    }

    // An address by such indices. Its highest bits mean nothing.
    fn address(&mut self) -> u64 {
        let high = self.below(3) << 48 | self.index() << 39 | self.index() << 30;
        high | self.index() << 21 | self.index() << 12 | self.below(4096)
    }
}

/// The roots of a guest, and which of its frames are told to be guarded.
#[derive(Drop)]
struct Seen {
    alloc: Global,
    roots: Vec<u32>,
    guarded: Vec<bool>,
    // how many calls were refused, and how many of the walks found a page
    refused: u32,
    mapped: u32,
}

impl Seen {
    fn new(alloc: Global, frames: u32) -> Result<Seen, Trouble> {
        Ok(Seen {
            alloc,
            roots: Vec::new(alloc),
            guarded: vec![in alloc; false; frames as usize]?,
            refused: 0,
            mapped: 0,
        })
    }

    // A bad entry is answered exactly where the tables that are live now have one, or the root is none of the
    // frames. Nothing is left of the tables then.
    fn settle<G: Gpu>(
        &mut self,
        rt: &impl Abort,
        gpu: &G,
        guest: &Guest,
        answer: Answer,
        outside: bool,
    ) -> Result<bool, Trouble>
        requires { IsServed (G.state gpu.now) guest.now.memory guest.now.tables }
    {
        let live = live_tables(self.alloc, gpu, guest, &self.roots)?;
        match answer {
            Answer::Follows(changed) => {
                assert!(rt; !live.has_bad_entry && !outside);
                self.take(rt, &changed);
                self.compare(rt, gpu, guest, &live);
                Ok(true)
            }
            Answer::BadEntry => {
                assert!(rt; live.has_bad_entry || outside);
                self.forget();
                let nothing = live_tables(self.alloc, gpu, guest, &self.roots)?;
                self.compare(rt, gpu, guest, &nothing);
                Ok(false)
            }
        }
    }

    fn forget(&mut self) {
        self.refused = self.refused.wrapping_add(1);
        self.roots.clear();
        for guarded in self.guarded.iter_mut() {
            *guarded = false;
        }
    }

    // Each frame that is told of was not yet guarded, or was so far.
    fn take(&mut self, rt: &impl Abort, changed: &Changed) {
        self.flip(rt, &changed.guarded, true);
        self.flip(rt, &changed.unguarded, false);
    }

    fn flip(&mut self, rt: &impl Abort, frames: &Vec<u32>, guarded: bool) {
        let mut next = 0;
        for frame in frames {
            assert!(rt; *frame >= next, "frames are told in rising order");
            next = frame.saturating_add(1);
            match self.guarded.get_mut(*frame as usize) {
                Some(was) => {
                    assert!(rt; *was != guarded, "{frame} is told again");
                    *was = guarded;
                }
                None => panic!(rt; "{frame} is outside"),
            }
        }
    }

    // Each frame's levels, guard and pins are those of the live tables.
    fn compare<G: Gpu>(&self, rt: &impl Abort, gpu: &G, guest: &Guest, live: &Live)
        requires { IsServed (G.state gpu.now) guest.now.memory guest.now.tables }
    {
        for frame in 0..guest.memory.frames() {
            let held = guest.roles_and_pins(gpu, frame);
            let place = frame as usize;
            let roles = live.roles.get(place).copied();
            let leaves = live.leaves.get(place).copied();
            assert_eq!(rt; roles, held.map(|held| held.0), "levels of {frame}");
            assert_eq!(rt;
                leaves,
                held.map(|held| u64::from(held.1)),
                "pins of {frame}"
            );
            let guarded = self.guarded.get(place).copied();
            assert_eq!(rt; guarded, roles.map(|roles| roles != 0), "guard of {frame}");
        }
    }

    // The physical walk leads to the host page of the frame that the guest's own tables map, and is writable where
    // their page is and the frame isn't guarded.
    fn walk<G: Gpu>(&mut self, rt: &impl Abort, gpu: &G, guest: &Guest, root: u32, at: u64)
        requires { IsServed (G.state gpu.now) guest.now.memory guest.now.tables }
    {
        let wanted = match walk(gpu, guest, root, at) {
            Some((frame, writable)) => {
                self.mapped = self.mapped.wrapping_add(1);
                let guarded = self.guarded.get(frame as usize).copied();
                guest
                    .page(frame)
                    .map(|page| (page, writable && guarded == Some(false)))
            }
            None => None,
        };
        assert_eq!(rt;
            walked(gpu, guest, root, at),
            wanted,
            "at {at:x}, by root {root}"
        );
    }

    fn walk_some<G: Gpu>(&mut self, rt: &impl Abort, gpu: &G, guest: &Guest, numbers: &mut Numbers)
        requires { IsServed (G.state gpu.now) guest.now.memory guest.now.tables }
    {
        let Some(root) = self.roots.first().copied() else {
            return;
        };
        for _ in 0..6 {
            self.walk(rt, gpu, guest, root, numbers.address());
        }
    }

    fn add_root(&mut self, root: u32) -> Result<(), Trouble> {
        if !self.roots.contains(&root) {
            self.roots.push(root)?;
        }
        Ok(())
    }
}

fn write<G: Gpu>(
    rt: &impl Abort,
    gpu: &mut G,
    guest: &mut Guest,
    seen: &mut Seen,
    word: (u64, u64),
) -> Result<bool, Trouble>
    requires { IsServed (G.state gpu.old) guest.old.memory guest.old.tables }
    ensures { IsServed (G.state gpu.new) guest.new.memory guest.new.tables }
{
    let answer = guest.write(gpu, word.0, word.1)?;
    seen.settle(rt, gpu, guest, answer, false)
}

fn create<G: Gpu>(
    rt: &impl Abort,
    gpu: &mut G,
    guest: &mut Guest,
    seen: &mut Seen,
    root: u32,
) -> Result<bool, Trouble>
    requires { IsServed (G.state gpu.old) guest.old.memory guest.old.tables }
    ensures { IsServed (G.state gpu.new) guest.new.memory guest.new.tables }
{
    let outside = root >= guest.memory.frames();
    if !outside {
        seen.add_root(root)?;
    }
    let answer = guest.create(gpu, u64::from(root))?;
    seen.settle(rt, gpu, guest, answer, outside)
}

fn destroy<G: Gpu>(
    rt: &impl Abort,
    gpu: &mut G,
    guest: &mut Guest,
    seen: &mut Seen,
) -> Result<bool, Trouble>
    requires { IsServed (G.state gpu.old) guest.old.memory guest.old.tables }
    ensures { IsServed (G.state gpu.new) guest.new.memory guest.new.tables }
{
    let Some(root) = seen.roots.pop() else {
        return Ok(true);
    };
    let changed = guest.destroy(gpu, root)?;
    seen.settle(rt, gpu, guest, Answer::Follows(changed), false)
}

// Takes all words of so many frames away.
fn wipe<G: Gpu>(gpu: &mut G, guest: &mut Guest, frames: u32) -> Result<(), Trouble>
    requires { IsServed (G.state gpu.old) guest.old.memory guest.old.tables }
    ensures { IsServed (G.state gpu.new) guest.new.memory guest.new.tables }
{
    for frame in 0..frames {
        for index in INDICES {
            guest.write(gpu, (u64::from(frame) * 512 + u64::from(index)) * 8, 0)?;
        }
    }
    Ok(())
}

// Which words and roots a guest gets.
#[derive(Clone, Copy)]
enum Kind {
    Small,
    Large,
}

impl Kind {
    // So many frames may be tables.
    fn tables(self) -> u32 {
        match self {
            Kind::Small => 24,
            Kind::Large => 12,
        }
    }

    fn word(self, numbers: &mut Numbers) -> (u64, u64) {
        match self {
            Kind::Small => small_word(numbers),
            Kind::Large => large_word(numbers),
        }
    }

    // Now and then a frame that isn't there.
    fn root(self, numbers: &mut Numbers) -> u32 {
        let end = match self {
            Kind::Small => 25,
            Kind::Large => 2,
        };
        if numbers.below(32) == 0 {
            2000
        } else {
            numbers.below(end) as u32
        }
    }
}

fn step<G: Gpu>(
    rt: &impl Abort,
    gpu: &mut G,
    guest: &mut Guest,
    seen: &mut Seen,
    numbers: &mut Numbers,
    kind: Kind,
) -> Result<bool, Trouble>
    requires { IsServed (G.state gpu.old) guest.old.memory guest.old.tables }
    ensures { IsServed (G.state gpu.new) guest.new.memory guest.new.tables }
{
    match numbers.below(32) {
        0..=2 => create(rt, gpu, guest, seen, kind.root(numbers)),
        3 => destroy(rt, gpu, guest, seen),
        _ => write(rt, gpu, guest, seen, kind.word(numbers)),
    }
}

// A step, and some walks; or a new beginning after a bad entry.
fn advance<G: Gpu>(
    rt: &impl Abort,
    gpu: &mut G,
    guest: &mut Guest,
    seen: &mut Seen,
    numbers: &mut Numbers,
    kind: Kind,
) -> Result<(), Trouble>
    requires { IsServed (G.state gpu.old) guest.old.memory guest.old.tables }
    ensures { IsServed (G.state gpu.new) guest.new.memory guest.new.tables }
{
    if step(rt, gpu, guest, seen, numbers, kind)? {
        seen.walk_some(rt, gpu, guest, numbers);
        Ok(())
    } else {
        wipe(gpu, guest, kind.tables())
    }
}

fn steps<G: Gpu>(
    rt: &impl Abort,
    alloc: Global,
    gpu: &mut G,
    frames: u32,
    kind: Kind,
) -> Result<(), Trouble>
    requires empty { IsEmpty (G.state gpu.old) }
    requires few { frames ≤ 16384 }
{
    let mut guest = Guest::new(alloc, gpu, frames)?;
    let mut seen = Seen::new(alloc, frames)?;
    let mut numbers = Numbers { state: 1 };
    for _ in 0..2000 {
        advance(rt, gpu, &mut guest, &mut seen, &mut numbers, kind)?;
    }
    assert!(rt; seen.refused >= 10, "{} were refused", seen.refused);
    assert!(rt; seen.mapped >= 200, "{} were mapped", seen.mapped);
    Ok(())
}

// ---- a guest of 24 frames, all of which may be tables of any level

fn small_word(numbers: &mut Numbers) -> (u64, u64) {
    let at = numbers.below(24) * 4096 + numbers.index() * 8;
    let frame = numbers.below(24) * 4096;
    let value = match numbers.below(128) {
        0 => frame + 0x83,
        1 => frame + 0x1_8003,
        2 => frame + 0x803,
        3..=12 => frame + 0xffff_0000_0000_077f,
        13..=29 => frame + 1,
        30..=54 => frame + 2,
        _ => frame + 3,
    };
    (at, value)
}

#[test]
fn words_of_a_small_guest(rt: HostRuntime) -> Result<(), Fail> {
    let mut gpu = SoftGpu::new(rt.alloc());
    steps(&rt, rt.alloc(), &mut gpu, 24, Kind::Small)?;
    Ok(())
}

// ---- a guest of 1,024 frames, with large pages

// A word of the tables of a level, which stand in frames 0 to 11.
fn large_word(numbers: &mut Numbers) -> (u64, u64) {
    let at = numbers.index() * 8;
    match numbers.below(8) {
        0 => (numbers.below(2) * 4096 + at, named(numbers, 2, 2)),
        1..=2 => (numbers.below(2) * 4096 + 0x2000 + at, named(numbers, 4, 3)),
        3..=4 => (numbers.below(3) * 4096 + 0x4000 + at, named(numbers, 7, 5)),
        5 => (numbers.below(3) * 4096 + 0x4000 + at, large(numbers)),
        _ => (numbers.below(5) * 4096 + 0x7000 + at, leaf(numbers)),
    }
}

// An entry that names one of these frames, or none, or a wrong one.
fn named(numbers: &mut Numbers, first: u64, frames: u64) -> u64
    requires some { 0 < frames }
    requires few { first + frames ≤ 12 }
{
    let frame = (first + numbers.below(frames)) * 4096;
    match numbers.below(64) {
        0 => frame + 0x803,
        1..=3 => numbers.below(12) * 4096 + 3,
        4..=13 => 0,
        _ => frame + 3,
    }
}

// Bits 20 to 12 of a large page's entry mean nothing.
fn large(numbers: &mut Numbers) -> u64 {
    let base = numbers.below(2) * 0x20_0000 + numbers.below(512) * 4096;
    match numbers.below(32) {
        0 => base + 0x40_0083,
        1 => base + 0x883,
        2..=12 => base + 0x81,
        _ => base + 0x83,
    }
}

// A page of any frame, or of a table's.
fn leaf(numbers: &mut Numbers) -> u64 {
    if numbers.below(2) == 0 {
        numbers.below(12) * 4096 + numbers.below(4)
    } else {
        numbers.below(1024) * 4096 + numbers.below(4)
    }
}

#[test]
fn words_of_a_guest_with_large_pages(rt: HostRuntime) -> Result<(), Fail> {
    let mut gpu = SoftGpu::new(rt.alloc());
    steps(&rt, rt.alloc(), &mut gpu, 1024, Kind::Large)?;
    Ok(())
}
