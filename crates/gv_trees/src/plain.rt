//! A guest's own tables, read plainly, word by word, by the format of their entries: what an address maps, which
//! frames are live tables at which levels, how many leaves map each frame, and whether an entry is bad.
ghost use Rattle.std.specs.Prelude.{◌<◌, ◌^◌};
ghost use Rattle.gv_trees.specs.Served.{IsServed};

use crate::guest::Guest;
use gv_gpu::Gpu;
use std::alloc::{AllocError, Global};

/// What an entry says.
#[derive(Clone, Copy)]
enum Entry {
    Absent,
    Bad,
    Table(u32),
    Large(u32, bool),
    Page(u32, bool),
}

const PRESENT: u64 = 1;

const WRITABLE: u64 = 1 << 1;

const LARGE: u64 = 1 << 7;

const SMALL: u64 = 1 << 11;

/// The indices of a table at which a test here may write an entry. All other words are 0.
pub const INDICES: [u32; 3] = [0, 1, 511];

/// The nine bits of an address for a level.
pub fn index_of(at: u64, level: u8) -> u32
    ensures { result < 512 }
{
    let from = match level {
        4 => at >> 39,
        3 => at >> 30,
        2 => at >> 21,
        _ => at >> 12,
    };
    (from % 512) as u32
}

fn entry_of(word: u64, level: u8, frames: u32) -> Entry {
    if word & PRESENT == 0 {
        return Entry::Absent;
    }
    let writable = word & WRITABLE != 0;
    let frame = word / 4096 % 0x10_0000_0000;
    let large = word & LARGE != 0;
    let small = word & SMALL != 0;
    if level == 2 && large && !small {
        return large_at(frame / 512 * 512, writable, frames);
    }
    if frame >= u64::from(frames) || level == 3 && large || level == 2 && small {
        return Entry::Bad;
    }
    if level == 1 {
        Entry::Page(frame as u32, writable)
    } else {
        Entry::Table(frame as u32)
    }
}

fn large_at(base: u64, writable: bool, frames: u32) -> Entry
    requires { base < 2 ^ 48 }
{
    if base + 511 < u64::from(frames) {
        Entry::Large(base as u32, writable)
    } else {
        Entry::Bad
    }
}

fn entry_at<G: Gpu>(gpu: &G, guest: &Guest, table: u32, level: u8, index: u32) -> Entry
    requires { IsServed (G.state gpu.now) guest.now.memory guest.now.tables }
{
    entry_of(guest.word(gpu, table, index), level, guest.memory.frames())
}

/// The frame that an address maps through the tables of a root, and whether it is writable.
pub fn walk<G: Gpu>(gpu: &G, guest: &Guest, root: u32, at: u64) -> Option<(u32, bool)>
    requires { IsServed (G.state gpu.now) guest.now.memory guest.now.tables }
{
    let mut table = root;
    for level in [4, 3, 2] {
        match entry_at(gpu, guest, table, level, index_of(at, level)) {
            Entry::Table(next) => table = next,
            Entry::Large(base, writable) => return Some((base | index_of(at, 1), writable)),
            _ => return None,
        }
    }
    match entry_at(gpu, guest, table, 1, index_of(at, 1)) {
        Entry::Page(frame, writable) => Some((frame, writable)),
        _ => None,
    }
}

/// What the live tables are, and what they say.
#[derive(Drop)]
pub struct Live {
    /// For each frame its levels, as bits: bit 0 for level 1.
    pub roles: Vec<u8>,
    /// For each frame how many leaves map it, a large page's once for each base and writable bit.
    pub leaves: Vec<u64>,
    pub has_bad_entry: bool,
    splits: Vec<(u32, bool)>,
}

fn role(level: u8) -> u8 {
    match level {
        4 => 8,
        3 => 4,
        2 => 2,
        _ => 1,
    }
}

impl Live {
    fn new(alloc: Global, frames: u32) -> Result<Live, AllocError> {
        Ok(Live {
            roles: vec![in alloc; 0; frames as usize]?,
            leaves: vec![in alloc; 0; frames as usize]?,
            has_bad_entry: false,
            splits: Vec::new(alloc),
        })
    }

    fn is_live(&self, frame: u32, level: u8) -> bool {
        match self.roles.get(frame as usize) {
            Some(roles) => *roles & role(level) != 0,
            None => false,
        }
    }

    fn add(&mut self, frame: u32, level: u8) {
        if let Some(roles) = self.roles.get_mut(frame as usize) {
            *roles |= role(level);
        }
    }

    fn map(&mut self, frame: u32) {
        if let Some(leaves) = self.leaves.get_mut(frame as usize) {
            *leaves = leaves.wrapping_add(1);
        }
    }

    fn split(&mut self, base: u32, writable: bool) -> Result<(), AllocError> {
        if self.splits.contains(&(base, writable)) {
            return Ok(());
        }
        self.splits.push((base, writable))?;
        for index in 0..512 {
            self.map(base | index);
        }
        Ok(())
    }

    // All that the words of a live table say.
    fn read<G: Gpu>(
        &mut self,
        gpu: &G,
        guest: &Guest,
        table: u32,
        level: u8,
    ) -> Result<(), AllocError>
        requires { IsServed (G.state gpu.now) guest.now.memory guest.now.tables }
    {
        for index in INDICES {
            match entry_at(gpu, guest, table, level, index) {
                Entry::Absent => {}
                Entry::Bad => self.has_bad_entry = true,
                Entry::Table(next) => self.add(next, level.wrapping_sub(1)),
                Entry::Large(base, writable) => self.split(base, writable)?,
                Entry::Page(frame, _) => self.map(frame),
            }
        }
        Ok(())
    }
}

/// The live tables of these roots.
pub fn live_tables<G: Gpu>(
    alloc: Global,
    gpu: &G,
    guest: &Guest,
    roots: &[u32],
) -> Result<Live, AllocError>
    requires { IsServed (G.state gpu.now) guest.now.memory guest.now.tables }
{
    let frames = guest.memory.frames();
    let mut live = Live::new(alloc, frames)?;
    for root in roots {
        live.add(*root, 4);
    }
    for level in [4, 3, 2, 1] {
        for frame in 0..frames {
            if live.is_live(frame, level) {
                live.read(gpu, guest, frame, level)?;
            }
        }
    }
    Ok(live)
}
