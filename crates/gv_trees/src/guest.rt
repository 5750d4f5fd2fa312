//! A guest's memory and its shadow tables, kept together.
ghost use Rattle.std.specs.Prelude.{◌≤◌, IfOk};
ghost use Rattle.gv_gpu.specs.Device.{IsEmpty};
ghost use Rattle.gv_trees.specs.Served.{IsServed, IsHeld, HasNoShadows};

use gv_gpu::Gpu;
use gv_guest::Memory;
use gv_sppgtt::{Changed, TableFault, Tables};
use gv_types::{GuestId, OutOfMemory, Width};
use std::alloc::{AllocError, AllocFailed, Global};

pub const GUEST: GuestId = GuestId(3);

/// Why a test can't go on.
#[derive(Debug, Drop)]
pub enum Trouble {
    OutOfMemory,
    Outside,
    NoRoot,
    BadEntry,
}

impl From<OutOfMemory> for Trouble {
    fn from(_e: OutOfMemory) -> Trouble {
        Trouble::OutOfMemory
    }
}

impl From<AllocError> for Trouble {
    fn from(_e: AllocError) -> Trouble {
        Trouble::OutOfMemory
    }
}

impl<T: Drop> From<AllocFailed<T>> for Trouble {
    fn from(_e: AllocFailed<T>) -> Trouble {
        Trouble::OutOfMemory
    }
}

/// What the tables answered: the frames whose guarding changed, or that a live table has a bad entry. They were
/// cleared then.
#[derive(Debug, Drop)]
pub enum Answer {
    Follows(Changed),
    BadEntry,
}

impl Answer {
    /// The frames, where no entry was bad.
    pub fn changed(self) -> Result<Changed, Trouble> {
        match self {
            Answer::Follows(changed) => Ok(changed),
            Answer::BadEntry => Err(Trouble::BadEntry),
        }
    }
}

/// A guest's memory, and its shadow tables.
#[derive(Drop)]
pub struct Guest {
    pub memory: Memory,
    pub tables: Tables,
}

impl Guest {
    /// A guest of zero frames, without roots.
    pub fn new<G: Gpu>(alloc: Global, gpu: &mut G, frames: u32) -> Result<Guest, OutOfMemory>
        requires empty { IsEmpty (G.state gpu.old) }
        requires few { frames ≤ 16384 }
        ensures { IfOk result (λ made. IsServed (G.state gpu.new) made.memory made.tables) }
    {
        let memory = Memory::new(alloc, gpu, GUEST, frames)?;
        let tables = Tables::new(alloc, GUEST, frames)?;
        Ok(Guest { memory, tables })
    }

    /// A word of guest memory.
    pub fn word<G: Gpu>(&self, gpu: &G, frame: u32, index: u32) -> u64
        requires { IsServed (G.state gpu.now) self.now.memory self.now.tables }
    {
        let at = (u64::from(frame) * 512 + u64::from(index % 512)) * 8;
        self.memory.read(gpu, at, Width::Eight)
    }

    /// The host page of a frame.
    pub fn page(&self, frame: u32) -> Option<u64> {
        if frame < self.memory.frames() {
            Some(self.memory.page(frame))
        } else {
            None
        }
    }

    /// The levels at which a frame is a live table, as bits, and how often it is pinned.
    pub fn roles_and_pins<G: Gpu>(&self, _gpu: &G, frame: u32) -> Option<(u8, u32)>
        requires { IsServed (G.state _gpu.now) self.now.memory self.now.tables }
    {
        if frame >= self.memory.frames() {
            return None;
        }
        Some((self.tables.roles(frame), self.memory.pins(frame)))
    }

    /// Writes a word of guest memory, and has the tables follow. At a bad entry, and where memory is wanted, they
    /// are cleared.
    pub fn write<G: Gpu>(&mut self, gpu: &mut G, at: u64, value: u64) -> Result<Answer, Trouble>
        requires { IsServed (G.state gpu.old) self.old.memory self.old.tables }
        ensures { IsServed (G.state gpu.new) self.new.memory self.new.tables }
    {
        let frame = at / 4096;
        if frame >= u64::from(self.memory.frames()) || at % 8 != 0 {
            return Err(Trouble::Outside);
        }
        self.memory.write(gpu, at, Width::Eight, value);
        let index = (at % 4096 / 8) as u16;
        match self
            .tables
            .written(gpu, &mut self.memory, frame as u32, index)
        {
            Ok(changed) => Ok(Answer::Follows(changed)),
            Err(fault) => self.give_up(gpu, fault),
        }
    }

    /// Makes a frame a root. At a bad entry, and where memory is wanted, the tables are cleared.
    pub fn create<G: Gpu>(&mut self, gpu: &mut G, root: u64) -> Result<Answer, Trouble>
        requires { IsServed (G.state gpu.old) self.old.memory self.old.tables }
        ensures { IsServed (G.state gpu.new) self.new.memory self.new.tables }
    {
        match self.tables.create(gpu, &mut self.memory, root) {
            Ok(changed) => Ok(Answer::Follows(changed)),
            Err(fault) => self.give_up(gpu, fault),
        }
    }

    /// Takes a root away. Where memory is wanted the tables are cleared.
    pub fn destroy<G: Gpu>(&mut self, gpu: &mut G, root: u32) -> Result<Changed, Trouble>
        requires { IsServed (G.state gpu.old) self.old.memory self.old.tables }
        ensures { IsServed (G.state gpu.new) self.new.memory self.new.tables }
    {
        if !self.tables.is_root(root) {
            return Err(Trouble::NoRoot);
        }
        match self.tables.destroy(gpu, &mut self.memory, root) {
            Ok(changed) => Ok(changed),
            Err(_) => {
                self.clear(gpu);
                Err(Trouble::OutOfMemory)
            }
        }
    }

    /// Takes all roots and shadow tables away, also after a call that failed.
    pub fn clear<G: Gpu>(&mut self, gpu: &mut G)
        requires { IsHeld (G.state gpu.old) self.old.memory self.old.tables }
        ensures served { IsServed (G.state gpu.new) self.new.memory self.new.tables }
        ensures none { HasNoShadows (G.state gpu.new) self.new.memory.frames.guest }
    {
        self.tables.clear(gpu, &mut self.memory);
    }

    // After a fault the tables are cleared.
    fn give_up<G: Gpu>(&mut self, gpu: &mut G, fault: TableFault) -> Result<Answer, Trouble>
        requires { IsHeld (G.state gpu.old) self.old.memory self.old.tables }
        ensures served { IsServed (G.state gpu.new) self.new.memory self.new.tables }
        ensures none { HasNoShadows (G.state gpu.new) self.new.memory.frames.guest }
    {
        self.clear(gpu);
        match fault {
            TableFault::BadEntry => Ok(Answer::BadEntry),
            TableFault::OutOfMemory => Err(Trouble::OutOfMemory),
        }
    }
}

/// Writes these words, none of which is a bad entry.
pub fn write_all<G: Gpu>(
    gpu: &mut G,
    guest: &mut Guest,
    words: &[(u64, u64)],
) -> Result<(), Trouble>
    requires { IsServed (G.state gpu.old) guest.old.memory guest.old.tables }
    ensures { IsServed (G.state gpu.new) guest.new.memory guest.new.tables }
{
    for (at, value) in words {
        guest.write(gpu, *at, *value)?.changed()?;
    }
    Ok(())
}
