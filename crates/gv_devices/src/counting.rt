ghost use Rattle.gv_gpu.specs.Device.{IsEmpty};

use gv_ctx::Saved;
use gv_engine::SoftGpu;
use gv_gpu::{Gpu, GpuFailed, Step};
use gv_types::{EngineId, GuestId, Label, OutOfMemory, PAGE_WORDS};
use std::alloc::Global;
use std::cell::Cell;

/// A device in memory that counts the words that are read of its pages: a call of `word` counts one, and one of
/// `words` 512. It never fails: its count of faults is 0.
#[derive(Drop)]
pub struct CountingGpu {
    inner: SoftGpu,
    reads: Cell<u64>,
}

impl CountingGpu {
    ghost use Rattle.gv_devices.specs.Counting.{whole};

    /// An empty device of which no word was read.
    pub fn new(alloc: Global) -> CountingGpu
        ensures { IsEmpty (whole result) }
    {
        CountingGpu {
            inner: SoftGpu::new(alloc),
            reads: Cell::new(0),
        }
    }

    /// How many words were read, by calls of `word` and `words`. It stays at 2^64 - 1 once it is there. No clause says so,
    /// since none can say what a cell holds.
    pub fn reads(&self) -> u64 {
        self.reads.get()
    }
}

impl Gpu for CountingGpu {
    ghost use Rattle.gv_devices.specs.Counting.{whole};

    ghost state = { whole };

    fn add_page(&mut self, label: Label) -> Result<u64, OutOfMemory> {
        self.inner.add_page(label)
    }

    fn release(&mut self, page: u64) {
        self.inner.release(page);
    }

    fn word(&self, page: u64, index: usize) -> u64 {
        self.reads.set(self.reads.get().saturating_add(1));
        self.inner.word(page, index)
    }

    // Each of the 512 words counts.
    fn words(&self, page: u64) -> &[u64] {
        self.reads
            .set(self.reads.get().saturating_add(PAGE_WORDS as u64));
        self.inner.words(page)
    }

    fn poke(&mut self, page: u64, index: usize, value: u64) {
        self.inner.poke(page, index, value);
    }

    fn set_global(&mut self, index: u32, entry: u64) {
        self.inner.set_global(index, entry);
    }

    fn general(&self, engine: EngineId, n: u8) -> u64 {
        self.inner.general(engine, n)
    }

    fn set_general(&mut self, engine: EngineId, n: u8, value: u64) {
        self.inner.set_general(engine, n, value);
    }

    fn place(&self, engine: EngineId) -> Option<Saved> {
        self.inner.place(engine)
    }

    fn submit(
        &mut self,
        engine: EngineId,
        owner: GuestId,
        descriptor: u64,
    ) -> Result<(), GpuFailed> {
        self.inner.submit(engine, owner, descriptor)
    }

    fn stop(&mut self, engine: EngineId) -> Result<(), GpuFailed> {
        self.inner.stop(engine)
    }

    fn reserve(&mut self, n: u64) -> Result<(), OutOfMemory> {
        self.inner.reserve(n)
    }

    fn step(&mut self, engine: EngineId) -> Result<Step, GpuFailed> {
        self.inner.step(engine)
    }
}
