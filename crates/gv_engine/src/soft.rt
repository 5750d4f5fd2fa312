ghost use Rattle.std.specs.Prelude.{◌≡◌, ℕ, ◌+◌, ◌-◌, ◌*◌, ◌<◌, ◌≤◌, ◌++◌, ◌∷◌, length, slice_index, vec_capacity, IfOk, OnOk, OnErr, IsSome, None, [], is_some, map, if◌then◌else◌};
ghost use Rattle.gv_gpu.specs.Device.{IsEmpty, added, counted, with_page_word, with_loaded};
ghost use Rattle.gv_engine.specs.Held.{held};
ghost use Rattle.gv_engine.specs.Soft.{zero_registers};

use crate::Entry;
use crate::context::Context;
use crate::limits::{MAX_ROW_BYTES, TABLE_ENTRIES};
use crate::pages::Pages;
use crate::place::has_ended;
use gv_ctx::Saved;
use gv_gpu::{Gpu, GpuFailed, Step};
use gv_types::{EngineId, GuestId, Label, OutOfMemory};
use std::alloc::Global;

// Entries of 0, until there are so many. No entry changes, where one that isn't there is 0.
fn lengthen(entries: &mut Vec<u64>, count: usize) -> Result<(), OutOfMemory>
    requires { length entries.old.items ≤ count }
    ensures length { OnOk result (length entries.new.items ≡ count) }
    ensures err { OnErr result (entries.new.items ≡ entries.old.items) }
    ensures same { (index : ℕ) → slice_index entries.new.items index ≡ slice_index entries.old.items index }
{
    entries.resize(count, 0)?;
    Ok(())
}

#[tactic(auto, unfolding(crate::specs::Soft::zero_registers))]
fn zero_registers() -> [u64; 64]
    ensures { result ≡ zero_registers }
{
    [0; 64]
}

// Where a general register is kept.
fn register(engine: EngineId, n: u8) -> usize
    requires engine { engine.0 < 4 }
    requires register { n < 16 }
    ensures value { result ≡ 16 * engine.0 + n }
    ensures within { result < 64 }
{
    16 * engine.0 as usize + n as usize
}

/// A device in memory. It never fails: its count of faults is 0.
#[derive(Drop)]
pub struct SoftGpu {
    pub(crate) pages: Pages,
    // the global table, whose memory is taken with the first page
    entries: Vec<u64>,
    // the general registers, sixteen of each engine
    general: [u64; 64],
    // by engine
    contexts: [Option<Context>; 4],
    journal: Vec<Entry>,
    // so many more entries fit into the journal
    spare: u64,
    strays: u64,
    pokes: u64,
    // where a row of a blit is kept between reading and writing
    pub(crate) row: [u8; MAX_ROW_BYTES],
    ghost table: { length entries.items ≤ 1048576 },
    ghost whole_table: { (page : ℕ) → IsSome ((held pages).label page) → length entries.items ≡ 1048576 },
    ghost journal_room: { length journal.items + spare ≤ vec_capacity journal },
}

impl SoftGpu {
    ghost use Rattle.gv_engine.specs.Soft.{loaded_by, ran_of};
    ghost use Rattle.gv_engine.specs.Whole.{whole};

    /// An empty device.
    pub fn new(alloc: Global) -> SoftGpu
        ensures { IsEmpty (whole result) }
    {
        SoftGpu {
            pages: Pages::new(alloc),
            entries: Vec::new(alloc),
            general: zero_registers(),
            contexts: [None; 4],
            journal: Vec::new(alloc),
            spare: 0,
            strays: 0,
            pokes: 0,
            row: [0; MAX_ROW_BYTES],
        }
    }

    /// The commands that ran, in order.
    pub fn journal(&self) -> &[Entry]
        ensures { map ran_of result.now ≡ (whole self.now).journal }
    {
        self.journal.as_slice()
    }

    /// How many words were poked. It stays at 2^64 - 1 once it is there.
    pub fn pokes(&self) -> u64
        ensures { result ≡ (whole self.now).pokes }
    {
        self.pokes
    }

    pub(crate) fn label(&self, page: u64) -> Option<Label>
        ensures { result ≡ (whole self.now).label page }
    {
        self.pages.label(page)
    }

    // A word of any page. One that isn't live has zeros.
    pub(crate) fn word_or_zero(&self, page: u64, index: usize) -> u64
        requires { index < 512 }
        ensures { result ≡ slice_index ((whole self.now).words page) index }
    {
        if self.pages.label(page).is_some() {
            self.pages.word(page, index)
        } else {
            0
        }
    }

    // Writes a word, which is no poke.
    pub(crate) fn set_word(&mut self, page: u64, index: usize, value: u64)
        requires live { IsSome ((whole self.old).label page) }
        requires within { index < 512 }
        ensures { whole self.new ≡ with_page_word (whole self.old) page index value }
    {
        self.pages.set_word(page, index, value);
    }

    fn count_poke(&mut self)
        ensures { let old = whole self.old in whole self.new ≡ record old { pokes = counted old.pokes } }
    {
        self.pokes = self.pokes.saturating_add(1);
    }

    // An entry of the global table.
    pub(crate) fn entry(&self, index: u64) -> u64
        ensures { result ≡ (whole self.now).global index }
    {
        self.entries.get(index as usize).copied().unwrap_or(0)
    }

    pub(crate) fn context(&self, engine: u8) -> Option<Context>
        requires { engine < 4 }
        ensures { loaded_by result ≡ (whole self.now).loaded engine }
    {
        self.contexts[engine as usize]
    }

    pub(crate) fn set_context(&mut self, engine: u8, context: Option<Context>)
        requires { engine < 4 }
        ensures { whole self.new ≡ with_loaded (whole self.old) engine (loaded_by context) }
    {
        self.contexts[engine as usize] = context;
    }

    // Counts one stray, if there was one.
    pub(crate) fn settle(&mut self, strayed: bool)
        ensures { let old = whole self.old in whole self.new ≡ record old { strays = if strayed then counted old.strays else old.strays } }
    {
        if strayed {
            self.strays = self.strays.saturating_add(1);
        }
    }

    // Adds a command to the journal, which has room for it.
    pub(crate) fn log(&mut self, entry: Entry)
        requires { 1 ≤ (whole self.old).spare }
        ensures { let old = whole self.old in whole self.new ≡ record old { journal = old.journal ++ ran_of entry ∷ []; spare = old.spare - 1 } }
    {
        self.spare -= 1;
        self.journal.push(entry).unwrap();
    }
}

impl Gpu for SoftGpu {
    ghost use Rattle.gv_engine.specs.Held.{held};
    ghost use Rattle.gv_engine.specs.Soft.{state_of};

    ghost state = { λ s. state_of (held s.pages) s.entries.items s.general s.contexts s.journal.items s.strays s.pokes s.spare };

    fn add_page(&mut self, label: Label) -> Result<u64, OutOfMemory> {
        lengthen(&mut self.entries, TABLE_ENTRIES)?;
        self.pages.add(label)
    }

    fn release(&mut self, page: u64) {
        self.pages.release(page);
    }

    fn word(&self, page: u64, index: usize) -> u64 {
        self.pages.word(page, index)
    }

    fn words(&self, page: u64) -> &[u64] {
        self.pages.words(page)
    }

    fn poke(&mut self, page: u64, index: usize, value: u64) {
        self.set_word(page, index, value);
        self.count_poke();
    }

    fn set_global(&mut self, index: u32, entry: u64) {
        self.entries[index as usize] = entry;
    }

    fn general(&self, engine: EngineId, n: u8) -> u64 {
        self.general[register(engine, n)]
    }

    fn set_general(&mut self, engine: EngineId, n: u8, value: u64) {
        self.general[register(engine, n)] = value;
    }

    fn place(&self, engine: EngineId) -> Option<Saved> {
        match self.context(engine.0) {
            Some(context) => Some(context.place),
            None => None,
        }
    }

    fn submit(
        &mut self,
        engine: EngineId,
        owner: GuestId,
        descriptor: u64,
    ) -> Result<(), GpuFailed> {
        self.save(engine.0);
        let context = self.context_of(owner, descriptor);
        self.set_context(engine.0, Some(context));
        Ok(())
    }

    fn stop(&mut self, engine: EngineId) -> Result<(), GpuFailed> {
        if let Some(context) = self.context(engine.0) {
            self.store_fields(context.descriptor, context.place.fields());
            self.set_context(engine.0, None);
        }
        Ok(())
    }

    fn reserve(&mut self, n: u64) -> Result<(), OutOfMemory> {
        if self.spare < n {
            self.journal.reserve(n as usize)?;
            self.spare = n;
        }
        Ok(())
    }

    #[tactic(auto, unfolding(gv_gpu::specs::Step::physical_step))]
    fn step(&mut self, engine: EngineId) -> Result<Step, GpuFailed> {
        let Some(context) = self.context(engine.0) else {
            return Ok(Step::Idle);
        };
        if has_ended(&context) {
            self.set_context(engine.0, None);
            return Ok(Step::Ended);
        }
        Ok(self.step_front(engine, &context))
    }
}

#[cfg(test)]
mod tests {
    use crate::SoftGpu;
    use gv_gpu::Gpu;
    use gv_types::{GuestId, Label};
    use std::test::Fail;

    const OWN: Label = Label {
        guest: GuestId(1),
        shadow: false,
    };

    #[test]
    fn two_pages_have_different_numbers(rt: HostRuntime) -> Result<(), Fail> {
        let mut gpu = SoftGpu::new(rt.alloc());
        let first = gpu.add_page(OWN)?;
        let second = gpu.add_page(OWN)?;
        assert_ne!(rt; first, second);
        Ok(())
    }

    // The last entry of the global table has room as soon as a page was added.
    #[test]
    fn the_last_entry_is_set(rt: HostRuntime) -> Result<(), Fail> {
        let mut gpu = SoftGpu::new(rt.alloc());
        let page = gpu.add_page(OWN)?;
        gpu.set_global(0xf_ffff, page * 4096 + 3);
        Ok(())
    }

    #[test]
    fn a_word_is_written(rt: HostRuntime) -> Result<(), Fail> {
        let mut gpu = SoftGpu::new(rt.alloc());
        let page = gpu.add_page(OWN)?;
        assert_eq!(rt; gpu.word(page, 511), 0);
        gpu.poke(page, 511, 7);
        Ok(())
    }

    #[test]
    fn a_page_is_released(rt: HostRuntime) -> Result<(), Fail> {
        let mut gpu = SoftGpu::new(rt.alloc());
        let page = gpu.add_page(OWN)?;
        gpu.release(page);
        Ok(())
    }
}
