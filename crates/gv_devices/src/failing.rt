ghost use Rattle.std.specs.Prelude.{◌≡◌, ℕ, ◌+◌, ◌<◌, ◌≤◌, ◌↔◌, Contains, IsTrue, map, IfOk, OnOk, OnErr, IsOk, IsErr, IsSome, None, [], true, false};
ghost use Rattle.gv_gpu.specs.Device.{IsEmpty, counted, added, released, poked, with_global, with_engine_general, with_spare, with_faults};
ghost use Rattle.gv_gpu.specs.Context.{context_submitted, stopped};
ghost use Rattle.gv_gpu.specs.Step.{physical_step};
ghost use Rattle.gv_engine.specs.Soft.{ran_of};
ghost use Rattle.gv_devices.specs.Plan.{new_plan, FailsNext, after_call, FailsNextOther, after_other_call};

use gv_ctx::Saved;
use gv_engine::{Entry, SoftGpu};
use gv_gpu::{Gpu, GpuFailed, Step};
use gv_types::{EngineId, GuestId, Label, OutOfMemory};

// Whether the call after so many is one of those that fail. No list holds a number above 2^64 - 1.
fn is_next(failing: &[u64], calls: u64) -> bool
    ensures { IsTrue result ↔ Contains failing.now (calls + 1) }
{
    match calls.checked_add(1) {
        Some(number) => failing.contains(&number),
        None => false,
    }
}

/// A device in memory that fails exactly the calls that it is told to fail, and counts them as faults.
/// A call that fails changes nothing else.
#[derive(Drop)]
pub struct FailingGpu {
    inner: SoftGpu,
    // the numbers of the calls that fail, counted from 1
    failing: Vec<u64>,
    counts_all: bool,
    calls: u64,
    faults: u64,
}

impl FailingGpu {
    ghost use Rattle.gv_devices.specs.Failing.{whole, plan_of};

    /// An empty device. The calls of `submit`, `stop` and `step` whose numbers are in `calls`, counted
    /// together from 1, fail. The list may be in any order, and name a call twice.
    pub fn new(calls: Vec<u64>) -> FailingGpu
        ensures device { IsEmpty (whole result) }
        ensures plan { plan_of result ≡ new_plan calls.items true }
    {
        FailingGpu::over(calls, true)
    }

    /// The same, but calls of `step` alone are counted, and only they fail.
    pub fn steps(calls: Vec<u64>) -> FailingGpu
        ensures device { IsEmpty (whole result) }
        ensures plan { plan_of result ≡ new_plan calls.items false }
    {
        FailingGpu::over(calls, false)
    }

    fn over(failing: Vec<u64>, counts_all: bool) -> FailingGpu
        ensures device { IsEmpty (whole result) }
        ensures plan { plan_of result ≡ new_plan failing.items counts_all }
    {
        let inner = SoftGpu::new(*failing.allocator());
        FailingGpu {
            inner,
            failing,
            counts_all,
            calls: 0,
            faults: 0,
        }
    }

    /// The commands that ran, in order.
    pub fn journal(&self) -> &[Entry]
        ensures { map ran_of result.now ≡ (whole self.now).journal }
    {
        self.inner.journal()
    }

    // Counts a call, and fails it where it is one of those that fail.
    fn count_call(&mut self) -> Result<(), GpuFailed>
        ensures fails { IsErr result ↔ FailsNext (plan_of self.old) }
        ensures plan { plan_of self.new ≡ after_call (plan_of self.old) }
        ensures ok { OnOk result (whole self.new ≡ whole self.old) }
        ensures err { OnErr result (whole self.new ≡ with_faults (whole self.old) (counted (whole self.old).faults)) }
    {
        let fails = is_next(&self.failing, self.calls);
        self.calls = self.calls.saturating_add(1);
        if fails {
            self.faults = self.faults.saturating_add(1);
            return Err(GpuFailed);
        }
        Ok(())
    }

    // The same for a call of `submit` or `stop`, which counts only where all do.
    fn count_other_call(&mut self) -> Result<(), GpuFailed>
        ensures fails { IsErr result ↔ FailsNextOther (plan_of self.old) }
        ensures plan { plan_of self.new ≡ after_other_call (plan_of self.old) }
        ensures ok { OnOk result (whole self.new ≡ whole self.old) }
        ensures err { OnErr result (whole self.new ≡ with_faults (whole self.old) (counted (whole self.old).faults)) }
    {
        if self.counts_all {
            self.count_call()
        } else {
            Ok(())
        }
    }
}

// Each call says what the trait says of it, and what becomes of the plan.
impl Gpu for FailingGpu {
    ghost use Rattle.gv_devices.specs.Failing.{whole, plan_of};

    ghost state = { whole };

    fn add_page(&mut self, label: Label) -> Result<u64, OutOfMemory>
        requires { (whole self.old).live < 131072 }
        ensures fresh { IfOk result (λ page. (whole self.old).label page ≡ None) }
        ensures empty { IfOk result (λ page. (whole self.old).words page ≡ []) }
        ensures below { IfOk result (λ page. page < 131072) }
        ensures live { IfOk result (λ page. IsSome ((whole self.new).label page)) }
        ensures ok { IfOk result (λ page. whole self.new ≡ added (whole self.old) page label) }
        ensures err { OnErr result (whole self.new ≡ whole self.old) }

        ensures plan { plan_of self.new ≡ plan_of self.old }
    {
        self.inner.add_page(label)
    }

    fn release(&mut self, page: u64)
        requires { IsSome ((whole self.old).label page) }
        ensures device { whole self.new ≡ released (whole self.old) page }

        ensures plan { plan_of self.new ≡ plan_of self.old }
    {
        self.inner.release(page);
    }

    fn word(&self, page: u64, index: usize) -> u64 {
        self.inner.word(page, index)
    }

    fn words(&self, page: u64) -> &[u64] {
        self.inner.words(page)
    }

    fn poke(&mut self, page: u64, index: usize, value: u64)
        requires live { IsSome ((whole self.old).label page) }
        requires within { index < 512 }
        ensures device { whole self.new ≡ poked (whole self.old) page index value }

        ensures plan { plan_of self.new ≡ plan_of self.old }
    {
        self.inner.poke(page, index, value);
    }

    fn set_global(&mut self, index: u32, entry: u64)
        requires within { index < 1048576 }
        requires live { (page : ℕ) × IsSome ((whole self.old).label page) }
        ensures device { whole self.new ≡ with_global (whole self.old) index entry }

        ensures plan { plan_of self.new ≡ plan_of self.old }
    {
        self.inner.set_global(index, entry);
    }

    fn general(&self, engine: EngineId, n: u8) -> u64 {
        self.inner.general(engine, n)
    }

    fn set_general(&mut self, engine: EngineId, n: u8, value: u64)
        requires engine { engine.0 < 4 }
        requires register { n < 16 }
        ensures device { whole self.new ≡ with_engine_general (whole self.old) engine.0 n value }

        ensures plan { plan_of self.new ≡ plan_of self.old }
    {
        self.inner.set_general(engine, n, value);
    }

    fn place(&self, engine: EngineId) -> Option<Saved> {
        self.inner.place(engine)
    }

    fn submit(&mut self, engine: EngineId, owner: GuestId, descriptor: u64) -> Result<(), GpuFailed>
        requires { engine.0 < 4 }
        ensures ok { OnOk result (whole self.new ≡ context_submitted (whole self.old) engine.0 owner.0 descriptor) }
        ensures err { OnErr result (whole self.new ≡ with_faults (whole self.old) (counted (whole self.old).faults)) }

        ensures fails { IsErr result ↔ FailsNextOther (plan_of self.old) }
        ensures plan { plan_of self.new ≡ after_other_call (plan_of self.old) }
    {
        self.count_other_call()?;
        self.inner.submit(engine, owner, descriptor)
    }

    fn stop(&mut self, engine: EngineId) -> Result<(), GpuFailed>
        requires { engine.0 < 4 }
        ensures ok { OnOk result (whole self.new ≡ stopped (whole self.old) engine.0) }
        ensures err { OnErr result (whole self.new ≡ with_faults (whole self.old) (counted (whole self.old).faults)) }

        ensures fails { IsErr result ↔ FailsNextOther (plan_of self.old) }
        ensures plan { plan_of self.new ≡ after_other_call (plan_of self.old) }
    {
        self.count_other_call()?;
        self.inner.stop(engine)
    }

    fn reserve(&mut self, n: u64) -> Result<(), OutOfMemory>
        ensures room { OnOk result (n ≤ (whole self.new).spare) }
        ensures ok { OnOk result (whole self.new ≡ with_spare (whole self.old) (whole self.new).spare) }
        ensures err { OnErr result (whole self.new ≡ whole self.old) }
        ensures succeeds { n ≤ (whole self.old).spare → IsOk result }
        ensures unchanged { n ≤ (whole self.old).spare → whole self.new ≡ whole self.old }

        ensures plan { plan_of self.new ≡ plan_of self.old }
    {
        self.inner.reserve(n)
    }

    fn step(&mut self, engine: EngineId) -> Result<Step, GpuFailed>
        requires engine { engine.0 < 4 }
        requires room { 1 ≤ (whole self.old).spare }
        ensures answer { IfOk result (λ answer. answer ≡ (physical_step (whole self.old) engine.0).answer) }
        ensures ok { OnOk result (whole self.new ≡ (physical_step (whole self.old) engine.0).after) }
        ensures err { OnErr result (whole self.new ≡ with_faults (whole self.old) (counted (whole self.old).faults)) }

        ensures fails { IsErr result ↔ FailsNext (plan_of self.old) }
        ensures plan { plan_of self.new ≡ after_call (plan_of self.old) }
    {
        self.count_call()?;
        self.inner.step(engine)
    }
}
