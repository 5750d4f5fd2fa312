ghost use Rattle.std.specs.Prelude.{◌≡◌, ℕ, ◌<◌, ◌≤◌, IfOk, OnOk, OnErr, IsOk, IsSome, [], None, length, slice_index};
ghost use Rattle.gv_gpu.specs.Device.{Device, counted, added, place_in, released, poked, with_global, with_engine_general, with_spare, with_faults};
ghost use Rattle.gv_gpu.specs.Context.{context_submitted, stopped};
ghost use Rattle.gv_gpu.specs.Step.{physical_step};

use crate::Step;
use gv_ctx::Saved;
use gv_types::{EngineId, GuestId, Label, OutOfMemory};
use std::error::Error;
use std::fmt;

/// The device failed. Its count of faults rose, and nothing else changed.
#[derive(Clone, Copy, Debug, PartialEq, Eq)]
pub struct GpuFailed;

impl fmt::Display for GpuFailed {
    fn fmt<W: fmt::Write>(&self, f: &mut fmt::Formatter<W>) -> fmt::Result {
        write!(f, "the device failed")
    }
}

impl Error for GpuFailed {}

/// A graphics device that several guests share. It holds host pages of 512 words, each with a label,
/// the global table, and per engine sixteen general registers and a loaded context; and it counts.
/// A call changes nothing of this but what its clauses say.
pub trait Gpu {
    /// All that the device holds.
    ghost state: { Self → Device };

    /// Adds a zero page with the label, and answers its number. After want of memory the device is
    /// as before.
    fn add_page(&mut self, label: Label) -> Result<u64, OutOfMemory>
        requires { (state self.old).live < 131072 }
        ensures fresh { IfOk result (λ page. (state self.old).label page ≡ None) }
        ensures empty { IfOk result (λ page. (state self.old).words page ≡ []) }
        ensures below { IfOk result (λ page. page < 131072) }
        ensures live { IfOk result (λ page. IsSome ((state self.new).label page)) }
        ensures ok { IfOk result (λ page. state self.new ≡ added (state self.old) page label) }
        ensures err { OnErr result (state self.new ≡ state self.old) };

    /// Takes a page out. Its number may be given again.
    fn release(&mut self, page: u64)
        requires { IsSome ((state self.old).label page) }
        ensures { state self.new ≡ released (state self.old) page };

    /// The word with this index, below 512, of a live page.
    fn word(&self, page: u64, index: usize) -> u64
        requires live { IsSome ((state self.now).label page) }
        requires within { index < 512 }
        ensures { result ≡ slice_index ((state self.now).words page) index };

    /// The words of a live page, which are 512. They aren't copied.
    fn words(&self, page: u64) -> &[u64]
        requires { IsSome ((state self.now).label page) }
        ensures value { result.now ≡ (state self.now).words page }
        ensures whole { length result.now ≡ 512 };

    /// Writes that word, and counts one poke.
    fn poke(&mut self, page: u64, index: usize, value: u64)
        requires live { IsSome ((state self.old).label page) }
        requires within { index < 512 }
        ensures { state self.new ≡ poked (state self.old) page index value };

    /// Sets the physical entry of this page of the global table, which has 1,048,576. Bit 0 says
    /// present, bit 1 writable, and the host page stands from bit 12 on. Some page has to be live, so
    /// that a device may take the memory for its table when the first page is added.
    fn set_global(&mut self, index: u32, entry: u64)
        requires within { index < 1048576 }
        requires live { (page : ℕ) × IsSome ((state self.old).label page) }
        ensures { state self.new ≡ with_global (state self.old) index entry };

    /// A general register of an engine. It has sixteen, of 64 bits.
    fn general(&self, engine: EngineId, n: u8) -> u64
        requires engine { engine.0 < 4 }
        requires register { n < 16 }
        ensures { result ≡ (state self.now).general engine.0 n };

    /// Sets a general register of an engine.
    fn set_general(&mut self, engine: EngineId, n: u8, value: u64)
        requires engine { engine.0 < 4 }
        requires register { n < 16 }
        ensures { state self.new ≡ with_engine_general (state self.old) engine.0 n value };

    /// The place of the context that is loaded on an engine, and none where none is loaded.
    fn place(&self, engine: EngineId) -> Option<Saved>
        requires { engine.0 < 4 }
        ensures { result ≡ place_in ((state self.now).loaded engine.0) };

    /// Saves the place of a loaded context into its image, and loads the context of the descriptor
    /// for its owner. After `GpuFailed` the count of faults has risen, and all else is as before.
    fn submit(&mut self, engine: EngineId, owner: GuestId, descriptor: u64) -> Result<(), GpuFailed>
        requires { engine.0 < 4 }
        ensures ok { OnOk result (state self.new ≡ context_submitted (state self.old) engine.0 owner.0 descriptor) }
        ensures err { OnErr result (state self.new ≡ with_faults (state self.old) (state self.new).faults) }
        ensures cause { OnErr result (counted (state self.old).faults ≤ (state self.new).faults) };

    /// Saves the place of a loaded context into its image, and unloads it. With none loaded nothing
    /// changes. `GpuFailed` is as for `submit`.
    fn stop(&mut self, engine: EngineId) -> Result<(), GpuFailed>
        requires { engine.0 < 4 }
        ensures ok { OnOk result (state self.new ≡ stopped (state self.old) engine.0) }
        ensures err { OnErr result (state self.new ≡ with_faults (state self.old) (state self.new).faults) }
        ensures cause { OnErr result (counted (state self.old).faults ≤ (state self.new).faults) };

    /// Makes room for at least `n` journal entries. Where there is room for so many it succeeds and
    /// changes nothing. After want of memory the device is as before.
    fn reserve(&mut self, n: u64) -> Result<(), OutOfMemory>
        ensures room { OnOk result (n ≤ (state self.new).spare) }
        ensures ok { OnOk result (state self.new ≡ with_spare (state self.old) (state self.new).spare) }
        ensures err { OnErr result (state self.new ≡ state self.old) }
        ensures succeeds { n ≤ (state self.old).spare → IsOk result }
        ensures unchanged { n ≤ (state self.old).spare → state self.new ≡ state self.old };

    /// One step of an engine: the front command of the loaded context, if there is one. It takes no
    /// memory. `GpuFailed` is as for `submit`.
    fn step(&mut self, engine: EngineId) -> Result<Step, GpuFailed>
        requires engine { engine.0 < 4 }
        requires room { 1 ≤ (state self.old).spare }
        ensures answer { IfOk result (λ answer. answer ≡ (physical_step (state self.old) engine.0).answer) }
        ensures ok { OnOk result (state self.new ≡ (physical_step (state self.old) engine.0).after) }
        ensures err { OnErr result (state self.new ≡ with_faults (state self.old) (state self.new).faults) }
        ensures cause { OnErr result (counted (state self.old).faults ≤ (state self.new).faults) };
}
