ghost use Rattle.std.specs.Prelude.{◌≡◌, ◌+◌, ◌*◌, ◌≤◌, [], length, IfOk, OnOk};
ghost use Rattle.gv_types.specs.Memory.{zero_memory};
ghost use Rattle.gv_entry.specs.Global.{zero_entries};
ghost use Rattle.gv_entry.specs.Ranges.{InParts};
ghost use Rattle.gv_gpu.specs.Part.{outside, frames_part};
ghost use Rattle.gv_guest.specs.Placed.{Hosts, nowhere};
ghost use Rattle.gv_private.specs.Device.{PrivateDevice};
ghost use Rattle.gv_sggtt.specs.Mirror.{AreAbsent};
ghost use Rattle.gv_sppgtt.specs.Clearing.{AreNone};

use gv_gpu::Gpu;
use gv_guest::Memory;
use gv_sggtt::GlobalTable;
use gv_sppgtt::Tables;
use gv_types::{GuestId, OutOfMemory, Ranges};
use std::alloc::Global;

/// A guest's memory, its entries of the global table and its per-process tables, over the shared device. Clauses
/// see the part of the guest's private device that they stand for (`over`), and that they translate for it
/// (`Translates`).
#[derive(Drop)]
pub struct Gtt {
    pub(crate) memory: Memory,
    pub(crate) ranges: Ranges,
    pub(crate) table: GlobalTable,
    pub(crate) tables: Tables,
}

impl Gtt {
    ghost use Rattle.gv_gtt.specs.Gtt.{frames_of, nodes_in, over};
    ghost use Rattle.gv_gtt.specs.Standing.{Translates};

    /// A guest's memory and tables at first: so many zero frames, 1 to 16,384, and these ranges with every entry 0,
    /// whose physical entries are absent, and no roots. The guest has no frame in the device yet.
    pub fn new<G: Gpu>(
        alloc: Global,
        gpu: &mut G,
        guest: GuestId,
        frames: u32,
        ranges: Ranges,
    ) -> Result<Gtt, OutOfMemory>
        requires some { 1 ≤ frames }
        requires few { frames ≤ 16384 }
        requires parts { InParts ranges }
        requires room { (G.state gpu.old).live + (5 * frames + 64) ≤ 131072 }
        requires none { Hosts (G.state gpu.old) (nowhere guest.0) }
        requires absent { AreAbsent (G.state gpu.old) ranges }
        ensures device { IfOk result (λ g. (p : PrivateDevice) → over p (G.state gpu.new) g
            ≡ record p { number = guest.0; ranges = ranges; memory = zero_memory frames; entries = zero_entries ranges; roots = [] }) }
        ensures frames { IfOk result (λ g. length (frames_of g).pages ≡ frames) }
        ensures none { IfOk result (λ g. AreNone (nodes_in g)) }
        ensures translates { IfOk result (λ g. Translates (G.state gpu.new) g) }
        ensures live { OnOk result ((G.state gpu.new).live ≡ (G.state gpu.old).live + frames) }
        ensures outside { outside (frames_part guest.0) (G.state gpu.new) ≡ outside (frames_part guest.0) (G.state gpu.old) }
    {
        let table = GlobalTable::new(alloc, ranges, frames)?;
        let tables = Tables::new(alloc, guest, frames)?;
        let memory = Memory::new(alloc, gpu, guest, frames)?;
        Ok(Gtt {
            memory,
            ranges,
            table,
            tables,
        })
    }
}
