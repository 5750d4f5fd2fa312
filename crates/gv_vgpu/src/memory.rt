ghost use Rattle.std.specs.Prelude.{◌≡◌, ◌+◌, ◌/◌, ◌%◌, ◌≤◌, false, true, None, IfOk, IfErr, IsErrOf, IsOk, OnOk};
ghost use Rattle.gv_types.specs.Memory.{bytes_of, all_ones, memory_write};
ghost use Rattle.gv_element.specs.Works.{KeepsEngines};
ghost use Rattle.gv_entry.specs.Tables.{has_bad_entry, is_guarded};
ghost use Rattle.gv_gtt.specs.Changes.{HaveSameLive};
ghost use Rattle.gv_gtt.specs.Gtt.{levels_of, memory_of, roots_in};
ghost use Rattle.gv_private.specs.Access.{memory_written};
ghost use Rattle.gv_vgpu.specs.Changes.{Makes, Stops};
ghost use Rattle.gv_vgpu.specs.Plain.{ChangesAccess, IsPlainWrite};
ghost use Rattle.gv_vgpu.specs.Vgpu.{private_of};
ghost use Rattle.gv_vgpu.specs.Owners.{is_here};
ghost use Rattle.gv_vgpu.specs.Standing.{Holds};

use crate::Vgpu;
use crate::notice::Notice;
use crate::stop::or_stop;
use gv_gpu::Gpu;
use gv_sppgtt::TableFault;
use gv_types::{Place, Reason, Stop, Width};

impl Vgpu {
    /// Writes memory. A guest by whose write a live table has a bad entry fails, and what was written stays. Where the
    /// frame is no live table, and outside of memory, the call takes no memory and makes no use of an engine.
    pub(crate) fn write_memory<G: Gpu>(
        &mut self,
        gpu: &mut G,
        here: [bool; 4],
        width: Width,
        at: u64,
        value: u64,
    ) -> Result<Notice, Stop>
        requires holds { Holds (G.state gpu.old) self.old (is_here here) }
        requires aligned { at % bytes_of width ≡ 0 }
        requires fits { value ≤ all_ones width }
        ensures written { IfOk result (λ notice. Makes (is_here here) (G.state gpu.old) (G.state gpu.new) self.old self.new (memory_written (private_of (G.state gpu.old) self.old (is_here here)) width at value) notice) }
        ensures stops { IfErr result (λ stop. Stops (is_here here) (G.state gpu.old) (G.state gpu.new) self.old stop) }
        ensures beside { is_guarded (memory_of (G.state gpu.old) self.old.gtt) (roots_in self.old.gtt) (at / 4096) ≡ false → IsOk result }
        ensures part { OnOk result (IsPlainWrite (private_of (G.state gpu.old) self.old (is_here here)) Place.Memory width at → ChangesAccess 6 (G.state gpu.old) (G.state gpu.new) self.old) }
        ensures listed { IsErrOf result Stop.DeviceFault → has_bad_entry (memory_write (memory_of (G.state gpu.old) self.old.gtt) width at value) (roots_in self.old.gtt) ≡ true }
        ensures pokes { IfOk result (λ notice. notice.failsafe ≡ None
            → HaveSameLive (memory_of (G.state gpu.old) self.old.gtt) (memory_of (G.state gpu.new) self.new.gtt) (roots_in self.old.gtt)
            → (G.state gpu.new).pokes ≤ (G.state gpu.old).pokes + (1 + levels_of (memory_of (G.state gpu.old) self.old.gtt) (roots_in self.old.gtt) (at / 4096))) }
        ensures unsubmitted { IsErrOf result Stop.OutOfMemory → KeepsEngines (G.state gpu.old) (G.state gpu.new) }
    {
        match self.gtt.write(gpu, at, width, value) {
            Ok(()) => Ok(Notice::none()),
            Err(TableFault::OutOfMemory) => Err(Stop::OutOfMemory),
            Err(TableFault::BadEntry) => or_stop(self.fail(gpu, here, Reason::Entry)),
        }
    }
}
