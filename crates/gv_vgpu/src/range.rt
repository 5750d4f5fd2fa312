ghost use Rattle.std.specs.Prelude.{◌≡◌, ◌%◌, ◌<◌, ◌≤◌, ◌⊎◌, false, IfOk, IfErr, IsErrOf, IsSome, OnOk};
ghost use Rattle.gv_types.specs.Memory.{bytes_of, all_ones};
ghost use Rattle.gv_types.specs.Places.{address_limit};
ghost use Rattle.gv_element.specs.Works.{KeepsEngines};
ghost use Rattle.gv_private.specs.Access.{dwords_written, range_written, table_at, value_written};
ghost use Rattle.gv_private.specs.Registers.{dword_written};
ghost use Rattle.gv_vgpu.specs.Access.{WritePokes};
ghost use Rattle.gv_vgpu.specs.Changes.{Makes, Stops};
ghost use Rattle.gv_regs.specs.Table.{target_at};
ghost use Rattle.gv_vgpu.specs.Pair.{pair_written};
ghost use Rattle.gv_vgpu.specs.Plain.{ChangesAccess, IsPlainAt, IsPlainTarget, IsPlainWrite};
ghost use Rattle.gv_vgpu.specs.Listed.{MayFault, MayFaultAt, MayLackMemory, MayLackMemoryAt, ReachesNotify, ReachesReset};
ghost use Rattle.gv_vgpu.specs.Vgpu.{private_of};
ghost use Rattle.gv_vgpu.specs.Owners.{is_here};
ghost use Rattle.gv_vgpu.specs.Standing.{Holds};

use crate::Vgpu;
use crate::notice::Notice;
use crate::read::TABLE_AT;
use crate::stop::or_stop;
use gv_csb::Status;
use gv_gpu::Gpu;
use gv_mmio::Wrote;
use gv_types::{Place, Stop, Width};

impl Vgpu {
    // Writes a dword of the registers.
    fn write_dword<G: Gpu>(
        &mut self,
        gpu: &mut G,
        here: [bool; 4],
        offset: u32,
        value: u32,
    ) -> Result<Notice, Stop>
        requires holds { Holds (G.state gpu.old) self.old (is_here here) }
        ensures written { IfOk result (λ notice. Makes (is_here here) (G.state gpu.old) (G.state gpu.new) self.old self.new (dword_written (private_of (G.state gpu.old) self.old (is_here here)) offset value) notice) }
        ensures stops { IfErr result (λ stop. Stops (is_here here) (G.state gpu.old) (G.state gpu.new) self.old stop) }
        ensures faults { IsErrOf result Stop.DeviceFault → MayFaultAt (private_of (G.state gpu.old) self.old (is_here here)) offset value }
        ensures lacks { IsErrOf result Stop.OutOfMemory → MayLackMemoryAt offset }
        ensures unsubmitted { IsErrOf result Stop.OutOfMemory → KeepsEngines (G.state gpu.old) (G.state gpu.new) }
        ensures part { OnOk result (IsPlainTarget (target_at offset) → ChangesAccess 3 (G.state gpu.old) (G.state gpu.new) self.old) }
    {
        match self.mmio.write(offset, value) {
            Wrote::Done(irq) => Ok(Notice::injected(irq)),
            Wrote::General(engine, n) => {
                self.write_general(gpu, here, engine, n, value);
                Ok(Notice::none())
            }
            Wrote::Engines(named) => {
                or_stop(self.reset_named(gpu, here, named))?;
                Ok(Notice::none())
            }
            Wrote::Notify => self.notify(gpu, here, value),
            Wrote::Starts(engine) => {
                let irq = self.give_event(gpu, here, engine, Status::idle_to_active());
                Ok(Notice::injected(irq))
            }
        }
    }

    // Writes two dwords, one behind the other. A guest that fails by the first has no second.
    fn write_pair<G: Gpu>(
        &mut self,
        gpu: &mut G,
        here: [bool; 4],
        offset: u32,
        low: u32,
        high: u32,
    ) -> Result<Notice, Stop>
        requires holds { Holds (G.state gpu.old) self.old (is_here here) }
        requires below { offset < table_at }
        ensures written { IfOk result (λ notice. Makes (is_here here) (G.state gpu.old) (G.state gpu.new) self.old self.new (pair_written (private_of (G.state gpu.old) self.old (is_here here)) offset low high) notice) }
        ensures stops { IfErr result (λ stop. Stops (is_here here) (G.state gpu.old) (G.state gpu.new) self.old stop) }
        ensures faults { IsErrOf result Stop.DeviceFault → ReachesReset Width.Eight offset ⊎ IsSome (pair_written (private_of (G.state gpu.old) self.old (is_here here)) offset low high).reason }
        ensures lacks { IsErrOf result Stop.OutOfMemory → ReachesNotify Width.Eight offset }
        ensures unsubmitted { IsErrOf result Stop.OutOfMemory → KeepsEngines (G.state gpu.old) (G.state gpu.new) }
        ensures part { OnOk result (IsPlainAt Width.Eight offset → ChangesAccess 6 (G.state gpu.old) (G.state gpu.new) self.old) }
    {
        let first = self.write_dword(gpu, here, offset, low)?;
        if self.failsafe {
            return Ok(first);
        }
        let second = self.write_dword(gpu, here, offset + 4, high)?;
        Ok(first.then(second))
    }

    // Writes a dword of the registers, or two, the low one first.
    fn write_dwords<G: Gpu>(
        &mut self,
        gpu: &mut G,
        here: [bool; 4],
        width: Width,
        offset: u32,
        value: u64,
    ) -> Result<Notice, Stop>
        requires holds { Holds (G.state gpu.old) self.old (is_here here) }
        requires below { offset < table_at }
        requires fits { value ≤ all_ones width }
        requires awake { self.old.failsafe ≡ false }
        ensures written { IfOk result (λ notice. Makes (is_here here) (G.state gpu.old) (G.state gpu.new) self.old self.new (dwords_written (private_of (G.state gpu.old) self.old (is_here here)) width offset value) notice) }
        ensures stops { IfErr result (λ stop. Stops (is_here here) (G.state gpu.old) (G.state gpu.new) self.old stop) }
        ensures faults { IsErrOf result Stop.DeviceFault → MayFault (private_of (G.state gpu.old) self.old (is_here here)) Place.Registers width offset value }
        ensures lacks { IsErrOf result Stop.OutOfMemory → MayLackMemory (private_of (G.state gpu.old) self.old (is_here here)) Place.Registers width offset }
        ensures unsubmitted { IsErrOf result Stop.OutOfMemory → KeepsEngines (G.state gpu.old) (G.state gpu.new) }
        ensures part { OnOk result (IsPlainAt width offset → ChangesAccess 6 (G.state gpu.old) (G.state gpu.new) self.old) }
    {
        match width {
            Width::Four => self.write_dword(gpu, here, offset, value as u32),
            Width::Eight => {
                self.write_pair(
                    gpu,
                    here,
                    offset,
                    (value % 0x1_0000_0000) as u32,
                    (value / 0x1_0000_0000) as u32,
                )
            }
        }
    }

    // Writes the register range: registers, and behind them the global table.
    fn write_range<G: Gpu>(
        &mut self,
        gpu: &mut G,
        here: [bool; 4],
        width: Width,
        offset: u64,
        value: u64,
    ) -> Result<Notice, Stop>
        requires holds { Holds (G.state gpu.old) self.old (is_here here) }
        requires below { offset < 0x1000000 }
        requires fits { value ≤ all_ones width }
        requires awake { self.old.failsafe ≡ false }
        ensures written { IfOk result (λ notice. Makes (is_here here) (G.state gpu.old) (G.state gpu.new) self.old self.new (range_written (private_of (G.state gpu.old) self.old (is_here here)) width offset value) notice) }
        ensures stops { IfErr result (λ stop. Stops (is_here here) (G.state gpu.old) (G.state gpu.new) self.old stop) }
        ensures faults { IsErrOf result Stop.DeviceFault → MayFault (private_of (G.state gpu.old) self.old (is_here here)) Place.Registers width offset value }
        ensures lacks { IsErrOf result Stop.OutOfMemory → MayLackMemory (private_of (G.state gpu.old) self.old (is_here here)) Place.Registers width offset }
        ensures unsubmitted { IsErrOf result Stop.OutOfMemory → KeepsEngines (G.state gpu.old) (G.state gpu.new) }
        ensures part { OnOk result (IsPlainWrite (private_of (G.state gpu.old) self.old (is_here here)) Place.Registers width offset → ChangesAccess 6 (G.state gpu.old) (G.state gpu.new) self.old) }
    {
        if offset < TABLE_AT {
            self.write_dwords(gpu, here, width, offset as u32, value)
        } else {
            self.write_table(gpu, here, width, offset, value);
            Ok(Notice::none())
        }
    }

    /// Writes a value that a guest's access writes, by the engines that the guest owns. In failsafe registers and
    /// aperture aren't written.
    pub(crate) fn write<G: Gpu>(
        &mut self,
        gpu: &mut G,
        here: [bool; 4],
        place: Place,
        width: Width,
        at: u64,
        value: u64,
    ) -> Result<Notice, Stop>
        requires holds { Holds (G.state gpu.old) self.old (is_here here) }
        requires aligned { at % bytes_of width ≡ 0 }
        requires below { at < address_limit place }
        requires fits { value ≤ all_ones width }
        ensures written { IfOk result (λ notice. Makes (is_here here) (G.state gpu.old) (G.state gpu.new) self.old self.new (value_written (private_of (G.state gpu.old) self.old (is_here here)) place width at value) notice) }
        ensures stops { IfErr result (λ stop. Stops (is_here here) (G.state gpu.old) (G.state gpu.new) self.old stop) }
        ensures faults { IsErrOf result Stop.DeviceFault → MayFault (private_of (G.state gpu.old) self.old (is_here here)) place width at value }
        ensures lacks { IsErrOf result Stop.OutOfMemory → MayLackMemory (private_of (G.state gpu.old) self.old (is_here here)) place width at }
        ensures unsubmitted { IsErrOf result Stop.OutOfMemory → KeepsEngines (G.state gpu.old) (G.state gpu.new) }
        ensures part { OnOk result (IsPlainWrite (private_of (G.state gpu.old) self.old (is_here here)) place width at → ChangesAccess 6 (G.state gpu.old) (G.state gpu.new) self.old) }
        ensures pokes { IfOk result (λ notice. WritePokes (G.state gpu.old) (G.state gpu.new) (private_of (G.state gpu.old) self.old (is_here here)) (private_of (G.state gpu.new) self.new (is_here here)) place at notice.failsafe) }
    {
        match place {
            Place::Memory => self.write_memory(gpu, here, width, at, value),
            _ if self.failsafe => Ok(Notice::none()),
            Place::Registers => self.write_range(gpu, here, width, at, value),
            Place::Aperture => {
                self.write_aperture(gpu, here, width, at, value);
                Ok(Notice::none())
            }
        }
    }
}
