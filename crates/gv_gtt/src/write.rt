ghost use Rattle.std.specs.Prelude.{◌≡◌, ℕ, ◌+◌, ◌*◌, ◌/◌, ◌%◌, ◌<◌, ◌≤◌, false, true, length, IsOk, IsErrOf, OnOk};
ghost use Rattle.gv_types.specs.Memory.{Memory as Words, bytes_of, all_ones, memory_write};
ghost use Rattle.gv_entry.specs.Tables.{has_bad_entry, is_guarded};
ghost use Rattle.gv_gpu.specs.Change.{ChangesOnly};
ghost use Rattle.gv_gpu.specs.Device.{Device};
ghost use Rattle.gv_gpu.specs.Part.{frames_part};
ghost use Rattle.gv_private.specs.Device.{PrivateDevice};
ghost use Rattle.gv_sppgtt.specs.Grown.{HaveSameNodes, nodes_of};
ghost use Rattle.gv_sppgtt.specs.Serving.{frames_of as frames_in};
ghost use Rattle.gv_sppgtt.specs.State.{is_table};
ghost use Rattle.gv_gtt.specs.Changes.{Changes, HaveSameLive};
ghost use Rattle.gv_gtt.specs.Gtt.{frames_of, number_of, entries_of, memory_of, roots_in, nodes_in, levels_of, over};
ghost use Rattle.gv_gtt.specs.Standing.{Stands, Translates, Follows};

use crate::Gtt;
use gv_gpu::Gpu;
use gv_sppgtt::TableFault;
use gv_types::{PAGE_BYTES, Width};

impl Gtt {
    // Whether a frame is a live table.
    fn has_role(&self, frame: u32) -> bool
        requires { frame < frames_in self.now.tables }
        ensures { result ≡ is_table (nodes_in self.now) frame }
    {
        self.tables.roles(frame) != 0
    }

    // Whether an address is in a live table.
    fn is_in_table(&self, at: u64) -> bool
        requires { frames_in self.now.tables ≡ length (frames_of self.now).pages }
        ensures table { (d : Device) → Translates d self.now → result ≡ is_guarded (memory_of d self.now) (roots_in self.now) (at / 4096) }
        ensures within { result ≡ true → at < length (frames_of self.now).pages * 4096 }
    {
        let frame = at / PAGE_BYTES;
        if frame < u64::from(self.memory.frames()) {
            self.has_role(frame as u32)
        } else {
            false
        }
    }

    // Writes where no live table is.
    fn write_beside<G: Gpu>(&self, gpu: &mut G, at: u64, width: Width, value: u64)
        requires translates { Translates (G.state gpu.old) self.now }
        requires aligned { at % bytes_of width ≡ 0 }
        requires fits { value ≤ all_ones width }
        requires beside { is_guarded (memory_of (G.state gpu.old) self.now) (roots_in self.now) (at / 4096) ≡ false }
        ensures memory { memory_of (G.state gpu.new) self.now ≡ memory_write (memory_of (G.state gpu.old) self.now) width at value }
        ensures translates { Translates (G.state gpu.new) self.now }
        ensures changes { ChangesOnly (frames_part (number_of self.now)) 1 (G.state gpu.old) (G.state gpu.new) }
    {
        self.memory.write(gpu, at, width, value);
    }

    // The tables follow a change of one word of a frame.
    fn follow<G: Gpu>(&mut self, gpu: &mut G, frame: u32, index: u16) -> Result<(), TableFault>
        requires follows { (m : Words) × Follows (G.state gpu.old) self.old m frame index }
        requires frame { frame < length (frames_of self.old).pages }
        requires within { index < 512 }
        ensures translates { OnOk result (Translates (G.state gpu.new) self.new) }
        ensures stands { Stands (G.state gpu.new) self.new }
        ensures memory { memory_of (G.state gpu.new) self.new ≡ memory_of (G.state gpu.old) self.old }
        ensures entries { entries_of self.new ≡ entries_of self.old }
        ensures roots { OnOk result (roots_in self.new ≡ roots_in self.old) }
        ensures shadow_roots { OnOk result ((root : ℕ) → nodes_in self.new 4 root ≡ nodes_in self.old 4 root) }
        ensures pokes { OnOk result (HaveSameNodes (nodes_in self.old) (nodes_in self.new) → (G.state gpu.new).pokes ≤ (G.state gpu.old).pokes + nodes_of (nodes_in self.old) frame) }
        ensures bad { IsErrOf result TableFault.BadEntry → has_bad_entry (memory_of (G.state gpu.old) self.old) (roots_in self.old) ≡ true }
        ensures changes { Changes (G.state gpu.old) (G.state gpu.new) self.old self.new }
    {
        let changed = self.tables.written(gpu, &mut self.memory, frame, index)?;
        self.tell(gpu, &changed);
        Ok(())
    }

    // Writes a live table.
    fn write_table<G: Gpu>(
        &mut self,
        gpu: &mut G,
        at: u64,
        width: Width,
        value: u64,
    ) -> Result<(), TableFault>
        requires translates { Translates (G.state gpu.old) self.old }
        requires aligned { at % bytes_of width ≡ 0 }
        requires fits { value ≤ all_ones width }
        requires within { at < length (frames_of self.old).pages * 4096 }
        ensures translates { OnOk result (Translates (G.state gpu.new) self.new) }
        ensures stands { Stands (G.state gpu.new) self.new }
        ensures memory { memory_of (G.state gpu.new) self.new ≡ memory_write (memory_of (G.state gpu.old) self.old) width at value }
        ensures entries { entries_of self.new ≡ entries_of self.old }
        ensures roots { OnOk result (roots_in self.new ≡ roots_in self.old) }
        ensures shadow_roots { OnOk result ((root : ℕ) → nodes_in self.new 4 root ≡ nodes_in self.old 4 root) }
        ensures pokes { OnOk result (HaveSameNodes (nodes_in self.old) (nodes_in self.new) → (G.state gpu.new).pokes ≤ (G.state gpu.old).pokes + (1 + nodes_of (nodes_in self.old) (at / 4096))) }
        ensures bad { IsErrOf result TableFault.BadEntry → has_bad_entry (memory_of (G.state gpu.new) self.new) (roots_in self.old) ≡ true }
        ensures changes { Changes (G.state gpu.old) (G.state gpu.new) self.old self.new }
    {
        self.memory.write(gpu, at, width, value);
        self.follow(gpu, (at / PAGE_BYTES) as u32, (at % PAGE_BYTES / 8) as u16)
    }

    /// Writes memory. After `BadEntry`, which comes exactly where a live table then has a bad entry, what was written
    /// stays, and only `clear` may follow. A write outside of memory, or to a frame that is no live table, takes no
    /// memory and is `Ok`.
    pub fn write<G: Gpu>(
        &mut self,
        gpu: &mut G,
        at: u64,
        width: Width,
        value: u64,
    ) -> Result<(), TableFault>
        requires translates { Translates (G.state gpu.old) self.old }
        requires aligned { at % bytes_of width ≡ 0 }
        requires fits { value ≤ all_ones width }
        ensures device { OnOk result ((p : PrivateDevice) → over p (G.state gpu.new) self.new
            ≡ record (over p (G.state gpu.old) self.old) { memory = memory_write (memory_of (G.state gpu.old) self.old) width at value }) }
        ensures memory { memory_of (G.state gpu.new) self.new ≡ memory_write (memory_of (G.state gpu.old) self.old) width at value }
        ensures translates { OnOk result (Translates (G.state gpu.new) self.new) }
        ensures stands { Stands (G.state gpu.new) self.new }
        ensures good { OnOk result (has_bad_entry (memory_of (G.state gpu.new) self.new) (roots_in self.old) ≡ false) }
        ensures bad { IsErrOf result TableFault.BadEntry → has_bad_entry (memory_of (G.state gpu.new) self.new) (roots_in self.old) ≡ true }
        ensures beside { is_guarded (memory_of (G.state gpu.old) self.old) (roots_in self.old) (at / 4096) ≡ false → IsOk result }
        ensures part { is_guarded (memory_of (G.state gpu.old) self.old) (roots_in self.old) (at / 4096) ≡ false → ChangesOnly (frames_part (number_of self.old)) 1 (G.state gpu.old) (G.state gpu.new) }
        ensures shadow_roots { OnOk result ((root : ℕ) → nodes_in self.new 4 root ≡ nodes_in self.old 4 root) }
        ensures pokes { OnOk result (HaveSameLive (memory_of (G.state gpu.old) self.old) (memory_of (G.state gpu.new) self.new) (roots_in self.old)
            → (G.state gpu.new).pokes ≤ (G.state gpu.old).pokes + (1 + levels_of (memory_of (G.state gpu.old) self.old) (roots_in self.old) (at / 4096))) }
        ensures changes { Changes (G.state gpu.old) (G.state gpu.new) self.old self.new }
    {
        if self.is_in_table(at) {
            self.write_table(gpu, at, width, value)
        } else {
            self.write_beside(gpu, at, width, value);
            Ok(())
        }
    }
}
