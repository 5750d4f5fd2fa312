ghost use Rattle.std.specs.Prelude.{◌≡◌, ◌≢◌, ℕ, ◌%◌, ◌^◌, ◌<◌, ◌≤◌, length};
ghost use Rattle.gv_types.specs.Memory.{bytes_of, all_ones};
ghost use Rattle.gv_entry.specs.Global.{global_entry};
ghost use Rattle.gv_gtt.specs.Gtt.{ranges_of, entries_of};
ghost use Rattle.gv_private.specs.Access.{aperture_written, entry_after, page_at, table_at, table_written};
ghost use Rattle.gv_private.specs.Registers.{general_written};
ghost use Rattle.gv_vgpu.specs.Changes.{Keeps};
ghost use Rattle.gv_vgpu.specs.Plain.{ChangesAccess};
ghost use Rattle.gv_vgpu.specs.Vgpu.{engine_at, private_of};
ghost use Rattle.gv_vgpu.specs.General.{kept_written, with_dword};
ghost use Rattle.gv_vgpu.specs.Owners.{is_here};
ghost use Rattle.gv_vgpu.specs.Standing.{Holds};

use crate::Vgpu;
use crate::read::TABLE_AT;
use gv_gpu::Gpu;
use gv_types::{EngineId, Width, with_half};

impl Vgpu {
    /// Writes through the aperture.
    pub(crate) fn write_aperture<G: Gpu>(
        &self,
        gpu: &mut G,
        here: [bool; 4],
        width: Width,
        at: u64,
        value: u64,
    )
        requires holds { Holds (G.state gpu.old) self.now (is_here here) }
        requires aligned { at % bytes_of width ≡ 0 }
        requires below { at < 2 ^ 32 }
        requires fits { value ≤ all_ones width }
        ensures device { private_of (G.state gpu.new) self.now (is_here here) ≡ aperture_written (private_of (G.state gpu.old) self.now (is_here here)) width at value }
        ensures keeps { Keeps (is_here here) (G.state gpu.old) (G.state gpu.new) self.now self.now }
        ensures part { ChangesAccess 6 (G.state gpu.old) (G.state gpu.new) self.now }
    {
        self.gtt.write_aperture(gpu, at, width, value);
    }

    // The guest's entry after a write of it, or of its half.
    fn entry_after(&self, width: Width, offset: u64, value: u64) -> u64
        requires from { table_at ≤ offset }
        requires below { offset < 0x1000000 }
        requires fits { value ≤ all_ones width }
        ensures { result ≡ entry_after width offset (global_entry (ranges_of self.now.gtt) (entries_of self.now.gtt) (page_at offset)) value }
    {
        match width {
            Width::Four => {
                let entry = self.gtt.read_entry(((offset - TABLE_AT) / 8) as u32);
                with_half(entry, offset, value as u32)
            }
            Width::Eight => value,
        }
    }

    /// Writes the guest's entry, or half of it, at an offset of the register range from 0x800000 on.
    pub(crate) fn write_table<G: Gpu>(
        &mut self,
        gpu: &mut G,
        here: [bool; 4],
        width: Width,
        offset: u64,
        value: u64,
    )
        requires holds { Holds (G.state gpu.old) self.old (is_here here) }
        requires from { table_at ≤ offset }
        requires below { offset < 0x1000000 }
        requires fits { value ≤ all_ones width }
        ensures device { private_of (G.state gpu.new) self.new (is_here here) ≡ table_written (private_of (G.state gpu.old) self.old (is_here here)) width offset value }
        ensures keeps { Keeps (is_here here) (G.state gpu.old) (G.state gpu.new) self.old self.new }
        ensures part { ChangesAccess 6 (G.state gpu.old) (G.state gpu.new) self.old }
    {
        let entry = self.entry_after(width, offset, value);
        self.gtt
            .write_entry(gpu, ((offset - TABLE_AT) / 8) as u32, entry);
    }

    /// Writes a dword of an engine's general registers: to the device's, where the guest owns the engine.
    pub(crate) fn write_general<G: Gpu>(
        &mut self,
        gpu: &mut G,
        here: [bool; 4],
        engine: EngineId,
        n: u8,
        value: u32,
    )
        requires holds { Holds (G.state gpu.old) self.old (is_here here) }
        requires engine { engine.0 < 4 }
        requires dword { n < 32 }
        ensures device { private_of (G.state gpu.new) self.new (is_here here) ≡ general_written (private_of (G.state gpu.old) self.old (is_here here)) engine.0 n value }
        ensures keeps { Keeps (is_here here) (G.state gpu.old) (G.state gpu.new) self.old self.new }
    {
        if here[engine.0 as usize] {
            self.write_loaded(gpu, engine, n, value);
        } else {
            self.write_kept(engine, n, value);
        }
    }

    // Writes a dword of the device's general registers.
    fn write_loaded<G: Gpu>(&self, gpu: &mut G, engine: EngineId, n: u8, value: u32)
        requires engine { engine.0 < 4 }
        requires dword { n < 32 }
        ensures { G.state gpu.new ≡ with_dword (G.state gpu.old) engine.0 n value }
    {
        let register = gpu.general(engine, n / 2);
        gpu.set_general(engine, n / 2, with_half(register, 4 * u64::from(n), value));
    }

    // Writes a dword of the general registers that are kept.
    fn write_kept(&mut self, engine: EngineId, n: u8, value: u32)
        requires engine { engine.0 < 4 }
        requires dword { n < 32 }
        requires sixteen { length (engine_at self.old engine.0).kept ≡ 16 }
        ensures here { engine_at self.new engine.0 ≡ kept_written (engine_at self.old engine.0) n value }
        ensures others { (k : ℕ) → k ≢ engine.0 → engine_at self.new k ≡ engine_at self.old k }
        ensures gtt { self.new.gtt ≡ self.old.gtt }
        ensures mmio { self.new.mmio ≡ self.old.mmio }
        ensures failsafe { self.new.failsafe ≡ self.old.failsafe }
    {
        let register = self.engines[engine.0 as usize].kept[(n / 2) as usize];
        self.engines[engine.0 as usize].kept[(n / 2) as usize] = with_half(
            register,
            4 * u64::from(n),
            value,
        );
    }
}
