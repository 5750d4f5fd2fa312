ghost use Rattle.std.specs.Prelude.{◌≡◌, ◌%◌, ◌^◌, ◌<◌, ◌≤◌};
ghost use Rattle.gv_types.specs.Places.{address_limit};
ghost use Rattle.gv_types.specs.Memory.{bytes_of};
ghost use Rattle.gv_private.specs.Access.{aperture_read, table_at, dwords_read, range_read, table_read, value_read};
ghost use Rattle.gv_private.specs.Registers.{dword_read, general_read};
ghost use Rattle.gv_vgpu.specs.Vgpu.{private_of};
ghost use Rattle.gv_vgpu.specs.Owners.{is_here};
ghost use Rattle.gv_vgpu.specs.Standing.{Holds};

use crate::Vgpu;
use gv_gpu::Gpu;
use gv_mmio::Read;
use gv_types::{EngineId, Place, Width, half};

// Where the global table begins in the register range.
pub(crate) const TABLE_AT: u64 = 0x80_0000;

impl Vgpu {
    /// Reads a value that a guest's access reads, by the engines that the guest owns. In failsafe registers and aperture
    /// read 0.
    pub(crate) fn read<G: Gpu>(
        &self,
        gpu: &G,
        here: [bool; 4],
        place: Place,
        width: Width,
        at: u64,
    ) -> u64
        requires holds { Holds (G.state gpu.now) self.now (is_here here) }
        requires aligned { at % bytes_of width ≡ 0 }
        requires below { at < address_limit place }
        ensures { result ≡ value_read (private_of (G.state gpu.now) self.now (is_here here)) place width at }
    {
        match place {
            Place::Memory => self.gtt.read(gpu, at, width),
            _ if self.failsafe => 0,
            Place::Registers => self.read_range(gpu, here, width, at),
            Place::Aperture => self.read_aperture(gpu, here, width, at),
        }
    }

    fn read_aperture<G: Gpu>(&self, gpu: &G, here: [bool; 4], width: Width, at: u64) -> u64
        requires holds { Holds (G.state gpu.now) self.now (is_here here) }
        requires aligned { at % bytes_of width ≡ 0 }
        requires below { at < 2 ^ 32 }
        ensures { result ≡ aperture_read (private_of (G.state gpu.now) self.now (is_here here)) width at }
    {
        self.gtt.read_aperture(gpu, at, width)
    }

    // The register range: registers, and behind them the global table.
    fn read_range<G: Gpu>(&self, gpu: &G, here: [bool; 4], width: Width, offset: u64) -> u64
        requires holds { Holds (G.state gpu.now) self.now (is_here here) }
        requires below { offset < 0x1000000 }
        ensures { result ≡ range_read (private_of (G.state gpu.now) self.now (is_here here)) width offset }
    {
        if offset < TABLE_AT {
            self.read_dwords(gpu, here, width, offset as u32)
        } else {
            self.read_table(gpu, here, width, offset)
        }
    }

    // The guest's entry, or half of it.
    fn read_table<G: Gpu>(&self, _gpu: &G, here: [bool; 4], width: Width, offset: u64) -> u64
        requires holds { Holds (G.state _gpu.now) self.now (is_here here) }
        requires from { table_at ≤ offset }
        requires below { offset < 0x1000000 }
        ensures { result ≡ table_read (private_of (G.state _gpu.now) self.now (is_here here)) width offset }
    {
        let entry = self.gtt.read_entry(((offset - TABLE_AT) / 8) as u32);
        match width {
            Width::Four => u64::from(half(entry, offset)),
            Width::Eight => entry,
        }
    }

    // One dword of the registers, or two.
    fn read_dwords<G: Gpu>(&self, gpu: &G, here: [bool; 4], width: Width, offset: u32) -> u64
        requires holds { Holds (G.state gpu.now) self.now (is_here here) }
        requires below { offset < table_at }
        ensures { result ≡ dwords_read (private_of (G.state gpu.now) self.now (is_here here)) width offset }
    {
        let low = u64::from(self.read_dword(gpu, here, offset));
        match width {
            Width::Four => low,
            Width::Eight => {
                low + u64::from(self.read_dword(gpu, here, offset + 4)) * 0x1_0000_0000
            }
        }
    }

    fn read_dword<G: Gpu>(&self, gpu: &G, here: [bool; 4], offset: u32) -> u32
        requires { Holds (G.state gpu.now) self.now (is_here here) }
        ensures { result ≡ dword_read (private_of (G.state gpu.now) self.now (is_here here)) offset }
    {
        match self.mmio.read(offset) {
            Read::Value(value) => value,
            Read::General(engine, n) => self.read_general(gpu, here, engine, n),
        }
    }

    // A half of a general register: of the device's, where the guest owns the engine.
    fn read_general<G: Gpu>(&self, gpu: &G, here: [bool; 4], engine: EngineId, n: u8) -> u32
        requires holds { Holds (G.state gpu.now) self.now (is_here here) }
        requires engine { engine.0 < 4 }
        requires dword { n < 32 }
        ensures { result ≡ general_read ((private_of (G.state gpu.now) self.now (is_here here)).engines engine.0) n }
    {
        let register = if here[engine.0 as usize] {
            gpu.general(engine, n / 2)
        } else {
            self.engines[engine.0 as usize].kept[(n / 2) as usize]
        };
        half(register, 4 * u64::from(n))
    }
}
