ghost use Rattle.std.specs.Prelude.{◌<◌, List, [], ◌∷◌};

use crate::SoftGpu;
use crate::context::Context;
use crate::strays::either;
use gv_cmd::SpaceMeaning;
use gv_exec::Space;
use gv_gpu::Gpu;
use gv_types::{EngineId, half, with_half};

/// Per-process addresses count modulo this.
const ADDRESSES: u64 = 0x1_0000_0000_0000;

/// The space of a context that is loaded on an engine, over the device. It tells whether an access
/// has strayed.
pub(crate) struct Running<'a> {
    pub gpu: &'a mut SoftGpu,
    pub engine: EngineId,
    pub context: Context,
    pub strayed: bool,
    pub ghost there: { engine.0 < 4 },
}

impl SpaceMeaning for Running<'_> {
    ghost use Rattle.gv_gpu.specs.Step.{Stepping, operations};
    ghost use Rattle.gv_engine.specs.Running.{stepping};
    ghost use Rattle.gv_engine.specs.Whole.{whole};

    ghost State = { Stepping };

    ghost state = { λ s. stepping (whole s.gpu.now) s.engine.0 s.context s.strayed };

    ghost loans = { λ s. s.gpu.ghost_name ∷ [] };

    ghost operations = { operations };
}

impl Space for Running<'_> {
    fn load(&mut self, global: bool, at: u64) -> u32 {
        let (value, stray) = self.gpu.load(&self.context, global, at);
        self.strayed = either(self.strayed, stray);
        value
    }

    fn store(&mut self, global: bool, at: u64, value: u32) {
        let stray = self.gpu.store(&self.context, global, at, value);
        self.strayed = either(self.strayed, stray);
    }

    fn copy_row(&mut self, to: u64, from: u64, bytes: u32) {
        self.strayed = self.gpu.copy_row(
            &self.context,
            to % ADDRESSES,
            from % ADDRESSES,
            bytes as usize,
            self.strayed,
        );
    }

    fn fill_row(&mut self, to: u64, bytes: u32, colour: u32, depth: u8) {
        self.strayed = self.gpu.fill_row(
            &self.context,
            to % ADDRESSES,
            bytes as usize,
            colour,
            depth,
            self.strayed,
        );
    }

    fn general(&self, n: u8) -> u32 {
        half(self.gpu.general(self.engine, n / 2), 4 * u64::from(n))
    }

    fn set_general(&mut self, n: u8, value: u32) {
        let old = self.gpu.general(self.engine, n / 2);
        let word = with_half(old, 4 * u64::from(n), value);
        self.gpu.set_general(self.engine, n / 2, word);
    }
}
