ghost use Rattle.std.specs.Prelude.{◌≡◌, ◌<◌, length, not};
ghost use Rattle.gv_sggtt.specs.Table.{guards, table_guarding};
ghost use Rattle.gv_sppgtt.specs.Serving.{guarded_of, Tells};
ghost use Rattle.gv_gtt.specs.Changes.{ChangesTable};
ghost use Rattle.gv_gtt.specs.Standing.{Serving, Translates};
ghost use Rattle.gv_gtt.specs.Turning.{MayTurn, Turned};

use crate::Gtt;
use gv_gpu::Gpu;
use gv_sppgtt::Changed;

impl Gtt {
    // Guards a frame of the global table, or guards it no longer.
    fn turn<G: Gpu>(&mut self, gpu: &mut G, frame: u32, guarded: bool)
        requires serving { Serving (G.state gpu.old) self.old }
        requires within { frame < self.old.table.frames }
        requires turns { guards self.old.table.guarded frame ≡ not guarded }
        ensures serving { Serving (G.state gpu.new) self.new }
        ensures table { self.new.table ≡ table_guarding self.old.table frame guarded }
        ensures changes { ChangesTable (G.state gpu.old) (G.state gpu.new) self.old self.new }
    {
        if guarded {
            self.table.guard(gpu, &mut self.memory, frame);
        } else {
            self.table.unguard(gpu, &mut self.memory, frame);
        }
    }

    // Guards these frames, or guards them no longer.
    fn turn_all<G: Gpu>(&mut self, gpu: &mut G, frames: &[u32], guarded: bool)
        requires serving { Serving (G.state gpu.old) self.old }
        requires may { MayTurn self.old frames.now guarded }
        ensures { Turned (G.state gpu.old) (G.state gpu.new) self.old self.new frames.now guarded }
    {
        for frame in frames {
            self.turn(gpu, *frame, guarded);
        }
    }

    /// Tells the global table of the frames that became live tables, and of those that no longer are.
    pub(crate) fn tell<G: Gpu>(&mut self, gpu: &mut G, changed: &Changed)
        requires serving { Serving (G.state gpu.old) self.old }
        requires tells { Tells (guards self.old.table.guarded) (guarded_of self.old.tables) (length self.old.memory.frames.pages) changed.now.guarded.items changed.now.unguarded.items }
        ensures translates { Translates (G.state gpu.new) self.new }
        ensures entries { self.new.table.entries ≡ self.old.table.entries }
        ensures changes { ChangesTable (G.state gpu.old) (G.state gpu.new) self.old self.new }
    {
        self.turn_all(gpu, changed.guarded.as_slice(), true);
        self.turn_all(gpu, changed.unguarded.as_slice(), false);
    }
}
