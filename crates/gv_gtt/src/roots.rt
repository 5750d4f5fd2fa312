ghost use Rattle.std.specs.Prelude.{◌≡◌, false, true, Ok, Err, OnOk, IsErrOf, Some, [], length};
ghost use Rattle.gv_types.specs.declared.reply.Reason.TheVariants.{Entry};
ghost use Rattle.gv_entry.specs.Global.{zero_entries};
ghost use Rattle.gv_private.specs.Device.{PrivateDevice};
ghost use Rattle.gv_private.specs.Roots.{announced, without_root};
ghost use Rattle.gv_shape.specs.Counts.{is_among};
ghost use Rattle.gv_sppgtt.specs.Serving.{with_root, is_refused};
ghost use Rattle.gv_sppgtt.specs.Clearing.{IsWithin, AreNone};
ghost use Rattle.gv_gtt.specs.Changes.{Changes};
ghost use Rattle.gv_gtt.specs.Gtt.{frames_of, ranges_of, entries_of, memory_of, roots_in, nodes_in, over};
ghost use Rattle.gv_gtt.specs.Standing.{Stands, Translates};

use crate::Gtt;
use gv_gpu::Gpu;
use gv_sppgtt::TableFault;
use gv_types::OutOfMemory;

impl Gtt {
    // Makes a frame a root.
    fn make_root<G: Gpu>(&mut self, gpu: &mut G, root: u64) -> Result<(), TableFault>
        requires translates { Translates (G.state gpu.old) self.old }
        ensures translates { OnOk result (Translates (G.state gpu.new) self.new) }
        ensures stands { Stands (G.state gpu.new) self.new }
        ensures memory { memory_of (G.state gpu.new) self.new ≡ memory_of (G.state gpu.old) self.old }
        ensures entries { entries_of self.new ≡ entries_of self.old }
        ensures roots { OnOk result (roots_in self.new ≡ with_root (length (frames_of self.old).pages) (roots_in self.old) root) }
        ensures stay { OnOk result (IsWithin (nodes_in self.old) (nodes_in self.new)) }
        ensures good { OnOk result (is_refused (memory_of (G.state gpu.old) self.old) (roots_in self.old) root ≡ false) }
        ensures bad { IsErrOf result TableFault.BadEntry → is_refused (memory_of (G.state gpu.old) self.old) (roots_in self.old) root ≡ true }
        ensures changes { Changes (G.state gpu.old) (G.state gpu.new) self.old self.new }
    {
        let changed = self.tables.create(gpu, &mut self.memory, root)?;
        self.tell(gpu, &changed);
        Ok(())
    }

    /// Announces a root of per-process tables. After `BadEntry` only `clear` may follow: it comes where the frame isn't
    /// in memory, and where with it a live table has a bad entry.
    pub fn create_root<G: Gpu>(&mut self, gpu: &mut G, root: u64) -> Result<(), TableFault>
        requires translates { Translates (G.state gpu.old) self.old }
        ensures device { OnOk result ((p : PrivateDevice) → announced (over p (G.state gpu.old) self.old) root ≡ Ok (over p (G.state gpu.new) self.new)) }
        ensures bad { IsErrOf result TableFault.BadEntry → (p : PrivateDevice) → announced (over p (G.state gpu.old) self.old) root ≡ Err Entry }
        ensures translates { OnOk result (Translates (G.state gpu.new) self.new) }
        ensures stands { Stands (G.state gpu.new) self.new }
        ensures memory { memory_of (G.state gpu.new) self.new ≡ memory_of (G.state gpu.old) self.old }
        ensures stay { OnOk result (IsWithin (nodes_in self.old) (nodes_in self.new)) }
        ensures changes { Changes (G.state gpu.old) (G.state gpu.new) self.old self.new }
    {
        self.make_root(gpu, root)
    }

    // Takes away a root that is there.
    fn take_root<G: Gpu>(&mut self, gpu: &mut G, root: u32) -> Result<(), OutOfMemory>
        requires translates { Translates (G.state gpu.old) self.old }
        requires root { is_among (roots_in self.old) root ≡ true }
        ensures translates { OnOk result (Translates (G.state gpu.new) self.new) }
        ensures stands { Stands (G.state gpu.new) self.new }
        ensures memory { memory_of (G.state gpu.new) self.new ≡ memory_of (G.state gpu.old) self.old }
        ensures entries { entries_of self.new ≡ entries_of self.old }
        ensures roots { OnOk result (roots_in self.new ≡ without_root (roots_in self.old) root) }
        ensures stay { OnOk result (IsWithin (nodes_in self.new) (nodes_in self.old)) }
        ensures changes { Changes (G.state gpu.old) (G.state gpu.new) self.old self.new }
    {
        let changed = self.tables.destroy(gpu, &mut self.memory, root)?;
        self.tell(gpu, &changed);
        Ok(())
    }

    /// Takes a root away, if it is there.
    pub fn destroy_root<G: Gpu>(&mut self, gpu: &mut G, root: u32) -> Result<(), OutOfMemory>
        requires translates { Translates (G.state gpu.old) self.old }
        ensures device { OnOk result ((p : PrivateDevice) → over p (G.state gpu.new) self.new
            ≡ record (over p (G.state gpu.old) self.old) { roots = without_root (roots_in self.old) root }) }
        ensures translates { OnOk result (Translates (G.state gpu.new) self.new) }
        ensures stands { Stands (G.state gpu.new) self.new }
        ensures memory { memory_of (G.state gpu.new) self.new ≡ memory_of (G.state gpu.old) self.old }
        ensures stay { OnOk result (IsWithin (nodes_in self.new) (nodes_in self.old)) }
        ensures changes { Changes (G.state gpu.old) (G.state gpu.new) self.old self.new }
    {
        if self.is_root(root) {
            self.take_root(gpu, root)
        } else {
            Ok(())
        }
    }

    /// Whether a frame is a root.
    pub fn is_root(&self, frame: u32) -> bool
        ensures { result ≡ is_among (roots_in self.now) frame }
    {
        self.tables.is_root(frame)
    }

    /// The host page of a root's shadow table.
    pub fn shadow_root(&self, root: u32) -> u64
        requires { is_among (roots_in self.now) root ≡ true }
        ensures { nodes_in self.now 4 root ≡ Some result }
    {
        self.tables.shadow_root(root)
    }

    /// Sets every entry of the global table to 0 and takes all roots away, whatever state a call that failed left.
    /// Memory stays. It takes no memory.
    pub fn clear<G: Gpu>(&mut self, gpu: &mut G)
        requires stands { Stands (G.state gpu.old) self.old }
        ensures device { (p : PrivateDevice) → over p (G.state gpu.new) self.new
            ≡ record (over p (G.state gpu.old) self.old) { entries = zero_entries (ranges_of self.old); roots = [] } }
        ensures none { AreNone (nodes_in self.new) }
        ensures translates { Translates (G.state gpu.new) self.new }
        ensures changes { Changes (G.state gpu.old) (G.state gpu.new) self.old self.new }
    {
        self.tables.clear(gpu, &mut self.memory);
        self.table.clear(gpu, &mut self.memory);
    }
}
