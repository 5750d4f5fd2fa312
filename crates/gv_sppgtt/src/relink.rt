ghost use Rattle.std.specs.Prelude.{◌≡◌, ℕ, ◌+◌, ◌-◌, ◌*◌, ◌<◌, ◌≤◌, List, length, Some, None, IfSome, IfNone, IfOk, OnOk, IsErrOf, MatchOption, true};
ghost use Rattle.gv_entry.specs.Tables.{has_bad_entry};
ghost use Rattle.gv_entry.specs.declared.process.Process.TheVariants.{Absent, Table};
ghost use Rattle.gv_gpu.specs.Device.{counted};
ghost use Rattle.gv_guest.specs.Placed.{memory_in};
ghost use Rattle.gv_shape.specs.Shadow.{is_live, wanted};
ghost use Rattle.gv_shape.specs.Counts.{namings, naming, names_node, above, rank, one_if};
ghost use Rattle.gv_sppgtt.specs.Sound.{Enters, IsBelow, IsChild, child_entry};
ghost use Rattle.gv_sppgtt.specs.Grown.{Modest, Rests, Acquired, Released, KeepPlaces};
ghost use Rattle.gv_sppgtt.specs.State.{pages_of, parents_of, readings_of, sketch_of};
ghost use Rattle.gv_sppgtt.specs.Holding.{Holds, Keeps};

use crate::Tables;
use crate::tables::{Child, TableFault, Word};
use gv_gpu::Gpu;
use gv_guest::{Frames, Pins};

impl Tables {
    // Acquires the table that the guest's entry names, if it names one.
    fn acquire_entry<G: Gpu>(
        &mut self,
        gpu: &mut G,
        frames: &Frames,
        pins: &mut Pins,
        frame: u32,
        level: u8,
        index: u16,
    ) -> Result<Option<Child>, TableFault>
        requires holds { Holds (G.state gpu.old) frames.now self.old pins.old }
        requires frame { frame < length frames.now.pages }
        requires high { 2 ≤ level }
        requires most { level ≤ 4 }
        requires within { index < 512 }
        requires modest { (h lower : ℕ) → IsBelow (length frames.now.pages) level h lower → Modest (length frames.now.pages) lower (sketch_of (G.state gpu.old) self.old) }
        ensures acquired { IfOk result (λ child. Acquired (length frames.now.pages) (memory_in (G.state gpu.old) frames.now) level (child_entry child) (sketch_of (G.state gpu.old) self.old) (sketch_of (G.state gpu.new) self.new)) }
        ensures entry { IfOk result (λ child. wanted (memory_in (G.state gpu.old) frames.now) level frame index ≡ child_entry child) }
        ensures there { IfOk result (λ child. IsChild (pages_of self.new) level child) }
        ensures room { IfOk result (λ child. (k f : ℕ) → 1 ≤ k → above k ≡ level → namings (length frames.now.pages) (readings_of (G.state gpu.new) self.new) k f + one_if (names_node k f (child_entry child)) ≤ parents_of self.new k f) }
        ensures holds { Holds (G.state gpu.new) frames.now self.new pins.new }
        ensures keeps { Keeps frames.now (G.state gpu.old) (G.state gpu.new) self.old self.new pins.old pins.new }
        ensures idle { IfOk result (λ child. (IfSome child (λ to. (p : ℕ) × (pages_of self.old to.level to.frame ≡ Some p))) → (G.state gpu.new ≡ G.state gpu.old) × ((k f : ℕ) → pages_of self.new k f ≡ pages_of self.old k f)) }
        ensures bad { IsErrOf result TableFault.BadEntry → (roots : List ℕ) → is_live (memory_in (G.state gpu.old) frames.now) roots level frame ≡ true → has_bad_entry (memory_in (G.state gpu.old) frames.now) roots ≡ true }
    {
        match self.word(gpu, frames, frame, level, index) {
            Word::Nothing => Ok(None),
            Word::Node(to, lower) => match self.acquire(gpu, frames, pins, to, lower) {
                Ok(page) => Ok(Some(Child {
                    frame: to,
                    level: lower,
                    page,
                })),
                Err(fault) => Err(fault),
            },
            Word::Leaf(_, _) => unreachable!(),
            Word::Refused => Err(TableFault::BadEntry),
        }
    }

    // Puts a table, or none, into a word of a table above.
    fn replace<G: Gpu>(
        &mut self,
        gpu: &mut G,
        frames: &Frames,
        pins: &Pins,
        frame: u32,
        level: u8,
        page: u64,
        index: u16,
        child: Option<Child>,
    )
        requires holds { Holds (G.state gpu.old) frames.now self.old pins.now }
        requires within { index < 512 }
        requires high { 2 ≤ level }
        requires node { pages_of self.old level frame ≡ Some page }
        requires few { level ≤ 4 }
        requires child { IsChild (pages_of self.old) level child }
        requires room { (k f : ℕ) → 1 ≤ k → above k ≡ level → namings (length frames.now.pages) (readings_of (G.state gpu.old) self.old) k f + one_if (names_node k f (child_entry child)) ≤ parents_of self.old k f }
        ensures enters { Enters (readings_of (G.state gpu.old) self.old) (readings_of (G.state gpu.new) self.new) level frame index (child_entry child) }
        ensures held { (h lower : ℕ) → readings_of (G.state gpu.old) self.old level frame index ≡ naming lower h → above lower ≡ level → 1 ≤ lower → lower ≤ 6 → namings (length frames.now.pages) (readings_of (G.state gpu.new) self.new) lower h + 1 ≤ parents_of self.new lower h }
        ensures same { self.new ≡ self.old }
        ensures pokes { (G.state gpu.new).pokes ≡ counted (G.state gpu.old).pokes }
        ensures holds { Holds (G.state gpu.new) frames.now self.new pins.now }
        ensures keeps { Keeps frames.now (G.state gpu.old) (G.state gpu.new) self.old self.new pins.now pins.now }
    {
        self.put_table(gpu, frames, frame, level, page, index, child);
    }

    // Makes the word of a table of level 2 to 4 as the guest's, with what follows from it.
    pub(crate) fn relink<G: Gpu>(
        &mut self,
        gpu: &mut G,
        frames: &Frames,
        pins: &mut Pins,
        frame: u32,
        level: u8,
        page: u64,
        index: u16,
    ) -> Result<(), TableFault>
        requires holds { Holds (G.state gpu.old) frames.now self.old pins.old }
        requires frame { frame < length frames.now.pages }
        requires high { 2 ≤ level }
        requires most { level ≤ 4 }
        requires within { index < 512 }
        requires node { pages_of self.old level frame ≡ Some page }
        requires modest { (h lower : ℕ) → IsBelow (length frames.now.pages) level h lower → Modest (length frames.now.pages) lower (sketch_of (G.state gpu.old) self.old) }
        ensures rests { OnOk result ((roots : List ℕ) → Rests (length frames.now.pages) (memory_in (G.state gpu.old) frames.now) roots level frame index (sketch_of (G.state gpu.old) self.old) → Rests (length frames.now.pages) (memory_in (G.state gpu.old) frames.now) roots (level - 1) frame index (sketch_of (G.state gpu.new) self.new)) }
        ensures holds { Holds (G.state gpu.new) frames.now self.new pins.new }
        ensures keeps { Keeps frames.now (G.state gpu.old) (G.state gpu.new) self.old self.new pins.old pins.new }
        ensures above { OnOk result ((k f : ℕ) → rank level ≤ rank k → pages_of self.new k f ≡ pages_of self.old k f) }
        ensures stay { OnOk result (KeepPlaces (pages_of self.old) (pages_of self.new)) }
        ensures pokes { OnOk result (((k f : ℕ) → above k ≡ level → pages_of self.new k f ≡ pages_of self.old k f) → ((G.state gpu.new).pokes ≡ counted (G.state gpu.old).pokes) × ((k f : ℕ) → pages_of self.new k f ≡ pages_of self.old k f)) }
        ensures bad { IsErrOf result TableFault.BadEntry → (roots : List ℕ) → is_live (memory_in (G.state gpu.old) frames.now) roots level frame ≡ true → has_bad_entry (memory_in (G.state gpu.old) frames.now) roots ≡ true }
    {
        let child = match self.acquire_entry(gpu, frames, pins, frame, level, index) {
            Ok(child) => child,
            Err(fault) => return Err(fault),
        };
        let old = self.child(gpu, frames, pins, frame, level, page, index);
        self.replace(gpu, frames, pins, frame, level, page, index, child);
        let Some((old, lower)) = old else {
            return Ok(());
        };
        self.release(gpu, frames, pins, old, lower);
        Ok(())
    }
}
