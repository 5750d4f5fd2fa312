ghost use Rattle.std.specs.Prelude.{◌≡◌, ℕ, ◌+◌, ◌-◌, ◌*◌, ◌^◌, ◌<◌, ◌≤◌, List, length, Some, None, IfSome, IfOk, OnOk, OnErr, IsErrOf, true, slice_set, IfNone, ◌==◌};
ghost use Rattle.gv_entry.specs.Tables.{has_bad_entry, level_entry};
ghost use Rattle.gv_entry.specs.declared.process.Process.TheVariants.{Absent, Page, Table};
ghost use Rattle.gv_gpu.specs.Device.{poked};
ghost use Rattle.gv_guest.specs.Placed.{Hosts, memory_in};
ghost use Rattle.gv_nodes.specs.NodeMap.{IsKeyOf, AreNodes, parents_of as parents_under};
ghost use Rattle.gv_shape.specs.Shadow.{is_live, has_leaves, split_level, wanted};
ghost use Rattle.gv_shape.specs.Counts.{namings, naming, names_node, above, one_if};
ghost use Rattle.gv_sppgtt.specs.Sound.{Enters, child_entry, child_value, IsBelow, IsChild, IsWhole, IsWord, word_entry};
ghost use Rattle.gv_sppgtt.specs.Grown.{Made, Held, Growing, Filled, Modest};
ghost use Rattle.gv_sppgtt.specs.State.{pages_of, parents_of, readings_of, sketch_of, IsSound, Touches};
ghost use Rattle.gv_sppgtt.specs.Holding.{Holds, Keeps};

use crate::Tables;
use crate::tables::{BLOCK, Child, TableFault, Word};
use gv_entry::{Process, process_of};
use gv_gpu::Gpu;
use gv_guest::{Frames, Pins};
use gv_types::{Label, OutOfMemory, PAGE_BYTES, PAGE_WORDS, Width};

impl Tables {
    // Puts a table, or none, into a word of a table of level 2 to 4. It pokes that word alone.
    pub(crate) fn put_table<G: Gpu>(
        &mut self,
        gpu: &mut G,
        frames: &Frames,
        table: u32,
        level: u8,
        page: u64,
        index: u16,
        child: Option<Child>,
    )
        requires stands { Hosts (G.state gpu.old) frames.now }
        requires sound { IsSound (G.state gpu.old) frames.now self.old }
        requires node { pages_of self.old level table ≡ Some page }
        requires high { 2 ≤ level }
        requires within { index < 512 }
        requires few { level ≤ 4 }
        requires child { IsChild (pages_of self.old) level child }
        requires room { (k f : ℕ) → 1 ≤ k → above k ≡ level → namings (length frames.now.pages) (readings_of (G.state gpu.old) self.old) k f + one_if (names_node k f (child_entry child)) ≤ parents_of self.old k f }
        ensures sound { IsSound (G.state gpu.new) frames.now self.new }
        ensures enters { Enters (readings_of (G.state gpu.old) self.old) (readings_of (G.state gpu.new) self.new) level table index (child_entry child) }
        ensures poke { (value : ℕ) × (G.state gpu.new ≡ poked (G.state gpu.old) page index value) }
        ensures same { self.new ≡ self.old }
    {
        let value = table_word(child);
        gpu.poke(page, index as usize, value);
    }

    // Makes a page the node of a frame at a level, with one parent.
    fn board(&mut self, frame: u32, level: u8, page: u64)
        requires frame { frame < self.old.nodes.frames }
        requires few { frame < 16384 }
        requires low { 1 ≤ level }
        requires high { level ≤ 6 }
        requires absent { pages_of self.old level frame ≡ None }
        requires nodes { AreNodes self.old.nodes }
        requires spare { 1 ≤ self.old.nodes.spare }
        requires below { page < length self.old.owners.items }
        ensures here { pages_of self.new level frame ≡ Some page }
        ensures parent { parents_of self.new level frame ≡ 1 }
        ensures others { (k f : ℕ) → (k ≡ level → f ≡ frame → ⊥) → pages_of self.new k f ≡ pages_of self.old k f }
        ensures parents { (k f : ℕ) → (k ≡ level → f ≡ frame → ⊥) → parents_of self.new k f ≡ parents_of self.old k f }
        ensures nodes { AreNodes self.new.nodes }
        ensures frames { self.new.nodes.frames ≡ self.old.nodes.frames }
        ensures owners { self.new.owners.items ≡ slice_set self.old.owners.items page frame }
        ensures chains { self.new.chains ≡ self.old.chains }
        ensures told { self.new.told ≡ self.old.told }
        ensures guest { self.new.guest ≡ self.old.guest }
        ensures touched { Touches frame self.old.touched self.new.touched }
    {
        self.owners[page as usize] = frame;
        self.touched[(frame / BLOCK) as usize] = true;
        let key = self.nodes.insert(frame, level, page);
        self.nodes.add_parent(key);
    }

    // Takes memory for the leaves of a table of leaves.
    fn reserve_leaves(&mut self, level: u8) -> Result<(), OutOfMemory>
        ensures others { self.new ≡ record self.old { chains = self.new.chains } }
        ensures chains { self.new.chains.chains ≡ self.old.chains.chains }
        ensures spare { OnOk result (has_leaves level ≡ true → 512 ≤ self.new.chains.spare) }
    {
        if level == 1 || level > 4 {
            self.chains.reserve(PAGE_WORDS as u32)?;
        }
        Ok(())
    }

    // Makes a node with one parent, all of whose words are absent, and answers its page. The memory for its leaves is
    // taken with it, so that none is taken between the pokes of its words.
    fn make<G: Gpu>(
        &mut self,
        gpu: &mut G,
        frames: &Frames,
        pins: &Pins,
        frame: u32,
        level: u8,
    ) -> Result<u64, OutOfMemory>
        requires holds { Holds (G.state gpu.old) frames.now self.old pins.now }
        requires frame { frame < length frames.now.pages }
        requires whole { IsWhole (length frames.now.pages) level frame }
        requires low { 1 ≤ level }
        requires high { level ≤ 6 }
        requires absent { pages_of self.old level frame ≡ None }
        ensures made { IfOk result (λ page. Made level frame page (sketch_of (G.state gpu.old) self.old) (sketch_of (G.state gpu.new) self.new)) }
        ensures spare { OnOk result (has_leaves level ≡ true → 512 ≤ self.new.chains.spare) }
        ensures holds { Holds (G.state gpu.new) frames.now self.new pins.now }
        ensures keeps { Keeps frames.now (G.state gpu.old) (G.state gpu.new) self.old self.new pins.now pins.now }
    {
        self.reserve_leaves(level)?;
        let page = self.make_node(gpu, frames, pins, frame, level)?;
        Ok(page)
    }

    // The same, without memory for leaves.
    fn make_node<G: Gpu>(
        &mut self,
        gpu: &mut G,
        frames: &Frames,
        pins: &Pins,
        frame: u32,
        level: u8,
    ) -> Result<u64, OutOfMemory>
        requires holds { Holds (G.state gpu.old) frames.now self.old pins.now }
        requires frame { frame < length frames.now.pages }
        requires whole { IsWhole (length frames.now.pages) level frame }
        requires low { 1 ≤ level }
        requires high { level ≤ 6 }
        requires absent { pages_of self.old level frame ≡ None }
        ensures made { IfOk result (λ page. Made level frame page (sketch_of (G.state gpu.old) self.old) (sketch_of (G.state gpu.new) self.new)) }
        ensures chains { OnOk result (self.new.chains ≡ self.old.chains) }
        ensures holds { Holds (G.state gpu.new) frames.now self.new pins.now }
        ensures keeps { Keeps frames.now (G.state gpu.old) (G.state gpu.new) self.old self.new pins.now pins.now }
    {
        self.nodes.reserve(1)?;
        let page = gpu.add_page(Label {
            guest: self.guest,
            shadow: true,
        })?;
        self.board(frame, level, page);
        Ok(page)
    }

    // Gives the node of a frame at a level one parent more, and answers its page; or there is none.
    fn hold(&mut self, frame: u32, level: u8) -> Option<u64>
        requires frame { frame < self.old.nodes.frames }
        requires low { 1 ≤ level }
        requires high { level ≤ 6 }
        requires nodes { AreNodes self.old.nodes }
        requires room { parents_of self.old level frame < 2 ^ 32 - 1 }
        ensures none { IfNone result ((pages_of self.old level frame ≡ None) × (self.new ≡ self.old)) }
        ensures there { IfSome result (λ page. pages_of self.old level frame ≡ Some page) }
        ensures pages { IfSome result (λ page. (k f : ℕ) → pages_of self.new k f ≡ pages_of self.old k f) }
        ensures here { IfSome result (λ page. parents_of self.new level frame ≡ parents_of self.old level frame + 1) }
        ensures others { IfSome result (λ page. (k f : ℕ) → (k ≡ level → f ≡ frame → ⊥) → parents_of self.new k f ≡ parents_of self.old k f) }
        ensures nodes { AreNodes self.new.nodes }
        ensures frames { self.new.nodes.frames ≡ self.old.nodes.frames }
        ensures owners { self.new.owners ≡ self.old.owners }
        ensures chains { self.new.chains ≡ self.old.chains }
        ensures told { self.new.told ≡ self.old.told }
        ensures guest { self.new.guest ≡ self.old.guest }
        ensures touched { self.new.touched ≡ self.old.touched }
    {
        let key = self.nodes.find(frame, level)?;
        self.nodes.add_parent(key);
        Some(self.nodes.node(key).page)
    }

    // Maps a frame by a word of a table of leaves that is absent. The memory for it was taken with the table.
    fn fill_leaf<G: Gpu>(
        &mut self,
        gpu: &mut G,
        frames: &Frames,
        pins: &mut Pins,
        frame: u32,
        level: u8,
        page: u64,
        index: u16,
        to: u32,
        writable: bool,
    )
        requires holds { Holds (G.state gpu.old) frames.now self.old pins.old }
        requires leaves { has_leaves level ≡ true }
        requires within { index < 512 }
        requires node { pages_of self.old level frame ≡ Some page }
        requires absent { readings_of (G.state gpu.old) self.old level frame index ≡ Absent }
        requires frame { to < length frames.now.pages }
        requires entry { wanted (memory_in (G.state gpu.old) frames.now) level frame index ≡ Page to writable }
        requires spare { 1 ≤ self.old.chains.spare }
        ensures filled { Filled (length frames.now.pages) (memory_in (G.state gpu.old) frames.now) level frame index (sketch_of (G.state gpu.old) self.old) (sketch_of (G.state gpu.new) self.new) }
        ensures spare { self.old.chains.spare ≤ self.new.chains.spare + 1 }
        ensures holds { Holds (G.state gpu.new) frames.now self.new pins.new }
        ensures keeps { Keeps frames.now (G.state gpu.old) (G.state gpu.new) self.old self.new pins.old pins.new }
    {
        self.put_leaf(
            gpu,
            frames,
            pins,
            frame,
            level,
            page,
            index,
            Some((to, writable)),
        );
    }

    // Names a node by a word of a table above that is absent.
    fn fill_table<G: Gpu>(
        &mut self,
        gpu: &mut G,
        frames: &Frames,
        pins: &Pins,
        frame: u32,
        level: u8,
        page: u64,
        index: u16,
        child: Child,
    )
        requires holds { Holds (G.state gpu.old) frames.now self.old pins.now }
        requires high { 2 ≤ level }
        requires few { level ≤ 4 }
        requires within { index < 512 }
        requires node { pages_of self.old level frame ≡ Some page }
        requires child { IsChild (pages_of self.old) level (Some child) }
        requires room { (k f : ℕ) → 1 ≤ k → above k ≡ level → namings (length frames.now.pages) (readings_of (G.state gpu.old) self.old) k f + one_if (names_node k f (naming child.level child.frame)) ≤ parents_of self.old k f }
        ensures enters { Enters (readings_of (G.state gpu.old) self.old) (readings_of (G.state gpu.new) self.new) level frame index (naming child.level child.frame) }
        ensures holds { Holds (G.state gpu.new) frames.now self.new pins.now }
        ensures keeps { Keeps frames.now (G.state gpu.old) (G.state gpu.new) self.old self.new pins.now pins.now }
        ensures same { self.new ≡ self.old }
    {
        self.put_table(gpu, frames, frame, level, page, index, Some(child));
    }

    // The guest's entry.
    pub(crate) fn entry<G: Gpu>(
        &self,
        gpu: &G,
        frames: &Frames,
        frame: u32,
        level: u8,
        index: u16,
    ) -> Process
        requires stands { Hosts (G.state gpu.now) frames.now }
        requires frame { frame < length frames.now.pages }
        requires few { length frames.now.pages ≤ 16384 }
        requires low { 1 ≤ level }
        requires high { level ≤ 4 }
        requires within { index < 512 }
        ensures { result ≡ level_entry (memory_in (G.state gpu.now) frames.now) level frame index }
    {
        let at = u64::from(frame) * PAGE_BYTES + u64::from(index) * 8;
        process_of(frames.read(gpu, at, Width::Eight), level, frames.count())
    }

    // What a word of a node is to stand for.
    pub(crate) fn word<G: Gpu>(
        &self,
        gpu: &G,
        frames: &Frames,
        frame: u32,
        level: u8,
        index: u16,
    ) -> Word
        requires stands { Hosts (G.state gpu.now) frames.now }
        requires frame { frame < length frames.now.pages }
        requires few { length frames.now.pages ≤ 16384 }
        requires whole { IsWhole (length frames.now.pages) level frame }
        requires low { 1 ≤ level }
        requires high { level ≤ 6 }
        requires within { index < 512 }
        ensures is { word_entry result ≡ wanted (memory_in (G.state gpu.now) frames.now) level frame index }
        ensures form { IsWord (length frames.now.pages) level result }
    {
        if level > 4 {
            return Word::Leaf(frame + u32::from(index), level == 5);
        }
        match self.entry(gpu, frames, frame, level, index) {
            Process::Absent => Word::Nothing,
            Process::Table(to) => Word::Node(to, level - 1),
            Process::Large(to, writable) => Word::Node(to, split_level(writable)),
            Process::Page(to, writable) => Word::Leaf(to, writable),
            Process::Bad => Word::Refused,
        }
    }

    // The node of a frame at a level gets one parent more; where there is none, it is made, with all that
    // it names. It answers its page.
    #[cycle(acquire)]
    pub(crate) fn acquire<G: Gpu>(
        &mut self,
        gpu: &mut G,
        frames: &Frames,
        pins: &mut Pins,
        frame: u32,
        level: u8,
    ) -> Result<u64, TableFault>
        requires holds { Holds (G.state gpu.old) frames.now self.old pins.old }
        requires frame { frame < length frames.now.pages }
        requires whole { IsWhole (length frames.now.pages) level frame }
        requires low { 1 ≤ level }
        requires high { level ≤ 6 }
        requires modest { Modest (length frames.now.pages) level (sketch_of (G.state gpu.old) self.old) }
        ensures grown { IfOk result (λ page. Growing (length frames.now.pages) (memory_in (G.state gpu.old) frames.now) level frame 512 (sketch_of (G.state gpu.old) self.old) (sketch_of (G.state gpu.new) self.new)) }
        ensures there { IfOk result (λ page. pages_of self.new level frame ≡ Some page) }
        ensures holds { Holds (G.state gpu.new) frames.now self.new pins.new }
        ensures keeps { Keeps frames.now (G.state gpu.old) (G.state gpu.new) self.old self.new pins.old pins.new }
        ensures idle { (p : ℕ) → pages_of self.old level frame ≡ Some p → (G.state gpu.new ≡ G.state gpu.old) × ((k f : ℕ) → pages_of self.new k f ≡ pages_of self.old k f) }
        ensures good { IsErrOf result TableFault.BadEntry → level ≤ 4 }
        ensures bad { IsErrOf result TableFault.BadEntry → (roots : List ℕ) → is_live (memory_in (G.state gpu.old) frames.now) roots level frame ≡ true → has_bad_entry (memory_in (G.state gpu.old) frames.now) roots ≡ true }
    {
        if let Some(page) = self.hold(frame, level) {
            return Ok(page);
        }
        let page = self.make(gpu, frames, pins, frame, level)?;
        for index in 0..512u16 {
            self.fill(gpu, frames, pins, frame, level, page, index)?;
        }
        Ok(page)
    }

    // Makes an absent word of a node as the guest's, with all that it names.
    #[cycle(acquire)]
    fn fill<G: Gpu>(
        &mut self,
        gpu: &mut G,
        frames: &Frames,
        pins: &mut Pins,
        frame: u32,
        level: u8,
        page: u64,
        index: u16,
    ) -> Result<(), TableFault>
        requires holds { Holds (G.state gpu.old) frames.now self.old pins.old }
        requires frame { frame < length frames.now.pages }
        requires low { 1 ≤ level }
        requires high { level ≤ 6 }
        requires within { index < 512 }
        requires whole { IsWhole (length frames.now.pages) level frame }
        requires node { pages_of self.old level frame ≡ Some page }
        requires absent { readings_of (G.state gpu.old) self.old level frame index ≡ Absent }
        requires spare { has_leaves level ≡ true → 1 ≤ self.old.chains.spare }
        requires modest { (h lower : ℕ) → IsBelow (length frames.now.pages) level h lower → Modest (length frames.now.pages) lower (sketch_of (G.state gpu.old) self.old) }
        ensures filled { OnOk result (Filled (length frames.now.pages) (memory_in (G.state gpu.old) frames.now) level frame index (sketch_of (G.state gpu.old) self.old) (sketch_of (G.state gpu.new) self.new)) }
        ensures spare { OnOk result (has_leaves level ≡ true → self.old.chains.spare ≤ self.new.chains.spare + 1) }
        ensures holds { Holds (G.state gpu.new) frames.now self.new pins.new }
        ensures keeps { Keeps frames.now (G.state gpu.old) (G.state gpu.new) self.old self.new pins.old pins.new }
        ensures good { IsErrOf result TableFault.BadEntry → level ≤ 4 }
        ensures bad { IsErrOf result TableFault.BadEntry → (roots : List ℕ) → is_live (memory_in (G.state gpu.old) frames.now) roots level frame ≡ true → has_bad_entry (memory_in (G.state gpu.old) frames.now) roots ≡ true }
    {
        match self.word(gpu, frames, frame, level, index) {
            Word::Nothing => Ok(()),
            Word::Refused => Err(TableFault::BadEntry),
            Word::Leaf(to, writable) => {
                self.fill_leaf(gpu, frames, pins, frame, level, page, index, to, writable);
                Ok(())
            }
            Word::Node(to, lower) => {
                let child = match self.acquire(gpu, frames, pins, to, lower) {
                    Ok(child) => child,
                    Err(fault) => return Err(fault),
                };
                let child = Child {
                    frame: to,
                    level: lower,
                    page: child,
                };
                self.fill_table(gpu, frames, pins, frame, level, page, index, child);
                Ok(())
            }
        }
    }
}

// The physical entry of a node, or of none.
fn table_word(child: Option<Child>) -> u64
    requires { IfSome child (λ to. to.page < 131072) }
    ensures { result ≡ child_value child }
{
    match child {
        Some(child) => {
            if child.level < 5 {
                child.page * PAGE_BYTES + 3
            } else if child.level == 5 {
                child.page * PAGE_BYTES + 15
            } else {
                child.page * PAGE_BYTES + 7
            }
        }
        None => 0,
    }
}

// The level of the split tables that are writable, or of those that aren't.
pub(crate) fn split_level(writable: bool) -> u8
    ensures { result ≡ split_level writable }
{
    if writable { 5 } else { 6 }
}
