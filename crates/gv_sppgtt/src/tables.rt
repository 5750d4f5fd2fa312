ghost use Rattle.std.specs.Prelude.{◌≡◌, ℕ, ◌+◌, ◌-◌, ◌*◌, ◌/◌, ◌%◌, ◌^◌, ◌<◌, ◌≤◌, Bool, length, Some, None, IfSome, IfNone, true, slice_index, slice_set, if◌then◌else◌, ◌==◌, ◌&&◌};
ghost use Rattle.gv_entry.specs.declared.process.Process.TheVariants.{Absent, Page};
ghost use Rattle.gv_rmap.specs.declared.leaf.Leaf.{Leaf};
ghost use Rattle.gv_rmap.specs.Leaves.{leaf_at};
ghost use Rattle.gv_rmap.specs.Chains.{chain_of};
ghost use Rattle.gv_shape.specs.Shadow.{leaf_word, has_leaves, Names, Pages};
ghost use Rattle.gv_shape.specs.Counts.{leaves, maps, one_if};
ghost use Rattle.gv_gpu.specs.Device.{poked};
ghost use Rattle.gv_guest.specs.Placed.{Hosts};
ghost use Rattle.gv_sppgtt.specs.Sound.{decode, flag, leaf_of, leaf_entry, place_leaf, AreInOrder, IsLinked, Enters};
ghost use Rattle.gv_sppgtt.specs.State.{pages_of, readings_of, IsSound, IsPinned};

use gv_gpu::Gpu;
use gv_guest::{Frames, Pins};
use gv_nodes::Nodes;
use gv_rmap::{Chains, Leaf};
use gv_types::{GuestId, OutOfMemory, PAGE_BYTES};
use std::alloc::Global;
use std::error::Error;
use std::fmt;

/// Why a table can't be kept.
#[derive(Debug, Drop)]
pub enum TableFault {
    OutOfMemory,
    BadEntry,
}

impl fmt::Display for TableFault {
    fn fmt<W: fmt::Write>(&self, f: &mut fmt::Formatter<W>) -> fmt::Result {
        match self {
            TableFault::OutOfMemory => write!(f, "out of memory"),
            TableFault::BadEntry => write!(f, "a live table has a bad entry"),
        }
    }
}

impl Error for TableFault {}

impl From<OutOfMemory> for TableFault {
    ghost use Rattle.std.specs.Prelude.{◌≡◌};
    ghost use Rattle.gv_sppgtt.specs.declared.tables.TableFault.TheVariants.{OutOfMemory};

    ghost from_gives = { λ _ e. e ≡ OutOfMemory };

    fn from(_e: OutOfMemory) -> TableFault {
        TableFault::OutOfMemory
    }
}

/// A node that a word names, and its page.
#[derive(Clone, Copy)]
pub struct Child {
    pub frame: u32,
    pub level: u8,
    pub page: u64,
}

/// What a word of a node is to stand for: nothing, a page's frame and whether it is writable, the node of a frame
/// at a level, or an entry that the profile refuses.
#[derive(Clone, Copy)]
pub enum Word {
    Nothing,
    Leaf(u32, bool),
    Node(u32, u8),
    Refused,
}

/// The shadow tables of a guest.
#[derive(Drop)]
pub struct Tables {
    pub(crate) alloc: Global,
    pub(crate) guest: GuestId,
    pub(crate) nodes: Nodes,
    pub(crate) chains: Chains,
    // For each host page: the frame whose node stands in it, or whose own page it is.
    pub(crate) owners: Vec<u32>,
    // The frames that the caller knows to be guarded.
    pub(crate) told: Vec<bool>,
    // For each block of frames: whether a node of one of them came or went since the caller was told.
    pub(crate) touched: [bool; BLOCKS],
}

/// Frames are told of in blocks of so many.
pub(crate) const BLOCK: u32 = 128;

pub(crate) const BLOCKS: usize = 128;

impl Tables {
    // The frame of the leaf that a word names, if it names one.
    fn leaf_frame(&self, word: u64) -> Option<u32>
        requires { (h : ℕ) (w : Bool) → decode self.now.owners.items 1 word ≡ Page h w → word / 4096 < length self.now.owners.items }
        ensures none { IfNone result (decode self.now.owners.items 1 word ≡ Absent) }
        ensures some { IfSome result (λ frame. decode self.now.owners.items 1 word ≡ Page frame (word / 4 % 2 == 1)) }
    {
        if word % 2 == 0 {
            return None;
        }
        Some(self.owners[(word / PAGE_BYTES) as usize])
    }

    // Takes the leaf that a word names out of its chain, if it names one.
    fn take_leaf(&mut self, pins: &mut Pins, word: u64, page: u64, index: u16)
        requires named { (h : ℕ) (w : Bool) → decode self.old.owners.items 1 word ≡ Page h w → IsLinked self.old.owners.items self.old.chains pins.old word page index h w }
        requires lonely { (h : ℕ) (leaf : Leaf) → leaf_at (chain_of self.old.chains h) (page * 2 ^ 16 + index) ≡ Some leaf → decode self.old.owners.items 1 word ≡ Page h leaf.writable }
        ensures gone { (h q : ℕ) → leaf_at (chain_of self.new.chains h) q ≡ (if q == page * 2 ^ 16 + index then None else leaf_at (chain_of self.old.chains h) q) }
        ensures order { AreInOrder self.old.chains → AreInOrder self.new.chains }
        ensures pins { (h : ℕ) → slice_index pins.new h + one_if (maps h (decode self.old.owners.items 1 word)) ≡ slice_index pins.old h }
        ensures spare { self.old.chains.spare ≤ self.new.chains.spare }
        ensures long { length self.new.chains.chains ≡ length self.old.chains.chains }
        ensures counted { length pins.new ≡ length pins.old }
        ensures nodes { self.new.nodes ≡ self.old.nodes }
        ensures owners { self.new.owners ≡ self.old.owners }
        ensures told { self.new.told ≡ self.old.told }
        ensures guest { self.new.guest ≡ self.old.guest }
        ensures touched { self.new.touched ≡ self.old.touched }
    {
        let Some(frame) = self.leaf_frame(word) else {
            return;
        };
        self.chains.unlink(
            frame,
            Leaf {
                page,
                index,
                writable: false,
            },
        );
        pins.unpin(frame);
    }

    // Puts a leaf, or none, into a word of a table of leaves. It pokes that word alone.
    pub(crate) fn put_leaf<G: Gpu>(
        &mut self,
        gpu: &mut G,
        frames: &Frames,
        pins: &mut Pins,
        table: u32,
        level: u8,
        page: u64,
        index: u16,
        leaf: Option<(u32, bool)>,
    )
        requires stands { Hosts (G.state gpu.old) frames.now }
        requires sound { IsSound (G.state gpu.old) frames.now self.old }
        requires few { length frames.now.pages ≤ 16384 }
        requires pinned { IsPinned (G.state gpu.old) frames.now self.old pins.old }
        requires node { pages_of self.old level table ≡ Some page }
        requires leaves { has_leaves level ≡ true }
        requires within { index < 512 }
        requires frame { IfSome leaf (λ to. to.0 < length frames.now.pages) }
        requires spare { IfSome leaf (λ to. 1 ≤ self.old.chains.spare) }
        ensures sound { IsSound (G.state gpu.new) frames.now self.new }
        ensures enters { Enters (readings_of (G.state gpu.old) self.old) (readings_of (G.state gpu.new) self.new) level table index (leaf_entry leaf) }
        ensures pinned { IsPinned (G.state gpu.new) frames.now self.new pins.new }
        ensures poke { (value : ℕ) × (G.state gpu.new ≡ poked (G.state gpu.old) page index value) }
        ensures nodes { self.new.nodes ≡ self.old.nodes }
        ensures told { self.new.told ≡ self.old.told }
        ensures guest { self.new.guest ≡ self.old.guest }
        ensures touched { self.new.touched ≡ self.old.touched }
        ensures exact { (h : ℕ) → slice_index pins.new h + leaves (length frames.now.pages) (readings_of (G.state gpu.old) self.old) h ≡ slice_index pins.old h + leaves (length frames.now.pages) (readings_of (G.state gpu.new) self.new) h }
        ensures spare { self.old.chains.spare ≤ self.new.chains.spare + 1 }
    {
        let word = gpu.word(page, index as usize);
        self.take_leaf(pins, word, page, index);
        let value = self.enter_leaf(pins, frames, page, index, leaf);
        gpu.poke(page, index as usize, value);
    }

    // Puts a leaf into its chain, where there is one, and answers the word for it.
    fn enter_leaf(
        &mut self,
        pins: &mut Pins,
        frames: &Frames,
        page: u64,
        index: u16,
        leaf: Option<(u32, bool)>,
    ) -> u64
        requires below { (h : ℕ) → h < length frames.now.pages → slice_index frames.now.pages h < 131072 }
        requires apart { (j k : ℕ) → j < length frames.now.pages → k < length frames.now.pages → slice_index frames.now.pages j ≡ slice_index frames.now.pages k → j ≡ k }
        requires frame { IfSome leaf (λ to. to.0 < length frames.now.pages) }
        requires chains { length self.old.chains.chains ≡ length frames.now.pages }
        requires owners { length self.old.owners.items ≡ 131072 }
        requires told { length self.old.told.items ≡ length frames.now.pages }
        requires spare { IfSome leaf (λ to. 1 ≤ self.old.chains.spare) }
        requires absent { (h : ℕ) → leaf_at (chain_of self.old.chains h) (page * 2 ^ 16 + index) ≡ None }
        requires counted { length pins.old ≡ length frames.now.pages }
        requires room { (h : ℕ) → h < length frames.now.pages → slice_index pins.old h < 2 ^ 32 - 1 }
        ensures named { (pages : Pages) → Names frames.now pages (flag self.old.told.items) 1 (leaf_entry leaf) result }
        ensures stands_for { decode self.new.owners.items 1 result ≡ leaf_entry leaf }
        ensures linked { (h q : ℕ) → leaf_at (chain_of self.new.chains h) q ≡ (if q == page * 2 ^ 16 + index then place_leaf page index h (leaf_entry leaf) else leaf_at (chain_of self.old.chains h) q) }
        ensures order { AreInOrder self.old.chains → AreInOrder self.new.chains }
        ensures pins { (h : ℕ) → slice_index pins.new h ≡ slice_index pins.old h + one_if (maps h (leaf_entry leaf)) }
        ensures at_frames { (h : ℕ) → h < length frames.now.pages → slice_index self.old.owners.items (slice_index frames.now.pages h) ≡ h → slice_index self.new.owners.items (slice_index frames.now.pages h) ≡ h }
        ensures at_others { (q : ℕ) → ((h : ℕ) → h < length frames.now.pages → q ≡ slice_index frames.now.pages h → ⊥) → slice_index self.new.owners.items q ≡ slice_index self.old.owners.items q }
        ensures spare { self.old.chains.spare ≤ self.new.chains.spare + 1 }
        ensures long { length self.new.chains.chains ≡ length self.old.chains.chains }
        ensures counted { length pins.new ≡ length pins.old }
        ensures nodes { self.new.nodes ≡ self.old.nodes }
        ensures owners { length self.new.owners.items ≡ 131072 }
        ensures told { self.new.told ≡ self.old.told }
        ensures guest { self.new.guest ≡ self.old.guest }
        ensures touched { self.new.touched ≡ self.old.touched }
    {
        match leaf {
            Some((frame, writable)) => self.add_leaf(pins, frames, frame, page, index, writable),
            None => 0,
        }
    }

    // Puts a leaf into its chain, and answers its word.
    fn add_leaf(
        &mut self,
        pins: &mut Pins,
        frames: &Frames,
        frame: u32,
        page: u64,
        index: u16,
        writable: bool,
    ) -> u64
        requires there { frame < length self.old.chains.chains }
        requires paged { frame < length frames.now.pages }
        requires below { slice_index frames.now.pages frame < 131072 }
        requires owners { length self.old.owners.items ≡ 131072 }
        requires told { frame < length self.old.told.items }
        requires spare { 1 ≤ self.old.chains.spare }
        requires absent { leaf_at (chain_of self.old.chains frame) (page * 2 ^ 16 + index) ≡ None }
        requires counted { frame < length pins.old }
        requires room { slice_index pins.old frame < 2 ^ 32 - 1 }
        ensures word { result ≡ leaf_word (slice_index frames.now.pages frame) writable (flag self.old.told.items frame) }
        ensures linked { (h q : ℕ) → leaf_at (chain_of self.new.chains h) q ≡ (if (h == frame) && (q == page * 2 ^ 16 + index) then Some (leaf_of page index writable) else leaf_at (chain_of self.old.chains h) q) }
        ensures order { AreInOrder self.old.chains → AreInOrder self.new.chains }
        ensures pins { (h : ℕ) → slice_index pins.new h ≡ slice_index pins.old h + one_if (frame == h) }
        ensures spare { self.old.chains.spare ≤ self.new.chains.spare + 1 }
        ensures long { length self.new.chains.chains ≡ length self.old.chains.chains }
        ensures counted { length pins.new ≡ length pins.old }
        ensures nodes { self.new.nodes ≡ self.old.nodes }
        ensures owners { self.new.owners.items ≡ slice_set self.old.owners.items (slice_index frames.now.pages frame) frame }
        ensures told { self.new.told ≡ self.old.told }
        ensures guest { self.new.guest ≡ self.old.guest }
        ensures touched { self.new.touched ≡ self.old.touched }
    {
        self.chains.link(
            frame,
            Leaf {
                page,
                index,
                writable,
            },
        );
        pins.pin(frame);
        let host = frames.page(frame);
        self.owners[host as usize] = frame;
        leaf_word(host, writable, self.told[frame as usize])
    }
}

// The physical entry of a leaf. Bit 2 keeps what the guest's entry allows.
pub(crate) fn leaf_word(page: u64, writable: bool, guarded: bool) -> u64
    requires { page < 131072 }
    ensures { result ≡ leaf_word page writable guarded }
{
    let wanted = if writable { 4 } else { 0 };
    let allowed = if writable && !guarded { 2 } else { 0 };
    page * PAGE_BYTES + (wanted + allowed + 1)
}
