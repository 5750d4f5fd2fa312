ghost use Rattle.std.specs.Prelude.{◌≡◌, ℕ, ◌+◌, ◌-◌, ◌*◌, ◌^◌, ◌<◌, ◌≤◌, length, count_by, if◌then◌else◌, IfOk, IfSome, IsSome, None, slice_index, slice_set, true, false};
ghost use Rattle.std.specs.Option.{option_map_or};
ghost use Rattle.gv_entry.specs.Global.{pages_of, slot_of};
ghost use Rattle.gv_entry.specs.Grants.{unless};
ghost use Rattle.gv_entry.specs.Ranges.{InParts, is_in, owns_page};
ghost use Rattle.gv_gpu.specs.Change.{ChangesOnly};
ghost use Rattle.gv_gpu.specs.Part.{entries_part};
ghost use Rattle.gv_guest.specs.Placed.{Hosts, KeepsMemory};
ghost use Rattle.gv_sggtt.specs.Linked.{is_frame, names};
ghost use Rattle.gv_sggtt.specs.Mirror.{Mirrors, NamesFrame, SetsEntries};
ghost use Rattle.gv_sggtt.specs.Pins.{table_pins, HasPins, ChangesOwnPins, PinsGranted};
ghost use Rattle.gv_sggtt.specs.Table.{zero_table, table_entry, table_written, table_grant, table_guarding, guards};

use crate::linked::{LinkedEntries, slot_of_leaf};
use gv_entry::global_of;
use gv_gpu::Gpu;
use gv_guest::{Frames, Memory, Pins};
use gv_types::{OutOfMemory, PAGE_BYTES, Ranges, Span};
use std::alloc::Global;
use std::marker::Model;

/// A guest's entries of the global table (GGTT), which the device mirrors. A clause sees the guest's
/// ranges, its number of frames, the entries, those of the low range, then those of the high one, and which
/// frames are guarded.
#[derive(Drop)]
pub struct GlobalTable {
    ranges: Ranges,
    entries: LinkedEntries,
    // of each frame, whether it is guarded
    guarded: Vec<bool>,
}

impl Model for GlobalTable {
    ghost use Rattle.gv_sggtt.specs.Table.{Table, IsTable};

    ghost Value = { Table };

    ghost view = { λ t. record {
      ranges = t.ranges;
      frames = t.entries.frames;
      entries = t.entries.values;
      guarded = t.guarded.items;
    } };

    ghost invariant = { λ t. IsTable (record {
      ranges = t.ranges;
      frames = t.entries.frames;
      entries = t.entries.values;
      guarded = t.guarded.items;
    }) };
}

fn is_in(span: &Span, page: u32) -> bool
    ensures { result ≡ is_in span.now page }
{
    span.first <= page && u64::from(page) < u64::from(span.first) + u64::from(span.pages)
}

// Where the entry of a page stands among a guest's.
fn slot_of(ranges: &Ranges, page: u32) -> Option<usize>
    requires { InParts ranges.now }
    ensures slot { result ≡ slot_of ranges.now page }
    ensures within { IfSome result (λ slot. slot < pages_of ranges.now) }
    ensures owned { IfSome result (λ _. owns_page ranges.now page ≡ true) }
    ensures below { IfSome result (λ _. page < 0xFC000) }
{
    if is_in(&ranges.low, page) {
        Some((page - ranges.low.first) as usize)
    } else if is_in(&ranges.high, page) {
        Some((ranges.low.pages + (page - ranges.high.first)) as usize)
    } else {
        None
    }
}

// The page whose entry stands there.
fn page_at(ranges: &Ranges, slot: usize) -> u32
    requires parts { InParts ranges.now }
    requires within { slot < pages_of ranges.now }
    ensures slot { slot_of ranges.now result ≡ Some slot }
    ensures owned { owns_page ranges.now result ≡ true }
{
    let low = ranges.low.pages as usize;
    if slot < low {
        ranges.low.first + slot as u32
    } else {
        ranges.high.first + (slot - low) as u32
    }
}

// A physical entry whose bit 0 is clear.
const ABSENT: u64 = 0;

// The physical entry for a frame, present and writable, or for none, absent.
fn physical(memory: &Frames, frame: Option<u32>) -> u64
    requires there { IfSome frame (λ frame. frame < length memory.now.pages) }
    requires below { IfSome frame (λ frame. slice_index memory.now.pages frame < 131072) }
    ensures { NamesFrame memory.now frame result }
{
    match frame {
        Some(frame) => memory.page(frame) * PAGE_BYTES + 3,
        None => ABSENT,
    }
}

// The frame, unless it is guarded.
fn unguarded(guarded: &[bool], frame: Option<u32>) -> Option<u32>
    requires { IfSome frame (λ frame. frame < length guarded.now) }
    ensures { result ≡ unless (guards guarded.now) frame }
{
    match frame {
        Some(frame) if !guarded[frame as usize] => Some(frame),
        _ => None,
    }
}

// One pin more on a frame, if there is one.
fn pin(pins: &mut Pins, frame: Option<u32>)
    requires within { IfSome frame (λ frame. frame < length pins.old) }
    requires room { IfSome frame (λ frame. slice_index pins.old frame < 2 ^ 32 - 1) }
    ensures frames { length pins.new ≡ length pins.old }
    ensures each { (k : ℕ) → slice_index pins.new k ≡ slice_index pins.old k + (if is_frame k frame then 1 else 0) }
{
    if let Some(frame) = frame {
        pins.pin(frame);
    }
}

// One pin less on a frame, if there is one.
fn unpin(pins: &mut Pins, frame: Option<u32>)
    requires within { IfSome frame (λ frame. frame < length pins.old) }
    requires some { IfSome frame (λ frame. 1 ≤ slice_index pins.old frame) }
    ensures frames { length pins.new ≡ length pins.old }
    ensures each { (k : ℕ) → slice_index pins.new k + (if is_frame k frame then 1 else 0) ≡ slice_index pins.old k }
{
    if let Some(frame) = frame {
        pins.unpin(frame);
    }
}

// So many pins more on a frame.
fn pin_times(pins: &mut Pins, frame: u32, count: u32)
    requires within { frame < length pins.old }
    requires room { slice_index pins.old frame + count < 2 ^ 32 }
    ensures { pins.new ≡ slice_set pins.old frame (slice_index pins.old frame + count) }
{
    for _pin in 0..count {
        pins.pin(frame);
    }
}

// So many pins less on a frame.
fn unpin_times(pins: &mut Pins, frame: u32, count: u32)
    requires within { frame < length pins.old }
    requires some { count ≤ slice_index pins.old frame }
    ensures { pins.new ≡ slice_set pins.old frame (slice_index pins.old frame - count) }
{
    for _pin in 0..count {
        pins.unpin(frame);
    }
}

// Sets the physical entries of all pages whose entries name a frame, and says how many they are.
fn set_entries<G: Gpu>(
    gpu: &mut G,
    ranges: &Ranges,
    entries: &LinkedEntries,
    frame: u32,
    entry: u64,
) -> u32
    requires parts { InParts ranges.now }
    requires whole { length entries.now.values ≡ pages_of ranges.now }
    requires within { frame < entries.now.frames }
    requires live { (page : ℕ) × IsSome ((G.state gpu.old).label page) }
    ensures count { result ≡ count_by (names entries.now.frames frame) entries.now.values }
    ensures entries { SetsEntries ranges.now entries.now.values entries.now.frames frame entry (G.state gpu.old) (G.state gpu.new) }
    ensures changes { ChangesOnly (entries_part ranges.now) 0 (G.state gpu.old) (G.state gpu.new) }
{
    let mut count = 0;
    for leaf in entries.naming(frame) {
        gpu.set_global(page_at(ranges, slot_of_leaf(leaf)), entry);
        count += 1;
    }
    count
}

impl GlobalTable {
    /// A table whose entries are 0, for a guest with so many frames, 1 to 16,384, none of them guarded. This
    /// takes all the memory that the table ever needs.
    pub fn new(alloc: Global, ranges: Ranges, frames: u32) -> Result<GlobalTable, OutOfMemory>
        requires parts { InParts ranges }
        requires some { 1 ≤ frames }
        requires few { frames ≤ 16384 }
        ensures { IfOk result (λ t. t ≡ zero_table ranges frames) }
    {
        let entries = LinkedEntries::new(alloc, ranges.low.pages + ranges.high.pages, frames)?;
        let guarded = vec![in alloc; false; frames as usize]?;
        Ok(GlobalTable {
            ranges,
            entries,
            guarded,
        })
    }

    /// The guest's entry of a page: 0 where the page isn't its own.
    pub fn entry(&self, page: u32) -> u64
        ensures { result ≡ table_entry self.now page }
    {
        match slot_of(&self.ranges, page) {
            Some(slot) => self.entries.get(slot),
            None => 0,
        }
    }

    /// The frame that a page grants for reading and writing: of an owned page the frame that its entry
    /// names, where that is in memory and isn't guarded.
    pub fn granted(&self, page: u32) -> Option<u32>
        ensures grant { result ≡ table_grant self.now page }
        ensures there { IfSome result (λ frame. frame < self.now.frames) }
        ensures pinned { PinsGranted self.now }
    {
        let slot = slot_of(&self.ranges, page)?;
        unguarded(&self.guarded, self.entries.frame(slot))
    }

    /// Sets the guest's entry of a page, and the physical one with it. Does nothing for a page that
    /// isn't the guest's own.
    pub fn write_entry<G: Gpu>(&mut self, gpu: &mut G, memory: &mut Memory, page: u32, value: u64)
        requires stands { Hosts (G.state gpu.old) memory.old.frames }
        requires frames { length memory.old.frames.pages ≡ self.old.frames }
        requires mirrors { Mirrors (G.state gpu.old) self.old memory.old.frames }
        requires pinned { HasPins self.old memory.old.pins }
        ensures table { self.new ≡ table_written self.old page value }
        ensures frames { memory.new.frames ≡ memory.old.frames }
        ensures mirrors { Mirrors (G.state gpu.new) self.new memory.old.frames }
        ensures pins { ChangesOwnPins self.old self.new memory.old.pins memory.new.pins }
        ensures pinned { HasPins self.new memory.new.pins }
        ensures memory { KeepsMemory memory.old.frames (G.state gpu.old) (G.state gpu.new) }
        ensures changes { ChangesOnly (entries_part self.old.ranges) 0 (G.state gpu.old) (G.state gpu.new) }
    {
        let Some(slot) = slot_of(&self.ranges, page) else {
            return;
        };
        unpin(
            &mut memory.pins,
            unguarded(&self.guarded, self.entries.frame(slot)),
        );
        self.entries.set(slot, value);
        let frame = unguarded(&self.guarded, self.entries.frame(slot));
        pin(&mut memory.pins, frame);
        gpu.set_global(page, physical(&memory.frames, frame));
    }

    /// Guards a frame: takes its physical entries away, and their pins, at the cost of the entries that name it.
    pub fn guard<G: Gpu>(&mut self, gpu: &mut G, memory: &mut Memory, frame: u32)
        requires stands { Hosts (G.state gpu.old) memory.old.frames }
        requires frames { length memory.old.frames.pages ≡ self.old.frames }
        requires mirrors { Mirrors (G.state gpu.old) self.old memory.old.frames }
        requires pinned { HasPins self.old memory.old.pins }
        requires within { frame < self.old.frames }
        requires free { guards self.old.guarded frame ≡ false }
        ensures table { self.new ≡ table_guarding self.old frame true }
        ensures frames { memory.new.frames ≡ memory.old.frames }
        ensures mirrors { Mirrors (G.state gpu.new) self.new memory.old.frames }
        ensures pins { ChangesOwnPins self.old self.new memory.old.pins memory.new.pins }
        ensures pinned { HasPins self.new memory.new.pins }
        ensures memory { KeepsMemory memory.old.frames (G.state gpu.old) (G.state gpu.new) }
        ensures changes { ChangesOnly (entries_part self.old.ranges) 0 (G.state gpu.old) (G.state gpu.new) }
    {
        let count = set_entries(gpu, &self.ranges, &self.entries, frame, ABSENT);
        unpin_times(&mut memory.pins, frame, count);
        self.guarded[frame as usize] = true;
    }

    /// Guards a frame no longer: gives its physical entries back, and their pins, at the cost of the entries
    /// that name it.
    pub fn unguard<G: Gpu>(&mut self, gpu: &mut G, memory: &mut Memory, frame: u32)
        requires stands { Hosts (G.state gpu.old) memory.old.frames }
        requires frames { length memory.old.frames.pages ≡ self.old.frames }
        requires mirrors { Mirrors (G.state gpu.old) self.old memory.old.frames }
        requires pinned { HasPins self.old memory.old.pins }
        requires within { frame < self.old.frames }
        requires guarded { guards self.old.guarded frame ≡ true }
        ensures table { self.new ≡ table_guarding self.old frame false }
        ensures frames { memory.new.frames ≡ memory.old.frames }
        ensures mirrors { Mirrors (G.state gpu.new) self.new memory.old.frames }
        ensures pins { ChangesOwnPins self.old self.new memory.old.pins memory.new.pins }
        ensures pinned { HasPins self.new memory.new.pins }
        ensures memory { KeepsMemory memory.old.frames (G.state gpu.old) (G.state gpu.new) }
        ensures changes { ChangesOnly (entries_part self.old.ranges) 0 (G.state gpu.old) (G.state gpu.new) }
    {
        let entry = physical(&memory.frames, Some(frame));
        let count = set_entries(gpu, &self.ranges, &self.entries, frame, entry);
        pin_times(&mut memory.pins, frame, count);
        self.guarded[frame as usize] = false;
    }

    // Sets every entry to 0, with its physical one, and takes its pin.
    fn clear_entries<G: Gpu>(&mut self, gpu: &mut G, memory: &Frames, pins: &mut Pins)
        requires stands { Hosts (G.state gpu.old) memory.now }
        requires frames { length memory.now.pages ≡ self.old.frames }
        requires mirrors { Mirrors (G.state gpu.old) self.old memory.now }
        requires pinned { HasPins self.old pins.old }
        ensures table { self.new ≡ record self.old { entries = (zero_table self.old.ranges self.old.frames).entries } }
        ensures mirrors { Mirrors (G.state gpu.new) self.new memory.now }
        ensures pins { ChangesOwnPins self.old self.new pins.old pins.new }
        ensures memory { KeepsMemory memory.now (G.state gpu.old) (G.state gpu.new) }
        ensures changes { ChangesOnly (entries_part self.old.ranges) 0 (G.state gpu.old) (G.state gpu.new) }
    {
        while let Some((slot, entry)) = self.entries.take_written() {
            let frame = global_of(entry, self.entries.frames());
            unpin(pins, unguarded(&self.guarded, frame));
            gpu.set_global(page_at(&self.ranges, slot), ABSENT);
        }
    }

    /// Sets every entry to 0, at the cost of those that were written since it last was so, and guards no frame.
    pub fn clear<G: Gpu>(&mut self, gpu: &mut G, memory: &mut Memory)
        requires stands { Hosts (G.state gpu.old) memory.old.frames }
        requires frames { length memory.old.frames.pages ≡ self.old.frames }
        requires mirrors { Mirrors (G.state gpu.old) self.old memory.old.frames }
        requires pinned { HasPins self.old memory.old.pins }
        ensures table { self.new ≡ zero_table self.old.ranges self.old.frames }
        ensures frames { memory.new.frames ≡ memory.old.frames }
        ensures mirrors { Mirrors (G.state gpu.new) self.new memory.old.frames }
        ensures pins { ChangesOwnPins self.old self.new memory.old.pins memory.new.pins }
        ensures pinned { HasPins self.new memory.new.pins }
        ensures unpinned { (frame : ℕ) → table_pins self.new frame ≡ 0 }
        ensures memory { KeepsMemory memory.old.frames (G.state gpu.old) (G.state gpu.new) }
        ensures changes { ChangesOnly (entries_part self.old.ranges) 0 (G.state gpu.old) (G.state gpu.new) }
    {
        self.clear_entries(gpu, &memory.frames, &mut memory.pins);
        self.guarded.fill(false);
    }
}
