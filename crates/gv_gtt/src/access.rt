ghost use Rattle.std.specs.Prelude.{◌≡◌, ◌+◌, ◌*◌, ◌/◌, ◌%◌, ◌^◌, ◌<◌, ◌≤◌, false, None, length, IfSome, if◌then◌else◌};
ghost use Rattle.gv_types.specs.Memory.{bytes_of, all_ones, memory_read};
ghost use Rattle.gv_entry.specs.Global.{global_entry, with_entry};
ghost use Rattle.gv_entry.specs.Ranges.{InParts, is_in, owns_page};
ghost use Rattle.gv_entry.specs.Tables.{is_guarded};
ghost use Rattle.gv_gpu.specs.Change.{ChangesOnly};
ghost use Rattle.gv_gpu.specs.Device.{Device};
ghost use Rattle.gv_gpu.specs.Part.{frames_part};
ghost use Rattle.gv_guest.specs.Placed.{Hosts};
ghost use Rattle.gv_private.specs.Access.{aperture_frame, aperture_read, aperture_written};
ghost use Rattle.gv_private.specs.Device.{PrivateDevice};
ghost use Rattle.gv_private.specs.Grants.{page_grant, frame_read, frame_written, global_written};
ghost use Rattle.gv_private.specs.Load.{global_space};
ghost use Rattle.gv_gtt.specs.Changes.{Changes, ChangesTable};
ghost use Rattle.gv_gtt.specs.Gtt.{frames_of, number_of, ranges_of, entries_of, memory_of, roots_in, over, KnowsRanges};
ghost use Rattle.gv_gtt.specs.Standing.{Stands, Translates};

use crate::Gtt;
use gv_gpu::Gpu;
use gv_guest::Memory;
use gv_types::{PAGE_BYTES, Span, Width, half};

fn is_in(span: &Span, page: u32) -> bool
    ensures { result ≡ is_in span.now page }
{
    span.first <= page && u64::from(page) < u64::from(span.first) + u64::from(span.pages)
}

impl Gtt {
    /// How many frames the guest has.
    pub fn frames(&self) -> u32
        ensures { result ≡ length (frames_of self.now).pages }
    {
        self.memory.frames()
    }

    /// The guest's frames, with the host page of each.
    pub fn memory(&self) -> &Memory
        ensures { result.now ≡ self.now.memory }
    {
        &self.memory
    }

    /// Reads memory.
    pub fn read<G: Gpu>(&self, gpu: &G, at: u64, width: Width) -> u64
        requires translates { Translates (G.state gpu.now) self.now }
        requires aligned { at % bytes_of width ≡ 0 }
        ensures { result ≡ memory_read (memory_of (G.state gpu.now) self.now) width at }
    {
        self.memory.read(gpu, at, width)
    }

    /// Whether the guest owns a page of the global table.
    pub fn owns(&self, page: u32) -> bool
        requires { KnowsRanges self.now }
        ensures { result ≡ owns_page (ranges_of self.now) page }
    {
        is_in(&self.ranges.low, page) || is_in(&self.ranges.high, page)
    }

    // The frame that a page grants. It is no live table.
    fn grant(&self, page: u32) -> Option<u32>
        ensures grant { (d : Device) (p : PrivateDevice) → Translates d self.now → result ≡ page_grant (over p d self.now) page }
        ensures there { IfSome result (λ frame. frame < self.now.table.frames) }
        ensures open { IfSome result (λ frame. (d : Device) → Translates d self.now → is_guarded (memory_of d self.now) (roots_in self.now) frame ≡ false) }
    {
        self.table.granted(page)
    }

    // The frame that an aperture access to this page goes to. The low part of the global table is the pages below
    // 65,536.
    fn aperture_frame(&self, page: u32) -> Option<u32>
        requires { InParts (ranges_of self.now) }
        ensures grant { (d : Device) (p : PrivateDevice) → Translates d self.now → result ≡ aperture_frame (over p d self.now) page }
        ensures there { IfSome result (λ frame. frame < self.now.table.frames) }
        ensures open { IfSome result (λ frame. (d : Device) → Translates d self.now → is_guarded (memory_of d self.now) (roots_in self.now) frame ≡ false) }
    {
        if page < 65_536 {
            self.grant(page)
        } else {
            None
        }
    }

    // Reads a frame, if there is one, at the offset of an address in its page.
    fn read_frame<G: Gpu>(&self, gpu: &G, width: Width, at: u64, frame: Option<u32>) -> u64
        requires stands { Hosts (G.state gpu.now) (frames_of self.now) }
        requires there { IfSome frame (λ frame. frame < length (frames_of self.now).pages) }
        requires few { length (frames_of self.now).pages ≤ 16384 }
        requires aligned { at % bytes_of width ≡ 0 }
        ensures { result ≡ frame_read (memory_of (G.state gpu.now) self.now) width at frame }
    {
        match frame {
            Some(frame) => {
                let start = u64::from(frame) * PAGE_BYTES;
                self.memory.read(gpu, start + at % PAGE_BYTES, width)
            }
            None => 0,
        }
    }

    // Writes a frame, if there is one, which is no live table, at the offset of an address in its page.
    fn write_frame<G: Gpu>(
        &self,
        gpu: &mut G,
        width: Width,
        at: u64,
        value: u64,
        frame: Option<u32>,
    )
        requires translates { Translates (G.state gpu.old) self.now }
        requires there { IfSome frame (λ frame. frame < length (frames_of self.now).pages) }
        requires few { length (frames_of self.now).pages ≤ 16384 }
        requires open { IfSome frame (λ frame. is_guarded (memory_of (G.state gpu.old) self.now) (roots_in self.now) frame ≡ false) }
        requires aligned { at % bytes_of width ≡ 0 }
        requires fits { value ≤ all_ones width }
        ensures memory { memory_of (G.state gpu.new) self.now ≡ frame_written (memory_of (G.state gpu.old) self.now) width at value frame }
        ensures translates { Translates (G.state gpu.new) self.now }
        ensures changes { ChangesOnly (frames_part (number_of self.now)) 1 (G.state gpu.old) (G.state gpu.new) }
    {
        if let Some(frame) = frame {
            let start = u64::from(frame) * PAGE_BYTES;
            self.memory
                .write(gpu, start + at % PAGE_BYTES, width, value);
        }
    }

    /// Reads through the aperture.
    pub fn read_aperture<G: Gpu>(&self, gpu: &G, at: u64, width: Width) -> u64
        requires translates { Translates (G.state gpu.now) self.now }
        requires aligned { at % bytes_of width ≡ 0 }
        requires below { at < 2 ^ 32 }
        ensures { (p : PrivateDevice) → result ≡ aperture_read (over p (G.state gpu.now) self.now) width at }
    {
        let frame = self.aperture_frame((at / PAGE_BYTES) as u32);
        self.read_frame(gpu, width, at, frame)
    }

    /// Writes through the aperture, which reaches no live table.
    pub fn write_aperture<G: Gpu>(&self, gpu: &mut G, at: u64, width: Width, value: u64)
        requires translates { Translates (G.state gpu.old) self.now }
        requires aligned { at % bytes_of width ≡ 0 }
        requires below { at < 2 ^ 32 }
        requires fits { value ≤ all_ones width }
        ensures device { (p : PrivateDevice) → over p (G.state gpu.new) self.now ≡ aperture_written (over p (G.state gpu.old) self.now) width at value }
        ensures translates { Translates (G.state gpu.new) self.now }
        ensures changes { ChangesOnly (frames_part (number_of self.now)) 1 (G.state gpu.old) (G.state gpu.new) }
    {
        let frame = self.aperture_frame((at / PAGE_BYTES) as u32);
        self.write_frame(gpu, width, at, value, frame);
    }

    /// Reads a dword of the guest's global space.
    pub fn read_dword<G: Gpu>(&self, gpu: &G, at: u64) -> u32
        requires translates { Translates (G.state gpu.now) self.now }
        requires aligned { at % 4 ≡ 0 }
        requires below { at < 2 ^ 32 }
        ensures { (p : PrivateDevice) → result ≡ (global_space (over p (G.state gpu.now) self.now)).word at }
    {
        let frame = self.grant((at / PAGE_BYTES) as u32);
        let word = self.read_frame(gpu, Width::Eight, at / 8 * 8, frame);
        half(word, at)
    }

    /// Writes a dword of the guest's global space. It reaches no live table.
    pub fn write_dword<G: Gpu>(&self, gpu: &mut G, at: u64, value: u32)
        requires translates { Translates (G.state gpu.old) self.now }
        requires aligned { at % 4 ≡ 0 }
        requires below { at < 2 ^ 32 }
        ensures device { (p : PrivateDevice) → over p (G.state gpu.new) self.now ≡ global_written (over p (G.state gpu.old) self.now) at value }
        ensures translates { Translates (G.state gpu.new) self.now }
        ensures changes { ChangesOnly (frames_part (number_of self.now)) 1 (G.state gpu.old) (G.state gpu.new) }
    {
        let frame = self.grant((at / PAGE_BYTES) as u32);
        self.write_frame(gpu, Width::Four, at, u64::from(value), frame);
    }

    /// The guest's entry of a page of the global table.
    pub fn read_entry(&self, page: u32) -> u64
        ensures { result ≡ global_entry (ranges_of self.now) (entries_of self.now) page }
    {
        self.table.entry(page)
    }

    /// Writes an entry. That of a page which the guest doesn't own isn't written.
    pub fn write_entry<G: Gpu>(&mut self, gpu: &mut G, page: u32, value: u64)
        requires translates { Translates (G.state gpu.old) self.old }
        ensures device { (p : PrivateDevice) → over p (G.state gpu.new) self.new
            ≡ record (over p (G.state gpu.old) self.old) { entries = with_entry (ranges_of self.old) (entries_of self.old) page value } }
        ensures translates { Translates (G.state gpu.new) self.new }
        ensures table { ChangesTable (G.state gpu.old) (G.state gpu.new) self.old self.new }
        ensures changes { Changes (G.state gpu.old) (G.state gpu.new) self.old self.new }
    {
        self.table.write_entry(gpu, &mut self.memory, page, value);
    }
}
