ghost use Rattle.std.specs.Prelude.{◌≡◌, ◌≤◌, ◌<◌, ◌+◌, ◌-◌, ◌*◌, [], OnOk, length};
ghost use Rattle.gv_gpu.specs.Part.{outside, window_part, first_of_window};
ghost use Rattle.gv_sring.specs.Packing.{HoldsPart, HoldsParts, count_of};
ghost use Rattle.gv_sring.specs.Window.{Shows, WindowIsAbsent, Grows, page_at, slot_of, flags_of, most_pages};

use crate::pack::pack;
use gv_ctx::PAGE_DWORDS;
use gv_gpu::Gpu;
use gv_types::{EngineId, GuestId, Label, OutOfMemory, PAGE_BYTES};
use std::alloc::Global;
use std::marker::Model;

/// The first of the 512 entries of a guest's and engine's window.
pub(crate) fn first_of_window(guest: GuestId, engine: EngineId) -> u32
    requires guest { guest.0 < 8 }
    requires engine { engine.0 < 4 }
    ensures { result ≡ first_of_window guest.0 engine.0 }
{
    0xfc000 + (4 * u32::from(guest.0) + u32::from(engine.0)) * 0x200
}

/// Which of these entries names the k-th page.
fn slot_of(tail: u32, k: usize) -> u32
    requires tail { tail ≤ 65536 }
    requires few { k < most_pages tail }
    ensures slot { result ≡ slot_of tail k }
    ensures below { result < 0x200 }
{
    let k = k as u32;
    let ring_pages = tail.div_ceil(PAGE_BYTES as u32);
    if k < 2 {
        k
    } else if k < 2 + ring_pages {
        0x10 + (k - 2)
    } else {
        0x20 + (k - (2 + ring_pages))
    }
}

/// An entry that names a page: present, and writable where the page is the image's.
fn entry_of(page: u64, k: usize) -> u64
    requires { page < 131072 }
    ensures { result ≡ page * 4096 + flags_of k }
{
    page * PAGE_BYTES + if k < 2 { 3 } else { 1 }
}

/// The pages of a shadow ring and of its image, with their entries of the global table.
#[derive(Drop)]
pub(crate) struct Pages {
    guest: GuestId,
    engine: EngineId,
    tail: u32,
    pages: Vec<u64>,
}

impl Model for Pages {
    ghost use Rattle.std.specs.Prelude.{◌<◌, ◌≤◌};
    ghost use Rattle.gv_sring.specs.Window.{Window};

    ghost Value = { Window };

    ghost view = { λ s. record { guest = s.guest.0; engine = s.engine.0; tail = s.tail; pages = s.pages.items } };

    ghost invariant = { λ s. (s.guest.0 < 8) × (s.engine.0 < 4) × (s.tail ≤ 65536) };
}

impl Pages {
    /// None so far, for a ring copy of so many bytes.
    pub(crate) fn new(alloc: Global, guest: GuestId, engine: EngineId, tail: u32) -> Self
        requires guest { guest.0 < 8 }
        requires engine { engine.0 < 4 }
        requires tail { tail ≤ 65536 }
        ensures { result ≡ record { guest = guest.0; engine = engine.0; tail = tail; pages = [] } }
    {
        Pages {
            guest,
            engine,
            tail,
            pages: Vec::new(alloc),
        }
    }

    pub(crate) fn guest(&self) -> GuestId
        ensures value { result.0 ≡ self.now.guest }
        ensures below { result.0 < 8 }
    {
        self.guest
    }

    pub(crate) fn engine(&self) -> EngineId
        ensures value { result.0 ≡ self.now.engine }
        ensures below { result.0 < 4 }
    {
        self.engine
    }

    pub(crate) fn tail(&self) -> u32
        ensures { result ≡ self.now.tail }
    {
        self.tail
    }

    /// The k-th page.
    pub(crate) fn page(&self, k: usize) -> u64
        requires { k < length self.now.pages }
        ensures { result ≡ page_at self.now k }
    {
        self.pages[k]
    }

    /// Adds a page with its part of the dwords, and its entry.
    pub(crate) fn add<G: Gpu>(
        &mut self,
        gpu: &mut G,
        words: &[u32],
        part: usize,
    ) -> Result<(), OutOfMemory>
        requires shows { Shows (G.state gpu.old) self.old }
        requires room { length self.old.pages < most_pages self.old.tail }
        requires live { (G.state gpu.old).live < 131072 }
        requires few { length words.now ≤ 262144 }
        requires part { part ≤ 256 }
        ensures shows { Shows (G.state gpu.new) self.new }
        ensures grows { Grows (G.state gpu.old) self.old (G.state gpu.new) self.new }
        ensures count { OnOk result (length self.new.pages ≡ length self.old.pages + 1) }
        ensures part { OnOk result (HoldsPart (G.state gpu.new) (page_at self.new (length self.old.pages)) words.now part) }
        ensures outside { outside (window_part self.old.guest self.old.engine self.new.pages) (G.state gpu.new) ≡ outside (window_part self.old.guest self.old.engine self.old.pages) (G.state gpu.old) }
    {
        self.pages.reserve(1)?;
        let page = gpu.add_page(Label {
            guest: self.guest,
            shadow: true,
        })?;
        let k = self.pages.len();
        let first = first_of_window(self.guest, self.engine);
        gpu.set_global(first + slot_of(self.tail, k), entry_of(page, k));
        pack(gpu, page, words, part);
        self.pages.push(page)?;
        Ok(())
    }

    /// Adds as many pages as the dwords need, with their entries.
    pub(crate) fn add_all<G: Gpu>(&mut self, gpu: &mut G, words: &[u32]) -> Result<(), OutOfMemory>
        requires shows { Shows (G.state gpu.old) self.old }
        requires few { length words.now ≤ 262144 }
        requires room { length self.old.pages + count_of words.now ≤ most_pages self.old.tail }
        requires live { (G.state gpu.old).live + count_of words.now ≤ 131072 }
        ensures shows { Shows (G.state gpu.new) self.new }
        ensures grows { Grows (G.state gpu.old) self.old (G.state gpu.new) self.new }
        ensures count { OnOk result (length self.new.pages ≡ length self.old.pages + count_of words.now) }
        ensures parts { OnOk result (HoldsParts (G.state gpu.new) self.new (length self.old.pages) words.now (count_of words.now)) }
        ensures outside { outside (window_part self.old.guest self.old.engine self.new.pages) (G.state gpu.new) ≡ outside (window_part self.old.guest self.old.engine self.old.pages) (G.state gpu.old) }
    {
        for part in 0..words.len().div_ceil(PAGE_DWORDS) {
            self.add(gpu, words, part)?;
        }
        Ok(())
    }

    /// Takes all entries and pages away.
    pub(crate) fn drop_all<G: Gpu>(self, gpu: &mut G)
        requires shows { Shows (G.state gpu.old) self }
        ensures absent { WindowIsAbsent (G.state gpu.new) self.guest self.engine }
        ensures outside { outside (window_part self.guest self.engine []) (G.state gpu.new) ≡ outside (window_part self.guest self.engine self.pages) (G.state gpu.old) }
        ensures live { (G.state gpu.new).live ≡ (G.state gpu.old).live - length self.pages }
    {
        let Pages {
            guest,
            engine,
            tail,
            mut pages,
        } = self;
        let first = first_of_window(guest, engine);
        'pages: while let Some(page) = pages.pop() {
            gpu.set_global(first + slot_of(tail, pages.len()), 0);
            gpu.release(page);
        }
    }
}
