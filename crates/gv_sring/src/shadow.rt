ghost use Rattle.std.specs.Prelude.{◌≡◌, ◌≤◌, ◌<◌, ◌+◌, ◌-◌, ◌*◌, ℕ, [], None, IfOk, OnOk, OnErr, length};
ghost use Rattle.gv_gpu.specs.Part.{outside, window_part};
ghost use Rattle.gv_scan.specs.Layout.{FitsWindow};
ghost use Rattle.gv_sring.specs.Copy.{IsCopied, HasZeroImage};
ghost use Rattle.gv_sring.specs.Packing.{HoldsPart, HoldsParts, count_of};
ghost use Rattle.gv_sring.specs.Window.{Shows, WindowIsAbsent, Grows, page_at, ring_address, descriptor_at};

use crate::pages::{Pages, first_of_window};
use crate::place::place;
use gv_gpu::Gpu;
use gv_scan::Program;
use gv_types::{EngineId, GuestId, OutOfMemory, PAGE_BYTES};
use std::alloc::Global;
use std::marker::Model;

/// A shadow ring with its image, in the window of a guest and engine. A clause sees whose it is, the
/// ring copy's length in bytes, and the host pages: the image's two, then the ring's, then the batches'.
#[derive(Drop)]
pub struct Shadow {
    pages: Pages,
}

impl Model for Shadow {
    ghost use Rattle.std.specs.Prelude.{◌≤◌, ◌<◌, length};
    ghost use Rattle.gv_sring.specs.Window.{Window};

    ghost Value = { Window };

    ghost view = { λ s. s.pages };

    ghost invariant = { λ s. (2 ≤ length s.pages.pages) × (s.pages.guest < 8) × (s.pages.engine < 4) };
}

impl Shadow {
    /// The host page of the image's second page, which holds the register state.
    pub fn image(&self) -> u64
        ensures page { result ≡ page_at self.now 1 }
        ensures there { 1 < length self.now.pages }
    {
        self.pages.page(1)
    }

    /// The global address of the ring copy.
    pub fn start(&self) -> u32
        ensures { result ≡ ring_address self.now.guest self.now.engine }
    {
        (first_of_window(self.pages.guest(), self.pages.engine()) + 0x10) * PAGE_BYTES as u32
    }

    /// The ring copy's length in bytes.
    pub fn tail(&self) -> u32
        ensures { result ≡ self.now.tail }
    {
        self.pages.tail()
    }

    /// The descriptor that the context is submitted with: valid, addressing mode 3, number 0, and the
    /// window's page of the image's first page.
    pub fn descriptor(&self) -> u64
        ensures { result ≡ descriptor_at self.now.guest self.now.engine }
    {
        u64::from(first_of_window(self.pages.guest(), self.pages.engine())) * PAGE_BYTES + 0x19
    }
}

/// Adds the image's two zero pages, and then those of the ring copy and of the batches.
fn fill_window<G: Gpu>(
    pages: &mut Pages,
    gpu: &mut G,
    ring: &[u32],
    batches: &[u32],
) -> Result<(), OutOfMemory>
    requires shows { Shows (G.state gpu.old) pages.old }
    requires none { pages.old.pages ≡ [] }
    requires tail { pages.old.tail ≡ 4 * length ring.now }
    requires ring { length ring.now ≤ 16384 }
    requires batches { length batches.now ≤ 262144 }
    requires live { (G.state gpu.old).live + 274 ≤ 131072 }
    ensures shows { Shows (G.state gpu.new) pages.new }
    ensures grows { Grows (G.state gpu.old) pages.old (G.state gpu.new) pages.new }
    ensures count { OnOk result (length pages.new.pages ≡ 2 + count_of ring.now + count_of batches.now) }
    ensures first { OnOk result (HoldsPart (G.state gpu.new) (page_at pages.new 0) [] 0) }
    ensures second { OnOk result (HoldsPart (G.state gpu.new) (page_at pages.new 1) [] 0) }
    ensures ring { OnOk result (HoldsParts (G.state gpu.new) pages.new 2 ring.now (count_of ring.now)) }
    ensures batches { OnOk result (HoldsParts (G.state gpu.new) pages.new (2 + count_of ring.now) batches.now (count_of batches.now)) }
    ensures outside { outside (window_part pages.old.guest pages.old.engine pages.new.pages) (G.state gpu.new) ≡ outside (window_part pages.old.guest pages.old.engine []) (G.state gpu.old) }
{
    pages.add(gpu, &[], 0)?;
    pages.add(gpu, &[], 0)?;
    pages.add_all(gpu, ring)?;
    pages.add_all(gpu, batches)
}

/// Copies a program that fits into the window of a guest and engine, whose entries are all absent, and
/// adds the two pages of the shadow image, which are zeros. Each start of a fetched batch gets the
/// global address of its copy. The image's pages alone are writable for an engine.
///
/// After want of memory the window is absent again, and nothing else has changed.
pub fn build<G: Gpu>(
    alloc: Global,
    gpu: &mut G,
    guest: GuestId,
    engine: EngineId,
    program: &Program,
) -> Result<Shadow, OutOfMemory>
    requires guest { guest.0 < 8 }
    requires engine { engine.0 < 4 }
    requires absent { WindowIsAbsent (G.state gpu.old) guest.0 engine.0 }
    requires fits { FitsWindow program.now.ring.items program.now.batches.items }
    requires room { (G.state gpu.old).live + 274 ≤ 131072 }
    ensures owner { IfOk result (λ s. (s.guest ≡ guest.0) × (s.engine ≡ engine.0)) }
    ensures tail { IfOk result (λ s. s.tail ≡ 4 * length program.now.ring.items) }
    ensures count { IfOk result (λ s. length s.pages ≡ 2 + count_of program.now.ring.items + count_of program.now.batches.items) }
    ensures shows { IfOk result (λ s. Shows (G.state gpu.new) s) }
    ensures copy { IfOk result (λ s. IsCopied (G.state gpu.new) s program.now.ring.items program.now.batches.items) }
    ensures image { IfOk result (λ s. HasZeroImage (G.state gpu.new) s) }
    ensures live { IfOk result (λ s. (G.state gpu.new).live ≡ (G.state gpu.old).live + length s.pages) }
    ensures outside { IfOk result (λ s. outside (window_part guest.0 engine.0 s.pages) (G.state gpu.new) ≡ outside (window_part guest.0 engine.0 []) (G.state gpu.old)) }

    // after want of memory
    ensures unchanged { OnErr result (outside (window_part guest.0 engine.0 []) (G.state gpu.new) ≡ outside (window_part guest.0 engine.0 []) (G.state gpu.old)) }
    ensures absent { OnErr result (WindowIsAbsent (G.state gpu.new) guest.0 engine.0) }
    ensures none_more { OnErr result ((G.state gpu.new).live ≡ (G.state gpu.old).live) }
{
    let base = (first_of_window(guest, engine) + 0x20) * PAGE_BYTES as u32;
    let ring = place(alloc, &program.ring, base)?;
    let batches = place(alloc, &program.batches, base)?;
    let mut pages = Pages::new(alloc, guest, engine, 4 * ring.len() as u32);
    match fill_window(&mut pages, gpu, &ring, &batches) {
        Ok(()) => Ok(Shadow { pages }),
        Err(error) => {
            pages.drop_all(gpu);
            Err(error)
        }
    }
}

/// Takes a shadow away: all entries of its window are absent then, and its pages are gone.
pub fn drop_all<G: Gpu>(gpu: &mut G, shadow: Shadow)
    requires { Shows (G.state gpu.old) shadow }
    ensures absent { WindowIsAbsent (G.state gpu.new) shadow.guest shadow.engine }
    ensures gone { (k : ℕ) → k < length shadow.pages → (G.state gpu.new).label (page_at shadow k) ≡ None }
    ensures live { (G.state gpu.new).live ≡ (G.state gpu.old).live - length shadow.pages }
    ensures outside { outside (window_part shadow.guest shadow.engine []) (G.state gpu.new) ≡ outside (window_part shadow.guest shadow.engine shadow.pages) (G.state gpu.old) }
{
    shadow.pages.drop_all(gpu);
}
