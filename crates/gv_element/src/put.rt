ghost use Rattle.std.specs.Prelude.{◌≡◌, ◌≤◌, ◌<◌, ◌+◌, ◌^◌, [], IfOk, IfSome, OnErr, length};
ghost use Rattle.gv_ctx.specs.declared.saved.Batch.{Batch};
ghost use Rattle.gv_element.specs.Place.{IsSmallPlace, RestsWith, image_put};
ghost use Rattle.gv_element.specs.Works.{IsWindow};
ghost use Rattle.gv_gpu.specs.Part.{outside, window_part};
ghost use Rattle.gv_place.specs.Placed.{placed_batch, placed_place};
ghost use Rattle.gv_scan.specs.Layout.{FitsWindow};
ghost use Rattle.gv_sring.specs.Window.{Shows, WindowIsAbsent, batches_address};

use crate::element::Element;
use gv_ctx::{Batch, Saved};
use gv_gpu::Gpu;
use gv_scan::Program;
use gv_sctx::fill;
use gv_sring::{Shadow, build};
use gv_types::{EngineId, GuestId, OutOfMemory};
use std::alloc::Global;

// A fetched batch's offset, counted from the address at which the batches are.
fn placed_batch(batch: Option<Batch>, base: u32) -> Option<Batch>
    requires { IfSome (placed_batch base batch) (λ (b : Batch). b.at < 2 ^ 48) }
    ensures { result ≡ placed_batch base batch }
{
    match batch {
        None => None,
        Some(Batch { at, live: true }) => Some(Batch { at, live: true }),
        Some(Batch { at, live: false }) => Some(Batch {
            at: u64::from(base) + at,
            live: false,
        }),
    }
}

fn placed_place(place: &Saved, base: u32) -> Saved
    requires { IsSmallPlace (placed_place base place.now) }
    ensures { result ≡ placed_place base place.now }
{
    Saved {
        ring: place.ring,
        first: placed_batch(place.first, base),
        second: placed_batch(place.second, base),
    }
}

// Fills the image of a shadow with a place in its copies.
fn fill_place<G: Gpu>(gpu: &mut G, shadow: &Shadow, place: &Saved, shadow_root: u64)
    requires shows { Shows (G.state gpu.old) shadow.now }
    requires place { IsSmallPlace (placed_place (batches_address shadow.now.guest shadow.now.engine) place.now) }
    requires root { shadow_root < 131072 }
    ensures { G.state gpu.new ≡ image_put (G.state gpu.old) shadow.now (placed_place (batches_address shadow.now.guest shadow.now.engine) place.now) shadow_root }
{
    let placed = placed_place(place, shadow.start() + 0x1_0000);
    fill(
        gpu,
        shadow.image(),
        shadow.start(),
        &placed,
        shadow.tail(),
        shadow_root,
    );
}

impl Element {
    /// Puts an element of which a part is left to rest in its window, which is absent: the copies of its program, and its
    /// image with the place from which it goes on. No engine has its context.
    ///
    /// After want of memory the window is absent again, and no page is kept.
    pub fn put<G: Gpu>(
        alloc: Global,
        gpu: &mut G,
        guest: GuestId,
        engine: EngineId,
        root: u32,
        tail: u32,
        program: &Program,
        place: &Saved,
        shadow_root: u64,
    ) -> Result<Self, OutOfMemory>
        requires guest { guest.0 < 8 }
        requires engine { engine.0 < 4 }
        requires absent { WindowIsAbsent (G.state gpu.old) guest.0 engine.0 }
        requires room { (G.state gpu.old).live + 274 ≤ 131072 }
        requires fits { FitsWindow program.now.ring.items program.now.batches.items }
        requires place { IsSmallPlace (placed_place (batches_address guest.0 engine.0) place.now) }
        requires root { shadow_root < 131072 }
        ensures rests { IfOk result (λ x. RestsWith (G.state gpu.new) guest.0 engine.0 shadow_root program.now.ring.items program.now.batches.items place.now x) }
        ensures shows { IfOk result (λ x. Shows (G.state gpu.new) x.window) }
        ensures window { IfOk result (λ x. IsWindow guest.0 engine.0 x.window) }
        ensures root { IfOk result (λ x. x.root ≡ root) }
        ensures tail { IfOk result (λ x. x.tail ≡ tail) }
        ensures live { IfOk result (λ x. (G.state gpu.new).live ≡ (G.state gpu.old).live + length x.window.pages) }
        ensures outside { IfOk result (λ x. outside (window_part guest.0 engine.0 x.window.pages) (G.state gpu.new) ≡ outside (window_part guest.0 engine.0 []) (G.state gpu.old)) }

        // after want of memory
        ensures unchanged { OnErr result (outside (window_part guest.0 engine.0 []) (G.state gpu.new) ≡ outside (window_part guest.0 engine.0 []) (G.state gpu.old)) }
        ensures absent { OnErr result (WindowIsAbsent (G.state gpu.new) guest.0 engine.0) }
        ensures none_more { OnErr result ((G.state gpu.new).live ≡ (G.state gpu.old).live) }
    {
        let shadow = build(alloc, gpu, guest, engine, program)?;
        fill_place(gpu, &shadow, place, shadow_root);
        Ok(Element { root, tail, shadow })
    }
}
