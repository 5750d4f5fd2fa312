ghost use Rattle.std.specs.Prelude.{◌≡◌, ℕ, ◌+◌, ◌*◌, ◌<◌, ◌^◌, IfOk, IfErr, slice_index};
ghost use Rattle.gv_ctx.specs.Image.{IsImage};
ghost use Rattle.gv_entry.specs.Ranges.{InParts};
ghost use Rattle.gv_fetch.specs.Fetch.{fetched};
ghost use Rattle.gv_gtt.specs.Gtt.{over, ranges_of};
ghost use Rattle.gv_gtt.specs.Standing.{Translates};
ghost use Rattle.gv_private.specs.Device.{PrivateDevice};
ghost use Rattle.gv_private.specs.Load.{global_space};
ghost use Rattle.gv_scan.specs.Layout.{FitsWindow};
ghost use Rattle.gv_scan.specs.Scan.{Scanned};
ghost use Rattle.gv_vgpu.specs.Loading.{NotFetched, image_found};
ghost use Rattle.gv_vgpu.specs.Seen.{Seen, seen_in, seen-below, space_seen};

use crate::load::Refusal;
use gv_ctx::{Descriptor, Image, PAGE_DWORDS};
use gv_gpu::Gpu;
use gv_gtt::Gtt;
use gv_scan::{Program, Reader, ScanFault, scan};
use gv_types::{EngineId, PAGE_BYTES, Reason, Stop};
use std::alloc::Global;
use std::marker::Model;

// How many dwords of an image are read.
const IMAGE_DWORDS: usize = 0x34;

// Reads a guest's global space, by the grants of this moment. Clauses see that space.
#[derive(Drop)]
struct GlobalReader<'a, G: Gpu> {
    gtt: &'a Gtt,
    gpu: &'a G,
}

impl<'a, G: Gpu> Model for GlobalReader<'a, G> {
    ghost Value = { Seen };

    ghost view = { λ s. seen_in (G.state s.gpu.now) s.gtt.now };

    ghost invariant = { λ s. Translates (G.state s.gpu.now) s.gtt.now };
}

impl<'a, G: Gpu> Reader for GlobalReader<'a, G> {
    ghost space = { λ s. space_seen s };

    ghost below = { λ s page own. seen-below s page own };

    fn owned(&self, page: u64) -> bool {
        page < 0x10_0000 && self.gtt.owns(page as u32)
    }

    fn word(&self, at: u32) -> u32 {
        self.gtt.read_dword(self.gpu, u64::from(at))
    }
}

// The dwords of a context's image that are read. Those behind them are left 0.
fn image_page<G: Gpu>(gtt: &Gtt, gpu: &G, page: u32) -> [u32; PAGE_DWORDS]
    requires translates { Translates (G.state gpu.now) gtt.now }
    requires below { page + 1 < 2 ^ 20 }
    ensures { (p : PrivateDevice) (k : ℕ) → k < 0x34 → slice_index result k ≡ (global_space (over p (G.state gpu.now) gtt.now)).word ((page + 1) * 4096 + 4 * k) }
{
    let mut dwords = [0; PAGE_DWORDS];
    for n in 0..IMAGE_DWORDS {
        dwords[n] = gtt.read_dword(gpu, (u64::from(page) + 1) * PAGE_BYTES + 4 * n as u64);
    }
    dwords
}

/// The image of the context of a descriptor, or why the guest fails: the addressing mode is 3, both pages of the context
/// are owned, and the image is good.
pub(crate) fn image<G: Gpu>(gtt: &Gtt, gpu: &G, descriptor: Descriptor) -> Result<Image, Reason>
    requires translates { Translates (G.state gpu.now) gtt.now }
    requires parts { InParts (ranges_of gtt.now) }
    requires below { descriptor.page < 2 ^ 20 }
    ensures image { (p : PrivateDevice) → result ≡ image_found (over p (G.state gpu.now) gtt.now) descriptor }
    ensures form { IfOk result IsImage }
{
    if descriptor.mode != 3 {
        return Err(Reason::Context);
    }
    if !(gtt.owns(descriptor.page) && gtt.owns(descriptor.page + 1)) {
        return Err(Reason::Range);
    }
    match Image::read(&image_page(gtt, gpu, descriptor.page)) {
        Ok(image) => Ok(image),
        Err(_) => Err(Reason::Context),
    }
}

/// The program of an image: its ring, and the privileged batches that it starts.
pub(crate) fn fetch<G: Gpu>(
    alloc: Global,
    gtt: &Gtt,
    gpu: &G,
    engine: EngineId,
    image: &Image,
) -> Result<Program, Refusal>
    requires translates { Translates (G.state gpu.now) gtt.now }
    requires parts { InParts (ranges_of gtt.now) }
    requires image { IsImage image.now }
    ensures items { IfOk result (λ program. (p : PrivateDevice) → Scanned (fetched (global_space (over p (G.state gpu.now) gtt.now)) engine.0 image.now) program.ring.items program.batches.items) }
    ensures fits { IfOk result (λ program. FitsWindow program.ring.items program.batches.items) }
    ensures refused { IfErr result (λ refusal. (p : PrivateDevice) → NotFetched (over p (G.state gpu.now) gtt.now) engine.0 image.now refusal) }
{
    let reader = GlobalReader { gtt, gpu };
    match scan(alloc, engine, image, &reader) {
        Ok(program) => Ok(program),
        Err(ScanFault::OutOfMemory) => Err(Refusal::Stopped(Stop::OutOfMemory)),
        Err(ScanFault::Refused(reason)) => Err(Refusal::Fails(reason)),
    }
}
