ghost use Rattle.std.specs.Prelude.{◌≡◌, ◌<◌, true, IsSome, length};
ghost use Rattle.gv_gpu.specs.Part.{Part, outside};
ghost use Rattle.gv_sctx.specs.Image.{page_dword, dword_poked, dwords_poked, image_fields, AreDwords, saved_in};

use gv_ctx::Saved;
use gv_gpu::Gpu;
use gv_types::{PAGE_BYTES, half, with_half};

/// Ring control: enabled, sixteen pages.
const CONTROL: u32 = 0xf001;

/// A dword of a page, of which it has 1,024.
fn dword<G: Gpu>(gpu: &G, page: u64, n: usize) -> u32
    requires live { IsSome ((G.state gpu.now).label page) }
    requires within { n < 1024 }
    ensures { result ≡ page_dword ((G.state gpu.now).words page) n }
{
    half(gpu.word(page, n / 2), 4 * n as u64)
}

/// Sets a dword of a page, with one poke.
fn set_dword<G: Gpu>(gpu: &mut G, page: u64, n: usize, value: u32)
    requires live { IsSome ((G.state gpu.old).label page) }
    requires within { n < 1024 }
    ensures { G.state gpu.new ≡ dword_poked (G.state gpu.old) page n value }
{
    let word = gpu.word(page, n / 2);
    gpu.poke(page, n / 2, with_half(word, 4 * n as u64, value));
}

/// Sets dwords of a page, one after the other.
fn set_dwords<G: Gpu>(gpu: &mut G, page: u64, dwords: &[(usize, u32)])
    requires live { IsSome ((G.state gpu.old).label page) }
    requires within { AreDwords dwords.now }
    ensures { G.state gpu.new ≡ dwords_poked (G.state gpu.old) page dwords.now }
{
    for (n, value) in dwords {
        set_dword(gpu, page, *n, *value);
    }
}

/// The dwords of an image, by their numbers.
fn dwords_of(start: u32, place: &Saved, tail: u32, shadow_root: u64) -> [(usize, u32); 12]
    requires { shadow_root < 131072 }
    ensures fields { result ≡ image_fields start place.now tail shadow_root }
    ensures dwords { AreDwords result }
{
    let fields = place.fields();
    [
        (0x05, fields[0]),
        (0x0d, fields[1]),
        (0x0f, fields[2]),
        (0x11, fields[3]),
        (0x13, fields[4]),
        (0x15, fields[5]),
        (0x17, fields[6]),
        (0x07, tail),
        (0x09, start),
        (0x0b, CONTROL),
        (0x31, 0),
        (0x33, shadow_root as u32 * PAGE_BYTES as u32),
    ]
}

/// Writes the register state of a shadow context into the second page of its image: the place of its
/// next command, the ring copy's global address and its length in bytes, ring control, and the host
/// page of its root, below 131,072. It takes no memory.
pub fn fill<G: Gpu>(
    gpu: &mut G,
    image_page: u64,
    start: u32,
    saved: &Saved,
    tail: u32,
    shadow_root: u64,
)
    requires live { IsSome ((G.state gpu.old).label image_page) }
    requires root { shadow_root < 131072 }
    ensures device { G.state gpu.new ≡ dwords_poked (G.state gpu.old) image_page (image_fields start saved.now tail shadow_root) }
    ensures labels { (G.state gpu.new).label ≡ (G.state gpu.old).label }
    ensures outside { (p : Part) → p.page image_page ((G.state gpu.old).label image_page) ≡ true → outside p (G.state gpu.new) ≡ outside p (G.state gpu.old) }

    // On a page of 512 words the place is the one that `saved` answers.
    ensures place { length ((G.state gpu.old).words image_page) ≡ 512 → saved_in ((G.state gpu.new).words image_page) ≡ saved.now }
{
    let dwords = dwords_of(start, saved, tail, shadow_root);
    set_dwords(gpu, image_page, &dwords);
}

/// The place that the second page of a shadow image holds.
pub fn saved<G: Gpu>(gpu: &G, image_page: u64) -> Saved
    requires { IsSome ((G.state gpu.now).label image_page) }
    ensures { result ≡ saved_in ((G.state gpu.now).words image_page) }
{
    Saved::of([
        dword(gpu, image_page, 0x05),
        dword(gpu, image_page, 0x0d),
        dword(gpu, image_page, 0x0f),
        dword(gpu, image_page, 0x11),
        dword(gpu, image_page, 0x13),
        dword(gpu, image_page, 0x15),
        dword(gpu, image_page, 0x17),
    ])
}
