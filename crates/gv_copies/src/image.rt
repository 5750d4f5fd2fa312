ghost use Rattle.std.specs.Prelude.{◌≡◌, IsSome, IfOk};

use gv_ctx::{Batch, Saved};
use gv_engine::SoftGpu;
use gv_gpu::Gpu;
use gv_sctx::{fill, saved};
use gv_types::{GuestId, Label, OutOfMemory};
use std::process::Abort;
use std::test::Fail;

const NONE: Saved = Saved {
    ring: 8,
    first: None,
    second: None,
};

const FETCHED: Batch = Batch {
    at: 0xfc02_0040,
    live: false,
};

const LIVE: Batch = Batch {
    at: 0x7fff_1234_5678,
    live: true,
};

const PLACE: Saved = Saved {
    ring: 0x28,
    first: Some(FETCHED),
    second: Some(LIVE),
};

/// A zero page.
fn page<G: Gpu>(gpu: &mut G) -> Result<u64, OutOfMemory>
    requires { (G.state gpu.old).live ≡ 0 }
    ensures { IfOk result (λ page. IsSome ((G.state gpu.new).label page)) }
{
    gpu.add_page(Label {
        guest: GuestId(1),
        shadow: true,
    })
}

/// The page's words but for their low halves, which are 0.
fn check_word<G: Gpu>(rt: &impl Abort, gpu: &G, page: u64, index: usize, dword: u64)
    requires { IsSome ((G.state gpu.now).label page) }
{
    assert!(rt; index < 512);
    assert!(rt; gpu.word(page, index) == dword.wrapping_mul(0x1_0000_0000));
}

/// Each dword of a page that was filled with `PLACE`.
fn check_filled<G: Gpu>(rt: &impl Abort, gpu: &G, page: u64)
    requires { IsSome ((G.state gpu.now).label page) }
{
    for (index, dword) in [
        (2, 0x28),
        (3, 0x40),
        (4, 0xfc01_0000),
        (5, 0xf001),
        (6, 0),
        (7, 0xfc02_0040),
        (8, 1),
        (9, 0x7fff),
        (10, 0x1234_5678),
        (11, 3),
        (24, 0),
        (25, 0x1234_5000),
        (0, 0),
        (511, 0),
    ] {
        check_word(rt, gpu, page, index, dword);
    }
    assert!(rt; saved(gpu, page) == PLACE);
}

/// A page is filled with one place, and then with another.
fn check_fill<G: Gpu>(rt: &impl Abort, gpu: &mut G, page: u64)
    requires { IsSome ((G.state gpu.old).label page) }
    ensures { IsSome ((G.state gpu.new).label page) }
{
    fill(gpu, page, 0xfc01_0000, &PLACE, 0x40, 0x1_2345);
    check_filled(rt, gpu, page);
    fill(gpu, page, 0, &NONE, 8, 0);
    assert!(rt; saved(gpu, page) == NONE);
}

/// Of a state only two bits mean something.
fn check_state<G: Gpu>(rt: &impl Abort, gpu: &mut G, page: u64, state: u64, first: Option<Batch>)
    requires { IsSome ((G.state gpu.old).label page) }
    ensures { IsSome ((G.state gpu.new).label page) }
{
    gpu.poke(page, 8, state);
    let place = saved(gpu, page);
    assert!(rt; place.first == first);
}

#[test]
fn images_are_filled(rt: HostRuntime) -> Result<(), Fail> {
    let mut gpu = SoftGpu::new(rt.alloc());
    let image = page(&mut gpu)?;
    check_fill(&rt, &mut gpu, image);
    let zero = Batch { at: 0, live: false };
    check_state(&rt, &mut gpu, image, 0xffff_fffd_ffff_ffff, Some(zero));
    check_state(&rt, &mut gpu, image, 0xffff_fffe_ffff_ffff, None);
    Ok(())
}
