ghost use Rattle.std.specs.Prelude.{◌≡◌, IfOk};
ghost use Rattle.gv_ctx.specs.Image.{IsImage};
ghost use Rattle.gv_element.specs.Works.{MayBeLoaded};
ghost use Rattle.gv_gpu.specs.Device.{IsEmpty};
ghost use Rattle.gv_scan.specs.Layout.{FitsWindow};

use crate::steps::{END, INTERRUPT, PRIVILEGED, ran};
use gv_ctx::Image;
use gv_element::Element;
use gv_engine::SoftGpu;
use gv_gpu::{Gpu, Step};
use gv_scan::{Program, Reader, ScanFault, scan};
use gv_types::{EngineId, GuestId};
use std::alloc::Global;
use std::process::Abort;
use std::test::Fail;

/// A guest that owns six pages, with a ring at page 2 and a batch at page 4.
struct Guest;

impl Reader for Guest {
    ghost use Rattle.std.proofs.Common.{rules};
    ghost use Rattle.std.specs.Prelude.{nat_lt, ◌==◌, if◌then◌else◌};

    ghost space = { λ s. record { owned = λ page. nat_lt page 6; word = λ at. (if at == 0x2000 then 0x18800001 else (if at == 0x2004 then 0x4000 else (if at == 0x2010 then 0x1000000 else (if at == 0x4000 then 0x1000000 else (if at == 0x4004 then 0x5000000 else 0))))) } };

    fn owned(&self, page: u64) -> bool {
        page < 6
    }

    fn word(&self, at: u32) -> u32 {
        match at {
            0x2000 => PRIVILEGED,
            0x2004 => 0x4000,
            0x2010 | 0x4000 => INTERRUPT,
            0x4004 => END,
            _ => 0,
        }
    }

    ghost below = { λ s page own. Prim.search rules };
}

/// The image of the guest's context: a ring of a page, with six dwords.
fn image() -> Image
    ensures { IsImage result }
{
    Image {
        head: 0,
        tail: 0x18,
        start: 0x2000,
        pages: 1,
        root: 7,
    }
}

/// The guest's program: a start, three dwords behind it, and its batch.
fn program(alloc: Global) -> Result<Program, ScanFault>
    ensures fits { IfOk result (λ p. FitsWindow p.ring.items p.batches.items) }
    ensures runs { IfOk result (λ p. MayBeLoaded 1 p.ring.items p.batches.items) }
{
    scan(alloc, EngineId(1), &image(), &Guest)
}

/// The element runs from its copy to its end.
fn check_end<G: Gpu>(rt: &impl Abort, gpu: &mut G) -> Result<(), Fail> {
    ran(rt, gpu, &[END], 0)?;
    ran(rt, gpu, &[0], 0)?;
    ran(rt, gpu, &[INTERRUPT], 1)?;
    ran(rt, gpu, &[0], 0)?;
    gpu.reserve(1)?;
    assert!(rt; gpu.step(EngineId(1))? == Step::Ended);
    Ok(())
}

/// An element of guest 1 is loaded on engine 1, put away in the middle of its batch, and brought back.
fn check_run<G: Gpu>(rt: &impl Abort, alloc: Global, gpu: &mut G) -> Result<(), Fail>
    requires { IsEmpty (G.state gpu.old) }
{
    let (guest, engine) = (GuestId(1), EngineId(1));
    let program = program(alloc)?;
    let element = Element::load(alloc, gpu, guest, engine, 7, &image(), &program, 0)?;
    assert_eq!(rt; element.root(), 7);
    assert_eq!(rt; element.tail(), 0x18);
    assert_eq!(rt; element.descriptor(), 0xfca0_0019);
    ran(rt, gpu, &[PRIVILEGED, 0xfca2_0000, 0], 0)?;
    ran(rt, gpu, &[INTERRUPT], 1)?;
    element.stop(gpu, engine)?;
    element.resume(gpu, guest, engine)?;
    check_end(rt, gpu)
}

#[test]
fn an_element_runs_to_its_end(rt: HostRuntime) -> Result<(), Fail> {
    let mut gpu = SoftGpu::new(rt.alloc());
    check_run(&rt, rt.alloc(), &mut gpu)
}

/// An element is loaded, put away and released.
fn check_release<G: Gpu>(alloc: Global, gpu: &mut G) -> Result<(), Fail>
    requires { IsEmpty (G.state gpu.old) }
{
    let (guest, engine) = (GuestId(1), EngineId(1));
    let program = program(alloc)?;
    let element = Element::load(alloc, gpu, guest, engine, 7, &image(), &program, 0)?;
    element.stop(gpu, engine)?;
    element.release(gpu);
    Ok(())
}

#[test]
fn an_element_is_released(rt: HostRuntime) -> Result<(), Fail> {
    let mut gpu = SoftGpu::new(rt.alloc());
    check_release(rt.alloc(), &mut gpu)
}
