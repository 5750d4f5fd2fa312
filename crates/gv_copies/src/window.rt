ghost use Rattle.std.specs.Prelude.{IsSome, IfOk};
ghost use Rattle.gv_gpu.specs.Device.{IsEmpty};
ghost use Rattle.gv_scan.specs.Layout.{FitsWindow};
ghost use Rattle.gv_sring.specs.Window.{Shows};

use crate::steps::{END, INTERRUPT, PRIVILEGED, ran};
use gv_ctx::{Image, Saved};
use gv_engine::SoftGpu;
use gv_gpu::{Gpu, Step};
use gv_scan::{Program, Reader, ScanFault, scan};
use gv_sctx::fill;
use gv_sring::{Shadow, build, drop_all};
use gv_types::{EngineId, GuestId};
use std::alloc::Global;
use std::process::Abort;
use std::test::Fail;

const SECOND: u32 = 0x18c0_0001;

/// A guest that owns six pages, with a ring at page 2, a batch at page 4 and one of the second level at
/// page 5.
struct Guest;

impl Reader for Guest {
    ghost use Rattle.std.proofs.Common.{rules};
    ghost use Rattle.std.specs.Prelude.{nat_lt, ◌==◌, if◌then◌else◌};

    ghost space = { λ s. record { owned = λ page. nat_lt page 6; word = λ at. (if at == 0x2000 then 0x18800001 else (if at == 0x2004 then 0x4000 else (if at == 0x2010 then 0x1000000 else (if at == 0x4000 then 0x18c00001 else (if at == 0x4004 then 0x5000 else (if at == 0x400c then 0x5000000 else (if at == 0x5000 then 0x1000000 else (if at == 0x5004 then 0x5000000 else 0)))))))) } };

    fn owned(&self, page: u64) -> bool {
        page < 6
    }

    fn word(&self, at: u32) -> u32 {
        match at {
            0x2000 => PRIVILEGED,
            0x2004 => 0x4000,
            0x2010 => INTERRUPT,
            0x4000 => SECOND,
            0x4004 => 0x5000,
            0x400c => END,
            0x5000 => INTERRUPT,
            0x5004 => END,
            _ => 0,
        }
    }

    ghost below = { λ s page own. Prim.search rules };
}

/// The guest's program: a start, three dwords behind it, and the two batches.
fn program(alloc: Global) -> Result<Program, ScanFault>
    ensures { IfOk result (λ p. FitsWindow p.ring.items p.batches.items) }
{
    let mut page = [0; 1024];
    page[0x07] = 0x18;
    page[0x09] = 0x2000;
    page[0x0b] = 1;
    match Image::read(&page) {
        Ok(image) => scan(alloc, EngineId(1), &image, &Guest),
        Err(_) => Err(ScanFault::OutOfMemory),
    }
}

/// The image's second page, which is live.
fn image_of<G: Gpu>(gpu: &G, shadow: &Shadow) -> u64
    requires { Shows (G.state gpu.now) shadow.now }
    ensures { IsSome ((G.state gpu.now).label result) }
{
    let _ = gpu;
    shadow.image()
}

/// The guest's program runs from its copy, level by level: the second level was copied first, so that
/// its batch is at the front of the batches.
fn check_run<G: Gpu>(rt: &impl Abort, gpu: &mut G) -> Result<(), Fail> {
    ran(rt, gpu, &[PRIVILEGED, 0xfca2_0008, 0], 0)?;
    ran(rt, gpu, &[SECOND, 0xfca2_0000, 0], 0)?;
    ran(rt, gpu, &[INTERRUPT], 1)?;
    ran(rt, gpu, &[END], 0)?;
    ran(rt, gpu, &[END], 0)?;
    ran(rt, gpu, &[0], 0)?;
    ran(rt, gpu, &[INTERRUPT], 1)?;
    ran(rt, gpu, &[0], 0)?;
    gpu.reserve(1)?;
    assert!(rt; gpu.step(EngineId(1))? == Step::Ended);
    Ok(())
}

/// A shadow of guest 1 on engine 1 is built, filled and submitted, and runs.
fn check_shadow<G: Gpu>(rt: &impl Abort, alloc: Global, gpu: &mut G) -> Result<(), Fail>
    requires { IsEmpty (G.state gpu.old) }
{
    let shadow = build(alloc, gpu, GuestId(1), EngineId(1), &program(alloc)?)?;
    assert_eq!(rt; shadow.start(), 0xfca1_0000);
    assert_eq!(rt; shadow.tail(), 24);
    assert_eq!(rt; shadow.descriptor(), 0xfca0_0019);
    let front = Saved {
        ring: 0,
        first: None,
        second: None,
    };
    let image = image_of(gpu, &shadow);
    fill(gpu, image, shadow.start(), &front, shadow.tail(), 0);
    gpu.submit(EngineId(1), GuestId(1), shadow.descriptor())?;
    check_run(rt, gpu)
}

#[test]
fn a_program_runs_from_its_copy(rt: HostRuntime) -> Result<(), Fail> {
    let mut gpu = SoftGpu::new(rt.alloc());
    check_shadow(&rt, rt.alloc(), &mut gpu)
}

/// A shadow is built and dropped.
fn check_drop<G: Gpu>(alloc: Global, gpu: &mut G) -> Result<(), Fail>
    requires { IsEmpty (G.state gpu.old) }
{
    let shadow = build(alloc, gpu, GuestId(1), EngineId(1), &program(alloc)?)?;
    drop_all(gpu, shadow);
    Ok(())
}

#[test]
fn a_window_is_dropped(rt: HostRuntime) -> Result<(), Fail> {
    let mut gpu = SoftGpu::new(rt.alloc());
    check_drop(rt.alloc(), &mut gpu)
}
