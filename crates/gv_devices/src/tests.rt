//! Each device is called by hand. A context of four NOOPs serves: its ring is absent, so it reads as
//! zeros, and its tail stands at 16 bytes. The expected values are worked out by hand.
ghost use Rattle.std.specs.Prelude.{◌<◌, IfOk, IsSome};

use crate::{CountingGpu, FailingGpu};
use gv_gpu::{Gpu, GpuFailed, Step};
use gv_types::{EngineId, GuestId, Label, OutOfMemory};
use std::process::Abort;
use std::test::Fail;

const ENGINE: EngineId = EngineId(1);

const GUEST: GuestId = GuestId(0);

const LABEL: Label = Label {
    guest: GUEST,
    shadow: true,
};

// The context's image has the global pages 0xfc200 and 0xfc201.
const DESCRIPTOR: u64 = 0xfc20_0119;

/// Adds the second page of the context's image, and answers its number.
fn write_context<G: Gpu>(gpu: &mut G) -> Result<u64, OutOfMemory>
    requires { (G.state gpu.old).live < 131072 }
    ensures { IfOk result (λ page. IsSome ((G.state gpu.new).label page)) }
{
    let page = gpu.add_page(LABEL)?;
    gpu.poke(page, 3, 0x10_0000_0000);
    gpu.set_global(0xf_c201, page * 4096 + 3);
    Ok(page)
}

fn step<G: Gpu>(gpu: &mut G) -> Result<Result<Step, GpuFailed>, OutOfMemory> {
    gpu.reserve(1)?;
    Ok(gpu.step(ENGINE))
}

fn runs_noop<G: Gpu>(rt: &impl Abort, gpu: &mut G) -> Result<(), Fail> {
    gpu.reserve(1)?;
    match gpu.step(ENGINE)? {
        Step::Ran { command, raise } => {
            assert!(rt; command.words() == [0].as_slice());
            assert_eq!(rt; raise, 0);
        }
        _ => panic!(rt; "no command ran"),
    }
    Ok(())
}

#[test]
fn reads_are_counted(rt: HostRuntime) -> Result<(), Fail> {
    let mut gpu = CountingGpu::new(rt.alloc());
    assert_eq!(rt; gpu.reads(), 0);
    let page = write_context(&mut gpu)?;
    assert_eq!(rt; gpu.reads(), 0);
    assert_eq!(rt; gpu.word(page, 3), 0x10_0000_0000);
    assert_eq!(rt; gpu.word(page, 3), 0x10_0000_0000);
    assert_eq!(rt; gpu.word(page, 511), 0);
    assert_eq!(rt; gpu.reads(), 3);
    gpu.release(page);
    assert_eq!(rt; gpu.reads(), 3);
    Ok(())
}

// An engine reads memory too, which isn't counted.
#[test]
fn steps_over_a_counting_device_read_no_words(rt: HostRuntime) -> Result<(), Fail> {
    let mut gpu = CountingGpu::new(rt.alloc());
    write_context(&mut gpu)?;
    gpu.set_general(ENGINE, 15, 7);
    assert_eq!(rt; gpu.general(ENGINE, 15), 7);
    gpu.submit(ENGINE, GUEST, DESCRIPTOR)?;
    runs_noop(&rt, &mut gpu)?;
    gpu.stop(ENGINE)?;
    assert_eq!(rt; step(&mut gpu)?, Ok(Step::Idle));
    assert_eq!(rt; gpu.reads(), 0);
    Ok(())
}

#[test]
fn the_second_and_the_fifth_call_fail(rt: HostRuntime) -> Result<(), Fail> {
    let mut gpu = FailingGpu::new(vec![in rt.alloc(); 5, 2, 5]?);
    write_context(&mut gpu)?;
    assert_eq!(rt; gpu.submit(ENGINE, GUEST, DESCRIPTOR), Ok(()));
    assert_eq!(rt; step(&mut gpu)?, Err(GpuFailed));
    assert_eq!(rt; gpu.journal().len(), 0);
    runs_noop(&rt, &mut gpu)?;
    assert_eq!(rt; gpu.journal().len(), 1);
    assert_eq!(rt; gpu.stop(ENGINE), Ok(()));
    assert_eq!(rt; gpu.submit(ENGINE, GUEST, DESCRIPTOR), Err(GpuFailed));
    assert_eq!(rt; step(&mut gpu)?, Ok(Step::Idle));
    assert_eq!(rt; gpu.submit(ENGINE, GUEST, DESCRIPTOR), Ok(()));
    runs_noop(&rt, &mut gpu)?;
    assert_eq!(rt; gpu.journal().len(), 2);
    Ok(())
}

#[test]
fn a_stop_that_fails_leaves_the_context(rt: HostRuntime) -> Result<(), Fail> {
    let mut gpu = FailingGpu::new(vec![in rt.alloc(); 2]?);
    write_context(&mut gpu)?;
    assert_eq!(rt; gpu.submit(ENGINE, GUEST, DESCRIPTOR), Ok(()));
    assert_eq!(rt; gpu.stop(ENGINE), Err(GpuFailed));
    runs_noop(&rt, &mut gpu)?;
    Ok(())
}

#[test]
fn steps_alone_are_counted(rt: HostRuntime) -> Result<(), Fail> {
    let mut gpu = FailingGpu::steps(vec![in rt.alloc(); 2]?);
    write_context(&mut gpu)?;
    assert_eq!(rt; gpu.submit(ENGINE, GUEST, DESCRIPTOR), Ok(()));
    assert_eq!(rt; gpu.stop(ENGINE), Ok(()));
    assert_eq!(rt; gpu.submit(ENGINE, GUEST, DESCRIPTOR), Ok(()));
    runs_noop(&rt, &mut gpu)?;
    assert_eq!(rt; gpu.stop(ENGINE), Ok(()));
    assert_eq!(rt; gpu.submit(ENGINE, GUEST, DESCRIPTOR), Ok(()));
    assert_eq!(rt; step(&mut gpu)?, Err(GpuFailed));
    runs_noop(&rt, &mut gpu)?;
    assert_eq!(rt; gpu.journal().len(), 2);
    Ok(())
}

#[test]
fn other_calls_never_fail(rt: HostRuntime) -> Result<(), Fail> {
    let mut gpu = FailingGpu::new(vec![in rt.alloc(); 1]?);
    let page = write_context(&mut gpu)?;
    assert_eq!(rt; gpu.word(page, 3), 0x10_0000_0000);
    gpu.release(page);
    gpu.set_general(ENGINE, 0, 9);
    assert_eq!(rt; gpu.general(ENGINE, 0), 9);
    assert_eq!(rt; gpu.stop(ENGINE), Err(GpuFailed));
    Ok(())
}
