//! A word of a live table that changes costs what it changes: few words of the shared device are poked, and few are read.
ghost use Rattle.gv_gpu.specs.Device.{IsEmpty};

use gv_devices::CountingGpu;
use gv_engine::SoftGpu;
use gv_gpu::Gpu;
use gv_outside::{MemorySink, MemorySource};
use gv_run::{Status, mediate};
use std::alloc::Global;
use std::process::Abort;
use std::test::Fail;

// A guest with tables of four levels, whose root it announces.
const TABLES: &str =
    "guest 20 10 0\no8 0 800000 1 1001 2001 3001 4001\no4 0 22080 3000\nw4 0 1024 2000\nw4 0 102c 1\nw4 0 10cc 8000\nw8 0 8000 9003\nw8 0 9000 a003\nw8 0 a000 b003\nw8 0 b000 c003 d003 e003\no4 0 78838 8000\no4 0 78818 4\n";

// An entry of its level-1 table leads to another frame.
const CHANGE: &str = "w8 0 b008 f003\n";

// Runs the script with a line more, or with none.
fn run_with<G: Gpu>(rt: &impl Abort, alloc: Global, gpu: &mut G, line: &str) -> Result<(), Fail>
    requires { IsEmpty (G.state gpu.old) }
{
    let script = format!(in alloc; "{TABLES}{line}end\n")?;
    let bytes = Vec::from_slice(alloc, script.as_bytes())?;
    let mut source = MemorySource::new(bytes, 65_536, Vec::new(alloc));
    let mut sink = MemorySink::new(alloc, 4096, 65_536, Vec::new(alloc))?;
    let status = mediate(alloc, &["run"], &mut source, &mut sink, gpu);
    assert_eq!(rt; status, Status::Done);
    Ok(())
}

#[test]
fn a_changed_entry_pokes_two_words(rt: HostRuntime) -> Result<(), Fail> {
    let alloc = rt.alloc();
    let mut before = SoftGpu::new(alloc);
    run_with(&rt, alloc, &mut before, "")?;
    let mut after = SoftGpu::new(alloc);
    run_with(&rt, alloc, &mut after, CHANGE)?;
    assert!(rt; before.pokes() < after.pokes());
    assert!(rt; after.pokes() <= before.pokes().saturating_add(2));
    Ok(())
}

#[test]
fn a_changed_entry_reads_few_words(rt: HostRuntime) -> Result<(), Fail> {
    let alloc = rt.alloc();
    let mut before = CountingGpu::new(alloc);
    run_with(&rt, alloc, &mut before, "")?;
    let mut after = CountingGpu::new(alloc);
    run_with(&rt, alloc, &mut after, CHANGE)?;
    assert!(rt; after.reads() <= before.reads().saturating_add(64));
    Ok(())
}
