//! Scripts that stop on the way: over a device that fails at a step, and at a line that is missing.
use crate::engines::BLITTER_REQUEST;
use crate::rows::Row;
use crate::switches::IN_A_SECOND_LEVEL;
use gv_devices::FailingGpu;
use gv_engine::SoftGpu;
use gv_outside::{MemorySink, MemorySource};
use gv_run::{Status, mediate};
use std::alloc::Global;
use std::process::Abort;
use std::test::Fail;

// Ten steps are asked for: nine commands run, and the tenth step ends the element.
#[test]
fn a_step_that_fails_leaves_a_front(rt: HostRuntime) -> Result<(), Fail> {
    let alloc = rt.alloc();
    let row = &BLITTER_REQUEST;
    let report = row.report.as_bytes();
    for call in 1..12u64 {
        let bytes = Vec::from_slice(alloc, row.script.as_bytes())?;
        let mut source = MemorySource::new(bytes, 65_536, Vec::new(alloc));
        let mut sink = MemorySink::new(alloc, 4096, 65_536, Vec::new(alloc))?;
        let mut gpu = FailingGpu::steps(Vec::from_slice(alloc, &[call])?);
        let status = mediate(alloc, &["run"], &mut source, &mut sink, &mut gpu);
        let (expected, ran) = if call <= 10 {
            (Status::DeviceFault, call - 1)
        } else {
            (Status::Done, 9)
        };
        assert_eq!(rt; status, expected, "at call {call}");
        assert_eq!(rt; gpu.journal().len() as u64, ran, "at call {call}");
        assert!(rt; report.starts_with(sink.bytes()), "at call {call}");
        assert_eq!(rt; sink.bytes() == report, status == Status::Done);
    }
    Ok(())
}

// A front of a script's lines is refused at the line behind it, and what it says is a front of the report.
fn check_front(
    rt: &impl Abort,
    alloc: Global,
    row: &Row,
    front: &str,
    lines: u64,
) -> Result<(), Fail> {
    let bytes = Vec::from_slice(alloc, front.as_bytes())?;
    let mut source = MemorySource::new(bytes, 65_536, Vec::new(alloc));
    let mut sink = MemorySink::new(alloc, 4096, 65_536, Vec::new(alloc))?;
    let mut gpu = SoftGpu::new(alloc);
    let status = mediate(alloc, &["run"], &mut source, &mut sink, &mut gpu);
    let number = lines.saturating_add(1);
    assert_eq!(rt; status, Status::BadScript(number));
    let last = format!(in alloc; "refused {number:x}\n")?;
    let Some(said) = sink.bytes().strip_suffix(last.as_bytes()) else {
        panic!(rt; "the last line isn't 'refused {number:x}'");
    };
    assert!(rt;
        row.report.as_bytes().starts_with(said),
        "after {lines} lines"
    );
    Ok(())
}

// Each front that leaves out the line `end`, the empty one too.
#[test]
fn a_front_is_refused_at_the_line_behind_it(rt: HostRuntime) -> Result<(), Fail> {
    let alloc = rt.alloc();
    let mut front = String::new(alloc);
    let mut lines = 0u64;
    let row = &IN_A_SECOND_LEVEL;
    for line in row.script.lines() {
        check_front(&rt, alloc, row, &front, lines)?;
        front.push_str(line)?;
        front.push('\n')?;
        lines = lines.saturating_add(1);
    }
    assert_eq!(rt; lines, 37);
    Ok(())
}
