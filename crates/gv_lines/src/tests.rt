//! Readers over sources in memory, and writers over sinks in memory.
use crate::{LineReader, Next, Outlet, ReportWriter, Totals};
use gv_outside::{MemorySink, MemorySource, SinkFailed, SourceFailed};
use gv_types::OutOfMemory;
use std::alloc::Global;
use std::test::Fail;

/// What a reader hands out of a source: its lines, each with a line feed, and what came then.
#[derive(Drop)]
struct HandedOut {
    lines: Vec<u8>,
    last: Result<Next, SourceFailed>,
    taken: usize,
}

fn handed_out(
    alloc: Global,
    source: &mut MemorySource,
    limit: u32,
) -> Result<HandedOut, OutOfMemory> {
    let mut reader = LineReader::new(alloc, limit as usize)?;
    let mut lines = Vec::new(alloc);
    let mut last = reader.advance(source);
    for _ in 0..u64::MAX {
        match last {
            Ok(Next::Line) => {}
            Ok(Next::LastLine) => {}
            _ => break,
        }
        lines.extend_from_slice(reader.line())?;
        lines.push(b'\n')?;
        last = reader.advance(source);
    }
    let taken = reader.taken();
    Ok(HandedOut { lines, last, taken })
}

fn source(alloc: Global, text: &[u8], failing: u64) -> Result<MemorySource, OutOfMemory> {
    let bytes = Vec::from_slice(alloc, text)?;
    Ok(MemorySource::new(bytes, 1, vec![in alloc; failing]?))
}

const SCRIPT: &[u8] = b"guest 1 0 0\nr4 0 ffc\n\nr4 0 1000\n# x\nend";

#[test]
fn lines_are_the_same_in_pieces_of_any_size(rt: HostRuntime) -> Result<(), Fail> {
    let alloc = rt.alloc();
    for most in [1, 2, 3, 7, 100] {
        let bytes = Vec::from_slice(alloc, SCRIPT)?;
        let mut source = MemorySource::new(bytes, most, Vec::new(alloc));
        let read = handed_out(alloc, &mut source, 1000).map_err(|_| "no memory")?;
        assert_eq!(rt; read.last, Ok(Next::End));
        assert_eq!(rt; read.taken, 39);
        assert_eq!(rt;
            read.lines.as_slice(),
            b"guest 1 0 0\nr4 0 ffc\n\nr4 0 1000\n# x\nend\n".as_slice()
        );
    }
    Ok(())
}

#[test]
fn a_line_is_handed_out_as_soon_as_its_line_feed_was_taken(rt: HostRuntime) -> Result<(), Fail> {
    let alloc = rt.alloc();
    for (failing, lines) in [
        (21, b"guest 1 0 0\n".as_slice()),
        (22, b"guest 1 0 0\nr4 0 ffc\n".as_slice()),
    ] {
        let mut source = source(alloc, SCRIPT, failing).map_err(|_| "no memory")?;
        let read = handed_out(alloc, &mut source, 1000).map_err(|_| "no memory")?;
        assert_eq!(rt; read.last, Err(SourceFailed));
        assert_eq!(rt; read.lines.as_slice(), lines);
    }
    Ok(())
}

#[test]
fn a_line_has_at_most_256_bytes(rt: HostRuntime) -> Result<(), Fail> {
    let alloc = rt.alloc();
    let mut text = vec![in alloc; b'x'; 256]?;
    text.extend_from_slice(b"\nend\n")?;
    let mut whole = source(alloc, &text, 0).map_err(|_| "no memory")?;
    let read = handed_out(alloc, &mut whole, 1000).map_err(|_| "no memory")?;
    assert_eq!(rt; read.last, Ok(Next::End));
    assert_eq!(rt; read.lines.as_slice(), text.as_slice());

    let long = vec![in alloc; b'x'; 300]?;
    for (limit, last, taken) in [
        (1000, Next::LongLine, 257),
        (257, Next::LongLine, 257),
        (256, Next::PastLimit, 257),
    ] {
        let mut source = source(alloc, &long, 0).map_err(|_| "no memory")?;
        let read = handed_out(alloc, &mut source, limit).map_err(|_| "no memory")?;
        assert_eq!(rt; read.last, Ok(last));
        assert_eq!(rt; read.taken, taken);
    }
    Ok(())
}

#[test]
fn a_script_ends_at_the_limit(rt: HostRuntime) -> Result<(), Fail> {
    let alloc = rt.alloc();
    for (text, lines, last) in [
        (b"#\nend".as_slice(), b"#\nend\n".as_slice(), Next::End),
        (b"#\nend\n".as_slice(), b"#\n".as_slice(), Next::PastLimit),
        (
            b"#\n#\n#end".as_slice(),
            b"#\n#\n".as_slice(),
            Next::PastLimit,
        ),
    ] {
        let mut source = source(alloc, text, 0).map_err(|_| "no memory")?;
        let read = handed_out(alloc, &mut source, 5).map_err(|_| "no memory")?;
        assert_eq!(rt; read.lines.as_slice(), lines);
        assert_eq!(rt; read.last, Ok(last));
    }
    Ok(())
}

#[test]
fn lines_straddle_pieces(rt: HostRuntime) -> Result<(), Fail> {
    let alloc = rt.alloc();
    let mut text = Vec::new(alloc);
    for at in 0..20_000u16 {
        text.extend_from_slice(b"0123456")?;
        text.push((at % 100) as u8 + b' ')?;
        text.extend_from_slice(b"89\n")?;
    }
    let bytes = Vec::from_slice(alloc, &text)?;
    let mut source = MemorySource::new(bytes, 1_000_000, Vec::new(alloc));
    let read = handed_out(alloc, &mut source, 1_000_000).map_err(|_| "no memory")?;
    assert_eq!(rt; read.last, Ok(Next::End));
    assert_eq!(rt; read.taken, 220_000);
    assert_eq!(rt; read.lines.as_slice(), text.as_slice());
    Ok(())
}

#[test]
fn report_lines_are_written_in_pieces(rt: HostRuntime) -> Result<(), Fail> {
    let alloc = rt.alloc();
    for most in [1, 2, 5, 100_000] {
        let mut sink = MemorySink::new(alloc, 100_000, most, Vec::new(alloc)).map_err(
            |_| "no memory",
        )?;
        let mut writer = ReportWriter::new(alloc).map_err(|_| "no memory")?;
        let mut text = Vec::new(alloc);
        for _ in 0..7_000 {
            assert_eq!(rt; writer.push(b"0 r4 ffc 0\n"), Ok(()));
            assert_eq!(rt; writer.pass_on(&mut sink), Ok(()));
            text.extend_from_slice(b"0 r4 ffc 0\n")?;
        }
        assert_eq!(rt; sink.bytes().len(), 65_538);
        assert_eq!(rt; writer.flush(&mut sink), Ok(()));
        assert_eq!(rt; sink.bytes(), text.as_slice());
    }
    Ok(())
}

#[test]
fn what_is_not_written_stays_held(rt: HostRuntime) -> Result<(), Fail> {
    let alloc = rt.alloc();
    let mut sink = MemorySink::new(alloc, 100, 2, vec![in alloc; 3]?).map_err(|_| "no memory")?;
    let mut writer = ReportWriter::new(alloc).map_err(|_| "no memory")?;
    assert_eq!(rt; writer.push(b"refused 4\n"), Ok(()));
    assert_eq!(rt; writer.flush(&mut sink), Err(SinkFailed));
    assert_eq!(rt; sink.bytes(), b"refu".as_slice());
    assert_eq!(rt; writer.push(b"done\n"), Ok(()));
    assert_eq!(rt; writer.flush(&mut sink), Ok(()));
    assert_eq!(rt; sink.bytes(), b"refused 4\ndone\n".as_slice());
    Ok(())
}

#[test]
fn a_report_is_summed_up(rt: HostRuntime) -> Result<(), Fail> {
    let alloc = rt.alloc();
    let mut sink = MemorySink::new(alloc, 0, 1, Vec::new(alloc)).map_err(|_| "no memory")?;
    let mut outlet = Outlet::Totals(Totals::NONE);
    let mut writer = ReportWriter::new(alloc).map_err(|_| "no memory")?;
    assert_eq!(rt; writer.push(b"do"), Ok(()));
    assert_eq!(rt; writer.pass_to(&mut outlet, &mut sink), Ok(()));
    assert_eq!(rt; writer.push(b"ne\n"), Ok(()));
    assert_eq!(rt; writer.flush_to(&mut outlet, &mut sink), Ok(()));
    let totals = outlet.totals();
    assert_eq!(rt;
        (totals.lines, totals.bytes, totals.fold),
        (1, 5, 95_767_752)
    );
    Ok(())
}

#[test]
fn an_outlet_passes_a_report_on(rt: HostRuntime) -> Result<(), Fail> {
    let alloc = rt.alloc();
    let mut sink = MemorySink::new(alloc, 8, 1, Vec::new(alloc)).map_err(|_| "no memory")?;
    let mut outlet = Outlet::Sink;
    let mut writer = ReportWriter::new(alloc).map_err(|_| "no memory")?;
    assert_eq!(rt; writer.push(b"done\n"), Ok(()));
    assert_eq!(rt; writer.pass_to(&mut outlet, &mut sink), Ok(()));
    assert_eq!(rt; sink.bytes().len(), 0);
    assert_eq!(rt; writer.flush_to(&mut outlet, &mut sink), Ok(()));
    assert_eq!(rt; sink.bytes(), b"done\n".as_slice());
    Ok(())
}
