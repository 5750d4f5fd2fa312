//! The command `gen`: the summaries of the reports of scripts that numbers make, which another program worked out.
use gv_engine::SoftGpu;
use gv_gen::Script;
use gv_outside::{MemorySink, MemorySource};
use gv_run::{Status, mediate};
use gv_text::Line;
use gv_types::{Place, Width};
use std::alloc::Global;
use std::test::Fail;

const SUMMARY_OF_0: &str = "lines c9e\nbytes cd9b\nfold a4132724843ad2cc\n";

const SUMMARY_OF_1: &str = "lines c61\nbytes c975\nfold fd1a848fd94a7c06\n";

// Runs `gen` with a number, over a source that fails, and a sink that takes at most five bytes a call and fails at one
// call, 0 being none.
fn summed_up(alloc: Global, number: &str, failing: u64) -> Result<(Status, Vec<u8>), Fail> {
    let words = ["gen", number];
    let mut source = MemorySource::new(Vec::new(alloc), 1, Vec::from_slice(alloc, &[1])?);
    let mut sink = MemorySink::new(alloc, 64, 5, Vec::from_slice(alloc, &[failing])?)?;
    let mut gpu = SoftGpu::new(alloc);
    let status = mediate(alloc, &words, &mut source, &mut sink, &mut gpu);
    Ok((status, Vec::from_slice(alloc, sink.bytes())?))
}

#[test]
fn summaries_of_numbers(rt: HostRuntime) -> Result<(), Fail> {
    for (number, summary) in [
        ("0", SUMMARY_OF_0),
        ("1", SUMMARY_OF_1),
        ("2", "lines c81\nbytes ca7c\nfold a2f220d9d18f0d2e\n"),
        ("7", "lines ca5\nbytes cc70\nfold c63af350ab86e568\n"),
        ("12345", "lines c73\nbytes c96d\nfold 1e4c23505157b8b8\n"),
        (
            "4294967295",
            "lines c7a\nbytes c9b1\nfold 4e26afb26ab4c049\n",
        ),
    ] {
        let (status, written) = summed_up(rt.alloc(), number, 0)?;
        assert_eq!(rt; status, Status::Done);
        assert_eq!(rt; written.as_slice(), summary.as_bytes(), "of {number}");
    }
    Ok(())
}

#[test]
fn a_summary_that_is_cut_off(rt: HostRuntime) -> Result<(), Fail> {
    for (failing, front) in [
        (1, b"".as_slice()),
        (3, b"lines c9e\n".as_slice()),
        (5, b"lines c9e\nbytes cd9b".as_slice()),
    ] {
        let (status, written) = summed_up(rt.alloc(), "0", failing)?;
        assert_eq!(rt; status, Status::WriteFault);
        assert_eq!(rt; written.as_slice(), front);
    }
    Ok(())
}

fn access(place: Place, width: Width, letters: [&'static str; 3]) -> (&'static str, u32) {
    let letter = match place {
        Place::Memory => letters[0],
        Place::Registers => letters[1],
        Place::Aperture => letters[2],
    };
    match width {
        Width::Four => (letter, 4),
        Width::Eight => (letter, 8),
    }
}

// Spells a line of a script.
fn spell(alloc: Global, text: &mut String, line: &Line) -> Result<(), Fail> {
    let spelled = match line {
        Line::Guest(guest) => {
            format!(in alloc; "guest {:x} {:x} {:x}", guest.frames, guest.low, guest.high)?
        }
        Line::Read {
            guest,
            place,
            width,
            at,
        } => {
            let (letter, bytes) = access(*place, *width, ["r", "i", "a"]);
            format!(in alloc; "{letter}{bytes} {guest:x} {at:x}")?
        }
        Line::Write {
            guest,
            place,
            width,
            at,
            values,
        } => {
            let (letter, bytes) = access(*place, *width, ["w", "o", "b"]);
            let mut written = format!(in alloc; "{letter}{bytes} {guest:x} {at:x}")?;
            for value in values.as_slice() {
                let word = format!(in alloc; " {value:x}")?;
                written.push_str(&word)?;
            }
            written
        }
        Line::Elsp {
            guest,
            engine,
            second,
            first,
        } => format!(in alloc; "elsp {guest:x} {engine:x} {second:x} {first:x}")?,
        Line::Turn { engine, count } => format!(in alloc; "turn {engine:x} {count:x}")?,
        Line::Switch { engine } => format!(in alloc; "switch {engine:x}")?,
        Line::Move { guest, frame } => format!(in alloc; "move {guest:x} {frame:x}")?,
        Line::Reset { guest } => format!(in alloc; "reset {guest:x}")?,
        Line::End => format!(in alloc; "end")?,
        Line::Blank => String::new(alloc),
    };
    text.push_str(&spelled)?;
    text.push_str("\n")?;
    Ok(())
}

// The same script, spelled out and run, has a report with this summary.
#[test]
fn a_report_and_its_summary(rt: HostRuntime) -> Result<(), Fail> {
    let alloc = rt.alloc();
    let mut text = String::new(alloc);
    for line in Script::new(1) {
        spell(alloc, &mut text, &line)?;
    }
    let bytes = Vec::from_slice(alloc, text.as_bytes())?;
    let mut source = MemorySource::new(bytes, 65_536, Vec::new(alloc));
    let mut sink = MemorySink::new(alloc, 65_536, 65_536, Vec::new(alloc))?;
    let mut gpu = SoftGpu::new(alloc);
    let status = mediate(alloc, &["run"], &mut source, &mut sink, &mut gpu);
    assert_eq!(rt; status, Status::Done);
    let (mut lines, mut fold) = (0u32, 0u64);
    for byte in sink.bytes() {
        if *byte == b'\n' {
            lines = lines.wrapping_add(1);
        }
        fold = fold.wrapping_mul(31).wrapping_add(u64::from(*byte));
    }
    let count = sink.bytes().len();
    let summary = format!(in alloc; "lines {lines:x}\nbytes {count:x}\nfold {fold:x}\n")?;
    assert_eq!(rt; summary.as_str(), SUMMARY_OF_1);
    Ok(())
}
