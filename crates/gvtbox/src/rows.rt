//! Whole scripts over sources, sinks and a device in memory, with reports that were worked out by
//! hand.
ghost use Rattle.std.specs.Prelude.{◌<◌};

use gv_engine::SoftGpu;
use gv_outside::{MemorySink, MemorySource};
use gv_run::{Status, mediate};
use std::alloc::Global;
use std::process::Abort;
use std::test::Fail;

pub(crate) struct Row {
    pub(crate) name: &'static str,
    pub(crate) script: &'static str,
    pub(crate) status: Status,
    pub(crate) report: &'static str,
}

const ROWS: [Row; 20] = [
    Row {
        name: "write and read",
        script: "guest 1 0 0\nw4 0 10 7\nr4 0 10\nend\n",
        status: Status::Done,
        report: "0 r4 10 7\n0 mem 10 7\ndone\n",
    },
    Row {
        name: "empty memory",
        script: "guest 1 0 0\nend\n",
        status: Status::Done,
        report: "done\n",
    },
    Row {
        name: "past the last frame",
        script: "guest 1 0 0\nr4 0 ffc\nr4 0 1000\nr8 0 1000\nw4 0 1000 5\nend\n",
        status: Status::Done,
        report: "0 r4 ffc 0\n0 r4 1000 ffffffff\n0 r8 1000 ffffffffffffffff\ndone\n",
    },
    Row {
        name: "truncated",
        script: "guest 1 0 0\nw4 0 10 7\nr4 0 10\n",
        status: Status::BadScript(4),
        report: "0 r4 10 7\nrefused 4\n",
    },
    Row {
        name: "nine guests",
        script: "guest 1 0 0\nguest 1 0 0\nguest 1 0 0\nguest 1 0 0\nguest 1 0 0\nguest 1 0 0\nguest 1 0 0\nguest 1 0 0\nguest 1 0 0\nend\n",
        status: Status::BadScript(9),
        report: "refused 9\n",
    },
    Row {
        name: "low range passed",
        script: "guest 1 ffff 0\nguest 1 2 0\nend\n",
        status: Status::BadScript(2),
        report: "refused 2\n",
    },
    Row {
        name: "end before any guest",
        script: "end\n",
        status: Status::BadScript(1),
        report: "refused 1\n",
    },
    Row {
        name: "nothing at all",
        script: "",
        status: Status::BadScript(1),
        report: "refused 1\n",
    },
    Row {
        name: "two guests, several values, comments, and no last line feed",
        script: "# two guests\nguest 2 0 0\nguest 1 0 0\n\nw8 0 ff8 1 2\nw4 1 ff8 3 4 5\nr8 1 ff8\nr4 0 1000\nend",
        status: Status::Done,
        report: "1 r8 ff8 400000003\n0 r4 1000 2\n0 mem ff8 1\n0 mem 1000 2\n1 mem ff8 400000003\ndone\n",
    },
    Row {
        name: "a guest after an event",
        script: "guest 1 0 0\nr4 0 0\nguest 1 0 0\nend\n",
        status: Status::BadScript(3),
        report: "0 r4 0 0\nrefused 3\n",
    },
    Row {
        name: "a guest that isn't there",
        script: "guest 1 0 0\nr4 1 0\nend\n",
        status: Status::BadScript(2),
        report: "refused 2\n",
    },
    Row {
        name: "what follows the end isn't judged",
        script: "guest 1 0 0\nend\nnonsense\n",
        status: Status::Done,
        report: "done\n",
    },
    Row {
        name: "a refused value leaves no effect of those before it",
        script: "guest 1 0 0\nw4 0 0 1 100000000\nend\n",
        status: Status::BadScript(2),
        report: "refused 2\n",
    },
    Row {
        name: "halves of a word",
        script: "guest 1 0 0\nw8 0 8 1122334455667788\nw4 0 c aabbccdd\nr4 0 8\nr4 0 c\nr8 0 8\nend\n",
        status: Status::Done,
        report: "0 r4 8 55667788\n0 r4 c aabbccdd\n0 r8 8 aabbccdd55667788\n0 mem 8 aabbccdd55667788\ndone\n",
    },
    Row {
        name: "a global entry in halves",
        script: "guest 2 1 0\nw4 0 1000 55\no4 0 800000 1001\na4 0 0\no4 0 800004 1\na4 0 0\no4 0 800004 0\na4 0 0\ni8 0 800000\nend\n",
        status: Status::Done,
        report: "0 a4 0 55\n0 a4 0 0\n0 a4 0 55\n0 i8 800000 1001\n0 mem 1000 55\ndone\n",
    },
    Row {
        name: "the PVINFO page",
        script: "guest 20 10 8\nguest 20 10 8\ni8 1 78000\ni4 1 78008\ni4 1 7800c\ni4 1 78010\ni4 1 78040\ni4 1 78044\ni4 1 78048\ni4 1 7804c\nend\n",
        status: Status::Done,
        report: "1 i8 78000 4776544776544776\n1 i4 78008 1\n1 i4 7800c 2\n1 i4 78010 1c\n1 i4 78040 10000\n1 i4 78044 10000\n1 i4 78048 10008000\n1 i4 7804c 8000\ndone\n",
    },
    Row {
        name: "an engine reset and a function reset",
        script: "guest 1 0 0\no4 0 2030 5\ni4 0 2030\no4 0 44304 0\ni4 0 44304\no4 0 44304 1\no4 0 941c 2\ni4 0 2030\ni4 0 44304\ni4 0 12030\nreset 0\ni4 0 44304\nend\n",
        status: Status::Done,
        report: "0 i4 2030 5\n0 i4 44304 0\n0 i4 2030 0\n0 i4 44304 1\n0 i4 12030 0\n0 reset\n0 i4 44304 ffffffff\ndone\n",
    },
    Row {
        name: "the aperture reaches the low range alone",
        script: "guest 2 1 1\nw8 0 1008 1122334455667788\no8 0 800000 1003 0\no8 0 880000 1001\na8 0 8\na4 0 c\nb4 0 8 9\na4 0 1000\na8 0 10000008\nb8 0 10000008 5\nr8 0 1008\nb8 0 0 6 7\nr8 0 1008\nend\n",
        status: Status::Done,
        report: "0 a8 8 1122334455667788\n0 a4 c 11223344\n0 a4 1000 0\n0 a8 10000008 0\n0 r8 1008 1122334400000009\n0 r8 1008 7\n0 mem 1000 6\n0 mem 1008 7\ndone\n",
    },
    Row {
        name: "interrupts by IER and by master",
        script: "guest 1 0 0\no8 0 44308 ffffffff00000000\no4 0 44200 80000000\ni4 0 44200\ni8 0 44308\no4 0 44200 0\ni4 0 44200\nend\n",
        status: Status::Done,
        report: "0 i4 44200 80000000\n0 i8 44308 ffffffff00000000\n0 i4 44200 0\ndone\n",
    },
    Row {
        name: "two guests have entries of their own",
        script: "guest 2 1 0\nguest 2 1 0\no8 0 800000 1001\ni8 1 800000\no8 1 800000 1001\ni8 0 800008\no8 1 800008 1001\nw4 1 1000 5\na4 1 1000\na4 1 0\na4 0 0\nreset 1\na4 1 1000\ni8 0 800000\nend\n",
        status: Status::Done,
        report: "1 i8 800000 0\n0 i8 800008 0\n1 a4 1000 5\n1 a4 0 0\n0 a4 0 0\n1 reset\n1 a4 1000 0\n0 i8 800000 1001\n1 mem 1000 5\ndone\n",
    },
];

// Runs a script over a source that gives at most `read` bytes a call and a sink that takes at most
// `written`, and answers the status and what was written.
fn run(
    alloc: Global,
    words: &[&str],
    script: &str,
    read: usize,
    written: usize,
) -> Result<(Status, Vec<u8>), Fail>
    requires read { 0 < read }
    requires written { 0 < written }
{
    let bytes = Vec::from_slice(alloc, script.as_bytes())?;
    let mut source = MemorySource::new(bytes, read, Vec::new(alloc));
    let mut sink = MemorySink::new(alloc, 4096, written, Vec::new(alloc))?;
    let mut gpu = SoftGpu::new(alloc);
    let status = mediate(alloc, words, &mut source, &mut sink, &mut gpu);
    Ok((status, Vec::from_slice(alloc, sink.bytes())?))
}

// A row's script gives its report, over such a source and such a sink.
pub(crate) fn check_row(
    rt: &impl Abort,
    alloc: Global,
    row: &Row,
    read: usize,
    written: usize,
) -> Result<(), Fail>
    requires read { 0 < read }
    requires written { 0 < written }
{
    let (status, report) = run(alloc, &["run"], row.script, read, written)?;
    assert_eq!(rt; status, row.status, "{}", row.name);
    assert_eq!(rt; report.as_slice(), row.report.as_bytes(), "{}", row.name);
    Ok(())
}

#[test]
fn worked_scripts(rt: HostRuntime) -> Result<(), Fail> {
    for row in &ROWS {
        for (read, written) in [(1, 5), (2, 1), (3, 2), (7, 65_536), (65_536, 1)] {
            check_row(&rt, rt.alloc(), row, read, written)?;
        }
    }
    Ok(())
}

#[test]
fn words_that_are_no_command(rt: HostRuntime) -> Result<(), Fail> {
    let script = "guest 1 0 0\nend\n";
    for words in [
        [].as_slice(),
        &["run", "x"],
        &["walk"],
        &[""],
        &["run "],
        &["gen"],
        &["gen", "4294967296"],
        &["--help"],
        &["-V"],
    ] {
        let (status, report) = run(rt.alloc(), words, script, 65_536, 65_536)?;
        assert_eq!(rt; status, Status::BadWords);
        assert_eq!(rt; status.code(), 2);
        assert_eq!(rt; report.len(), 0);
    }
    Ok(())
}

// Runs a script from a source that gives one byte a call and fails at one call, to a sink that fails at
// one call, 0 being none.
fn run_failing(
    alloc: Global,
    script: &str,
    failing_read: u64,
    failing_write: u64,
) -> Result<(Status, Vec<u8>), Fail> {
    let bytes = Vec::from_slice(alloc, script.as_bytes())?;
    let mut source = MemorySource::new(bytes, 1, Vec::from_slice(alloc, &[failing_read])?);
    let mut sink = MemorySink::new(
        alloc,
        4096,
        65_536,
        Vec::from_slice(alloc, &[failing_write])?,
    )?;
    let mut gpu = SoftGpu::new(alloc);
    let status = mediate(alloc, &["run"], &mut source, &mut sink, &mut gpu);
    Ok((status, Vec::from_slice(alloc, sink.bytes())?))
}

// The script has 16 bytes, and nothing behind its `end` line is read.
#[test]
fn a_read_that_fails_before_the_end_is_a_fault(rt: HostRuntime) -> Result<(), Fail> {
    for call in 1..19u64 {
        let (status, report) = run_failing(rt.alloc(), "guest 1 0 0\nend\n", call, 0)?;
        let expected = if call <= 16 {
            (Status::ReadFault, b"".as_slice())
        } else {
            (Status::Done, b"done\n".as_slice())
        };
        assert_eq!(rt; status, expected.0, "at call {call}");
        assert_eq!(rt; report.as_slice(), expected.1, "at call {call}");
    }
    Ok(())
}

// The second line's line feed is the 21st byte: what it says is written where that was taken.
#[test]
fn a_line_is_run_as_soon_as_its_line_feed_was_taken(rt: HostRuntime) -> Result<(), Fail> {
    let script = "guest 1 0 0\nr4 0 ffc\nr4 0 1000\nend\n";
    for (read, write, status, report) in [
        (21, 0, Status::ReadFault, b"".as_slice()),
        (22, 0, Status::ReadFault, b"0 r4 ffc 0\n".as_slice()),
        (22, 1, Status::WriteFault, b"".as_slice()),
        (
            32,
            0,
            Status::ReadFault,
            b"0 r4 ffc 0\n0 r4 1000 ffffffff\n".as_slice(),
        ),
    ] {
        let was = run_failing(rt.alloc(), script, read, write)?;
        assert_eq!(rt; was.0, status, "at call {read}");
        assert_eq!(rt; was.1.as_slice(), report, "at call {read}");
    }
    Ok(())
}

// A line of 256 bytes is one, and one of more is refused at its 257th byte.
#[test]
fn a_line_has_at_most_256_bytes(rt: HostRuntime) -> Result<(), Fail> {
    let alloc = rt.alloc();
    for (length, failing, status, report) in [
        (256, 0, Status::Done, b"done\n".as_slice()),
        (257, 0, Status::BadScript(1), b"refused 1\n".as_slice()),
        (257, 258, Status::BadScript(1), b"refused 1\n".as_slice()),
        (257, 257, Status::ReadFault, b"".as_slice()),
    ] {
        let mut script = String::new(alloc);
        for _ in 0..length {
            script.push('#')?;
        }
        script.push_str("\nguest 1 0 0\nend\n")?;
        let was = run_failing(alloc, &script, failing, 0)?;
        assert_eq!(rt; was.0, status, "{length} bytes");
        assert_eq!(rt; was.1.as_slice(), report, "{length} bytes");
    }
    Ok(())
}

#[test]
fn a_write_that_fails_leaves_a_front(rt: HostRuntime) -> Result<(), Fail> {
    let alloc = rt.alloc();
    for call in 1..7u64 {
        let bytes = Vec::from_slice(alloc, b"guest 1 0 0\nend\n")?;
        let mut source = MemorySource::new(bytes, 65_536, Vec::new(alloc));
        let mut sink = MemorySink::new(alloc, 4096, 1, Vec::from_slice(alloc, &[call])?)?;
        let status = mediate(
            alloc,
            &["run"],
            &mut source,
            &mut sink,
            &mut SoftGpu::new(alloc),
        );
        let written: [&[u8]; 7] = [b"", b"", b"d", b"do", b"don", b"done", b"done\n"];
        let expected = if call <= 5 {
            Status::WriteFault
        } else {
            Status::Done
        };
        assert_eq!(rt; status, expected, "at call {call}");
        assert_eq!(rt; sink.bytes(), written[call as usize], "at call {call}");
    }
    Ok(())
}

// A sink without room takes nothing.
#[test]
fn a_full_sink_is_a_fault(rt: HostRuntime) -> Result<(), Fail> {
    let alloc = rt.alloc();
    let bytes = Vec::from_slice(alloc, b"guest 1 0 0\nend\n")?;
    let mut source = MemorySource::new(bytes, 65_536, Vec::new(alloc));
    let mut sink = MemorySink::new(alloc, 3, 65_536, Vec::new(alloc))?;
    let status = mediate(
        alloc,
        &["run"],
        &mut source,
        &mut sink,
        &mut SoftGpu::new(alloc),
    );
    assert_eq!(rt; status, Status::WriteFault);
    assert_eq!(rt; sink.bytes(), b"don".as_slice());
    Ok(())
}

// At the limit of 67,108,864 bytes a script of notes of 256 bytes each ends without `end` at the
// line after the last, which is 0x40001. One byte more is too long.
#[test]
fn the_limit_of_a_script(rt: HostRuntime) -> Result<(), Fail> {
    let alloc = rt.alloc();
    for (length, expected, text) in [
        (
            67_108_864usize,
            Status::BadScript(0x4_0001),
            b"refused 40001\n".as_slice(),
        ),
        (67_108_865, Status::TooLong, b"too long\n".as_slice()),
    ] {
        let mut bytes = vec![in alloc; b'#'; length]?;
        for end in bytes.iter_mut().skip(255).step_by(256) {
            *end = b'\n';
        }
        let mut source = MemorySource::new(bytes, usize::MAX, Vec::new(alloc));
        let mut sink = MemorySink::new(alloc, 64, 64, Vec::new(alloc))?;
        let status = mediate(
            alloc,
            &["run"],
            &mut source,
            &mut sink,
            &mut SoftGpu::new(alloc),
        );
        assert_eq!(rt; status, expected);
        assert_eq!(rt; sink.bytes(), text);
    }
    Ok(())
}
