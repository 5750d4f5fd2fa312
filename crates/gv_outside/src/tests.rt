use crate::{MemorySink, MemorySource, Sink, SinkFailed, Source, SourceFailed, StdSink, StdSource};
use std::alloc::Global;
use std::io;
use std::io::{Error, ErrorKind, Read, Write};
use std::test::Fail;

fn failing(alloc: Global, call: u64) -> Result<Vec<u64>, Fail> {
    Ok(vec![in alloc; call]?)
}

#[test]
fn a_memory_source_gives_pieces(rt: HostRuntime) -> Result<(), Fail> {
    let alloc = rt.alloc();
    let bytes = b"abcdefg".to_vec(alloc)?;
    let mut source = MemorySource::new(bytes, 3, failing(alloc, 2)?);
    let mut four = [0u8; 4];
    let mut two = [0u8; 2];
    assert_eq!(rt; source.read(&mut four), Ok(3));
    assert_eq!(rt; &four[..3], b"abc".as_slice());
    assert_eq!(rt; source.read(&mut four), Err(SourceFailed));
    assert_eq!(rt; source.read(&mut two), Ok(2));
    assert_eq!(rt; two.as_slice(), b"de".as_slice());
    assert_eq!(rt; source.read(&mut four), Ok(2));
    assert_eq!(rt; &four[..2], b"fg".as_slice());
    assert_eq!(rt; source.read(&mut four), Ok(0));
    Ok(())
}

#[test]
fn a_memory_sink_takes_pieces(rt: HostRuntime) -> Result<(), Fail> {
    let alloc = rt.alloc();
    let mut sink = MemorySink::new(alloc, 5, 3, failing(alloc, 2)?)?;
    assert_eq!(rt; sink.write(b"abcdefg"), Ok(3));
    assert_eq!(rt; sink.write(b"defg"), Err(SinkFailed));
    assert_eq!(rt; sink.write(b"defg"), Ok(2));
    assert_eq!(rt; sink.write(b"fg"), Err(SinkFailed));
    assert_eq!(rt; sink.write(b""), Ok(0));
    assert_eq!(rt; sink.bytes(), b"abcde".as_slice());
    Ok(())
}

// A reader or writer over four bytes whose first call is interrupted and whose third one fails.
#[derive(Drop)]
struct Shaky {
    bytes: [u8; 4],
    calls: u8,
    flushed: bool,
}

impl Shaky {
    fn next_call(&mut self) -> io::Result<()> {
        self.calls = self.calls.saturating_add(1);
        match self.calls {
            1 => Err(Error::from(ErrorKind::Interrupted)),
            3 => Err(Error::from(ErrorKind::BrokenPipe)),
            _ => Ok(()),
        }
    }
}

impl Read for Shaky {
    fn read(&mut self, buf: &mut [u8]) -> io::Result<usize> {
        self.next_call()?;
        let count = buf.len().min(4);
        buf[..count].copy_from_slice(&self.bytes[..count]);
        Ok(count)
    }
}

impl Write for Shaky {
    fn write(&mut self, buf: &[u8]) -> io::Result<usize> {
        self.next_call()?;
        let count = buf.len().min(4);
        self.bytes[..count].copy_from_slice(&buf[..count]);
        Ok(count)
    }

    fn flush(&mut self) -> io::Result<()> {
        self.flushed = true;
        Ok(())
    }
}

#[test]
fn a_reader_is_a_source(rt: HostRuntime) -> Result<(), Fail> {
    let mut source = StdSource::new(Shaky {
        bytes: *b"abcd",
        calls: 0,
        flushed: false,
    });
    let mut into = [0u8; 3];
    assert_eq!(rt; source.read(&mut into), Ok(3));
    assert_eq!(rt; into.as_slice(), b"abc".as_slice());
    assert_eq!(rt; source.read(&mut into), Err(SourceFailed));
    Ok(())
}

#[test]
fn a_writer_is_a_sink(rt: HostRuntime) -> Result<(), Fail> {
    let mut shaky = Shaky {
        bytes: *b"....",
        calls: 0,
        flushed: false,
    };
    let mut sink = StdSink::new(&mut shaky);
    assert_eq!(rt; sink.write(b"abc"), Ok(3));
    assert_eq!(rt; sink.write(b"xyz"), Err(SinkFailed));
    assert_eq!(rt; sink.flush(), Ok(()));
    assert_eq!(rt; shaky.bytes.as_slice(), b"abc.".as_slice());
    assert_eq!(rt; shaky.flushed, true);
    Ok(())
}

// A writer that takes nothing, and whose flush fails.
#[derive(Drop)]
struct Stuck {
    calls: u8,
}

impl Write for Stuck {
    fn write(&mut self, _: &[u8]) -> io::Result<usize> {
        self.calls = self.calls.saturating_add(1);
        Ok(0)
    }

    fn flush(&mut self) -> io::Result<()> {
        Err(Error::from(ErrorKind::BrokenPipe))
    }
}

#[test]
fn a_stuck_writer_is_a_fault_at_once(rt: HostRuntime) -> Result<(), Fail> {
    let mut stuck = Stuck { calls: 0 };
    let mut sink = StdSink::new(&mut stuck);
    assert_eq!(rt; sink.write(b""), Ok(0));
    assert_eq!(rt; sink.write(b"abc"), Err(SinkFailed));
    assert_eq!(rt; sink.flush(), Err(SinkFailed));
    assert_eq!(rt; stuck.calls, 2);
    Ok(())
}
