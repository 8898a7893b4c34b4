//! Sources and sinks: what a failed write leaves, and readers and writers of std.

use ct_io::{MemSink, Sink, Source, StdSink, StdSource, write_all};
use std::alloc::{AllocError, Global};
use std::io::{self, ErrorKind, Read, Write};
use std::test::Fail;

const TEXT: &[u8] = b"first\n\nthird line\nlast";

/// Whether a sink with so much room, some of whose writes fail, keeps just this of the text, with so many faults.
fn keeps(
    alloc: Global,
    room: usize,
    failing: &[u32],
    kept: &[u8],
    faults: u64,
) -> Result<bool, AllocError> {
    let mut sink = MemSink::new(alloc, room, failing.to_vec(alloc)?, 16)?;
    let is_written = write_all(&mut sink, TEXT).is_ok();
    Ok(is_written == (faults == 0) && sink.bytes.as_slice() == kept && sink.faults == faults)
}

#[test]
fn a_failed_write_keeps_a_prefix(rt: HostRuntime) -> Result<(), Fail> {
    let alloc = rt.alloc();
    assert!(rt; keeps(alloc, 64, &[1], b"first\n\nthird lin", 1)?);
    assert!(rt; keeps(alloc, 20, &[], b"first\n\nthird line\nla", 1)?);
    assert!(rt; keeps(alloc, 22, &[], TEXT, 0)?);
    Ok(())
}

/// A reader and a writer whose next calls fail, so many of them. The later ones read nothing, and write all.
#[derive(Drop)]
struct Faltering {
    failures: u32,
    // Whether a write fails by taking nothing, and not by an error.
    idle: bool,
}

impl Read for Faltering {
    fn read(&mut self, _buf: &mut [u8]) -> io::Result<usize> {
        if self.failures == 0 {
            return Ok(0);
        }
        self.failures -= 1;
        Err(ErrorKind::BrokenPipe.into())
    }
}

impl Write for Faltering {
    fn write(&mut self, buf: &[u8]) -> io::Result<usize> {
        if self.failures == 0 {
            return Ok(buf.len());
        }
        self.failures -= 1;
        if self.idle {
            return Ok(0);
        }
        Err(ErrorKind::BrokenPipe.into())
    }

    fn flush(&mut self) -> io::Result<()> {
        Ok(())
    }
}

#[test]
fn each_failure_of_std_is_counted_and_answered(rt: HostRuntime) {
    let mut source = StdSource {
        inner: Faltering {
            failures: 2,
            idle: false,
        },
        faults: 0,
    };
    for (failures, faults) in [(1, 1), (0, 2)] {
        assert!(rt; source.read(&mut [0; 4]).is_err());
        assert!(rt; (source.inner.failures, source.faults) == (failures, faults));
    }
    assert!(rt; matches!(source.read(&mut [0; 4]), Ok(0)));
    assert!(rt; source.faults == 2);

    for idle in [false, true] {
        let mut sink = StdSink {
            inner: Faltering { failures: 2, idle },
            faults: u64::MAX - 1,
        };
        for failures in [1, 0] {
            assert!(rt; sink.write(TEXT).is_err());
            assert!(rt; (sink.inner.failures, sink.faults) == (failures, u64::MAX));
        }
        assert!(rt; matches!(sink.write(TEXT), Ok(22)));
    }
}

#[test]
fn readers_and_writers_of_std_are_passed_on(rt: HostRuntime) -> Result<(), Fail> {
    let mut source = StdSource {
        inner: TEXT,
        faults: 0,
    };
    let mut into = [0; 6];
    assert!(rt; matches!(source.read(&mut into), Ok(6)));
    assert!(rt; into == *b"first\n");
    assert!(rt; source.faults == 0);

    let mut room = [0; 5];
    let mut sink = StdSink {
        inner: room.as_mut_slice(),
        faults: 0,
    };
    assert!(rt; write_all(&mut sink, TEXT).is_err());
    assert!(rt; sink.faults == 1);
    assert!(rt; room == *b"first");
    Ok(())
}
