//! The adapters over readers and writers that give or take a byte at a time, fail, or pass a limit, and over the
//! files of the system.

use super::{RealFiles, StdSink, StdSource, read_whole};
use fx_base::{FileError, Files, Sink, SinkFailed, Source, SourceFailed, WriteFault, put_all};
use std::fs;
use std::io::{self, ErrorKind, Read, Write};
use std::test::Fail;

/// A reader or a writer that passes on so many bytes in one call, and fails at one call.
#[derive(Drop)]
struct Narrow<T> {
    inner: T,
    width: usize,
    calls: u64,
    failing: u64,
}

impl<T> Narrow<T> {
    fn new(inner: T, width: usize, failing: u64) -> Narrow<T> {
        Narrow {
            inner,
            width,
            calls: 0,
            failing,
        }
    }

    /// How many of so many bytes the next call passes on.
    fn next(&mut self, count: usize) -> io::Result<usize> {
        self.calls = self.calls.saturating_add(1);
        if self.calls == self.failing {
            return Err(io::Error::from(ErrorKind::PermissionDenied));
        }
        Ok(count.min(self.width))
    }
}

impl<T: Read> Read for Narrow<T> {
    fn read(&mut self, buf: &mut [u8]) -> io::Result<usize> {
        let count = self.next(buf.len())?.min(buf.len());
        self.inner.read(&mut buf[..count])
    }
}

impl<T: Write> Write for Narrow<T> {
    fn write(&mut self, buf: &[u8]) -> io::Result<usize> {
        let count = self.next(buf.len())?.min(buf.len());
        self.inner.write(&buf[..count])
    }

    fn flush(&mut self) -> io::Result<()> {
        Ok(())
    }
}

#[test]
fn a_source_gives_each_byte_and_then_its_end(rt: HostRuntime) -> Result<(), Fail> {
    let bytes: [u8; 5] = [0, 255, 10, 13, 65];
    let mut source = StdSource::new(Narrow::new(bytes.as_slice(), 1, 0));
    for byte in bytes {
        assert_eq!(rt; source.byte(), Ok(Some(byte)));
    }
    assert_eq!(rt; source.byte(), Ok(None));
    assert_eq!(rt; source.byte(), Ok(None));
    assert_eq!(rt; source.faults, 0);
    Ok(())
}

#[test]
fn a_source_that_fails_loses_nothing(rt: HostRuntime) -> Result<(), Fail> {
    let bytes: [u8; 2] = [7, 8];
    let mut source = StdSource::new(Narrow::new(bytes.as_slice(), 1, 2));
    assert_eq!(rt; source.byte(), Ok(Some(7)));
    assert_eq!(rt; source.byte(), Err(SourceFailed));
    assert_eq!(rt; source.faults, 1);
    assert_eq!(rt; source.byte(), Ok(Some(8)));
    assert_eq!(rt; source.faults, 1);
    Ok(())
}

#[test]
fn a_sink_puts_all_through_a_narrow_writer(rt: HostRuntime) -> Result<(), Fail> {
    let text = b"byte after byte\n";
    for width in [1, 4, 100] {
        let inner: Vec<u8> = Vec::new(rt.alloc());
        let mut sink = StdSink::new(Narrow::new(inner, width, 0));
        assert_eq!(rt; put_all(&mut sink, text), Ok(()));
        assert_eq!(rt; sink.writer.inner.as_slice(), text.as_slice(), "{width}");
        assert_eq!(rt; sink.faults, 0);
    }
    Ok(())
}

#[test]
fn a_sink_tells_what_was_taken_before_a_fault(rt: HostRuntime) -> Result<(), Fail> {
    let inner: Vec<u8> = Vec::new(rt.alloc());
    let mut sink = StdSink::new(Narrow::new(inner, 2, 3));
    assert_eq!(rt; put_all(&mut sink, b"abcdef"), Err(WriteFault { taken: 4 }));
    assert_eq!(rt; sink.writer.inner.as_slice(), b"abcd".as_slice());
    assert_eq!(rt; sink.faults, 1);
    assert_eq!(rt; sink.put(b"ef"), Ok(2));
    assert_eq!(rt; sink.writer.inner.as_slice(), b"abcdef".as_slice());
    assert_eq!(rt; sink.faults, 1);
    Ok(())
}

#[test]
fn a_sink_that_takes_nothing_is_at_fault(rt: HostRuntime) -> Result<(), Fail> {
    let inner: Vec<u8> = Vec::new(rt.alloc());
    let mut sink = StdSink::new(Narrow::new(inner, 0, 2));
    assert_eq!(rt; sink.put(b"a"), Ok(0));
    assert_eq!(rt; sink.faults, 1);
    assert_eq!(rt; sink.put(b"a"), Err(SinkFailed));
    assert_eq!(rt; sink.faults, 2);
    assert_eq!(rt; sink.put(b""), Ok(0));
    assert_eq!(rt; sink.faults, 2);
    Ok(())
}

#[test]
fn readers_are_read_whole_up_to_the_limit(rt: HostRuntime) -> Result<(), Fail> {
    let bytes: [u8; 4] = [1, 0, 255, 4];
    for width in [1, 3, 9] {
        for limit in [4, 5, u64::MAX] {
            let read = read_whole(Narrow::new(bytes.as_slice(), width, 0), rt.alloc(), limit);
            match read {
                Ok(read) => assert_eq!(rt; read.as_slice(), bytes.as_slice(), "{limit}"),
                Err(error) => assert!(rt; false, "{error:?}"),
            }
        }
        for limit in [0, 3] {
            let read = read_whole(Narrow::new(bytes.as_slice(), width, 0), rt.alloc(), limit);
            assert!(rt; matches!(read, Err(FileError::TooLong)), "{limit}");
        }
    }
    let read = read_whole(Narrow::new(bytes.as_slice(), 1, 3), rt.alloc(), 9);
    assert!(rt; matches!(read, Err(FileError::Failed)));
    Ok(())
}

/// The file that the test writes.
const SCRATCH: &str = "adapters_scratch.bin";

#[test]
fn files_are_written_and_read_back(rt: HostRuntime) -> Result<(), Fail> {
    let mut files = RealFiles::new(&rt);
    let bytes: [u8; 6] = [70, 88, 0, 255, 10, 13];
    let missing = files.read(rt.alloc(), "no_such_file.bin", 9);
    assert!(rt; matches!(missing, Err(FileError::Missing)));
    assert_eq!(rt; files.faults, 1);
    assert_eq!(rt; files.write(rt.alloc(), SCRATCH, &bytes), Ok(()));
    match files.read(rt.alloc(), SCRATCH, 6) {
        Ok(read) => assert_eq!(rt; read.as_slice(), bytes.as_slice()),
        Err(error) => assert!(rt; false, "{error:?}"),
    }
    let long = files.read(rt.alloc(), SCRATCH, 5);
    assert!(rt; matches!(long, Err(FileError::TooLong)));
    assert_eq!(rt; files.faults, 2);
    assert_eq!(rt; files.write(rt.alloc(), SCRATCH, b"short"), Ok(()));
    match files.read(rt.alloc(), SCRATCH, 5) {
        Ok(read) => assert_eq!(rt; read.as_slice(), b"short".as_slice()),
        Err(error) => assert!(rt; false, "{error:?}"),
    }
    let nowhere = files.write(rt.alloc(), "no_such_folder/file.bin", b"lost");
    assert!(rt; matches!(nowhere, Err(FileError::Failed)));
    assert_eq!(rt; files.faults, 3);
    fs::remove_file(&rt, SCRATCH)?;
    Ok(())
}
