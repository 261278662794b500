//! What no clause says: that calls over a reader and a writer succeed, or count a fault.

use moka_ends::{ReadSource, Sink, Source, WriteSink, write_all};
use std::io::{self, Read, Write};

/// Fails each time.
#[derive(Drop)]
struct Broken;

impl Read for Broken {
    fn read(&mut self, _buf: &mut [u8]) -> io::Result<usize> {
        Err(io::Error::from(io::ErrorKind::BrokenPipe))
    }
}

/// Takes nothing.
#[derive(Drop)]
struct Full;

impl Write for Full {
    fn write(&mut self, _buf: &[u8]) -> io::Result<usize> {
        Ok(0)
    }

    fn flush(&mut self) -> io::Result<()> {
        Ok(())
    }
}

/// Takes at most three bytes a call, and keeps them.
#[derive(Drop)]
struct Narrow {
    bytes: Vec<u8>,
}

impl Write for Narrow {
    fn write(&mut self, buf: &[u8]) -> io::Result<usize> {
        let count = buf.len().min(3);
        self.bytes.extend_from_slice(&buf[..count])?;
        Ok(count)
    }

    fn flush(&mut self) -> io::Result<()> {
        Ok(())
    }
}

/// Whether the whole is written without a fault.
fn writes_all(sink: &mut WriteSink<Narrow>) -> bool {
    let ended = write_all(sink, b"answer none\n");
    let bytes = sink.output.bytes.as_slice();
    ended.is_ok() && bytes == b"answer none\n".as_slice() && sink.faults == 0
}

#[test]
fn short_writes_come_to_the_whole(rt: HostRuntime) {
    let bytes = Vec::new(rt.alloc());
    let mut sink = WriteSink::new(Narrow { bytes });
    let is_so = writes_all(&mut sink);
    drop(sink);
    assert!(rt; is_so);
}

#[test]
fn each_failing_read_is_a_fault(rt: HostRuntime) {
    let mut source = ReadSource::new(Broken);
    for faults in 1..4 {
        assert!(rt; source.read(&mut [0; 4]).is_err());
        assert!(rt; source.faults == faults);
    }
}

#[test]
fn a_writer_that_takes_nothing_is_a_fault(rt: HostRuntime) {
    let mut sink = WriteSink::new(Full);
    assert!(rt; sink.write(b"moka").is_err());
    assert!(rt; sink.faults == 1);
    assert!(rt; matches!(sink.write(b""), Ok(0)));
    assert!(rt; sink.faults == 1);
}
