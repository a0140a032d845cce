ghost use Rattle.std.specs.Prelude.{Some};

use super::*;
use std::alloc::Global;
use std::io;
use std::io::{Error, Read, Write};
use std::test::Fail;

/// A source that gives one byte at a time.
#[derive(Drop)]
struct OneByOne(CleanSource);

impl Source for OneByOne {
    ghost left = { λ s. Some s.0 };

    ghost fault_count = { λ _. 0 };

    fn faults(&self) -> u64 {
        0
    }

    fn read(&mut self, buf: &mut [u8]) -> Result<u32, Failed> {
        self.0.read(&mut buf[..1])
    }
}

/// A reader that is always broken.
#[derive(Drop)]
struct Broken;

impl Read for Broken {
    fn read(&mut self, _buf: &mut [u8]) -> io::Result<usize> {
        Err(Error::other("broken"))
    }
}

/// A writer that takes at most so many bytes at once, and whose flush may fail.
#[derive(Drop)]
struct Narrow {
    width: usize,
    flushes: bool,
    taken: usize,
}

impl Write for Narrow {
    fn write(&mut self, buf: &[u8]) -> io::Result<usize> {
        let count = buf.len().min(self.width);
        self.taken = self.taken.saturating_add(count);
        Ok(count)
    }

    fn flush(&mut self) -> io::Result<()> {
        if self.flushes {
            Ok(())
        } else {
            Err(Error::other("not flushed"))
        }
    }
}

fn five(alloc: Global) -> Result<Vec<u8>, Fail> {
    Ok(Vec::from_array(alloc, [1, 2, 3, 4, 5])?)
}

#[test]
fn bytes_in_pieces_are_read_to_their_end(rt: HostRuntime) -> Result<(), Fail> {
    let alloc = rt.alloc();
    let mut source = OneByOne(CleanSource::new(five(alloc)?));
    let bytes = read_all(alloc, &mut source, 5)?;
    assert!(rt; bytes.as_slice() == [1, 2, 3, 4, 5].as_slice());
    let mut source = OneByOne(CleanSource::new(five(alloc)?));
    assert!(rt; read_all(alloc, &mut source, 4).err() == Some(ReadStop::TooLarge));
    Ok(())
}

#[test]
fn a_standard_reader_and_writer_pass_bytes_on(rt: HostRuntime) -> Result<(), Fail> {
    let alloc = rt.alloc();
    let text = b"to the end";
    let mut source = StdSource::new(text.as_slice());
    let bytes = read_all(alloc, &mut source, 10)?;
    assert!(rt; bytes.as_slice() == text.as_slice());
    assert_eq!(rt; source.faults(), 0);
    let mut written = Vec::new(alloc);
    let mut sink = StdSink::new(&mut written);
    sink.write(&bytes)?;
    assert_eq!(rt; sink.faults(), 0);
    assert!(rt; written.as_slice() == text.as_slice());
    Ok(())
}

#[test]
fn faults_of_the_standard_library_are_counted(rt: HostRuntime) -> Result<(), Fail> {
    let mut source = StdSource::new(Broken);
    assert!(rt; read_all(rt.alloc(), &mut source, 9).err() == Some(ReadStop::Failed));
    assert_eq!(rt; source.faults(), 1);
    for (width, flushes, faults, taken) in [(2, true, 0, 5), (0, true, 1, 0), (9, false, 1, 5)] {
        let mut sink = StdSink::new(Narrow {
            width,
            flushes,
            taken: 0,
        });
        let failed = sink.write(&[1, 2, 3, 4, 5]) == Err(SinkFault::Failed);
        assert_eq!(rt; failed, faults == 1);
        assert_eq!(rt; sink.faults(), faults);
        assert_eq!(rt; sink.into_writer().taken, taken);
    }
    Ok(())
}

#[test]
fn listed_calls_fail(rt: HostRuntime) -> Result<(), Fail> {
    let alloc = rt.alloc();
    let mut source = MemSource::new(five(alloc)?, Vec::from_array(alloc, [2, 3])?);
    assert!(rt; read_all(alloc, &mut source, 9).err() == Some(ReadStop::Failed));
    assert_eq!(rt; source.faults(), 1);
    assert!(rt; source.read(&mut [0; 4]) == Err(Failed));
    assert!(rt; source.read(&mut [0; 4]) == Ok(0));
    assert_eq!(rt; source.faults(), 2);
    let mut sink = MemSink::new(alloc, Vec::from_array(alloc, [1])?);
    assert!(rt; sink.write(b"lost") == Err(SinkFault::Failed));
    sink.write(b"kept")?;
    assert_eq!(rt; sink.faults(), 1);
    assert!(rt; sink.bytes() == b"kept".as_slice());
    Ok(())
}

#[test]
fn a_clean_sink_keeps_what_is_written(rt: HostRuntime) -> Result<(), Fail> {
    let mut sink = CleanSink::new(rt.alloc());
    sink.write(b"one ")?;
    sink.write(b"two")?;
    assert!(rt; sink.bytes() == b"one two".as_slice());
    assert_eq!(rt; sink.faults(), 0);
    Ok(())
}

#[test]
fn a_source_in_pieces_gives_so_many_at_once(rt: HostRuntime) -> Result<(), Fail> {
    let alloc = rt.alloc();
    let mut source = PieceSource::new(five(alloc)?, 2);
    let mut buf = [0; 4];
    assert!(rt; source.read(&mut buf) == Ok(2));
    assert!(rt; buf == [1, 2, 0, 0]);
    assert!(rt; source.read(&mut buf[..1]) == Ok(1));
    assert!(rt; source.read(&mut buf) == Ok(2));
    assert!(rt; buf == [4, 5, 0, 0]);
    assert!(rt; source.read(&mut buf) == Ok(0));
    assert_eq!(rt; source.faults(), 0);
    let mut source = PieceSource::new(five(alloc)?, 3);
    let bytes = read_all(alloc, &mut source, 5)?;
    assert!(rt; bytes.as_slice() == [1, 2, 3, 4, 5].as_slice());
    Ok(())
}
