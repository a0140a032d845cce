use crate::faults::one_more;
use crate::sink::{Sink, SinkFault};
use crate::source::{Failed, Source};
use std::io::{Read, Write};

/// A reader of std as a source. It tells what the reader tells, which for the standard input is nothing.
#[derive(Drop)]
pub struct StdSource<R> {
    reader: R,
    faults: u64,
}

/// A writer of std as a sink. It tells what the writer tells, which for the standard output is nothing.
#[derive(Drop)]
pub struct StdSink<W> {
    writer: W,
    faults: u64,
}

ghost use Rattle.std.specs.Prelude.{◌≡◌, ◌≤◌, Option};
ghost use Rattle.far_outside.specs.Faults.{Rose};

impl<R: Read> StdSource<R> {
    /// A source over this reader, with no faults.
    pub fn new(reader: R) -> Self
        ensures left { ⟦<StdSource<R> as Source>⟧.left result ≡ R.remaining reader }
        ensures none { ⟦<StdSource<R> as Source>⟧.fault_count result ≡ 0 }
    {
        StdSource { reader, faults: 0 }
    }
}

impl<R: Read> Source for StdSource<R> {
    ghost left = { λ s. R.remaining s.reader };

    ghost fault_count = { λ s. s.faults };

    fn faults(&self) -> u64 {
        self.faults
    }

    fn read(&mut self, buf: &mut [u8]) -> Result<u32, Failed> {
        match self.reader.read(buf) {
            Ok(count) => Ok(count as u32),
            Err(_) => {
                self.faults = one_more(self.faults);
                Err(Failed)
            }
        }
    }
}

impl<W: Write> StdSink<W> {
    /// A sink over this writer, with no faults.
    pub fn new(writer: W) -> Self
        ensures written { ⟦<StdSink<W> as Sink>⟧.written result ≡ W.contents writer }
        ensures none { ⟦<StdSink<W> as Sink>⟧.fault_count result ≡ 0 }
    {
        StdSink { writer, faults: 0 }
    }

    /// The writer, with what it took.
    pub fn into_writer(self) -> W
        ensures { ⟦<StdSink<W> as Sink>⟧.written self ≡ W.contents result }
    {
        self.writer
    }

    fn failed(&mut self) -> SinkFault
        ensures fault { result ≡ SinkFault.Failed }
        ensures writer { self.new.writer ≡ self.old.writer }
        ensures later { self.old.faults ≤ self.new.faults }
        ensures cause { Rose self.old.faults self.new.faults }
    {
        self.faults = one_more(self.faults);
        SinkFault::Failed
    }
}

impl<W: Write> Sink for StdSink<W> {
    ghost written = { λ s. W.contents s.writer };

    ghost fault_count = { λ s. s.faults };

    fn faults(&self) -> u64 {
        self.faults
    }

    /// Writes until the writer has taken the piece, and then flushes. A write that takes nothing is
    /// a fault.
    #[tactic(auto, using(crate::proofs::Writing::put_none, crate::proofs::Writing::put_more, crate::proofs::Writing::put_front, crate::proofs::Writing::put_stuck, crate::proofs::Writing::put_all))]
    fn write(&mut self, piece: &[u8]) -> Result<(), SinkFault> {
        let mut rest = piece;
        while !rest.is_empty() {
            match self.writer.write(rest) {
                Ok(0) => return Err(self.failed()),
                Err(_) => return Err(self.failed()),
                Ok(count) => rest = &rest[count..],
            }
        }
        match self.writer.flush() {
            Ok(()) => Ok(()),
            Err(_) => Err(self.failed()),
        }
    }
}
