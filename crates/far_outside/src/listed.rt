use crate::faults::one_more;
use crate::fill::fill;
use crate::sink::{Sink, SinkFault};
use crate::source::{Failed, Source};
use std::alloc::Global;
use std::marker::Model;

/// Bytes in memory as a source whose listed calls fail. Contracts see the bytes that are left, the
/// number of calls so far, the list, and the count of faults.
#[derive(Drop)]
pub struct MemSource {
    bytes: Vec<u8>,
    at: usize,
    calls: u64,
    fails: Vec<u64>,
    faults: u64,
}

impl Model for MemSource {
    ghost use Rattle.std.specs.Prelude.{◌≤◌, drop, vec_len};
    ghost use Rattle.far_outside.specs.Listed.{ListedSource};

    ghost Value = { ListedSource };

    ghost view = { λ s. record {
      left = drop s.at s.bytes.items;
      calls = s.calls;
      fails = s.fails.items;
      faults =
          s.faults;
    } };

    ghost invariant = { λ s. s.at ≤ vec_len s.bytes };
}

/// A sink in memory whose listed calls fail; those write nothing. Contracts see the bytes that were
/// written, the number of calls so far, the list, and the count of faults.
#[derive(Drop)]
pub struct MemSink {
    bytes: Vec<u8>,
    calls: u64,
    fails: Vec<u64>,
    faults: u64,
}

impl Model for MemSink {
    ghost use Rattle.far_outside.specs.Listed.{ListedSink};

    ghost Value = { ListedSink };

    ghost view = { λ s. record { written = s.bytes.items; calls = s.calls; fails = s.fails.items; faults = s.faults } };
}

ghost use Rattle.std.specs.Prelude.{◌≡◌, ◌≤◌, ◌<◌, ◌^◌, ◌↔◌, [], length, Option, Some, IfOk, OnOk, OnErr, IsErr};
ghost use Rattle.std.specs.Prelude.{IsErrOf, IsTrue};
ghost use Rattle.far_outside.specs.Bytes.{Takes, Puts};
ghost use Rattle.far_outside.specs.Faults.{Rose, counted};
ghost use Rattle.far_outside.specs.Listed.{is_listed};

impl MemSource {
    /// A source that has these bytes left and whose calls of these numbers, counted from 1, fail.
    pub fn new(bytes: Vec<u8>, fails: Vec<u64>) -> Self
        ensures { result ≡ record { left = bytes.items; calls = 0; fails = fails.items; faults = 0 } }
    {
        MemSource {
            bytes,
            at: 0,
            calls: 0,
            fails,
            faults: 0,
        }
    }
}

impl Source for MemSource {
    ghost left = { λ s. Some s.left };

    ghost fault_count = { λ s. s.faults };

    fn faults(&self) -> u64 {
        self.faults
    }

    /// `Failed` exactly where the number of this call is listed. At the greatest `u64` the number of
    /// calls stays.
    fn read(&mut self, buf: &mut [u8]) -> Result<u32, Failed>
        requires some { 0 < length buf.old }
        requires small { length buf.old < 2 ^ 32 }
        ensures bound { IfOk result (λ n. n ≤ length buf.new) }
        ensures bytes { Takes (Some self.old.left) (Some self.new.left) result buf.new }
        ensures still { OnOk result (self.new.faults ≡ self.old.faults) }
        ensures later { self.old.faults ≤ self.new.faults }
        ensures cause { OnErr result (Rose self.old.faults self.new.faults) }
        ensures calls { self.new.calls ≡ counted self.old.calls }
        ensures same { self.new.fails ≡ self.old.fails }
        ensures listed { IsErr result ↔ IsTrue (is_listed self.old.fails self.new.calls) }
    {
        self.calls = one_more(self.calls);
        if self.fails.contains(&self.calls) {
            self.faults = one_more(self.faults);
            return Err(Failed);
        }
        let count = fill(&self.bytes[self.at..], buf);
        self.at += count;
        Ok(count as u32)
    }
}

impl MemSink {
    /// A sink to which nothing was written and whose calls of these numbers, counted from 1, fail.
    pub fn new(alloc: Global, fails: Vec<u64>) -> Self
        ensures { result ≡ record { written = []; calls = 0; fails = fails.items; faults = 0 } }
    {
        MemSink {
            bytes: Vec::new(alloc),
            calls: 0,
            fails,
            faults: 0,
        }
    }

    /// The bytes that were written.
    pub fn bytes(&self) -> &[u8]
        ensures { result.now ≡ self.now.written }
    {
        &self.bytes
    }
}

impl Sink for MemSink {
    ghost written = { λ s. Some s.written };

    ghost fault_count = { λ s. s.faults };

    fn faults(&self) -> u64 {
        self.faults
    }

    /// `Failed` exactly where the number of this call is listed; nothing was appended then. At the
    /// greatest `u64` the number of calls stays.
    fn write(&mut self, piece: &[u8]) -> Result<(), SinkFault>
        ensures bytes { Puts (Some self.old.written) (Some self.new.written) piece.now result }
        ensures still { OnOk result (self.new.faults ≡ self.old.faults) }
        ensures later { self.old.faults ≤ self.new.faults }
        ensures cause { IsErrOf result SinkFault.Failed → Rose self.old.faults self.new.faults }
        ensures calls { self.new.calls ≡ counted self.old.calls }
        ensures same { self.new.fails ≡ self.old.fails }
        ensures listed { IsErrOf result SinkFault.Failed ↔ IsTrue (is_listed self.old.fails self.new.calls) }
        ensures nothing { OnErr result (self.new.written ≡ self.old.written) }
    {
        self.calls = one_more(self.calls);
        if self.fails.contains(&self.calls) {
            self.faults = one_more(self.faults);
            return Err(SinkFault::Failed);
        }
        self.bytes.extend_from_slice(piece)?;
        Ok(())
    }
}
