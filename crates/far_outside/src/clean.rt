use crate::fill::fill;
use crate::sink::{Sink, SinkFault};
use crate::source::{Failed, Source};
use std::alloc::Global;
use std::marker::Model;

/// Bytes in memory as a source that never fails. Contracts see the bytes that are left.
#[derive(Drop)]
pub struct CleanSource {
    bytes: Vec<u8>,
    at: usize,
}

impl Model for CleanSource {
    ghost use Rattle.std.specs.Prelude.{List, ℕ, ◌≤◌, drop, vec_len};

    ghost Value = { List ℕ };

    ghost view = { λ s. drop s.at s.bytes.items };

    ghost invariant = { λ s. s.at ≤ vec_len s.bytes };
}

/// A sink in memory that never fails. Contracts see the bytes that were written.
#[derive(Drop)]
pub struct CleanSink {
    bytes: Vec<u8>,
}

impl Model for CleanSink {
    ghost use Rattle.std.specs.Prelude.{List, ℕ};

    ghost Value = { List ℕ };

    ghost view = { λ s. s.bytes.items };
}

ghost use Rattle.std.specs.Prelude.{◌≡◌, [], Option, Some};

impl CleanSource {
    /// A source that has these bytes left.
    pub fn new(bytes: Vec<u8>) -> Self
        ensures { result ≡ bytes.items }
    {
        CleanSource { bytes, at: 0 }
    }
}

impl Source for CleanSource {
    ghost left = { λ bytes. Some bytes };

    ghost fault_count = { λ _. 0 };

    fn faults(&self) -> u64 {
        0
    }

    fn read(&mut self, buf: &mut [u8]) -> Result<u32, Failed> {
        let count = fill(&self.bytes[self.at..], buf);
        self.at += count;
        Ok(count as u32)
    }
}

impl CleanSink {
    /// A sink to which nothing was written.
    pub fn new(alloc: Global) -> Self
        ensures { result ≡ [] }
    {
        CleanSink {
            bytes: Vec::new(alloc),
        }
    }

    /// The bytes that were written.
    pub fn bytes(&self) -> &[u8]
        ensures { result.now ≡ self.now }
    {
        &self.bytes
    }
}

impl Sink for CleanSink {
    ghost written = { λ bytes. Some bytes };

    ghost fault_count = { λ _. 0 };

    fn faults(&self) -> u64 {
        0
    }

    fn write(&mut self, piece: &[u8]) -> Result<(), SinkFault> {
        self.bytes.extend_from_slice(piece)?;
        Ok(())
    }
}
