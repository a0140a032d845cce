use crate::clean::CleanSource;
use crate::source::{Failed, Source};
use std::marker::Model;

/// Bytes in memory as a source that never fails and gives at most so many of them at once. Contracts
/// see the bytes that are left, and how many a read gives at most.
#[derive(Drop)]
pub struct PieceSource {
    whole: CleanSource,
    size: u32,
}

impl Model for PieceSource {
    ghost use Rattle.std.specs.Prelude.{◌<◌};
    ghost use Rattle.far_outside.specs.Pieces.{Pieces};

    ghost Value = { Pieces };

    ghost view = { λ s. record { left = s.whole; size = s.size } };

    ghost invariant = { λ s. 0 < s.size };
}

ghost use Rattle.std.specs.Prelude.{◌≡◌, ◌<◌, ◌≤◌, ◌^◌, length, Some, IfOk, IsOk};
ghost use Rattle.far_outside.specs.Bytes.{TookFront};

impl PieceSource {
    /// A source that has these bytes left and gives at most `size` of them at once.
    pub fn new(bytes: Vec<u8>, size: u32) -> Self
        requires { 0 < size }
        ensures { result ≡ record { left = bytes.items; size = size } }
    {
        PieceSource {
            whole: CleanSource::new(bytes),
            size,
        }
    }
}

impl Source for PieceSource {
    ghost left = { λ s. Some s.left };

    ghost fault_count = { λ _. 0 };

    fn faults(&self) -> u64 {
        0
    }

    /// At most `size` of the bytes that are left. It never fails.
    fn read(&mut self, buf: &mut [u8]) -> Result<u32, Failed>
        requires some { 0 < length buf.old }
        requires small { length buf.old < 2 ^ 32 }
        ensures bound { IfOk result (λ n. n ≤ length buf.new) }
        ensures piece { IfOk result (λ n. n ≤ self.old.size) }
        ensures bytes { IfOk result (λ n. TookFront self.old.left self.new.left n buf.new) }
        ensures never { IsOk result }
        ensures same { self.new.size ≡ self.old.size }
    {
        let count = buf.len().min(self.size as usize);
        self.whole.read(&mut buf[..count])
    }
}
