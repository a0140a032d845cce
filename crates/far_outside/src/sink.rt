ghost use Rattle.std.specs.Prelude.{◌≡◌, ℕ, List, ◌≤◌, Option, OnOk, IsErrOf};
ghost use Rattle.far_outside.specs.Bytes.{Puts};
ghost use Rattle.far_outside.specs.Faults.{Rose};

use std::alloc::AllocError;

/// Why a write did not end.
#[derive(Clone, Copy, Debug, PartialEq, Eq)]
pub enum SinkFault {
    /// Memory was refused.
    Memory,
    /// The write failed outside of the program.
    Failed,
}

/// Where bytes are written to. The count of faults never falls; at the greatest `u64` it stays.
pub trait Sink {
    // The bytes that were written, where the sink tells them.
    ghost written: { Self → Option (List ℕ) };

    ghost fault_count: { Self → ℕ };

    /// The count of faults.
    fn faults(&self) -> u64
        ensures { result ≡ fault_count self.now };

    /// Appends the piece. `Failed` only where the count of faults rose in this call or stands at its
    /// greatest; then a front of the piece was appended. At `Memory` nothing was appended. A write that
    /// ends counts no fault.
    fn write(&mut self, piece: &[u8]) -> Result<(), SinkFault>
        ensures bytes { Puts (written self.old) (written self.new) piece.now result }
        ensures still { OnOk result (fault_count self.new ≡ fault_count self.old) }
        ensures later { fault_count self.old ≤ fault_count self.new }
        ensures cause { IsErrOf result SinkFault.Failed → Rose (fault_count self.old) (fault_count self.new) };
}

impl From<AllocError> for SinkFault {
    ghost use Rattle.far_outside.specs.declared.sink.SinkFault.TheVariants.{Memory};

    ghost from_gives = { λ _ fault. fault ≡ Memory };

    fn from(_refused: AllocError) -> Self {
        SinkFault::Memory
    }
}
