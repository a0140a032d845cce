ghost use Rattle.std.specs.Prelude.{◌≡◌, ℕ, List, ◌<◌, ◌≤◌, ◌^◌, length, Option, IfOk, OnOk, OnErr};
ghost use Rattle.far_outside.specs.Bytes.{Takes};
ghost use Rattle.far_outside.specs.Faults.{Rose};

/// A call failed outside of the program.
#[derive(Clone, Copy, Debug, PartialEq, Eq)]
pub struct Failed;

/// Where bytes are read from. The count of faults never falls; at the greatest `u64` it stays.
pub trait Source {
    // The bytes that are left, where the source tells them.
    ghost left: { Self → Option (List ℕ) };

    ghost fault_count: { Self → ℕ };

    /// The count of faults.
    fn faults(&self) -> u64
        ensures { result ≡ fault_count self.now };

    /// Puts the next bytes at the front of the buffer and answers how many: 0 only at the end.
    /// `Failed` only where the count of faults rose in this call or stands at its greatest; what is
    /// left is then unchanged. A read that does not fail counts no fault.
    fn read(&mut self, buf: &mut [u8]) -> Result<u32, Failed>
        requires some { 0 < length buf.old }
        requires small { length buf.old < 2 ^ 32 }
        ensures bound { IfOk result (λ n. n ≤ length buf.new) }
        ensures bytes { Takes (left self.old) (left self.new) result buf.new }
        ensures still { OnOk result (fault_count self.new ≡ fault_count self.old) }
        ensures later { fault_count self.old ≤ fault_count self.new }
        ensures cause { OnErr result (Rose (fault_count self.old) (fault_count self.new)) };
}
