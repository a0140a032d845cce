ghost use Rattle.std.specs.Prelude.{◌≡◌, ◌≤◌, length, IfOk, IfSome, OnOk, OnErr, IsErrOf};
ghost use Rattle.far_outside.specs.Faults.{Rose};
ghost use Rattle.far_outside.specs.Reading.{HasRead, HasReadAll, IsFurther, HadMore, Settles};

use crate::source::{Failed, Source};
use std::alloc::{AllocError, Global};

/// Why reading to the end stopped.
#[derive(Clone, Copy, Debug, PartialEq, Eq)]
pub enum ReadStop {
    /// Memory was refused.
    Memory,
    /// More bytes came than may be read.
    TooLarge,
    /// A read failed.
    Failed,
}

impl From<AllocError> for ReadStop {
    ghost use Rattle.far_outside.specs.declared.reading.ReadStop.TheVariants.{Memory};

    ghost from_gives = { λ _ stop. stop ≡ Memory };

    fn from(_refused: AllocError) -> Self {
        ReadStop::Memory
    }
}

impl From<Failed> for ReadStop {
    ghost use Rattle.far_outside.specs.declared.reading.ReadStop.TheVariants.{Failed};

    ghost from_gives = { λ _ stop. stop ≡ Failed };

    fn from(_failed: Failed) -> Self {
        ReadStop::Failed
    }
}

/// Reads to the end. `TooLarge` exactly where more than `most` bytes were left and came, `Failed` only
/// where the count of faults rose in this call or stands at its greatest. Where all was read no fault
/// was counted. After an error the source is somewhere further on.
#[tactic(auto, using(crate::proofs::Further::further_on))]
pub fn read_all<S: Source>(alloc: Global, source: &mut S, most: u32) -> Result<Vec<u8>, ReadStop>
    ensures whole { IfOk result (λ bytes. HasReadAll (S.left source.old) (S.left source.new) bytes.items) }
    ensures short { IfOk result (λ bytes. length bytes.items ≤ most) }
    ensures large { IsErrOf result ReadStop.TooLarge → HadMore (S.left source.old) most }
    ensures further { OnErr result (IsFurther (S.left source.old) (S.left source.new)) }
    ensures unfailed { OnOk result (S.fault_count source.new ≡ S.fault_count source.old) }
    ensures later { S.fault_count source.old ≤ S.fault_count source.new }
    ensures cause { IsErrOf result ReadStop.Failed → Rose (S.fault_count source.old) (S.fault_count source.new) }
    ensures settled { ¬ Rose (S.fault_count source.old) (S.fault_count source.new) → IfSome (S.left source.old)
        (λ before. Settles most before result) }
{
    let mut bytes = Vec::new(alloc);
    let mut buf = [0; 4096];
    loop {
        let count = source.read(&mut buf)? as usize;
        if count == 0 {
            return Ok(bytes);
        }
        if count > most as usize - bytes.len() {
            return Err(ReadStop::TooLarge);
        }
        bytes.extend_from_slice(&buf[..count])?;
    }
}
