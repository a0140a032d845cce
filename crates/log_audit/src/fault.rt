use far_base::Memory;
use std::alloc::AllocError;
use thiserror::Error;

/// Why a text was not read as a report. Lines are counted from 1.
#[derive(Clone, Copy, Debug, PartialEq, Eq, Error)]
pub enum AuditFault {
    /// The line has none of the forms that may stand there, has no end, or is missing.
    #[error("bad line {0}")]
    BadLine(u32),
    /// The line tells of a history with too many lines.
    #[error("too large line {0}")]
    TooLarge(u32),
    /// Memory was refused.
    #[error("memory was refused")]
    Memory,
}

ghost use Rattle.std.specs.Prelude.{◌≡◌};
ghost use Rattle.log_audit.specs.declared.fault.AuditFault.TheVariants.{Memory};

impl From<Memory> for AuditFault {
    ghost from_gives = { λ _ e. e ≡ Memory };

    fn from(_refused: Memory) -> Self {
        AuditFault::Memory
    }
}

impl From<AllocError> for AuditFault {
    ghost from_gives = { λ _ e. e ≡ Memory };

    fn from(_refused: AllocError) -> Self {
        AuditFault::Memory
    }
}
