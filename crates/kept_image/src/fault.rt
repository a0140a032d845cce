use far_base::Memory;
use std::alloc::AllocFailed;
use thiserror::Error;

/// Why a text was not read as an image. Lines are counted from 1.
#[derive(Clone, Copy, Debug, PartialEq, Eq, Error)]
pub enum ImageFault {
    /// The line has none of the forms that may stand there, or is missing.
    #[error("bad image line {0}")]
    BadLine(u32),
    /// An earlier line has the key and the number of this one and another body.
    #[error("conflict line {0}")]
    Conflict(u32),
    /// Memory was refused.
    #[error("memory was refused")]
    Memory,
}

ghost use Rattle.std.specs.Prelude.{◌≡◌};
ghost use Rattle.kept_image.specs.declared.fault.ImageFault.TheVariants.{Memory};

impl From<Memory> for ImageFault {
    ghost from_gives = { λ _ e. e ≡ Memory };

    fn from(_refused: Memory) -> Self {
        ImageFault::Memory
    }
}

impl<T: Drop> From<AllocFailed<T>> for ImageFault {
    ghost from_gives = { λ _ e. e ≡ Memory };

    fn from(_refused: AllocFailed<T>) -> Self {
        ImageFault::Memory
    }
}
