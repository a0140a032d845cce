use std::alloc::AllocError;

/// Memory was refused. It is merged with no other cause.
#[derive(Clone, Copy, Debug, PartialEq, Eq)]
pub struct Memory;

impl From<AllocError> for Memory {
    fn from(_refused: AllocError) -> Self {
        Memory
    }
}
