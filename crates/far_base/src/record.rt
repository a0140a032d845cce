use crate::body::Body;
use crate::key::Key;

/// What a key was set to: the number of the write that set it, and the body. Number 0 stands for
/// no write, and its body is absent.
#[derive(Clone, Copy, Debug, PartialEq, Eq)]
pub struct Record {
    pub key: Key,
    pub num: u64,
    pub body: Body,
}

/// A version of some key: the number of a write, and the body that it set. Number 0 stands for no write, and its
/// body is absent.
#[derive(Clone, Copy, Debug, PartialEq, Eq)]
pub struct Versioned {
    pub num: u64,
    pub body: Body,
}

ghost use Rattle.std.specs.Prelude.{◌<◌, ◌↔◌, IsTrue};

impl Record {
    /// Whether this record's number is greater than the other's.
    pub fn newer(&self, other: &Record) -> bool
        ensures { IsTrue result ↔ (other.now.num < self.now.num) }
    {
        other.num < self.num
    }
}
