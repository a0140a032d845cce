use far_base::{Body, Key, Op};

/// What a line of a report's history says of an operation.
#[derive(Clone, Copy)]
pub struct HistLine {
    /// The number of the operation.
    pub op: u64,
    /// The client that asked for it.
    pub client: u32,
    /// What it does.
    pub kind: Op,
    /// The key on which it does that.
    pub key: Key,
    /// The version that was written or read.
    pub num: u64,
    /// The body that was written or read.
    pub body: Body,
    /// Whether the switch answered the operation by itself.
    pub near: bool,
    /// The moment at which it was sent.
    pub sent: u64,
    /// The moment at which its client had the answer.
    pub answered: u64,
}
