use crate::body::Body;
use crate::key::Key;
use crate::plan::OpLine;
use crate::record::Record;

/// One thing that happened and that the log keeps. Operations are numbered from 1.
#[derive(Clone, Copy)]
pub enum LogEntry {
    /// A client sent the operation.
    Sent {
        op: u32,
        line: OpLine,
    },
    /// The switch gave the write this number.
    Numbered {
        op: u32,
        num: u64,
    },
    /// The switch sent the answer: the number, and for a read the body; `near` where the switch
    /// answered by itself.
    Emitted {
        op: u32,
        num: u64,
        body: Body,
        near: bool,
    },
    /// The client got the answer.
    Answered {
        op: u32,
    },
    /// The slot holds the key under this tag.
    Admitted {
        slot: u32,
        key: Key,
        tag: u64,
    },
    /// The slot is free again, after so many removals were sent.
    Evicted {
        slot: u32,
        key: Key,
        tries: u32,
    },
    /// The eviction was given up, and the slot holds a record of this number.
    Kept {
        slot: u32,
        key: Key,
        num: u64,
    },
    /// A snapshot is complete; `count` lines of its items follow. Of its parts `same` were those of the snapshot
    /// before.
    Snapped {
        id: u32,
        point: u64,
        count: u32,
        same: u32,
    },
    /// A record of the snapshot, and its slot.
    SnapItem {
        slot: u32,
        item: Record,
    },
    /// The switch lost its memory.
    Stopped,
    /// The switch runs again with this counter; `count` lines of the servers' records follow.
    Recovered {
        counter: u64,
        count: u64,
    },
    /// A record that a server has at the restart.
    RecItem {
        item: Record,
    },
}

/// An entry and the number of the step at which it happened, counted from 1.
#[derive(Clone, Copy)]
pub struct LogLine {
    pub moment: u64,
    pub entry: LogEntry,
}

/// The place of an operation in the history: operations are ordered by the moment, then the
/// number, then writes before reads, then the operation.
#[derive(Clone, Copy, Debug, PartialEq, Eq, PartialOrd, Ord)]
pub struct Placed {
    pub moment: u64,
    pub num: u64,
    pub read: bool,
    pub op: u32,
}
