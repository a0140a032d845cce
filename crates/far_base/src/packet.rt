use crate::body::Body;
use crate::key::Key;
use crate::party::Party;
use crate::record::Record;

/// What a message says. `caller` is a client, `op` the number of its operation.
#[derive(Clone, Copy, PartialEq, Eq)]
pub enum Packet {
    /// client to switch: read the key
    GetReq {
        caller: u32,
        op: u32,
        key: Key,
    },
    /// client to switch: set the key to the body, where an absent body deletes it
    WriteReq {
        caller: u32,
        op: u32,
        key: Key,
        body: Body,
    },
    /// switch to server: read the key, for the slot that has this tag, or for none where it is 0
    GetFwd {
        caller: u32,
        op: u32,
        key: Key,
        tag: u64,
    },
    /// switch to server: keep this record where its number is greater
    WriteFwd {
        caller: u32,
        op: u32,
        key: Key,
        num: u64,
        body: Body,
    },
    /// server to switch: the record that is kept
    GetRep {
        caller: u32,
        op: u32,
        key: Key,
        tag: u64,
        num: u64,
        body: Body,
    },
    /// server to switch: the record that is kept now
    WriteRep {
        caller: u32,
        op: u32,
        key: Key,
        num: u64,
        body: Body,
    },
    /// switch to client: what was read; `near` where the switch answered by itself
    GetAns {
        caller: u32,
        op: u32,
        key: Key,
        num: u64,
        body: Body,
        near: bool,
    },
    /// switch to client: the write is done; `kept` where only the switch has it
    WriteAns {
        caller: u32,
        op: u32,
        key: Key,
        num: u64,
        kept: bool,
    },
    /// switch to controller: the key has grown hot
    Hot {
        key: Key,
    },
    /// controller to switch: bind the key to the slot
    Admit {
        epoch: u32,
        slot: u32,
        key: Key,
        tag: u64,
    },
    /// switch to controller: the slot is bound
    AdmitAck {
        slot: u32,
        tag: u64,
    },
    /// controller to switch: show the slot
    Peek {
        epoch: u32,
        slot: u32,
        tag: u64,
    },
    /// switch to controller: what the slot has
    PeekAns {
        slot: u32,
        tag: u64,
        latest: bool,
        num: u64,
        body: Body,
    },
    /// controller to switch: empty the slot, where it still has that number
    Remove {
        epoch: u32,
        slot: u32,
        tag: u64,
        latest: bool,
        num: u64,
    },
    /// switch to controller: whether the slot is empty now, and what it had
    RemoveAns {
        slot: u32,
        tag: u64,
        done: bool,
        latest: bool,
        num: u64,
        body: Body,
    },
    /// controller to switch: begin this snapshot
    SnapStart {
        epoch: u32,
        id: u32,
    },
    /// switch to controller: the snapshot has begun at this number
    SnapBegun {
        id: u32,
        point: u64,
    },
    /// controller to switch: send the slot's part of the snapshot
    SnapRead {
        epoch: u32,
        id: u32,
        slot: u32,
    },
    /// switch to controller: what the slot had when the snapshot began
    SnapPart {
        id: u32,
        slot: u32,
        view: Option<Record>,
    },
    /// controller to server: keep this record where its number is greater
    Store {
        job: u64,
        item: Record,
    },
    /// server to controller: the job is done
    Stored {
        job: u64,
    },
    /// controller to client: writes up to this number are safe
    Release {
        point: u64,
    },
    /// controller to client: tell what you preserve
    Ask {
        round: u32,
    },
    /// client to controller: one of `total` records that it preserves, or none
    Told {
        round: u32,
        caller: u32,
        total: u32,
        item: Option<Record>,
    },
    /// controller to server: which is your greatest number
    TopAsk {
        round: u32,
    },
    /// server to controller: the greatest number that it keeps
    TopIs {
        round: u32,
        server: u32,
        top: u64,
    },
    /// switch to controller: when the snapshot began the slot had what the last completed snapshot has of it
    SnapSame {
        id: u32,
        slot: u32,
    },
    /// controller to switch: begin this snapshot; a slot with what snapshot `base` has of it may say just that
    SnapFrom {
        epoch: u32,
        id: u32,
        base: u32,
    },
}

/// A packet and to whom it goes.
#[derive(Clone, Copy)]
pub struct Out {
    pub to: Party,
    pub packet: Packet,
}

/// A packet on its way.
#[derive(Clone, Copy)]
pub struct Message {
    pub from: Party,
    pub to: Party,
    pub packet: Packet,
}
