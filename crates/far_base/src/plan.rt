use crate::body::Body;
use crate::key::Key;
use crate::ops::Ops;
use std::marker::Model;

/// The greatest number of clients; there is at least one.
pub const CLIENT_LIMIT: u32 = 64;

/// The greatest number of servers; there is at least one.
pub const SERVER_LIMIT: u32 = 16;

/// The greatest number of slots; there is at least one.
pub const SLOT_LIMIT: u32 = 1024;

/// The greatest count at which a key may grow hot.
pub const HOT_LIMIT: u32 = 65535;

/// The greatest number of operations.
pub const OP_LIMIT: u32 = 50000;

/// The greatest number of orders to admit and to evict, together.
pub const ORDER_LIMIT: u32 = 1024;

/// The greatest number of orders to take a snapshot.
pub const SNAP_LIMIT: u32 = 64;

/// The greatest number of orders to stop the switch, of both forms together.
pub const STOP_LIMIT: u32 = 64;

/// The greatest number in an order.
pub const STEP_LIMIT: u64 = 9_999_999_999_999_999_999;

/// What an operation does.
#[derive(Clone, Copy, Debug, PartialEq, Eq)]
pub enum Op {
    Get,
    Put,
    Del,
}

/// One operation of a client. The body of a put is present, the body of a get or del is absent.
#[derive(Clone, Copy, Debug, PartialEq, Eq)]
pub struct OpLine {
    pub client: u32,
    pub op: Op,
    pub key: Key,
    pub body: Body,
}

/// A kind of packet that comes to the switch. `SnapStart` is the start of a snapshot of either form.
#[derive(Clone, Copy, Debug, PartialEq, Eq)]
pub enum PassKind {
    GetReq,
    WriteReq,
    GetRep,
    WriteRep,
    Admit,
    Peek,
    Remove,
    SnapStart,
    SnapRead,
}

/// A request to the controller or the switch, due once so many steps were made, or at `StopAt` once
/// so many packets of a kind have come to a running switch.
#[derive(Clone, Copy, Debug, PartialEq, Eq)]
pub enum Order {
    Admit { step: u64, key: Key },
    Evict { step: u64, key: Key },
    Snap { step: u64 },
    Stop { step: u64 },
    StopAt { kind: PassKind, times: u64 },
}

/// The sizes of a world. `hot` is the count at which a key grows hot, and 0 means never.
#[derive(Clone, Copy, Debug, PartialEq, Eq)]
pub struct Config {
    pub clients: u32,
    pub servers: u32,
    pub slots: u32,
    pub hot: u32,
}

/// What a world is to do: the operations, numbered from 1, and the orders, each list in the order
/// of its lines. Contracts see a record of lists.
#[derive(Drop)]
pub struct Plan {
    pub config: Config,
    pub ops: Ops,
    pub orders: Vec<Order>,
}

impl Model for Plan {
    ghost use Rattle.far_base.specs.PlanView.{PlanView};

    ghost Value = { PlanView };

    ghost view = { λ p. record { config = p.config; ops = p.ops; orders = p.orders.items } };
}
