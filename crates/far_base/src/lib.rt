//! The words that every crate of the cache shares: keys, bodies, records, operations, plans,
//! events, packets and the lines of the log.
#![tactic(auto)]

mod body;
mod event;
mod front;
mod kept;
mod key;
mod log;
mod memory;
mod ops;
mod packet;
mod party;
mod plan;
mod record;
mod slot_state;

pub use body::{BODY_LIMIT, Body};
pub use event::Event;
pub use kept::{KeptItem, KeptPlace};
pub use key::{KEY_LENGTH, Key};
pub use log::{LogEntry, LogLine, Placed};
pub use memory::Memory;
pub use ops::Ops;
pub use packet::{Message, Out, Packet};
pub use party::Party;
pub use plan::{
    CLIENT_LIMIT, Config, HOT_LIMIT, OP_LIMIT, ORDER_LIMIT, Op, OpLine, Order, PassKind, Plan,
    SERVER_LIMIT, SLOT_LIMIT, SNAP_LIMIT, STEP_LIMIT, STOP_LIMIT,
};
pub use record::{Record, Versioned};
pub use slot_state::{Due, SlotState};

#[cfg(test)]
mod tests;
