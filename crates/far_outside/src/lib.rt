//! The edge to the outside: where bytes are read from and written to, where records are kept, and
//! that a call fails only where a count of faults rose.
#![tactic(auto)]

mod clean;
mod faults;
mod fill;
mod gate;
mod keeper;
mod listed;
mod pieces;
mod reading;
mod sink;
mod source;
mod standard;

pub use clean::{CleanSink, CleanSource};
pub use gate::{Gate, NoGate};
pub use keeper::{Keeper, KeeperFault};
pub use listed::{MemSink, MemSource};
pub use pieces::PieceSource;
pub use reading::{ReadStop, read_all};
pub use sink::{Sink, SinkFault};
pub use source::{Failed, Source};
pub use standard::{StdSink, StdSource};

#[cfg(test)]
mod tests;
