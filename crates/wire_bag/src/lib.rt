//! The messages on their way, as a list of packets in bytes.
#![tactic(auto)]

mod addressees;
mod bag;

pub use bag::Bag;
pub use packet_codec::Wire;

#[cfg(test)]
mod tests;
