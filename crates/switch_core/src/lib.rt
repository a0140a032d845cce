//! A switch with a cache: what it does with a packet, and the plain form of it.
#![tactic(auto)]

mod memory;
mod plain;
mod switch;

pub use plain::PlainSwitch;
pub use switch::{Emit, Switch};

#[cfg(test)]
mod tests;
