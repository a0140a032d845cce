//! The texts of a line of packets: the packets that pass a switch, and what leaves it.
#![tactic(auto)]

mod input;
mod output;

pub use input::{PacketLine, parse};
pub use output::output_text;
