//! Packets as bytes. A packet has exactly one spelling: the version, the number of its kind and
//! the fields of that kind in their order, with nothing between them and nothing after them.
//! Numbers are big-endian.
#![tactic(auto)]

mod by_kind;
mod decoding;
mod encoding;
mod fault;
mod fields;
mod kinds;
mod laws;
mod reader;
mod wire;
mod writer;

pub use decoding::{decode, decode_into};
pub use encoding::{encode, encode_into};
pub use far_base::{Out, Packet};
pub use fault::BadPacket;
pub use fields::{read_body, read_key, read_rec};
pub use kinds::KIND_COUNT;
pub use laws::spellings_are_one;
pub use wire::{PACKET_LIMIT, VERSION, WIRE_SIZE, Wire};

#[cfg(test)]
mod tests;
