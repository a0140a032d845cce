//! Messages of one sender to one receiver over a link that loses, copies and reorders frames: a sliding window of
//! sequence numbers, and an acknowledgement of each frame that carries a message.
#![tactic(auto)]

mod bytes;
mod decoding;
mod encoding;
mod frame;
mod laws;
mod link;
mod receiver;
mod sender;

pub use bytes::{FRAME_SIZE, FrameWire};
pub use decoding::decode_frame;
pub use encoding::encode_frame;
pub use frame::{FRAME_LIMIT, Frame, WINDOW};
pub use laws::{links_catch_up, links_deliver_once, links_may_go_on};
pub use link::{Link, LinkEvent, LinkOutcome};
pub use packet_codec::{BadPacket, Wire};
pub use receiver::{LinkReceiver, Taken};
pub use sender::LinkSender;

#[cfg(test)]
mod random_tests;
#[cfg(test)]
mod tests;
