use packet_codec::{WIRE_SIZE, Wire};

/// The first byte of a frame that carries a message.
pub const DATA: u8 = 1;

/// The first byte of an acknowledgement.
pub const ACK: u8 = 2;

/// The number of bytes of the longest frame.
pub const FRAME_LIMIT: usize = 11 + WIRE_SIZE;

/// How many sequence numbers the window has.
pub const WINDOW: usize = 256;

const _: () = prove!(FRAME_LIMIT == 331);

/// What is sent over the link.
#[derive(Clone, Copy)]
pub enum Frame {
    /// A message under its sequence number.
    Data { num: u64, wire: Wire },
    /// The acknowledgement of the message of this sequence number.
    Ack { num: u64 },
}
