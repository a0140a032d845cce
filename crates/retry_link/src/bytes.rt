use packet_codec::WIRE_SIZE;
use std::marker::Model;

/// The number of bytes in a `FrameWire`.
pub const FRAME_SIZE: usize = 32 + WIRE_SIZE;

const _: () = prove!(FRAME_SIZE == 352);

/// The bytes of a frame on its way, in an array with zeros behind them. Contracts see the list of the bytes.
#[derive(Drop)]
pub struct FrameWire {
    len: u16,
    bytes: [u8; FRAME_SIZE],
}

impl Model for FrameWire {
    ghost use Rattle.std.specs.Prelude.{List, ℕ, take};
    ghost use Rattle.retry_link.specs.declared.bytes.TheConstants.{FRAME_SIZE};
    ghost use Rattle.far_base.specs.Padded.{IsPadded};

    ghost Value = { List ℕ };

    ghost view = { λ w. take w.len w.bytes };

    ghost invariant = { λ w. IsPadded FRAME_SIZE w.len w.bytes };
}

ghost use Rattle.std.specs.Prelude.{◌≡◌, ◌≤◌, ◌+◌, ◌++◌, [], ◌∷◌, length, take, drop};
ghost use Rattle.packet_codec.specs.Spelling.{Adds, u16_part, u64_part};

use byteorder::{BigEndian, ByteOrder};

fn put_at(out: &mut [u8], at: usize, text: &[u8])
    requires { at + length text.now ≤ length out.old }
    ensures { out.new ≡ take at out.old ++ text.now ++ drop (at + length text.now) out.old }
{
    out[at..at + text.len()].copy_from_slice(text);
}

impl FrameWire {
    /// No bytes.
    pub(crate) fn new() -> Self
        ensures { result ≡ [] }
    {
        FrameWire {
            len: 0,
            bytes: [0; FRAME_SIZE],
        }
    }

    /// The bytes.
    pub fn bytes(&self) -> &[u8]
        ensures value { result.now ≡ self.now }
        ensures short { length self.now ≤ FRAME_SIZE }
    {
        &self.bytes[..self.len as usize]
    }

    /// Adds the text at the end.
    pub(crate) fn push(&mut self, text: &[u8])
        requires { length self.old + length text.now ≤ FRAME_SIZE }
        ensures { self.new ≡ self.old ++ text.now }
    {
        put_at(&mut self.bytes, self.len as usize, text);
        self.len += text.len() as u16;
    }

    /// Adds a number of two bytes.
    #[tactic(auto, unfolding(packet_codec::specs::Spelling::u16_part))]
    pub(crate) fn u16(&mut self, n: u16)
        requires { length self.old + 2 ≤ FRAME_SIZE }
        ensures added { Adds self.old self.new (u16_part n) }
        ensures len { length self.new ≡ length self.old + 2 }
    {
        let mut bytes = [0; 2];
        BigEndian::write_u16(&mut bytes, n);
        self.push(&bytes);
    }

    /// Adds a number of eight bytes.
    #[tactic(auto, unfolding(packet_codec::specs::Spelling::u64_part))]
    pub(crate) fn u64(&mut self, n: u64)
        requires { length self.old + 8 ≤ FRAME_SIZE }
        ensures added { Adds self.old self.new (u64_part n) }
        ensures len { length self.new ≡ length self.old + 8 }
    {
        let mut bytes = [0; 8];
        BigEndian::write_u64(&mut bytes, n);
        self.push(&bytes);
    }
}
