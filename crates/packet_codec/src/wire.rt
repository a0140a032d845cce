use far_base::BODY_LIMIT;
use std::marker::Model;

/// The first byte of each packet.
pub const VERSION: u8 = 2;

/// The number of bytes of the longest packet.
pub const PACKET_LIMIT: usize = 45 + BODY_LIMIT;

/// The number of bytes in a `Wire`.
pub const WIRE_SIZE: usize = 64 + BODY_LIMIT;

const _: () = prove!(PACKET_LIMIT == 301 && WIRE_SIZE == 320);

const ZEROS: [u8; WIRE_SIZE] = [0; WIRE_SIZE];

/// The bytes of a packet on its way, in an array with zeros behind them. Contracts see the list of
/// the bytes.
#[derive(Clone, Copy)]
pub struct Wire {
    len: u16,
    bytes: [u8; WIRE_SIZE],
}

impl Model for Wire {
    ghost use Rattle.std.specs.Prelude.{List, ℕ, take, length};
    ghost use Rattle.packet_codec.specs.declared.wire.TheConstants.{WIRE_SIZE};
    ghost use Rattle.far_base.specs.Padded.{IsPadded, padded};

    ghost Value = { List ℕ };

    ghost view = { λ w. take w.len w.bytes };

    ghost invariant = { λ w. IsPadded WIRE_SIZE w.len w.bytes };

    ghost inverse = { λ text. record { len = length text; bytes = padded WIRE_SIZE text } };

    ghost use Rattle.packet_codec.specs.WireFields.{wire_is};

    ghost inverse_ok = { λ a h. let e = wire_is a.len a.bytes h in Prim.rw (e.1, e.0) };
}

ghost use Rattle.std.specs.Prelude.{◌≡◌, ◌≤◌, ◌+◌, ◌++◌, ◌↔◌, [], length, take, drop, replicate, IfSome, IsSome};

fn put_at(out: &mut [u8], at: usize, text: &[u8])
    requires { at + length text.now ≤ length out.old }
    ensures { out.new ≡ take at out.old ++ text.now ++ drop (at + length text.now) out.old }
{
    out[at..at + text.len()].copy_from_slice(text);
}

/// Zeros in place of the first so many bytes.
fn put_zeros(out: &mut [u8], len: usize)
    requires len { len ≤ WIRE_SIZE }
    requires within { len ≤ length out.old }
    ensures { out.new ≡ replicate len 0 ++ drop len out.old }
{
    put_at(out, 0, &ZEROS[..len]);
}

impl Wire {
    /// No bytes.
    pub fn new() -> Self
        ensures { result ≡ [] }
    {
        Wire {
            len: 0,
            bytes: [0; WIRE_SIZE],
        }
    }

    /// A wire of these bytes. `None` exactly above `WIRE_SIZE` bytes.
    pub fn from_bytes(bytes: &[u8]) -> Option<Self>
        ensures value { IfSome result (λ wire. wire ≡ bytes.now) }
        ensures short { IsSome result ↔ (length bytes.now ≤ WIRE_SIZE) }
    {
        if bytes.len() > WIRE_SIZE {
            return None;
        }
        let mut wire = Self::new();
        wire.push(bytes);
        Some(wire)
    }

    /// The bytes.
    pub fn bytes(&self) -> &[u8]
        ensures value { result.now ≡ self.now }
        ensures short { length self.now ≤ WIRE_SIZE }
    {
        &self.bytes[..self.len as usize]
    }

    /// Takes all bytes away.
    #[tactic(auto, using(crate::proofs::Padding::wiped))]
    pub(crate) fn clear(&mut self)
        ensures { self.new ≡ [] }
    {
        put_zeros(&mut self.bytes, self.len as usize);
        self.len = 0;
    }

    /// Adds the text at the end.
    pub(crate) fn push(&mut self, text: &[u8])
        requires { length self.old + length text.now ≤ WIRE_SIZE }
        ensures { self.new ≡ self.old ++ text.now }
    {
        put_at(&mut self.bytes, self.len as usize, text);
        self.len += text.len() as u16;
    }
}
