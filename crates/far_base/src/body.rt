use crate::front::put_front;
use std::marker::Model;

/// The greatest number of bytes in a body.
pub const BODY_LIMIT: usize = 256;

/// A value of at most `BODY_LIMIT` bytes, or none: a deleted key has an absent body.
/// Contracts see an option of a list of bytes.
#[derive(Clone, Copy, Debug, PartialEq, Eq)]
pub struct Body {
    present: bool,
    len: u16,
    bytes: [u8; BODY_LIMIT],
}

impl Model for Body {
    ghost use Rattle.std.specs.Prelude.{◌≡◌, List, ℕ, Option, take, false};
    ghost use Rattle.far_base.specs.declared.body.TheConstants.{BODY_LIMIT};
    ghost use Rattle.far_base.specs.Padded.{IsPadded, padded, length_of, text_of, is_there, shown};

    ghost Value = { Option (List ℕ) };

    ghost view = { λ b. shown b.present (take b.len b.bytes) };

    ghost invariant = { λ b. IsPadded BODY_LIMIT b.len b.bytes × (b.present ≡ false → b.len ≡ 0) };

    ghost inverse = { λ b. record { present = is_there b; len = length_of b; bytes = padded BODY_LIMIT (text_of b) } };

    ghost use Rattle.far_base.specs.BodyFields.{body_is};

    ghost inverse_ok = { λ a h. let e = body_is a.present a.len a.bytes h.0 h.1 in Prim.rw (e.0, e.1, e.2) };
}

ghost use Rattle.std.specs.Prelude.{◌≡◌, ◌≤◌, ◌<◌, ◌↔◌, length, IfSome, IsSome, IsTrue, Some, None, is_some};
ghost use Rattle.far_base.specs.Padded.{text_of, padded};

fn in_array(text: &[u8]) -> [u8; BODY_LIMIT]
    requires { length text.now ≤ BODY_LIMIT }
    ensures { result ≡ padded BODY_LIMIT text.now }
{
    let mut bytes = [0; BODY_LIMIT];
    put_front(&mut bytes, text);
    bytes
}

impl Body {
    /// The body of a deleted key, or of one that was never written.
    pub fn absent() -> Self
        ensures { result ≡ None }
    {
        Body {
            present: false,
            len: 0,
            bytes: [0; BODY_LIMIT],
        }
    }

    /// A body of these bytes. `None` exactly above `BODY_LIMIT` bytes.
    #[tactic(auto, using(crate::specs::Padded::padded_shows))]
    pub fn from_bytes(bytes: &[u8]) -> Option<Self>
        ensures value { IfSome result (λ body. body ≡ Some bytes.now) }
        ensures short { IsSome result ↔ (length bytes.now ≤ BODY_LIMIT) }
    {
        if bytes.len() > BODY_LIMIT {
            return None;
        }
        Some(Body {
            present: true,
            len: bytes.len() as u16,
            bytes: in_array(bytes),
        })
    }

    /// Whether there is a body.
    pub fn is_present(&self) -> bool
        ensures { result ≡ is_some self.now }
    {
        self.present
    }

    /// The bytes; an absent body has none.
    pub fn text(&self) -> &[u8]
        ensures value { result.now ≡ text_of self.now }
        ensures short { length (text_of self.now) ≤ BODY_LIMIT }
    {
        &self.bytes[..self.len as usize]
    }
}
