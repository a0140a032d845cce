use crate::front::put_front;
use std::cmp::Ordering;
use std::marker::Model;

/// The number of bytes of a key.
pub const KEY_LENGTH: usize = 16;

/// A key: one to sixteen visible bytes, each from 33 to 126, and then zeros up to sixteen bytes.
/// Contracts see the sixteen bytes. Keys are ordered by them.
#[derive(Clone, Copy, Debug)]
pub struct Key {
    bytes: [u8; KEY_LENGTH],
}

impl Model for Key {
    ghost use Rattle.std.specs.Prelude.{List, ℕ, IsTrue};
    ghost use Rattle.far_base.specs.Key.{is_key};

    ghost Value = { List ℕ };

    ghost view = { λ k. k.bytes };

    ghost invariant = { λ k. IsTrue (is_key k.bytes) };

    ghost inverse = { λ bytes. record { bytes = bytes } };
}

ghost use Rattle.std.specs.Prelude.{◌≡◌, ◌+◌, ◌*◌, ◌%◌, ◌≤◌, ◌<◌, ◌↔◌, length, IsTrue, IfSome, IsSome, Some, sum};
ghost use Rattle.std.specs.Prelude.{nat_eq, refl};
ghost use Rattle.std.specs.Ordering.{nat_cmp};
ghost use Rattle.std.specs.Cmp.Lexicographic.{pointwise, slice_cmp, nat_list_eq_equiv, nat_list_cmp_total};
ghost use Rattle.std.specs.Cmp.Lexicographic.{texts_ties, texts_po};
ghost use Rattle.std.specs.Cmp.{partial_equiv_from_equiv};
ghost use Rattle.std.specs.List.{list_all};
ghost use Rattle.far_base.specs.Key.{is_key, is_key_text, is_visible, visible_then_zeros, key_text};
ghost use Rattle.far_base.specs.Key.{fits_before, weighted_sum, front_of, back_of};
ghost use Rattle.far_base.specs.Padded.{padded};

/// Whether the byte may stand before this one.
fn fits(byte: u8, next: u8) -> bool
    ensures { result ≡ fits_before byte next }
{
    (33 <= byte && byte <= 126) || (byte == 0 && next == 0)
}

/// Whether the bytes are visible ones and then zeros: each is visible, or zero with no other than zeros behind it. No
/// step depends on what the last one found but for its byte, so that all can be taken at once.
fn are_visible_then_zeros(bytes: &[u8; KEY_LENGTH]) -> bool
    ensures { result ≡ visible_then_zeros bytes.now }
{
    let mut next = 0;
    let mut fit = true;
    let mut at = KEY_LENGTH;
    while at > 0 {
        at -= 1;
        let byte = bytes[at];
        fit = fits(byte, next) && fit;
        next = byte;
    }
    fit
}

fn in_array(text: &[u8]) -> [u8; KEY_LENGTH]
    requires { length text.now ≤ KEY_LENGTH }
    ensures { result ≡ padded KEY_LENGTH text.now }
{
    let mut bytes = [0; KEY_LENGTH];
    put_front(&mut bytes, text);
    bytes
}

fn are_visible(text: &[u8]) -> bool
    ensures { result ≡ list_all is_visible text.now }
{
    text.iter().all(|byte| 33 <= *byte && *byte <= 126)
}

fn is_text(text: &[u8]) -> bool
    ensures { result ≡ is_key_text text.now }
{
    1 <= text.len() && text.len() <= KEY_LENGTH && are_visible(text)
}

impl Key {
    /// The key of a text. `None` exactly where the text is empty, is longer than sixteen bytes or has
    /// a byte outside 33 to 126.
    #[tactic(auto, using(crate::proofs::Keys::padded_is_key))]
    pub fn from_text(text: &[u8]) -> Option<Self>
        ensures value { IfSome result (λ key. key ≡ padded KEY_LENGTH text.now) }
        ensures valid { IsSome result ↔ IsTrue (is_key_text text.now) }
    {
        if !is_text(text) {
            return None;
        }
        Some(Key {
            bytes: in_array(text),
        })
    }

    /// The key that these sixteen bytes are. `None` exactly where they are no key.
    pub fn from_array(bytes: [u8; KEY_LENGTH]) -> Option<Self>
        ensures value { IfSome result (λ key. key ≡ bytes) }
        ensures valid { IsSome result ↔ IsTrue (is_key bytes) }
    {
        if bytes[0] == 0 || !are_visible_then_zeros(&bytes) {
            return None;
        }
        Some(Key { bytes })
    }

    /// The sixteen bytes.
    pub fn bytes(&self) -> &[u8]
        ensures value { result.now ≡ self.now }
        ensures key { IsTrue (is_key self.now) }
        ensures length { length self.now ≡ KEY_LENGTH }
    {
        &self.bytes
    }

    /// The text: the bytes before the zeros.
    pub fn text(&self) -> &[u8]
        ensures value { result.now ≡ key_text self.now }
    {
        let mut end = 0;
        while end < KEY_LENGTH && self.bytes[end] != 0 {
            end += 1;
        }
        &self.bytes[..end]
    }

    /// The sum of the sixteen bytes. The server of a key is this sum modulo the number of servers.
    pub fn byte_sum(&self) -> u32
        ensures value { result ≡ sum self.now }
        ensures bound { result < 4096 }
    {
        let mut total = 0;
        for byte in &self.bytes {
            total += u32::from(*byte);
        }
        total
    }

    /// The hot cell of the key, from 0 to 255: the sum of (i + 1) times byte i, modulo 256.
    pub fn cell(&self) -> u32
        ensures value { result ≡ weighted_sum 1 self.now % 256 }
        ensures bound { result < 256 }
    {
        let mut total = 0;
        for i in 0..KEY_LENGTH {
            total += (i as u32 + 1) * u32::from(self.bytes[i]);
        }
        total % 256
    }
    /// The first eight bytes as one number, the highest first.
    #[tactic(auto, unfolding(crate::specs::Key::front_of))]
    fn front(&self) -> u64
        ensures value { result ≡ front_of self.now }
        ensures key { IsTrue (is_key self.now) }
    {
        let b = &self.bytes;
        u64::from_be_bytes([b[0], b[1], b[2], b[3], b[4], b[5], b[6], b[7]])
    }

    /// The last eight bytes as one number, the highest first.
    #[tactic(auto, unfolding(crate::specs::Key::back_of))]
    fn back(&self) -> u64
        ensures { result ≡ back_of self.now }
    {
        let b = &self.bytes;
        u64::from_be_bytes([b[8], b[9], b[10], b[11], b[12], b[13], b[14], b[15]])
    }
}

// Keys are compared by their halves as numbers: that is what their bytes say, in fewer steps.
impl PartialEq for Key {
    ghost eq = { pointwise nat_eq };

    ghost laws = { partial_equiv_from_equiv nat_list_eq_equiv };

    #[tactic(auto, using(crate::proofs::Fronts::other_front))]
    fn eq(&self, other: &Key) -> bool {
        self.front() == other.front() && self.back() == other.back()
    }
}

impl Eq for Key {
    ghost laws = { nat_list_eq_equiv };
}

impl PartialOrd for Key {
    ghost partial_cmp = { λ x y. Some (slice_cmp nat_cmp x y) };

    ghost laws = { texts_po };

    fn partial_cmp(&self, other: &Key) -> Option<Ordering> {
        Some(self.cmp(other))
    }
}

impl Ord for Key {
    ghost cmp = { slice_cmp nat_cmp };

    ghost total = { nat_list_cmp_total };

    ghost matches_partial_cmp = { λ x y. refl };

    ghost matches_eq = { texts_ties };

    #[tactic(auto, using(crate::proofs::Fronts::ordered_halves))]
    fn cmp(&self, other: &Key) -> Ordering {
        self.front()
            .cmp(&other.front())
            .then(self.back().cmp(&other.back()))
    }
}
