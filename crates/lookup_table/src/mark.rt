//! Marks of keys, by which most keys that are not bound are told at once, and most that are bound found at once.

ghost use Rattle.std.specs.Prelude.{◌≡◌, ◌<◌};
ghost use Rattle.lookup_table.specs.Marks.{mark_of, marked_with};

use far_base::Key;

/// The number of marks.
pub(crate) const MARKS: usize = 8192;

/// 2 to the 64 over the golden ratio: a number by whose multiples keys that look alike are spread.
const SPREAD: u64 = 11400714819323198485;

/// Where the keys of one mark are bound.
#[derive(Clone, Copy)]
pub(crate) enum Mark {
    /// no such key is bound
    Free,
    /// none is bound to another slot than this
    One(u32),
    /// they may be bound to any slots
    Several,
}

impl Mark {
    /// The mark when one more of its keys is bound, to the slot.
    pub(crate) fn with(self, slot: u32) -> Mark
        ensures { result ≡ marked_with slot self }
    {
        match self {
            Mark::Free => Mark::One(slot),
            Mark::One(_) => Mark::Several,
            Mark::Several => Mark::Several,
        }
    }
}

/// The place of the key's mark; few keys share one.
#[tactic(auto, unfolding(crate::specs::Marks::mark_of, far_base::specs::Key::front_of, far_base::specs::Key::back_of))]
pub(crate) fn mark_of(key: &Key) -> usize
    ensures mark { result ≡ mark_of key.now }
    ensures bound { result < 8192 }
{
    let b = key.bytes();
    let front = u64::from_be_bytes([b[0], b[1], b[2], b[3], b[4], b[5], b[6], b[7]]);
    let back = u64::from_be_bytes([b[8], b[9], b[10], b[11], b[12], b[13], b[14], b[15]]);
    let spread = front.wrapping_add(back).wrapping_mul(SPREAD);
    (spread / (1 << 51)) as usize
}
