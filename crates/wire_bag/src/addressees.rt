ghost use Rattle.std.specs.Prelude.{◌≡◌, ℕ, ◌-◌, ◌<◌, ◌≤◌, ◌^◌, false, List, [], ◌∷◌, ◌++◌, length, map, remove, replicate};
ghost use Rattle.std.specs.Prelude.{slice_get, slice_index, Some};
ghost use Rattle.wire_bag.specs.Addressees as addressees;
ghost use Rattle.wire_bag.specs.Addressees.{AreCounted, first_by, is_to};
ghost use Rattle.wire_bag.specs.BagView.{Message};

use far_base::Party;
use packet_codec::Wire;

/// How many places there are at which messages are counted.
pub(crate) const PLACES: usize = 98;

/// The place at which messages to a party are counted. Parties of one kind may share a place.
fn place_of(who: Party) -> usize
    ensures value { result ≡ addressees.place_of who }
    ensures bound { result < 98 }
{
    match who {
        Party::Client(number) => (number % 64) as usize,
        Party::Server(number) => 64 + (number % 32) as usize,
        Party::Switch => 96,
        Party::Controller => 97,
    }
}

/// No message is counted.
pub(crate) fn no_counts() -> [u32; PLACES]
    ensures { result ≡ replicate 98 0 }
{
    [0; PLACES]
}

/// Whether a message is counted at the place of the party.
pub(crate) fn has_some(counts: &[u32; PLACES], who: Party) -> bool
    ensures { result ≡ false → slice_index counts.now (addressees.place_of who) ≡ 0 }
{
    counts[place_of(who)] != 0
}

/// Counts one message more to the party.
pub(crate) fn count_more(counts: &mut [u32; PLACES], who: Party)
    requires { slice_index counts.old (addressees.place_of who) < 2 ^ 32 - 1 }
    ensures { (messages : List Message) (m : Message) → AreCounted counts.old messages → m.1 ≡ who
        → AreCounted counts.new (messages ++ m ∷ []) }
{
    counts[place_of(who)] += 1;
}

/// Counts one message less to the party.
pub(crate) fn count_less(counts: &mut [u32; PLACES], who: Party)
    requires { 1 ≤ slice_index counts.old (addressees.place_of who) }
    ensures { (messages : List Message) (i : ℕ) (m : Message) → AreCounted counts.old messages
        → slice_get messages i ≡ Some m → m.1 ≡ who → AreCounted counts.new (remove messages i) }
{
    counts[place_of(who)] -= 1;
}

fn is_to(message: &(Party, Party, Wire), who: Party) -> bool
    ensures { result ≡ is_to who message.now }
{
    message.1 == who
}

/// The place of the first message to the party.
pub(crate) fn first_to(boxes: &[Box<(Party, Party, Wire)>], who: Party) -> Option<u32>
    requires { length boxes.now < 2 ^ 32 }
    ensures { result ≡ first_by (is_to who) 0 (map (λ b. b.value) boxes.now) }
{
    for i in 0..boxes.len() {
        if is_to(&boxes[i], who) {
            return Some(i as u32);
        }
    }
    None
}
