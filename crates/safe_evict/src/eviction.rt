use crate::next::{Next, TRIES};
use far_base::{Body, Due, Key, Packet, Record};
use std::marker::Model;

/// One eviction of a slot that holds a key under a tag: a look at the slot, a store of its record at the server, and a
/// removal, which is tried at most three times. Contracts see a record.
#[derive(Drop)]
pub struct Evict {
    epoch: u32,
    slot: u32,
    key: Key,
    tag: u64,
    due: Due,
    tries: u32,
    item: Record,
}

impl Model for Evict {
    ghost use Rattle.std.specs.Prelude.{◌≤◌};
    ghost use Rattle.safe_evict.specs.EvictView.{EvictView, most_tries};

    ghost Value = { EvictView };

    ghost view = { λ e. record {
      epoch = e.epoch;
      slot = e.slot;
      key = e.key;
      tag = e.tag;
      due = e.due;
      tries = e.tries;
      item = e.item;
    } };

    ghost invariant = { λ e. e.tries ≤ most_tries e.due };
}

ghost use Rattle.std.specs.Prelude.{◌≡◌, ◌<◌};
ghost use Rattle.far_base.specs.declared.packet.Packet.TheVariants.{Remove};
ghost use Rattle.far_base.specs.declared.slot_state.Due.TheVariants as due;
ghost use Rattle.far_model.specs.Evictions.{after_peek, after_store, after_removal, peek_of, shown_item, waits_for};
ghost use Rattle.far_model.specs.Evictions as model;
ghost use Rattle.safe_evict.specs.EvictView.{begun, alone, next_of, moved, removing};

impl Evict {
    /// An eviction that has just begun, and the look at the slot, which is to be sent.
    pub fn begin(epoch: u32, slot: u32, key: Key, tag: u64) -> (Evict, Packet)
        ensures evict { result.0 ≡ begun epoch slot key tag }
        ensures packet { result.1 ≡ peek_of (alone (begun epoch slot key tag)) }
    {
        let nothing = Record {
            key,
            num: 0,
            body: Body::absent(),
        };
        let evict = Evict {
            epoch,
            slot,
            key,
            tag,
            due: Due::Peeked,
            tries: 0,
            item: nothing,
        };
        (evict, Packet::Peek { epoch, slot, tag })
    }

    /// Which call is due next: `Over` once the eviction is done or given up.
    pub fn due(&self) -> Due
        ensures { result ≡ self.now.due }
    {
        self.due
    }

    /// The slot.
    pub fn slot(&self) -> u32
        ensures { result ≡ self.now.slot }
    {
        self.slot
    }

    /// The key that the slot holds.
    pub fn key(&self) -> Key
        ensures { result ≡ self.now.key }
    {
        self.key
    }

    /// The tag under which the slot holds the key.
    pub fn tag(&self) -> u64
        ensures { result ≡ self.now.tag }
    {
        self.tag
    }

    /// Whether that answer, of that slot and tag, is what the eviction waits for.
    pub fn waits_for(&self, due: Due, slot: u32, tag: u64) -> bool
        ensures { result ≡ waits_for due slot tag (alone self.now) }
    {
        self.due == due && self.slot == slot && self.tag == tag
    }

    /// The slot was looked at. A latest slot's record is to be stored first; a slot that is outdated can be removed at
    /// once. Due where `Peeked` is.
    pub fn peeked(&mut self, latest: bool, num: u64, body: Body) -> Next
        requires { self.old.due ≡ due.Peeked }
        ensures next { next_of result ≡ after_peek (alone self.old) latest num body }
        ensures state { self.new ≡ moved self.old result }
    {
        prove!(self.tries == 0);
        if latest {
            return self.store(num, body);
        }
        Next::Send(self.remove(false, 0))
    }

    /// The record was stored: the removal of the slot, where it still has the number that was stored. Due where
    /// `Stored` is.
    pub fn stored(&mut self) -> Packet
        requires { self.old.due ≡ due.Stored }
        ensures packet { result ≡ after_store (alone self.old) }
        ensures state { self.new ≡ removing self.old }
    {
        let num = self.item.num;
        self.remove(true, num)
    }

    /// The removal was answered. Where the slot has changed meanwhile its record is to be stored again, and after the
    /// third removal the slot is kept. Due where `Removed` is.
    pub fn removed(&mut self, done: bool, _latest: bool, num: u64, body: Body) -> Next
        requires { self.old.due ≡ due.Removed }
        ensures next { next_of result ≡ after_removal (alone self.old) done num body }
        ensures state { self.new ≡ moved self.old result }
    {
        let tries = self.tries;
        if done {
            self.due = Due::Over;
            return Next::Done { tries };
        }
        if tries == TRIES {
            self.due = Due::Over;
            let last = self.shown(num, body);
            return Next::Kept { tries, last };
        }
        self.store(num, body)
    }

    fn store(&mut self, num: u64, body: Body) -> Next
        requires { self.old.tries < 3 }
        ensures next { next_of result ≡ model.Store (shown_item (alone self.old) num body) }
        ensures state { self.new ≡ moved self.old result }
    {
        self.item = self.shown(num, body);
        self.due = Due::Stored;
        Next::Store(self.shown(num, body))
    }

    fn remove(&mut self, latest: bool, num: u64) -> Packet
        requires { self.old.tries < 3 }
        ensures packet { result ≡ Remove self.old.epoch self.old.slot self.old.tag latest num }
        ensures state { self.new ≡ removing self.old }
    {
        self.due = Due::Removed;
        self.tries += 1;
        Packet::Remove {
            epoch: self.epoch,
            slot: self.slot,
            tag: self.tag,
            latest,
            num,
        }
    }

    fn shown(&self, num: u64, body: Body) -> Record
        ensures { result ≡ shown_item (alone self.now) num body }
    {
        Record {
            key: self.key,
            num,
            body,
        }
    }
}
