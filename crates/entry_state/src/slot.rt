use crate::mark::Mark;
use far_base::{Body, Key, Record};
use std::marker::Model;

/// A slot of the cache. It has a key exactly where it is valid. A latest slot is valid and has the newest record of its
/// key; a valid slot that is not latest is outdated, and has at most the newest number that it has seen. Contracts see
/// the fields.
#[derive(Drop)]
pub struct Slot {
    key: Option<Key>,
    tag: u64,
    valid: bool,
    latest: bool,
    num: u64,
    body: Body,
}

impl Model for Slot {
    ghost use Rattle.std.specs.Prelude.{◌≡◌, is_some, IsTrue};
    ghost use Rattle.far_model.specs.View.{SlotView};

    ghost Value = { SlotView };

    ghost view = { λ s. record {
      key = s.key;
      tag = s.tag;
      valid = s.valid;
      latest = s.latest;
      num = s.num;
      body = s.body;
    } };

    ghost invariant = { λ s. (s.valid ≡ is_some s.key) × (IsTrue s.latest → IsTrue s.valid) };
}

ghost use Rattle.std.specs.Prelude.{◌≡◌, ◌↔◌, IsTrue, IsSome, Option, not, if◌then◌else◌};
ghost use Rattle.far_model.specs.Pass as model;
ghost use Rattle.far_model.specs.View.{empty_slot, held_record, shown_body, mark_of, is_slot_of};

impl Slot {
    /// A slot without a key: number 0, tag 0, no body.
    pub fn empty() -> Self
        ensures { result ≡ empty_slot }
    {
        Slot {
            key: None,
            tag: 0,
            valid: false,
            latest: false,
            num: 0,
            body: Body::absent(),
        }
    }

    /// The slot takes a record of its key, and is latest.
    pub fn absorb(&mut self, num: u64, body: Body)
        requires { IsTrue self.old.valid }
        ensures { self.new ≡ model.absorbing num body self.old }
    {
        self.latest = true;
        self.num = num;
        self.body = body;
    }

    /// Whether the slot takes the record of a server's reply. A latest slot does where the reply has a greater number.
    /// An outdated one does where the reply has its tag and a number that is not below its own.
    pub fn takes_reply(&self, tag: Option<u64>, num: u64) -> bool
        ensures { result ≡ model.takes_reply tag num self.now }
    {
        if self.latest {
            return self.num < num;
        }
        tag == Some(self.tag) && self.num <= num
    }

    /// What a server's reply does to the slot of its key: the slot takes the record and is latest, or an outdated slot
    /// has the reply's number where that is greater. The tag is there for a reply to a read.
    pub fn reply_seen(&mut self, tag: Option<u64>, num: u64, body: Body)
        requires { IsTrue self.old.valid }
        ensures { self.new ≡ (if model.takes_reply tag num self.old then model.absorbing num body self.old else
            model.raised num self.old) }
    {
        if self.takes_reply(tag, num) {
            self.absorb(num, body);
        } else if !self.latest {
            self.num = self.num.max(num);
        }
    }

    /// A slot that is not valid takes the key and the tag, and is outdated, with number 0. Whether it was not valid; a
    /// valid slot stays.
    pub fn admit(&mut self, key: Key, tag: u64) -> bool
        ensures slot { self.new ≡ model.admitted key tag self.old }
        ensures done { result ≡ not self.old.valid }
    {
        if self.valid {
            return false;
        }
        *self = Slot {
            key: Some(key),
            tag,
            valid: true,
            latest: false,
            num: 0,
            body: Body::absent(),
        };
        true
    }

    /// Whether the slot is valid and has the tag.
    pub fn is_under(&self, tag: u64) -> bool
        ensures { result ≡ model.is_under tag self.now }
    {
        self.valid && self.tag == tag
    }

    /// Whether the slot may be emptied: it is valid, has the tag, and is outdated, or `latest` is true and its number
    /// is this one.
    pub fn may_go(&self, tag: u64, latest: bool, num: u64) -> bool
        ensures { result ≡ model.may_go tag latest num self.now }
    {
        self.is_under(tag) && (!self.latest || (latest && self.num == num))
    }

    /// Empties the slot where it may be emptied, and says whether it did. Else the slot stays.
    pub fn remove_if(&mut self, tag: u64, latest: bool, num: u64) -> bool
        ensures slot { self.new ≡ (if model.may_go tag latest num self.old then empty_slot else self.old) }
        ensures done { result ≡ model.may_go tag latest num self.old }
    {
        let goes = self.may_go(tag, latest, num);
        if goes {
            *self = Slot::empty();
        }
        goes
    }

    /// The record that the slot holds: there exactly where the slot is latest.
    pub fn view(&self) -> Option<Record>
        ensures record { result ≡ held_record self.now }
        ensures latest { IsSome result ↔ IsTrue self.now.latest }
    {
        if !self.latest {
            return None;
        }
        self.key.map(|key| Record {
            key,
            num: self.num,
            body: self.body,
        })
    }

    /// The mark of the record that the slot holds.
    pub fn mark(&self) -> Option<Mark>
        ensures { result ≡ mark_of (held_record self.now) }
    {
        if !self.latest {
            return None;
        }
        self.key.map(|key| Mark::new(key, self.num))
    }

    /// Whether the slot is valid and has this key.
    pub fn is_of(&self, key: &Key) -> bool
        ensures { result ≡ is_slot_of key.now self.now }
    {
        self.key == Some(*key)
    }

    /// The tag of the slot's admission.
    pub fn tag(&self) -> u64
        ensures { result ≡ self.now.tag }
    {
        self.tag
    }

    /// Whether the slot is latest.
    pub fn is_latest(&self) -> bool
        ensures latest { result ≡ self.now.latest }
        ensures valid { IsTrue result → IsTrue self.now.valid }
    {
        self.latest
    }

    /// The number of the record that the slot holds, or the newest that an outdated slot has seen.
    pub fn num(&self) -> u64
        ensures { result ≡ self.now.num }
    {
        self.num
    }

    /// The body that the slot shows: an outdated slot shows none.
    pub fn shown_body(&self) -> Body
        ensures { result ≡ shown_body self.now }
    {
        if self.latest {
            self.body
        } else {
            Body::absent()
        }
    }
}
