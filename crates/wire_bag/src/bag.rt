use crate::addressees::{PLACES, count_less, count_more, first_to, has_some, no_counts};
use far_base::{Memory, Packet, Party};
use packet_codec::{Wire, encode_into};
use std::alloc::Global;
use std::marker::Model;

/// Who sent a message, to whom it goes, and its bytes.
type Message = (Party, Party, Wire);

/// The messages on their way, oldest first. A message stays at its place in memory while others
/// are taken out, and its box serves a later one.
#[derive(Drop)]
pub struct Bag {
    alloc: Global,
    // The first `count` boxes hold the messages, the rest are free.
    boxes: Vec<Box<Message>>,
    count: u32,
    // How many of the messages go to the parties of each place.
    counts: [u32; PLACES],
}

impl Model for Bag {
    ghost use Rattle.std.specs.Prelude.{◌-◌, ◌≤◌, vec_len};
    ghost use Rattle.wire_bag.specs.Addressees.{AreCounted};
    ghost use Rattle.wire_bag.specs.BagView.{BagView, messages_of};

    ghost Value = { BagView };

    ghost view = { λ b. record { messages = messages_of b.count b.boxes.items; spare = vec_len b.boxes - b.count } };

    ghost invariant = { λ b. (b.count ≤ vec_len b.boxes) × AreCounted b.counts (messages_of b.count b.boxes.items) };
}

ghost use Rattle.std.specs.Prelude.{◌≡◌, ◌+◌, ◌-◌, ◌^◌, ◌<◌, ◌≤◌, ◌++◌, [], ◌∷◌, not};
ghost use Rattle.std.specs.Prelude.{length, remove, slice_get, Some, Ok, OnOk, OnErr};
ghost use Rattle.std.specs.List.{list_all};
ghost use Rattle.packet_codec.specs.Packets.{packet_of};
ghost use Rattle.packet_codec.specs.Spelling.{Spells, spelled};
ghost use Rattle.wire_bag.specs.Addressees.{oldest_to};
ghost use Rattle.wire_bag.specs.BagView.{are_from_others, is_same};

fn are_from_others(boxes: &[Box<Message>], who: Party) -> bool
    ensures { result ≡ list_all (λ b. not (is_same b.value.0 who)) boxes.now }
{
    boxes.iter().all(|message| message.0 != who)
}

impl Bag {
    /// No messages.
    pub fn new(alloc: Global) -> Self
        ensures { result.messages ≡ [] }
    {
        Bag {
            alloc,
            boxes: Vec::new(alloc),
            count: 0,
            counts: no_counts(),
        }
    }

    fn add_box(&mut self) -> Result<(), Memory>
        ensures messages { self.new.messages ≡ self.old.messages }
        ensures spare { OnOk result (self.new.spare ≡ self.old.spare + 1) }
        ensures full { OnErr result (self.new.spare ≡ self.old.spare) }
    {
        self.boxes.reserve(1)?;
        let nothing = (Party::Switch, Party::Switch, Wire::new());
        let free = Box::new(self.alloc, nothing).map_err(|_refused| Memory)?;
        self.boxes.push_reserved(free);
        Ok(())
    }

    /// Makes room for at least `n` more messages. The list stays, also where memory was refused.
    pub fn reserve(&mut self, n: u32) -> Result<(), Memory>
        ensures messages { self.new.messages ≡ self.old.messages }
        ensures spare { OnOk result (n ≤ self.new.spare) }
        ensures kept { self.old.spare ≤ self.new.spare }
        ensures full { OnErr result (self.old.spare < n) }
    {
        while self.boxes.len() - (self.count as usize) < n as usize {
            self.add_box()?;
        }
        Ok(())
    }

    /// Adds a message that says the packet, for which there is room: its bytes are the packet's one spelling.
    pub fn put(&mut self, from: Party, to: Party, packet: &Packet)
        requires spare { 0 < self.old.spare }
        requires few { length self.old.messages < 2 ^ 32 - 1 }
        ensures messages { self.new.messages ≡ self.old.messages ++ (from, to, (spelled packet.now).bytes) ∷ [] }
        ensures spare { self.old.spare ≤ self.new.spare + 1 }
        ensures spelled { Spells (spelled packet.now).bytes packet.now }
        ensures again { packet_of (spelled packet.now).bytes ≡ Ok packet.now }
    {
        let free = &mut *self.boxes[self.count as usize];
        free.0 = from;
        free.1 = to;
        encode_into(&mut free.2, packet);
        self.count += 1;
        count_more(&mut self.counts, to);
    }

    /// Takes the message at place `i` out, counted from 0. The others keep their order.
    pub fn take(&mut self, i: u32) -> (Party, Party, Wire)
        requires { i < length self.old.messages }
        ensures taken { slice_get self.old.messages i ≡ Some result }
        ensures messages { self.new.messages ≡ remove self.old.messages i }
        ensures spare { self.old.spare ≤ self.new.spare }
    {
        let message = self.get(i);
        self.remove(i);
        message
    }

    /// Takes the message at place `i` away, counted from 0. The others keep their order.
    pub fn remove(&mut self, i: u32)
        requires { i < length self.old.messages }
        ensures messages { self.new.messages ≡ remove self.old.messages i }
        ensures spare { self.old.spare ≤ self.new.spare }
    {
        let to = self.at(i).1;
        self.boxes[i as usize..self.count as usize].rotate_left(1);
        self.count -= 1;
        count_less(&mut self.counts, to);
    }

    /// How many messages there are.
    pub fn count(&self) -> u32
        ensures { result ≡ length self.now.messages }
    {
        self.count
    }

    /// The message at place `i`, counted from 0, where it stands.
    pub fn at(&self, i: u32) -> &(Party, Party, Wire)
        requires { i < length self.now.messages }
        ensures { slice_get self.now.messages i ≡ Some result.now }
    {
        &self.boxes[i as usize]
    }

    /// The message at place `i`, counted from 0, which stays.
    pub fn get(&self, i: u32) -> (Party, Party, Wire)
        requires { i < length self.now.messages }
        ensures { slice_get self.now.messages i ≡ Some result }
    {
        *self.at(i)
    }

    /// The place of the oldest message to the party, counted from 0. Where the party's count tells that there is none,
    /// no message is looked at.
    pub fn oldest_to(&self, who: Party) -> Option<u32>
        ensures { result ≡ oldest_to who self.now.messages }
    {
        if !has_some(&self.counts, who) {
            return None;
        }
        first_to(&self.boxes[..self.count as usize], who)
    }

    /// Whether no message is from the party.
    pub fn none_from(&self, who: Party) -> bool
        ensures { result ≡ are_from_others who self.now.messages }
    {
        are_from_others(&self.boxes[..self.count as usize], who)
    }
}
