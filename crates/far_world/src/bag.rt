use far_base::{Memory, Out, Packet, Party};
use packet_codec::decode_into;
use std::alloc::Global;
use std::marker::Model;

/// The messages on their way, oldest first, each in bytes. Contracts see the packets that they spell.
#[derive(Drop)]
pub(crate) struct Bag {
    wires: wire_bag::Bag,
}

impl Model for Bag {
    ghost use Rattle.std.specs.Prelude.{map};
    ghost use Rattle.far_world.specs.RoomyBag.{AreSpellings, RoomyBag, message_of};

    ghost Value = { RoomyBag };

    ghost view = { λ b. record { messages = map message_of b.wires.messages; room = b.wires.spare } };

    ghost invariant = { λ b. AreSpellings b.wires.messages };
}

ghost use Rattle.std.specs.Prelude.{◌≡◌, ◌+◌, ◌-◌, ◌^◌, ◌<◌, ◌≤◌, ◌++◌, ◌&&◌, not, [], ◌∷◌, length, remove, take};
ghost use Rattle.std.specs.Prelude.{slice_index_or, OnOk};
ghost use Rattle.std.specs.List.{count_by, list_any};
ghost use Rattle.far_base.specs.declared.packet.Message.{Message};
ghost use Rattle.far_model.specs.Events.{can_deliver, is_switch};
ghost use Rattle.far_model.specs.Parties.{messages_from, to_party};
ghost use Rattle.far_model.specs.Members.{is_empty};
ghost use Rattle.far_world.specs.Choices.{nothing_sent};
ghost use Rattle.far_world.specs.Firsts.{oldest_to};

impl Bag {
    /// No messages.
    pub(crate) fn new(alloc: Global) -> Self
        ensures { result.messages ≡ [] }
    {
        Bag {
            wires: wire_bag::Bag::new(alloc),
        }
    }

    /// How many messages there are.
    pub(crate) fn len(&self) -> u32
        ensures { result ≡ length self.now.messages }
    {
        self.wires.count()
    }

    /// Whether there are none.
    pub(crate) fn is_empty(&self) -> bool
        ensures { result ≡ is_empty self.now.messages }
    {
        self.wires.count() == 0
    }

    /// Makes room for so many more messages.
    pub(crate) fn reserve(&mut self, count: u32) -> Result<(), Memory>
        ensures messages { self.new.messages ≡ self.old.messages }
        ensures room { OnOk result (count ≤ self.new.room) }
    {
        self.wires.reserve(count)
    }

    /// Adds a packet from one party to another, as its spelling. There is room for one more message.
    pub(crate) fn put(&mut self, from: Party, to: Party, packet: &Packet)
        requires room { 0 < self.old.room }
        requires few { length self.old.messages < 2 ^ 31 }
        ensures messages { self.new.messages ≡ self.old.messages ++ messages_from from (to_party to packet.now ∷ []) }
        ensures room { self.old.room ≤ self.new.room + 1 }
    {
        self.wires.put(from, to, packet);
    }

    /// Adds what a party sends, as its spelling. There is room for one more message.
    pub(crate) fn post(&mut self, from: Party, out: &Out)
        requires room { 0 < self.old.room }
        requires few { length self.old.messages < 2 ^ 31 }
        ensures messages { self.new.messages ≡ self.old.messages ++ messages_from from (out.now ∷ []) }
        ensures room { self.old.room ≤ self.new.room + 1 }
    {
        self.put(from, out.to, &out.packet);
    }

    /// Reads what the message at the place says from its bytes, and puts it where the packet stands.
    pub(crate) fn read(&self, place: u32, packet: &mut Packet)
        requires { place < length self.now.messages }
        ensures { packet.new ≡ (slice_index_or self.now.messages place nothing_sent).packet }
    {
        let (_, _, wire) = self.wires.at(place);
        if decode_into(wire.bytes(), packet).is_err() {
            unreachable!();
        }
    }

    /// To whom the message at the place goes.
    pub(crate) fn addressee(&self, place: u32) -> Party
        requires { place < length self.now.messages }
        ensures { result ≡ (slice_index_or self.now.messages place nothing_sent).to }
    {
        self.wires.at(place).1
    }

    /// Takes the message at the place out. The later ones move down, and no room is lost.
    #[tactic(auto, using(crate::proofs::Bytes::map_remove))]
    pub(crate) fn remove(&mut self, place: u32)
        requires { place < length self.old.messages }
        ensures messages { self.new.messages ≡ remove self.old.messages place }
        ensures room { self.old.room ≤ self.new.room }
    {
        self.wires.remove(place);
    }

    /// The place of the oldest message to the party. No message is looked at where none is counted for it.
    #[tactic(auto, using(crate::proofs::Firsts::oldest_is))]
    pub(crate) fn oldest_to(&self, who: Party) -> Option<u32>
        ensures { result ≡ oldest_to who self.now.messages }
    {
        self.wires.oldest_to(who)
    }

    /// Whether the switch sent none of the messages.
    pub(crate) fn none_from_switch(&self) -> bool
        ensures { result ≡ not (list_any (λ (m : Message). is_switch m.from) self.now.messages) }
    {
        self.wires.none_from(Party::Switch)
    }
}
