use crate::records::{drop_up_to, put};
use far_base::{Memory, Op, OpLine, Out, Packet, Party, Record};
use std::alloc::Global;
use std::marker::Model;

/// A client: its number, the operation that it sent last and whether it waits for it, the version number up to which
/// writes are safe, and the records above it that only the switch has, one of each key, in the order in which the keys
/// were first preserved.
#[derive(Drop)]
pub struct Client {
    number: u32,
    is_open: bool,
    last: Option<(u32, OpLine)>,
    released: u64,
    preserved: Vec<Record>,
}

impl Model for Client {
    ghost use Rattle.std.specs.Prelude.{vec_len, vec_capacity};
    ghost use Rattle.client_records.specs.ClientView.{ClientView, HasRoom, open_if};

    ghost Value = { ClientView };

    ghost view = { λ c. record {
      number = c.number;
      waits = open_if c.is_open c.last;
      released = c.released;
      preserved = c.preserved.items;
    } };

    ghost invariant = { λ c. HasRoom (open_if c.is_open c.last) (vec_len c.preserved) (vec_capacity c.preserved) };
}

ghost use Rattle.std.specs.Prelude.{◌≡◌, ◌^◌, ◌<◌, ◌++◌, ◌∷◌, max, length, [], None, Some, slice_get, is_none};
ghost use Rattle.std.specs.Prelude.{vec_len, vec_capacity, OnOk, OnErr};
ghost use Rattle.far_base.specs.declared.party.Party.TheVariants.{Controller, Switch as TheSwitch};
ghost use Rattle.far_model.specs.Clients as model;
ghost use Rattle.far_model.specs.Parties.{to_party};
ghost use Rattle.client_records.specs.ClientView.{ClientView, IsAnswer, open_op, state_of, seen_as, after_answer};

/// Puts a copy of the item behind the others, for which there is room.
fn put_last<T: Copy>(items: &mut Vec<T>, item: &T)
    requires { vec_len items.old < vec_capacity items.old }
    ensures { items.new.items ≡ items.old.items ++ item.now ∷ [] }
{
    items.push_reserved(*item);
}

/// Puts the operation in the place of the one that was there.
fn put_over(last: &mut Option<(u32, OpLine)>, op: u32, line: &OpLine)
    ensures { last.new ≡ Some (op, line.now) }
{
    match last {
        Some((number, kept)) => {
            *number = op;
            *kept = *line;
        }
        None => *last = Some((op, *line)),
    }
}

/// Puts what the operation asks the switch behind what is sent, for which there is room.
fn ask(caller: u32, op: u32, line: &OpLine, out: &mut Vec<Out>)
    requires { vec_len out.old < vec_capacity out.old }
    ensures { out.new.items ≡ out.old.items ++ to_party TheSwitch (model.request caller op line.now) ∷ [] }
{
    let to = Party::Switch;
    let key = line.key;
    match line.op {
        Op::Get => {
            let packet = Packet::GetReq { caller, op, key };
            put_last(out, &Out { to, packet });
        }
        Op::Put | Op::Del => {
            let body = line.body;
            let packet = Packet::WriteReq {
                caller,
                op,
                key,
                body,
            };
            put_last(out, &Out { to, packet });
        }
    }
}

impl Client {
    /// A client that waits for nothing and preserves nothing.
    pub fn new(alloc: Global, number: u32) -> Self
        ensures { result ≡ record { number = number; waits = None; released = 0; preserved = [] } }
    {
        Client {
            number,
            is_open: false,
            last: None,
            released: 0,
            preserved: Vec::new(alloc),
        }
    }

    /// Whether no operation is open.
    pub fn is_idle(&self) -> bool
        ensures { result ≡ is_none self.now.waits }
    {
        !self.is_open || self.last.is_none()
    }

    /// The preserved records, in the order in which their keys were first preserved.
    pub fn preserved(&self) -> &[Record]
        ensures { result.now ≡ self.now.preserved }
    {
        &self.preserved
    }

    /// Opens operation `op`, and puts what it asks the switch behind what is sent, for which there is room. It makes
    /// room for the record that the answer may have preserved; where memory is refused nothing is changed.
    pub fn send(&mut self, op: u32, line: &OpLine, out: &mut Vec<Out>) -> Result<(), Memory>
        requires idle { self.old.waits ≡ None }
        requires room { vec_len out.old < vec_capacity out.old }
        ensures packet { OnOk result (out.new.items ≡ out.old.items
            ++ to_party TheSwitch (model.request self.old.number op line.now) ∷ []) }
        ensures waits { OnOk result (self.new ≡ record self.old { waits = Some (op, line.now) }) }
        ensures unchanged { OnErr result (self.new ≡ self.old) }
        ensures unsent { OnErr result (out.new ≡ out.old) }
    {
        self.preserved.reserve(1)?;
        put_over(&mut self.last, op, line);
        self.is_open = true;
        ask(self.number, op, line, out);
        Ok(())
    }

    /// Closes the open operation, whose number is the answer. A write that only the switch has, above the released
    /// number, is preserved.
    pub fn answered(&mut self, packet: &Packet) -> u32
        requires { IsAnswer self.old.waits packet.now }
        ensures op { Some result ≡ open_op self.old.waits }
        ensures client { self.new ≡ after_answer self.old packet.now }
    {
        let Some((op, line)) = &self.last else {
            unreachable!()
        };
        let op = *op;
        if let Packet::WriteAns { num, kept, .. } = packet {
            if *kept && self.released < *num {
                put(&mut self.preserved, line, *num);
            }
        }
        self.is_open = false;
        op
    }

    /// Writes up to the number are safe: the released number becomes the greater of both, and records up to it are
    /// dropped.
    pub fn released(&mut self, point: u64)
        ensures { self.new ≡ seen_as self.old (model.released_to point (state_of [] self.old)) }
    {
        self.released = self.released.max(point);
        drop_up_to(&mut self.preserved, self.released);
    }

    /// What the client tells in the round of its `i`-th preserved record, counted from 0; with none, that there is
    /// none. An `Ask` is answered by all of these in rising order.
    pub fn tell(&self, round: u32, i: u32) -> Packet
        requires few { length self.now.preserved < 2 ^ 32 }
        requires there { i < max (length self.now.preserved) 1 }
        ensures { slice_get (model.tells round self.now.number self.now.preserved) i ≡ Some
            (to_party Controller result) }
    {
        Packet::Told {
            round,
            caller: self.number,
            total: self.preserved.len() as u32,
            item: self.preserved.get(i as usize).copied(),
        }
    }
}
