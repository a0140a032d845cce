use crate::turn::Turn;
use client_records::Client;
use far_base::{Config, LogEntry, Memory, Ops, Packet, Party, Plan, Record};
use std::alloc::Global;
use std::marker::Model;

/// A client, and the numbers of the operations that it sends, of which it has sent the first `next`.
#[derive(Drop)]
pub(crate) struct Seat {
    client: Client,
    script: Vec<u32>,
    next: usize,
}

impl Model for Seat {
    ghost use Rattle.far_world.specs.Seats.{SeatView, seat_of};

    ghost Value = { SeatView };

    ghost view = { λ s. seat_of s.client s.next s.script.items };
}

ghost use Rattle.std.specs.Prelude.{◌≡◌, ◌+◌, ◌^◌, ◌<◌, ◌≤◌, ◌++◌, List, [], ◌∷◌, length, max, vec_len, vec_capacity};
ghost use Rattle.std.specs.Prelude.{Some, IsTrue, IfOk, OnOk, OnErr};
ghost use Rattle.far_base.specs.declared.plan.TheConstants.{OP_LIMIT};
ghost use Rattle.far_model.specs.Clients as model;
ghost use Rattle.far_model.specs.Events as events;
ghost use Rattle.far_model.specs.Runs as runs;
ghost use Rattle.far_world.specs.Seats.{IsAnswerOf, IsExpected, IsSeated, TakesTurn, fresh_seat, numbers_from, senders};
ghost use Rattle.far_base.specs.declared.plan.OpLine.{OpLine};

/// The operations of a plan.
pub(crate) fn ops_of(plan: &Plan) -> &Ops
    ensures { result.now ≡ plan.now.ops }
{
    &plan.ops
}

/// The sizes in a plan.
pub(crate) fn config_of(plan: &Plan) -> Config
    ensures { result ≡ plan.now.config }
{
    plan.config
}

/// Who sends each operation.
#[tactic(auto, using(crate::proofs::Scripts::senders_more))]
pub(crate) fn senders_of(alloc: Global, ops: &Ops) -> Result<Vec<u32>, Memory>
    ensures { IfOk result (λ all. all.items ≡ senders ops.now) }
{
    let mut all = Vec::new(alloc);
    for place in 0..ops.len() {
        all.push(ops.client(place)).map_err(|_| Memory)?;
    }
    Ok(all)
}

/// The numbers of the client's operations, in order. Operations are numbered from 1.
#[tactic(auto, using(crate::proofs::Scripts::numbers_more))]
fn script_of(alloc: Global, senders: &[u32], client: u32) -> Result<Vec<u32>, Memory>
    requires { length senders.now ≤ OP_LIMIT }
    ensures { IfOk result (λ script. script.items ≡ numbers_from 1 senders.now client) }
{
    let mut script = Vec::new(alloc);
    for i in 0..senders.len() {
        if senders[i] == client {
            script.push(i as u32 + 1).map_err(|_| Memory)?;
        }
    }
    Ok(script)
}

impl Seat {
    /// A client that has sent nothing, of the operations that these clients send.
    pub(crate) fn new(alloc: Global, senders: &[u32], number: u32) -> Result<Self, Memory>
        requires { length senders.now ≤ OP_LIMIT }
        ensures { IfOk result (λ seat. seat ≡ fresh_seat number (numbers_from 1 senders.now number)) }
    {
        Ok(Seat {
            client: Client::new(alloc, number),
            script: script_of(alloc, senders, number)?,
            next: 0,
        })
    }

    /// Whether the client has no open operation and one left to send.
    pub(crate) fn can_send(&self) -> bool
        ensures { result ≡ events.can_send self.now.state }
    {
        self.client.is_idle() && self.next < self.script.len()
    }

    /// Whether each operation of the client is answered.
    pub(crate) fn is_done(&self) -> bool
        ensures { result ≡ runs.is_done self.now.state }
    {
        self.client.is_idle() && self.next >= self.script.len()
    }

    /// The records that the client preserves, in their order.
    pub(crate) fn preserved(&self) -> &[Record]
        ensures { result.now ≡ self.now.state.preserved }
    {
        self.client.preserved()
    }

    /// How many packets the client sends at most for the packet that comes to it.
    pub(crate) fn most_sent(&self) -> usize
        ensures { result ≡ max (length self.now.state.preserved) 1 }
    {
        self.client.preserved().len().max(1)
    }

    /// Sends the next operation. At an error nothing is changed.
    pub(crate) fn send_next(&mut self, ops: &Ops, turn: &mut Turn) -> Result<(), Memory>
        requires seated { IsSeated ops.now self.old.number self.old }
        requires ops { length ops.now ≤ OP_LIMIT }
        requires can { IsTrue (events.can_send self.old.state) }
        requires out { vec_len turn.old.out < vec_capacity turn.old.out }
        requires notes { vec_len turn.old.notes < vec_capacity turn.old.notes }
        ensures ok { OnOk result (TakesTurn ops.now self.old turn.old
            (events.next_sent ops.now self.old.number self.old.state self.old.state.left) self.new turn.new) }
        ensures err { OnErr result (self.new ≡ self.old) }
    {
        let op = self.script[self.next];
        let line = ops.line(op as usize - 1);
        self.client.send(op, &line, &mut turn.out)?;
        self.next += 1;
        turn.note(LogEntry::Sent { op, line });
        Ok(())
    }

    /// The answer to the open operation closes it.
    fn take_answer(&mut self, packet: &Packet, turn: &mut Turn)
        requires answer { IsAnswerOf self.old.state.waits packet.now }
        requires notes { vec_len turn.old.notes < vec_capacity turn.old.notes }
        ensures { (ops : List OpLine) → IsSeated ops self.old.number self.old → TakesTurn ops self.old turn.old
            (model.client_takes ops self.old.number self.old.state packet.now) self.new turn.new }
    {
        let op = self.client.answered(packet);
        turn.note(LogEntry::Answered { op });
    }

    /// The client tells what it preserves.
    fn take_ask(&self, round: u32, turn: &mut Turn)
        requires few { length self.now.state.preserved < 2 ^ 32 }
        requires out { vec_len turn.old.out + max (length self.now.state.preserved) 1 ≤ vec_capacity turn.old.out }
        ensures out { turn.new.out.items ≡ turn.old.out.items
            ++ model.tells round self.now.number self.now.state.preserved }
        ensures notes { turn.new.notes ≡ turn.old.notes }
    {
        for i in 0..self.most_sent() {
            let packet = self.client.tell(round, i as u32);
            turn.send(Party::Controller, &packet);
        }
    }

    /// Takes a packet that came to the client.
    pub(crate) fn take(&mut self, packet: &Packet, turn: &mut Turn)
        requires expected { IsExpected self.old.state.waits packet.now }
        requires few { length self.old.state.preserved < 2 ^ 32 }
        requires out { vec_len turn.old.out + max (length self.old.state.preserved) 1 ≤ vec_capacity turn.old.out }
        requires notes { vec_len turn.old.notes < vec_capacity turn.old.notes }
        ensures { (ops : List OpLine) → IsSeated ops self.old.number self.old → TakesTurn ops self.old turn.old
            (model.client_takes ops self.old.number self.old.state packet.now) self.new turn.new }
    {
        match *packet {
            Packet::GetAns { .. } => self.take_answer(packet, turn),
            Packet::WriteAns { .. } => self.take_answer(packet, turn),
            Packet::Release { point } => self.client.released(point),
            Packet::Ask { round } => self.take_ask(round, turn),
            _ => {}
        }
    }
}
