use crate::frame::{Frame, WINDOW};
use far_base::Memory;
use packet_codec::Wire;
use std::alloc::Global;
use std::marker::Model;

/// The sender: the next sequence number, and the messages that are not acknowledged, in the order of their numbers.
#[derive(Drop)]
pub struct LinkSender {
    next: u64,
    unacked: Vec<(u64, Wire)>,
}

impl Model for LinkSender {
    ghost use Rattle.std.specs.Prelude.{◌≤◌, vec_capacity};
    ghost use Rattle.retry_link.specs.declared.frame.TheConstants.{WINDOW};
    ghost use Rattle.retry_link.specs.Sender.{SenderView, IsWindow};

    ghost Value = { SenderView };

    ghost view = { λ s. record { next = s.next; unacked = s.unacked.items } };

    ghost invariant = { λ s. IsWindow s.next s.unacked.items × (WINDOW ≤ vec_capacity s.unacked) };
}

ghost use Rattle.std.specs.Prelude.{◌≡◌, ◌+◌, ◌-◌, ◌^◌, ◌<◌, ◌≤◌, nat_le, length, map, filter, slice_get, Some};
ghost use Rattle.std.specs.Prelude.{IfOk, IfSome};
ghost use Rattle.std.specs.Prelude.{vec_capacity};
ghost use Rattle.retry_link.specs.Frames.{IsMessage, IsSendable};
ghost use Rattle.retry_link.specs.Sender.{after_ack, after_offer, data_of, is_full, is_full_from, is_other, offered};
ghost use Rattle.retry_link.specs.Sender.{opening_sender};

/// Whether the window that begins at the first of the messages ends before the next number.
fn is_full(next: u64, unacked: &[(u64, Wire)]) -> bool
    ensures { result ≡ is_full_from next unacked.now }
{
    match unacked.first() {
        Some(least) => next.saturating_sub(least.0) >= WINDOW as u64,
        None => false,
    }
}

/// Takes the message of the number away.
fn drop_number(unacked: &mut Vec<(u64, Wire)>, num: u64)
    ensures items { unacked.new.items ≡ filter (is_other num) unacked.old.items }
    ensures room { vec_capacity unacked.new ≡ vec_capacity unacked.old }
{
    unacked.retain(|message| message.0 != num);
}

impl LinkSender {
    /// No messages, and the first number is 1. There is room for as many messages as the window has numbers.
    pub fn new(alloc: Global) -> Result<Self, Memory>
        ensures { IfOk result (λ sender. sender ≡ opening_sender) }
    {
        let unacked = Vec::with_capacity(alloc, WINDOW)?;
        Ok(LinkSender { next: 1, unacked })
    }

    /// The frame of the message under the next number. `None` exactly where the window is full: there is an
    /// unacknowledged message, and the next number is not below the least number of one plus `WINDOW`; the sender is
    /// then as it was.
    pub fn offer(&mut self, wire: Wire) -> Option<Frame>
        requires message { IsMessage wire }
        requires next { self.old.next < 2 ^ 64 - 1 }
        ensures frame { result ≡ offered self.old wire }
        ensures sender { self.new ≡ after_offer self.old wire }
        ensures sendable { IfSome result IsSendable }
    {
        if is_full(self.next, &self.unacked) {
            return None;
        }
        let num = self.next;
        self.unacked.push_reserved((num, wire));
        self.next += 1;
        Some(Frame::Data { num, wire })
    }

    /// How many messages are not acknowledged.
    pub fn unacked(&self) -> u32
        ensures { result ≡ length self.now.unacked }
    {
        self.unacked.len() as u32
    }

    /// The frame of the `i`-th message that is not acknowledged, counted from 0.
    pub fn again(&self, i: u32) -> Frame
        requires { i < length self.now.unacked }
        ensures frame { slice_get (map data_of self.now.unacked) i ≡ Some result }
        ensures sendable { IsSendable result }
    {
        let message = &self.unacked[i as usize];
        Frame::Data {
            num: message.0,
            wire: message.1,
        }
    }

    /// The message of this number is acknowledged. Other numbers change nothing.
    pub fn acked(&mut self, num: u64)
        ensures { self.new ≡ after_ack num self.old }
    {
        drop_number(&mut self.unacked, num);
    }
}
