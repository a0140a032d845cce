use crate::bytes::FrameWire;
use crate::decoding::decode_frame;
use crate::encoding::encode_frame;
use crate::frame::Frame;
use crate::receiver::{LinkReceiver, Taken};
use crate::sender::LinkSender;
use far_base::Memory;
use packet_codec::Wire;
use std::alloc::Global;
use std::marker::Model;

/// What may happen at a link.
#[derive(Clone, Copy)]
pub enum LinkEvent {
    /// The message is offered to the sender.
    Offer(Wire),
    /// The sender sends the message at this place of those not acknowledged again, counted from 0.
    Again(u64),
    /// The frame at this place of all sent so far comes to its other side, counted from 0.
    Carry(u64),
}

/// What an event did. Frames are named by their place among all sent so far.
#[derive(Clone, Copy)]
pub enum LinkOutcome {
    /// This frame was sent.
    Sent(u64),
    /// The window was full, and the message was not taken.
    Full,
    /// There is no such message, or no such frame.
    Nothing,
    /// The message of this number was handed up, and this frame acknowledges it.
    Up(u64, Wire, u64),
    /// The message of this number was seen before, and this frame acknowledges it once more.
    Seen(u64, u64),
    /// The sender was told that the message of this number was seen.
    Acked(u64),
}

/// A sender, a receiver and all frames sent so far by both: each may be carried any number of times, in any order, or
/// never.
#[derive(Drop)]
pub struct Link {
    sender: LinkSender,
    receiver: LinkReceiver,
    frames: Vec<FrameWire>,
}

impl Model for Link {
    ghost use Rattle.retry_link.specs.Link.{LinkState};

    ghost Value = { LinkState };

    ghost view = { λ l. record { sender = l.sender; receiver = l.receiver; frames = l.frames.items } };
}

ghost use Rattle.std.specs.Prelude.{◌≡◌, ◌-◌, ◌^◌, ◌<◌, ◌++◌, [], ◌∷◌, length, map, slice_get, Some, IfOk};
ghost use Rattle.std.specs.Prelude.{IfSome, OnOk, OnErr};
ghost use Rattle.std.specs.Prelude.{vec_capacity, vec_len};
ghost use Rattle.retry_link.specs.Frames.{IsMessage, IsSendable, frame_bytes};
ghost use Rattle.retry_link.specs.Link.{OffersMessage, carried, frame_in, happens, opening_link, outcome};
ghost use Rattle.retry_link.specs.Link.{sent, told_by, told_carried, told_of};
ghost use Rattle.retry_link.specs.Receiver.{acknowledged, after_taken, up_with};
ghost use Rattle.retry_link.specs.Reliable.{MayGoOn};
ghost use Rattle.retry_link.specs.Sender.{after_ack, after_offer, data_of, offered};
ghost use Rattle.retry_link.specs.declared.frame.TheConstants.{WINDOW};

/// Puts the frame behind the others, for which there is room, and answers its place.
fn push_frame(frames: &mut Vec<FrameWire>, frame: &Frame) -> u64
    requires room { vec_len frames.old < vec_capacity frames.old }
    requires sendable { IsSendable frame.now }
    ensures frames { frames.new.items ≡ frames.old.items ++ frame_bytes frame.now ∷ [] }
    ensures place { result ≡ length frames.old.items }
{
    let place = frames.len() as u64;
    frames.push_reserved(encode_frame(frame));
    place
}

fn offer_in(sender: &mut LinkSender, frames: &mut Vec<FrameWire>, wire: &Wire) -> LinkOutcome
    requires room { vec_len frames.old < vec_capacity frames.old }
    requires message { IsMessage wire.now }
    requires next { sender.old.next < 2 ^ 64 - 1 }
    ensures sender { sender.new ≡ after_offer sender.old wire.now }
    ensures frames { frames.new.items ≡ sent frames.old.items (offered sender.old wire.now) }
    ensures outcome { result ≡ told_of LinkOutcome.Full (length frames.old.items) (offered sender.old wire.now) }
{
    match sender.offer(*wire) {
        Some(frame) => LinkOutcome::Sent(push_frame(frames, &frame)),
        None => LinkOutcome::Full,
    }
}

fn again_in(sender: &LinkSender, frames: &mut Vec<FrameWire>, i: u64) -> LinkOutcome
    requires { vec_len frames.old < vec_capacity frames.old }
    ensures frames { frames.new.items ≡ sent frames.old.items (slice_get (map data_of sender.now.unacked) i) }
    ensures outcome { result ≡ told_of LinkOutcome.Nothing (length frames.old.items)
        (slice_get (map data_of sender.now.unacked) i) }
{
    if i >= u64::from(sender.unacked()) {
        return LinkOutcome::Nothing;
    }
    let frame = sender.again(i as u32);
    LinkOutcome::Sent(push_frame(frames, &frame))
}

/// The frame at this place.
fn frame_at(frames: &[FrameWire], f: u64) -> Option<Frame>
    ensures { result ≡ frame_in (slice_get frames.now f) }
{
    if f >= frames.len() as u64 {
        return None;
    }
    match decode_frame(frames[f as usize].bytes()) {
        Ok(frame) => Some(frame),
        Err(_) => None,
    }
}

fn take_data(
    receiver: &mut LinkReceiver,
    frames: &mut Vec<FrameWire>,
    num: u64,
    wire: &Wire,
) -> LinkOutcome
    requires room { vec_len frames.old < vec_capacity frames.old }
    requires base { receiver.old.base < 2 ^ 64 - 1 - WINDOW }
    ensures receiver { receiver.new ≡ after_taken receiver.old num }
    ensures frames { frames.new.items ≡ sent frames.old.items (acknowledged receiver.old num) }
    ensures outcome { result ≡ told_by (length frames.old.items) num (up_with receiver.old num wire.now)
        (acknowledged receiver.old num) }
{
    let Taken { up, ack } = receiver.take_in(num, *wire);
    let Some(ack) = ack else {
        return LinkOutcome::Nothing;
    };
    let place = push_frame(frames, &ack);
    match up {
        Some(wire) => LinkOutcome::Up(num, wire, place),
        None => LinkOutcome::Seen(num, place),
    }
}

/// The frame comes to its other side.
fn take_frame(
    sender: &mut LinkSender,
    receiver: &mut LinkReceiver,
    frames: &mut Vec<FrameWire>,
    frame: &Frame,
) -> LinkOutcome
    requires room { vec_len frames.old < vec_capacity frames.old }
    requires base { receiver.old.base < 2 ^ 64 - 1 - WINDOW }
    ensures state { record { sender = sender.new; receiver = receiver.new; frames = frames.new.items } ≡ carried
        (record { sender = sender.old; receiver = receiver.old; frames = frames.old.items }) (Some frame.now) }
    ensures outcome { result ≡ told_carried (record {
      sender = sender.old;
      receiver = receiver.old;
      frames
          = frames.old.items;
    }) (Some frame.now) }
{
    match frame {
        Frame::Data { num, wire } => take_data(receiver, frames, *num, wire),
        Frame::Ack { num } => {
            sender.acked(*num);
            LinkOutcome::Acked(*num)
        }
    }
}

impl Link {
    /// Nothing was offered, and nothing was sent.
    pub fn new(alloc: Global) -> Result<Self, Memory>
        ensures { IfOk result (λ link. link ≡ opening_link) }
    {
        let sender = LinkSender::new(alloc)?;
        Ok(Link {
            sender,
            receiver: LinkReceiver::new(),
            frames: Vec::new(alloc),
        })
    }

    /// How many messages are not acknowledged.
    pub fn unacked(&self) -> u32
        ensures { result ≡ length self.now.sender.unacked }
    {
        self.sender.unacked()
    }

    /// What the event does, and what it tells. Where memory is refused nothing is changed.
    pub fn step(&mut self, event: &LinkEvent) -> Result<LinkOutcome, Memory>
        requires message { OffersMessage event.now }
        requires may { MayGoOn self.old }
        ensures state { OnOk result (self.new ≡ happens self.old event.now) }
        ensures outcome { IfOk result (λ told. told ≡ outcome self.old event.now) }
        ensures kept { OnErr result (self.new ≡ self.old) }
    {
        self.frames.reserve(1)?;
        Ok(match event {
            LinkEvent::Offer(wire) => offer_in(&mut self.sender, &mut self.frames, wire),
            LinkEvent::Again(i) => again_in(&self.sender, &mut self.frames, *i),
            LinkEvent::Carry(f) => match frame_at(&self.frames, *f) {
                Some(frame) => take_frame(
                    &mut self.sender,
                    &mut self.receiver,
                    &mut self.frames,
                    &frame,
                ),
                None => LinkOutcome::Nothing,
            },
        })
    }
}
