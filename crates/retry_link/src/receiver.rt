use crate::frame::{Frame, WINDOW};
use packet_codec::Wire;
use std::marker::Model;

/// The receiver: a base up to which all sequence numbers were seen, and a mark for each number of the window behind it.
#[derive(Drop)]
pub struct LinkReceiver {
    base: u64,
    marks: [bool; WINDOW],
}

impl Model for LinkReceiver {
    ghost use Rattle.retry_link.specs.Receiver.{ReceiverView, IsOpen};

    ghost Value = { ReceiverView };

    ghost view = { λ r. record { base = r.base; marks = r.marks } };

    ghost invariant = { λ r. IsOpen r.marks };
}

ghost use Rattle.std.specs.Prelude.{◌≡◌, ◌+◌, ◌-◌, ◌^◌, ◌<◌, ◌≤◌, false, true, length, take, drop, replicate, ◌++◌};
ghost use Rattle.std.specs.Prelude.{slice_index_or, slice_set};
ghost use Rattle.retry_link.specs.Receiver.{acknowledged, after_taken, has_seen, is_within, marked, on_in_front};
ghost use Rattle.retry_link.specs.Receiver.{opening_receiver, turned, up_with};
ghost use Rattle.retry_link.specs.declared.frame.TheConstants.{WINDOW};

/// What a receiver makes of a message: the message where it is new, and its acknowledgement where its number lies
/// within the window or before it.
#[derive(Clone, Copy)]
pub struct Taken {
    /// The message, which is handed up.
    pub up: Option<Wire>,
    /// The frame that is sent back.
    pub ack: Option<Frame>,
}

/// How many marks at the front are on.
fn on_in_front(marks: &[bool]) -> usize
    ensures count { result ≡ on_in_front marks.now }
    ensures bound { result ≤ length marks.now }
{
    let mut at = 0;
    while at < marks.len() && marks[at] {
        at += 1;
    }
    at
}

fn turn_off(marks: &mut [bool])
    ensures { marks.new ≡ replicate (length marks.old) false }
{
    for mark in marks {
        *mark = false;
    }
}

/// The marks behind the first so many come to the front, and marks that are off follow them.
fn move_up(marks: &mut [bool], count: usize)
    requires { count ≤ length marks.old }
    ensures { marks.new ≡ drop count marks.old ++ replicate count false }
{
    let rest = marks.len() - count;
    marks.rotate_left(count);
    turn_off(&mut marks[rest..]);
}

/// The mark is on; then the marks at the front that are on go. How many they were.
fn mark(marks: &mut [bool], place: usize) -> usize
    requires { place < length marks.old }
    ensures count { result ≡ on_in_front (slice_set marks.old place true) }
    ensures marks { marks.new ≡ turned (slice_set marks.old place true) }
    ensures bound { result ≤ length marks.old }
{
    marks[place] = true;
    let count = on_in_front(marks);
    move_up(marks, count);
    count
}

impl LinkReceiver {
    /// Nothing was seen.
    pub fn new() -> Self
        ensures { result ≡ opening_receiver }
    {
        LinkReceiver {
            base: 0,
            marks: [false; WINDOW],
        }
    }

    fn is_within(&self, num: u64) -> bool
        requires { self.now.base + WINDOW < 2 ^ 64 }
        ensures { result ≡ is_within self.now num }
    {
        0 < num && num <= self.base + WINDOW as u64
    }

    fn has_seen(&self, num: u64) -> bool
        requires { num ≤ self.now.base + WINDOW }
        ensures { result ≡ has_seen self.now num }
    {
        num <= self.base || self.marks[(num - self.base - 1) as usize]
    }

    fn note(&mut self, num: u64)
        requires low { self.old.base < num }
        requires high { num ≤ self.old.base + WINDOW }
        requires end { self.old.base + WINDOW < 2 ^ 64 }
        ensures { self.new ≡ marked self.old num }
    {
        let place = (num - self.base - 1) as usize;
        self.base += mark(&mut self.marks, place) as u64;
    }

    /// Takes a message in. Where its number is 0 or lies behind the window, nothing changes and nothing is answered.
    /// Where the number was seen, the answer is its acknowledgement alone. Else it is seen from now on, the message is
    /// handed up with its acknowledgement, and the base moves up over all numbers that were seen in a row.
    pub fn take_in(&mut self, num: u64, wire: Wire) -> Taken
        requires { self.old.base < 2 ^ 64 - 1 - WINDOW }
        ensures up { result.up ≡ up_with self.old num wire }
        ensures ack { result.ack ≡ acknowledged self.old num }
        ensures receiver { self.new ≡ after_taken self.old num }
    {
        if !self.is_within(num) {
            return Taken {
                up: None,
                ack: None,
            };
        }
        let ack = Some(Frame::Ack { num });
        if self.has_seen(num) {
            return Taken { up: None, ack };
        }
        self.note(num);
        Taken {
            up: Some(wire),
            ack,
        }
    }
}
