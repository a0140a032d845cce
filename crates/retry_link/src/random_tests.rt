ghost use Rattle.std.specs.Prelude.{◌≡◌, ◌<◌, ◌≤◌, ◌^◌, IfOk, OnOk};
ghost use Rattle.retry_link.specs.Frames.{IsMessage};
ghost use Rattle.retry_link.specs.Link.{AreLinkEvents, OffersMessage, happens, opening_link};
ghost use Rattle.retry_link.specs.Reliable.{MayGoOn};

use super::*;
use rand_core::SeedableRng;
use rand_core::utils::NextWord;
use rand_pcg::Lcg64Xsh32;
use std::alloc::Global;
use std::test::Fail;

/// How many lists of events are tried.
const LISTS: u64 = 10_000;

/// One list of so many is so long that the window fills up.
const SELDOM: u64 = 250;

/// The number of events of such a list.
const LONG: u32 = 800;

/// The greatest number of events of the other lists.
const SHORT: u32 = 40;

/// A receiver that keeps each number that it has seen, and looks for its base anew each time.
#[derive(Drop)]
struct SlowReceiver {
    seen: Vec<u64>,
}

/// A sender, a receiver and the frames, not in bytes, by the definition.
#[derive(Drop)]
struct SlowLink {
    accepted: Vec<Wire>,
    unacked: Vec<(u64, Wire)>,
    receiver: SlowReceiver,
    frames: Vec<Frame>,
}

impl SlowReceiver {
    /// The greatest number up to which all were seen.
    fn base(&self) -> u64 {
        let count = self.seen.len() as u64;
        for base in 0..count {
            if !self.seen.contains(&(base + 1)) {
                return base;
            }
        }
        count
    }

    /// Whether the message is handed up, and whether it is acknowledged.
    fn take_in(&mut self, num: u64) -> Result<(bool, bool), Fail> {
        if num == 0 || num.saturating_sub(self.base()) > WINDOW as u64 {
            return Ok((false, false));
        }
        if self.seen.contains(&num) {
            return Ok((false, true));
        }
        self.seen.push(num)?;
        Ok((true, true))
    }
}

impl SlowLink {
    fn new(alloc: Global) -> Self {
        SlowLink {
            accepted: Vec::new(alloc),
            unacked: Vec::new(alloc),
            receiver: SlowReceiver {
                seen: Vec::new(alloc),
            },
            frames: Vec::new(alloc),
        }
    }

    fn send(&mut self, frame: Frame) -> Result<u64, Fail> {
        let place = self.frames.len() as u64;
        self.frames.push(frame)?;
        Ok(place)
    }

    fn offer(&mut self, wire: Wire) -> Result<LinkOutcome, Fail> {
        let num = self.accepted.len() as u64 + 1;
        if let Some(least) = self.unacked.first() {
            if num.saturating_sub(least.0) >= WINDOW as u64 {
                return Ok(LinkOutcome::Full);
            }
        }
        self.accepted.push(wire)?;
        self.unacked.push((num, wire))?;
        Ok(LinkOutcome::Sent(self.send(Frame::Data { num, wire })?))
    }

    fn again(&mut self, i: u64) -> Result<LinkOutcome, Fail> {
        if i >= self.unacked.len() as u64 {
            return Ok(LinkOutcome::Nothing);
        }
        let (num, wire) = self.unacked[i as usize];
        Ok(LinkOutcome::Sent(self.send(Frame::Data { num, wire })?))
    }

    fn take_in(&mut self, num: u64, wire: Wire) -> Result<LinkOutcome, Fail> {
        let (up, ack) = self.receiver.take_in(num)?;
        if !ack {
            return Ok(LinkOutcome::Nothing);
        }
        let place = self.send(Frame::Ack { num })?;
        if up {
            Ok(LinkOutcome::Up(num, wire, place))
        } else {
            Ok(LinkOutcome::Seen(num, place))
        }
    }

    fn carry(&mut self, f: u64) -> Result<LinkOutcome, Fail> {
        if f >= self.frames.len() as u64 {
            return Ok(LinkOutcome::Nothing);
        }
        match self.frames[f as usize] {
            Frame::Data { num, wire } => self.take_in(num, wire),
            Frame::Ack { num } => {
                self.unacked.retain(|message| message.0 != num);
                Ok(LinkOutcome::Acked(num))
            }
        }
    }

    fn step(&mut self, event: &LinkEvent) -> Result<LinkOutcome, Fail> {
        match event {
            LinkEvent::Offer(wire) => self.offer(*wire),
            LinkEvent::Again(i) => self.again(*i),
            LinkEvent::Carry(f) => self.carry(*f),
        }
    }
}

fn is_same(one: &LinkOutcome, other: &LinkOutcome) -> bool {
    match (one, other) {
        (LinkOutcome::Sent(a), LinkOutcome::Sent(b)) => *a == *b,
        (LinkOutcome::Full, LinkOutcome::Full) => true,
        (LinkOutcome::Nothing, LinkOutcome::Nothing) => true,
        (LinkOutcome::Up(num, wire, a), LinkOutcome::Up(other_num, other_wire, b)) => {
            *num == *other_num && wire.bytes() == other_wire.bytes() && *a == *b
        }
        (LinkOutcome::Seen(num, a), LinkOutcome::Seen(other_num, b)) => {
            *num == *other_num && *a == *b
        }
        (LinkOutcome::Acked(num), LinkOutcome::Acked(other_num)) => *num == *other_num,
        _ => false,
    }
}

/// A number below the bound.
fn below(rng: &mut Lcg64Xsh32, bound: u32) -> u32
    requires { 0 < bound }
    ensures { result < bound }
{
    rng.next_word() % bound
}

fn some_message(rng: &mut Lcg64Xsh32) -> Result<Wire, Fail>
    ensures { IfOk result IsMessage }
{
    let bytes = [below(rng, 256) as u8; 3];
    let len = 1 + below(rng, 3) as usize;
    Ok(Wire::from_bytes(&bytes[..len]).ok_or("no wire")?)
}

/// An event at a link to which so many came before; mostly of frames and messages that are there.
fn some_event(rng: &mut Lcg64Xsh32, made: u32) -> Result<LinkEvent, Fail>
    requires { made < 2 ^ 20 }
    ensures { IfOk result OffersMessage }
{
    Ok(match below(rng, 5) {
        0 | 1 => LinkEvent::Offer(some_message(rng)?),
        2 => LinkEvent::Again(u64::from(below(rng, made / 4 + 2))),
        _ => LinkEvent::Carry(u64::from(below(rng, made + 1))),
    })
}

fn some_events(alloc: Global, rng: &mut Lcg64Xsh32, count: u32) -> Result<Vec<LinkEvent>, Fail>
    requires { count ≤ LONG }
    ensures { IfOk result (λ events. AreLinkEvents events.items) }
{
    let mut events = Vec::new(alloc);
    for made in 0..count {
        let event = some_event(rng, made)?;
        events.extend_from_slice(&[event])?;
    }
    Ok(events)
}

fn tell(link: &mut Link, event: &LinkEvent) -> Result<LinkOutcome, Fail>
    requires message { OffersMessage event.now }
    requires may { MayGoOn link.old }
    ensures { OnOk result (link.new ≡ happens link.old event.now) }
{
    match link.step(event) {
        Ok(told) => Ok(told),
        Err(_) => Err(Fail::from("no memory")),
    }
}

/// How many messages found the window full, where each event tells the same at both links, and both have as many
/// messages to be acknowledged in the end.
fn count_full(
    link: &mut Link,
    slow: &mut SlowLink,
    events: &[LinkEvent],
) -> Result<Option<u32>, Fail>
    requires events { AreLinkEvents events.now }
    requires opening { link.old ≡ opening_link }
{
    links_may_go_on();
    let mut full = 0u32;
    for event in events {
        let told = tell(link, event)?;
        if !is_same(&told, &slow.step(event)?) {
            return Ok(None);
        }
        if is_same(&told, &LinkOutcome::Full) {
            full = full.saturating_add(1);
        }
    }
    if link.unacked() as usize == slow.unacked.len() {
        Ok(Some(full))
    } else {
        Ok(None)
    }
}

/// Ten thousand random lists of events: each event tells what the definition says, by a receiver that keeps all numbers.
/// In some lists the window fills up.
#[test]
fn events_tell_what_a_slow_receiver_tells(rt: HostRuntime) -> Result<(), Fail> {
    let alloc = rt.alloc();
    let mut full = 0u32;
    for start in 0..LISTS {
        let mut rng = Lcg64Xsh32::seed_from_u64(start);
        let count = if start % SELDOM == 0 {
            LONG
        } else {
            below(&mut rng, SHORT) + 1
        };
        let events = some_events(alloc, &mut rng, count)?;
        let mut link = Link::new(alloc).map_err(|_| "no memory")?;
        let mut slow = SlowLink::new(alloc);
        match count_full(&mut link, &mut slow, &events)? {
            Some(more) => full = full.saturating_add(more),
            None => return Err(Fail::from("an event told something else")),
        }
    }
    assert!(rt; full > 0);
    Ok(())
}
