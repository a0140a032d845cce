ghost use Rattle.std.specs.Prelude.{◌≡◌, ◌+◌, ◌<◌, ◌≤◌, ◌^◌, length, vec_len, vec_capacity};
ghost use Rattle.switch_staged.specs.Groups.{HeadView, PartView};
ghost use Rattle.stage_workers.specs.Work.{HeadWorked, PartWorked};

use crate::putting::{put, put_packet};
use far_base::Packet;
use std::snapshot::Snapshot;
use std::thread::Promise;
use switch_staged::{BodyPart, Flight, Head};

/// What the worker of the head hands back: the head, the packets that it took, and the flights that it gave.
#[derive(Drop)]
pub(crate) struct HeadDone {
    pub head: Head,
    pub took: Vec<Packet>,
    pub gave: Vec<Flight>,
}

/// What the worker of a part hands back: the part, and the flights that it took and gave.
#[derive(Drop)]
pub(crate) struct PartDone {
    pub part: BodyPart,
    pub took: Vec<Flight>,
    pub gave: Vec<Flight>,
}

/// What all workers hand back.
#[derive(Drop)]
pub(crate) struct AllDone {
    pub head: HeadDone,
    pub part1: PartDone,
    pub part2: PartDone,
    pub part3: PartDone,
    pub part4: PartDone,
}

/// The promise of the worker of this head: what it hands back is what its packets make of the head.
#[derive(Drop)]
pub(crate) struct OfHead(pub Snapshot<Head>);

/// The promise of the worker of this part: what it hands back is what its flights make of the part.
#[derive(Drop)]
pub(crate) struct OfPart(pub Snapshot<BodyPart>);

impl Promise<HeadDone> for OfHead {
    ghost kept_by = { λ p done. HeadWorked p.0.value done };
}

impl Promise<PartDone> for OfPart {
    ghost kept_by = { λ p done. PartWorked p.0.value done };
}

impl HeadDone {
    /// One more packet enters.
    pub(crate) fn enter(&mut self, packet: &Packet)
        requires room { self.old.head.front.gate.counter + 1 < 2 ^ 64 }
        requires took { vec_len self.old.took < vec_capacity self.old.took }
        requires gave { vec_len self.old.gave < vec_capacity self.old.gave }
        ensures worked { (first : HeadView) → HeadWorked first self.old → HeadWorked first self.new }
        ensures counter { self.new.head.front.gate.counter ≤ self.old.head.front.gate.counter + 1 }
        ensures took { vec_len self.new.took ≡ vec_len self.old.took + 1 }
        ensures gave { vec_len self.new.gave ≡ vec_len self.old.gave + 1 }
        ensures took_room { vec_capacity self.new.took ≡ vec_capacity self.old.took }
        ensures gave_room { vec_capacity self.new.gave ≡ vec_capacity self.old.gave }
    {
        let flight = self.head.enter(packet);
        put_packet(&mut self.took, packet);
        put(&mut self.gave, flight);
    }
}

impl PartDone {
    /// One more flight passes.
    pub(crate) fn pass(&mut self, flight: &Flight)
        requires took { vec_len self.old.took < vec_capacity self.old.took }
        requires gave { vec_len self.old.gave < vec_capacity self.old.gave }
        ensures worked { (first : PartView) → PartWorked first self.old → PartWorked first self.new }
        ensures took { vec_len self.new.took ≡ vec_len self.old.took + 1 }
        ensures gave { vec_len self.new.gave ≡ vec_len self.old.gave + 1 }
        ensures took_room { vec_capacity self.new.took ≡ vec_capacity self.old.took }
        ensures gave_room { vec_capacity self.new.gave ≡ vec_capacity self.old.gave }
    {
        let passed = self.part.pass(*flight);
        put(&mut self.took, *flight);
        put(&mut self.gave, passed);
    }
}
