ghost use Rattle.std.specs.Prelude.{◌≡◌, ◌+◌, ◌<◌, ◌^◌, length, IfOk, IfSome};
ghost use Rattle.stage_workers.specs.Work.{HeadWorked, PartWorked, AllWorked};

use crate::done::{AllDone, HeadDone, OfHead, OfPart, PartDone};
use crate::gate::StageGate;
use crate::lists::{AllLists, Lists};
use crate::rings::{Ring, Rings, give, take};
use far_base::Packet;
use rtrb::{Consumer, Producer};
use std::snapshot::Snapshot;
use std::sync::Wait;
use std::thread;
use std::thread::{PromisedHandle, SpawnError, Threads};
use switch_staged::{BodyPart, Flight, Groups, Head};

/// The worker of the head.
fn work_as_head<G: StageGate, R: Wait>(
    rt: &R,
    gate: &G,
    packets: &[Packet],
    head: Head,
    lists: Lists<Packet>,
    mut to: Producer<Flight>,
) -> HeadDone
    requires { head.front.gate.counter + length packets.now < 2 ^ 64 }
    ensures { HeadWorked head result }
{
    let Lists { count, took, gave } = lists;
    let mut done = HeadDone { head, took, gave };
    for k in 0..count {
        let Some(packet) = packets.get(k as usize) else {
            break;
        };
        gate.at(0, k + 1);
        done.enter(packet);
        if !give(rt, &mut to, &done.gave[k as usize]) {
            break;
        }
    }
    done
}

/// The flight goes on, where another group is behind.
fn give_on<R: Wait>(rt: &R, to: &mut Option<Producer<Flight>>, flight: &Flight) -> bool {
    match to {
        Some(to) => give(rt, to, flight),
        None => true,
    }
}

/// The worker of a part; the last part gives its flights to nobody.
fn work_as_part<G: StageGate, R: Wait>(
    rt: &R,
    gate: &G,
    group: u32,
    part: BodyPart,
    lists: Lists<Flight>,
    mut from: Consumer<Flight>,
    mut to: Option<Producer<Flight>>,
) -> PartDone
    ensures { PartWorked part result }
{
    let Lists { count, took, gave } = lists;
    let mut done = PartDone { part, took, gave };
    for k in 0..count {
        let Some(flight) = take(rt, &mut from) else {
            break;
        };
        gate.at(group, k + 1);
        done.pass(&flight);
        if !give_on(rt, &mut to, &done.gave[k as usize]) {
            break;
        }
    }
    done
}

/// What the worker of this head hands back. `None` where it was not started.
fn joined_head<R: Threads, F: Drop>(
    rt: &R,
    of: Snapshot<Head>,
    started: Result<PromisedHandle<HeadDone, OfHead>, SpawnError<F>>,
) -> Option<HeadDone>
    requires { IfOk started (λ handle. handle.promise.0.value ≡ of.value) }
    ensures { IfSome result (HeadWorked of.value) }
{
    match started {
        Ok(handle) => Some(handle.join(rt)),
        Err(_) => None,
    }
}

/// What the worker of this part hands back. `None` where it was not started.
fn joined_part<R: Threads, F: Drop>(
    rt: &R,
    of: Snapshot<BodyPart>,
    started: Result<PromisedHandle<PartDone, OfPart>, SpawnError<F>>,
) -> Option<PartDone>
    requires { IfOk started (λ handle. handle.promise.0.value ≡ of.value) }
    ensures { IfSome result (PartWorked of.value) }
{
    match started {
        Ok(handle) => Some(handle.join(rt)),
        Err(_) => None,
    }
}

/// Runs a worker for each group in a thread of its own, and joins all. `None` where one was not started.
pub(crate) fn run_workers<'x, G: StageGate + Sync, R: Threads + Wait + Sync>(
    rt: &'x R,
    gate: &'x G,
    packets: &'x [Packet],
    groups: Groups,
    lists: AllLists,
    rings: Rings,
) -> Option<AllDone>
    requires { groups.head.front.gate.counter + length packets.now < 2 ^ 64 }
    ensures { IfSome result (AllWorked groups.head groups.part1 groups.part2 groups.part3 groups.part4) }
{
    let Groups {
        head,
        part1,
        part2,
        part3,
        part4,
    } = groups;
    let AllLists {
        head: lists0,
        part1: lists1,
        part2: lists2,
        part3: lists3,
        part4: lists4,
    } = lists;
    let Rings {
        first,
        second,
        third,
        fourth,
    } = rings;
    let Ring {
        to: to1,
        from: from1,
    } = first;
    let Ring {
        to: to2,
        from: from2,
    } = second;
    let Ring {
        to: to3,
        from: from3,
    } = third;
    let Ring {
        to: to4,
        from: from4,
    } = fourth;
    thread::scope(
        thread::scope_env(),
        rt,
        |scope| -> Option<AllDone>
            requires { head.front.gate.counter + length packets.now < 2 ^ 64 }
            ensures { IfSome result (AllWorked head part1 part2 part3 part4) }
        {
            let of_head = Snapshot::of(&head);
            let of_part1 = Snapshot::of(&part1);
            let of_part2 = Snapshot::of(&part2);
            let of_part3 = Snapshot::of(&part3);
            let of_part4 = Snapshot::of(&part4);
            let started0 = scope.spawn_with(
                OfHead(Snapshot::of(&head)),
                move || -> HeadDone
                    requires { head.front.gate.counter + length packets.now < 2 ^ 64 }
                    ensures { HeadWorked head result }
                { work_as_head(rt, gate, packets, head, lists0, to1) },
            );
            let started1 = scope.spawn_with(
                OfPart(Snapshot::of(&part1)),
                move || work_as_part(rt, gate, 1, part1, lists1, from1, Some(to2)),
            );
            let started2 = scope.spawn_with(
                OfPart(Snapshot::of(&part2)),
                move || work_as_part(rt, gate, 2, part2, lists2, from2, Some(to3)),
            );
            let started3 = scope.spawn_with(
                OfPart(Snapshot::of(&part3)),
                move || work_as_part(rt, gate, 3, part3, lists3, from3, Some(to4)),
            );
            let started4 = scope.spawn_with(
                OfPart(Snapshot::of(&part4)),
                move || work_as_part(rt, gate, 4, part4, lists4, from4, None),
            );
            let head = joined_head(rt, of_head, started0);
            let part1 = joined_part(rt, of_part1, started1);
            let part2 = joined_part(rt, of_part2, started2);
            let part3 = joined_part(rt, of_part3, started3);
            let part4 = joined_part(rt, of_part4, started4);
            Some(AllDone {
                head: head?,
                part1: part1?,
                part2: part2?,
                part3: part3?,
                part4: part4?,
            })
        },
    )
}
