ghost use Rattle.std.specs.Prelude.{◌≡◌, ◌+◌, ◌<◌, ◌≤◌, ◌^◌, [], ◌++◌, length, map, IfOk, OnOk, OnErr, IfSome, vec_len, vec_capacity};
ghost use Rattle.switch_staged.specs.Groups.{emitted};
ghost use Rattle.switch_staged.specs.Line.{answers, final};
ghost use Rattle.switch_staged.specs.Together.{AreOfOne, switch_of};
ghost use Rattle.stage_workers.specs.Work.{IsLineOf};

use crate::comparing::agree;
use crate::done::{AllDone, HeadDone, PartDone};
use crate::gate::StageGate;
use crate::lists::AllLists;
use crate::putting::put;
use crate::rings::Rings;
use crate::workers::run_workers;
use far_base::{Memory, Packet};
use std::alloc::Global;
use std::mem;
use std::sync::Wait;
use std::thread::Threads;
use switch_core::{Emit, Switch};
use switch_staged::{
    BodyPart, Flight, Groups, Head, StagedSwitch, a_pass_counts_one, groups_make_a_line,
};

/// What leaves the switch with each of the flights.
fn emit_all(flights: &[Flight], emits: &mut Vec<Emit>)
    requires room { length flights.now ≤ vec_capacity emits.old }
    requires empty { emits.old.items ≡ [] }
    ensures { emits.new.items ≡ map emitted flights.now }
{
    for k in 0..flights.len() {
        let Emit { first, second } = flights[k].emit();
        put(emits, Emit { first, second });
    }
}

/// Each packet passes the switch, one after the other.
fn pass_all(switch: &mut StagedSwitch, packets: &[Packet], emits: &mut Vec<Emit>)
    requires counter { switch.old.counter + length packets.now < 2 ^ 64 }
    requires room { length packets.now ≤ vec_capacity emits.old }
    requires empty { emits.old.items ≡ [] }
    ensures answers { emits.new.items ≡ answers switch.old packets.now }
    ensures view { switch.new ≡ final switch.old packets.now }
{
    a_pass_counts_one();
    for k in 0..packets.len() {
        let Emit { first, second } = switch.pass(&packets[k]);
        put(emits, Emit { first, second });
    }
}

fn head_of(done: HeadDone) -> Head
    ensures { result ≡ done.head }
{
    let HeadDone {
        head,
        took: _took,
        gave: _gave,
    } = done;
    head
}

fn part_of(done: PartDone) -> BodyPart
    ensures { result ≡ done.part }
{
    let PartDone {
        part,
        took: _took,
        gave: _gave,
    } = done;
    part
}

/// The groups that the workers have handed back.
fn groups_of(done: AllDone) -> Groups
    ensures { result ≡ record {
      head = done.head.head;
      part1 = done.part1.part;
      part2 = done.part2.part;
      part3 = done.part3.part;
      part4 = done.part4.part;
    } }
{
    let AllDone {
        head,
        part1,
        part2,
        part3,
        part4,
    } = done;
    Groups {
        head: head_of(head),
        part1: part_of(part1),
        part2: part_of(part2),
        part3: part_of(part3),
        part4: part_of(part4),
    }
}

/// The switch that the workers of its groups have left, and what left it. `None` where a worker was not started or two
/// lists differ.
fn in_threads<G: StageGate + Sync, R: Threads + Wait + Sync>(
    rt: &R,
    gate: &G,
    packets: &[Packet],
    groups: Groups,
    lists: AllLists,
    rings: Rings,
    emits: &mut Vec<Emit>,
) -> Option<StagedSwitch>
    requires one { AreOfOne groups }
    requires counter { groups.head.front.gate.counter + length packets.now < 2 ^ 64 }
    requires room { length packets.now ≤ vec_capacity emits.old }
    requires empty { emits.old.items ≡ [] }
    ensures line { IfSome result (λ switch. IsLineOf (switch_of groups) packets.now switch emits.new.items) }
    ensures kept { result ≡ None → emits.new ≡ emits.old }
{
    groups_make_a_line();
    let done = run_workers(rt, gate, packets, groups, lists, rings)?;
    if !agree(&done, packets) {
        return None;
    }
    emit_all(&done.part4.gave, emits);
    Some(StagedSwitch::from_groups(groups_of(done)))
}

/// Passes the packets through the switch with a worker in a thread of its own for each group of stages, so that
/// packets overlap in it. The answers, and the view that is left, are those of the packets one after the other. Each
/// worker passes the gate before each of its flights. At an error the switch is as before.
pub fn run_stages<G: StageGate + Sync, R: Threads + Wait + Sync>(
    rt: &R,
    alloc: Global,
    switch: &mut StagedSwitch,
    packets: &[Packet],
    gate: &G,
) -> Result<Vec<Emit>, Memory>
    requires counter { switch.old.counter + length packets.now < 2 ^ 64 }
    requires few { length packets.now < 2 ^ 32 }
    ensures answers { IfOk result (λ emits. emits.items ≡ answers switch.old packets.now) }
    ensures view { OnOk result (switch.new ≡ final switch.old packets.now) }
    ensures unchanged { OnErr result (switch.new ≡ switch.old) }
{
    let copy = switch.copy()?;
    let lists = AllLists::new(alloc, packets.len() as u32)?;
    let rings = Rings::new(alloc)?;
    let mut emits = Vec::with_capacity(alloc, packets.len())?;
    let groups = mem::replace(switch, copy).into_groups();
    match in_threads(rt, gate, packets, groups, lists, rings, &mut emits) {
        Some(after) => *switch = after,
        None => pass_all(switch, packets, &mut emits),
    }
    Ok(emits)
}
