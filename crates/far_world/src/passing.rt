ghost use Rattle.std.specs.Prelude.{◌≡◌, ℕ, ◌+◌, ◌^◌, ◌<◌, ◌≤◌, ◌++◌, ◌∷◌, [], length, map, slice_index, IfSome};
ghost use Rattle.far_base.specs.declared.party.Party.TheVariants.{Switch as TheSwitch};
ghost use Rattle.far_model.specs.Parties.{messages_from};
ghost use Rattle.far_model.specs.Pass as model;
ghost use Rattle.far_model.specs.Pass.{emitted_note, emitted_notes, outs_of};
ghost use Rattle.far_model.specs.Passes as counts;
ghost use Rattle.far_model.specs.State.{line_at};
ghost use Rattle.far_world.specs.Passing.{noted_by, number_note, number_noted, numbered_by, place_of};
ghost use Rattle.far_world.specs.Steps.{Logs};

use crate::bag::Bag;
use crate::turn::count_step;
use far_base::{Body, LogEntry, Out, Packet, Party};
use far_history::Log;
use switch_core::{Emit, Switch};

/// Notes what happened in the present step.
fn note(log: &mut Log, entry: &LogEntry)
    requires { 0 < log.old.room }
    ensures lines { log.new.lines ≡ log.old.lines ++ map (line_at log.old.steps) (entry.now ∷ []) }
    ensures steps { log.new.steps ≡ log.old.steps }
    ensures room { log.old.room ≤ log.new.room + 1 }
{
    let moment = log.steps();
    log.note(moment, entry);
}

/// Notes the number that a write of this operation got, where the packet that left for it has one.
fn note_number(op: u32, packet: &Packet, log: &mut Log)
    requires { 0 < log.old.room }
    ensures lines { log.new.lines ≡ log.old.lines ++ map (line_at log.old.steps) (number_note op packet.now) }
    ensures steps { log.new.steps ≡ log.old.steps }
    ensures room { log.old.room ≤ log.new.room + 1 }
{
    match packet {
        Packet::WriteFwd { num, .. } => note(log, &LogEntry::Numbered { op, num: *num }),
        Packet::WriteAns { num, .. } => note(log, &LogEntry::Numbered { op, num: *num }),
        _ => {}
    }
}

/// Notes the number that a write got. It stands in the first packet that left.
fn note_number_of(op: u32, first: &Option<Out>, log: &mut Log)
    requires { 0 < log.old.room }
    ensures lines { log.new.lines ≡ log.old.lines ++ map (line_at log.old.steps) (number_noted op first.now) }
    ensures steps { log.new.steps ≡ log.old.steps }
    ensures room { log.old.room ≤ log.new.room + 1 }
{
    if let Some(out) = first {
        note_number(op, &out.packet, log);
    }
}

/// Notes the number that the packet, where it is a write, got.
fn note_numbered(packet: &Packet, first: &Option<Out>, log: &mut Log)
    requires { 0 < log.old.room }
    ensures lines { log.new.lines ≡ log.old.lines ++ map (line_at log.old.steps) (numbered_by packet.now first.now) }
    ensures steps { log.new.steps ≡ log.old.steps }
    ensures room { log.old.room ≤ log.new.room + 1 }
{
    if let Packet::WriteReq { op, .. } = packet {
        note_number_of(*op, first, log);
    }
}

/// Notes the answer that a packet is, where it is one.
fn note_answer(packet: &Packet, log: &mut Log)
    requires { 0 < log.old.room }
    ensures lines { log.new.lines ≡ log.old.lines ++ map (line_at log.old.steps) (emitted_note packet.now) }
    ensures steps { log.new.steps ≡ log.old.steps }
{
    match packet {
        Packet::GetAns {
            op,
            num,
            body,
            near,
            ..
        } => note(
            log,
            &LogEntry::Emitted {
                op: *op,
                num: *num,
                body: *body,
                near: *near,
            },
        ),
        Packet::WriteAns { op, num, kept, .. } => note(
            log,
            &LogEntry::Emitted {
                op: *op,
                num: *num,
                body: Body::absent(),
                near: *kept,
            },
        ),
        _ => {}
    }
}

/// Notes the answer that left.
fn note_emitted(first: &Option<Out>, log: &mut Log)
    requires { 0 < log.old.room }
    ensures lines { log.new.lines ≡ log.old.lines ++ map (line_at log.old.steps) (emitted_notes first.now) }
    ensures steps { log.new.steps ≡ log.old.steps }
{
    if let Some(out) = first {
        note_answer(&out.packet, log);
    }
}

/// Counts one more step, and logs what is kept of a pass of the packet with which this left first.
fn log_pass(log: &mut Log, packet: &Packet, first: &Option<Out>)
    requires room { 2 ≤ log.old.room }
    requires steps { log.old.steps + 1 < 2 ^ 64 }
    ensures { Logs log.old log.new (noted_by packet.now first.now) }
{
    count_step(log);
    note_numbered(packet, first, log);
    note_emitted(first, log);
}

/// Puts what left the switch behind the other messages, where something did.
fn post_if(bag: &mut Bag, out: &Option<Out>)
    requires room { 0 < bag.old.room }
    requires few { length bag.old.messages < 2 ^ 31 }
    ensures messages { bag.new.messages ≡ bag.old.messages ++ messages_from TheSwitch (outs_of out.now) }
    ensures room { bag.old.room ≤ bag.new.room + 1 }
    ensures few { length bag.new.messages ≤ length bag.old.messages + 1 }
{
    if let Some(out) = out {
        bag.post(Party::Switch, out);
    }
}

/// The place of the packet's kind among the counts of passes.
fn place(packet: &Packet) -> Option<usize>
    ensures place { result ≡ place_of (counts.pass_kind packet.now) }
    ensures within { IfSome result (λ i. i < counts.PASS_KINDS) }
{
    match packet {
        Packet::GetReq { .. } => Some(0),
        Packet::WriteReq { .. } => Some(1),
        Packet::GetRep { .. } => Some(2),
        Packet::WriteRep { .. } => Some(3),
        Packet::Admit { .. } => Some(4),
        Packet::Peek { .. } => Some(5),
        Packet::Remove { .. } => Some(6),
        Packet::SnapStart { .. } => Some(7),
        Packet::SnapFrom { .. } => Some(7),
        Packet::SnapRead { .. } => Some(8),
        _ => None,
    }
}

/// Counts the packet that came to the switch.
pub(crate) fn count_pass(passes: &mut [u64; 9], packet: &Packet)
    requires { (i : ℕ) → slice_index passes.old i < 2 ^ 28 }
    ensures { passes.new ≡ counts.with_pass passes.old packet.now }
{
    if let Some(place) = place(packet) {
        passes[place] += 1;
    }
}

/// A packet passes through the switch: what leaves goes behind the other messages, and one more step is logged, with
/// what is kept of it.
pub(crate) fn pass_through<S: Switch>(switch: &mut S, packet: &Packet, bag: &mut Bag, log: &mut Log)
    requires counter { (S.seen switch.old).counter + 1 < 2 ^ 64 }
    requires bag_room { 2 ≤ bag.old.room }
    requires few { length bag.old.messages + 2 < 2 ^ 31 }
    requires log_room { 2 ≤ log.old.room }
    requires steps { log.old.steps + 1 < 2 ^ 64 }
    ensures view { S.seen switch.new ≡ (model.pass (S.seen switch.old) packet.now).view }
    ensures bag { bag.new.messages ≡ bag.old.messages ++ messages_from TheSwitch (model.passed_out (model.pass
        (S.seen switch.old) packet.now)) }
    ensures log { Logs log.old log.new (model.pass_notes packet.now (model.pass (S.seen switch.old) packet.now)) }
{
    let mut emit = Emit::none();
    switch.pass_into(packet, &mut emit);
    post_if(bag, &emit.first);
    post_if(bag, &emit.second);
    log_pass(log, packet, &emit.first);
}
