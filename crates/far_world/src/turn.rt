ghost use Rattle.std.specs.Prelude.{◌≡◌, ◌+◌, ◌-◌, ◌^◌, ◌<◌, ◌≤◌, ◌++◌, [], ◌∷◌, length, vec_len, vec_capacity};
ghost use Rattle.std.specs.Prelude.{OnOk};
ghost use Rattle.far_model.specs.Parties.{messages_from, to_party};
ghost use Rattle.far_world.specs.Steps.{Logs};

use crate::bag::Bag;
use far_base::{LogEntry, Memory, Out, Packet, Party};
use far_history::Log;
use std::alloc::Global;

/// What a party does in one step: what it sends, in order, and what the log keeps.
#[derive(Drop)]
pub(crate) struct Turn {
    pub out: Vec<Out>,
    pub notes: Vec<LogEntry>,
}

/// Puts a copy of the item behind the others, for which there is room.
fn put_last<T: Copy>(items: &mut Vec<T>, item: &T)
    requires { vec_len items.old < vec_capacity items.old }
    ensures items { items.new.items ≡ items.old.items ++ item.now ∷ [] }
    ensures room { vec_capacity items.new ≡ vec_capacity items.old }
{
    items.push_reserved(*item);
}

impl Turn {
    /// Nothing.
    pub(crate) fn new(alloc: Global) -> Self {
        Turn {
            out: Vec::new(alloc),
            notes: Vec::new(alloc),
        }
    }

    /// Nothing again, with room for so many packets and notes.
    fn begin(&mut self, out: usize, notes: usize) -> Result<(), Memory>
        ensures out { OnOk result (self.new.out.items ≡ []) }
        ensures notes { OnOk result (self.new.notes.items ≡ []) }
        ensures out_room { OnOk result (out ≤ vec_capacity self.new.out) }
        ensures notes_room { OnOk result (notes ≤ vec_capacity self.new.notes) }
    {
        self.out.clear();
        self.notes.clear();
        self.out.reserve(out)?;
        self.notes.reserve(notes)?;
        Ok(())
    }

    /// Sends a packet, for which there is room.
    pub(crate) fn send(&mut self, to: Party, packet: &Packet)
        requires { vec_len self.old.out < vec_capacity self.old.out }
        ensures out { self.new.out.items ≡ self.old.out.items ++ to_party to packet.now ∷ [] }
        ensures notes { self.new.notes ≡ self.old.notes }
        ensures room { vec_capacity self.new.out ≡ vec_capacity self.old.out }
    {
        put_last(
            &mut self.out,
            &Out {
                to,
                packet: *packet,
            },
        );
    }

    /// Notes what happened, for which there is room.
    pub(crate) fn note(&mut self, entry: LogEntry)
        requires { vec_len self.old.notes < vec_capacity self.old.notes }
        ensures notes { self.new.notes.items ≡ self.old.notes.items ++ entry ∷ [] }
        ensures out { self.new.out ≡ self.old.out }
        ensures room { vec_capacity self.new.notes ≡ vec_capacity self.old.notes }
    {
        self.notes.push_reserved(entry);
    }
}

/// Makes room for so many packets and notes, and begins a turn of none.
pub(crate) fn make_room(
    bag: &mut Bag,
    log: &mut Log,
    turn: &mut Turn,
    out: u32,
    notes: usize,
) -> Result<(), Memory>
    ensures messages { bag.new.messages ≡ bag.old.messages }
    ensures steps { log.new.steps ≡ log.old.steps }
    ensures lines { log.new.lines ≡ log.old.lines }
    ensures bag_room { OnOk result (out ≤ bag.new.room) }
    ensures log_room { OnOk result (notes ≤ log.new.room) }
    ensures turn { OnOk result (turn.new.out.items ≡ []) }
    ensures turn_notes { OnOk result (turn.new.notes.items ≡ []) }
    ensures out_room { OnOk result (out ≤ vec_capacity turn.new.out) }
    ensures notes_room { OnOk result (notes ≤ vec_capacity turn.new.notes) }
{
    bag.reserve(out)?;
    log.reserve(notes)?;
    turn.begin(out as usize, notes)
}

/// Puts what a party sends behind the other messages.
fn send_all(bag: &mut Bag, from: Party, outs: &[Out])
    requires room { length outs.now ≤ bag.old.room }
    requires few { length bag.old.messages + length outs.now < 2 ^ 31 }
    ensures { bag.new.messages ≡ bag.old.messages ++ messages_from from outs.now }
{
    for out in outs {
        bag.post(from, out);
    }
}

/// Counts one more step.
pub(crate) fn count_step(log: &mut Log)
    requires { log.old.steps + 1 < 2 ^ 64 }
    ensures moment { Logs log.old log.new [] }
    ensures room { log.new.room ≡ log.old.room }
{
    let moment = log.steps() + 1;
    log.set_steps(moment);
}

/// Counts one more step, and logs what happened in it.
fn note_all(log: &mut Log, notes: &[LogEntry])
    requires room { length notes.now ≤ log.old.room }
    requires steps { log.old.steps + 1 < 2 ^ 64 }
    ensures { Logs log.old log.new notes.now }
{
    count_step(log);
    let moment = log.steps();
    for entry in notes {
        log.note(moment, entry);
    }
}

/// One step is made: the turn's packets go behind the other messages, and its notes into the log.
pub(crate) fn post(bag: &mut Bag, log: &mut Log, from: Party, turn: &Turn)
    requires bag_room { vec_len turn.now.out ≤ bag.old.room }
    requires few { length bag.old.messages + vec_len turn.now.out < 2 ^ 31 }
    requires log_room { vec_len turn.now.notes ≤ log.old.room }
    requires steps { log.old.steps + 1 < 2 ^ 64 }
    ensures bag { bag.new.messages ≡ bag.old.messages ++ messages_from from turn.now.out.items }
    ensures log { Logs log.old log.new turn.now.notes.items }
{
    send_all(bag, from, &turn.out);
    note_all(log, &turn.notes);
}
