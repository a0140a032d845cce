use crate::turn::Turn;
use controller_core::{Controller, Note};
use far_base::{Key, LogEntry, Memory, Packet, Record};
use snapshot_core::Snapshot;

/// What the controller is asked in one step.
#[derive(Clone, Copy)]
pub(crate) enum Task<'a> {
    /// To take a packet.
    Take(&'a Packet),
    /// To serve its first want.
    Tick,
    /// To begin a recovery.
    Recover,
    /// To want a key in the cache.
    Want(Key),
    /// To evict a key.
    Evict(Key),
    /// To take a snapshot.
    Snap,
}

ghost use Rattle.std.specs.Prelude.{◌≡◌, ◌+◌, ◌^◌, ◌<◌, ◌≤◌, ◌++◌, [], ◌∷◌, length, vec_len, vec_capacity, OnOk, OnErr};
ghost use Rattle.std.specs.Prelude.{IsTrue, is_some};
ghost use Rattle.far_model.specs.Controller.{controller_takes, tick};
ghost use Rattle.far_model.specs.Snapshots.{view_items, view_records};
ghost use Rattle.controller_core.specs.ControllerView.{at_state};
ghost use Rattle.controller_core.specs.Room.{HasRoom};
ghost use Rattle.controller_core.specs.Notes.{notes_of};
ghost use Rattle.far_world.specs.Tasks.{FitsConfig, IsSmall, MayDo, task_turn};

/// How many of the views are there.
fn count_records(views: &[Option<Record>]) -> u32
    requires { length views.now < 2 ^ 32 }
    ensures { result ≡ length (view_records views.now) }
{
    let mut count = 0;
    for view in views {
        if view.is_some() {
            count += 1;
        }
    }
    count
}

/// Notes the view of a slot, where it is there.
fn note_view(slot: u32, view: &Option<Record>, turn: &mut Turn)
    requires { vec_len turn.old.notes < vec_capacity turn.old.notes }
    ensures notes { turn.new.notes.items ≡ turn.old.notes.items ++ view_items slot (view.now ∷ []) }
    ensures out { turn.new.out ≡ turn.old.out }
    ensures used { vec_len turn.new.notes ≤ vec_len turn.old.notes + 1 }
    ensures room { vec_capacity turn.new.notes ≡ vec_capacity turn.old.notes }
{
    if let Some(item) = view {
        turn.note(LogEntry::SnapItem { slot, item: *item });
    }
}

/// Notes the views that are there, by slot.
fn note_views(views: &[Option<Record>], turn: &mut Turn)
    requires few { length views.now < 2 ^ 32 }
    requires room { vec_len turn.old.notes + length views.now ≤ vec_capacity turn.old.notes }
    ensures notes { turn.new.notes.items ≡ turn.old.notes.items ++ view_items 0 views.now }
    ensures out { turn.new.out ≡ turn.old.out }
{
    for slot in 0..views.len() {
        note_view(slot as u32, &views[slot], turn);
    }
}

/// Notes a completed snapshot.
fn note_snapshot(same: u32, last: &Snapshot, turn: &mut Turn)
    requires few { length last.now.views < 2 ^ 32 }
    requires room { vec_len turn.old.notes + length last.now.views + 1 ≤ vec_capacity turn.old.notes }
    ensures notes { turn.new.notes.items ≡ turn.old.notes.items ++ notes_of (Note.Completed same) last.now }
    ensures out { turn.new.out ≡ turn.old.out }
{
    turn.note(LogEntry::Snapped {
        id: last.id,
        point: last.point,
        count: count_records(&last.views),
        same,
    });
    note_views(&last.views, turn);
}

/// Notes what the controller did.
fn note_done(note: Note, last: &Snapshot, turn: &mut Turn)
    requires few { length last.now.views < 2 ^ 32 }
    requires room { vec_len turn.old.notes + length last.now.views + 1 ≤ vec_capacity turn.old.notes }
    ensures notes { turn.new.notes.items ≡ turn.old.notes.items ++ notes_of note last.now }
    ensures out { turn.new.out ≡ turn.old.out }
{
    match note {
        Note::Nothing => {}
        Note::Admitted { slot, key, tag } => turn.note(LogEntry::Admitted { slot, key, tag }),
        Note::Evicted { slot, key, tries } => turn.note(LogEntry::Evicted { slot, key, tries }),
        Note::Kept { slot, key, num } => turn.note(LogEntry::Kept { slot, key, num }),
        Note::Completed { same } => note_snapshot(same, last, turn),
    }
}

/// Whether the task leaves it as it is whether the first want can be served.
pub(crate) fn leaves_first_want(controller: &Controller, task: &Task) -> bool
    ensures { IsTrue result → is_some (tick (task_turn controller.now.config controller.now.state task.now).state) ≡
        is_some (tick controller.now.state) }
{
    match task {
        Task::Take(packet) => controller.leaves_first_want(packet),
        _ => false,
    }
}

/// The controller takes a packet. At an error nothing is changed.
fn take(controller: &mut Controller, packet: &Packet, turn: &mut Turn) -> Result<(), Memory>
    requires room { HasRoom controller.old.state }
    requires small { IsSmall controller.old.config (controller_takes controller.old.config controller.old.state
        packet.now) }
    requires slots { controller.old.config.slots < 2 ^ 32 }
    requires notes { vec_len turn.old.notes + controller.old.config.slots + 1 ≤ vec_capacity turn.old.notes }
    ensures state { OnOk result (controller.new ≡ at_state controller.old
        (controller_takes controller.old.config controller.old.state packet.now).state) }
    ensures out { OnOk result (turn.new.out.items ≡ turn.old.out.items ++
        (controller_takes controller.old.config controller.old.state packet.now).out) }
    ensures notes { OnOk result (turn.new.notes.items ≡ turn.old.notes.items ++
        (controller_takes controller.old.config controller.old.state packet.now).notes) }
    ensures err { OnErr result (controller.new ≡ controller.old) }
{
    let note = controller.deliver(packet, &mut turn.out)?;
    note_done(note, controller.snapshot(), turn);
    Ok(())
}

/// The controller does what it is asked. At an error it is as before.
pub(crate) fn do_task(
    controller: &mut Controller,
    task: &Task,
    turn: &mut Turn,
) -> Result<(), Memory>
    requires room { HasRoom controller.old.state }
    requires may { MayDo controller.old.state task.now }
    requires small { IsSmall controller.old.config (task_turn controller.old.config controller.old.state task.now) }
    requires slots { controller.old.config.slots < 2 ^ 32 }
    requires notes { vec_len turn.old.notes + controller.old.config.slots + 1 ≤ vec_capacity turn.old.notes }
    ensures state { OnOk result (controller.new ≡ at_state controller.old
        (task_turn controller.old.config controller.old.state task.now).state) }
    ensures out { OnOk result (turn.new.out.items ≡ turn.old.out.items ++
        (task_turn controller.old.config controller.old.state task.now).out) }
    ensures notes { OnOk result (turn.new.notes.items ≡ turn.old.notes.items ++
        (task_turn controller.old.config controller.old.state task.now).notes) }
    ensures err { OnErr result (controller.new ≡ controller.old) }
{
    match task {
        Task::Take(packet) => take(controller, packet, turn),
        Task::Tick => controller.tick(&mut turn.out),
        Task::Recover => controller.start_recovery(&mut turn.out),
        Task::Want(key) => controller.want(*key),
        Task::Evict(key) => controller.evict_key(key, &mut turn.out),
        Task::Snap => controller.start_snapshot(&mut turn.out),
    }
}
