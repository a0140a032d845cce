//! Worked runs in which snapshots are taken.

ghost use Rattle.std.specs.Prelude.{◌≡◌};
ghost use Rattle.far_model.specs.History.{IsLegal};
ghost use Rattle.model_examples.specs.Example.{course_of, last_of, log_of, table_of, traffic_of};
ghost use Rattle.model_examples.specs.Snapshots;
ghost use Rattle.model_examples.specs.SnapshotsTraffic;
ghost use Rattle.model_laws.specs.Placing.{history_of};

/// The slot is overwritten twice before the snapshot reads it.
pub fn overwritten_before_read()
    ensures table { table_of Snapshots.overwritten_before_read ≡ Snapshots.overwritten_before_read.table }
    ensures course { course_of Snapshots.overwritten_before_read ≡ Snapshots.overwritten_before_read.course }
    ensures last { last_of Snapshots.overwritten_before_read ≡ Snapshots.overwritten_before_read.table.map }
{}

/// The slot goes to another key before the snapshot reads it.
pub fn slot_goes_on()
    ensures table { table_of Snapshots.slot_goes_on ≡ Snapshots.slot_goes_on.table }
    ensures course { course_of Snapshots.slot_goes_on ≡ Snapshots.slot_goes_on.course }
    ensures last { last_of Snapshots.slot_goes_on ≡ Snapshots.slot_goes_on.table.map }
    ensures legal { IsLegal (log_of Snapshots.slot_goes_on) (history_of (log_of Snapshots.slot_goes_on)) }
    ensures traffic { traffic_of Snapshots.slot_goes_on ≡ SnapshotsTraffic.slot_goes_on_traffic }
{}

/// A second snapshot of an empty slot has the part of the first.
pub fn empty_slot_again()
    ensures table { table_of Snapshots.empty_slot_again ≡ Snapshots.empty_slot_again.table }
    ensures course { course_of Snapshots.empty_slot_again ≡ Snapshots.empty_slot_again.course }
    ensures last { last_of Snapshots.empty_slot_again ≡ Snapshots.empty_slot_again.table.map }
    ensures traffic { traffic_of Snapshots.empty_slot_again ≡ SnapshotsTraffic.empty_slot_again_traffic }
{}

/// Of two slots one changes between the snapshots: the part of the other is that of the first.
pub fn one_slot_changed()
    ensures table { table_of Snapshots.one_slot_changed ≡ Snapshots.one_slot_changed.table }
    ensures course { course_of Snapshots.one_slot_changed ≡ Snapshots.one_slot_changed.course }
    ensures last { last_of Snapshots.one_slot_changed ≡ Snapshots.one_slot_changed.table.map }
    ensures legal { IsLegal (log_of Snapshots.one_slot_changed) (history_of (log_of Snapshots.one_slot_changed)) }
    ensures traffic { traffic_of Snapshots.one_slot_changed ≡ SnapshotsTraffic.one_slot_changed_traffic }
{}

/// A slot is emptied between two snapshots: its part says that it holds nothing.
pub fn emptied_between_snapshots()
    ensures table { table_of Snapshots.emptied_between_snapshots ≡ Snapshots.emptied_between_snapshots.table }
    ensures course { course_of Snapshots.emptied_between_snapshots ≡ Snapshots.emptied_between_snapshots.course }
    ensures last { last_of Snapshots.emptied_between_snapshots ≡ Snapshots.emptied_between_snapshots.table.map }
{}

/// Between two snapshots a slot goes from the absence of a key to that of another: its part is sent whole.
pub fn absence_of_another_key()
    ensures table { table_of Snapshots.absence_of_another_key ≡ Snapshots.absence_of_another_key.table }
    ensures course { course_of Snapshots.absence_of_another_key ≡ Snapshots.absence_of_another_key.course }
    ensures last { last_of Snapshots.absence_of_another_key ≡ Snapshots.absence_of_another_key.table.map }
{}

/// Four snapshots under traffic, of which some slots show the same as the one before.
pub fn four_snapshots()
    ensures table { table_of Snapshots.four_snapshots ≡ Snapshots.four_snapshots.table }
    ensures course { course_of Snapshots.four_snapshots ≡ Snapshots.four_snapshots.course }
    ensures last { last_of Snapshots.four_snapshots ≡ Snapshots.four_snapshots.table.map }
{}
