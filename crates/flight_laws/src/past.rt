//! What proofs remember of the past of a run is what was so then.

ghost use Rattle.std.specs.Prelude.{List};
ghost use Rattle.far_base.specs.PlanView.{PlanView};
ghost use Rattle.far_base.specs.declared.event.Event.{Event};
ghost use Rattle.far_base.specs.declared.kept.KeptItem.{KeptItem};
ghost use Rattle.far_invariants.specs.Remembered.{WasMadeBy};
ghost use Rattle.far_model.specs.Members.{Among};
ghost use Rattle.far_invariants.specs.Past.{DrawnTag, SnapshotStart, new_drawn, new_recoveries, new_starts, past_of};
ghost use Rattle.far_model.specs.State.{opening};

/// Each start of a snapshot that is remembered is the slots' records and the counter in the state in which
/// the running switch took that start; each tag was drawn by a tick for its key, slot and epoch; and
/// each kept list is that of the state in which a recovery began.
pub fn remembered_past()
    ensures starts { (plan : PlanView) (events : List Event) (x : SnapshotStart) → Among x (past_of plan events).starts
        → WasMadeBy new_starts plan (opening plan) events x }
    ensures drawn { (plan : PlanView) (events : List Event) (x : DrawnTag) → Among x (past_of plan events).drawn
        → WasMadeBy new_drawn plan (opening plan) events x }
    ensures recoveries { (plan : PlanView) (events : List Event) (x : List KeptItem)
        → Among x (past_of plan events).recoveries → WasMadeBy new_recoveries plan (opening plan) events x }
{}
