//! What is on its way, the work that is left, and when nothing can happen.

ghost use Rattle.far_invariants.specs.Slots.{AdmissionsInFlight};
ghost use Rattle.std.specs.Prelude.{◌≡◌, ℕ, suc, ◌≤◌, true, length};
ghost use Rattle.far_base.specs.Limits.{IsPlan};
ghost use Rattle.far_base.specs.PlanView.{PlanView};
ghost use Rattle.far_base.specs.declared.event.Event.{Event};
ghost use Rattle.far_model.specs.Events.{Keeping, happens_with, is_enabled};
ghost use Rattle.far_model.specs.Replies.{AnswersInKind, ceiling_after, KeepersAnswer};
ghost use Rattle.far_model.specs.Runs.{is_finished, is_quiet};
ghost use Rattle.far_model.specs.State.{State, opening};
ghost use Rattle.far_model.specs.Work.{work_left};
ghost use Rattle.far_invariants.specs.Sound.{HasNoJobLeft, IsSound};
ghost use Rattle.far_invariants.specs.DrawnNumbers.{NumbersAreDrawn};

/// Admissions, evictions, snapshots and rounds that are under way have their packets on their way.
pub fn flights_kept()
    ensures admissions { (plan : PlanView) (s : State) → IsSound plan s → s.running ≡ true → AdmissionsInFlight s }
    ensures opens { (plan : PlanView) → IsSound plan (opening plan) }
    ensures step { (plan : PlanView) (k : Keeping) (s : State) (e : Event) → IsPlan plan → IsSound plan s
        → AnswersInKind s e k → is_enabled plan s e ≡ true → IsSound plan (happens_with plan k s e) }
{}

/// Each event lowers the work that is left.
pub fn work_lowered()
    ensures { (plan : PlanView) (k : Keeping) (s : State) (e : Event) → IsSound plan s → AnswersInKind s e k
        → is_enabled plan s e ≡ true → suc (work_left plan (happens_with plan k s e)) ≤ work_left plan s }
{}

/// Nothing can happen exactly where everything is done, given of snapshots that no job is left where nothing is on its
/// way.
pub fn quiet_exactly_finished()
    ensures { (plan : PlanView) (s : State) → IsPlan plan → IsSound plan s → HasNoJobLeft s
        → is_quiet plan s ≡ is_finished plan s }
{}

/// No number that the state holds, nor the keepers' ceiling, is above the count of the numbers drawn.
pub fn numbers_drawn()
    ensures opens { (plan : PlanView) → NumbersAreDrawn 0 (opening plan) }
    ensures step { (plan : PlanView) (k : Keeping) (ceiling : ℕ) (s : State) (e : Event) → NumbersAreDrawn ceiling s
        → KeepersAnswer ceiling s e k → NumbersAreDrawn (ceiling_after s e ceiling) (happens_with plan k s e) }
{}

/// Each message is work that is left.
pub fn room_needed()
    ensures { (plan : PlanView) (s : State) → IsSound plan s → length s.bag ≤ work_left plan s }
{}
