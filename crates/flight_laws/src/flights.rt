//! What holds in every run of every plan, and whatever the keepers answer in kind.

ghost use Rattle.std.specs.Prelude.{◌≡◌, ◌+◌, ◌≤◌, ◌<◌, ◌^◌, true, List, length};
ghost use Rattle.far_base.specs.Limits.{IsPlan};
ghost use Rattle.far_base.specs.PlanView.{PlanView};
ghost use Rattle.far_base.specs.declared.event.Event.{Event};
ghost use Rattle.far_model.specs.Events.{Keeping, happens_with, is_enabled, keeping_of};
ghost use Rattle.far_invariants.specs.Flights.{IsRouted, OneFlightPerOperation};
ghost use Rattle.far_model.specs.Replies.{AnswersInKind};
ghost use Rattle.far_model.specs.Runs.{IsRun, run};
ghost use Rattle.far_model.specs.State.{State, opening};
ghost use Rattle.far_model.specs.Work.{work_bound, work_left};

/// Each open operation has exactly one packet on its way, and no other operation has one. The
/// rule of a server answers in kind.
pub fn one_flight()
    ensures answers { (s : State) (e : Event) → AnswersInKind s e (keeping_of s e) }
    ensures opens { (plan : PlanView) → OneFlightPerOperation (opening plan) }
    ensures step_with { (plan : PlanView) (k : Keeping) (s : State) (e : Event) → IsRouted plan s
        → OneFlightPerOperation s → AnswersInKind s e k → is_enabled plan s e ≡ true
        → OneFlightPerOperation (happens_with plan k s e) }
{}

/// The parties are as many as the plan says, and every message goes from and to the parties that
/// its kind says.
pub fn routes()
    ensures opens { (plan : PlanView) → IsRouted plan (opening plan) }
    ensures step_with { (plan : PlanView) (k : Keeping) (s : State) (e : Event) → IsRouted plan s
        → OneFlightPerOperation s → AnswersInKind s e k → is_enabled plan s e ≡ true
        → IsRouted plan (happens_with plan k s e) }
{}

/// Each event is one step, and the work of a plan is within its bound.
pub fn steps_counted()
    ensures step { (plan : PlanView) (k : Keeping) (s : State) (e : Event) → is_enabled plan s e ≡ true
        → (happens_with plan k s e).steps ≡ s.steps + 1 }
    ensures runs { (plan : PlanView) (events : List Event) → IsRun plan (opening plan) events
        → (run plan (opening plan) events).steps ≡ length events }
    ensures bound { (plan : PlanView) → work_left plan (opening plan) ≤ work_bound plan }
    ensures small { (plan : PlanView) → IsPlan plan → work_bound plan < 2 ^ 28 }
{}
