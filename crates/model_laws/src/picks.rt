//! The events that picks choose.

ghost use Rattle.std.specs.Prelude.{◌≡◌, ℕ, ◌≤◌, true, List, length};
ghost use Rattle.far_base.specs.PlanView.{PlanView};
ghost use Rattle.far_base.specs.declared.event.Event.{Event};
ghost use Rattle.far_model.specs.Runs.{IsPickedFrom, is_quiet, listed_pick, picked_events, run};
ghost use Rattle.far_model.specs.State.{State};

/// The run that picks choose is one: with steps enough `picked_events` is it, and it is it where it ends quiet.
pub fn picks_choose_one_run()
    ensures one { (plan : PlanView) (pick : ℕ → ℕ) (n : ℕ) (s : State) (first second : List Event)
        → IsPickedFrom plan pick n s first → IsPickedFrom plan pick n s second → first ≡ second }
    ensures enough { (plan : PlanView) (picks : List ℕ) (most n : ℕ) (s : State) (events : List Event)
        → IsPickedFrom plan (listed_pick picks) n s events → length events ≤ most
        → picked_events plan most picks n s ≡ events }
    ensures quiet { (plan : PlanView) (picks : List ℕ) (most n : ℕ) (s : State)
        → is_quiet plan (run plan s (picked_events plan most picks n s)) ≡ true
        → IsPickedFrom plan (listed_pick picks) n s (picked_events plan most picks n s) }
    ensures within { (plan : PlanView) (picks : List ℕ) (most n : ℕ) (s : State)
        → length (picked_events plan most picks n s) ≤ most }
{}
