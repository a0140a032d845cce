//! What a stop leaves until a recovery begins.

ghost use Rattle.std.specs.Prelude.{◌≡◌, ◌≢◌, true, List};
ghost use Rattle.std.specs.List.{list_any};
ghost use Rattle.far_base.specs.Limits.{is_stop};
ghost use Rattle.far_base.specs.PlanView.{PlanView};
ghost use Rattle.far_base.specs.declared.event.Event.TheVariants.{Recover};
ghost use Rattle.far_model.specs.Events.{Keeping, happens_with};
ghost use Rattle.far_model.specs.Kept.{kept_records};
ghost use Rattle.far_model.specs.Members.{Each};
ghost use Rattle.far_model.specs.Replies.{IsRunWith, KeptEvent, run_with};
ghost use Rattle.far_model.specs.Runs.{is_finished};
ghost use Rattle.far_model.specs.State.{State, opening};

/// A switch that was stopped does not run again before a recovery has begun, so no run of a plan with an order to stop
/// is finished without one. What is kept is the same just before a recovery begins and just after.
pub fn recoveries_begin()
    ensures begins { (plan : PlanView) (events : List KeptEvent) → IsRunWith plan 0 (opening plan) events
        → list_any is_stop plan.orders ≡ true → is_finished plan (run_with plan (opening plan) events) ≡ true
        → Each (λ (e : KeptEvent). e.event ≢ Recover) events → ⊥ }
    ensures kept { (plan : PlanView) (k : Keeping) (s : State)
        → kept_records (happens_with plan k s Recover) ≡ kept_records s }
{}
