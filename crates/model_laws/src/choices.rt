//! The events that a pick chooses among.

ghost use Rattle.std.specs.Prelude.{◌≡◌, ◌≢◌, ◌↔◌, ℕ, true, List};
ghost use Rattle.far_base.specs.PlanView.{PlanView};
ghost use Rattle.far_base.specs.declared.event.Event.{Event};
ghost use Rattle.far_model.specs.Events.{choices, is_enabled};
ghost use Rattle.far_model.specs.Members.{Among, Pairs};
ghost use Rattle.far_model.specs.Runs.{IsPickedFrom, IsRun};
ghost use Rattle.far_model.specs.State.{State};
ghost use Rattle.model_laws.specs.Choices.{CanBePicked};

/// The choices are exactly the events other than orders that can happen, each once.
pub fn choices_are_what_can_happen()
    ensures members { (plan : PlanView) (s : State) (e : Event) → Among e (choices s) ↔ CanBePicked plan s e }
    ensures once { (s : State) → Pairs (λ e f. e ≢ f) (choices s) }
{}

/// So the events that picks choose can happen, each in its turn.
pub fn picked_events_can_happen()
    ensures { (plan : PlanView) (pick : ℕ → ℕ) (n : ℕ) (s : State) (events : List Event)
        → IsPickedFrom plan pick n s events → IsRun plan s events }
{}
