//! What the counts of passes say: functions with no code, whose contracts are what holds of the counts in every run.
ghost use Rattle.std.specs.Prelude.{◌≡◌, ◌+◌, ◌≤◌, true, List, length, Some};
ghost use Rattle.far_base.specs.PlanView.{PlanView};
ghost use Rattle.far_base.specs.declared.event.Event.{Event};
ghost use Rattle.far_base.specs.declared.packet.Packet.{Packet};
ghost use Rattle.far_base.specs.declared.plan.PassKind.{PassKind};
ghost use Rattle.far_model.specs.Events.{Keeping, happens_with, is_enabled};
ghost use Rattle.far_model.specs.Passes.{PASS_KINDS, pass_count};
ghost use Rattle.far_model.specs.Runs.{run};
ghost use Rattle.far_model.specs.State.{State, opening};
ghost use Rattle.far_invariants.specs.Brought.{brought, one_if_of, passes_in};

/// An event counts the packet that it brings to the switch, and nothing else: so the counts outlive a stop and a
/// restart, and are the deliveries since the opening. What can be brought comes to a running switch.
pub fn passes_are_counted()
    ensures step { (plan : PlanView) (k : Keeping) (s : State) (e : Event) (kind : PassKind)
        → length s.passes ≡ PASS_KINDS
        → pass_count (happens_with plan k s e).passes kind ≡ pass_count s.passes kind + one_if_of kind (brought s e) }
    ensures runs { (plan : PlanView) (events : List Event) (kind : PassKind)
        → pass_count (run plan (opening plan) events).passes kind ≡ passes_in plan (opening plan) events kind }
    ensures running { (plan : PlanView) (s : State) (e : Event) (packet : Packet) → is_enabled plan s e ≡ true
        → brought s e ≡ Some packet → s.running ≡ true }
{}

/// There are as many counts as kinds, and none is above the steps.
pub fn passes_fit()
    ensures step { (plan : PlanView) (k : Keeping) (s : State) (e : Event) (kind : PassKind)
        → length s.passes ≡ PASS_KINDS
        → pass_count (happens_with plan k s e).passes kind + s.steps ≤ pass_count s.passes kind
        + (happens_with plan k s e).steps }
    ensures size { (plan : PlanView) (k : Keeping) (s : State) (e : Event)
        → length (happens_with plan k s e).passes ≡ length s.passes }
    ensures runs { (plan : PlanView) (events : List Event) (kind : PassKind)
        → pass_count (run plan (opening plan) events).passes kind ≤ (run plan (opening plan) events).steps }
{}
