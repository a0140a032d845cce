//! What covers a number of a key covers each smaller one.

ghost use Rattle.far_invariants.specs.Covers.{IsAtServer, Covers, IsInSlot, IsInSnapshot, IsPreserved, IsKeptInFlight};
ghost use Rattle.std.specs.Prelude.{ℕ, ◌≤◌, List};
ghost use Rattle.far_base.specs.PlanView.{PlanView};
ghost use Rattle.far_base.specs.declared.record.Record.{Record};
ghost use Rattle.far_model.specs.State.{State};
ghost use Rattle.model_laws.specs.Below.{HoldsBelow};

/// Each place that covers a number of a key, the server, a latest slot, the last completed snapshot, a client and an
/// answer on its way, covers the smaller numbers of the key too.
pub fn covers_hold_below()
    ensures server { (plan : PlanView) (s : State) (key : List ℕ) → HoldsBelow (IsAtServer plan s key) }
    ensures records { (records : List Record) (key : List ℕ) → HoldsBelow (Covers records key) }
    ensures slot { (s : State) (key : List ℕ) → HoldsBelow (IsInSlot s key) }
    ensures snapshot { (s : State) (key : List ℕ) → HoldsBelow (IsInSnapshot s key) }
    ensures client { (s : State) (key : List ℕ) → HoldsBelow (IsPreserved s key) }
    ensures answer { (s : State) (key : List ℕ) → HoldsBelow (IsKeptInFlight s key) }
{}
