//! What the parts of a plan have to do with it.

ghost use Rattle.std.specs.Prelude.{◌≡◌, ℕ, ◌<◌};
ghost use Rattle.far_base.specs.Limits.{IsPlan};
ghost use Rattle.far_base.specs.PlanView.{PlanView};
ghost use Rattle.pipe_fabric.specs.Parted.{AreParted, KeepsKeysTogether};
ghost use Rattle.pipe_fabric.specs.Parts.{part_of};

/// The parts of a valid plan are valid plans. Each operation is in exactly one part, and all operations on one key are
/// in the same part. The part of the one pipe of one is the plan.
pub fn plans_are_parted()
    ensures valid { (plan : PlanView) (pipe pipes : ℕ) → IsPlan plan → IsPlan (part_of plan pipe pipes) }
    ensures parted { (plan : PlanView) (pipes : ℕ) → 0 < pipes → AreParted plan pipes }
    ensures together { (plan : PlanView) (pipes : ℕ) → KeepsKeysTogether plan pipes }
    ensures one { (plan : PlanView) → part_of plan 0 1 ≡ plan }
{}
