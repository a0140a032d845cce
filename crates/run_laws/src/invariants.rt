//! All invariants at once.

ghost use Rattle.far_invariants.specs.Always.{Always};
ghost use Rattle.far_invariants.specs.Holds.{Holds};
ghost use Rattle.far_invariants.specs.Past.{past_of};

/// All invariants hold in every state of every run.
pub fn runs_hold()
    ensures { Always (λ plan events s. Holds plan (past_of plan events) s) }
{}
