//! What a log determines.

ghost use Rattle.std.specs.Prelude.{◌≡◌, ◌↔◌, ℕ, ◌≤◌, List};
ghost use Rattle.far_base.specs.declared.log.LogLine.{LogLine};
ghost use Rattle.far_base.specs.declared.log.Placed.{Placed};
ghost use Rattle.far_model.specs.History.{IsHistory};
ghost use Rattle.far_model.specs.Log.{exposed};
ghost use Rattle.model_laws.specs.Answers.{AnswersAreAtMost};
ghost use Rattle.model_laws.specs.Placing.{history_of};

/// Every log, coherent or not, has one history: the computed one, and no other.
pub fn every_log_has_one_history()
    ensures computed { (log : List LogLine) → IsHistory log (history_of log) }
    ensures one { (log : List LogLine) (first second : List Placed)
        → IsHistory log first → IsHistory log second → first ≡ second }
{}

/// The exposed number is at most a number exactly where that bounds each answer to an operation on the key up to the
/// moment.
pub fn exposed_is_the_least_bound()
    ensures { (log : List LogLine) (key : List ℕ) (moment most : ℕ)
        → exposed log key moment ≤ most ↔ AnswersAreAtMost log key moment most }
{}
