//! The history of every run.

ghost use Rattle.far_invariants.specs.Logs.{AnswersAreCurrent, LogIsSound};
ghost use Rattle.far_invariants.specs.Numbers.{NumbersAreSound};
ghost use Rattle.std.specs.Prelude.{◌≡◌, ℕ, ◌≤◌, true, List, Some};
ghost use Rattle.far_base.specs.declared.log.Placed.{Placed};
ghost use Rattle.far_model.specs.Coherent.{IsCoherent};
ghost use Rattle.far_model.specs.History.{HasOneLegalHistory, IsHistory, key_of};
ghost use Rattle.far_model.specs.Linearizable.{HasOneLinearizableHistory};
ghost use Rattle.far_model.specs.Log.{At, exposed, numbering};
ghost use Rattle.far_model.specs.Members.{Among};
ghost use Rattle.far_model.specs.Runs.{is_finished};
ghost use Rattle.far_invariants.specs.Always.{Always};
ghost use Rattle.far_invariants.specs.ClientOrder.{KeepsClientOrder};
ghost use Rattle.run_laws.specs.ToldHistory.{HistoryIsTold};

/// Across all stops the log is coherent; so it has a history, which is legal and keeps real-time order, each client's
/// own order with it, and it has no other. A write whose number an answer has shown stands in the history, also where
/// it is not answered yet.
pub fn runs_have_one_history()
    ensures coherent { Always (λ plan events s. IsCoherent s.log) }
    ensures history { Always (λ plan events s. HasOneLegalHistory s.log) }
    ensures by_client { Always (λ plan events s. (history : List Placed) → IsHistory s.log history
        → KeepsClientOrder s.log history) }
    ensures exposed { Always (λ plan events s. (history : List Placed) (op moment : ℕ) (own : At ℕ)
        → IsHistory s.log history → numbering s.log op ≡ Some own → own.what ≤ exposed s.log (key_of s.log op) moment
        → (place : Placed) × (place.op ≡ op) × Among place history) }
{
    history_laws::coherent_log();
    history_laws::all_placed();
}

/// Once nothing is left to do, all operations of the plan are one linearizable history, across all stops: each stands
/// in it exactly once, at a moment between its sending and its answer, and no other stands there; each read was
/// answered with what the map of the writes before it has, and what was answered before another was sent stands before
/// it.
pub fn finished_runs_are_linearizable()
    ensures { Always (λ plan events s. is_finished plan s ≡ true → HasOneLinearizableHistory plan.ops s.log) }
{}

/// Each read is answered with at least what was exposed when it was sent, and each write with at least its own number;
/// servers, slots and replies are current, and what they hold was written.
pub fn answers_are_current()
    ensures current { Always (λ plan events s. AnswersAreCurrent s.log) }
    ensures logs { Always (λ plan events s. LogIsSound plan s) }
    ensures numbers { Always (λ plan events s. NumbersAreSound plan s) }
{}

/// Once nothing is left to do, the log tells of each operation of the history when it was sent and, later, answered,
/// and with which number and body; the history has no more operations than the plan.
pub fn histories_are_told()
    ensures { Always (λ plan events s. is_finished plan s ≡ true → HistoryIsTold plan s) }
{}
