//! What holds of every log, or of every log that is coherent.

ghost use Rattle.std.specs.Prelude.{◌≡◌, ℕ, ◌≤◌, List, Some, slice_get};
ghost use Rattle.far_base.specs.declared.record.Record.{Record};
ghost use Rattle.far_base.specs.declared.log.LogLine.{LogLine};
ghost use Rattle.far_base.specs.declared.log.Placed.{Placed};
ghost use Rattle.far_invariants.specs.ClientOrder.{KeepsClientOrder};
ghost use Rattle.far_model.specs.Coherent.{IsCoherent};
ghost use Rattle.far_model.specs.History.{HasOneLegalHistory, IsFinalMap, IsHistory, IsLinearizable, IsPlace, key_of};
ghost use Rattle.far_model.specs.Log.{At, answering, exposed, numbering};
ghost use Rattle.far_model.specs.Members.{Among};

/// The history of a coherent log is legal and keeps real-time order, and with it each client's
/// own order.
pub fn coherent_log()
    ensures linearizable { (log : List LogLine) (history : List Placed) → IsCoherent log → IsHistory log history
        → IsLinearizable log history }
    ensures one { (log : List LogLine) → IsCoherent log → HasOneLegalHistory log }
    ensures by_client { (log : List LogLine) (history : List Placed) → IsCoherent log → IsHistory log history
        → KeepsClientOrder log history }
{}

/// In a coherent log each answered operation has a place, and so does each write whose number was
/// exposed on its key: all of them stand in the history.
pub fn all_placed()
    ensures answered { (log : List LogLine) (op : ℕ) (answered : At ℕ) → IsCoherent log
        → answering log op ≡ Some answered → (place : Placed) × (place.op ≡ op) × IsPlace log place }
    ensures exposed { (log : List LogLine) (op moment : ℕ) (own : At ℕ) → IsCoherent log → numbering log op ≡ Some own
        → own.what ≤ exposed log (key_of log op) moment → (place : Placed) × (place.op ≡ op) × IsPlace log place }
    ensures answered_stands { (log : List LogLine) (history : List Placed) (op : ℕ) (answered : At ℕ) → IsCoherent log
        → IsHistory log history → answering log op ≡ Some answered → (place : Placed) × (place.op ≡ op)
        × Among place history }
    ensures exposed_stands { (log : List LogLine) (history : List Placed) (op moment : ℕ) (own : At ℕ) → IsCoherent log
        → IsHistory log history → numbering log op ≡ Some own → own.what ≤ exposed log (key_of log op) moment
        → (place : Placed) × (place.op ≡ op) × Among place history }
{}

/// A log has one history, and a history one final map: an operation has one place and stands once,
/// and so does a key of the map.
pub fn one_history()
    ensures place { (log : List LogLine) (x y : Placed) → IsPlace log x → IsPlace log y → x.op ≡ y.op → x ≡ y }
    ensures once { (log : List LogLine) (history : List Placed) (i j : ℕ) (x y : Placed) → IsHistory log history
        → slice_get history i ≡ Some x → slice_get history j ≡ Some y → x.op ≡ y.op → i ≡ j }
    ensures history { (log : List LogLine) (first second : List Placed) → IsHistory log first → IsHistory log second
        → first ≡ second }
    ensures key_once { (log : List LogLine) (history : List Placed) (map : List Record) (i j : ℕ) (x y : Record)
        → IsFinalMap log history map → slice_get map i ≡ Some x → slice_get map j ≡ Some y → x.key ≡ y.key → i ≡ j }
    ensures map { (log : List LogLine) (history : List Placed) (first second : List Record)
        → IsFinalMap log history first → IsFinalMap log history second → first ≡ second }
{}
