//! What every report is.

ghost use Rattle.std.specs.Prelude.{List, ℕ};
ghost use Rattle.far_history.specs.Report.{IsReport};
ghost use Rattle.far_model.specs.History.{HasOneLegalHistory};
ghost use Rattle.far_model.specs.Log.{LogView};
ghost use Rattle.log_audit.specs.Good.{IsGoodReport};
ghost use Rattle.log_audit.specs.Told.{IsToldInFull};

/// The report of a log with one legal history, which keeps real-time order, has the form of a report, and its lines are
/// good, where the log tells all of each operation.
pub fn reports_are_good()
    ensures { (log : LogView) (text : List ℕ) → HasOneLegalHistory log.lines → IsToldInFull log → IsReport log text
        → IsGoodReport text }
{}
