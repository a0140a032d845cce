//! What the texts of the commands have to do with each other.

ghost use Rattle.std.specs.Prelude.{◌≡◌, ℕ, true, List};
ghost use Rattle.far_base.specs.declared.event.Event.{Event};
ghost use Rattle.far_base.specs.declared.plan.OpLine.{OpLine};
ghost use Rattle.far_history.specs.Report.{IsReport};
ghost use Rattle.far_model.specs.Linearizable.{HasOneLinearizableHistory};
ghost use Rattle.far_model.specs.Log.{LogView};
ghost use Rattle.far_model.specs.Runs.{is_finished};
ghost use Rattle.workload.specs.Plain.{IsPlain};
ghost use Rattle.workload.specs.WorkView.{WorkView};
ghost use Rattle.run_main.specs.Images.{with_stop};
ghost use Rattle.run_main.specs.Replay.{IsLinearizableReport, IsPickedRun, state_after};
ghost use Rattle.run_main.specs.Restoring.{CommandsRestore, ImageRestores};

/// What a recovery makes of the image of a workload, with a stop behind its other orders where it has none, is what the
/// first restart of its run leaves. So, where a workload has a stop, `recover` writes of what `image` has written the
/// records of the first `recovered` block of what `replay` writes.
pub fn images_restore()
    ensures images { (work : WorkView) → IsPlain work → ImageRestores (with_stop work) }
    ensures commands { (work : WorkView) → CommandsRestore work }
{
    run_laws::first_restart_restores();
    run_laws::kept_lists_are_written();
    model_laws::newest_is_one();
}

/// The run of a workload by its picks to its end has one history: the operations of the workload, each exactly once, at
/// a moment between its sending and its answer; in this order they are legal for a map, and keep real-time order. A
/// report of such a log prints that history. So what `replay` writes is linearizable, whatever the order of steps and
/// wherever the switch loses its memory.
#[tactic(auto, using(crate::proofs::Telling::report_tells))]
pub fn replay_is_linearizable()
    ensures histories { (work : WorkView) (events : List Event) → IsPlain work → IsPickedRun work events
        → is_finished work.plan (state_after work events) ≡ true
        → HasOneLinearizableHistory work.plan.ops (state_after work events).log }
    ensures reports { (ops : List OpLine) (log : LogView) (text : List ℕ) → HasOneLinearizableHistory ops log.lines
        → IsReport log text → IsLinearizableReport ops log text }
{
    run_laws::finished_runs_are_linearizable();
}
