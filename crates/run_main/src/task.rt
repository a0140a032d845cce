ghost use Rattle.std.specs.Prelude.{◌≡◌, ◌<◌, ◌≤◌, IfErr, IfOk, OnOk};
ghost use Rattle.far_base.specs.declared.plan.TheConstants.{OP_LIMIT, STEP_LIMIT};
ghost use Rattle.far_outside.specs.Faults.{Rose};
ghost use Rattle.workload.specs.Draws.{generated};
ghost use Rattle.workload.specs.Plain.{IsPlain};
ghost use Rattle.run_main.specs.Commands.{HasNumbers, Reads};
ghost use Rattle.run_main.specs.FaultCounts.{StoppedReading};
ghost use Rattle.run_main.specs.Saying.{HasRead};

use crate::command::Command;
use crate::reading::{judge_report, read_image, read_script, read_workload};
use crate::status::Status;
use far_base::OP_LIMIT;
use far_outside::Source;
use kept_image::Image;
use link_text::Script;
use std::alloc::Global;
use workload::{Limit, Workload, generate};

/// What is told of a run: all of it, or its figures.
#[derive(Clone, Copy)]
pub(crate) enum Account {
    Report,
    Summary,
}

/// What a command and its input ask for.
#[derive(Drop)]
pub(crate) enum Task {
    /// A run of the workload to its end, and what to tell of it.
    Run(Workload, Account),
    /// A run of the workload until a recovery begins, and the list of what is kept then.
    Keep(Workload),
    /// The map that a recovery makes of the kept list.
    Merge(Image),
    /// To say that a report's lines are good.
    Approve,
    /// What the events of a link tell.
    Tell(Script),
}

fn replay_task<S: Source>(alloc: Global, source: &mut S) -> Result<Task, Status>
    ensures read { HasRead Command.Replay (S.left source.old) (S.left source.new) (Rose (S.fault_count source.old)
        (S.fault_count source.new)) result }
    ensures unfailed { OnOk result (S.fault_count source.new ≡ S.fault_count source.old) }
    ensures unstopped { IfErr result (λ status. ¬ (StoppedReading (S.left source.old) status)
        → S.fault_count source.new ≡ S.fault_count source.old) }
{
    match read_workload(alloc, source) {
        Ok(load) => Ok(Task::Run(load, Account::Report)),
        Err(status) => Err(status),
    }
}

fn image_task<S: Source>(alloc: Global, source: &mut S) -> Result<Task, Status>
    ensures read { HasRead Command.Image (S.left source.old) (S.left source.new) (Rose (S.fault_count source.old)
        (S.fault_count source.new)) result }
    ensures unfailed { OnOk result (S.fault_count source.new ≡ S.fault_count source.old) }
    ensures unstopped { IfErr result (λ status. ¬ (StoppedReading (S.left source.old) status)
        → S.fault_count source.new ≡ S.fault_count source.old) }
{
    match read_workload(alloc, source) {
        Ok(load) => Ok(Task::Keep(load)),
        Err(status) => Err(status),
    }
}

fn recover_task<S: Source>(alloc: Global, source: &mut S) -> Result<Task, Status>
    ensures read { HasRead Command.Recover (S.left source.old) (S.left source.new) (Rose (S.fault_count source.old)
        (S.fault_count source.new)) result }
    ensures unfailed { OnOk result (S.fault_count source.new ≡ S.fault_count source.old) }
    ensures unstopped { IfErr result (λ status. ¬ (StoppedReading (S.left source.old) status)
        → S.fault_count source.new ≡ S.fault_count source.old) }
{
    match read_image(alloc, source) {
        Ok(image) => Ok(Task::Merge(image)),
        Err(status) => Err(status),
    }
}

fn audit_task<S: Source>(alloc: Global, source: &mut S) -> Result<Task, Status>
    ensures read { HasRead Command.Audit (S.left source.old) (S.left source.new) (Rose (S.fault_count source.old)
        (S.fault_count source.new)) result }
    ensures unfailed { OnOk result (S.fault_count source.new ≡ S.fault_count source.old) }
    ensures unstopped { IfErr result (λ status. ¬ (StoppedReading (S.left source.old) status)
        → S.fault_count source.new ≡ S.fault_count source.old) }
{
    match judge_report(alloc, source) {
        Ok(()) => Ok(Task::Approve),
        Err(status) => Err(status),
    }
}

fn link_task<S: Source>(alloc: Global, source: &mut S) -> Result<Task, Status>
    ensures read { HasRead Command.Link (S.left source.old) (S.left source.new) (Rose (S.fault_count source.old)
        (S.fault_count source.new)) result }
    ensures unfailed { OnOk result (S.fault_count source.new ≡ S.fault_count source.old) }
    ensures unstopped { IfErr result (λ status. ¬ (StoppedReading (S.left source.old) status)
        → S.fault_count source.new ≡ S.fault_count source.old) }
{
    match read_script(alloc, source) {
        Ok(script) => Ok(Task::Tell(script)),
        Err(status) => Err(status),
    }
}

fn bulk_task(alloc: Global, start: u64, ops: u64) -> Result<Task, Status>
    requires { start ≤ STEP_LIMIT }
    ensures task { IfOk result (λ task. task ≡ Task.Run (generated start ops) Account.Summary) }
    ensures plain { OnOk result (IsPlain (generated start ops)) }
    ensures few { OnOk result (ops ≤ OP_LIMIT) }
    ensures many { IfErr result (λ status. OP_LIMIT < ops → status ≡ Status.TooLarge Limit.Ops 0) }
    ensures memory { IfErr result (λ status. ops ≤ OP_LIMIT → status ≡ Status.Memory) }
{
    if u64::from(OP_LIMIT) < ops {
        return Err(Status::TooLarge(Limit::Ops, 0));
    }
    match generate(alloc, start, ops as u32) {
        Ok(load) => Ok(Task::Run(load, Account::Summary)),
        Err(_) => Err(Status::Memory),
    }
}

/// What the command asks for; its input is read to the end.
pub(crate) fn task_of<S: Source>(
    alloc: Global,
    command: Command,
    source: &mut S,
) -> Result<Task, Status>
    requires { HasNumbers command }
    ensures read { HasRead command (S.left source.old) (S.left source.new) (Rose (S.fault_count source.old)
        (S.fault_count source.new)) result }
    ensures unfailed { OnOk result (S.fault_count source.new ≡ S.fault_count source.old) }
    ensures unstopped { IfErr result (λ status. ¬ (StoppedReading (S.left source.old) status)
        → S.fault_count source.new ≡ S.fault_count source.old) }
    ensures untouched { ¬ (Reads command) → source.new ≡ source.old }
{
    match command {
        Command::Replay => replay_task(alloc, source),
        Command::Image => image_task(alloc, source),
        Command::Recover => recover_task(alloc, source),
        Command::Audit => audit_task(alloc, source),
        Command::Link => link_task(alloc, source),
        Command::Bulk { start, ops } => bulk_task(alloc, start, ops),
    }
}
