ghost use Rattle.std.specs.Prelude.{◌≡◌, ◌≤◌, [], true, is_some, length, IfOk, IfErr, IfSome, OnOk};
ghost use Rattle.far_base.specs.Limits.{IsPlan};
ghost use Rattle.far_history.specs.RoomyLog.{log_view};
ghost use Rattle.far_model.specs.Answered.{AllAnswered};
ghost use Rattle.far_model.specs.Runs.{is_finished};
ghost use Rattle.far_model.specs.State.{opening};
ghost use Rattle.far_outside.specs.Faults.{Rose};
ghost use Rattle.far_world.specs.Reached.{IsReached};
ghost use Rattle.workload.specs.Plain.{IsPlain};
ghost use Rattle.run_main.specs.Gone.{HasGoneIn, IsStillOrGone};
ghost use Rattle.run_main.specs.Replay.{IsAccount, Tells, log_of};
ghost use Rattle.run_main.specs.Saying.{IsRunFault};
ghost use Rattle.run_main.specs.Tasks.{HasWholeOps, IsReadyRun};
ghost use Rattle.run_main.specs.Texts.{IsTextOf};

use crate::starting::{Cache, Made, Unstarted, handed_back, parted, started, status_of_fault};
use crate::status::Status;
use crate::task::{Account, Task};
use far_base::{Memory, Plan};
use far_history::{Log, report_text, summary_text};
use far_outside::Keeper;
use far_runner::pump;
use far_world::World;
use std::alloc::Global;
use workload::Workload;

fn op_count(plan: &Plan) -> u32
    requires { IsPlan plan.now }
    ensures { result ≡ length plan.now.ops }
{
    plan.ops.len() as u32
}

#[tactic(auto, using(crate::proofs::Orders::few_orders))]
fn order_count(plan: &Plan) -> u32
    requires { IsPlan plan.now }
    ensures { result ≡ length plan.now.orders }
{
    plan.orders.len() as u32
}

/// The summary of a run of the plan.
fn summary_of(alloc: Global, plan: &Plan, log: &Log) -> Result<Vec<u8>, Memory>
    requires { IsPlan plan.now }
    ensures { IfOk result (λ text. IsAccount Account.Summary plan.now (log_view log.now) text.items) }
{
    summary_text(alloc, log, op_count(plan), order_count(plan))
}

/// What is told of a run of the plan.
fn account_text(alloc: Global, account: Account, plan: &Plan, log: &Log) -> Result<Vec<u8>, Memory>
    requires { IsPlan plan.now }
    ensures { IfOk result (λ text. IsAccount account plan.now (log_view log.now) text.items) }
{
    match account {
        Account::Report => report_text(alloc, log),
        Account::Summary => summary_of(alloc, plan, log),
    }
}

/// What is told of a world.
fn account_of<K: Keeper + Drop>(
    alloc: Global,
    account: Account,
    world: &World<Cache, K>,
) -> Result<Vec<u8>, Status>
    ensures text { IfOk result (λ text. IsAccount account world.now.plan (log_of world.now.state) text.items) }
    ensures memory { IfErr result (λ status. status ≡ Status.Memory) }
    ensures reached { IsReached world.now }
    ensures answered { is_finished world.now.plan world.now.state ≡ true → AllAnswered world.now.plan world.now.state }
{
    let log = world.log();
    match account_text(alloc, account, world.plan(), log) {
        Ok(text) => Ok(text),
        Err(_) => Err(Status::Memory),
    }
}

/// Runs the world, in which nothing has happened yet, to its end by the picks of the workload, whose plan may be
/// another, and tells of it.
fn run_to_end<K: Keeper + Drop>(
    alloc: Global,
    load: &Workload,
    account: Account,
    world: World<Cache, K>,
) -> Made<K>
    requires events { world.events ≡ [] }
    requires state { Tells world.keeper.records → world.state ≡ opening world.plan }
    requires whole { account ≡ Account.Report → HasWholeOps world.plan }
    ensures text { Tells world.keeper.records → IfOk result.text (λ text. IsTextOf (Task.Run
        (record load.now { plan = world.plan }) account) text.items (K.records result.keeper)) }
    ensures unfailed { OnOk result.text (K.fault_count result.keeper ≡ world.keeper.faults) }
    ensures fault { IfErr result.text (IsRunFault (Rose world.keeper.faults (K.fault_count result.keeper))) }
    ensures later { world.keeper.faults ≤ K.fault_count result.keeper }
    ensures tells { is_some (K.records result.keeper) ≡ is_some world.keeper.records }
    ensures gone { Tells world.keeper.records → IfSome (K.records result.keeper) (HasGoneIn (Task.Run
        (record load.now { plan = world.plan }) account)) }
{
    run_laws::finished_runs_are_linearizable();
    run_laws::restarts_restore();
    run_laws::histories_are_told();
    log_audit::reports_are_good();
    let mut world = world;
    if let Err(fault) = pump(&mut world, load) {
        return handed_back(world, Err(status_of_fault(fault)));
    }
    let text = account_of(alloc, account, &world);
    handed_back(world, text)
}

/// The run of the workload by its picks, and what is told of it.
pub(crate) fn replay<K: Keeper + Drop>(
    alloc: Global,
    load: Workload,
    account: Account,
    keeper: K,
) -> Made<K>
    requires { IsReadyRun load account }
    ensures text { Tells (K.records keeper) → IfOk result.text (λ text. IsTextOf (Task.Run load account) text.items
        (K.records result.keeper)) }
    ensures unfailed { OnOk result.text (K.fault_count result.keeper ≡ K.fault_count keeper) }
    ensures fault { IfErr result.text (IsRunFault (Rose (K.fault_count keeper) (K.fault_count result.keeper))) }
    ensures later { K.fault_count keeper ≤ K.fault_count result.keeper }
    ensures tells { is_some (K.records result.keeper) ≡ is_some (K.records keeper) }
    ensures gone { Tells (K.records keeper) → IsStillOrGone (Task.Run load account) (K.records keeper)
        (K.records result.keeper) }
{
    let (plan, picks) = parted(alloc, load);
    match started(alloc, plan, keeper) {
        Ok(world) => run_to_end(alloc, &picks, account, world),
        Err(none) => {
            let Unstarted { status, keeper } = none;
            Made {
                text: Err(status),
                keeper,
            }
        }
    }
}
