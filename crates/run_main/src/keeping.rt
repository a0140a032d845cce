ghost use Rattle.std.specs.Prelude.{◌≡◌, ◌≤◌, [], map, true, is_some, IfOk, IfErr, IfSome, OnOk};
ghost use Rattle.far_base.specs.Limits.{is_stop};
ghost use Rattle.far_model.specs.Kept.{kept_records};
ghost use Rattle.far_model.specs.State.{opening};
ghost use Rattle.far_outside.specs.Faults.{Rose};
ghost use Rattle.far_world.specs.Reached.{with_count};
ghost use Rattle.kept_image.specs.ImageText.{image_text};
ghost use Rattle.kept_image.specs.Meaning.{AreTold, IsImage, told_item};
ghost use Rattle.workload.specs.Plain.{IsPlain};
ghost use Rattle.run_main.specs.Gone.{HasGoneBy, IsStillOrGone};
ghost use Rattle.run_main.specs.Images.{IsImageOf, has_stop, with_stop};
ghost use Rattle.run_main.specs.Replay.{Tells};
ghost use Rattle.run_main.specs.Saying.{IsRunFault};
ghost use Rattle.run_main.specs.Texts.{IsTextOf};

use crate::starting::{Cache, Made, Unstarted, handed_back, parted, started, status_of_fault};
use crate::status::Status;
use crate::task::Task;
use far_base::{Memory, Order, Plan, STEP_LIMIT};
use far_outside::Keeper;
use far_runner::pump_to_recover;
use far_world::World;
use kept_image::{Image, write};
use std::alloc::Global;
use workload::Workload;

fn is_stop(order: &Order) -> bool
    ensures { result ≡ is_stop order.now }
{
    match order {
        Order::Stop { .. } | Order::StopAt { .. } => true,
        _ => false,
    }
}

/// Whether the plan has an order to stop the switch.
fn has_stop(plan: &Plan) -> bool
    ensures { result ≡ has_stop plan.now }
{
    plan.orders.iter().any(|order| is_stop(order))
}

/// The workload, with an order to stop the switch behind the others where it has none.
fn with_stop(load: Workload) -> Result<Workload, Memory>
    requires { IsPlain load }
    ensures load { IfOk result (λ stopping. stopping ≡ with_stop load) }
    ensures plain { IfOk result IsPlain }
    ensures stops { IfOk result (λ stopping. has_stop stopping.plan ≡ true) }
{
    let mut load = load;
    if !has_stop(&load.plan) {
        load.plan
            .orders
            .extend_from_slice(&[Order::Stop { step: STEP_LIMIT }])?;
    }
    Ok(load)
}

/// The image of what would be kept if the switch lost its memory now.
fn image_of<K: Keeper + Drop>(alloc: Global, world: &mut World<Cache, K>) -> Result<Vec<u8>, Status>
    ensures text { Tells world.old.keeper.records → IfOk result (λ text. text.items ≡ image_text
        (kept_records world.old.state)) }
    ensures reads { Tells world.old.keeper.records → IfOk result (λ text. AreTold (kept_records world.old.state) →
        IsImage text.items (map told_item (kept_records world.old.state))) }
    ensures unfailed { OnOk result (world.new.keeper.faults ≡ world.old.keeper.faults) }
    ensures fault { IfErr result (IsRunFault (Rose world.old.keeper.faults world.new.keeper.faults)) }
    ensures later { world.old.keeper.faults ≤ world.new.keeper.faults }
    ensures world { world.new ≡ with_count world.old world.new.keeper.faults }
{
    let mut items = Vec::new(alloc);
    if let Err(fault) = world.kept(&mut items) {
        return Err(status_of_fault(fault));
    }
    match write(alloc, &Image { items }) {
        Ok(text) => Ok(text),
        Err(_) => Err(Status::Memory),
    }
}

/// Runs the world, in which nothing has happened yet, until a recovery begins, and lists what is kept then.
fn run_to_recovery<K: Keeper + Drop>(
    alloc: Global,
    load: &Workload,
    world: World<Cache, K>,
) -> Made<K>
    requires stops { has_stop world.plan ≡ true }
    requires events { world.events ≡ [] }
    requires state { Tells world.keeper.records → world.state ≡ opening world.plan }
    ensures text { Tells world.keeper.records → IfOk result.text (λ text. IfSome (K.records result.keeper)
        (λ all. IsImageOf (record load.now { plan = world.plan }) text.items all)) }
    ensures unfailed { OnOk result.text (K.fault_count result.keeper ≡ world.keeper.faults) }
    ensures fault { IfErr result.text (IsRunFault (Rose world.keeper.faults (K.fault_count result.keeper))) }
    ensures later { world.keeper.faults ≤ K.fault_count result.keeper }
    ensures tells { is_some (K.records result.keeper) ≡ is_some world.keeper.records }
    ensures gone { Tells world.keeper.records → IfSome (K.records result.keeper) (HasGoneBy
        (record load.now { plan = world.plan })) }
{
    run_laws::kept_lists_are_written();
    let mut world = world;
    if let Err(fault) = pump_to_recover(&mut world, load) {
        return handed_back(world, Err(status_of_fault(fault)));
    }
    let text = image_of(alloc, &mut world);
    handed_back(world, text)
}

/// The run of the workload by its picks until a recovery begins, and the image of what is kept then.
pub(crate) fn keep<K: Keeper + Drop>(alloc: Global, load: Workload, keeper: K) -> Made<K>
    requires { IsPlain load }
    ensures text { Tells (K.records keeper) → IfOk result.text (λ text. IsTextOf (Task.Keep load) text.items
        (K.records result.keeper)) }
    ensures unfailed { OnOk result.text (K.fault_count result.keeper ≡ K.fault_count keeper) }
    ensures fault { IfErr result.text (IsRunFault (Rose (K.fault_count keeper) (K.fault_count result.keeper))) }
    ensures later { K.fault_count keeper ≤ K.fault_count result.keeper }
    ensures tells { is_some (K.records result.keeper) ≡ is_some (K.records keeper) }
    ensures gone { Tells (K.records keeper) → IsStillOrGone (Task.Keep load) (K.records keeper)
        (K.records result.keeper) }
{
    let stopping = match with_stop(load) {
        Ok(stopping) => stopping,
        Err(_) => {
            return Made {
                text: Err(Status::Memory),
                keeper,
            };
        }
    };
    let (plan, picks) = parted(alloc, stopping);
    match started(alloc, plan, keeper) {
        Ok(world) => run_to_recovery(alloc, &picks, world),
        Err(none) => {
            let Unstarted { status, keeper } = none;
            Made {
                text: Err(status),
                keeper,
            }
        }
    }
}
