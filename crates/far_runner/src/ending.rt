ghost use Rattle.std.specs.Prelude.{◌≡◌, true, IfOk};
ghost use Rattle.far_base.specs.Limits.{IsPlan};
ghost use Rattle.far_model.specs.Runs as runs;
ghost use Rattle.far_model.specs.View.{opening_view};
ghost use Rattle.far_world.specs.Reached.{IsReached, IsRunOf};
ghost use Rattle.far_world.specs.Scene.{Tells};
ghost use Rattle.far_runner.specs.Ended.{IsEndOf};

use crate::plans::{copied, same_plan};
use crate::running::pump;
use far_base::{Memory, Plan};
use far_world::World;
use server_keeper::MapKeeper;
use std::alloc::Global;
use switch_core::Switch;
use workload::Workload;

/// A world of the plan, in which nothing has happened yet. The switch is the opening one of the plan's config, in epoch
/// 1 and with counter 0.
pub fn started<S: Switch + Drop>(
    alloc: Global,
    plan: &Plan,
    switch: S,
) -> Result<World<S, MapKeeper>, Memory>
    requires valid { IsPlan plan.now }
    requires view { S.seen switch ≡ opening_view plan.now.config 1 0 }
    ensures plan { IfOk result (λ world. world.plan ≡ plan.now) }
    ensures tells { IfOk result (λ world. Tells world.keeper.records) }
{
    let plan = copied(alloc, plan)?;
    match World::start(alloc, plan, switch, MapKeeper::new(alloc)) {
        Ok(world) => Ok(world),
        Err(_) => Err(Memory),
    }
}

/// The world where it is one of this plan; else a new one of this plan, with its switch.
fn of_plan<S: Switch + Drop>(
    alloc: Global,
    plan: &Plan,
    world: World<S, MapKeeper>,
) -> Result<World<S, MapKeeper>, Memory>
    requires valid { IsPlan plan.now }
    requires tells { Tells world.keeper.records }
    ensures plan { IfOk result (λ after. after.plan ≡ plan.now) }
    ensures tells { IfOk result (λ after. Tells after.keeper.records) }
{
    if same_plan(world.plan(), plan) {
        return Ok(world);
    }
    let (_plan, _events, _log, mut switch, _keeper) = world.into_parts();
    switch.renew(plan.config, 1, 0)?;
    started(alloc, plan, switch)
}

/// The end of a run of the plan: the world, where it is one of this plan, and else a new one with its switch, is
/// stepped by the picks of the workload, whose plan may be another, until it is finished.
pub fn ended<S: Switch + Drop>(
    alloc: Global,
    load: &Workload,
    plan: &Plan,
    world: World<S, MapKeeper>,
) -> Result<World<S, MapKeeper>, Memory>
    requires valid { IsPlan plan.now }
    requires tells { Tells world.keeper.records }
    ensures { IfOk result (IsEndOf plan.now) }
{
    let mut world = of_plan(alloc, plan, world)?;
    if pump(&mut world, load).is_err() {
        return Err(Memory);
    }
    // The world tells that it is reached.
    let _log = world.log();
    Ok(world)
}
