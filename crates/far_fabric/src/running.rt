ghost use Rattle.std.specs.Prelude.{◌≡◌, IfOk};
ghost use Rattle.far_base.specs.Limits.{IsPlan};
ghost use Rattle.far_model.specs.View.{opening_view};
ghost use Rattle.far_fabric.specs.Known.{publisher};
ghost use Rattle.far_runner.specs.Ended.{IsEndOf};
ghost use Rattle.far_world.specs.Scene.{Tells};

use crate::board::{Board, BoardPass};
use crate::watch::Publisher;
use crate::workers::run_workers;
use far_base::{Config, Memory};
use far_outside::Gate;
use far_runner::{Crew, WorldLock, ended, party_count, started};
use far_world::World;
use server_keeper::MapKeeper;
use std::alloc::Global;
use std::sync::Wait;
use std::thread::Threads;
use switch_core::Switch;
use workload::Workload;

/// A crew of one for each party, in the order of the row of all.
fn all_alone(alloc: Global, config: Config) -> Result<Vec<Crew>, Memory> {
    let mut crews = Vec::new(alloc);
    for place in 0..party_count(config) {
        crews.reserve(1)?;
        crews.push_reserved(Crew::one(config, place));
    }
    Ok(crews)
}

/// The world after the turns that workers in threads took. The switch's worker publishes on the board.
pub(crate) fn in_threads<S: Switch + Send + Drop, G: Gate + Sync, R: Threads + Wait + Sync>(
    rt: &R,
    alloc: Global,
    gate: &G,
    board: &Board,
    pass: BoardPass,
    world: World<S, MapKeeper>,
) -> Result<World<S, MapKeeper>, Memory>
    requires tells { Tells world.keeper.records }
    requires board { pass.board ≡ board.now }
    requires publisher { pass.view ≡ publisher }
    ensures { IfOk result (λ after. Tells after.keeper.records) }
{
    let config = world.plan().config;
    let crews = all_alone(alloc, config)?;
    let lock = WorldLock::new(alloc, world, &crews)?;
    run_workers(rt, gate, &lock, Publisher::new(board, pass), config);
    Ok(lock.into_world())
}

/// Runs the workload's plan with a worker in a thread of its own for each client, each server, the switch and the
/// controller. They take turns under one lock, in any order, and pass the gate before each turn. The world is then
/// finished, and its state is that of the run of the workload's plan by the events that it has.
pub fn run_threads<S: Switch + Send + Drop, G: Gate + Sync, R: Threads + Wait + Sync>(
    rt: &R,
    alloc: Global,
    load: &Workload,
    switch: S,
    gate: &G,
) -> Result<World<S, MapKeeper>, Memory>
    requires valid { IsPlan load.now.plan }
    requires view { S.seen switch ≡ opening_view load.now.plan.config 1 0 }
    ensures { IfOk result (IsEndOf load.now.plan) }
{
    let world = started(alloc, &load.plan, switch)?;
    let (board, pass) = Board::new(alloc)?;
    let world = in_threads(rt, alloc, gate, &board, pass, world)?;
    ended(alloc, load, &load.plan, world)
}
