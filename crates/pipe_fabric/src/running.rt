ghost use Rattle.std.specs.Prelude.{◌≡◌, ◌≤◌, ◌<◌, IfOk};
ghost use Rattle.std.specs.List.{AllZip};
ghost use Rattle.far_base.specs.Limits.{IsPlan};
ghost use Rattle.far_runner.specs.Ended.{IsEndOf};
ghost use Rattle.pipe_fabric.specs.Parts.{part_of, parts_of};
ghost use Rattle.pipe_fabric.specs.declared.parts.TheConstants.{PIPE_LIMIT};

use crate::gate::PipeGate;
use crate::parts::part;
use crate::pipe::Pipe;
use far_base::{Memory, Plan};
use far_world::World;
use server_keeper::MapKeeper;
use std::alloc::Global;
use std::sync::Wait;
use std::thread;
use std::thread::Threads;
use switch_staged::StagedSwitch;
use workload::Workload;

/// A pipe of so many, with its part of the plan.
fn opened(alloc: Global, plan: &Plan, pipe: u32, pipes: u32) -> Result<Pipe, Memory>
    requires valid { IsPlan plan.now }
    requires pipe { pipe < pipes }
    requires pipes { pipes ≤ PIPE_LIMIT }
    ensures { IfOk result (λ opened. opened ≡ part_of plan.now pipe pipes) }
{
    Pipe::new(alloc, part(alloc, plan, pipe, pipes)?)
}

/// The pipes of the plan, by rising number.
fn all_opened(alloc: Global, plan: &Plan, pipes: u32) -> Result<Vec<Pipe>, Memory>
    requires valid { IsPlan plan.now }
    requires pipes { pipes ≤ PIPE_LIMIT }
    ensures { IfOk result (λ all. all.items ≡ parts_of plan.now pipes) }
{
    let mut all = Vec::new(alloc);
    for pipe in 0..pipes {
        all.reserve(1)?;
        all.push_reserved(opened(alloc, plan, pipe, pipes)?);
    }
    Ok(all)
}

/// Runs three workers for each pipe, each in a thread of its own, until all have ended: one for its clients, one for
/// its servers, one for its switch and controller. Where one cannot be started, the mark of its pipe is set.
fn run_workers<'x, G: PipeGate + Sync, R: Threads + Wait + Sync>(
    rt: &'x R,
    gate: &'x G,
    pipes: &'x [Pipe],
) {
    thread::scope(thread::scope_env(), rt, |scope| {
        let mut number: u32 = 0;
        for pipe in pipes {
            for worker in 0..3 {
                if scope
                    .spawn(move || pipe.work(rt, gate, number, worker))
                    .is_err()
                {
                    pipe.end_all(rt);
                    break;
                }
            }
            number = number.saturating_add(1);
        }
    });
}

/// The worlds of the pipes, each run to its end.
fn all_ended(
    alloc: Global,
    load: &Workload,
    pipes: Vec<Pipe>,
) -> Result<Vec<World<StagedSwitch, MapKeeper>>, Memory>
    ensures { IfOk result (λ worlds. AllZip IsEndOf pipes.items worlds.items) }
{
    let mut worlds = Vec::new(alloc);
    for pipe in pipes {
        worlds.reserve(1)?;
        worlds.push_reserved(pipe.ended(alloc, load)?);
    }
    Ok(worlds)
}

/// Runs the parts of the workload's plan for so many pipes, each in a world of its own under a lock of its own. Three
/// workers of a pipe take turns under its lock: one for its clients, one for its servers, one for its switch and
/// controller. They pass the gate before each turn, and are held at it in each turn while they have the lock. World
/// number p is then finished, and its state is that of the run of part p by the events that it has.
pub fn run_pipes<G: PipeGate + Sync, R: Threads + Wait + Sync>(
    rt: &R,
    alloc: Global,
    load: &Workload,
    pipes: u32,
    gate: &G,
) -> Result<Vec<World<StagedSwitch, MapKeeper>>, Memory>
    requires valid { IsPlan load.now.plan }
    requires pipes { (1 ≤ pipes) × (pipes ≤ PIPE_LIMIT) }
    ensures { IfOk result (λ worlds. AllZip IsEndOf (parts_of load.now.plan pipes) worlds.items) }
{
    let all = all_opened(alloc, &load.plan, pipes)?;
    run_workers(rt, gate, &all);
    all_ended(alloc, load, all)
}
