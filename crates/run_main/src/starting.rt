ghost use Rattle.std.specs.Prelude.{◌≡◌, ◌≤◌, IfOk, IfErr};
ghost use Rattle.far_base.specs.Limits.{IsPlan};
ghost use Rattle.far_model.specs.View.{opening_view};
ghost use Rattle.far_outside.specs.Faults.{Rose};
ghost use Rattle.far_world.specs.Reached.{HasStarted, IsReached};
ghost use Rattle.far_world.specs.Scene.{keeper_of};
ghost use Rattle.run_main.specs.Saying.{IsRunFault, fault_status};

use crate::status::Status;
use far_base::{Ops, Plan};
use far_outside::Keeper;
use far_world::{Halted, World};
use server_keeper::StepFault;
use std::alloc::Global;
use switch_staged::StagedSwitch;
use workload::Workload;

/// The switch that runs are made with.
pub(crate) type Cache = StagedSwitch;

/// The text of a task, or why there is none, and the keeper.
#[derive(Drop)]
pub(crate) struct Made<K: Keeper + Drop> {
    pub text: Result<Vec<u8>, Status>,
    pub keeper: K,
}

/// Why a world did not start, and the keeper.
#[derive(Drop)]
pub(crate) struct Unstarted<K: Keeper + Drop> {
    pub status: Status,
    pub keeper: K,
}

/// What a fault of a step is as the answer of a top call.
pub(crate) fn status_of_fault(fault: StepFault) -> Status
    ensures { result ≡ fault_status fault }
{
    match fault {
        StepFault::Memory => Status::Memory,
        StepFault::KeeperFailed => Status::KeeperFault,
    }
}

/// The plan of a workload, and its picks beside a plan of nothing.
pub(crate) fn parted(alloc: Global, load: Workload) -> (Plan, Workload)
    ensures plan { result.0 ≡ load.plan }
    ensures picks { record result.1 { plan = load.plan } ≡ load }
{
    let Workload {
        plan,
        picks,
        random,
    } = load;
    let nothing = Plan {
        config: plan.config,
        ops: Ops::new(alloc),
        orders: Vec::new(alloc),
    };
    let rest = Workload {
        plan: nothing,
        picks,
        random,
    };
    (plan, rest)
}

/// A world of the plan, in which nothing has happened yet.
pub(crate) fn started<K: Keeper + Drop>(
    alloc: Global,
    plan: Plan,
    keeper: K,
) -> Result<World<Cache, K>, Unstarted<K>>
    requires { IsPlan plan }
    ensures started { IfOk result (λ world. HasStarted plan (keeper_of (K.records keeper) (K.server_count keeper)
        (K.ceiling keeper) (K.fault_count keeper)) world) }
    ensures unfailed { IfOk result (λ world. world.keeper.faults ≡ K.fault_count keeper) }
    ensures fault { IfErr result (λ none. IsRunFault (Rose (K.fault_count keeper)
        (K.fault_count none.keeper)) none.status) }
    ensures later { IfErr result (λ none. K.fault_count keeper ≤ K.fault_count none.keeper) }
    ensures records { IfErr result (λ none. K.records none.keeper ≡ K.records keeper) }
{
    let switch = match Cache::new(alloc, plan.config, 1, 0) {
        Ok(switch) => switch,
        Err(_) => {
            return Err(Unstarted {
                status: Status::Memory,
                keeper,
            });
        }
    };
    match World::start(alloc, plan, switch, keeper) {
        Ok(world) => Ok(world),
        Err(halted) => {
            let Halted {
                cause,
                plan: _plan,
                switch: _switch,
                keeper,
            } = halted;
            Err(Unstarted {
                status: status_of_fault(cause),
                keeper,
            })
        }
    }
}

/// The keeper of a world, beside a text or why there is none.
pub(crate) fn handed_back<K: Keeper + Drop>(
    world: World<Cache, K>,
    text: Result<Vec<u8>, Status>,
) -> Made<K>
    ensures text { result.text ≡ text }
    ensures keeper { keeper_of (K.records result.keeper) (K.server_count result.keeper) (K.ceiling result.keeper)
        (K.fault_count result.keeper) ≡ world.keeper }
    ensures reached { IsReached world }
{
    let (_plan, _events, _log, _switch, keeper) = world.into_parts();
    Made { text, keeper }
}
