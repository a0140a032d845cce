ghost use Rattle.std.specs.Prelude.{◌≡◌, ℕ, ◌+◌, ◌≤◌, false, true, if◌then◌else◌, IfOk, OnErr, OnOk, IsErrOf};
ghost use Rattle.far_model.specs.Runs as runs;
ghost use Rattle.far_model.specs.Work.{work_bound, work_left};
ghost use Rattle.far_outside.specs.Faults.{Rose};
ghost use Rattle.far_runner.specs.Picked.{IsAt, is_order, pick_of};
ghost use Rattle.far_runner.specs.Pumped.{HasPumped, HasPumpedSome};

use far_base::Event;
use far_outside::Keeper;
use far_world::World;
use server_keeper::StepFault;
use switch_core::Switch;
use workload::{Picker, Workload};

/// Whether the event is an order of the plan.
fn is_an_order(event: Event) -> bool
    ensures { result ≡ is_order event }
{
    match event {
        Event::Order(_) => true,
        _ => false,
    }
}

/// The pick after an event: an order uses none.
pub(crate) fn pick_after(picker: &mut Picker, load: &Workload, event: Event, pick: u64) -> u64
    ensures pick { (n : ℕ) → IsAt load.now (n + 1) picker.old → pick ≡ pick_of load.now n → result ≡ pick_of load.now
        (if is_order event then n else n + 1) }
    ensures at { (n : ℕ) → IsAt load.now (n + 1) picker.old → IsAt load.now
        ((if is_order event then n else n + 1) + 1) picker.new }
{
    if is_an_order(event) {
        return pick;
    }
    picker.next(load)
}

/// The work that is left in a world is within the bound of its plan.
#[tactic(auto, using(crate::proofs::Bounding::within_bound))]
fn note_bound<S: Switch + Drop, K: Keeper + Drop>(world: &World<S, K>)
    ensures { work_left world.now.plan world.now.state ≤ work_bound world.now.plan }
{
    flight_laws::runs_have_room();
    let _log = world.log();
}

/// Steps the world by the picks of the workload, whose plan may be another, until no event can happen, which is where
/// it is finished, and answers how many steps were made. `KeeperFailed` only where the keeper's count of faults rose in
/// this call. After an error the world is as after the steps that were made, which are the first of those that the
/// picks choose.
pub fn pump<S: Switch + Drop, K: Keeper + Drop>(
    world: &mut World<S, K>,
    load: &Workload,
) -> Result<u64, StepFault>
    ensures pumped { IfOk result (λ count. HasPumped load.now world.old world.new count) }
    // No more steps than the bound of the plan.
    ensures bound { IfOk result (λ count. count ≤ work_bound world.old.plan) }
    ensures finished { OnOk result (runs.is_finished world.new.plan world.new.state ≡ true) }
    ensures some { OnErr result (HasPumpedSome load.now world.old world.new) }
    ensures unfailed { OnOk result (world.new.keeper.faults ≡ world.old.keeper.faults) }
    ensures later { world.old.keeper.faults ≤ world.new.keeper.faults }
    ensures cause { IsErrOf result StepFault.KeeperFailed → Rose world.old.keeper.faults world.new.keeper.faults }
{
    note_bound(world);
    let mut picker = Picker::new(load);
    let mut pick = picker.next(load);
    let mut count = 0;
    while !world.quiet() {
        let event = world.step(pick)?;
        count += 1;
        pick = pick_after(&mut picker, load, event, pick);
    }
    // Nothing can happen, so all is done.
    let _finished = world.finished();
    Ok(count)
}
