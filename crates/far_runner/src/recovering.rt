ghost use Rattle.std.specs.Prelude.{◌≡◌, ◌≢◌, [], ◌≤◌, false, true, IfOk, OnErr, OnOk, IsErrOf};
ghost use Rattle.std.specs.List.{list_any};
ghost use Rattle.far_base.specs.Limits.{is_stop};
ghost use Rattle.far_base.specs.declared.event.Event.TheVariants.{Recover};
ghost use Rattle.far_model.specs.Runs as runs;
ghost use Rattle.far_outside.specs.Faults.{Rose};
ghost use Rattle.far_world.specs.Reached.{IsReached};
ghost use Rattle.far_runner.specs.Pumped.{HasPumpedSome, HasPumpedToRecover};

use crate::running::pick_after;
use far_base::Event;
use far_outside::Keeper;
use far_world::World;
use server_keeper::StepFault;
use switch_core::Switch;
use workload::{Picker, Workload};

fn begins_recovery(event: Event) -> bool
    ensures yes { result ≡ true → event ≡ Recover }
    ensures no { result ≡ false → event ≢ Recover }
{
    match event {
        Event::Recover => true,
        _ => false,
    }
}

/// The world is reached by a run of its plan, and it is finished where nothing can happen.
fn note_reached<S: Switch + Drop, K: Keeper + Drop>(world: &World<S, K>)
    ensures reached { IsReached world.now }
    ensures finished { runs.is_finished world.now.plan world.now.state
        ≡ runs.is_quiet world.now.plan world.now.state }
{
    let _finished = world.finished();
    let _log = world.log();
}

/// Steps the world, in which nothing has happened, by the picks of the workload, whose plan may be another, until a
/// recovery has begun, and answers how many steps were made. The world's plan has an order to stop the switch, of
/// either form. `KeeperFailed` only where the keeper's count of faults rose in this call. After an error the world is
/// as after the steps that were made, which are the first of those that the picks choose.
pub fn pump_to_recover<S: Switch + Drop, K: Keeper + Drop>(
    world: &mut World<S, K>,
    load: &Workload,
) -> Result<u64, StepFault>
    requires stops { list_any is_stop world.old.plan.orders ≡ true }
    requires no_step { world.old.events ≡ [] }
    ensures pumped { IfOk result (λ count. HasPumpedToRecover load.now world.old world.new count) }
    ensures some { OnErr result (HasPumpedSome load.now world.old world.new) }
    ensures unfailed { OnOk result (world.new.keeper.faults ≡ world.old.keeper.faults) }
    ensures later { world.old.keeper.faults ≤ world.new.keeper.faults }
    ensures cause { IsErrOf result StepFault.KeeperFailed → Rose world.old.keeper.faults world.new.keeper.faults }
{
    flight_laws::recoveries_begin();
    let mut picker = Picker::new(load);
    let mut pick = picker.next(load);
    let mut count = 0;
    while !world.quiet() {
        let event = world.step(pick)?;
        count += 1;
        if begins_recovery(event) {
            return Ok(count);
        }
        pick = pick_after(&mut picker, load, event, pick);
    }
    // This is never reached: a run of the plan is finished only after a recovery has begun.
    note_reached(world);
    Ok(count)
}
