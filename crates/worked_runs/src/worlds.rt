ghost use Rattle.std.specs.Prelude.{◌≡◌, IfOk};
ghost use Rattle.far_base.specs.Limits.{IsPlan};
ghost use Rattle.far_model.specs.View.{opening_view};

use crate::seen::{deeds_of, have_an_order, have_the_same, newest_of, recoveries_of};
use far_base::{Event, Plan, Record};
use far_history::{Log, report_text};
use far_outside::Keeper;
use far_runner::pump;
use far_world::{Halted, World};
use server_keeper::{MapKeeper, ScriptedKeeper, StepFault};
use std::alloc::Global;
use std::process::Abort;
use std::test::Fail;
use switch_core::{PlainSwitch, Switch};
use worked_texts::ROWS;
use workload::{Picker, Workload, parse};

/// No workload of a test has more bytes.
const LONGEST: usize = 100_000;

/// No run of a test makes more steps, and no keeper of a test has more calls.
const MOST: u64 = 1_000;

/// The workload that the text is.
pub(crate) fn read(alloc: Global, text: &[u8]) -> Result<Workload, Fail>
    ensures { IfOk result (λ load. IsPlan load.plan) }
{
    if text.len() > LONGEST {
        return Err("too long")?;
    }
    match parse(alloc, text) {
        Ok(load) => Ok(load),
        Err(fault) => Err(fault)?,
    }
}

/// The plan of the workload that the text is.
fn plan_of(alloc: Global, text: &[u8]) -> Result<Plan, Fail>
    ensures { IfOk result IsPlan }
{
    let Workload {
        plan,
        picks: _picks,
        random: _,
    } = read(alloc, text)?;
    Ok(plan)
}

/// A world of the plan, and whether the keeper refused its first start; then it is one that was started again with all
/// that came back.
fn started<K: Keeper + Drop>(
    alloc: Global,
    plan: Plan,
    switch: PlainSwitch,
    keeper: K,
) -> Result<(World<PlainSwitch, K>, bool), Fail>
    requires plan { IsPlan plan }
    requires switch { switch ≡ opening_view plan.config 1 0 }
{
    let halted = match World::start(alloc, plan, switch, keeper) {
        Ok(world) => return Ok((world, false)),
        Err(halted) => halted,
    };
    let Halted {
        cause,
        plan,
        switch,
        keeper,
    } = halted;
    if cause != StepFault::KeeperFailed {
        return Err(cause)?;
    }
    match World::start(alloc, plan, switch, keeper) {
        Ok(world) => Ok((world, true)),
        Err(_halted) => Err("refused again")?,
    }
}

/// A world of the workload over the keeper, and whether the keeper refused its first start.
pub(crate) fn begun<K: Keeper + Drop>(
    alloc: Global,
    text: &[u8],
    keeper: K,
) -> Result<(World<PlainSwitch, K>, bool), Fail> {
    let plan = plan_of(alloc, text)?;
    let switch = PlainSwitch::new(alloc, plan.config, 1, 0)?;
    started(alloc, plan, switch, keeper)
}

/// Runs the world to its end by the picks, and answers whether a call of the keeper failed on the way.
fn pumped<S: Switch + Drop, K: Keeper + Drop>(
    world: &mut World<S, K>,
    load: &Workload,
) -> Result<bool, Fail> {
    match pump(world, load) {
        Ok(_) => Ok(false),
        Err(StepFault::KeeperFailed) => Ok(true),
        Err(StepFault::Memory) => Err(StepFault::Memory)?,
    }
}

pub(crate) fn log_of<S: Switch + Drop, K: Keeper + Drop>(world: &World<S, K>) -> &Log {
    world.log()
}

/// The event that the pick chooses happens, where one can. Where it begins a recovery, the newest record of each key
/// that was kept just before goes behind the others.
fn stepped<S: Switch + Drop, K: Keeper + Drop>(
    alloc: Global,
    world: &mut World<S, K>,
    pick: u64,
    newest: &mut Vec<Vec<Record>>,
) -> Result<Option<Event>, Fail> {
    let mut kept = Vec::new(alloc);
    world.kept(&mut kept)?;
    if world.quiet() {
        return Ok(None);
    }
    let event = world.step(pick)?;
    if event == Event::Recover {
        newest.push(newest_of(alloc, &kept)?)?;
    }
    Ok(Some(event))
}

/// Steps the world by the picks from the first on, as `pump` does, so many times or until no event can happen.
pub(crate) fn watched<S: Switch + Drop, K: Keeper + Drop>(
    alloc: Global,
    world: &mut World<S, K>,
    load: &Workload,
    steps: u64,
    newest: &mut Vec<Vec<Record>>,
) -> Result<(), Fail> {
    let mut picker = Picker::new(load);
    let mut pick = picker.next(load);
    for _ in 0..steps {
        match stepped(alloc, world, pick, newest)? {
            None => return Ok(()),
            Some(Event::Order(_)) => {}
            Some(_) => pick = picker.next(load),
        }
    }
    Ok(())
}

/// The world is finished, each recovery left the newest of what was kept when it began, and what the clients saw has
/// an order.
pub(crate) fn judge<S: Switch + Drop, K: Keeper + Drop>(
    rt: &impl Abort,
    alloc: Global,
    world: &World<S, K>,
    newest: &[Vec<Record>],
) -> Result<(), Fail> {
    assert!(rt; world.finished());
    let log = log_of(world);
    let recoveries = recoveries_of(alloc, log)?;
    assert_eq!(rt; recoveries.len(), newest.len());
    for (recovered, due) in recoveries.iter().zip(newest) {
        assert!(rt; have_the_same(recovered, due));
    }
    let deeds = deeds_of(alloc, log, world.plan().ops.len())?;
    assert!(rt; have_an_order(alloc, &deeds)?);
    Ok(())
}

/// The report of a world, which is finished.
fn report_of<S: Switch + Drop, K: Keeper + Drop>(
    rt: &impl Abort,
    alloc: Global,
    world: &World<S, K>,
) -> Result<Vec<u8>, Fail> {
    assert!(rt; world.finished());
    Ok(report_text(alloc, log_of(world))?)
}

/// A run that went on after a call of the keeper.
#[derive(Drop)]
struct Resumed {
    /// Whether the call failed.
    failed: bool,
    /// How many steps were made before.
    steps: u64,
    report: Vec<u8>,
}

/// This call of the keeper fails, and the run goes on from there, by the picks from the first on.
fn run_past(
    rt: &impl Abort,
    alloc: Global,
    text: &[u8],
    load: &Workload,
    call: u64,
) -> Result<Resumed, Fail> {
    let keeper = ScriptedKeeper::new(alloc, [call].to_vec(alloc)?);
    let (mut world, refused) = begun(alloc, text, keeper)?;
    let failed = pumped(&mut world, load)?;
    let steps = log_of(&world).steps();
    assert!(rt; !pumped(&mut world, load)?);
    Ok(Resumed {
        failed: refused || failed,
        steps,
        report: report_of(rt, alloc, &world)?,
    })
}

/// The report of the run, judged, in which no call fails and the picks begin again after so many steps.
fn judged_report(
    rt: &impl Abort,
    alloc: Global,
    text: &[u8],
    load: &Workload,
    steps: u64,
) -> Result<Vec<u8>, Fail> {
    let (mut world, _) = begun(alloc, text, MapKeeper::new(alloc))?;
    let mut newest = Vec::new(alloc);
    watched(alloc, &mut world, load, steps, &mut newest)?;
    watched(alloc, &mut world, load, MOST, &mut newest)?;
    judge(rt, alloc, &world, &newest)?;
    report_of(rt, alloc, &world)
}

/// A run that goes on after this call of the keeper failed ends as one does in which no call fails; answers whether
/// there was such a call.
fn goes_on(rt: &impl Abort, alloc: Global, text: &[u8], call: u64) -> Result<bool, Fail> {
    let load = read(alloc, text)?;
    let Resumed {
        failed,
        steps,
        report,
    } = run_past(rt, alloc, text, &load, call)?;
    let expected = judged_report(rt, alloc, text, &load, steps)?;
    assert!(rt; report.as_slice() == expected.as_slice());
    Ok(failed)
}

/// The first call fails, then the second, and so on, until there is no call left to fail; answers how many there were.
fn fail_each_call(rt: &impl Abort, alloc: Global, text: &[u8]) -> Result<u64, Fail> {
    for call in 1..MOST {
        if !goes_on(rt, alloc, text, call)? {
            return Ok(call - 1);
        }
    }
    Err("each run had a call that failed")?
}

/// A run without a cache, and two with snapshots and a stop.
#[test]
fn a_world_goes_on_after_a_failed_call(rt: HostRuntime) -> Result<(), Fail> {
    let alloc = rt.alloc();
    for row in [ROWS[1], ROWS[12], ROWS[14]] {
        let failed = fail_each_call(&rt, alloc, row.0.as_bytes())?;
        assert!(rt; 0 < failed);
    }
    Ok(())
}
