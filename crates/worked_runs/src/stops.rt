use crate::worlds::{begun, judge, log_of, read, watched};
use server_keeper::MapKeeper;
use std::alloc::Global;
use std::process::Abort;
use std::test::Fail;
use worked_texts::ROWS;

/// No run of a test makes more steps.
const MOST: u64 = 1_000;

/// The step from which the order of the line is due, where it is an order of a step.
fn step_of(line: &str) -> Option<u64> {
    let mut words = line.split(' ');
    match words.next()? {
        "admit" | "evict" | "snap" => words.next()?.parse::<u64>().ok(),
        _ => None,
    }
}

fn is_after(line: &str, step: u64) -> bool {
    match step_of(line) {
        Some(due) => step < due,
        None => false,
    }
}

/// The workload without its orders to stop, and with these lines before the first order that is due after the step, or
/// last.
fn with_stops(alloc: Global, text: &str, step: u64, stops: &str) -> Result<String, Fail> {
    let mut changed = String::new(alloc);
    let mut placed = false;
    for line in text.split('\n') {
        if line.is_empty() || line.starts_with("stop ") {
            continue;
        }
        if !placed && is_after(line, step) {
            changed.push_str(stops)?;
            placed = true;
        }
        changed.push_str(line)?;
        changed.push_str("\n")?;
    }
    if !placed {
        changed.push_str(stops)?;
    }
    Ok(changed)
}

/// Runs the workload, in which the switch stops so many times, and judges it; answers how many steps it made.
fn run_with_stops(rt: &impl Abort, alloc: Global, text: &str, stops: usize) -> Result<u64, Fail> {
    let load = read(alloc, text.as_bytes())?;
    let (mut world, _) = begun(alloc, text.as_bytes(), MapKeeper::new(alloc))?;
    let mut newest = Vec::new(alloc);
    watched(alloc, &mut world, &load, MOST, &mut newest)?;
    assert_eq!(rt; newest.len(), stops);
    judge(rt, alloc, &world, &newest)?;
    Ok(log_of(&world).steps())
}

/// The switch stops once the step was made; and so, and again as soon as it runs again.
fn stop_at(rt: &impl Abort, alloc: Global, text: &str, step: u64) -> Result<(), Fail> {
    let once = format!(in alloc; "stop {step}\n")?;
    let twice = format!(in alloc; "stop {step}\nstop 0\n")?;
    run_with_stops(rt, alloc, &with_stops(alloc, text, step, &once)?, 1)?;
    run_with_stops(rt, alloc, &with_stops(alloc, text, step, &twice)?, 2)?;
    Ok(())
}

/// The switch stops at each step that the run makes where it never stops.
fn stop_at_each_step(rt: &impl Abort, alloc: Global, text: &str) -> Result<(), Fail> {
    let steps = run_with_stops(rt, alloc, &with_stops(alloc, text, 0, "")?, 0)?;
    for step in 0..=steps {
        stop_at(rt, alloc, text, step)?;
    }
    Ok(())
}

/// Evictions with a write or several between peek and removal, a reply that comes late, and snapshots of a slot that
/// changes meanwhile: wherever the switch stops, the newest of what is kept comes back, and the answers have an order.
#[test]
fn a_stop_at_any_step_loses_nothing(rt: HostRuntime) -> Result<(), Fail> {
    let alloc = rt.alloc();
    for row in [ROWS[6], ROWS[7], ROWS[8], ROWS[10], ROWS[11], ROWS[14]] {
        stop_at_each_step(&rt, alloc, row.0)?;
    }
    Ok(())
}
