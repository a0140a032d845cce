ghost use Rattle.std.specs.Prelude.{◌≡◌, ◌≢◌, ◌↔◌, ◌⊎◌, ◌≤◌, [], IsTrue, IfOk, IfSome, codes, map, string_bytes};
ghost use Rattle.far_base.specs.Limits.{IsPlan};
ghost use Rattle.far_outside.specs.Faults.{Rose};
ghost use Rattle.run_main.specs.FaultCounts.{StoppedReading};
ghost use Rattle.run_main.specs.Run.{HandsBack, HasRunCause, IsReportOfInput, IsRunOfInput, IsRunReport, IsRunSettled};
ghost use Rattle.run_main.specs.Run.{IsRunWord, IsUsageAnswer, RunWroteDue};
ghost use Rattle.run_main.specs.Saying.{IsAnswer, IsRead, Says};
ghost use Rattle.run_main.specs.Top.{ReadFirst};

use crate::reading::read_workload;
use crate::saying::{refuse, say_of};
use crate::starting::Cache;
use crate::status::Status;
use far_base::{Event, Memory};
use far_fabric::run_threads;
use far_history::report_text;
use far_outside::{Gate, Sink, Source};
use std::alloc::Global;
use std::sync::Wait;
use std::thread::Threads;
use workload::Workload;

/// How a run in threads ended, and the events of the run in their order.
#[derive(Drop)]
pub struct RunEnded {
    pub status: Status,
    pub events: Vec<Event>,
}

/// The events of a finished run, and its report.
#[derive(Drop)]
struct Finished {
    events: Vec<Event>,
    report: Vec<u8>,
}

fn is_run_word(word: &str) -> bool
    ensures { IsTrue result ↔ (word.now ≡ codes "run") }
{
    word == "run"
}

fn is_run(words: &[String]) -> bool
    ensures { IsTrue result ↔ IsRunWord (map string_bytes words.now) }
{
    match words {
        [word] => is_run_word(word.as_str()),
        _ => false,
    }
}

/// An answer without events.
fn without_events(alloc: Global, status: Status) -> RunEnded
    ensures status { result.status ≡ status }
    ensures events { result.events.items ≡ [] }
{
    RunEnded {
        status,
        events: Vec::new(alloc),
    }
}

/// Runs the workload in threads to its end.
fn run_to_end<G: Gate + Sync, R: Threads + Wait + Sync>(
    rt: &R,
    alloc: Global,
    load: &Workload,
    gate: &G,
) -> Result<Finished, Memory>
    requires { IsPlan load.now.plan }
    ensures { IfOk result (λ finished. IsRunReport load.now.plan finished.events.items finished.report.items) }
{
    run_laws::finished_runs_are_linearizable();
    run_laws::restarts_restore();
    let switch = Cache::new(alloc, load.plan.config, 1, 0)?;
    let world = run_threads(rt, alloc, load, switch, gate)?;
    let report = report_text(alloc, world.log())?;
    let (_plan, events, _log, _switch, _keeper) = world.into_parts();
    Ok(Finished { events, report })
}

/// Writes the report. Where no memory was left for this, the events are let go.
fn reported<D: Sink>(alloc: Global, sink: &mut D, finished: Finished) -> RunEnded
    ensures said { Says (D.written sink.old) (D.written sink.new) finished.report.items Status.Done result.status }
    ensures answer { IsAnswer Status.Done result.status }
    ensures unfailed { result.status ≢ Status.WriteFault → result.status ≢ Status.Memory → D.fault_count sink.new
        ≡ D.fault_count sink.old }
    ensures cause { result.status ≡ Status.WriteFault → Rose (D.fault_count sink.old) (D.fault_count sink.new) }
    ensures calm { ¬ Rose (D.fault_count sink.old) (D.fault_count sink.new)
        → (result.status ≡ Status.Done) ⊎ (result.status ≡ Status.Memory) }
    ensures events { (result.status ≡ Status.Memory → result.events.items ≡ [])
        × ((result.status ≡ Status.Memory → ⊥) → result.events.items ≡ finished.events.items) }
{
    let Finished { events, report } = finished;
    let (status, events) = say_of(alloc, sink, &report, events);
    RunEnded { status, events }
}

/// Does what the arguments say, with a thread for each party: `run` reads a workload to its end, runs it in any order
/// that the threads come to, and writes the report of the run by the events that it hands back. Each worker passes the
/// gate before each of its turns.
///
/// `Usage` where the arguments are not the one word `run`; `BadLine` and `TooLarge` where the input is no workload,
/// with its first faulty line, or has more than `INPUT_LIMIT` bytes: each writes one line. `ReadFault` and `WriteFault`
/// where a read or a write failed. The first cause decides, in the order arguments, reading, grammar, run, writing;
/// nothing is written before the run has ended. Where no run was made, or memory was refused, there are no events.
///
/// The source's count of faults is as before unless the answer is `ReadFault` or `Memory`, or the input has more than
/// `INPUT_LIMIT` bytes; the sink's unless it is `WriteFault` or `Memory`.
pub fn top_run<S: Source, D: Sink, G: Gate + Sync, R: Threads + Wait + Sync>(
    rt: &R,
    alloc: Global,
    words: &[String],
    source: &mut S,
    sink: &mut D,
    gate: &G,
) -> RunEnded
    // Each answer has its cause, and the first cause decides.
    ensures causes { HasRunCause (IsRunWord (map string_bytes words.now)) (S.left source.old) (Rose (S.fault_count source.old)
        (S.fault_count source.new)) (Rose (D.fault_count sink.old) (D.fault_count sink.new)) result.status }
    // Where no count rose the answer is the one that is due, unless memory was refused.
    ensures settled { IsRunSettled (IsRunWord (map string_bytes words.now)) (S.left source.old) (¬ Rose (S.fault_count source.old)
        (S.fault_count source.new)) (¬ Rose (D.fault_count sink.old) (D.fault_count sink.new)) result.status }
    // A count of faults is as before where the answer names neither its fault nor want of memory.
    ensures unfailed_source { ¬ (StoppedReading (S.left source.old) result.status) → S.fault_count source.new
        ≡ S.fault_count source.old }
    ensures unfailed_sink { result.status ≢ Status.WriteFault → result.status ≢ Status.Memory → D.fault_count sink.new
        ≡ D.fault_count sink.old }
    // What is written is what was due, and a report comes only after all was read.
    ensures written { RunWroteDue (IsRunWord (map string_bytes words.now)) (S.left source.old)
        (IsReportOfInput result.events.items) (D.written sink.old) (D.written sink.new) result.status }
    ensures first { ReadFirst (S.left source.old) (S.left source.new) result.status }
    // Other words do nothing but write the usage line.
    ensures other_words { ¬ (IsRunWord (map string_bytes words.now)) → (S.left source.new ≡ S.left source.old)
        × IsUsageAnswer result.status }
    // The events are those of the run, before which all was read, or there are none.
    ensures events { HandsBack (IsRunWord (map string_bytes words.now)) (S.left source.old) (S.left source.new)
        (IsRunOfInput result.events.items) (result.events.items ≡ []) result.status }
{
    if !is_run(words) {
        return without_events(alloc, refuse(alloc, sink, Status::Usage));
    }
    let load = match read_workload(alloc, source) {
        Ok(load) => load,
        Err(status) => return without_events(alloc, refuse(alloc, sink, status)),
    };
    match run_to_end(rt, alloc, &load, gate) {
        Ok(finished) => reported(alloc, sink, finished),
        Err(_) => without_events(alloc, Status::Memory),
    }
}
