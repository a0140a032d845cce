ghost use Rattle.std.specs.Prelude.{◌≡◌, ◌≢◌, ◌⊎◌, ◌≤◌, ◌++◌, [], ◌∷◌, ℕ, IfOk, IfNone, IfSome, OnOk, Some};
ghost use Rattle.std.specs.Prelude.{map, string_bytes};
ghost use Rattle.far_base.specs.Limits.{IsPlan};
ghost use Rattle.far_outside.specs.Faults.{Rose};
ghost use Rattle.far_world.specs.Reached.{Ran};
ghost use Rattle.pipe_fabric.specs.declared.parts.TheConstants.{PIPE_LIMIT};
ghost use Rattle.run_main.specs.FaultCounts.{StoppedReading};
ghost use Rattle.run_main.specs.Pipes.{ArePipesOfInput, AsksFor, AsksForPipes, IsPipesReport, IsPipesReportOfInput};
ghost use Rattle.run_main.specs.Pipes.{lists_in, pipes_in_limit, pipes_named, pipes_of};
ghost use Rattle.run_main.specs.PipeWorlds.{HasReport, HasReports, IsTextOfWorlds};
ghost use Rattle.run_main.specs.Run.{HandsBack, HasRunCause, IsRunSettled, IsUsageAnswer, RunWroteDue};
ghost use Rattle.run_main.specs.Saying.{IsAnswer, IsRead, Says};
ghost use Rattle.run_main.specs.Top.{ReadFirst};

use crate::reading::read_workload;
use crate::saying::{refuse, say_of};
use crate::starting::Cache;
use crate::status::Status;
use far_base::{Event, Memory};
use far_history::report_text;
use far_outside::{Sink, Source};
use far_text::{Word, number_of, put_line, put_text};
use far_world::World;
use pipe_fabric::{PIPE_LIMIT, PipeGate, run_pipes};
use server_keeper::MapKeeper;
use std::alloc::Global;
use std::sync::Wait;
use std::thread::Threads;
use workload::Workload;

/// How the runs of pipes in threads ended, and for each pipe the events of its run in their order.
#[derive(Drop)]
pub struct PipesEnded {
    pub status: Status,
    pub events: Vec<Vec<Event>>,
}

/// The events of the runs of pipes, and the text of their reports.
#[derive(Drop)]
struct Reports {
    events: Vec<Vec<Event>>,
    text: Vec<u8>,
}

fn pipes_in_limit(number: Option<u64>) -> Option<u32>
    ensures { result ≡ pipes_in_limit number }
{
    match number {
        Some(pipes) if 1 <= pipes && pipes <= u64::from(PIPE_LIMIT) => Some(pipes as u32),
        _ => None,
    }
}

/// How many pipes a word and a number ask for.
fn pipes_named(word: &str, number: &[u8]) -> Option<u32>
    ensures pipes { result ≡ pipes_named word.now number.now }
    ensures found { IfSome result (AsksFor (word.now ∷ number.now ∷ [])) }
    ensures only { (pipes : ℕ) → AsksFor (word.now ∷ number.now ∷ []) pipes → result ≡ Some pipes }
{
    if word != "pipes" {
        return None;
    }
    pipes_in_limit(number_of(number))
}

/// How many pipes the arguments ask for. `None` exactly where they ask for none.
fn pipes_of(words: &[String]) -> Option<u32>
    ensures pipes { result ≡ pipes_of (map string_bytes words.now) }
    ensures found { IfSome result (AsksFor (map string_bytes words.now)) }
    ensures only { (pipes : ℕ) → AsksFor (map string_bytes words.now) pipes → result ≡ Some pipes }
{
    match words {
        [word, number] => pipes_named(word.as_str(), number.as_bytes()),
        _ => None,
    }
}

/// An answer without events.
fn without_pipes(alloc: Global, status: Status) -> PipesEnded
    ensures status { result.status ≡ status }
    ensures events { result.events.items ≡ [] }
{
    PipesEnded {
        status,
        events: Vec::new(alloc),
    }
}

/// Writes the report of the world under the line that names its pipe.
fn put_report(
    alloc: Global,
    out: &mut Vec<u8>,
    pipe: u64,
    world: &World<Cache, MapKeeper>,
) -> Result<(), Memory>
    ensures { OnOk result (HasReport pipe world.now out.old.items out.new.items) }
{
    let report = report_text(alloc, world.log())?;
    put_line(out, &[Word::Text(b"pipe"), Word::Number(pipe)])?;
    put_text(out, &report)
}

/// Writes the reports of the worlds of all pipes, by rising number.
fn put_reports(
    alloc: Global,
    out: &mut Vec<u8>,
    worlds: &[World<Cache, MapKeeper>],
) -> Result<(), Memory>
    ensures { OnOk result (HasReports worlds.now out.old.items out.new.items) }
{
    for pipe in 0..worlds.len() {
        put_report(alloc, out, pipe as u64, &worlds[pipe])?;
    }
    Ok(())
}

/// The text of the reports of the worlds of so many pipes.
fn text_of(alloc: Global, pipes: u32, worlds: &[World<Cache, MapKeeper>]) -> Result<Vec<u8>, Memory>
    ensures { IfOk result (λ text. IsTextOfWorlds pipes worlds.now text.items) }
{
    let mut text = Vec::new(alloc);
    put_line(
        &mut text,
        &[Word::Text(b"far 1 pipes"), Word::Number(u64::from(pipes))],
    )?;
    put_reports(alloc, &mut text, worlds)?;
    put_line(&mut text, &[Word::Text(b"end")])?;
    Ok(text)
}

/// The events of a world.
fn events_in(world: World<Cache, MapKeeper>) -> Vec<Event>
    ensures { result.items ≡ world.events }
{
    let (_plan, events, _log, _switch, _keeper) = world.into_parts();
    events
}

/// The events of each world.
fn events_of(alloc: Global, worlds: Vec<World<Cache, MapKeeper>>) -> Result<Vec<Vec<Event>>, Memory>
    ensures { IfOk result (λ all. lists_in all.items ≡ map (λ (w : Ran). w.events) worlds.items) }
{
    let mut all = Vec::new(alloc);
    for world in worlds {
        all.reserve(1)?;
        all.push_reserved(events_in(world));
    }
    Ok(all)
}

/// Runs the workload in so many pipes to its end.
fn run_to_end<G: PipeGate + Sync, R: Threads + Wait + Sync>(
    rt: &R,
    alloc: Global,
    load: &Workload,
    pipes: u32,
    gate: &G,
) -> Result<Reports, Memory>
    requires valid { IsPlan load.now.plan }
    requires pipes { (1 ≤ pipes) × (pipes ≤ PIPE_LIMIT) }
    ensures { IfOk result (λ made. IsPipesReport load.now.plan pipes (lists_in made.events.items) made.text.items) }
{
    run_laws::finished_runs_are_linearizable();
    run_laws::restarts_restore();
    let worlds = run_pipes(rt, alloc, load, pipes, gate)?;
    let text = text_of(alloc, pipes, &worlds)?;
    let events = events_of(alloc, worlds)?;
    Ok(Reports { events, text })
}

/// Writes the reports. Where no memory was left for this, the events are let go.
fn reported<D: Sink>(alloc: Global, sink: &mut D, made: Reports) -> PipesEnded
    ensures said { Says (D.written sink.old) (D.written sink.new) made.text.items Status.Done result.status }
    ensures answer { IsAnswer Status.Done result.status }
    ensures unfailed { result.status ≢ Status.WriteFault → result.status ≢ Status.Memory → D.fault_count sink.new
        ≡ D.fault_count sink.old }
    ensures cause { result.status ≡ Status.WriteFault → Rose (D.fault_count sink.old) (D.fault_count sink.new) }
    ensures calm { ¬ Rose (D.fault_count sink.old) (D.fault_count sink.new)
        → (result.status ≡ Status.Done) ⊎ (result.status ≡ Status.Memory) }
    ensures events { (result.status ≡ Status.Memory → result.events.items ≡ [])
        × ((result.status ≡ Status.Memory → ⊥) → result.events.items ≡ made.events.items) }
{
    let Reports { events, text } = made;
    let (status, events) = say_of(alloc, sink, &text, events);
    PipesEnded { status, events }
}

/// Does what the arguments say, in pipes that share no lock: `pipes P` reads a workload to its end, runs its part for
/// each of P pipes in threads, in any order that they come to, and writes the reports of the runs by the events that it
/// hands back. Each worker passes the gate before each of its turns, and is held there in each while it has its pipe's
/// lock.
///
/// `Usage` where the arguments are not the word `pipes` and a number from 1 to `PIPE_LIMIT`; `BadLine` and `TooLarge`
/// where the input is no workload, with its first faulty line, or has more than `INPUT_LIMIT` bytes: each writes one
/// line. `ReadFault` and `WriteFault` where a read or a write failed. The first cause decides, in the order arguments,
/// reading, grammar, runs, writing; nothing is written before all runs have ended. Where no run was made, or memory was
/// refused, there are no events.
///
/// The source's count of faults is as before unless the answer is `ReadFault` or `Memory`, or the input has more than
/// `INPUT_LIMIT` bytes; the sink's unless it is `WriteFault` or `Memory`.
pub fn top_pipes<S: Source, D: Sink, G: PipeGate + Sync, R: Threads + Wait + Sync>(
    rt: &R,
    alloc: Global,
    words: &[String],
    source: &mut S,
    sink: &mut D,
    gate: &G,
) -> PipesEnded
    // Each answer has its cause, and the first cause decides.
    ensures causes { HasRunCause (AsksForPipes (map string_bytes words.now)) (S.left source.old) (Rose
        (S.fault_count source.old) (S.fault_count source.new)) (Rose (D.fault_count sink.old) (D.fault_count sink.new))
        result.status }
    // Where no count rose the answer is the one that is due, unless memory was refused.
    ensures settled { IsRunSettled (AsksForPipes (map string_bytes words.now)) (S.left source.old) (¬ Rose
        (S.fault_count source.old) (S.fault_count source.new)) (¬ Rose (D.fault_count sink.old)
        (D.fault_count sink.new)) result.status }
    // A count of faults is as before where the answer names neither its fault nor want of memory.
    ensures unfailed_source { ¬ (StoppedReading (S.left source.old) result.status) → S.fault_count source.new
        ≡ S.fault_count source.old }
    ensures unfailed_sink { result.status ≢ Status.WriteFault → result.status ≢ Status.Memory → D.fault_count sink.new
        ≡ D.fault_count sink.old }
    // What is written is what was due, and the reports come only after all was read.
    ensures written { RunWroteDue (AsksForPipes (map string_bytes words.now)) (S.left source.old)
        (IsPipesReportOfInput (map string_bytes words.now) (lists_in result.events.items)) (D.written sink.old)
        (D.written sink.new) result.status }
    ensures first { ReadFirst (S.left source.old) (S.left source.new) result.status }
    // Other words do nothing but write the usage line.
    ensures other_words { ¬ (AsksForPipes (map string_bytes words.now)) → (S.left source.new ≡ S.left source.old)
        × IsUsageAnswer result.status }
    // The events are those of the runs, before which all was read, or there are none.
    ensures events { HandsBack (AsksForPipes (map string_bytes words.now)) (S.left source.old) (S.left source.new)
        (ArePipesOfInput (map string_bytes words.now) (lists_in result.events.items)) (result.events.items ≡ [])
        result.status }
{
    let pipes = match pipes_of(words) {
        Some(pipes) => pipes,
        None => return without_pipes(alloc, refuse(alloc, sink, Status::Usage)),
    };
    let load = match read_workload(alloc, source) {
        Ok(load) => load,
        Err(status) => return without_pipes(alloc, refuse(alloc, sink, status)),
    };
    match run_to_end(rt, alloc, &load, pipes, gate) {
        Ok(made) => reported(alloc, sink, made),
        Err(_) => without_pipes(alloc, Status::Memory),
    }
}
