//! The calls of the program: what it does with its arguments, between the standard input and output.
#![tactic(auto)]

use far_outside::{Keeper, NoGate, Sink, Source, StdSink, StdSource};
use pipe_fabric::NoPipeGate;
use run_main::{Ended, Status, top_calm, top_line, top_pipes, top_run};
use server_keeper::{MapKeeper, TableKeeper};
use stage_workers::NoStageGate;
use std::alloc::Global;
use std::process::ExitCode;
use std::sync::Wait;
use std::thread::Threads;
use std::{env, io};

fn words_of(rt: &HostRuntime) -> Result<Vec<String>, io::Error> {
    let mut words = Vec::new(rt.alloc());
    for word in env::args(rt)?.skip(1) {
        words.push(word)?;
    }
    Ok(words)
}

/// The words behind the program's name. Words that cannot be read are a list of no words, which names no command;
/// `Memory` where there is no memory for them.
pub fn arguments(rt: &HostRuntime) -> Result<Vec<String>, Status> {
    match words_of(rt) {
        Ok(words) => Ok(words),
        Err(error) => {
            if error.kind() == io::ErrorKind::OutOfMemory {
                return Err(Status::Memory);
            }
            Ok(Vec::new(rt.alloc()))
        }
    }
}

/// Takes a first word `table` away, and answers whether it was there.
fn take_table(words: &mut Vec<String>) -> bool {
    match words.first() {
        Some(word) if word.as_str() == "table" => {
            let _ = words.remove(0);
            true
        }
        _ => false,
    }
}

/// Whether this is the first word.
fn starts_with(words: &[String], command: &str) -> bool {
    match words {
        [first, ..] => first.as_str() == command,
        [] => false,
    }
}

/// Whether the words are for a call in threads, which takes no keeper.
fn is_in_threads(words: &[String]) -> bool {
    starts_with(words, "run") || starts_with(words, "line") || starts_with(words, "pipes")
}

/// Works in threads: all parties of a run in one world, its part for each pipe in a world of its own, or the groups of
/// stages of a switch.
fn call_in_threads<S: Source, D: Sink, R: Threads + Wait + Sync>(
    rt: &R,
    alloc: Global,
    words: &[String],
    source: &mut S,
    sink: &mut D,
) -> Status {
    if starts_with(words, "run") {
        let ended = top_run(rt, alloc, words, source, sink, &NoGate);
        return ended.status;
    }
    if starts_with(words, "line") {
        return top_line(rt, alloc, words, source, sink, &NoStageGate);
    }
    let ended = top_pipes(rt, alloc, words, source, sink, &NoPipeGate);
    ended.status
}

/// Does what the words say over the keeper.
fn call<K: Keeper + Drop>(rt: &HostRuntime, words: &[String], keeper: K) -> Status {
    let mut source = StdSource::new(rt.reader());
    let mut sink = StdSink::new(io::writer(rt));
    let Ended {
        status,
        keeper: _keeper,
    } = top_calm(rt.alloc(), words, &mut source, &mut sink, keeper);
    status
}

/// Over a database or over a map.
fn call_over(rt: &HostRuntime, words: &[String], table: bool) -> Status {
    if !table {
        return call(rt, words, MapKeeper::new(rt.alloc()));
    }
    match TableKeeper::new(rt.alloc()) {
        Ok(keeper) => call(rt, words, keeper),
        Err(_) => Status::Memory,
    }
}

/// Does what the words say, with a database behind a first word `table`. Threads are started by the handle.
fn status_of<R: Threads + Wait + Sync>(
    rt: &HostRuntime,
    threads: &R,
    words: Vec<String>,
) -> Status {
    let mut words = words;
    let table = take_table(&mut words);
    if !is_in_threads(&words) {
        return call_over(rt, &words, table);
    }
    // A call in threads keeps servers' records in maps, or none; a table is made all the same.
    if table && TableKeeper::new(rt.alloc()).is_err() {
        return Status::Memory;
    }
    let mut source = StdSource::new(rt.reader());
    let mut sink = StdSink::new(io::writer(rt));
    call_in_threads(threads, rt.alloc(), &words, &mut source, &mut sink)
}

/// The end of the program by this status.
pub fn ended(status: Status) -> ExitCode {
    ExitCode::from(status.exit_number())
}

/// Does what the words say, and answers the end of the program. Threads are started by the handle.
pub fn obey<R: Threads + Wait + Sync>(
    rt: &HostRuntime,
    threads: &R,
    words: Vec<String>,
) -> ExitCode {
    ended(status_of(rt, threads, words))
}

#[cfg(test)]
mod tests {
    use super::*;
    use std::test::Fail;

    #[test]
    fn one_word_table_is_taken_away(rt: HostRuntime) -> Result<(), Fail> {
        let alloc = rt.alloc();
        for (given, taken) in [("table", true), ("replay", false)] {
            let mut words = Vec::new(alloc);
            words.push(String::from_str(alloc, given)?)?;
            words.push(String::from_str(alloc, "table")?)?;
            assert_eq!(rt; take_table(&mut words), taken);
            assert_eq!(rt; words.len() == 1, taken);
        }
        Ok(())
    }
}
