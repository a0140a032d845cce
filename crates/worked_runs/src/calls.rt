use far_outside::{CleanSink, CleanSource, Gate, Sink, Source};
use pipe_fabric::PipeGate;
use run_main::{PipesEnded, RunEnded, Status, top_line, top_pipes, top_run};
use stage_workers::StageGate;
use std::alloc::Global;
use std::sync::Wait;
use std::test::Fail;
use std::thread::Threads;
use worked_texts::words_of;

/// The top call of a run in threads. It promises nothing, so that a test is a plain loop and does not carry the
/// contract of the top call with it.
pub(crate) fn ran_between<S: Source, D: Sink, G: Gate + Sync, R: Threads + Wait + Sync>(
    rt: &R,
    alloc: Global,
    line: &str,
    source: &mut S,
    sink: &mut D,
    gate: &G,
) -> Result<RunEnded, Fail> {
    let words = words_of(alloc, line)?;
    Ok(top_run(rt, alloc, &words, source, sink, gate))
}

/// How a run in threads ended where nothing outside fails, and what it wrote.
pub(crate) fn ran<G: Gate + Sync, R: Threads + Wait + Sync>(
    rt: &R,
    alloc: Global,
    line: &str,
    input: &[u8],
    gate: &G,
) -> Result<(RunEnded, Vec<u8>), Fail> {
    let mut source = CleanSource::new(input.to_vec(alloc)?);
    let mut sink = CleanSink::new(alloc);
    let ended = ran_between(rt, alloc, line, &mut source, &mut sink, gate)?;
    Ok((ended, sink.bytes().to_vec(alloc)?))
}

/// The top call of runs in pipes. It promises nothing, as those above.
pub(crate) fn piped_between<S: Source, D: Sink, G: PipeGate + Sync, R: Threads + Wait + Sync>(
    rt: &R,
    alloc: Global,
    line: &str,
    source: &mut S,
    sink: &mut D,
    gate: &G,
) -> Result<PipesEnded, Fail> {
    let words = words_of(alloc, line)?;
    Ok(top_pipes(rt, alloc, &words, source, sink, gate))
}

/// How runs in pipes ended where nothing outside fails, and what was written.
pub(crate) fn piped<G: PipeGate + Sync, R: Threads + Wait + Sync>(
    rt: &R,
    alloc: Global,
    line: &str,
    input: &[u8],
    gate: &G,
) -> Result<(PipesEnded, Vec<u8>), Fail> {
    let mut source = CleanSource::new(input.to_vec(alloc)?);
    let mut sink = CleanSink::new(alloc);
    let ended = piped_between(rt, alloc, line, &mut source, &mut sink, gate)?;
    Ok((ended, sink.bytes().to_vec(alloc)?))
}

/// How a line of packets ended where nothing outside fails, and what was written.
pub(crate) fn passed<G: StageGate + Sync, R: Threads + Wait + Sync>(
    rt: &R,
    alloc: Global,
    line: &str,
    input: &[u8],
    gate: &G,
) -> Result<(Status, Vec<u8>), Fail> {
    let words = words_of(alloc, line)?;
    let mut source = CleanSource::new(input.to_vec(alloc)?);
    let mut sink = CleanSink::new(alloc);
    let status = top_line(rt, alloc, &words, &mut source, &mut sink, gate);
    Ok((status, sink.bytes().to_vec(alloc)?))
}
