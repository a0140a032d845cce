use far_outside::{CleanSink, CleanSource, Keeper, Sink, Source};
use run_main::{Ended, Status, top_calm, top_calm_in_memory};
use server_keeper::MapKeeper;
use std::alloc::Global;
use std::test::Fail;
use worked_texts::words_of;

/// The top call with the words of a line. It promises nothing, so that a test is a plain loop and does not carry the
/// contract of the top call with it.
pub(crate) fn called<S: Source, D: Sink, K: Keeper + Drop>(
    alloc: Global,
    line: &str,
    source: &mut S,
    sink: &mut D,
    keeper: K,
) -> Result<Ended<K>, Fail> {
    let words = words_of(alloc, line)?;
    Ok(top_calm(alloc, &words, source, sink, keeper))
}

/// The status and what is written where nothing outside fails.
pub(crate) fn answered(alloc: Global, line: &str, input: &[u8]) -> Result<(Status, Vec<u8>), Fail> {
    let mut source = CleanSource::new(input.to_vec(alloc)?);
    let mut sink = CleanSink::new(alloc);
    let Ended {
        status,
        keeper: _keeper,
    } = called(alloc, line, &mut source, &mut sink, MapKeeper::new(alloc))?;
    Ok((status, sink.bytes().to_vec(alloc)?))
}

/// The same by the call that is over memory alone.
pub(crate) fn answered_in_memory(
    alloc: Global,
    line: &str,
    input: &[u8],
) -> Result<(Status, Vec<u8>), Fail> {
    let words = words_of(alloc, line)?;
    let mut source = CleanSource::new(input.to_vec(alloc)?);
    let mut sink = CleanSink::new(alloc);
    let Ended {
        status,
        keeper: _keeper,
    } = top_calm_in_memory(alloc, &words, &mut source, &mut sink, MapKeeper::new(alloc));
    Ok((status, sink.bytes().to_vec(alloc)?))
}
