use crate::calls::{answered, called};
use far_outside::{CleanSink, CleanSource, Keeper, MemSink, MemSource, PieceSource, Source};
use run_main::{Ended, Limit, Status};
use server_keeper::{MapKeeper, ScriptedKeeper};
use std::alloc::Global;
use std::process::Abort;
use std::test::Fail;
use worked_texts::{ROWS, Row};

/// No run of a row makes more calls than this.
const CALLS: u64 = 100;

/// Whose calls fail.
#[derive(Clone, Copy)]
enum Failing {
    Source,
    Sink,
    Keeper,
}

/// The answer where a call of something outside has failed.
fn fault_of(failing: Failing) -> Status {
    match failing {
        Failing::Source => Status::ReadFault,
        Failing::Sink => Status::WriteFault,
        Failing::Keeper => Status::KeeperFault,
    }
}

/// The status and what is written over a source and a keeper, where no write fails.
fn written_over<S: Source, K: Keeper + Drop>(
    alloc: Global,
    source: &mut S,
    keeper: K,
) -> Result<(Status, Vec<u8>), Fail> {
    let mut sink = CleanSink::new(alloc);
    let Ended {
        status,
        keeper: _keeper,
    } = called(alloc, "replay", source, &mut sink, keeper)?;
    Ok((status, sink.bytes().to_vec(alloc)?))
}

/// The status and what is written where a read fails.
fn with_source(alloc: Global, input: &[u8], call: u64) -> Result<(Status, Vec<u8>), Fail> {
    let mut source = MemSource::new(input.to_vec(alloc)?, [call].to_vec(alloc)?);
    written_over(alloc, &mut source, MapKeeper::new(alloc))
}

/// The status and what is written where a write fails.
fn with_sink(alloc: Global, input: &[u8], call: u64) -> Result<(Status, Vec<u8>), Fail> {
    let mut source = CleanSource::new(input.to_vec(alloc)?);
    let mut sink = MemSink::new(alloc, [call].to_vec(alloc)?);
    let Ended {
        status,
        keeper: _keeper,
    } = called(
        alloc,
        "replay",
        &mut source,
        &mut sink,
        MapKeeper::new(alloc),
    )?;
    Ok((status, sink.bytes().to_vec(alloc)?))
}

/// The status and what is written where a call of the keeper fails.
fn with_keeper(alloc: Global, input: &[u8], call: u64) -> Result<(Status, Vec<u8>), Fail> {
    let mut source = CleanSource::new(input.to_vec(alloc)?);
    let keeper = ScriptedKeeper::new(alloc, [call].to_vec(alloc)?);
    written_over(alloc, &mut source, keeper)
}

/// The status and what is written where this one call fails.
fn with_failing(
    alloc: Global,
    failing: Failing,
    input: &[u8],
    call: u64,
) -> Result<(Status, Vec<u8>), Fail> {
    match failing {
        Failing::Source => with_source(alloc, input, call),
        Failing::Sink => with_sink(alloc, input, call),
        Failing::Keeper => with_keeper(alloc, input, call),
    }
}

/// Whether the fault left what it may leave: a front of the report where a write failed, and else nothing.
fn is_left_by(failing: Failing, written: &[u8], report: &[u8]) -> bool {
    match failing {
        Failing::Sink => report.starts_with(written),
        _ => written.is_empty(),
    }
}

/// The first call fails, then the second, and so on, until the run ends with no call left to fail; answers the number
/// of calls that failed.
fn fail_each_call(rt: &impl Abort, alloc: Global, failing: Failing, row: Row) -> Result<u64, Fail> {
    let (input, report) = row;
    for call in 1..CALLS {
        let (status, written) = with_failing(alloc, failing, input.as_bytes(), call)?;
        if status == Status::Done {
            assert!(rt; written.as_slice() == report.as_bytes());
            return Ok(call - 1);
        }
        assert_eq!(rt; status, fault_of(failing));
        assert!(rt; is_left_by(failing, &written, report.as_bytes()));
    }
    Err("each run had a call that failed")?
}

/// A run without a cache, and two with snapshots and a stop.
#[test]
fn each_call_that_fails_is_the_answer(rt: HostRuntime) -> Result<(), Fail> {
    let alloc = rt.alloc();
    for row in [ROWS[1], ROWS[12], ROWS[14]] {
        for failing in [Failing::Source, Failing::Sink, Failing::Keeper] {
            let failed = fail_each_call(&rt, alloc, failing, row)?;
            assert!(rt; 0 < failed);
        }
    }
    Ok(())
}

#[test]
fn a_refusal_that_can_not_be_written_is_a_failed_write(rt: HostRuntime) -> Result<(), Fail> {
    let alloc = rt.alloc();
    let input = "far 1\nclients 1\nservers 1\nslots 1\nhot 0\nget 0 abcdefghijklmnopq\n";
    let (status, written) = with_sink(alloc, input.as_bytes(), 1)?;
    assert_eq!(rt; status, Status::WriteFault);
    assert!(rt; written.is_empty());
    let (status, written) = with_sink(alloc, input.as_bytes(), 2)?;
    assert_eq!(rt; status, Status::BadLine(6));
    assert!(rt; written.as_slice() == "bad line 6\n".as_bytes());
    Ok(())
}

#[test]
fn input_may_come_byte_by_byte(rt: HostRuntime) -> Result<(), Fail> {
    let alloc = rt.alloc();
    for (input, report) in [ROWS[1], ROWS[14]] {
        let mut source = PieceSource::new(input.as_bytes().to_vec(alloc)?, 1);
        let (status, written) = written_over(alloc, &mut source, MapKeeper::new(alloc))?;
        assert_eq!(rt; status, Status::Done);
        assert!(rt; written.as_slice() == report.as_bytes());
    }
    Ok(())
}

/// An input may have 16,777,216 bytes, and not one more.
#[test]
fn the_longest_input_is_read(rt: HostRuntime) -> Result<(), Fail> {
    let alloc = rt.alloc();
    for (bytes, expected, line) in [
        (16_777_216, Status::BadLine(1), "bad line 1\n"),
        (
            16_777_217,
            Status::TooLarge(Limit::Input, 0),
            "too large input line 0\n",
        ),
    ] {
        let input = vec![in alloc; b'x'; bytes]?;
        let (status, written) = answered(alloc, "replay", &input)?;
        assert_eq!(rt; status, expected);
        assert!(rt; written.as_slice() == line.as_bytes());
    }
    Ok(())
}

/// What the first bytes of a workload are: a workload where they end with a line, from the fifth line on; and else
/// their last line is faulty, or the next line of the head is missing.
fn answer_to_front(front: &[u8]) -> Result<Status, Fail> {
    let mut lines: u32 = 0;
    let mut ended = true;
    for byte in front {
        ended = *byte == 10;
        if ended {
            lines = lines.checked_add(1).ok_or("too many lines")?;
        }
    }
    if ended && 5 <= lines {
        return Ok(Status::Done);
    }
    let faulty = lines.checked_add(1).ok_or("too many lines")?;
    Ok(Status::BadLine(faulty))
}

/// What is written where the input is refused or done.
fn is_written_at(alloc: Global, status: Status, written: &[u8]) -> Result<bool, Fail> {
    match status {
        Status::BadLine(line) => {
            let refusal = format!(in alloc; "bad line {line}\n")?;
            Ok(written == refusal.as_bytes())
        }
        _ => Ok(written.starts_with(b"far 1 report\n") && written.ends_with(b"\nend\n")),
    }
}

/// A workload whose switch stops in the middle of a snapshot, cut after each of its bytes.
#[test]
fn a_workload_may_be_cut_anywhere(rt: HostRuntime) -> Result<(), Fail> {
    let alloc = rt.alloc();
    let input = ROWS[14].0.as_bytes();
    for length in 0..input.len() {
        let front = &input[..length];
        let (status, written) = answered(alloc, "replay", front)?;
        assert_eq!(rt; status, answer_to_front(front)?);
        assert!(rt; is_written_at(alloc, status, &written)?);
    }
    Ok(())
}
