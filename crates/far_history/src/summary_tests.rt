use super::*;
use far_base::{Body, Key, Op, OpLine};
use std::alloc::Global;
use std::process::Abort;
use std::test::Fail;

fn at(moment: u64, entry: LogEntry) -> LogLine {
    LogLine { moment, entry }
}

fn snapped(moment: u64, id: u32, same: u32) -> LogLine {
    at(
        moment,
        LogEntry::Snapped {
            id,
            point: 0,
            count: 0,
            same,
        },
    )
}

fn stopped(moment: u64) -> LogLine {
    at(moment, LogEntry::Stopped)
}

fn recovered(moment: u64) -> LogLine {
    at(
        moment,
        LogEntry::Recovered {
            counter: 0,
            count: 0,
        },
    )
}

fn evicted(moment: u64, key: Key) -> LogLine {
    at(
        moment,
        LogEntry::Evicted {
            slot: 0,
            key,
            tries: 2,
        },
    )
}

fn kept(moment: u64, key: Key) -> LogLine {
    at(
        moment,
        LogEntry::Kept {
            slot: 1,
            key,
            num: 3,
        },
    )
}

/// The lines of an operation that was sent at the moment, numbered where it writes, and answered.
fn operation(moment: u64, op: u32, what: Op, on: Key, num: u64, near: bool) -> [LogLine; 4] {
    let line = OpLine {
        client: 0,
        op: what,
        key: on,
        body: Body::absent(),
    };
    let numbering = match what {
        Op::Get => LogEntry::Stopped,
        Op::Put | Op::Del => LogEntry::Numbered { op, num },
    };
    let emission = LogEntry::Emitted {
        op,
        num,
        body: Body::absent(),
        near,
    };
    [
        at(moment, LogEntry::Sent { op, line }),
        at(moment, numbering),
        at(moment, emission),
        at(moment, LogEntry::Answered { op }),
    ]
}

fn expect(
    rt: &impl Abort,
    alloc: Global,
    steps: u64,
    lines: &[LogLine],
    counts: (u32, u32),
    wanted: &[u8],
) -> Result<(), Fail> {
    let mut log = Log::new(alloc);
    log.set_steps(steps);
    for line in lines {
        log.reserve(1)?;
        log.push(*line);
    }
    let text = summary_text(alloc, &log, counts.0, counts.1)?;
    assert!(rt; text.as_slice() == wanted);
    Ok(())
}

#[test]
fn a_snapshot_by_difference_counts_the_same_parts(rt: HostRuntime) -> Result<(), Fail> {
    expect(
        &rt,
        rt.alloc(),
        12,
        &[snapped(5, 1, 0), snapped(11, 2, 1)],
        (0, 2),
        b"far 1 summary\noperations 0\nanswered 0\norders 2\nsteps 12\nswitch 0\nserver 0\nsnapshots 2\nsame 1\n\
         evicted 0\nkept 0\nrecoveries 0\ncounter 0\nkeys 0\nend\n",
    )
}

#[test]
fn a_snapshot_after_a_stop_has_no_same_parts(rt: HostRuntime) -> Result<(), Fail> {
    expect(
        &rt,
        rt.alloc(),
        19,
        &[
            snapped(5, 1, 0),
            stopped(7),
            recovered(13),
            snapped(18, 2, 0),
        ],
        (0, 3),
        b"far 1 summary\noperations 0\nanswered 0\norders 3\nsteps 19\nswitch 0\nserver 0\nsnapshots 2\nsame 0\n\
         evicted 0\nkept 0\nrecoveries 1\ncounter 0\nkeys 0\nend\n",
    )
}

#[test]
fn two_stops_alone_are_two_recoveries(rt: HostRuntime) -> Result<(), Fail> {
    expect(
        &rt,
        rt.alloc(),
        90,
        &[stopped(1), recovered(45), stopped(46), recovered(90)],
        (0, 4),
        b"far 1 summary\noperations 0\nanswered 0\norders 4\nsteps 90\nswitch 0\nserver 0\nsnapshots 0\nsame 0\n\
         evicted 0\nkept 0\nrecoveries 2\ncounter 0\nkeys 0\nend\n",
    )
}

#[test]
fn operations_count_by_who_answered(rt: HostRuntime) -> Result<(), Fail> {
    let a = Key::from_text(b"a").ok_or("no key")?;
    let b = Key::from_text(b"b").ok_or("no key")?;
    let mut lines = Vec::new(rt.alloc());
    lines.extend_from_slice(&operation(1, 1, Op::Put, a, 1, true))?;
    lines.extend_from_slice(&operation(5, 2, Op::Put, b, 2, false))?;
    lines.extend_from_slice(&operation(9, 3, Op::Del, b, 3, true))?;
    lines.extend_from_slice(&operation(13, 4, Op::Get, a, 1, true))?;
    lines.extend_from_slice(&[evicted(17, a), evicted(18, a), kept(19, b)])?;
    expect(
        &rt,
        rt.alloc(),
        20,
        &lines,
        (5, 3),
        b"far 1 summary\noperations 5\nanswered 4\norders 3\nsteps 20\nswitch 3\nserver 1\nsnapshots 0\nsame 0\n\
         evicted 2\nkept 1\nrecoveries 0\ncounter 3\nkeys 2\nend\n",
    )
}
