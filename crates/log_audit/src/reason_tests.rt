use super::*;
use far_base::{Body, OP_LIMIT, Versioned};
use std::alloc::Global;
use std::test::Fail;

/// Good, and each line was sent later than the lines before it.
const REPORT: &[u8] = b"far 1 report\nsteps 30\nhistory 7\n1 0 put a 1 =x server 2 5\n\
    2 1 put b 2 =y server 3 7\n3 0 get a 1 =x server 6 10\n4 2 del a 3 - server 8 12\n\
    5 0 get a 3 - server 13 15\n6 1 get b 2 =y server 14 16\n7 2 get c 0 - server 17 20\nend\n";

fn lines_of(alloc: Global, report: &[u8]) -> Result<Vec<HistLine>, Fail> {
    if report.len() > 1000 {
        return Err(Fail::from("too long"));
    }
    Ok(read_report(alloc, report).ok().ok_or("not read")?)
}

/// Why the lines are not good, and how many first lines are not; `None` where they are good.
fn reason_of(alloc: Global, lines: &[HistLine]) -> Result<Option<(u32, Reason)>, Fail> {
    if lines.len() > OP_LIMIT as usize {
        return Err(Fail::from("too many"));
    }
    match audit(alloc, lines) {
        Ok(None) => Ok(None),
        Ok(Some(count)) => match explain(lines, count) {
            Some(reason) => Ok(Some((count, reason))),
            None => Err(Fail::from("no reason")),
        },
        Err(_) => Err(Fail::from("no memory")),
    }
}

fn is_same(one: &Versioned, other: &Versioned) -> bool {
    one.num == other.num
        && one.body.is_present() == other.body.is_present()
        && one.body.text() == other.body.text()
}

fn is_same_fault(one: &HistFault, other: &HistFault) -> bool {
    match (one, other) {
        (HistFault::Span, HistFault::Span) => true,
        (HistFault::Twice(place), HistFault::Twice(other_place)) => *place == *other_place,
        (HistFault::Early(place, line), HistFault::Early(other_place, other_line)) => {
            *place == *other_place && line.op == other_line.op
        }
        (HistFault::Unwritten(last), HistFault::Unwritten(other_last)) => is_same(last, other_last),
        _ => false,
    }
}

/// Whether so many first lines, and no fewer, are not good, with this fault.
fn is_wrong(
    alloc: Global,
    lines: &[HistLine],
    count: usize,
    fault: &HistFault,
) -> Result<bool, Fail> {
    match reason_of(alloc, lines)? {
        Some((found, reason)) => Ok(
            found as usize == count
                && u64::from(reason.number) == u64::from(found) + 3
                && is_same_fault(&reason.fault, fault),
        ),
        None => Ok(false),
    }
}

fn held(line: &HistLine) -> Versioned {
    Versioned {
        num: line.num,
        body: line.body,
    }
}

/// At each place, an operation that was answered when it was sent, or before.
#[test]
fn answered_no_later_than_sent(rt: HostRuntime) -> Result<(), Fail> {
    let alloc = rt.alloc();
    for at in 0..7 {
        let mut lines = lines_of(alloc, REPORT)?;
        assert!(rt; lines.len() == 7);
        for answered in [lines[at].sent, 0] {
            lines[at].answered = answered;
            assert!(rt; is_wrong(alloc, &lines, at + 1, &HistFault::Span)?);
        }
    }
    Ok(())
}

/// At each place, the operation of each line before.
#[test]
fn an_operation_with_two_lines(rt: HostRuntime) -> Result<(), Fail> {
    let alloc = rt.alloc();
    for at in 1..7 {
        for before in 0..at {
            let mut lines = lines_of(alloc, REPORT)?;
            assert!(rt; lines.len() == 7);
            lines[at].op = lines[before].op;
            assert!(rt; is_wrong(alloc, &lines, at + 1, &HistFault::Twice(before as u32))?);
        }
    }
    Ok(())
}

/// At each place, an operation that was answered right before that of each line before was sent.
#[test]
fn answered_before_an_earlier_one_was_sent(rt: HostRuntime) -> Result<(), Fail> {
    let alloc = rt.alloc();
    for at in 1..7 {
        for before in 0..at {
            let mut lines = lines_of(alloc, REPORT)?;
            assert!(rt; lines.len() == 7);
            let earlier = lines[before];
            lines[at].sent = 0;
            lines[at].answered = earlier.sent.saturating_sub(1);
            let fault = HistFault::Early(before as u32, earlier);
            assert!(rt; is_wrong(alloc, &lines, at + 1, &fault)?);
        }
    }
    Ok(())
}

/// At each read another version, and another body.
#[test]
fn a_read_of_something_else(rt: HostRuntime) -> Result<(), Fail> {
    let alloc = rt.alloc();
    for at in [2, 4, 5, 6] {
        let mut lines = lines_of(alloc, REPORT)?;
        assert!(rt; lines.len() == 7);
        let line = lines[at];
        let fault = HistFault::Unwritten(held(&line));
        lines[at].num = 9;
        assert!(rt; is_wrong(alloc, &lines, at + 1, &fault)?);
        lines[at].num = line.num;
        lines[at].body = Body::from_bytes(b"z").ok_or("no body")?;
        assert!(rt; is_wrong(alloc, &lines, at + 1, &fault)?);
    }
    Ok(())
}

/// Another version of each write shows at the next read of its key, and so does a write that is left out.
#[test]
fn a_write_of_something_else(rt: HostRuntime) -> Result<(), Fail> {
    let alloc = rt.alloc();
    for (at, read) in [(0, 2), (1, 5), (3, 4)] {
        let mut lines = lines_of(alloc, REPORT)?;
        assert!(rt; lines.len() == 7);
        lines[at].num = 9;
        let fault = HistFault::Unwritten(held(&lines[at]));
        assert!(rt; is_wrong(alloc, &lines, read + 1, &fault)?);
    }
    let lines = lines_of(alloc, REPORT)?;
    assert!(rt; lines.len() == 7);
    let nothing = Versioned {
        num: 0,
        body: Body::absent(),
    };
    assert!(rt; is_wrong(alloc, &lines[1..], 2, &HistFault::Unwritten(nothing))?);
    Ok(())
}

/// The first line of the report up to which its history is not good.
fn bad_line(alloc: Global, lines: &[HistLine]) -> Result<Option<u32>, Fail> {
    match reason_of(alloc, lines)? {
        Some((_, reason)) => Ok(Some(reason.number)),
        None => Ok(None),
    }
}

/// Histories, and what is said of them.
const SAID: [(&str, &str); 7] = [
    (
        "1 0 put a 1 =x server 1 5\n2 0 put a 2 =y server 6 9\n4 0 get a 2 =y server 10 12\n\
         3 1 get a 1 =x server 11 13\n",
        "line 7: operation 3 reads version 1 of key a, but version 2 was written before it in this order",
    ),
    (
        "2 0 put b 2 =y server 6 10\n1 0 put a 1 =x server 1 5\n3 0 get a 0 - server 11 12\n\
         4 0 get a 0 - server 11 12\n",
        "line 5: operation 1 was answered at step 5, before operation 2 was sent at step 6, and stands behind it",
    ),
    (
        "1 0 put a 1 =x server 5 5\n2 0 get a 1 =x server 6 7\n3 0 get a 1 =x server 8 9\n\
         4 0 get a 1 =x server 10 11\n",
        "line 4: operation 1 was answered at step 5, and sent no earlier than that, at step 5",
    ),
    (
        "1 0 put a 1 =x server 1 5\n2 0 get a 1 =x server 6 7\n1 0 get a 1 =x server 8 9\n\
         4 0 get a 1 =x server 10 11\n",
        "line 6: operation 1 has a line before this one, line 4",
    ),
    (
        "1 0 get a 1 =x server 1 5\n2 0 get a 1 =x server 6 7\n3 0 get a 1 =x server 8 9\n\
         4 0 get a 1 =x server 10 11\n",
        "line 4: operation 1 reads version 1 of key a, but nothing was there before it in this order",
    ),
    (
        "1 0 put a 1 =x server 1 5\n2 0 get a 1 =y server 6 7\n3 0 get a 1 =x server 8 9\n\
         4 0 get a 1 =x server 10 11\n",
        "line 5: operation 2 reads version 1 of key a, with another body than was written as that version before it",
    ),
    (
        "1 0 put key_of_sixteen_1 0 =x server 1 5\n2 0 get key_of_sixteen_1 0 - server 6 7\n\
         3 0 get a 1 =x server 8 9\n4 0 get a 1 =x server 10 11\n",
        "line 5: operation 2 reads version 0 of key key_of_sixteen_1, with another body than was written as that \
         version \
         before it",
    ),
];

#[test]
fn the_reason_in_words(rt: HostRuntime) -> Result<(), Fail> {
    let alloc = rt.alloc();
    for (history, said) in SAID {
        let report = format!(in alloc; "far 1 report\nsteps 1\nhistory 4\n{history}end\n")?;
        let lines = lines_of(alloc, report.as_bytes())?;
        let (_, reason) = reason_of(alloc, &lines)?.ok_or("good")?;
        let words = format!(in alloc; "{reason}")?;
        assert!(rt; words.as_str() == said);
    }
    Ok(())
}

/// The histories of docs/AUDIT.md, and the first line up to which they are not good.
const OWN: [(&str, Option<u32>); 4] = [
    // In the order in which they were sent.
    (
        "1 0 put cart 1 =milk server 1 10\n2 1 put cart 2 =bread server 2 5\n\
         3 2 get cart 2 =bread server 6 9\n4 2 get cart 1 =milk server 11 14\n",
        Some(7),
    ),
    // In the order of the store's own log.
    (
        "2 1 put cart 1 =bread server 2 5\n3 2 get cart 1 =bread server 6 9\n\
         1 0 put cart 2 =milk server 1 10\n4 2 get cart 2 =milk server 11 14\n",
        None,
    ),
    // A stale read, and the same with the write that it saw moved behind.
    (
        "1 0 put cart 1 =milk server 1 4\n2 1 put cart 2 =bread server 5 8\n\
         3 2 get cart 1 =milk server 9 12\n4 2 get cart 1 =milk server 13 14\n",
        Some(6),
    ),
    (
        "2 1 put cart 1 =bread server 5 8\n1 0 put cart 2 =milk server 1 4\n\
         3 2 get cart 2 =milk server 9 12\n4 2 get cart 2 =milk server 13 14\n",
        Some(5),
    ),
];

#[test]
fn ones_own_history_is_judged(rt: HostRuntime) -> Result<(), Fail> {
    let alloc = rt.alloc();
    for (history, line) in OWN {
        let report = format!(in alloc; "far 1 report\nsteps 14\nhistory 4\n{history}end\n")?;
        let lines = lines_of(alloc, report.as_bytes())?;
        assert!(rt; bad_line(alloc, &lines)? == line);
    }
    Ok(())
}
