use super::*;
use far_base::{Body, Key, Op, OpLine, Record};
use std::alloc::Global;
use std::process::Abort;
use std::test::Fail;

fn key(text: &[u8]) -> Result<Key, Fail> {
    Ok(Key::from_text(text).ok_or("no key")?)
}

fn body(text: &[u8]) -> Result<Body, Fail> {
    Ok(Body::from_bytes(text).ok_or("no body")?)
}

fn add(log: &mut Log, line: &LogLine) -> Result<(), Fail> {
    log.reserve(1)?;
    log.push(*line);
    Ok(())
}

fn logged(alloc: Global, steps: u64, lines: &[LogLine]) -> Result<Log, Fail> {
    let mut log = Log::new(alloc);
    log.set_steps(steps);
    for line in lines {
        add(&mut log, line)?;
    }
    Ok(log)
}

fn sent(moment: u64, op: u32, client: u32, what: Op, on: Key, written: Body) -> LogLine {
    let line = OpLine {
        client,
        op: what,
        key: on,
        body: written,
    };
    LogLine {
        moment,
        entry: LogEntry::Sent { op, line },
    }
}

fn numbered(moment: u64, op: u32, num: u64) -> LogLine {
    LogLine {
        moment,
        entry: LogEntry::Numbered { op, num },
    }
}

fn emitted(moment: u64, op: u32, num: u64, read: Body) -> LogLine {
    LogLine {
        moment,
        entry: LogEntry::Emitted {
            op,
            num,
            body: read,
            near: false,
        },
    }
}

fn answered(moment: u64, op: u32) -> LogLine {
    LogLine {
        moment,
        entry: LogEntry::Answered { op },
    }
}

#[test]
fn a_put_and_a_get_are_reported(rt: HostRuntime) -> Result<(), Fail> {
    let a = key(b"a")?;
    let x = body(b"x")?;
    let lines = [
        sent(1, 1, 0, Op::Put, a, x),
        numbered(2, 1, 1),
        emitted(4, 1, 1, Body::absent()),
        answered(5, 1),
        sent(6, 2, 0, Op::Get, a, Body::absent()),
        emitted(9, 2, 1, x),
        answered(10, 2),
    ];
    let log = logged(rt.alloc(), 10, &lines)?;
    let text = report_text(rt.alloc(), &log)?;
    let wanted =
        b"far 1 report\nsteps 10\nhistory 2\n1 0 put a 1 =x server 1 5\n2 0 get a 1 =x server 6 10\ncontrol 0\n\
         map 1\na 1 =x\nend\n";
    assert!(rt; text.as_slice() == wanted.as_slice());
    Ok(())
}

#[test]
fn an_unwritten_key_reads_nothing(rt: HostRuntime) -> Result<(), Fail> {
    let a = key(b"a")?;
    let lines = [
        sent(1, 1, 0, Op::Get, a, Body::absent()),
        emitted(4, 1, 0, Body::absent()),
        answered(5, 1),
    ];
    let log = logged(rt.alloc(), 5, &lines)?;
    let text = report_text(rt.alloc(), &log)?;
    let wanted =
        b"far 1 report\nsteps 5\nhistory 1\n1 0 get a 0 - server 1 5\ncontrol 0\nmap 0\nend\n";
    assert!(rt; text.as_slice() == wanted.as_slice());
    Ok(())
}

#[test]
fn the_later_number_may_take_effect_first(rt: HostRuntime) -> Result<(), Fail> {
    let a = key(b"a")?;
    let x = body(b"x")?;
    let y = body(b"y")?;
    let lines = [
        sent(1, 1, 0, Op::Put, a, x),
        sent(2, 2, 1, Op::Put, a, y),
        numbered(3, 1, 1),
        numbered(4, 2, 2),
        emitted(6, 2, 2, Body::absent()),
        answered(7, 2),
        emitted(9, 1, 2, Body::absent()),
        answered(10, 1),
    ];
    let log = logged(rt.alloc(), 10, &lines)?;
    let text = report_text(rt.alloc(), &log)?;
    let wanted =
        b"far 1 report\nsteps 10\nhistory 2\n1 0 put a 1 =x server 1 10\n2 1 put a 2 =y server 2 7\ncontrol 0\n\
         map 1\na 2 =y\nend\n";
    assert!(rt; text.as_slice() == wanted.as_slice());
    Ok(())
}

fn at(moment: u64, entry: LogEntry) -> LogLine {
    LogLine { moment, entry }
}

fn first_write(on: Key, text: Body) -> Record {
    Record {
        key: on,
        num: 1,
        body: text,
    }
}

#[test]
fn control_entries_are_reported_in_their_order(rt: HostRuntime) -> Result<(), Fail> {
    let a = key(b"a")?;
    let p = body(b"p")?;
    let near = LogEntry::Emitted {
        op: 1,
        num: 1,
        body: Body::absent(),
        near: true,
    };
    let lines = [
        at(
            4,
            LogEntry::Admitted {
                slot: 0,
                key: a,
                tag: 1,
            },
        ),
        sent(5, 1, 0, Op::Put, a, p),
        numbered(7, 1, 1),
        at(7, near),
        at(
            11,
            LogEntry::Snapped {
                id: 1,
                point: 1,
                count: 1,
                same: 0,
            },
        ),
        at(
            11,
            LogEntry::SnapItem {
                slot: 0,
                item: first_write(a, p),
            },
        ),
        at(13, LogEntry::Stopped),
        answered(14, 1),
        at(
            22,
            LogEntry::Recovered {
                counter: 1,
                count: 1,
            },
        ),
        at(
            22,
            LogEntry::RecItem {
                item: first_write(a, p),
            },
        ),
        sent(23, 2, 0, Op::Get, a, Body::absent()),
        emitted(26, 2, 1, p),
        answered(27, 2),
    ];
    let log = logged(rt.alloc(), 27, &lines)?;
    let text = report_text(rt.alloc(), &log)?;
    let wanted =
        b"far 1 report\nsteps 27\nhistory 2\n1 0 put a 1 =p switch 5 14\n2 0 get a 1 =p server 23 27\n\
         control 4\nadmitted 4 0 a 1\nsnapshot 11 1 1 1\n0 a 1 =p\nstopped 13\nrecovered 22 1 1\na 1 =p\nmap 1\n\
         a 1 =p\nend\n";
    assert!(rt; text.as_slice() == wanted.as_slice());
    Ok(())
}

/// The first line that sends the operation.
fn sending_of(lines: &[LogLine], wanted: u32) -> Option<(u64, OpLine)> {
    for line in lines {
        if let LogEntry::Sent { op, line: what } = line.entry {
            if op == wanted {
                return Some((line.moment, what));
            }
        }
    }
    None
}

fn numbering_of(lines: &[LogLine], wanted: u32) -> Option<u64> {
    for line in lines {
        if let LogEntry::Numbered { op, num } = line.entry {
            if op == wanted {
                return Some(num);
            }
        }
    }
    None
}

fn emission_of(lines: &[LogLine], wanted: u32) -> Option<u64> {
    for line in lines {
        if let LogEntry::Emitted { op, num, .. } = line.entry {
            if op == wanted {
                return Some(num);
            }
        }
    }
    None
}

fn is_answered(lines: &[LogLine], wanted: u32) -> bool {
    for line in lines {
        if let LogEntry::Answered { op } = line.entry {
            if op == wanted {
                return true;
            }
        }
    }
    false
}

/// The greatest number that lines up to the moment show of the key.
fn exposed(lines: &[LogLine], on: &Key, moment: u64) -> u64 {
    let mut greatest = 0;
    for line in lines {
        if let LogEntry::Emitted { op, num, .. } = line.entry {
            if line.moment <= moment {
                if let Some((_, what)) = sending_of(lines, op) {
                    if what.key == *on {
                        greatest = num.max(greatest);
                    }
                }
            }
        }
    }
    greatest
}

/// The first moment below ten at which the number is exposed.
fn taking_moment(lines: &[LogLine], on: &Key, num: u64) -> Option<u64> {
    for moment in 0..10u64 {
        if num <= exposed(lines, on, moment) {
            return Some(moment);
        }
    }
    None
}

fn place_by_definition(lines: &[LogLine], op: u32) -> Option<Placed> {
    let (sent_at, what) = sending_of(lines, op)?;
    if what.op != Op::Get {
        let num = numbering_of(lines, op)?;
        let moment = taking_moment(lines, &what.key, num)?;
        return Some(Placed {
            moment,
            num,
            read: false,
            op,
        });
    }
    if !is_answered(lines, op) {
        return None;
    }
    let num = emission_of(lines, op)?;
    let taken_at = taking_moment(lines, &what.key, num)?;
    Some(Placed {
        moment: taken_at.max(sent_at),
        num,
        read: true,
        op,
    })
}

fn is_before(a: &Placed, b: &Placed) -> bool {
    if a.moment != b.moment {
        return a.moment < b.moment;
    }
    if a.num != b.num {
        return a.num < b.num;
    }
    if a.read != b.read {
        return b.read;
    }
    a.op < b.op
}

/// Whether the list has the places of all operations below eight, each after those before it.
fn is_history(lines: &[LogLine], places: &[Placed]) -> bool {
    let mut count = 0usize;
    for op in 0..8u32 {
        if let Some(place) = place_by_definition(lines, op) {
            if !places.contains(&place) {
                return false;
            }
            count = count.saturating_add(1);
        }
    }
    for pair in places.windows(2) {
        if let [a, b] = pair {
            if !is_before(a, b) {
                return false;
            }
        }
    }
    count == places.len()
}

/// Whether the record is what the last write of its key in the history set it to.
fn is_last(lines: &[LogLine], places: &[Placed], record: &Record) -> bool {
    let mut last = None;
    for place in places {
        if let Some((_, what)) = sending_of(lines, place.op) {
            if !place.read && what.key == record.key {
                last = Some((place.num, what.body));
            }
        }
    }
    last == Some((record.num, record.body))
}

/// Whether the history writes the key.
fn is_written(lines: &[LogLine], places: &[Placed], on: &Key) -> bool {
    for place in places {
        if let Some((_, what)) = sending_of(lines, place.op) {
            if !place.read && what.key == *on {
                return true;
            }
        }
    }
    false
}

/// What made-up lines are made of.
#[derive(Drop)]
struct Words {
    keys: [Key; 2],
    bodies: [Body; 2],
}

/// A made-up line of operations below eight, on two keys, with numbers below five.
fn made_up_line(words: &Words, seed: u64, moment: u64) -> LogLine {
    let op = (seed / 7 % 8) as u32;
    let num = seed / 59 % 5;
    let text = words.bodies[(seed / 307 % 2) as usize];
    let on = words.keys[(seed / 613 % 2) as usize];
    match seed % 8 {
        0 | 1 => sent(moment, op, op / 2, Op::Put, on, text),
        2 => sent(moment, op, op / 2, Op::Get, on, Body::absent()),
        3 => numbered(moment, op, num),
        4 | 5 => emitted(moment, op, num, text),
        6 => answered(moment, op),
        _ => LogLine {
            moment,
            entry: LogEntry::Stopped,
        },
    }
}

fn next_seed(seed: u64) -> u64 {
    seed.wrapping_mul(6_364_136_223_846_793_005)
        .wrapping_add(1_442_695_040_888_963_407)
}

fn made_up_log(alloc: Global, words: &Words, first: u64) -> Result<Log, Fail> {
    let mut log = Log::new(alloc);
    let mut seed = first;
    for i in 0..40u64 {
        seed = next_seed(seed);
        add(&mut log, &made_up_line(words, seed >> 20, i / 4))?;
    }
    Ok(log)
}

fn lines_of(alloc: Global, log: &Log) -> Result<Vec<LogLine>, Fail> {
    let mut lines = Vec::new(alloc);
    for place in 0..log.len() {
        lines.extend_from_slice(&[log.line(place)])?;
    }
    Ok(lines)
}

/// How many places the history has, which is as the definition says, and so is the final map.
fn agrees(rt: &impl Abort, alloc: Global, words: &Words, log: &Log) -> Result<usize, Fail> {
    let places = history(alloc, log)?;
    let lines = lines_of(alloc, log)?;
    assert!(rt; is_history(&lines, &places));
    let records = final_map(alloc, log)?;
    for record in &records {
        assert!(rt; is_last(&lines, &places, record));
    }
    let mut count = 0usize;
    for on in &words.keys {
        if is_written(&lines, &places, on) {
            count = count.saturating_add(1);
        }
    }
    assert_eq!(rt; records.len(), count);
    Ok(places.len())
}

#[test]
fn made_up_logs_have_the_history_of_the_definition(rt: HostRuntime) -> Result<(), Fail> {
    let words = Words {
        keys: [key(b"a")?, key(b"b")?],
        bodies: [body(b"v")?, body(b"w")?],
    };
    let mut seed = 2026;
    let mut placed = 0usize;
    for _ in 0..60u64 {
        seed = next_seed(seed);
        let log = made_up_log(rt.alloc(), &words, seed)?;
        placed = agrees(&rt, rt.alloc(), &words, &log)?.saturating_add(placed);
    }
    assert!(rt; placed > 100);
    Ok(())
}
