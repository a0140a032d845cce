use far_base::{Body, KeptItem, KeptPlace, Key, LogEntry, LogLine, Op, OpLine, Record};
use far_history::Log;
use std::alloc::Global;
use std::test::Fail;

/// An operation as its client saw it.
#[derive(Clone, Copy)]
pub(crate) struct Deed {
    pub op: u32,
    pub read: bool,
    pub key: Key,
    /// What was written, or what the read was answered with.
    pub body: Body,
    pub sent: u64,
    pub answered: u64,
}

/// What the operation does, where the entry is its sending.
fn sending_in(entry: &LogEntry, wanted: u32) -> Option<OpLine> {
    match entry {
        LogEntry::Sent { op, line } if *op == wanted => Some(*line),
        _ => None,
    }
}

/// The body in the answer to the operation, where the entry is that answer.
fn reply_in(entry: &LogEntry, wanted: u32) -> Option<Body> {
    match entry {
        LogEntry::Emitted { op, body, .. } if *op == wanted => Some(*body),
        _ => None,
    }
}

/// Whether with the entry the client got the answer to the operation.
fn is_answering(entry: &LogEntry, wanted: u32) -> bool {
    match entry {
        LogEntry::Answered { op } => *op == wanted,
        _ => false,
    }
}

/// When the operation was sent, and what it does.
fn sending_of(log: &Log, op: u32) -> Option<(u64, OpLine)> {
    for place in 0..log.len() {
        let LogLine { moment, entry } = log.line(place);
        if let Some(line) = sending_in(&entry, op) {
            return Some((moment, line));
        }
    }
    None
}

/// The body in the answer to the operation.
fn reply_to(log: &Log, op: u32) -> Option<Body> {
    for place in 0..log.len() {
        let reply = reply_in(&log.line(place).entry, op);
        if reply.is_some() {
            return reply;
        }
    }
    None
}

/// When the client got the answer to the operation.
fn answering_of(log: &Log, op: u32) -> Option<u64> {
    for place in 0..log.len() {
        let LogLine { moment, entry } = log.line(place);
        if is_answering(&entry, op) {
            return Some(moment);
        }
    }
    None
}

/// The operation, where it was answered.
fn deed_of(log: &Log, op: u32) -> Option<Deed> {
    let (sent, line) = sending_of(log, op)?;
    let reply = reply_to(log, op)?;
    let answered = answering_of(log, op)?;
    let read = line.op == Op::Get;
    Some(Deed {
        op,
        read,
        key: line.key,
        body: if read { reply } else { line.body },
        sent,
        answered,
    })
}

/// The first so many operations, each of which was answered.
pub(crate) fn deeds_of(alloc: Global, log: &Log, ops: usize) -> Result<Vec<Deed>, Fail> {
    let mut deeds = Vec::new(alloc);
    for before in 0..u32::try_from(ops)? {
        let deed = deed_of(log, before + 1).ok_or("no answer")?;
        deeds.extend_from_slice(&[deed])?;
    }
    Ok(deeds)
}

fn contains(order: &[Deed], op: u32) -> bool {
    for deed in order {
        if deed.op == op {
            return true;
        }
    }
    false
}

/// What the key has after the deeds.
fn body_after(order: &[Deed], key: &Key) -> Body {
    let mut body = Body::absent();
    for deed in order {
        if !deed.read && deed.key == *key {
            body = deed.body;
        }
    }
    body
}

/// Whether some deed was answered before this one was sent, and is not in the order.
fn comes_too_early(deeds: &[Deed], order: &[Deed], next: &Deed) -> bool {
    for deed in deeds {
        if deed.answered < next.sent && !contains(order, deed.op) {
            return true;
        }
    }
    false
}

fn may_follow(deeds: &[Deed], order: &[Deed], next: &Deed) -> bool {
    !contains(order, next.op)
        && !comes_too_early(deeds, order, next)
        && (!next.read || body_after(order, &next.key) == next.body)
}

/// Appends each order that is this one with one more deed.
fn lengthen(
    alloc: Global,
    deeds: &[Deed],
    order: &[Deed],
    into: &mut Vec<Vec<Deed>>,
) -> Result<(), Fail> {
    for next in deeds {
        if may_follow(deeds, order, next) {
            let mut longer = order.to_vec(alloc)?;
            longer.extend_from_slice(&[*next])?;
            into.push(longer)?;
        }
    }
    Ok(())
}

fn lengthened(alloc: Global, deeds: &[Deed], orders: &[Vec<Deed>]) -> Result<Vec<Vec<Deed>>, Fail> {
    let mut longer = Vec::new(alloc);
    for order in orders {
        lengthen(alloc, deeds, order, &mut longer)?;
    }
    Ok(longer)
}

/// Whether the deeds, in some order, are those of a map that keeps real time. All orders are tried.
pub(crate) fn have_an_order(alloc: Global, deeds: &[Deed]) -> Result<bool, Fail> {
    let mut orders = Vec::new(alloc);
    orders.push(Vec::new(alloc))?;
    for _ in 0..deeds.len() {
        orders = lengthened(alloc, deeds, &orders)?;
    }
    Ok(!orders.is_empty())
}

/// The record that a server has at a restart, where the entry is of such a one.
fn record_in(entry: &LogEntry) -> Option<Record> {
    match entry {
        LogEntry::RecItem { item } => Some(*item),
        _ => None,
    }
}

/// The records of the servers from this line on, up to a line of another kind.
fn records_from(alloc: Global, log: &Log, start: usize) -> Result<Vec<Record>, Fail> {
    let mut records = Vec::new(alloc);
    for place in start..log.len() {
        let Some(rec) = record_in(&log.line(place).entry) else {
            return Ok(records);
        };
        records.extend_from_slice(&[rec])?;
    }
    Ok(records)
}

fn is_restart(entry: &LogEntry) -> bool {
    match entry {
        LogEntry::Recovered { .. } => true,
        _ => false,
    }
}

/// The records that the servers had at each restart of the switch.
pub(crate) fn recoveries_of(alloc: Global, log: &Log) -> Result<Vec<Vec<Record>>, Fail> {
    let mut recoveries = Vec::new(alloc);
    for place in 0..log.len() {
        if is_restart(&log.line(place).entry) {
            recoveries.push(records_from(alloc, log, place + 1)?)?;
        }
    }
    Ok(recoveries)
}

/// Whether no other record of its key has a greater number.
fn is_newest(kept: &[KeptItem], rec: &Record) -> bool {
    for item in kept {
        if item.rec.key == rec.key && item.rec.num > rec.num {
            return false;
        }
    }
    true
}

fn has_record(records: &[Record], rec: &Record) -> bool {
    for held in records {
        if *held == *rec {
            return true;
        }
    }
    false
}

/// The newest record of each key of which there is a record with a number above 0.
pub(crate) fn newest_of(alloc: Global, kept: &[KeptItem]) -> Result<Vec<Record>, Fail> {
    let mut newest = Vec::new(alloc);
    for item in kept {
        let rec = item.rec;
        if rec.num > 0 && is_newest(kept, &rec) && !has_record(&newest, &rec) {
            newest.extend_from_slice(&[rec])?;
        }
    }
    Ok(newest)
}

fn has_all(records: &[Record], others: &[Record]) -> bool {
    for rec in others {
        if !has_record(records, rec) {
            return false;
        }
    }
    true
}

/// Whether both lists have the same records, in any order.
pub(crate) fn have_the_same(records: &[Record], others: &[Record]) -> bool {
    records.len() == others.len() && has_all(records, others) && has_all(others, records)
}

fn made_deed(op: u32, read: bool, text: &[u8], sent: u64, answered: u64) -> Result<Deed, Fail> {
    Ok(Deed {
        op,
        read,
        key: Key::from_text(b"a").ok_or("no key")?,
        body: Body::from_bytes(text).ok_or("no body")?,
        sent,
        answered,
    })
}

/// A read that was sent after the answer to a write sees it; one that overlaps with it need not.
#[test]
fn an_old_value_has_no_order(rt: HostRuntime) -> Result<(), Fail> {
    let alloc = rt.alloc();
    let first = made_deed(1, false, b"x", 1, 2)?;
    let second = made_deed(2, false, b"y", 3, 6)?;
    let old_within = made_deed(3, true, b"x", 5, 7)?;
    let old_after = made_deed(3, true, b"x", 7, 8)?;
    let new_within = made_deed(4, true, b"y", 3, 4)?;
    assert!(rt; have_an_order(alloc, &[first, second, old_within])?);
    assert!(rt; !have_an_order(alloc, &[first, second, old_after])?);
    assert!(rt; have_an_order(alloc, &[first, second, new_within])?);
    assert!(rt; !have_an_order(alloc, &[first, second, new_within, old_within])?);
    Ok(())
}

/// A key and a number of each record.
type Numbers = &'static [(&'static str, u64)];

fn made_records(alloc: Global, numbers: Numbers) -> Result<Vec<Record>, Fail> {
    let mut records = Vec::new(alloc);
    for (key, num) in numbers {
        let rec = Record {
            key: Key::from_text(key.as_bytes()).ok_or("no key")?,
            num: *num,
            body: Body::from_bytes(b"x").ok_or("no body")?,
        };
        records.extend_from_slice(&[rec])?;
    }
    Ok(records)
}

/// The records, as they are kept.
fn kept_items(alloc: Global, records: &[Record]) -> Result<Vec<KeptItem>, Fail> {
    let mut items = Vec::new(alloc);
    for rec in records {
        let item = KeptItem {
            place: KeptPlace::Snap,
            rec: *rec,
        };
        items.extend_from_slice(&[item])?;
    }
    Ok(items)
}

const KEPT: Numbers = &[("a", 1), ("b", 3), ("a", 2), ("c", 0), ("b", 3)];

/// Records, and whether they are the newest of those.
const NEWEST: [(Numbers, bool); 5] = [
    (&[("a", 2), ("b", 3)], true),
    (&[("b", 3), ("a", 2)], true),
    (&[("a", 1), ("b", 3)], false),
    (&[("a", 2)], false),
    (&[("a", 2), ("b", 3), ("c", 0)], false),
];

/// Of each key the record with the greatest number counts, unless that is 0; each has to be there, and no other.
#[test]
fn the_newest_of_each_key_counts(rt: HostRuntime) -> Result<(), Fail> {
    let alloc = rt.alloc();
    let kept = kept_items(alloc, &made_records(alloc, KEPT)?)?;
    let newest = newest_of(alloc, &kept)?;
    for (numbers, same) in NEWEST {
        let records = made_records(alloc, numbers)?;
        assert_eq!(rt; have_the_same(&newest, &records), same);
    }
    Ok(())
}
