ghost use Rattle.std.specs.Prelude.{◌≡◌, ◌^◌, ◌≤◌, ℕ, [], map, length, slice_index_or, OnOk, IfOk};
ghost use Rattle.far_history.specs.Told.{unheard};
ghost use Rattle.far_history.specs.LastWrites.{entries_with, entries_after, record_of, IsMapOfHistory};

use crate::log::Log;
use crate::places::places_in;
use crate::stored::{Stretch, body_at};
use crate::told::{Told, gather, sending_of};
use far_base::{Key, Memory, Placed, Record};
use std::alloc::Global;
use std::collections::BTreeMap;

/// The number of a write, and where its body stands.
#[derive(Clone, Copy)]
struct Written {
    num: u64,
    body: Stretch,
}

/// Sets the key of the place's operation, if it writes.
fn note_write(
    last: &mut BTreeMap<Key, Written>,
    table: &[Told],
    place: &Placed,
) -> Result<(), Memory>
    ensures { OnOk result (last.new.entries ≡ entries_with table.now last.old.entries place.now) }
{
    if place.read {
        return Ok(());
    }
    let Some(sent) = sending_of(table, place.op) else {
        return Ok(());
    };
    let write = Written {
        num: place.num,
        body: sent.body,
    };
    match last.insert(sent.line.key, write) {
        Ok(_) => Ok(()),
        Err(_) => Err(Memory),
    }
}

/// The last write of each key.
fn writes_of(
    alloc: Global,
    table: &[Told],
    places: &[Placed],
) -> Result<BTreeMap<Key, Written>, Memory>
    ensures { IfOk result (λ last. last.entries ≡ entries_after table.now [] places.now) }
{
    let mut last = BTreeMap::new(alloc);
    for place in places {
        note_write(&mut last, table, place)?;
    }
    Ok(last)
}

/// The records of the keys, by key.
fn records_of(
    alloc: Global,
    bytes: &[u8],
    last: &BTreeMap<Key, Written>,
) -> Result<Vec<Record>, Memory>
    ensures { IfOk result (λ records. records.items ≡ map (record_of bytes.now) last.now.entries) }
{
    let mut records = Vec::with_capacity(alloc, last.len())?;
    for (key, write) in last {
        let record = Record {
            key: *key,
            num: write.num,
            body: body_at(bytes, write.body),
        };
        records.push(record).map_err(|_| Memory)?;
    }
    Ok(records)
}

/// The last write of each key that was written, by key.
pub(crate) fn last_writes(
    alloc: Global,
    bytes: &[u8],
    table: &[Told],
    places: &[Placed],
) -> Result<Vec<Record>, Memory>
    ensures { IfOk result (λ records. records.items ≡ map (record_of bytes.now)
        (entries_after table.now [] places.now)) }
{
    let last = writes_of(alloc, table, places)?;
    records_of(alloc, bytes, &last)
}

/// The last write of the history for each key that was written, by key.
pub fn final_map(alloc: Global, log: &Log) -> Result<Vec<Record>, Memory>
    ensures { IfOk result (λ records. IsMapOfHistory log.now.lines records.items) }
{
    let (lines, bytes) = log.parts();
    let table = gather(alloc, lines)?;
    let places = places_in(alloc, &table, lines)?;
    last_writes(alloc, bytes, &table, &places)
}
