ghost use Rattle.std.specs.Prelude.{◌≡◌, ◌++◌, ◌∷◌, [], ℕ, List, map, OnOk, IfOk};
ghost use Rattle.std.specs.Ordering.{nat_cmp};
ghost use Rattle.std.specs.Cmp.Lexicographic.{slice_cmp};
ghost use Rattle.std.specs.BTreeMap.{get, IsOrdered};
ghost use Rattle.far_base.specs.declared.record.Record.{Record as Held};
ghost use Rattle.far_model.specs.History.{IsNewestPerKey};
ghost use Rattle.far_history.specs.Newest.{IsNewestOf, number_to_pass, record_of};

use far_base::{Key, Memory, Record, Versioned};
use std::alloc::Global;
use std::collections::BTreeMap;

/// The number that a record has to pass to be the newest of its key.
fn number_to_pass(newest: &BTreeMap<Key, Versioned>, key: &Key) -> u64
    ensures { result ≡ number_to_pass (get (slice_cmp nat_cmp) newest.now key.now) }
{
    match newest.get(key) {
        Some(held) => held.num,
        None => 0,
    }
}

/// Takes the record as that of its key where its number is above the one that is there, or above 0.
fn take_newer(newest: &mut BTreeMap<Key, Versioned>, rec: &Record) -> Result<(), Memory>
    ensures newest { OnOk result ((records : List Held) (key : List ℕ) → IsNewestOf records key (get
        (slice_cmp nat_cmp) newest.old key) → IsNewestOf (records ++ rec.now ∷ []) key (get
        (slice_cmp nat_cmp) newest.new key)) }
    ensures ordered { IsOrdered (slice_cmp nat_cmp) newest.old → IsOrdered (slice_cmp nat_cmp) newest.new }
{
    if rec.num <= number_to_pass(newest, &rec.key) {
        return Ok(());
    }
    let held = Versioned {
        num: rec.num,
        body: rec.body,
    };
    match newest.insert(rec.key, held) {
        Ok(_) => Ok(()),
        Err(_) => Err(Memory),
    }
}

/// The newest record of each key.
fn newest_of(alloc: Global, list: &[Record]) -> Result<BTreeMap<Key, Versioned>, Memory>
    ensures newest { IfOk result (λ newest. (key : List ℕ) → IsNewestOf list.now key (get
        (slice_cmp nat_cmp) newest key)) }
    ensures ordered { IfOk result (λ newest. IsOrdered (slice_cmp nat_cmp) newest) }
{
    let mut newest = BTreeMap::new(alloc);
    for rec in list {
        take_newer(&mut newest, rec)?;
    }
    Ok(newest)
}

/// The records of the keys, by key.
fn records_of(alloc: Global, newest: &BTreeMap<Key, Versioned>) -> Result<Vec<Record>, Memory>
    ensures { IfOk result (λ records. records.items ≡ map record_of newest.now.entries) }
{
    let mut records = Vec::new(alloc);
    for (key, held) in newest {
        let record = Record {
            key: *key,
            num: held.num,
            body: held.body,
        };
        records.push(record).map_err(|_| Memory)?;
    }
    Ok(records)
}

/// The record of greatest number of each key that has a number above 0, by key.
pub fn greatest(alloc: Global, list: &[Record]) -> Result<Vec<Record>, Memory>
    ensures { IfOk result (λ records. IsNewestPerKey list.now records.items) }
{
    let newest = newest_of(alloc, list)?;
    records_of(alloc, &newest)
}
