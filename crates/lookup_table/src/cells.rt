//! Searches in the cells of a bucket and in the overflow list. Both hold slots; `keys` has the key of each slot.

ghost use Rattle.std.specs.Prelude.{◌≡◌, ◌+◌, ◌*◌, ◌^◌, ◌<◌, ◌≤◌, length, is_none, IfSome, vec_capacity};
ghost use Rattle.std.specs.List.{position};
ghost use Rattle.far_model.specs.View.{is_key_there};
ghost use Rattle.lookup_table.specs.Binding.{slot_at, closed_up};
ghost use Rattle.lookup_table.specs.Table.{bucket_count, bucket_cells, is_of_bucket, has_key, key_at};

use crate::place::BUCKET_CELLS;
use far_base::Key;

/// The number of buckets for so many slots.
pub(crate) fn count_buckets(slots: usize) -> usize
    requires { slots < 2 ^ 32 }
    ensures { result ≡ bucket_count slots }
{
    (slots + BUCKET_CELLS - 1) / BUCKET_CELLS
}

/// The cells of a bucket.
pub(crate) fn cells_of(cells: &[Option<u32>], bucket: usize) -> &[Option<u32>]
    requires { 4 * bucket + 4 ≤ length cells.now }
    ensures { result.now ≡ bucket_cells bucket cells.now }
{
    let first = BUCKET_CELLS * bucket;
    &cells[first..][..BUCKET_CELLS]
}

/// Whether the key is bound to the slot.
pub(crate) fn is_key_at(keys: &[Option<Key>], slot: u32, key: &Key) -> bool
    ensures { result ≡ is_key_there key.now (key_at keys.now slot) }
{
    match keys.get(slot as usize) {
        Some(Some(found)) => key == found,
        _ => false,
    }
}

/// Whether the slot has a key of the bucket.
pub(crate) fn is_bucket_at(keys: &[Option<Key>], slot: u32, bucket: usize) -> bool
    requires some { 0 < length keys.now }
    requires few { length keys.now < 2 ^ 32 }
    ensures { result ≡ is_of_bucket bucket (length keys.now) (key_at keys.now slot) }
{
    match keys.get(slot as usize) {
        Some(Some(found)) => found.byte_sum() as usize % count_buckets(keys.len()) == bucket,
        _ => false,
    }
}

/// The first of these cells whose slot has the key.
pub(crate) fn cell_with(keys: &[Option<Key>], cells: &[Option<u32>], key: &Key) -> Option<usize>
    ensures { result ≡ position (has_key key.now keys.now) cells.now }
{
    cells.iter().position(|cell| match cell {
        Some(slot) => is_key_at(keys, *slot, key),
        None => false,
    })
}

/// The first of these slots that has the key.
pub(crate) fn slot_with(keys: &[Option<Key>], slots: &[u32], key: &Key) -> Option<usize>
    ensures { result ≡ position (λ s. is_key_there key.now (key_at keys.now s)) slots.now }
{
    slots.iter().position(|slot| is_key_at(keys, *slot, key))
}

/// The first of these slots that has a key of the bucket.
pub(crate) fn slot_of_bucket(keys: &[Option<Key>], slots: &[u32], bucket: usize) -> Option<usize>
    requires some { 0 < length keys.now }
    requires few { length keys.now < 2 ^ 32 }
    ensures { result ≡ position (λ s. is_of_bucket bucket (length keys.now) (key_at keys.now s)) slots.now }
{
    slots
        .iter()
        .position(|slot| is_bucket_at(keys, *slot, bucket))
}

/// The lowest of these cells that is free.
pub(crate) fn free_cell(cells: &[Option<u32>]) -> Option<usize>
    ensures { result ≡ position is_none cells.now }
{
    cells.iter().position(Option::is_none)
}

/// Takes the slot at this place out of the list, which closes up and keeps its order.
pub(crate) fn take_out(slots: &mut Vec<u32>, at: Option<usize>) -> Option<u32>
    requires { IfSome at (λ i. i < length slots.old.items) }
    ensures slot { result ≡ slot_at at slots.old.items }
    ensures rest { slots.new.items ≡ closed_up at slots.old.items }
    ensures room { vec_capacity slots.new ≡ vec_capacity slots.old }
{
    match at {
        Some(at) => Some(slots.remove(at)),
        None => None,
    }
}
