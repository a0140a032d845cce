use crate::cells::{
    cell_with, cells_of, count_buckets, free_cell, is_key_at, slot_of_bucket, slot_with, take_out,
};
use crate::mark::{MARKS, Mark, mark_of};
use crate::place::{BUCKET_CELLS, Place};
use far_base::{Key, Memory};
use std::alloc::{AllocError, Global};
use std::marker::Model;

/// A list of pairs of a key and a slot, where no key and no slot stands twice. A key has a bucket of four cells by the
/// sum of its bytes; a pair stands in its key's bucket, or in the overflow list where that was full. Contracts see the
/// key of each slot and the places.
#[derive(Drop)]
pub struct Lookup {
    keys: Vec<Option<Key>>,
    cells: Vec<Option<u32>>,
    overflow: Vec<u32>,
    /// Where the keys of each mark are bound: so most keys that are not bound are told at once, and most that are bound
    /// found at once.
    marks: Vec<Mark>,
}

impl Model for Lookup {
    ghost use Rattle.std.specs.Prelude.{◌≤◌, length, vec_capacity};
    ghost use Rattle.lookup_table.specs.Table.{LookupView};
    ghost use Rattle.lookup_table.specs.Marks.{AreMarked};
    ghost use Rattle.lookup_table.specs.Sound.{IsSound};

    ghost Value = { LookupView };

    ghost view = { λ t. record { bound = t.keys.items; cells = t.cells.items; overflow = t.overflow.items } };

    ghost invariant = { λ t. IsSound (record {
      bound = t.keys.items;
      cells = t.cells.items;
      overflow = t.overflow.items;
    }) × ((length t.keys.items ≤ vec_capacity t.overflow) × AreMarked t.keys.items t.marks.items) };
}

ghost use Rattle.std.specs.Prelude.{◌≡◌, ◌+◌, ◌*◌, ◌^◌, ◌<◌, ◌≤◌, map, length, replicate, slice_index_or, slice_set};
ghost use Rattle.std.specs.Prelude.{None, Some, IfOk, IfSome, IsNone};
ghost use Rattle.far_model.specs.View.{bound_place, bind_key, unbound};
ghost use Rattle.lookup_table.specs.declared.place.Place.TheVariants.{Cell, Overflow};
ghost use Rattle.lookup_table.specs.Binding.{with_binding, without_key, without_slot, with_pair, dropped_at};
ghost use Rattle.lookup_table.specs.Sound.{IsSound, IsPairAt, IsAlone, IsOwn, IsPacked, HasPair, Nowhere, held_at};
ghost use Rattle.lookup_table.specs.Table.{no_pairs, bucket_in, bucket_count, place_of};

fn filled<T: Copy>(alloc: Global, item: T, count: usize) -> Result<Vec<T>, AllocError>
    ensures { IfOk result (λ items. items.items ≡ replicate count item) }
{
    let mut items = Vec::with_capacity(alloc, count)?;
    for _ in 0..count {
        items.push_reserved(item);
    }
    Ok(items)
}

fn fill<T: Copy>(items: &mut [T], item: T)
    ensures { items.new ≡ replicate (length items.old) item }
{
    for slot in items {
        *slot = item;
    }
}

impl Lookup {
    /// A table for so many slots, with no pairs.
    pub fn new(alloc: Global, slots: u32) -> Result<Self, Memory>
        ensures { IfOk result (λ table. table ≡ no_pairs slots) }
    {
        let keys = filled(alloc, None, slots as usize)?;
        let cells = filled(alloc, None, BUCKET_CELLS * count_buckets(slots as usize))?;
        let overflow = Vec::with_capacity(alloc, slots as usize)?;
        let marks = filled(alloc, Mark::Free, MARKS)?;
        Ok(Lookup {
            keys,
            cells,
            overflow,
            marks,
        })
    }

    /// The bucket of the key.
    fn bucket(&self, key: &Key) -> usize
        requires { 0 < length self.now.bound }
        ensures bucket { result ≡ bucket_in (length self.now.bound) key.now }
        ensures there { 4 * result + 4 ≤ length self.now.cells }
        ensures few { result < 2 ^ 32 }
    {
        key.byte_sum() as usize % count_buckets(self.keys.len())
    }

    /// Where the pair with the key stands. A key whose mark is free has none.
    fn locate(&self, key: &Key) -> Option<Place>
        ensures { result ≡ place_of key.now self.now }
    {
        if self.keys.is_empty() {
            return None;
        }
        if let Mark::Free = self.marks[mark_of(key)] {
            return None;
        }
        let bucket = self.bucket(key);
        if let Some(cell) = cell_with(&self.keys, cells_of(&self.cells, bucket), key) {
            return Some(Place::Cell {
                bucket: bucket as u32,
                cell: cell as u32,
            });
        }
        let at = slot_with(&self.keys, &self.overflow, key)?;
        Some(Place::Overflow { at: at as u32 })
    }

    /// Where the pair with the key stands. `None` exactly where no slot is bound to the key. A cell is one of the four
    /// of the key's bucket; the overflow list serves a full bucket, and its places are without a gap. No two keys have
    /// one place. One bucket is looked at, and the overflow list where the key is not in it.
    pub fn place(&self, key: &Key) -> Option<Place>
        ensures place { result ≡ place_of key.now self.now }
        ensures pair { IfSome result (λ place. IsPairAt key.now place self.now) }
        ensures none { IsNone result → Nowhere key.now self.now.bound }
        ensures own { IsOwn key.now result self.now }
        ensures packed { IsPacked result self.now }
        ensures held { IfSome result (λ place. held_at place self.now ≡ bound_place key.now self.now.bound) }
        ensures sound { IsSound self.now }
    {
        let _ = &self.keys;
        self.locate(key)
    }

    /// The slot at the place of the pair with the key.
    fn placed(&self, key: &Key) -> Option<u32>
        ensures slot { result ≡ bound_place key.now self.now.bound }
        ensures there { IfSome result (λ slot. slot < length self.now.bound) }
    {
        match self.place(key) {
            Some(Place::Cell { bucket, cell }) => {
                self.cells[BUCKET_CELLS * bucket as usize + cell as usize]
            }
            Some(Place::Overflow { at }) => Some(self.overflow[at as usize]),
            None => None,
        }
    }

    /// The slot, where it has the key, which is bound to no other.
    fn sought_at(&self, slot: u32, key: &Key) -> Option<u32>
        requires { IsAlone key.now slot self.now.bound }
        ensures slot { result ≡ bound_place key.now self.now.bound }
        ensures there { IfSome result (λ slot. slot < length self.now.bound) }
    {
        if is_key_at(&self.keys, slot, key) {
            Some(slot)
        } else {
            None
        }
    }

    /// The slot that is bound to the key. `None` exactly where none is.
    pub fn find(&self, key: &Key) -> Option<u32>
        ensures slot { result ≡ bound_place key.now self.now.bound }
        ensures there { IfSome result (λ slot. slot < length self.now.bound) }
    {
        match self.marks[mark_of(key)] {
            Mark::Free => None,
            Mark::One(slot) => self.sought_at(slot, key),
            Mark::Several => self.placed(key),
        }
    }

    /// Drops the pair in a cell.
    fn vacate_cell(&mut self, bucket: u32, cell: u32)
        requires { HasPair (Cell bucket cell) self.old }
        ensures { self.new ≡ dropped_at (Some (Cell bucket cell)) self.old }
    {
        let freed = BUCKET_CELLS * bucket as usize + cell as usize;
        if let Some(slot) = self.cells[freed] {
            self.keys[slot as usize] = None;
            let spilled = slot_of_bucket(&self.keys, &self.overflow, bucket as usize);
            self.cells[freed] = take_out(&mut self.overflow, spilled);
        }
    }

    /// Drops the pair at a place of the overflow list.
    fn vacate_overflow(&mut self, at: u32)
        requires { HasPair (Overflow at) self.old }
        ensures { self.new ≡ dropped_at (Some (Overflow at)) self.old }
    {
        let slot = self.overflow.remove(at as usize);
        self.keys[slot as usize] = None;
    }

    /// Frees the key's mark where its one slot has no key.
    fn unmark(&mut self, key: &Key)
        ensures { self.new ≡ self.old }
    {
        let at = mark_of(key);
        if let Mark::One(slot) = self.marks[at] {
            if self.key_of(slot).is_none() {
                self.marks[at] = Mark::Free;
            }
        }
    }

    /// Drops the pair with the key, if there is one. The key's mark stays.
    fn drop_pair(&mut self, key: &Key)
        ensures value { self.new ≡ without_key key.now self.old }
        ensures bound { self.new.bound ≡ map (unbound key.now) self.old.bound }
        ensures gone { Nowhere key.now self.new.bound }
    {
        match self.place(key) {
            Some(Place::Cell { bucket, cell }) => self.vacate_cell(bucket, cell),
            Some(Place::Overflow { at }) => self.vacate_overflow(at),
            None => {}
        }
    }

    /// Drops the pair with the key, if there is one.
    fn unbind(&mut self, key: &Key)
        ensures value { self.new ≡ without_key key.now self.old }
        ensures bound { self.new.bound ≡ map (unbound key.now) self.old.bound }
        ensures gone { Nowhere key.now self.new.bound }
    {
        self.drop_pair(key);
        self.unmark(key);
    }

    /// Drops the pair with the slot, if there is one.
    fn unbind_slot(&mut self, slot: u32)
        ensures value { self.new ≡ without_slot slot self.old }
        ensures bound { self.new.bound ≡ slice_set self.old.bound slot None }
    {
        if let Some(key) = self.key_of(slot) {
            self.unbind(&key);
        }
    }

    /// Adds the pair. Neither is in another.
    fn add(&mut self, key: Key, slot: u32)
        requires slot { slot < length self.old.bound }
        requires unbound { slice_index_or self.old.bound slot None ≡ None }
        requires new { Nowhere key self.old.bound }
        ensures value { self.new ≡ with_pair key slot self.old }
        ensures bound { self.new.bound ≡ slice_set self.old.bound slot (Some key) }
    {
        let bucket = self.bucket(&key);
        let at = mark_of(&key);
        self.marks[at] = self.marks[at].with(slot);
        self.keys[slot as usize] = Some(key);
        match free_cell(cells_of(&self.cells, bucket)) {
            Some(cell) => self.cells[BUCKET_CELLS * bucket + cell] = Some(slot),
            None => self.overflow.push_reserved(slot),
        }
    }

    /// Drops the pairs with that key or that slot, in this order, and adds the pair of both. A cell that a drop has
    /// freed takes the first overflow pair of its bucket; the overflow list closes up and keeps its order. The new pair
    /// goes into the lowest free cell of its bucket, or last into the overflow list. All other places stay.
    pub fn bind(&mut self, key: Key, slot: u32)
        requires { slot < length self.old.bound }
        ensures bound { self.new.bound ≡ bind_key key slot self.old.bound }
        ensures places { self.new ≡ with_binding key slot self.old }
    {
        self.unbind(&key);
        self.unbind_slot(slot);
        self.add(key, slot);
    }

    /// The key that is bound to the slot. `None` exactly where none is. No other slot has that key.
    pub fn key_of(&self, slot: u32) -> Option<Key>
        ensures key { result ≡ slice_index_or self.now.bound slot None }
        ensures alone { IfSome result (λ key. IsAlone key slot self.now.bound) }
    {
        self.keys.get(slot as usize).copied().flatten()
    }

    /// No pairs.
    pub fn clear(&mut self)
        ensures { self.new ≡ no_pairs (length self.old.bound) }
    {
        fill(&mut self.keys, None);
        fill(&mut self.cells, None);
        fill(&mut self.marks, Mark::Free);
        self.overflow.clear();
    }
}
