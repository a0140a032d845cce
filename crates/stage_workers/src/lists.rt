ghost use Rattle.std.specs.Prelude.{◌≡◌, ◌≤◌, [], IfOk, vec_capacity};

use far_base::{Memory, Packet};
use std::alloc::Global;
use switch_staged::Flight;

/// The two lists of a worker, what it takes and the flights that it gives, with room for so many.
#[derive(Drop)]
pub(crate) struct Lists<T: Drop> {
    pub count: u32,
    pub took: Vec<T>,
    pub gave: Vec<Flight>,
    ghost empty: { (took.items ≡ []) × (gave.items ≡ []) },
    ghost room: { (count ≤ vec_capacity took) × (count ≤ vec_capacity gave) },
}

impl<T: Drop> Lists<T> {
    fn new(alloc: Global, count: u32) -> Result<Self, Memory>
        ensures { IfOk result (λ lists. lists.count ≡ count) }
    {
        Ok(Lists {
            count,
            took: Vec::with_capacity(alloc, count as usize)?,
            gave: Vec::with_capacity(alloc, count as usize)?,
        })
    }
}

/// The lists of all workers.
#[derive(Drop)]
pub(crate) struct AllLists {
    pub head: Lists<Packet>,
    pub part1: Lists<Flight>,
    pub part2: Lists<Flight>,
    pub part3: Lists<Flight>,
    pub part4: Lists<Flight>,
}

impl AllLists {
    /// Lists with room for so many.
    pub(crate) fn new(alloc: Global, count: u32) -> Result<Self, Memory>
        ensures { IfOk result (λ lists. lists.head.count ≡ count) }
    {
        Ok(AllLists {
            head: Lists::new(alloc, count)?,
            part1: Lists::new(alloc, count)?,
            part2: Lists::new(alloc, count)?,
            part3: Lists::new(alloc, count)?,
            part4: Lists::new(alloc, count)?,
        })
    }
}
