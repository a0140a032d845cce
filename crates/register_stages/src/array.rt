use crate::token::PassToken;
use far_base::Memory;
use std::alloc::{AllocError, Global};

/// An array of registers, at a place among the arrays that a pass visits. A pass changes it by `visit` alone.
#[derive(Drop)]
pub struct RegArray<T> {
    place: u32,
    cells: Vec<T>,
}

ghost use Rattle.std.specs.Prelude.{◌≡◌, ◌+◌, ◌<◌, ◌≤◌, ◌^◌, length, Some, slice_get, slice_index_or, slice_set};
ghost use Rattle.std.specs.Prelude.{replicate, IfOk};
ghost use Rattle.register_stages.specs.Arrays.{cells_of, place_of};

fn filled<T: Copy>(alloc: Global, item: T, count: usize) -> Result<Vec<T>, AllocError>
    ensures { IfOk result (λ items. items.items ≡ replicate count item) }
{
    let mut items = Vec::with_capacity(alloc, count)?;
    for _ in 0..count {
        items.push_reserved(item);
    }
    Ok(items)
}

/// The same items in a list of its own.
fn duplicate<T: Copy>(alloc: Global, items: &[T]) -> Result<Vec<T>, AllocError>
    ensures { IfOk result (λ copy. copy.items ≡ items.now) }
{
    let mut copy = Vec::with_capacity(alloc, items.len())?;
    for k in 0..items.len() {
        copy.push_reserved(items[k]);
    }
    Ok(copy)
}

fn fill<T: Copy>(items: &mut [T], item: T)
    ensures { items.new ≡ replicate (length items.old) item }
{
    for place in items {
        *place = item;
    }
}

impl<T: Copy> RegArray<T> {
    /// An array of so many cells, all of them `first`.
    pub fn new(alloc: Global, place: u32, cells: u32, first: T) -> Result<Self, Memory>
        ensures cells { IfOk result (λ a. cells_of a ≡ replicate cells first) }
        ensures place { IfOk result (λ a. place_of a ≡ place) }
    {
        Ok(RegArray {
            place,
            cells: filled(alloc, first, cells as usize)?,
        })
    }

    /// An array at the same place with the same cells.
    pub fn copied(&self, alloc: Global) -> Result<Self, Memory>
        ensures cells { IfOk result (λ a. cells_of a ≡ cells_of self.now) }
        ensures place { IfOk result (λ a. place_of a ≡ place_of self.now) }
    {
        Ok(RegArray {
            place: self.place,
            cells: duplicate(alloc, &self.cells)?,
        })
    }

    /// One visit of a pass: the old cell is the answer, and the cell becomes `change` of it.
    pub fn visit<F: Fn(T) -> T + Drop>(&mut self, token: &mut PassToken, cell: u32, change: F) -> T
        requires cell { cell < length (cells_of self.old) }
        requires before { token.old ≤ place_of self.old }
        requires place { place_of self.old + 1 < 2 ^ 32 }
        requires may { (x : T) → slice_get (cells_of self.old) cell ≡ Some x → F.pre change x }
        ensures old { slice_get (cells_of self.old) cell ≡ Some result }
        ensures value { (other : T) → slice_index_or (cells_of self.old) cell other ≡ result }
        ensures new { (y : T) × F.post change result y × (cells_of self.new ≡ slice_set (cells_of self.old) cell y) }
        ensures token { token.new ≡ place_of self.old + 1 }
        ensures place { place_of self.new ≡ place_of self.old }
    {
        token.past(self.place);
        let old = self.cells[cell as usize];
        self.cells[cell as usize] = change(old);
        old
    }

    /// All cells become `item`, as in a new array. No pass uses this call.
    pub fn reset(&mut self, item: T)
        ensures cells { cells_of self.new ≡ replicate (length (cells_of self.old)) item }
        ensures place { place_of self.new ≡ place_of self.old }
    {
        fill(&mut self.cells, item);
    }

    /// The cell as it is now. No pass uses this call.
    pub fn look(&self, cell: u32) -> T
        requires { cell < length (cells_of self.now) }
        ensures { slice_get (cells_of self.now) cell ≡ Some result }
    {
        self.cells[cell as usize]
    }

    /// How many cells there are.
    pub fn count(&self) -> usize
        ensures { result ≡ length (cells_of self.now) }
    {
        self.cells.len()
    }
}
