//! The stages of the bodies.
ghost use Rattle.std.specs.Prelude.{◌≡◌, ◌+◌, ◌<◌, ◌≤◌, ◌^◌, ℕ, List, [], length, replicate, slice_index_or, slice_set};
ghost use Rattle.std.specs.Prelude.{if◌then◌else◌, IfOk, Some};
ghost use Rattle.switch_staged.specs.Rows.{zero_cell};
ghost use Rattle.switch_staged.specs.Groups.{arrays_left, carried_over, token_over};
ghost use Rattle.register_stages.specs.Arrays.{cells_of, place_of};
ghost use Rattle.switch_staged.specs.Stages.{InReach, PlaceBelow, IsPart, all_cells, array_after, carried};
ghost use Rattle.switch_staged.specs.Stages.{token_past, token_behind};
ghost use Rattle.switch_staged.specs.Stages.{cell_after as cell_left, arrays_after, carried_all};
ghost use Rattle.switch_staged.specs.Heads.{writes as is_writing};

use crate::cells::{CELL_LENGTH, Cell, Cells};
use crate::flight::{Act, Passage};
use far_base::Memory;
use register_stages::{PassToken, RegArray};
use std::alloc::Global;

impl Act {
    /// Whether the cells of the body are written.
    pub fn writes(&self) -> bool
        ensures { result ≡ is_writing self.now }
    {
        match self {
            Act::Absorb | Act::Bind | Act::Clear => true,
            Act::Keep | Act::Raise => false,
        }
    }
}

/// Cell `at` of a body.
fn cell_of(cells: &Cells, at: usize) -> Cell
    requires { at < 32 }
    ensures { result ≡ slice_index_or cells.now at zero_cell }
{
    cells[at]
}

impl<'a> Passage<'a> {
    /// The cell that stage `at` of the body leaves.
    #[tactic(auto, unfolding(crate::specs::Stages::cell_after))]
    fn cell_after(&self, at: usize, writes: bool, old: Cell) -> Cell
        requires at { at < 32 }
        requires writes { writes ≡ is_writing self.now.act }
        ensures { result ≡ cell_left at self.now old }
    {
        if writes {
            cell_of(&self.cells, at)
        } else {
            old
        }
    }
}

/// Stage `at` of the body is visited at a slot, whose cell it had is the answer.
fn visit_body(
    array: &mut RegArray<Cell>,
    token: &mut PassToken,
    at: usize,
    place: u32,
    writes: bool,
    flight: &Passage,
) -> Cell
    requires cell { place < length (cells_of array.old) }
    requires at { at < 32 }
    requires writes { writes ≡ is_writing flight.now.act }
    requires token { token.old ≤ place_of array.old }
    requires place { place_of array.old + 1 < 2 ^ 32 }
    ensures cells { cells_of array.new ≡ slice_set (cells_of array.old) place
        (cell_left at flight.now (slice_index_or (cells_of array.old) place zero_cell)) }
    ensures old { result ≡ slice_index_or (cells_of array.old) place zero_cell }
    ensures token { token.new ≡ place_of array.old + 1 }
    ensures place { place_of array.new ≡ place_of array.old }
{
    array.visit(
        token,
        place,
        |cell|
            requires at { at < 32 }
            requires writes { writes ≡ is_writing flight.now.act }
            ensures { result ≡ cell_left at flight.entry.now cell }
        { flight.cell_after(at, writes, cell) },
    )
}

/// Stage `at` of the body, where the flight goes to this slot.
fn pass_cell(
    array: &mut RegArray<Cell>,
    token: &mut PassToken,
    at: usize,
    place: u32,
    writes: bool,
    flight: &mut Passage,
)
    requires goes { flight.old.place ≡ Some place }
    requires writes { writes ≡ is_writing flight.old.act }
    requires cell { place < length (cells_of array.old) }
    requires at { at < 32 }
    requires token { token.old ≤ place_of array.old }
    requires place { place_of array.old + 1 < 2 ^ 32 }
    ensures cells { cells_of array.new ≡ array_after at (cells_of array.old) flight.old }
    ensures flight { flight.new ≡ carried at (cells_of array.old) flight.old }
    ensures token { token.new ≡ place_of array.old + 1 }
    ensures place { place_of array.new ≡ place_of array.old }
{
    let old = visit_body(array, token, at, place, writes, flight);
    flight.cells[at] = old;
}

/// Stage `at` of the body, counted from 0.
pub fn pass_body(array: &mut RegArray<Cell>, token: &mut PassToken, at: usize, flight: &mut Passage)
    requires cell { InReach flight.old.place (cells_of array.old) }
    requires at { at < 32 }
    requires token { token.old ≤ place_of array.old }
    requires place { place_of array.old + 1 < 2 ^ 32 }
    ensures cells { cells_of array.new ≡ array_after at (cells_of array.old) flight.old }
    ensures flight { flight.new ≡ carried at (cells_of array.old) flight.old }
    ensures token { token.new ≡ token_past flight.old.place (place_of array.old + 1) token.old }
    ensures within { token.new ≤ place_of array.old + 1 }
    ensures place { place_of array.new ≡ place_of array.old }
{
    let Some(place) = flight.place else {
        return;
    };
    let writes = flight.act.writes();
    pass_cell(array, token, at, place, writes, flight);
}

/// The stages of the body from `first` on, over the list, where the flight goes to this slot.
fn pass_arrays(
    arrays: &mut [RegArray<Cell>],
    token: &mut PassToken,
    first: usize,
    slots: u32,
    place: u32,
    flight: &mut Passage,
)
    requires goes { flight.old.place ≡ Some place }
    requires cell { place < slots }
    requires count { first + length arrays.old ≤ 32 }
    requires part { IsPart (5 + first) slots arrays.old }
    requires token { token.old ≤ 5 + first }
    ensures cells { all_cells arrays.new ≡ arrays_after first (all_cells arrays.old) flight.old }
    ensures flight { flight.new ≡ carried_all first (all_cells arrays.old) flight.old }
    ensures count { length arrays.new ≡ length arrays.old }
    ensures part { IsPart (5 + first) slots arrays.new }
    ensures token { token.new ≡ token_behind (length arrays.old) (5 + first) token.old }
    ensures within { token.new ≤ 5 + first + length arrays.old }
{
    let writes = flight.act.writes();
    for k in 0..arrays.len() {
        pass_cell(&mut arrays[k], token, first + k, place, writes, flight);
    }
}

/// The stages of the body from `first` on. A flight that goes to no slot of theirs passes them untouched.
pub fn pass_bodies(
    arrays: &mut Vec<RegArray<Cell>>,
    token: &mut PassToken,
    first: usize,
    slots: u32,
    flight: &mut Passage,
)
    requires count { first + length arrays.old.items ≤ 32 }
    requires part { IsPart (5 + first) slots arrays.old.items }
    requires token { token.old ≤ 5 + first }
    ensures cells { all_cells arrays.new.items ≡ arrays_left first slots (all_cells arrays.old.items) flight.old.place
        flight.old }
    ensures flight { flight.new ≡ carried_over first slots (all_cells arrays.old.items) flight.old.place flight.old }
    ensures count { length arrays.new.items ≡ length arrays.old.items }
    ensures part { IsPart (5 + first) slots arrays.new.items }
    ensures token { token.new ≡ token_over first slots (length arrays.old.items) flight.old.place token.old }
    ensures within { token.new ≤ 5 + first + length arrays.old.items }
{
    let Some(place) = flight.place else {
        return;
    };
    if place < slots {
        pass_arrays(arrays, token, first, slots, place, flight);
    }
}

/// So many stages of the body from `first` on, for so many slots, with zeros.
pub fn empty_bodies(
    alloc: Global,
    first: usize,
    count: usize,
    slots: u32,
) -> Result<Vec<RegArray<Cell>>, Memory>
    requires { first + count ≤ 32 }
    ensures cells { IfOk result (λ arrays. all_cells arrays.items ≡ replicate count (replicate slots zero_cell)) }
    ensures count { IfOk result (λ arrays. length arrays.items ≡ count) }
    ensures part { IfOk result (λ arrays. IsPart (5 + first) slots arrays.items) }
{
    let mut arrays = Vec::with_capacity(alloc, count)?;
    for k in 0..count {
        arrays.push_reserved(RegArray::new(
            alloc,
            5 + (first + k) as u32,
            slots,
            [0; CELL_LENGTH],
        )?);
    }
    Ok(arrays)
}

/// The same stages with the same cells.
pub fn copied_bodies(
    alloc: Global,
    arrays: &[RegArray<Cell>],
) -> Result<Vec<RegArray<Cell>>, Memory>
    ensures cells { IfOk result (λ copy. all_cells copy.items ≡ all_cells arrays.now) }
    ensures count { IfOk result (λ copy. length copy.items ≡ length arrays.now) }
    ensures part { IfOk result (λ copy. (first slots : ℕ) → IsPart first slots arrays.now → IsPart first slots copy.items) }
{
    let mut copy = Vec::with_capacity(alloc, arrays.len())?;
    for k in 0..arrays.len() {
        copy.push_reserved(arrays[k].copied(alloc)?);
    }
    Ok(copy)
}

fn reset_arrays(arrays: &mut [RegArray<Cell>], slots: u32)
    requires { (first : ℕ) × IsPart first slots arrays.old }
    ensures cells { all_cells arrays.new ≡ replicate (length arrays.old) (replicate slots zero_cell) }
    ensures count { length arrays.new ≡ length arrays.old }
    ensures part { (first : ℕ) → IsPart first slots arrays.old → IsPart first slots arrays.new }
{
    for k in 0..arrays.len() {
        arrays[k].reset([0; CELL_LENGTH]);
    }
}

/// All cells of the bodies become zeros.
pub fn reset_bodies(arrays: &mut Vec<RegArray<Cell>>, slots: u32)
    requires { (first : ℕ) × IsPart first slots arrays.old.items }
    ensures cells { all_cells arrays.new.items ≡ replicate (length arrays.old.items) (replicate slots zero_cell) }
    ensures count { length arrays.new.items ≡ length arrays.old.items }
    ensures part { (first : ℕ) → IsPart first slots arrays.old.items → IsPart first slots arrays.new.items }
{
    reset_arrays(arrays, slots);
}

/// A cell of stage `at` of these.
pub fn cell_in(arrays: &[RegArray<Cell>], at: usize, slot: u32) -> Cell
    requires at { at < length arrays.now }
    requires part { (first : ℕ) × (slots : ℕ) × (slot < slots) × IsPart first slots arrays.now }
    ensures { result ≡ slice_index_or (slice_index_or (all_cells arrays.now) at []) slot zero_cell }
{
    arrays[at].look(slot)
}
