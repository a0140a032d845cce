use far_base::{Key, Memory};
use std::alloc::{AllocError, Global};
use std::marker::Model;

/// The number of hot cells.
pub const HOT_CELLS: usize = 256;

/// How often keys of one cell were met in an era.
#[derive(Clone, Copy)]
struct HotCell {
    era: u32,
    count: u32,
}

impl Model for HotCell {
    ghost use Rattle.far_model.specs.View as model;

    ghost Value = { model.HotCell };

    ghost view = { λ c. record { era = c.era; count = c.count } };

    ghost inverse = { λ c. record { era = c.era; count = c.count } };
}

/// The hot cells. Each key has one; keys share them.
#[derive(Drop)]
pub struct HotCells {
    hot: u32,
    cells: Vec<HotCell>,
}

impl Model for HotCells {
    ghost use Rattle.std.specs.Prelude.{◌≡◌, length};
    ghost use Rattle.far_model.specs.View.{HOT_CELLS};
    ghost use Rattle.hot_counter.specs.HotView.{HotView};

    ghost Value = { HotView };

    ghost view = { λ h. record { hot = h.hot; cells = h.cells.items } };

    ghost invariant = { λ h. length h.cells.items ≡ HOT_CELLS };
}

ghost use Rattle.std.specs.Prelude.{◌≡◌, IfOk, length, replicate};
ghost use Rattle.far_model.specs.Pass as model;
ghost use Rattle.far_model.specs.View.{HOT_CELLS};
ghost use Rattle.hot_counter.specs.HotView.{cold, cold_cell, cell_in, touched_cells};

/// A cell of era 0 and count 0.
fn cold_hot_cell() -> HotCell
    ensures { result ≡ cold_cell }
{
    HotCell { era: 0, count: 0 }
}

fn cold_cells(alloc: Global) -> Result<Vec<HotCell>, AllocError>
    ensures { IfOk result (λ cells. cells.items ≡ replicate HOT_CELLS cold_cell) }
{
    let mut cells = Vec::with_capacity(alloc, HOT_CELLS)?;
    for _ in 0..HOT_CELLS {
        cells.push(cold_hot_cell())?;
    }
    Ok(cells)
}

fn cool(cells: &mut [HotCell])
    ensures { cells.new ≡ replicate (length cells.old) cold_cell }
{
    for cell in cells {
        *cell = cold_hot_cell();
    }
}

/// A cell of another era is first set to this one, with count 0. Where `hot` is above 0 the count then rises, and
/// begins anew where it reaches `hot`. Whether it did.
fn touch_cell(cell: &mut HotCell, hot: u32, era: u32) -> bool
    ensures cell { cell.new ≡ model.counted hot (model.in_era era cell.old) }
    ensures grows { result ≡ model.grows_hot hot (model.in_era era cell.old) }
{
    if cell.era != era {
        *cell = HotCell { era, count: 0 };
    }
    if hot == 0 {
        return false;
    }
    if cell.count >= hot - 1 {
        cell.count = 0;
        return true;
    }
    cell.count += 1;
    false
}

impl HotCells {
    /// All cells of era 0 and count 0. A key grows hot at a count of `hot`, and at 0 never.
    pub fn new(alloc: Global, hot: u32) -> Result<Self, Memory>
        ensures { IfOk result (λ cells. cells ≡ cold hot) }
    {
        let cells = cold_cells(alloc)?;
        Ok(HotCells { hot, cells })
    }

    /// Counts a key in its cell, in this era. Whether it has grown hot by this touch; with `hot` 0 none does.
    pub fn touch(&mut self, key: &Key, era: u32) -> bool
        ensures cells { self.new.cells ≡ touched_cells self.old.hot key.now era self.old.cells }
        ensures hot { self.new.hot ≡ self.old.hot }
        ensures grows { result ≡ model.grows_hot self.old.hot (cell_in key.now era self.old.cells) }
    {
        let hot = self.hot;
        touch_cell(&mut self.cells[key.cell() as usize], hot, era)
    }

    /// All cells are of era 0 and count 0 again; `hot` stays.
    pub fn clear(&mut self)
        ensures { self.new ≡ cold self.old.hot }
    {
        cool(&mut self.cells);
    }
}
