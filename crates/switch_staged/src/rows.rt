//! Bodies in cells.
ghost use Rattle.std.specs.Prelude.{◌≡◌, ◌+◌, ◌*◌, ◌<◌, ◌≤◌, ◌++◌, length, take, drop, None};
ghost use Rattle.far_base.specs.declared.body.TheConstants.{BODY_LIMIT};
ghost use Rattle.far_base.specs.Padded.{padded, text_of};
ghost use Rattle.switch_staged.specs.Rows.{cut_cells, joined};
ghost use Rattle.switch_staged.specs.Heads.{cells_of_body as cut_body};

use crate::cells::{BODY_CELLS, CELL_LENGTH, Cell, Cells};
use far_base::{BODY_LIMIT, Body};

/// The cell that begins at this byte.
fn cell_at(bytes: &[u8], at: usize) -> Cell
    requires { at + CELL_LENGTH ≤ length bytes.now }
    ensures { result ≡ take 8 (drop at bytes.now) }
{
    let mut cell = [0; CELL_LENGTH];
    cell.copy_from_slice(&bytes[at..at + CELL_LENGTH]);
    cell
}

/// The bytes cut into cells.
fn cut_whole(bytes: &[u8; BODY_LIMIT]) -> Cells
    ensures { result ≡ cut_cells bytes.now }
{
    let mut cells = [[0; CELL_LENGTH]; BODY_CELLS];
    for k in 0..BODY_CELLS {
        cells[k] = cell_at(bytes, k * CELL_LENGTH);
    }
    cells
}

fn put_at(out: &mut [u8], at: usize, cell: Cell)
    requires { at + 8 ≤ length out.old }
    ensures bytes { out.new ≡ take at out.old ++ (cell ++ drop (at + 8) out.old) }
    ensures whole { length cell ≡ 8 }
{
    out[at..at + CELL_LENGTH].copy_from_slice(&cell);
}

/// The bytes of cells.
pub fn join_cells(cells: &Cells) -> [u8; BODY_LIMIT]
    ensures { result ≡ joined cells.now }
{
    let mut bytes = [0; BODY_LIMIT];
    for k in 0..BODY_CELLS {
        put_at(&mut bytes, k * CELL_LENGTH, cells[k]);
    }
    bytes
}

fn put_text(out: &mut [u8], text: &[u8])
    requires { length text.now ≤ length out.old }
    ensures { out.new ≡ text.now ++ drop (length text.now) out.old }
{
    out[..text.len()].copy_from_slice(text);
}

fn padded_text(text: &[u8]) -> [u8; BODY_LIMIT]
    requires { length text.now ≤ BODY_LIMIT }
    ensures { result ≡ padded BODY_LIMIT text.now }
{
    let mut bytes = [0; BODY_LIMIT];
    put_text(&mut bytes, text);
    bytes
}

/// The cells of an absent body.
#[tactic(auto, using(crate::proofs::CutLaws::zeros_are_cut))]
pub fn no_cells() -> Cells
    ensures { result ≡ cut_body None }
{
    [[0; CELL_LENGTH]; BODY_CELLS]
}

/// A body cut into cells; behind it are zeros.
#[tactic(auto, unfolding(crate::specs::Heads::cells_of_body))]
pub fn cells_of_body(body: &Body) -> Cells
    ensures { result ≡ cut_body body.now }
{
    cut_whole(&padded_text(body.text()))
}
