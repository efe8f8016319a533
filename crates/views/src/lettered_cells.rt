//! The cells that have a letter.
ghost use Rattle.std.specs.Prelude.{◌≡◌, ◌||◌, IfOk};
ghost use Rattle.cells.specs.Cell.{is_at};
ghost use Rattle.cells.specs.Cells.{has, cells_where};
ghost use Rattle.views.specs.Lettered.{has_letter, with_lettered};

use cells::{Cell, CellSet, Size};
use names::Memory;
use std::alloc::Global;

/// Adds the cell, where it is on the map.
fn add_on_map(cells: &mut CellSet, cell: Cell)
    ensures { cells.new ≡ cells_where cells.old.extent (λ x y. has cells.old x y || is_at cell x y) }
{
    if cells.size().has(cell) {
        cells.add(cell);
    }
}

/// Adds the cells that have a letter and are on the map.
fn add_lettered(cells: &mut CellSet, letters: &[(Cell, u8)])
    ensures { cells.new ≡ with_lettered cells.old letters.now }
{
    // Opens the set, so that the proof knows that its cells tell it.
    let _ = cells.size();
    for (cell, _) in letters {
        add_on_map(cells, *cell);
    }
}

/// The cells of a map of that size that have a letter, or `Memory` for want of memory.
pub fn lettered(alloc: Global, size: Size, letters: &[(Cell, u8)]) -> Result<CellSet, Memory>
    ensures { IfOk result (λ cells. cells ≡ cells_where size (has_letter letters.now)) }
{
    let mut cells = CellSet::new(alloc, size)?;
    add_lettered(&mut cells, letters);
    Ok(cells)
}
