//! Rectangles of cells that are added to a set, or taken out.
ghost use Rattle.std.specs.Prelude.{◌≡◌, ◌<◌, cond};
ghost use Rattle.cells.specs.Cells.{cells_where, has};
ghost use Rattle.cells.specs.Cell.{is_at};
ghost use Rattle.cells.specs.Rects.{is_in};
ghost use Rattle.fog_book.specs.Rects.{with_rect};

use cells::{Cell, CellSet, Rect};

/// Adds the rectangle's cells of the map where `shown`, and otherwise takes them out.
pub(crate) fn set_rect(cells: &mut CellSet, rect: Rect, shown: bool)
    ensures { cells.new ≡ with_rect cells.old rect shown }
{
    let size = cells.size();
    for y in 0..size.h() {
        for x in 0..size.w() {
            if is_in(rect, x, y) {
                set_cell(cells, Cell { x, y }, shown);
            }
        }
    }
}

/// Whether the cell is in the rectangle.
fn is_in(rect: Rect, x: u8, y: u8) -> bool
    ensures { result ≡ is_in rect x y }
{
    rect.x <= x && x - rect.x < rect.w && rect.y <= y && y - rect.y < rect.h
}

/// Adds the cell where `shown`, and otherwise takes it out.
fn set_cell(cells: &mut CellSet, cell: Cell, shown: bool)
    requires column { cell.x < cells.old.extent.w }
    requires row { cell.y < cells.old.extent.h }
    ensures { cells.new ≡ cells_where cells.old.extent (λ x y. cond (is_at cell x y) shown (has cells.old x y)) }
{
    if shown {
        cells.add(cell);
    } else {
        cells.remove(cell);
    }
}
