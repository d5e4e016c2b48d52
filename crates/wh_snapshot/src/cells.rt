//! The ranges of cells.

ghost use Rattle.std.specs.List.{AllByRecursion};
ghost use Rattle.wh_front.specs.Ranges.{CellFits};

use wh_grid::Cell;

/// A cell has a column and a row of 16 bits. It does nothing: this is known of what is passed by value.
fn read(_cell: Cell)
    ensures { CellFits _cell }
{}

/// Each of these cells has.
pub fn read_all(cells: &[Cell])
    ensures { AllByRecursion CellFits cells.now }
{
    for cell in cells {
        read(*cell);
    }
}
