//! The cells to which one step leads.
#![tactic(auto)]

ghost use Rattle.std.specs.Prelude.{◌≡◌, ℕ, ◌<◌, ◌^◌, All, Contains, length};
ghost use Rattle.wh_grid.specs.declared.cell.Cell.{Cell};
ghost use Rattle.wh_grid.specs.Grids.{IsMove};
ghost use Rattle.wh_field.specs.Sides.{around};
ghost use Rattle.wh_search.specs.Ways.{cell_beside};

use wh_grid::Cell;

/// The cells to which one step leads. At the border some of them are the cell itself.
pub fn moves_from(from: Cell) -> [Cell; 5]
    ensures five { length result ≡ 5 }
    ensures same { result ≡ around from }
    ensures moves { All (λ c. IsMove from c) result }
    ensures complete { (c : Cell) → c.x < 2 ^ 16 → c.y < 2 ^ 16 → IsMove from c → Contains result c }
{
    [
        from,
        Cell {
            x: from.x.saturating_sub(1),
            y: from.y,
        },
        Cell {
            x: from.x.saturating_add(1),
            y: from.y,
        },
        Cell {
            x: from.x,
            y: from.y.saturating_sub(1),
        },
        Cell {
            x: from.x,
            y: from.y.saturating_add(1),
        },
    ]
}

/// How far each of these moves leads to the right and down, where a step back is one that wraps.
const ACROSS: [u16; 5] = [0, u16::MAX, 1, 0, 0];

const DOWN: [u16; 5] = [0, 0, 0, u16::MAX, 1];

/// The cell to which one of these moves leads that does not stay at the border.
#[inline(always)]
pub(crate) fn move_by(from: Cell, by: usize) -> Cell
    requires few { by < 5 }
    requires inside { cell_beside from by ≡ from → by ≡ 0 }
    ensures same { result ≡ cell_beside from by }
    ensures near { IsMove from result }
{
    Cell {
        x: from.x.wrapping_add(ACROSS[by]),
        y: from.y.wrapping_add(DOWN[by]),
    }
}
