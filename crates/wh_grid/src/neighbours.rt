//! The cells beside a cell.

ghost use Rattle.std.specs.Prelude.{◌≡◌, ◌≢◌, ◌+◌, ◌<◌, ◌≤◌, ◌↔◌, ◌++◌, List, IfSome, IfNone, Contains};
ghost use Rattle.std.specs.List.{AllPairs};
ghost use Rattle.arrayvec.specs.ArrayVec.{array_vec_len};
ghost use Rattle.wh_grid.specs.declared.cell.Cell.{Cell};
ghost use Rattle.wh_grid.specs.Grids.{IsPassable, IsAdjacent};
ghost use Rattle.wh_grid.specs.Candidates.{listed, AreOpen};

use crate::cell::Cell;
use crate::grid::Grid;
use arrayvec::ArrayVec;

fn above(cell: Cell) -> Option<Cell>
    ensures some { IfSome result (λ d. (d.x ≡ cell.x) × (d.y + 1 ≡ cell.y)) }
    ensures none { IfNone result (cell.y ≡ 0) }
{
    let y = cell.y.checked_sub(1)?;
    Some(Cell { x: cell.x, y })
}

fn below(cell: Cell, height: u16) -> Option<Cell>
    ensures some { IfSome result (λ d. (d.x ≡ cell.x) × (d.y ≡ cell.y + 1)) }
    ensures none { IfNone result (height ≤ cell.y) }
{
    if cell.y < height {
        Some(Cell {
            x: cell.x,
            y: cell.y + 1,
        })
    } else {
        None
    }
}

fn left(cell: Cell) -> Option<Cell>
    ensures some { IfSome result (λ d. (d.y ≡ cell.y) × (d.x + 1 ≡ cell.x)) }
    ensures none { IfNone result (cell.x ≡ 0) }
{
    let x = cell.x.checked_sub(1)?;
    Some(Cell { x, y: cell.y })
}

fn right(cell: Cell, width: u16) -> Option<Cell>
    ensures some { IfSome result (λ d. (d.y ≡ cell.y) × (d.x ≡ cell.x + 1)) }
    ensures none { IfNone result (width ≤ cell.x) }
{
    if cell.x < width {
        Some(Cell {
            x: cell.x + 1,
            y: cell.y,
        })
    } else {
        None
    }
}

impl Grid {
    /// Adds a cell, if there is one and it is passable.
    fn add_open(&self, found: &mut ArrayVec<Cell, 4>, cell: Option<Cell>)
        requires { array_vec_len found.old < 4 }
        ensures len { array_vec_len found.new ≤ array_vec_len found.old + 1 }
        ensures open { (seen : List Cell) → AreOpen self.now seen found.old.items → IfSome cell (λ d. Contains seen d → ⊥) → AreOpen self.now (seen ++ listed cell) found.new.items }
    {
        if let Some(cell) = cell {
            if self.passable(cell) {
                found.push(cell);
            }
        }
    }

    /// The passable cells beside a cell, which differ from it by 1 in one coordinate; none is there twice.
    pub fn neighbours(&self, cell: Cell) -> ArrayVec<Cell, 4>
        ensures exact { (d : Cell) → Contains result.items d ↔ (IsPassable self.now d × IsAdjacent cell d) }
        ensures apart { AllPairs (λ a b. a ≢ b) result.items }
    {
        let mut found = ArrayVec::new();
        self.add_open(&mut found, above(cell));
        self.add_open(&mut found, below(cell, self.height()));
        self.add_open(&mut found, left(cell));
        self.add_open(&mut found, right(cell, self.width()));
        found
    }
}
