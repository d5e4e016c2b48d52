//! Lists that have a grid row by row.
#![tactic(auto)]

ghost use Rattle.std.specs.Prelude.{◌≡◌, ◌+◌, ◌*◌, ◌<◌, ◌≤◌, ◌^◌, ◌↔◌, ◌++◌, ◌∷◌, [], List, IsTrue, IfOk, All, Contains, length, vec_len};
ghost use Rattle.wh_grid.specs.declared.cell.Cell.{Cell};
ghost use Rattle.wh_grid.specs.Grids.{IsMove, IsAdjacent};
ghost use Rattle.wh_formed.specs.Fills.{IsMarked, IsOpenTable, place};
ghost use Rattle.wh_formed.specs.Labels.{cell_at};

use std::alloc::{AllocError, Global};
use wh_grid::{Cell, Grid};

/// How many places a list has that has the grid row by row.
pub fn places(grid: &Grid) -> usize
    ensures value { result ≡ grid.now.width * grid.now.height }
    ensures bound { result ≤ 2 ^ 24 }
{
    grid.width() as usize * grid.height() as usize
}

/// Whether a cell lies within the sides.
pub fn is_inside(grid: &Grid, cell: Cell) -> bool
    ensures { IsTrue result ↔ ((cell.x < grid.now.width) × (cell.y < grid.now.height)) }
{
    cell.x < grid.width() && cell.y < grid.height()
}

/// The place of a cell within the sides.
pub fn place_of(grid: &Grid, cell: Cell) -> usize
    requires in_width { cell.x < grid.now.width }
    requires in_height { cell.y < grid.now.height }
    ensures value { result ≡ place grid.now cell }
    ensures bound { result < grid.now.width * grid.now.height }
{
    // The proof reads its bound here.
    let _height = grid.height();
    cell.y as usize * grid.width() as usize + cell.x as usize
}

/// The cell of a place.
pub fn cell_of(grid: &Grid, i: usize) -> Cell
    requires { i < grid.now.width * grid.now.height }
    ensures { result ≡ cell_at grid.now i }
{
    let width = grid.width() as usize;
    // The proof reads its bound here.
    let _height = grid.height();
    Cell {
        x: (i % width) as u16,
        y: (i / width) as u16,
    }
}

/// Whether a cell is marked. No cell outside is.
pub fn is_marked(grid: &Grid, marks: &[bool], cell: Cell) -> bool
    requires { length marks.now ≡ grid.now.width * grid.now.height }
    ensures { IsTrue result ↔ IsMarked grid.now marks.now cell }
{
    is_inside(grid, cell) && marks[place_of(grid, cell)]
}

/// The neighbours of a cell, among them all that lie within the sides. Where a coordinate ends they
/// have the cell itself. Those of its row come last, so that a queue that gives back what came last
/// goes along rows.
pub fn neighbours(grid: &Grid, of: Cell) -> [Cell; 4]
    ensures four { length result ≡ 4 }
    ensures moves { All (λ r. IsMove of r) result }
    ensures complete { (r : Cell) → r.x < grid.now.width → r.y < grid.now.height → IsAdjacent of r → Contains result r }
{
    // No neighbour within the sides is lost: the proof reads their bounds here.
    let _sides = (grid.width(), grid.height());
    [
        Cell {
            x: of.x,
            y: of.y.saturating_sub(1),
        },
        Cell {
            x: of.x,
            y: of.y.saturating_add(1),
        },
        Cell {
            x: of.x.saturating_sub(1),
            y: of.y,
        },
        Cell {
            x: of.x.saturating_add(1),
            y: of.y,
        },
    ]
}

/// Takes the mark of one more point away.
fn close(grid: &Grid, open_cells: &mut Vec<bool>, point: Cell)
    requires { vec_len open_cells.old ≡ grid.now.width * grid.now.height }
    ensures { (points : List Cell) → IsOpenTable grid.now points open_cells.old.items → IsOpenTable grid.now (points ++ point ∷ []) open_cells.new.items }
{
    if !is_inside(grid, point) {
        return;
    }
    let place = place_of(grid, point);
    open_cells[place] = false;
}

/// Marks the passable cells that are no point.
pub fn open_table(alloc: Global, grid: &Grid, points: &[Cell]) -> Result<Vec<bool>, AllocError>
    ensures { IfOk result (λ v. IsOpenTable grid.now points.now v.items) }
{
    let mut open_cells = grid.rows().to_vec(alloc)?;
    for point in points {
        close(grid, &mut open_cells, *point);
    }
    Ok(open_cells)
}
