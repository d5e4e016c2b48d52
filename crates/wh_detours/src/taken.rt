//! The cells at which somebody is at each time, and the grid without them.
#![tactic(auto)]

ghost use Rattle.std.specs.Prelude.{◌≡◌, ℕ, ◌*◌, ◌↔◌, IsTrue, IfOk, length};
ghost use Rattle.wh_detours.specs.Taken.{IsTaken, IsWithoutTaken, IsBarredIf};

use std::alloc::{AllocError, Global};
use wh_grid::{Cell, Grid};
use wh_path::TimedPath;
use wh_resv::Reservations;

/// Whether at each time somebody is at a cell.
fn is_taken(others: &Reservations, cell: Cell) -> bool
    ensures { IsTrue result ↔ IsTaken others.now cell }
{
    // mostly nobody is there now
    !others.vacant(cell, 0) && others.next_free(cell, 0).is_none()
}

/// Bars the cell of a path that stays there, where it is taken.
fn bar(walkable: &mut [bool], grid: &Grid, others: &Reservations, path: &TimedPath)
    requires { length walkable.old ≡ length grid.now.walkable }
    ensures { IsBarredIf grid.now others.now path.now walkable.old walkable.new }
{
    if path.remaining() > 0 {
        return;
    }
    let cell = path.at(0);
    if grid.passable(cell) && is_taken(others, cell) {
        walkable[cell.y as usize * grid.width() as usize + cell.x as usize] = false;
    }
}

/// The same grid without the cells at which somebody is at each time, as far as one of these paths stays there. Needs one
/// byte per cell; fails when out of memory.
pub fn without_taken(
    alloc: Global,
    grid: &Grid,
    others: &Reservations,
    paths: &[TimedPath],
) -> Result<Grid, AllocError>
    ensures { IfOk result (λ without. IsWithoutTaken grid.now others.now paths.now without) }
{
    let mut walkable = grid.rows().to_vec(alloc)?;
    for path in paths {
        bar(&mut walkable, grid, others, path);
    }
    Ok(Grid::new(grid.width(), grid.height(), walkable))
}
