//! The cells at which an agent can never be, and the grid without those of them at which others come to rest.
#![tactic(auto)]

ghost use Rattle.std.specs.Prelude.{◌≡◌, ℕ, ◌+◌, ◌*◌, ◌↔◌, IsTrue, IfOk, length};
ghost use Rattle.wh_grid.specs.declared.cell.Cell.{Cell as Spot};
ghost use Rattle.wh_detours.specs.Closed.{IsClosed, IsWithoutClosed, AreClosed, IsClosing};

use crate::taken::without_taken;
use std::alloc::{AllocError, Global};
use wh_grid::{Cell, Grid};
use wh_path::TimedPath;
use wh_resv::Reservations;
use wh_search::manhattan::manhattan;

/// Whether an agent that is at `loc` can never be at a cell: somebody is there at each time from which on it could be, as it
/// takes a step for each column and row by which they are apart.
pub fn is_closed(others: &Reservations, loc: Cell, cell: Cell) -> bool
    ensures { IsTrue result ↔ IsClosed others.now loc cell }
{
    others.next_free(cell, manhattan(loc, cell)).is_none()
}

/// Bars the cell at which a path with steps left ends, where an agent that is at `loc` can never be there.
fn bar(walkable: &mut [bool], grid: &Grid, others: &Reservations, loc: Cell, path: &TimedPath)
    requires { length walkable.old ≡ length grid.now.walkable }
    ensures { IsClosing grid.now others.now loc walkable.old walkable.new }
{
    if path.remaining() == 0 {
        return;
    }
    let cell = path.end();
    if grid.passable(cell) && is_closed(others, loc, cell) {
        walkable[cell.y as usize * grid.width() as usize + cell.x as usize] = false;
    }
}

/// The same grid without the cells at which these paths come to rest before an agent that is at `loc` can be there. Needs one
/// byte per cell; fails when out of memory.
fn without_closed(
    alloc: Global,
    grid: &Grid,
    others: &Reservations,
    paths: &[TimedPath],
    loc: Cell,
) -> Result<Grid, AllocError>
    ensures { IfOk result (λ without. IsWithoutClosed grid.now others.now loc without) }
{
    let mut walkable = grid.rows().to_vec(alloc)?;
    for path in paths {
        bar(&mut walkable, grid, others, loc, path);
    }
    Ok(Grid::new(grid.width(), grid.height(), walkable))
}

/// The same grid without the cells at which others stay, or come to rest before an agent that is at `loc` can be there, as
/// far as they do by these paths.
pub fn without_shut(
    alloc: Global,
    grid: &Grid,
    others: &Reservations,
    paths: &[TimedPath],
    loc: Cell,
) -> Result<Grid, AllocError>
    ensures { IfOk result (λ without. IsWithoutClosed grid.now others.now loc without) }
{
    let stayed = without_taken(alloc, grid, others, paths)?;
    without_closed(alloc, &stayed, others, paths, loc)
}
