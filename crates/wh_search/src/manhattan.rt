//! The Manhattan distance, which needs no field, and the estimate by it.
#![tactic(auto)]

ghost use Rattle.std.specs.Prelude.{◌≡◌, ◌≤◌, IfOk, length};
ghost use Rattle.wh_path.specs.Paths.{cell_at};
ghost use Rattle.wh_search.specs.Manhattan.{by_manhattan, manhattan, IsOnwardByManhattan};

use std::alloc::{AllocError, Global};
use wh_grid::Cell;

/// How many columns and rows two cells are apart: no walk from one to the other has fewer steps.
pub fn manhattan(from: Cell, to: Cell) -> u64
    ensures { result ≡ manhattan from to }
{
    u64::from(from.x.abs_diff(to.x)) + u64::from(from.y.abs_diff(to.y))
}

/// The distance and what is further on.
pub(crate) fn by_manhattan(stop: Cell, further: u64, cell: Cell) -> u64
    ensures { result ≡ by_manhattan stop further cell }
{
    further.saturating_add(manhattan(cell, stop))
}

/// The stop at a place; the first cell of all past the end.
pub(crate) fn stop_at(stops: &[Cell], i: usize) -> Cell
    ensures { result ≡ cell_at stops.now i }
{
    if i < stops.len() {
        stops[i]
    } else {
        Cell { x: 0, y: 0 }
    }
}

/// From the last stop back: the estimate from each stop on.
pub fn onward_by_manhattan(alloc: Global, stops: &[Cell]) -> Result<Vec<u64>, AllocError>
    requires stops { 2 ≤ length stops.now }
    ensures { IfOk result (λ onward. IsOnwardByManhattan stops.now onward.items) }
{
    let mut onward = vec![in alloc; 0; stops.len()]?;
    for done in 1..stops.len() {
        let leg = stops.len() - 1 - done;
        onward[leg] = by_manhattan(stops[leg + 1], onward[leg + 1], stops[leg]);
    }
    Ok(onward)
}
