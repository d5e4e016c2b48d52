//! Whether routes lead round some cells.
#![tactic(auto)]

ghost use Rattle.std.specs.Prelude.{◌≡◌, ◌↔◌, IsTrue, IfOk, Contains};
ghost use Rattle.wh_grid.specs.declared.cell.Cell.{Cell as Place};
ghost use Rattle.wh_planner.specs.Duties.{HasRoute, HasRoutes};

use std::alloc::{AllocError, Global};
use wh_field::{route, route_to_nearest};
use wh_grid::{Cell, Grid};

/// Whether a walk leads from one cell to the other and meets none of these.
fn has_route(
    alloc: Global,
    grid: &Grid,
    avoid: &[Cell],
    from: Cell,
    to: Cell,
) -> Result<bool, AllocError>
    ensures { IfOk result (λ b. IsTrue b ↔ HasRoute grid.now avoid.now from to) }
{
    let found = route(alloc, grid, from, to, avoid)?;
    Ok(found.is_some())
}

/// Whether from the cell to the first stop, and from each stop to the next one, a walk leads that meets none of these.
pub fn has_routes(
    alloc: Global,
    grid: &Grid,
    avoid: &[Cell],
    from: Cell,
    stops: &[Cell],
) -> Result<bool, AllocError>
    ensures { IfOk result (λ b. IsTrue b ↔ HasRoutes grid.now avoid.now from stops.now) }
{
    let mut here = from;
    for i in 0..stops.len() {
        let stop = stops[i];
        if !has_route(alloc, grid, avoid, here, stop)? {
            return Ok(false);
        }
        here = stop;
    }
    Ok(true)
}

/// Whether to any of some cells a walk leads that meets none of these. The grid is filled once.
pub fn has_route_to_any(
    alloc: Global,
    grid: &Grid,
    avoid: &[Cell],
    from: Cell,
    cells: &[Cell],
) -> Result<bool, AllocError>
    ensures { IfOk result (λ b. IsTrue b ↔ ((cell : Place) × Contains cells.now cell × HasRoute grid.now avoid.now from cell)) }
{
    let found = route_to_nearest(alloc, grid, from, cells, avoid)?;
    Ok(found.is_some())
}
