//! Shortest walks that avoid some cells.
#![tactic(auto)]

ghost use Rattle.std.specs.Prelude.{◌≡◌, ℕ, ◌+◌, ◌*◌, ◌<◌, ◌≤◌, List, [], ◌∷◌, IfOk, IfSome, IfNone, length};
ghost use Rattle.wh_grid.specs.declared.cell.Cell.{Cell};
ghost use Rattle.wh_path.specs.Paths.{cell_at};
ghost use Rattle.wh_field.specs.Distances.{IsRoute, IsLeastRoute, IsNearestRoute};
ghost use Rattle.wh_field.specs.Places.{IsSurveyed, IsFalling, IsAllowed, IsNearer, IsDescent, IsSteps, IsNearestBefore, place};
ghost use Rattle.wh_field.specs.Tables.{value};

use crate::opening::{place_of, survey, survey_until};
use crate::table::BLOCKED;
use std::alloc::{AllocError, Global};
use wh_grid::{Cell, Grid};
use wh_path::TimedPath;

/// A neighbour of a cell that is one step nearer to the end.
fn nearer(grid: &Grid, to: Cell, avoid: &[Cell], table: &[u32], cell: Cell, steps: u32) -> Cell
    requires surveyed { IsFalling grid.now avoid.now (to ∷ []) table.now }
    requires allowed { IsAllowed grid.now avoid.now cell }
    requires further { value table.now (place grid.now cell) ≡ steps + 1 }
    requires met { steps + 1 < BLOCKED }
    ensures { IsNearer grid.now avoid.now table.now cell steps result }
{
    let stride = grid.width() as usize + 1;
    let _height = grid.height();
    let place = (cell.y as usize + 1) * stride + cell.x as usize;
    if table[place + 1] == steps {
        Cell {
            x: cell.x + 1,
            y: cell.y,
        }
    } else if table[place - 1] == steps {
        Cell {
            x: cell.x - 1,
            y: cell.y,
        }
    } else if table[place + stride] == steps {
        Cell {
            x: cell.x,
            y: cell.y + 1,
        }
    } else {
        Cell {
            x: cell.x,
            y: cell.y - 1,
        }
    }
}

/// The walk along falling distances.
fn walk_down(
    alloc: Global,
    grid: &Grid,
    to: Cell,
    avoid: &[Cell],
    table: &[u32],
    from: Cell,
    steps: u32,
) -> Result<TimedPath, AllocError>
    requires surveyed { IsFalling grid.now avoid.now (to ∷ []) table.now }
    requires allowed { IsAllowed grid.now avoid.now from }
    requires steps { value table.now (place grid.now from) ≡ steps }
    requires met { steps < BLOCKED }
    ensures { IfOk result (λ p. IsDescent grid.now avoid.now table.now from to steps 0 p) }
{
    let mut cells = Vec::with_capacity(alloc, steps as usize + 1)?;
    let mut cell = from;
    cells.push(cell)?;
    for k in 0..steps {
        cell = nearer(grid, to, avoid, table, cell, steps - k - 1);
        cells.push(cell)?;
    }
    Ok(TimedPath::over(cells))
}

/// A shortest walk from one cell to another that avoids some cells, not at its ends either;
/// none where there is none. Fails when out of memory.
pub fn route(
    alloc: Global,
    grid: &Grid,
    from: Cell,
    to: Cell,
    avoid: &[Cell],
) -> Result<Option<TimedPath>, AllocError>
    ensures found { IfOk result (λ r. IfSome r (λ p. IsLeastRoute grid.now from to avoid.now p)) }
    ensures none { IfOk result (λ r. IfNone r ((p : List Cell) → IsRoute grid.now from to avoid.now p → ⊥)) }
{
    match place_of(grid.width(), grid.height(), from) {
        Some(place) => {
            let table = survey_until(alloc, grid, to, avoid, place)?;
            let steps = table[place];
            if steps < BLOCKED {
                let path = walk_down(alloc, grid, to, avoid, &table, from, steps)?;
                Ok(Some(path))
            } else {
                Ok(None)
            }
        }
        None => Ok(None),
    }
}

/// How many steps lead to a cell; `BLOCKED` or more where none do.
fn steps_to(grid: &Grid, from: Cell, avoid: &[Cell], table: &[u32], to: Cell) -> u32
    requires surveyed { IsSurveyed grid.now avoid.now (from ∷ []) table.now }
    ensures { IsSteps grid.now avoid.now table.now from to result }
{
    match place_of(grid.width(), grid.height(), to) {
        Some(place) => table[place],
        None => BLOCKED,
    }
}

/// One of some cells, and how many steps lead there.
#[derive(Clone, Copy)]
struct Near {
    index: usize,
    steps: u32,
}

/// The first of the nearest; none where its steps are `BLOCKED`.
fn nearest_of(grid: &Grid, from: Cell, avoid: &[Cell], table: &[u32], targets: &[Cell]) -> Near
    requires surveyed { IsSurveyed grid.now avoid.now (from ∷ []) table.now }
    ensures { IsNearestBefore grid.now avoid.now table.now from targets.now (length targets.now) result.index result.steps }
{
    let mut near = Near {
        index: 0,
        steps: BLOCKED,
    };
    for k in 0..targets.len() {
        let steps = steps_to(grid, from, avoid, table, targets[k]);
        if steps < near.steps {
            near = Near { index: k, steps };
        }
    }
    near
}

/// A shortest walk, which avoids some cells, to the nearest of some others, and which of them
/// it is: the first of those that are as near. None where no such walk leads to any of them. Fails when out of memory.
pub fn route_to_nearest(
    alloc: Global,
    grid: &Grid,
    from: Cell,
    targets: &[Cell],
    avoid: &[Cell],
) -> Result<Option<(usize, TimedPath)>, AllocError>
    ensures found { IfOk result (λ r. IfSome r (λ near. IsNearestRoute grid.now from targets.now avoid.now near.0 near.1)) }
    ensures none { IfOk result (λ r. IfNone r ((j : ℕ) (p : List Cell) → j < length targets.now → IsRoute grid.now from (cell_at targets.now j) avoid.now p → ⊥)) }
{
    let table = survey(alloc, grid, from, avoid)?;
    let near = nearest_of(grid, from, avoid, &table, targets);
    if near.steps < BLOCKED {
        let to = targets[near.index];
        let mut path = walk_down(alloc, grid, from, avoid, &table, to, near.steps)?;
        path.reverse();
        Ok(Some((near.index, path)))
    } else {
        Ok(None)
    }
}
