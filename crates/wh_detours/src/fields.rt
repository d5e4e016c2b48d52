//! The fields of the stops over a grid that is made for one search.
#![tactic(auto)]

ghost use Rattle.std.specs.Prelude.{◌≡◌, ℕ, ◌<◌, ◌≤◌, IfOk, IfSome, None, length, slice_index_or};
ghost use Rattle.wh_path.specs.Paths.{cell_at};
ghost use Rattle.wh_intervals.specs.Tasks.{IsSightOver, AreSightsOver};
ghost use Rattle.wh_detours.specs.Filled.{IsFilledFor, IsFilledIf, AreFilled, IsSightFor};

use crate::filled::Filled;
use std::alloc::{AllocError, Global};
use wh_field::{GrowingField, MOST_LEVEL, Sight};
use wh_grid::{Cell, Grid};

/// How many steps beyond its distance a leg's field is filled.
const FARTHER: u32 = 16;

/// The field of a stop, filled until it has met a cell, and some steps farther; all of it where no walk leads there.
fn filled_from(alloc: Global, grid: &Grid, stop: Cell, cell: Cell) -> Result<Filled, AllocError>
    ensures { IfOk result (λ f. IsFilledFor grid.now cell stop f) }
{
    let mut field = GrowingField::from(alloc, grid, stop)?;
    let level = match field.reach(cell) {
        Some(steps) => steps.saturating_add(FARTHER).min(MOST_LEVEL),
        None => MOST_LEVEL,
    };
    field.fill_to(level);
    Ok(Filled { field, level })
}

/// The same, where it is wanted.
fn filled_if(
    alloc: Global,
    grid: &Grid,
    stop: Cell,
    cell: Cell,
    wanted: bool,
) -> Result<Option<Filled>, AllocError>
    ensures { IfOk result (λ f. IsFilledIf grid.now cell stop wanted f) }
{
    if !wanted {
        return Ok(None);
    }
    let filled = filled_from(alloc, grid, stop, cell)?;
    Ok(Some(filled))
}

/// The wanted ones of the fields of the stops, each filled beyond the stop before it.
pub fn fields_over(
    alloc: Global,
    grid: &Grid,
    loc: Cell,
    stops: &[Cell],
    wanted: [bool; 9],
) -> Result<Vec<Option<Filled>>, AllocError>
    requires { length stops.now ≤ 9 }
    ensures { IfOk result (λ kept. AreFilled grid.now loc stops.now wanted (length stops.now) kept.items) }
{
    let mut kept = Vec::new(alloc);
    let mut before = loc;
    for i in 0..stops.len() {
        kept.push(filled_if(alloc, grid, stops[i], before, wanted[i])?)?;
        before = stops[i];
    }
    Ok(kept)
}

/// A field as far as its level, where it is there; else another sight of the same stop.
fn sight_or<'a>(
    grid: &Grid,
    stop: Cell,
    kept: &'a Option<Filled>,
    sight: Option<Sight<'a>>,
) -> Option<Sight<'a>>
    requires kept { IfSome kept.now (λ f. (f.field.grid ≡ grid.now) × (f.field.cell ≡ stop)) }
    requires sight { IsSightOver grid.now sight stop }
    ensures over { IsSightOver grid.now result stop }
    ensures which { IsSightFor kept.now sight.entry result }
{
    let _ = grid;
    let _ = stop;
    match kept {
        Some(filled) => Some(Sight::new(&filled.field, filled.level)),
        None => sight,
    }
}

/// These fields as far as their levels, each in its place, and for the other stops the sights that are there.
pub fn sights_over<'a>(
    grid: &Grid,
    loc: Cell,
    stops: &[Cell],
    wanted: [bool; 9],
    kept: &'a [Option<Filled>],
    sights: &'a [Option<Sight<'a>>],
) -> [Option<Sight<'a>>; 9]
    requires few { length stops.now ≤ 9 }
    requires filled { AreFilled grid.now loc stops.now wanted (length stops.now) kept.now }
    requires sights { AreSightsOver grid.now stops.now sights.now }
    ensures size { length result ≡ 9 }
    ensures each { (l : ℕ) → l < length stops.now → IsSightOver grid.now (slice_index_or result l None) (cell_at stops.now l) }
    ensures which { (l : ℕ) → l < length stops.now → IsSightFor (slice_index_or kept.now l None) (slice_index_or sights.now l None) (slice_index_or result l None) }
{
    let _ = loc;
    let _ = wanted;
    let mut all = [None; 9];
    for i in 0..stops.len() {
        all[i] = sight_or(grid, stops[i], &kept[i], sights[i]);
    }
    all
}
