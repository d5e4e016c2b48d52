//! The calls for parking.
#![tactic(auto)]

ghost use Rattle.std.specs.Prelude.{◌≡◌, ℕ, ◌+◌, ◌*◌, ◌<◌, ◌≤◌, ◌^◌, List, [], IfOk, IfErr, MatchOption};
ghost use Rattle.wh_grid.specs.declared.cell.Cell.{Cell};
ghost use Rattle.wh_grid.specs.Grids.{IsPassable};
ghost use Rattle.wh_path.specs.Paths.{last_index};
ghost use Rattle.wh_resv.specs.Calls.{IsVacant};
ghost use Rattle.wh_search.specs.Deliveries.{IfNoPath};
ghost use Rattle.wh_search.specs.Frontiers.{IsErrand};
ghost use Rattle.wh_search.specs.Guides.{guide_estimate, nearest_by};
ghost use Rattle.wh_search.specs.Parkings.{IsParking, IsLeastParking};
ghost use Rattle.wh_intervals.specs.Tasks.{IsErrandOf};
ghost use Rattle.wh_intervals.specs.Late.{IsLateParking};

use crate::least::over_intervals;
use std::alloc::{AllocError, Global};
use wh_field::NearestField;
use wh_grid::{Cell, Grid};
use wh_path::TimedPath;
use wh_resv::Reservations;
use wh_search::errand::Errand;
use wh_search::guide::Guide;
use wh_search::{Fault, SearchMemory, Unfinished, find_straight};

/// What is searched for: a path to one of the allowed cells, by their field.
fn errand_to_nearest<'x>(
    grid: &'x Grid,
    others: &'x Reservations<'x>,
    loc: Cell,
    allowed: &'x [Cell],
    field: &'x NearestField,
) -> Errand<'x>
    requires inside { IsPassable grid.now loc }
    requires grid { field.now.grid ≡ grid.now }
    requires ends { field.now.cells ≡ allowed.now }
    ensures errand { IsErrand result }
    ensures parks { IsErrandOf grid.now others.now loc [] allowed.now result }
    ensures estimate { guide_estimate result.guide result.first result.loc ≡ nearest_by field.now loc }
{
    let horizon = others.horizon();
    Errand {
        grid,
        others,
        loc,
        via: &[],
        ends: allowed,
        guide: Guide::Nearest { field },
        first: 0,
        horizon,
        limit: horizon + u64::from(grid.cells()),
        soonest: 0,
        exact: false,
        least: 0,
    }
}

/// A shortest path to one of the allowed cells, of no more steps than their field estimates; or none, where each path
/// has more, or no expansions are left.
fn find_near(
    alloc: Global,
    memory: &mut SearchMemory,
    grid: &Grid,
    others: &Reservations,
    loc: Cell,
    allowed: &[Cell],
    field: &NearestField,
    effort: &mut u64,
) -> Result<Option<TimedPath>, AllocError>
    requires inside { IsPassable grid.now loc }
    requires clear { IsVacant others.now.paths loc 0 }
    requires grid { field.now.grid ≡ grid.now }
    requires ends { field.now.cells ≡ allowed.now }
    ensures found { IfOk result (λ found. MatchOption found
        ((q : List Cell) → IsParking grid.now others.now loc allowed.now q → 0 < effort.new → nearest_by field.now loc < last_index q)
        (λ p. IsLeastParking grid.now others.now loc allowed.now p)) }
    ensures effort { effort.new ≤ effort.old }
{
    let errand = errand_to_nearest(grid, others, loc, allowed, field);
    find_straight(alloc, memory, &errand, effort)
}

/// A path to one of the allowed cells that is late by no more than `slack` steps, or none, by their field; none has fewer steps
/// than `least`.
fn find_far(
    alloc: Global,
    grid: &Grid,
    others: &Reservations,
    loc: Cell,
    allowed: &[Cell],
    field: &NearestField,
    least: u64,
    slack: u64,
    effort: &mut u64,
) -> Result<Option<TimedPath>, Unfinished>
    requires inside { IsPassable grid.now loc }
    requires clear { IsVacant others.now.paths loc 0 }
    requires grid { field.now.grid ≡ grid.now }
    requires ends { field.now.cells ≡ allowed.now }
    requires least { (q : List Cell) → IsParking grid.now others.now loc allowed.now q → least ≤ last_index q }
    ensures found { IfOk result (λ found. MatchOption found
        ((q : List Cell) → IsParking grid.now others.now loc allowed.now q → ⊥)
        (λ p. IsLateParking grid.now others.now loc allowed.now slack p)) }
    ensures effort { effort.new ≤ effort.old }
    ensures given_up { IfErr result (λ e. e ≡ Unfinished.Effort → effort.new ≡ 0) }
{
    let errand = errand_to_nearest(grid, others, loc, allowed, field);
    over_intervals(alloc, &errand, least, slack, effort)
}

/// A path to one of the allowed cells that is late by no more than `slack` steps, or none. Their field is filled as far as
/// loc, and all of it where no path has so few steps: beyond what is filled all cells are alike, and the search would look
/// at too many.
#[tactic(auto, using(crate::proofs::Late::parking_late))]
fn find_nearest(
    alloc: Global,
    memory: &mut SearchMemory,
    grid: &Grid,
    others: &Reservations,
    loc: Cell,
    allowed: &[Cell],
    slack: u64,
    effort: &mut u64,
) -> Result<Option<TimedPath>, Unfinished>
    requires inside { IsPassable grid.now loc }
    requires clear { IsVacant others.now.paths loc 0 }
    ensures found { IfOk result (λ found. MatchOption found
        ((q : List Cell) → IsParking grid.now others.now loc allowed.now q → ⊥)
        (λ p. IsLateParking grid.now others.now loc allowed.now slack p)) }
    ensures effort { effort.new ≤ effort.old }
    ensures given_up { IfErr result (λ e. e ≡ Unfinished.Effort → effort.new ≡ 0) }
{
    let mut field = NearestField::until(alloc, grid, allowed, loc)?;
    let near = find_near(alloc, memory, grid, others, loc, allowed, &field, effort)?;
    if let Some(path) = near {
        return Ok(Some(path));
    }
    if *effort == 0 {
        return Err(Unfinished::Effort);
    }
    let least = u64::from(field.estimate(loc)) + 1;
    field.fill();
    find_far(
        alloc, grid, others, loc, allowed, &field, least, slack, effort,
    )
}

/// A lawful path from loc to one of the allowed cells that is late by no more than `slack` steps; it makes the field of them
/// all, as far as it must, in memory that is kept from one search to the next. `NoPath` exactly if no path parks, however
/// long; `NoMemory` if memory ran out; `Effort` if it takes more expansions than are left, and none are left then.
pub fn park_in(
    alloc: Global,
    memory: &mut SearchMemory,
    grid: &Grid,
    others: &Reservations,
    loc: Cell,
    allowed: &[Cell],
    slack: u64,
    effort: &mut u64,
) -> Result<TimedPath, Fault>
    requires inside { IsPassable grid.now loc }
    requires clear { IsVacant others.now.paths loc 0 }
    ensures late { IfOk result (IsLateParking grid.now others.now loc allowed.now slack) }
    ensures none { IfNoPath result ((q : List Cell) → IsParking grid.now others.now loc allowed.now q → ⊥) }
    ensures effort { effort.new ≤ effort.old }
    ensures given_up { IfErr result (λ e. e ≡ Fault.Effort → effort.new ≡ 0) }
{
    match find_nearest(alloc, memory, grid, others, loc, allowed, slack, effort) {
        Ok(Some(path)) => Ok(path),
        Ok(None) => Err(Fault::NoPath),
        Err(Unfinished::NoMemory) => Err(Fault::NoMemory),
        Err(Unfinished::Effort) => Err(Fault::Effort),
    }
}

/// As `park_in`, in memory of its own, with the least last index.
pub fn park(
    alloc: Global,
    grid: &Grid,
    others: &Reservations,
    loc: Cell,
    allowed: &[Cell],
) -> Result<TimedPath, Fault>
    requires inside { IsPassable grid.now loc }
    requires clear { IsVacant others.now.paths loc 0 }
    ensures least { IfOk result (λ p. IsLeastParking grid.now others.now loc allowed.now p) }
    ensures none { IfNoPath result ((q : List Cell) → IsParking grid.now others.now loc allowed.now q → ⊥) }
{
    let mut memory = SearchMemory::empty(alloc);
    let mut effort = u64::MAX;
    park_in(
        alloc,
        &mut memory,
        grid,
        others,
        loc,
        allowed,
        0,
        &mut effort,
    )
}
