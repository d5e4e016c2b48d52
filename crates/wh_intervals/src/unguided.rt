//! The call for a task of two to eight stops by no field: along columns and rows alone.
#![tactic(auto)]

ghost use Rattle.std.specs.Prelude.{◌≡◌, ℕ, ◌-◌, ◌≤◌, ◌↔◌, IfOk, IfSome, List, length};
ghost use Rattle.wh_grid.specs.declared.cell.Cell.{Cell};
ghost use Rattle.wh_grid.specs.Grids.{IsPassable};
ghost use Rattle.wh_path.specs.Paths.{cell_at, last_index};
ghost use Rattle.wh_resv.specs.Others.{MayRest};
ghost use Rattle.wh_resv.specs.Calls.{IsVacant};
ghost use Rattle.wh_search.specs.Deliveries.{AreStops, IsDelivery, IsLawful};
ghost use Rattle.wh_search.specs.Frontiers.{IsErrand};
ghost use Rattle.wh_search.specs.Manhattan.{IsOnwardByManhattan};
ghost use Rattle.wh_intervals.specs.Tasks.{IsTaskOf};

use std::alloc::{AllocError, Global};
use wh_grid::{Cell, Grid};
use wh_path::TimedPath;
use wh_resv::Reservations;
use wh_search::errand::{Errand, arrive, first_end};
use wh_search::guide::Guide;
use wh_search::manhattan::onward_by_manhattan;
use wh_search::{SearchMemory, try_straight};

/// From how many steps on it is looked for a path along columns and rows. A field to guide a way may cost the square of its
/// steps, and this look some times the steps: for short ways, whose fields many share, it gains nothing.
const LONG: u64 = 128;

/// What is searched for: a path through the stops, by the Manhattan distance to them and the estimate from each stop on,
/// where nobody may rest at the last one before `soonest`.
fn manhattan_errand<'x>(
    grid: &'x Grid,
    others: &'x Reservations<'x>,
    loc: Cell,
    stops: &'x [Cell],
    onward: &'x [u64],
    soonest: u64,
) -> Errand<'x>
    requires inside { IsPassable grid.now loc }
    requires stops { AreStops stops.now }
    requires onward { IsOnwardByManhattan stops.now onward.now }
    requires soonest { (k : ℕ) → MayRest others.now (cell_at stops.now (length stops.now - 1)) k ↔ soonest ≤ k }
    ensures task { IsTaskOf grid.now others.now loc stops.now result }
    ensures errand { IsErrand result }
{
    let last = stops.len() - 1;
    let via = &stops[..last];
    let ends = &stops[last..];
    let horizon = others.horizon();
    let errand = Errand {
        grid,
        others,
        loc,
        via,
        ends,
        guide: Guide::Manhattan { stops, onward },
        first: arrive(via, 0, loc),
        horizon,
        limit: horizon + stops.len() as u64 * u64::from(grid.cells()),
        soonest,
        exact: true,
        least: first_end(others, stops[last], soonest),
    };
    errand.with_waits()
}

/// A lawful path from loc through the stops with the least last index, where it is a long one that leads along columns and
/// rows, with no step back or aside, and is soon found; in memory that is kept from one search to the next. It needs no
/// field. Where there is none, nothing is said.
pub fn deliver_unguided(
    alloc: Global,
    memory: &mut SearchMemory,
    grid: &Grid,
    others: &Reservations,
    loc: Cell,
    stops: &[Cell],
    effort: &mut u64,
) -> Result<Option<TimedPath>, AllocError>
    requires inside { IsPassable grid.now loc }
    requires clear { IsVacant others.now.paths loc 0 }
    requires stops { AreStops stops.now }
    ensures lawful { IfOk result (λ found. IfSome found (IsLawful grid.now others.now loc stops.now)) }
    ensures least { IfOk result (λ found. IfSome found (λ p. (q : List Cell) → IsDelivery grid.now others.now loc stops.now q → last_index p ≤ last_index q)) }
    ensures effort { effort.new ≤ effort.old }
{
    let Some(soonest) = others.not_before(stops[stops.len() - 1]) else {
        return Ok(None);
    };
    let onward = onward_by_manhattan(alloc, stops)?;
    let errand = manhattan_errand(grid, others, loc, stops, &onward, soonest);
    let whole = errand.guide.estimate(errand.first, loc);
    if whole < LONG {
        return Ok(None);
    }
    try_straight(alloc, memory, &errand, whole, effort)
}
