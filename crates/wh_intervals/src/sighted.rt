//! The call for a task of two to eight stops, by fields that are filled up to a level.
#![tactic(auto)]

ghost use Rattle.std.specs.Prelude.{◌≡◌, ℕ, ◌+◌, ◌-◌, ◌*◌, ◌<◌, ◌≤◌, ◌^◌, ◌↔◌, List, IfOk, IfErr, MatchOption, length};
ghost use Rattle.wh_grid.specs.declared.cell.Cell.{Cell};
ghost use Rattle.wh_grid.specs.Grids.{IsPassable};
ghost use Rattle.wh_resv.specs.Others.{MayRest};
ghost use Rattle.wh_resv.specs.Calls.{IsVacant};
ghost use Rattle.wh_path.specs.Paths.{last_index, cell_at};
ghost use Rattle.wh_search.specs.Deliveries.{IsDelivery, IsLawful, IfNoPath, AreStops};
ghost use Rattle.wh_search.specs.Frontiers.{IsErrand};
ghost use Rattle.wh_search.specs.Sights.{AreSightsOf, IsOnwardBySights};
ghost use Rattle.wh_intervals.specs.Tasks.{IsTaskOf, AreSightsOver};
ghost use Rattle.wh_intervals.specs.Late.{IsLateAtMost, IsLateDelivery};

use crate::least::find_least;
use std::alloc::Global;
use wh_field::Sight;
use wh_grid::{Cell, Grid};
use wh_path::TimedPath;
use wh_resv::Reservations;
use wh_search::errand::{Errand, arrive, first_end};
use wh_search::guide::{Guide, onward_by_sights};
use wh_search::{Fault, SearchMemory, Unfinished};

/// What is searched for: a path through the stops, by sights of them and the estimate from each stop on, where nobody may
/// rest at the last one before `soonest`.
pub fn sighted_errand<'x>(
    grid: &'x Grid,
    others: &'x Reservations<'x>,
    loc: Cell,
    stops: &'x [Cell],
    sights: &'x [Option<Sight<'x>>],
    onward: &'x [u64],
    soonest: u64,
) -> Errand<'x>
    requires inside { IsPassable grid.now loc }
    requires stops { AreStops stops.now }
    requires sights { AreSightsOver grid.now stops.now sights.now }
    requires onward { IsOnwardBySights sights.now stops.now onward.now }
    requires soonest { (k : ℕ) → MayRest others.now (cell_at stops.now (length stops.now - 1)) k ↔ soonest ≤ k }
    ensures task { IsTaskOf grid.now others.now loc stops.now result }
    ensures errand { IsErrand result }
{
    let last = stops.len() - 1;
    let via = &stops[..last];
    let ends = &stops[last..];
    let horizon = others.horizon();
    let errand = Errand {
        grid,
        others,
        loc,
        via,
        ends,
        guide: Guide::Sights { sights, onward },
        first: arrive(via, 0, loc),
        horizon,
        limit: horizon + stops.len() as u64 * u64::from(grid.cells()),
        soonest,
        exact: true,
        least: first_end(others, stops[last], soonest),
    };
    errand.with_waits()
}

/// A path that is late by no more than `slack` steps, or none where there is no delivery.
fn find_sighted<'x>(
    alloc: Global,
    memory: &mut SearchMemory,
    grid: &'x Grid,
    others: &'x Reservations<'x>,
    loc: Cell,
    stops: &'x [Cell],
    sights: &'x [Option<Sight<'x>>],
    slack: u64,
    effort: &mut u64,
) -> Result<Option<TimedPath>, Unfinished>
    requires inside { IsPassable grid.now loc }
    requires clear { IsVacant others.now.paths loc 0 }
    requires stops { AreStops stops.now }
    requires sights { AreSightsOver grid.now stops.now sights.now }
    ensures found { IfOk result (λ found. MatchOption found
        ((q : List Cell) → IsDelivery grid.now others.now loc stops.now q → ⊥)
        (λ p. IsLateDelivery grid.now others.now loc stops.now slack p)) }
    ensures effort { effort.new ≤ effort.old }
    ensures given_up { IfErr result (λ e. e ≡ Unfinished.Effort → effort.new ≡ 0) }
{
    let Some(soonest) = others.not_before(stops[stops.len() - 1]) else {
        return Ok(None);
    };
    let onward = onward_by_sights(alloc, stops, sights)?;
    let errand = sighted_errand(grid, others, loc, stops, sights, &onward, soonest);
    find_least(alloc, memory, &errand, slack, effort)
}

/// As `deliver_sighted`, but late by no more than `slack` steps, and by fields of which some may be over another grid, on
/// which no fewer cells may be walked on. It is given up where it takes more expansions than are left.
pub fn deliver_over<'x>(
    alloc: Global,
    memory: &mut SearchMemory,
    grid: &'x Grid,
    others: &'x Reservations<'x>,
    loc: Cell,
    stops: &'x [Cell],
    sights: &'x [Option<Sight<'x>>],
    slack: u64,
    effort: &mut u64,
) -> Result<TimedPath, Fault>
    requires inside { IsPassable grid.now loc }
    requires clear { IsVacant others.now.paths loc 0 }
    requires stops { AreStops stops.now }
    requires sights { AreSightsOver grid.now stops.now sights.now }
    ensures lawful { IfOk result (λ p. IsLawful grid.now others.now loc stops.now p) }
    ensures late { IfOk result (IsLateAtMost (IsDelivery grid.now others.now loc stops.now) slack) }
    ensures none { IfNoPath result ((q : List Cell) → IsDelivery grid.now others.now loc stops.now q → ⊥) }
    ensures effort { effort.new ≤ effort.old }
    ensures given_up { IfErr result (λ e. e ≡ Fault.Effort → effort.new ≡ 0) }
{
    match find_sighted(
        alloc, memory, grid, others, loc, stops, sights, slack, effort,
    ) {
        Ok(Some(path)) => Ok(path),
        Ok(None) => Err(Fault::NoPath),
        Err(Unfinished::NoMemory) => Err(Fault::NoMemory),
        Err(Unfinished::Effort) => Err(Fault::Effort),
    }
}

/// A lawful path from loc through the stops, with the least last index, guided by fields that are filled up to a
/// level; in memory that is kept from one search to the next. A level may make the search longer, never the path.
/// `NoPath` exactly if no path delivers, however long; `NoMemory` if memory ran out.
pub fn deliver_sighted<'x>(
    alloc: Global,
    memory: &mut SearchMemory,
    grid: &'x Grid,
    others: &'x Reservations<'x>,
    loc: Cell,
    stops: &'x [Cell],
    sights: &'x [Option<Sight<'x>>],
) -> Result<TimedPath, Fault>
    requires inside { IsPassable grid.now loc }
    requires clear { IsVacant others.now.paths loc 0 }
    requires stops { AreStops stops.now }
    requires sights { AreSightsOf grid.now stops.now sights.now }
    ensures lawful { IfOk result (λ p. IsLawful grid.now others.now loc stops.now p) }
    ensures least { IfOk result (λ p. (q : List Cell) → IsDelivery grid.now others.now loc stops.now q → last_index p ≤ last_index q) }
    ensures none { IfNoPath result ((q : List Cell) → IsDelivery grid.now others.now loc stops.now q → ⊥) }
{
    let mut effort = u64::MAX;
    deliver_over(
        alloc,
        memory,
        grid,
        others,
        loc,
        stops,
        sights,
        0,
        &mut effort,
    )
}
