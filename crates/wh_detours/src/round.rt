//! The call for a task of two to eight stops, with detours round others that stay or come to rest in time.
#![tactic(auto)]

ghost use Rattle.std.specs.Prelude.{◌≡◌, ℕ, ◌+◌, ◌-◌, ◌<◌, ◌≤◌, List, IfOk, IfErr, length};
ghost use Rattle.wh_grid.specs.declared.cell.Cell.{Cell};
ghost use Rattle.wh_grid.specs.Grids.{IsPassable};
ghost use Rattle.wh_path.specs.Paths.{last_index};
ghost use Rattle.wh_resv.specs.Calls.{IsVacant};
ghost use Rattle.wh_search.specs.Deliveries.{IsDelivery, IsLawful, IfNoPath, AreStops};
ghost use Rattle.wh_search.specs.Frontiers.{IsErrand};
ghost use Rattle.wh_search.specs.Sights.{AreSightsOf};
ghost use Rattle.wh_search.specs.Tours.{IsTour};
ghost use Rattle.wh_intervals.specs.Late.{IsLateAtMost};
ghost use Rattle.wh_intervals.specs.Tasks.{IsTaskOf};

use crate::barred::barred_ways;
use crate::closed::without_shut;
use crate::fields::{fields_over, sights_over};
use std::alloc::Global;
use wh_field::Sight;
use wh_grid::{Cell, Grid};
use wh_intervals::{deliver_over, over_intervals, sighted_errand};
use wh_path::TimedPath;
use wh_resv::Reservations;
use wh_search::errand::Errand;
use wh_search::guide::onward_by_sights;
use wh_search::{Fault, SearchMemory, Unfinished, straight_or_bound};

/// A path that is late by no more than `slack` steps, on the grid without the cells at which one of these paths stays, or comes to
/// rest before the agent can be there; by fields over it where the way is barred.
fn deliver_without(
    alloc: Global,
    memory: &mut SearchMemory,
    errand: &Errand,
    paths: &[TimedPath],
    stops: &[Cell],
    sights: &[Option<Sight>],
    barred: [bool; 9],
    slack: u64,
    effort: &mut u64,
) -> Result<TimedPath, Fault>
    requires inside { IsPassable errand.now.grid.now errand.now.loc }
    requires clear { IsVacant errand.now.others.now.paths errand.now.loc 0 }
    requires stops { AreStops stops.now }
    requires sights { AreSightsOf errand.now.grid.now stops.now sights.now }
    ensures lawful { IfOk result (λ p. IsLawful errand.now.grid.now errand.now.others.now errand.now.loc stops.now p) }
    ensures late { IfOk result (IsLateAtMost (IsDelivery errand.now.grid.now errand.now.others.now errand.now.loc stops.now) slack) }
    ensures none { IfNoPath result ((q : List Cell) → IsDelivery errand.now.grid.now errand.now.others.now errand.now.loc stops.now q → ⊥) }
    ensures effort { effort.new ≤ effort.old }
    ensures given_up { IfErr result (λ e. e ≡ Fault.Effort → effort.new ≡ 0) }
{
    let (others, loc) = (errand.others, errand.loc);
    let Ok(without) = without_shut(alloc, errand.grid, others, paths, loc) else {
        return Err(Fault::NoMemory);
    };
    let Ok(kept) = fields_over(alloc, &without, loc, stops, barred) else {
        return Err(Fault::NoMemory);
    };
    let all = sights_over(&without, loc, stops, barred, &kept, sights);
    deliver_over(
        alloc,
        memory,
        &without,
        others,
        loc,
        stops,
        &all[..stops.len()],
        slack,
        effort,
    )
}

/// A path that is late by no more than `slack` steps, where no delivery has fewer steps than `least`.
fn deliver_beyond(
    alloc: Global,
    memory: &mut SearchMemory,
    errand: &Errand,
    paths: &[TimedPath],
    stops: &[Cell],
    sights: &[Option<Sight>],
    least: u64,
    slack: u64,
    effort: &mut u64,
) -> Result<TimedPath, Fault>
    requires errand { IsErrand errand.now }
    requires task { IsTaskOf errand.now.grid.now errand.now.others.now errand.now.loc stops.now errand.now }
    requires clear { IsVacant errand.now.others.now.paths errand.now.loc 0 }
    requires stops { AreStops stops.now }
    requires sights { AreSightsOf errand.now.grid.now stops.now sights.now }
    requires least { (q : List Cell) → IsTour errand.now.grid.now errand.now.others.now errand.now.loc errand.now.via.now errand.now.ends.now q → least ≤ last_index q }
    ensures lawful { IfOk result (λ p. IsLawful errand.now.grid.now errand.now.others.now errand.now.loc stops.now p) }
    ensures late { IfOk result (IsLateAtMost (IsDelivery errand.now.grid.now errand.now.others.now errand.now.loc stops.now) slack) }
    ensures none { IfNoPath result ((q : List Cell) → IsDelivery errand.now.grid.now errand.now.others.now errand.now.loc stops.now q → ⊥) }
    ensures effort { effort.new ≤ effort.old }
    ensures given_up { IfErr result (λ e. e ≡ Fault.Effort → effort.new ≡ 0) }
{
    let barred = barred_ways(errand.grid, errand.others, errand.loc, stops, sights);
    if barred.contains(&true) {
        return deliver_without(
            alloc, memory, errand, paths, stops, sights, barred, slack, effort,
        );
    }
    match over_intervals(alloc, errand, least, slack, effort) {
        Ok(Some(path)) => Ok(path),
        Ok(None) => Err(Fault::NoPath),
        Err(Unfinished::NoMemory) => Err(Fault::NoMemory),
        Err(Unfinished::Effort) => Err(Fault::Effort),
    }
}

/// A lawful path from loc through the stops that is late by no more than `slack` steps, guided by fields that are filled up to a
/// level; in memory that is kept from one search to the next. Where others that stay, or come to rest before the agent can be
/// there, bar the way to a stop, it is searched for on the grid without their cells, as far as they do by these paths, and by a
/// field of its own in place of that stop's. That changes nothing in which paths are how late. `NoPath` exactly if no path
/// delivers, however long; `NoMemory` if memory ran out; `Effort` if it takes more expansions than are left, and none are left
/// then.
pub fn deliver_round<'x>(
    alloc: Global,
    memory: &mut SearchMemory,
    grid: &'x Grid,
    others: &'x Reservations<'x>,
    paths: &[TimedPath],
    loc: Cell,
    stops: &'x [Cell],
    sights: &'x [Option<Sight<'x>>],
    slack: u64,
    effort: &mut u64,
) -> Result<TimedPath, Fault>
    requires inside { IsPassable grid.now loc }
    requires clear { IsVacant others.now.paths loc 0 }
    requires stops { AreStops stops.now }
    requires sights { AreSightsOf grid.now stops.now sights.now }
    ensures lawful { IfOk result (λ p. IsLawful grid.now others.now loc stops.now p) }
    ensures late { IfOk result (IsLateAtMost (IsDelivery grid.now others.now loc stops.now) slack) }
    ensures none { IfNoPath result ((q : List Cell) → IsDelivery grid.now others.now loc stops.now q → ⊥) }
    ensures effort { effort.new ≤ effort.old }
    ensures given_up { IfErr result (λ e. e ≡ Fault.Effort → effort.new ≡ 0) }
{
    let Some(soonest) = others.not_before(stops[stops.len() - 1]) else {
        return Err(Fault::NoPath);
    };
    let Ok(onward) = onward_by_sights(alloc, stops, sights) else {
        return Err(Fault::NoMemory);
    };
    let errand = sighted_errand(grid, others, loc, stops, sights, &onward, soonest);
    let Ok((found, least)) = straight_or_bound(alloc, memory, &errand, effort) else {
        return Err(Fault::NoMemory);
    };
    match found {
        Some(path) => Ok(path),
        None => deliver_beyond(
            alloc, memory, &errand, paths, stops, sights, least, slack, effort,
        ),
    }
}
