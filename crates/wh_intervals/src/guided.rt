//! The calls for a task of two to eight stops by whole fields.
#![tactic(auto)]

ghost use Rattle.std.specs.Prelude.{◌≡◌, ℕ, ◌+◌, ◌-◌, ◌*◌, ◌<◌, ◌≤◌, ◌^◌, List, IfOk, IfSome, MatchOption};
ghost use Rattle.wh_grid.specs.declared.cell.Cell.{Cell};
ghost use Rattle.wh_grid.specs.Grids.{IsPassable};
ghost use Rattle.wh_path.specs.Paths.{last_index};
ghost use Rattle.wh_resv.specs.Calls.{IsVacant};
ghost use Rattle.wh_search.specs.Deliveries.{IsDelivery, IsLawful, IsLeast, IfNoPath, AreStops};
ghost use Rattle.wh_search.specs.Fields.{AreFieldsOf};
ghost use Rattle.wh_search.specs.Guides.{IsOnward};
ghost use Rattle.wh_intervals.specs.Efforts.{MovesAtMost, IsSearchOf, IsEffort, IsEnough};

use crate::errand::{Errand, first_end};
use crate::search::search;
use std::alloc::Global;
use wh_field::Field;
use wh_grid::{Cell, Grid};
use wh_path::TimedPath;
use wh_resv::Reservations;
use wh_search::errand::arrive;
use wh_search::guide::{Guide, onward_of};
use wh_search::{Fault, Unfinished};

/// A shortest path, or none where there is no delivery; and how many arrivals were expanded.
fn find<'x>(
    alloc: Global,
    grid: &'x Grid,
    others: &'x Reservations<'x>,
    loc: Cell,
    stops: &'x [Cell],
    fields: &'x [Option<&'x Field>],
    expanded: &mut u64,
) -> Result<Option<TimedPath>, Unfinished>
    requires inside { IsPassable grid.now loc }
    requires clear { IsVacant others.now.paths loc 0 }
    requires stops { AreStops stops.now }
    requires fields { AreFieldsOf grid.now stops.now fields.now }
    ensures expanded { IfOk result (λ found. IfSome found (λ p. IsSearchOf grid.now others.now loc stops.now fields.now (last_index p) expanded.new)) }
    ensures moves { IfOk result (λ found. IfSome found (λ p. MovesAtMost p expanded.new)) }
    ensures found { IfOk result (λ found. MatchOption found
        ((q : List Cell) → IsDelivery grid.now others.now loc stops.now q → ⊥)
        (λ p. IsLeast grid.now others.now loc stops.now p)) }
{
    let Some(soonest) = others.not_before(stops[stops.len() - 1]) else {
        return Ok(None);
    };
    let onward = onward_of(alloc, stops, fields)?;
    let last = stops.len() - 1;
    let via = &stops[..last];
    let ends = &stops[last..];
    let horizon = others.horizon();
    let errand = Errand {
        grid,
        others,
        loc,
        via,
        ends,
        guide: Guide::Stops {
            fields,
            onward: &onward,
        },
        first: arrive(via, 0, loc),
        limit: horizon + stops.len() as u64 * u64::from(grid.cells()),
        base: first_end(others, stops[last], soonest),
        slack: 0,
    };
    let mut effort = u64::MAX;
    search(alloc, &errand, &mut effort, expanded)
}

/// A lawful path from loc through the stops, with the least last index. The fields that are
/// there guide the search. `NoPath` exactly if no path delivers, however long; `NoMemory` if memory ran out.
pub fn deliver_guided<'x>(
    alloc: Global,
    grid: &'x Grid,
    others: &'x Reservations<'x>,
    loc: Cell,
    stops: &'x [Cell],
    fields: &'x [Option<&'x Field>],
) -> Result<TimedPath, Fault>
    requires inside { IsPassable grid.now loc }
    requires clear { IsVacant others.now.paths loc 0 }
    requires stops { AreStops stops.now }
    requires fields { AreFieldsOf grid.now stops.now fields.now }
    ensures lawful { IfOk result (λ p. IsLawful grid.now others.now loc stops.now p) }
    ensures least { IfOk result (λ p. (q : List Cell) → IsDelivery grid.now others.now loc stops.now q → last_index p ≤ last_index q) }
    ensures none { IfNoPath result ((q : List Cell) → IsDelivery grid.now others.now loc stops.now q → ⊥) }
{
    let mut expanded = 0;
    match find(alloc, grid, others, loc, stops, fields, &mut expanded) {
        Ok(Some(path)) => Ok(path),
        Ok(None) => Err(Fault::NoPath),
        Err(Unfinished::NoMemory) => Err(Fault::NoMemory),
        Err(Unfinished::Effort) => Err(Fault::Effort),
    }
}

/// How many arrivals, each of a cell, a time, a number of stops behind and a time up to which it
/// may wait, have their successors made by `deliver_guided` on these arguments; or its fault.
/// They are those of a best-first search: each can be reached and may, by the fields, lead to a shortest path,
/// and for all that may lead to a shorter one they stand. Of no state at any time do two
/// stand. They are no fewer than the moves of some shortest path.
pub fn guided_steps<'x>(
    alloc: Global,
    grid: &'x Grid,
    others: &'x Reservations<'x>,
    loc: Cell,
    stops: &'x [Cell],
    fields: &'x [Option<&'x Field>],
) -> Result<u64, Fault>
    requires inside { IsPassable grid.now loc }
    requires clear { IsVacant others.now.paths loc 0 }
    requires stops { AreStops stops.now }
    requires fields { AreFieldsOf grid.now stops.now fields.now }
    ensures effort { IfOk result (λ n. IsEffort grid.now others.now loc stops.now fields.now n) }
    ensures enough { IfOk result (λ n. IsEnough grid.now others.now loc stops.now n) }
    ensures none { IfNoPath result ((q : List Cell) → IsDelivery grid.now others.now loc stops.now q → ⊥) }
{
    let mut expanded = 0;
    match find(alloc, grid, others, loc, stops, fields, &mut expanded) {
        Ok(Some(_path)) => Ok(expanded),
        Ok(None) => Err(Fault::NoPath),
        Err(Unfinished::NoMemory) => Err(Fault::NoMemory),
        Err(Unfinished::Effort) => Err(Fault::Effort),
    }
}
