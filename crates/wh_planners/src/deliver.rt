//! A delivery planned by fields that planners share.
#![tactic(auto)]

ghost use Rattle.std.specs.Prelude.{◌≡◌, ℕ, ◌<◌, ◌≤◌, IfOk, IfErr, IsSomeAnd, List, None, Some, length, slice_index_or};
ghost use Rattle.wh_grid.specs.declared.cell.Cell.{Cell};
ghost use Rattle.wh_grid.specs.Grids.{IsPassable};
ghost use Rattle.wh_path.specs.Paths.{cell_at};
ghost use Rattle.wh_intervals.specs.Late.{IsLateAtMost};
ghost use Rattle.wh_resv.specs.Calls.{IsVacant};
ghost use Rattle.wh_search.specs.Deliveries.{AreStops, IsDelivery, IsLawful, IfNoPath};
ghost use Rattle.wh_search.specs.Sights.{IsSightAt};
ghost use Rattle.wh_shared.specs.Shares.{stored_grid, room, slots};
ghost use Rattle.wh_planners.specs.Sharing.{IsFilled};

use std::alloc::{AllocError, Global};
use wh_detours::deliver_round;
use wh_field::Sight;
use wh_grid::{Cell, Grid};
use wh_intervals::deliver_unguided;
use wh_path::TimedPath;
use wh_resv::Reservations;
use wh_search::manhattan::manhattan;
use wh_search::{Fault, SearchMemory};
use wh_shared::{Share, SharedFields};

/// How many steps beyond its distance a leg's field is filled. The search looks farther only for an agent that is
/// delayed by more than twice as many steps.
const FARTHER: u32 = 16;

/// Fills the fields of the stops, each beyond the stop before it, and returns how far; none where the store has no room
/// for it. The first stops are the last used ones; the planner counts as many of them as kept as it has slots.
fn ask_fields(
    alloc: Global,
    store: &mut SharedFields,
    share: &mut Share,
    loc: Cell,
    stops: &[Cell],
) -> Result<[Option<u32>; 9], AllocError>
    requires { length stops.now ≤ 9 }
    ensures room { room store.new ≡ room store.old }
    ensures grid { stored_grid store.new ≡ stored_grid store.old }
    ensures slots { slots share.new ≡ slots share.old }
    ensures asked { IfOk result (λ levels. (l : ℕ) → l < length stops.now → l < room store.old → IsFilled store.new (cell_at stops.now l) (slice_index_or levels l None)) }
{
    let few = stops.len().min(store.room());
    let mut levels = [None; 9];
    for i in 0..few {
        let leg = few - 1 - i;
        if leg < share.slots() {
            share.keep(stops[leg])?;
        }
        let before = if leg == 0 { loc } else { stops[leg - 1] };
        let level = store.ask(alloc, stops[leg], before, FARTHER)?;
        levels[leg] = Some(level);
    }
    Ok(levels)
}

/// The field of a stop as far as a level, where it is there.
fn sight_of(store: &SharedFields, stop: Cell, level: Option<u32>) -> Option<Sight>
    ensures sight { IsSightAt (stored_grid store.now) result stop }
    ensures there { IsFilled store.now stop level → IsSomeAnd result (λ s. level ≡ Some s.level) }
{
    match (level, store.look(stop)) {
        (Some(level), Some(field)) => Some(Sight::new(field, level.min(field.level()))),
        _ => None,
    }
}

/// The sights of the stops.
fn sights_of<'a>(
    store: &'a SharedFields,
    stops: &[Cell],
    levels: [Option<u32>; 9],
) -> [Option<Sight<'a>>; 9]
    requires { length stops.now ≤ 9 }
    ensures size { length result ≡ 9 }
    ensures each { (l : ℕ) → l < length stops.now → IsSightAt (stored_grid store.now) (slice_index_or result l None) (cell_at stops.now l) }
    ensures all { (l : ℕ) → l < length stops.now → IsFilled store.now (cell_at stops.now l) (slice_index_or levels l None) → IsSomeAnd (slice_index_or result l None) (λ s. slice_index_or levels l None ≡ Some s.level) }
{
    let mut sights = [None; 9];
    for i in 0..stops.len() {
        sights[i] = sight_of(store, stops[i], levels[i]);
    }
    sights
}

/// Whether the fields of all stops are there and filled as far as the Manhattan distance from the stop before it.
fn are_filled(store: &SharedFields, loc: Cell, stops: &[Cell]) -> bool {
    let mut before = loc;
    for stop in stops {
        let reaches = match store.look(*stop) {
            Some(field) => manhattan(before, *stop) <= u64::from(field.level()),
            None => false,
        };
        if !reaches {
            return false;
        }
        before = *stop;
    }
    true
}

/// A path through the stops that is late by no more than `slack` steps, guided by the shared fields of all of them, or of as
/// many first ones as the store has room for; and, where others that stay bar a way by them, by fields of its own, as far as
/// they stand in these paths. What other planners have filled changes nothing in it. It is given up where it takes more
/// expansions than are left, and none are left then.
fn deliver_guided(
    alloc: Global,
    store: &mut SharedFields,
    share: &mut Share,
    memory: &mut SearchMemory,
    grid: &Grid,
    others: &Reservations,
    paths: &[TimedPath],
    loc: Cell,
    stops: &[Cell],
    slack: u64,
    effort: &mut u64,
) -> Result<TimedPath, Fault>
    requires fits { stored_grid store.old ≡ grid.now }
    requires inside { IsPassable grid.now loc }
    requires clear { IsVacant others.now.paths loc 0 }
    requires stops { AreStops stops.now }
    ensures room { room store.new ≡ room store.old }
    ensures grid { stored_grid store.new ≡ stored_grid store.old }
    ensures slots { slots share.new ≡ slots share.old }
    ensures lawful { IfOk result (λ p. IsLawful grid.now others.now loc stops.now p) }
    ensures late { IfOk result (IsLateAtMost (IsDelivery grid.now others.now loc stops.now) slack) }
    ensures none { IfNoPath result ((q : List Cell) → IsDelivery grid.now others.now loc stops.now q → ⊥) }
    ensures effort { effort.new ≤ effort.old }
    ensures given_up { IfErr result (λ e. e ≡ Fault.Effort → effort.new ≡ 0) }
{
    match ask_fields(alloc, store, share, loc, stops) {
        Ok(levels) => {
            let sights = sights_of(store, stops, levels);
            deliver_round(
                alloc,
                memory,
                grid,
                others,
                paths,
                loc,
                stops,
                &sights[..stops.len()],
                slack,
                effort,
            )
        }
        Err(_) => Err(Fault::NoMemory),
    }
}

/// A path through the stops that is late by no more than `slack` steps. Where a field is still to be filled it is first looked
/// for a long one along columns and rows, which needs none and is shortest. It is given up where it takes more expansions than
/// are left, and none are left then.
pub fn deliver_shared(
    alloc: Global,
    store: &mut SharedFields,
    share: &mut Share,
    memory: &mut SearchMemory,
    grid: &Grid,
    others: &Reservations,
    paths: &[TimedPath],
    loc: Cell,
    stops: &[Cell],
    slack: u64,
    effort: &mut u64,
) -> Result<TimedPath, Fault>
    requires fits { stored_grid store.old ≡ grid.now }
    requires inside { IsPassable grid.now loc }
    requires clear { IsVacant others.now.paths loc 0 }
    requires stops { AreStops stops.now }
    ensures room { room store.new ≡ room store.old }
    ensures grid { stored_grid store.new ≡ stored_grid store.old }
    ensures slots { slots share.new ≡ slots share.old }
    ensures lawful { IfOk result (λ p. IsLawful grid.now others.now loc stops.now p) }
    ensures late { IfOk result (IsLateAtMost (IsDelivery grid.now others.now loc stops.now) slack) }
    ensures none { IfNoPath result ((q : List Cell) → IsDelivery grid.now others.now loc stops.now q → ⊥) }
    ensures effort { effort.new ≤ effort.old }
    ensures given_up { IfErr result (λ e. e ≡ Fault.Effort → effort.new ≡ 0) }
{
    if !are_filled(store, loc, stops) {
        match deliver_unguided(alloc, memory, grid, others, loc, stops, effort) {
            Ok(Some(path)) => return Ok(path),
            Ok(None) => {}
            Err(_) => return Err(Fault::NoMemory),
        }
    }
    deliver_guided(
        alloc, store, share, memory, grid, others, paths, loc, stops, slack, effort,
    )
}
