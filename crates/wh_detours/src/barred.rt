//! Whether cells at which the agent can never be bar the way to a stop.
#![tactic(auto)]

ghost use Rattle.std.specs.Prelude.{◌≡◌, ℕ, ◌+◌, ◌<◌, ◌≤◌, IsTrue, IfSome, IfNone, false, length};
ghost use Rattle.wh_grid.specs.declared.cell.Cell.{Cell};
ghost use Rattle.wh_search.specs.Sights.{AreSightsOf, IsSightAt};
ghost use Rattle.wh_detours.specs.Barred.{IsShut, IsClearWithin, IsClearBy, AreBarred, IsNearer, IsStuck, sighted};

use crate::closed::is_closed;
use wh_field::Sight;
use wh_grid::{Cell, Grid};
use wh_resv::Reservations;
use wh_search::moves::moves_from;

/// Of the cells beside a cell, which is `here` steps away by a sight, the first one that is nearer, and not closed.
fn nearer(
    grid: &Grid,
    others: &Reservations,
    loc: Cell,
    sight: Sight,
    cell: Cell,
    here: u32,
) -> Option<Cell>
    requires field { sight.field.now.grid ≡ grid.now }
    requires here { here ≡ sighted sight cell }
    ensures some { IfSome result (λ d. IsNearer others.now loc sight.entry cell d) }
    ensures none { IfNone result (IsStuck grid.now others.now loc sight.entry cell) }
{
    let _width = grid.width();
    let _height = grid.height();
    let beside = moves_from(cell);
    for i in 1..5 {
        if sight.estimate(beside[i]) < here && !is_closed(others, loc, beside[i]) {
            return Some(beside[i]);
        }
    }
    None
}

/// Whether the way down the field of a stop from a cell, round the cells that are closed, comes to where each next cell
/// is. Where the stop is farther than it is looked for, or no walk leads there, it does not.
fn is_leg_barred(grid: &Grid, others: &Reservations, loc: Cell, sight: Sight, from: Cell) -> bool
    requires { sight.field.now.grid ≡ grid.now }
    ensures shut { IsTrue result → IsShut grid.now others.now loc from sight.entry.field.now.cell }
    ensures clear { result ≡ false → IsClearWithin grid.now others.now loc from sight.entry.field.now.cell sight.entry.level }
{
    let whole = sight.estimate(from);
    if whole > sight.level {
        return false;
    }
    let mut cell = from;
    let mut left = whole;
    while left > 0 {
        let Some(next) = nearer(grid, others, loc, sight, cell, left) else {
            return true;
        };
        cell = next;
        left -= 1;
    }
    false
}

/// The same, where there is a sight of the stop.
fn is_way_barred(
    grid: &Grid,
    others: &Reservations,
    loc: Cell,
    sight: Option<Sight>,
    from: Cell,
    stop: Cell,
) -> bool
    requires { IsSightAt grid.now sight stop }
    ensures shut { IsTrue result → IsShut grid.now others.now loc from stop }
    ensures clear { result ≡ false → IsClearBy grid.now others.now loc from stop sight.entry }
{
    let _ = stop;
    match sight {
        Some(sight) => is_leg_barred(grid, others, loc, sight, from),
        None => false,
    }
}

/// On the way to which stops, each from the one before, that is so.
pub fn barred_ways(
    grid: &Grid,
    others: &Reservations,
    loc: Cell,
    stops: &[Cell],
    sights: &[Option<Sight>],
) -> [bool; 9]
    requires few { length stops.now ≤ 9 }
    requires sights { AreSightsOf grid.now stops.now sights.now }
    ensures size { length result ≡ 9 }
    ensures each { AreBarred grid.now others.now loc stops.now sights.now result (length stops.now) }
{
    let mut barred = [false; 9];
    let mut from = loc;
    for i in 0..stops.len() {
        barred[i] = is_way_barred(grid, others, loc, sights[i], from, stops[i]);
        from = stops[i];
    }
    barred
}
