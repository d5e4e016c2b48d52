//! What is searched for.
#![tactic(auto)]

ghost use Rattle.std.specs.Prelude.{◌≡◌, ℕ, ◌+◌, ◌*◌, ◌<◌, ◌≤◌, ◌^◌, ◌↔◌, IsTrue, Contains, length};
ghost use Rattle.wh_grid.specs.declared.cell.Cell.{Cell};
ghost use Rattle.wh_grid.specs.Grids.{IsPassable};
ghost use Rattle.wh_path.specs.Paths.{cell_at};
ghost use Rattle.wh_resv.specs.Others.{MayStep, MayRest};
ghost use Rattle.wh_resv.specs.Calls.{IsVacant};
ghost use Rattle.wh_search.specs.Expansions.{MayEnd};
ghost use Rattle.wh_search.specs.Frontiers.{IsErrand};
ghost use Rattle.wh_search.specs.Guides.{guide_estimate};
ghost use Rattle.wh_search.specs.States.{Arrives, IsEnd};

use crate::guide::Guide;
use crate::noted::holds;
use wh_grid::{Cell, Grid};
use wh_resv::Reservations;

/// What an agent must do: from where, through which stops in order, and to which ends; how
/// many stops it has behind it at once, the time from which all others rest, the last time that
/// is looked at, and a time before which nobody may rest at an end; whether one may rest at each end
/// from that time on; and a time before which no tour ends.
#[derive(Clone, Copy)]
pub struct Errand<'a> {
    pub grid: &'a Grid,
    pub others: &'a Reservations<'a>,
    pub loc: Cell,
    pub via: &'a [Cell],
    pub ends: &'a [Cell],
    pub guide: Guide<'a>,
    pub first: usize,
    pub horizon: u64,
    pub limit: u64,
    pub soonest: u64,
    pub exact: bool,
    pub least: u64,
}

impl<'a> Errand<'a> {
    /// Whether an agent may go from one cell, where nobody else is at k, to another between k
    /// and k + 1.
    pub fn allows(&self, from: Cell, to: Cell, k: u64) -> bool
        requires alone { IsVacant self.now.others.now.paths from k }
        requires time { k + 1 < 2 ^ 64 }
        ensures { IsTrue result ↔ (IsPassable self.now.grid.now to × MayStep self.now.others.now from to k) }
    {
        self.grid.passable(to) && self.others.may_enter(from, to, k)
    }

    /// Whether a passable cell is one of the ends. There may be many, and they are searched only
    /// where the estimate is 0, as it is at each of them.
    pub fn ends_at(&self, cell: Cell) -> bool
        requires errand { IsErrand self.now }
        requires inside { IsPassable self.now.grid.now cell }
        ensures { IsTrue result ↔ Contains self.now.ends.now cell }
    {
        if self.ends.len() > 1 && self.guide.estimate(self.via.len(), cell) > 0 {
            return false;
        }
        holds(self.ends, cell)
    }

    /// Whether no other is at an end at time k or later. Where `soonest` is exact, it tells.
    pub fn rests(&self, end: Cell, k: u64) -> bool
        requires errand { IsErrand self.now }
        requires end { Contains self.now.ends.now end }
        ensures { IsTrue result ↔ MayRest self.now.others.now end k }
    {
        if self.exact {
            return k >= self.soonest;
        }
        self.others.may_rest(end, k)
    }

    /// Whether an agent at a passable cell with the given number of stops behind it at k is at an end.
    pub fn ends(&self, leg: usize, cell: Cell, k: u64) -> bool
        requires errand { IsErrand self.now }
        requires inside { IsPassable self.now.grid.now cell }
        ensures { IsTrue result ↔ IsEnd self.now.others.now self.now.via.now self.now.ends.now k (record { leg = leg; cell = cell }) }
    {
        leg == self.via.len() && self.ends_at(cell) && self.rests(cell, k)
    }
}

/// A time before which no path ends at a cell where one may rest from `soonest` on, and not before. Under the rule that
/// nobody follows it is one later: in the tick after another has left the cell nobody comes to it.
pub fn first_end(others: &Reservations, cell: Cell, soonest: u64) -> u64
    requires { (k : ℕ) → MayRest others.now cell k → soonest ≤ k }
    ensures none { (k : ℕ) → MayEnd others.now cell k → result ≤ k }
    ensures late { soonest ≤ result }
{
    let _ = cell;
    if others.nofollow() && soonest > 0 {
        soonest.saturating_add(1)
    } else {
        soonest
    }
}

/// How many stops an agent has behind it when it comes to a cell with the given number behind it.
#[inline(never)]
pub fn arrive(via: &[Cell], leg: usize, cell: Cell) -> usize
    requires { leg ≤ length via.now }
    ensures { Arrives via.now leg cell result }
{
    for l in leg..via.len() {
        if !via[l].is(cell) {
            return l;
        }
    }
    via.len()
}

/// The next stop of an agent that has the given number of stops behind it; any cell where there is none.
pub fn next_stop(via: &[Cell], leg: usize) -> Cell
    ensures { leg < length via.now → result ≡ cell_at via.now leg }
{
    if leg < via.len() {
        via[leg]
    } else {
        Cell { x: 0, y: 0 }
    }
}

/// As `arrive`, for an agent whose next stop is known. Mostly the cell is another one.
#[inline(always)]
pub fn arrive_by(via: &[Cell], next: Cell, leg: usize, cell: Cell) -> usize
    requires few { leg ≤ length via.now }
    requires next { leg < length via.now → next ≡ cell_at via.now leg }
    ensures { Arrives via.now leg cell result }
{
    if next.is(cell) {
        arrive(via, leg, cell)
    } else {
        leg
    }
}
