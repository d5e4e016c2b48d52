//! What is searched for.
#![tactic(auto)]

ghost use Rattle.std.specs.Prelude.{◌≡◌, ℕ, ◌+◌, ◌≤◌, ◌↔◌, IsTrue, Contains};
ghost use Rattle.wh_grid.specs.Grids.{IsPassable};
ghost use Rattle.wh_resv.specs.Others.{MayRest};
ghost use Rattle.wh_search.specs.Expansions.{MayEnd};
ghost use Rattle.wh_search.specs.States.{IsEnd};
ghost use Rattle.wh_intervals.specs.Problems.{problem, IsProblem};

use wh_grid::{Cell, Grid};
use wh_resv::Reservations;
use wh_search::guide::Guide;
use wh_search::noted::holds;

/// What an agent must do: beside whom, from where, through which stops in order, and to which ends;
/// how many stops it has behind it at once, the last time that is looked at, by how many steps a path
/// may be late, and a time before which, less those steps, no path ends: all that may lead to an end by
/// that time is alike.
#[derive(Clone, Copy)]
pub struct Errand<'a> {
    pub grid: &'a Grid,
    pub others: &'a Reservations<'a>,
    pub loc: Cell,
    pub via: &'a [Cell],
    pub ends: &'a [Cell],
    pub guide: Guide<'a>,
    pub first: usize,
    pub limit: u64,
    pub base: u64,
    pub slack: u64,
}

impl<'a> Errand<'a> {
    /// Whether a passable cell is one of the ends. There may be many, and they are searched only
    /// where the estimate is 0, as it is at each of them.
    fn ends_at(&self, cell: Cell) -> bool
        requires errand { IsProblem (problem self.now) }
        requires inside { IsPassable self.now.grid.now cell }
        ensures { IsTrue result ↔ Contains self.now.ends.now cell }
    {
        if self.ends.len() > 1 && self.guide.estimate(self.via.len(), cell) > 0 {
            return false;
        }
        holds(self.ends, cell)
    }

    /// Whether an agent at a passable cell with the given number of stops behind it at k is at an end.
    pub fn is_end(&self, leg: usize, cell: Cell, k: u64) -> bool
        requires errand { IsProblem (problem self.now) }
        requires inside { IsPassable self.now.grid.now cell }
        ensures { IsTrue result ↔ IsEnd self.now.others.now self.now.via.now self.now.ends.now k (record { leg = leg; cell = cell }) }
    {
        leg == self.via.len() && self.ends_at(cell) && self.others.may_rest(cell, k)
    }
}

/// A time before which no path ends at a cell where nobody may rest before `soonest`. Under the rule
/// that nobody follows it is one later: in the tick after another has left the cell nobody comes to it.
pub fn first_end(others: &Reservations, cell: Cell, soonest: u64) -> u64
    requires { (k : ℕ) → MayRest others.now cell k → soonest ≤ k }
    ensures { (k : ℕ) → MayEnd others.now cell k → result ≤ k }
{
    let _ = cell;
    if others.nofollow() && soonest > 0 {
        soonest.saturating_add(1)
    } else {
        soonest
    }
}
