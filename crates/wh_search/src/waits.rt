//! When a tour may be at its stops, so that it ends no sooner.
#![tactic(auto)]

ghost use Rattle.std.specs.Prelude.{◌≡◌, ℕ, ◌+◌, ◌<◌, ◌≤◌, ◌^◌, List};
ghost use Rattle.wh_grid.specs.declared.cell.Cell.{Cell};
ghost use Rattle.wh_path.specs.Paths.{last_index};
ghost use Rattle.wh_search.specs.Expansions.{MayVisit};
ghost use Rattle.wh_search.specs.Frontiers.{IsErrand};
ghost use Rattle.wh_search.specs.Tours.{IsTour};
ghost use Rattle.wh_search.specs.Waits.{with_least};

use crate::errand::Errand;
use wh_grid::Cell;
use wh_resv::Reservations;

/// A time before which, from k on, no agent may be at a cell: the first at which it may, and k where it never may.
fn visit_from(others: &Reservations, cell: Cell, k: u64) -> u64
    ensures { (j : ℕ) → k ≤ j → MayVisit others.now cell j → result ≤ j }
{
    let mut time = k;
    while time <= others.horizon() {
        let Some(free) = others.next_free(cell, time) else {
            return k;
        };
        if free == 0 || !others.nofollow() || others.vacant(cell, free - 1) {
            return free;
        }
        time = free.saturating_add(1);
    }
    time
}

impl<'a> Errand<'a> {
    /// A time before which no tour ends: it comes to each stop when it may be there, and from one to the next takes the steps
    /// that are estimated.
    fn least_by_stops(&self) -> u64
        requires errand { IsErrand self.now }
        ensures { (q : List Cell) → IsTour self.now.grid.now self.now.others.now self.now.loc self.now.via.now self.now.ends.now q → result ≤ last_index q }
    {
        let mut from = self.loc;
        let mut time = 0u64;
        for leg in self.first..self.via.len() {
            let stop = self.via[leg];
            let left = self.guide.estimate(leg + 1, stop);
            let steps = self.guide.estimate(leg, from).saturating_sub(left);
            time = visit_from(self.others, stop, time.saturating_add(steps));
            from = stop;
        }
        time.saturating_add(self.guide.estimate(self.via.len(), from))
    }

    /// The same errand, with a `least` that is no less, and late enough for the times at which an agent may be at the stops.
    pub fn with_waits(self) -> Self
        requires errand { IsErrand self }
        ensures errand { IsErrand result }
        ensures same { result ≡ with_least self.entry result.least }
        ensures later { self.entry.least ≤ result.least }
    {
        Errand {
            least: self.least.max(self.least_by_stops()),
            ..self
        }
    }
}
