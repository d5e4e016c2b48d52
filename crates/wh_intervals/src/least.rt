//! The straight pass, and then the search over intervals.
#![tactic(auto)]

ghost use Rattle.std.specs.Prelude.{◌≡◌, ℕ, ◌+◌, ◌<◌, ◌≤◌, ◌^◌, List, IfOk, IfErr, MatchOption};
ghost use Rattle.wh_grid.specs.declared.cell.Cell.{Cell};
ghost use Rattle.wh_path.specs.Paths.{last_index};
ghost use Rattle.wh_resv.specs.Calls.{IsVacant};
ghost use Rattle.wh_search.specs.Frontiers.{IsErrand};
ghost use Rattle.wh_search.specs.Tours.{IsTour};
ghost use Rattle.wh_intervals.specs.Late.{IsLateTour};

use crate::errand::Errand;
use crate::search::search;
use std::alloc::Global;
use wh_path::TimedPath;
use wh_search::errand::Errand as Task;
use wh_search::{SearchMemory, Unfinished, straight_or_bound};

/// A tour that is late by no more than `slack` steps, or none where there is no tour, by a search over intervals. None has fewer
/// steps than `least`. It is given up where it takes more expansions than are left.
pub fn over_intervals(
    alloc: Global,
    errand: &Task,
    least: u64,
    slack: u64,
    effort: &mut u64,
) -> Result<Option<TimedPath>, Unfinished>
    requires errand { IsErrand errand.now }
    requires clear { IsVacant errand.now.others.now.paths errand.now.loc 0 }
    requires least { (q : List Cell) → IsTour errand.now.grid.now errand.now.others.now errand.now.loc errand.now.via.now errand.now.ends.now q → least ≤ last_index q }
    ensures found { IfOk result (λ found. MatchOption found
        ((q : List Cell) → IsTour errand.now.grid.now errand.now.others.now errand.now.loc errand.now.via.now errand.now.ends.now q → ⊥)
        (λ p. IsLateTour errand.now.grid.now errand.now.others.now errand.now.loc errand.now.via.now errand.now.ends.now slack p)) }
    ensures effort { effort.new ≤ effort.old }
    ensures given_up { IfErr result (λ e. e ≡ Unfinished.Effort → effort.new ≡ 0) }
{
    let task = Errand {
        grid: errand.grid,
        others: errand.others,
        loc: errand.loc,
        via: errand.via,
        ends: errand.ends,
        guide: errand.guide,
        first: errand.first,
        limit: errand.limit,
        base: errand.least.max(least).saturating_add(slack),
        slack,
    };
    let mut expanded = 0;
    search(alloc, &task, effort, &mut expanded)
}

/// A tour that is late by no more than `slack` steps, or none where there is no tour. It looks first for one of no more steps
/// than are estimated at the start, and gives that up where it takes too long. All is given up where it takes more expansions
/// than are left.
#[tactic(auto, using(crate::proofs::Late::tour_late))]
pub fn find_least(
    alloc: Global,
    memory: &mut SearchMemory,
    errand: &Task,
    slack: u64,
    effort: &mut u64,
) -> Result<Option<TimedPath>, Unfinished>
    requires errand { IsErrand errand.now }
    requires clear { IsVacant errand.now.others.now.paths errand.now.loc 0 }
    ensures found { IfOk result (λ found. MatchOption found
        ((q : List Cell) → IsTour errand.now.grid.now errand.now.others.now errand.now.loc errand.now.via.now errand.now.ends.now q → ⊥)
        (λ p. IsLateTour errand.now.grid.now errand.now.others.now errand.now.loc errand.now.via.now errand.now.ends.now slack p)) }
    ensures effort { effort.new ≤ effort.old }
    ensures given_up { IfErr result (λ e. e ≡ Unfinished.Effort → effort.new ≡ 0) }
{
    let (found, least) = straight_or_bound(alloc, memory, errand, effort)?;
    match found {
        Some(path) => Ok(Some(path)),
        None => over_intervals(alloc, errand, least, slack, effort),
    }
}
