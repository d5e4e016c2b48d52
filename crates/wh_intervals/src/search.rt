//! The search, guided by an estimate, for a lawful path that is shortest, or late by no more than a slack.
#![tactic(auto)]

ghost use Rattle.std.specs.Prelude.{◌≡◌, ℕ, ◌+◌, ◌<◌, ◌≤◌, ◌^◌, List, OnOk, IfOk, IfErr, IfSome, MatchOption, Option, Some, None, vec_len};
ghost use Rattle.wh_grid.specs.declared.cell.Cell.{Cell};
ghost use Rattle.wh_resv.specs.Calls.{IsVacant};
ghost use Rattle.wh_intervals.specs.Problems.{problem, IsProblem};
ghost use Rattle.wh_search.specs.States.{IsEnd};
ghost use Rattle.wh_search.specs.Tours.{IsTour};
ghost use Rattle.wh_intervals.specs.Late.{IsLateTour};
ghost use Rattle.wh_path.specs.Paths.{last_index};
ghost use Rattle.wh_search.specs.Guides.{guide_estimate};
ghost use Rattle.wh_intervals.specs.Efforts.{IsExpandedOf, MovesAtMost};
ghost use Rattle.wh_intervals.specs.Nodes.{node_at, state_of, bound_at, total_at, IsKept};
ghost use Rattle.wh_intervals.specs.Queues.{Waiting};
ghost use Rattle.wh_intervals.specs.Closings.{closed_by};
ghost use Rattle.wh_intervals.specs.Places.{known_in};
ghost use Rattle.wh_intervals.specs.Told.{node_in, IsCounted};
ghost use Rattle.wh_intervals.specs.declared.interval.Interval.{Interval as Span};

use crate::errand::Errand;
use crate::known::close;
use crate::leave::stay;
use crate::node::node_of;
use crate::states::States;
use crate::trail::walk_back;
use std::alloc::{AllocError, Global};
use wh_path::TimedPath;
use wh_resv::Reservations;
use wh_search::Unfinished;

/// Expands a node that was taken from the queue, for those times of its interval for which none is
/// expanded yet, and counts it, if there are such times: one expansion less is left then.
fn take(
    errand: &Errand,
    states: &mut States,
    effort: &mut u64,
    expanded: &mut u64,
    index: usize,
) -> Result<(), AllocError>
    requires errand { IsProblem (problem errand.now) }
    requires kept { IsKept (problem errand.now) states.old.nodes.items states.old.queue (Some index) }
    requires within { index < vec_len states.old.nodes }
    requires told { IsCounted (problem errand.now) states.old.nodes.items states.old.queue (Some index) (closed_by (known_in states.old.intervals)) expanded.old }
    requires few { expanded.old + 1 < 2 ^ 64 }
    requires left { 0 < effort.old }
    requires first { (b i : ℕ) → Waiting states.old.queue b i → bound_at (problem errand.now) (node_at states.old.nodes.items index) ≤ b }
    requires past { (i : Span) (t : ℕ) → closed_by (known_in states.old.intervals) i ≡ Some t → bound_at (problem errand.now) (node_in i t) ≤ bound_at (problem errand.now) (node_at states.old.nodes.items index) }
    requires may_lead { (q : List Cell) → IsTour errand.now.grid.now errand.now.others.now errand.now.loc errand.now.via.now errand.now.ends.now q → total_at (problem errand.now) (node_at states.old.nodes.items index) ≤ last_index q + errand.now.slack }
    requires no_end { IsEnd errand.now.others.now errand.now.via.now errand.now.ends.now (node_at states.old.nodes.items index).time (state_of (node_at states.old.nodes.items index)) → ⊥ }
    ensures kept { OnOk result (IsKept (problem errand.now) states.new.nodes.items states.new.queue None) }
    ensures told { OnOk result (IsCounted (problem errand.now) states.new.nodes.items states.new.queue None (closed_by (known_in states.new.intervals)) expanded.new) }
    ensures few { OnOk result (expanded.new ≤ expanded.old + 1) }
    ensures spent { expanded.new + effort.new ≡ expanded.old + effort.old }
{
    let node = states.nodes[index];
    let Some(last) = close(&mut states.intervals, node)? else {
        return Ok(());
    };
    states.expand(errand, index, u64::from(last))?;
    *expanded += 1;
    *effort -= 1;
    Ok(())
}

/// A tour that is late by no more than the slack, or none where there is no tour; and how many arrivals were expanded, whatever
/// was there before, by which as many expansions less are left. Where one is to be looked at when none are left, it is given up.
pub fn search(
    alloc: Global,
    errand: &Errand,
    effort: &mut u64,
    expanded: &mut u64,
) -> Result<Option<TimedPath>, Unfinished>
    requires errand { IsProblem (problem errand.now) }
    requires clear { IsVacant errand.now.others.now.paths errand.now.loc 0 }
    ensures expanded { IfOk result (λ found. IfSome found (λ p. errand.now.slack ≡ 0 → IsExpandedOf errand.now.grid.now errand.now.others.now errand.now.via.now errand.now.loc (guide_estimate errand.now.guide) errand.now.base errand.now.limit (last_index p) expanded.new)) }
    ensures moves { IfOk result (λ found. IfSome found (λ p. MovesAtMost p expanded.new)) }
    ensures found { IfOk result (λ found. MatchOption found
        ((q : List Cell) → IsTour errand.now.grid.now errand.now.others.now errand.now.loc errand.now.via.now errand.now.ends.now q → ⊥)
        (λ p. IsLateTour errand.now.grid.now errand.now.others.now errand.now.loc errand.now.via.now errand.now.ends.now errand.now.slack p)) }
    ensures spent { expanded.new + effort.new ≡ effort.old }
    ensures given_up { IfErr result (λ e. e ≡ Unfinished.Effort → effort.new ≡ 0) }
{
    *expanded = 0;
    let left = errand.guide.estimate(errand.first, errand.loc);
    if left > errand.limit {
        return Ok(None);
    }
    let mut states = States::new(alloc)?;
    let until = stay(errand, errand.loc, 0);
    let start = node_of(0, errand.first, errand.loc, until, 0)?;
    states.meet(errand, start, left)?;
    for round in 0..u64::MAX {
        let Some((_bound, index)) = states.queue.pop() else {
            return Ok(None);
        };
        if states.is_end(errand, index) {
            let path = walk_back(alloc, errand, &states.nodes, index)?;
            return Ok(Some(path));
        }
        if *effort == 0 {
            return Err(Unfinished::Effort);
        }
        take(errand, &mut states, effort, expanded, index)?;
    }
    // not in practice: each round looks at one more of the nodes
    Err(Unfinished::NoMemory)
}
