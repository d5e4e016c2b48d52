//! What is known of each interval: which node came last, and from when on it is expanded.
#![tactic(auto)]

ghost use Rattle.std.specs.Prelude.{◌≡◌, ℕ, ◌≤◌, Some, IsTrue, OnOk, IfOk, IfSome, IfNone};
ghost use Rattle.wh_intervals.specs.Closings.{closed_by, Notes};
ghost use Rattle.wh_intervals.specs.Nodes.{state_of, interval_of, Includes};
ghost use Rattle.wh_intervals.specs.Places.{known_in, IsLatest};
ghost use Rattle.wh_intervals.specs.Told.{IsPast, IsRest};

use crate::interval::interval_of;
use crate::intervals::Intervals;
use crate::node::Node;
use std::alloc::AllocError;

/// What is known of an interval: the number of the last node that was met there, and from when on it
/// is expanded, once it is.
#[derive(Clone, Copy)]
pub struct Known {
    pub newest: usize,
    pub since: Option<u32>,
}

/// Whether a node is in the interval of another one, and no later.
fn includes(old: Node, node: Node) -> bool
    ensures state { IsTrue result → state_of old ≡ state_of node }
    ensures from { IsTrue result → old.time ≤ node.time }
    ensures to { IsTrue result → node.until ≤ old.until }
{
    old.leg == node.leg
        && old.cell.is(node.cell)
        && old.time <= node.time
        && node.until <= old.until
}

impl Known {
    /// Whether the last node includes a node, which is the last one, by this number, where it does not.
    /// The number is a hint, and the node is looked at.
    fn meets(&mut self, nodes: &[Node], node: Node, number: usize) -> bool
        ensures includes { IsTrue result → Includes nodes.now node.time (state_of node) node.until }
        ensures since { self.new.since ≡ self.old.since }
    {
        let place = self.newest;
        if place < nodes.len() && includes(nodes[place], node) {
            return true;
        }
        self.newest = number;
        false
    }

    /// Up to when the interval is left to be expanded from a node's time on, and from now on it is; none
    /// where it is already.
    fn close(&mut self, node: Node) -> Option<u32>
        ensures rest { IfSome result (λ last. IsRest self.old.since node last) }
        ensures noted { IfSome result (λ last. self.new.since ≡ Some node.time) }
        ensures past { IfNone result ((since : ℕ) × (self.old.since ≡ Some since) × (since ≤ node.time)) }
        ensures same { IfNone result (self.new.since ≡ self.old.since) }
    {
        let last = match self.since {
            None => node.until,
            Some(since) => {
                if since <= node.time {
                    return None;
                }
                since - 1
            }
        };
        self.since = Some(node.time);
        Some(last)
    }
}

/// Whether the last node of a node's interval, if there is one, includes the node, which is the last one,
/// by this number, where it does not.
pub fn meets(
    intervals: &mut Intervals,
    nodes: &[Node],
    node: Node,
    number: usize,
) -> Result<bool, AllocError>
    ensures includes { IfOk result (λ met. IsTrue met → Includes nodes.now node.time (state_of node) node.until) }
    ensures closed { OnOk result (closed_by (known_in intervals.new) ≡ closed_by (known_in intervals.old)) }
{
    let place = intervals.number_of(interval_of(node), number)?;
    let mut known = intervals.known(place);
    let met = known.meets(nodes, node, number);
    intervals.set(place, known);
    Ok(met)
}

/// What `close` does, where the interval has a number.
fn close_at(intervals: &mut Intervals, place: usize, node: Node) -> Option<u32>
    requires { IsLatest intervals.old (interval_of node) place }
    ensures rest { IfSome result (λ last. IsRest (closed_by (known_in intervals.old) (interval_of node)) node last) }
    ensures notes { IfSome result (λ last. Notes (closed_by (known_in intervals.old)) (closed_by (known_in intervals.new)) (interval_of node) node.time) }
    ensures past { IfNone result (IsPast (closed_by (known_in intervals.old)) node) }
    ensures same { IfNone result (closed_by (known_in intervals.new) ≡ closed_by (known_in intervals.old)) }
{
    let mut known = intervals.known(place);
    let left = known.close(node);
    intervals.set(place, known);
    left
}

/// Up to when a node's interval is left to be expanded from the node's time on, and from now on it is;
/// none where it is already.
pub fn close(intervals: &mut Intervals, node: Node) -> Result<Option<u32>, AllocError>
    ensures rest { IfOk result (λ left. IfSome left (λ last. IsRest (closed_by (known_in intervals.old) (interval_of node)) node last)) }
    ensures notes { IfOk result (λ left. IfSome left (λ last. Notes (closed_by (known_in intervals.old)) (closed_by (known_in intervals.new)) (interval_of node) node.time)) }
    ensures past { IfOk result (λ left. IfNone left (IsPast (closed_by (known_in intervals.old)) node)) }
    ensures same { IfOk result (λ left. IfNone left (closed_by (known_in intervals.new) ≡ closed_by (known_in intervals.old))) }
{
    let interval = interval_of(node);
    if let Some(place) = intervals.find(interval) {
        return Ok(close_at(intervals, place, node));
    }
    // not in practice, since each node that was met has an interval that is noted
    let place = intervals.note(interval, usize::MAX)?;
    Ok(close_at(intervals, place, node))
}
