//! What waits in the queue.
#![tactic(auto)]

ghost use Rattle.std.specs.Prelude.{◌≡◌, ◌≤◌, ◌^◌, IsTrue};
ghost use Rattle.wh_intervals.specs.Queues.{bound_of, number_of};

use std::cmp::Reverse;

/// A node that waits with a bound. The greatest is that of the least bound, of these that to which
/// the fewest steps are left, of these the earliest, and of these the one of the greatest number. Two words
/// are soon compared.
#[derive(Clone, Copy, PartialEq, Eq, PartialOrd, Ord)]
pub struct Entry {
    rank: Reverse<u64>,
    turn: Reverse<u64>,
}

impl Entry {
    /// The node of a number that waits with a bound, with the given number of steps left from a time on.
    pub fn of(bound: u32, left: u32, time: u32, node: u32) -> Entry
        ensures bound { bound_of result ≡ bound }
        ensures node { number_of result ≡ node }
    {
        Entry {
            rank: Reverse(u64::from(bound) * 4_294_967_296 + u64::from(left)),
            turn: Reverse(u64::from(time) * 4_294_967_296 + u64::from(u32::MAX - node)),
        }
    }

    /// Whether it comes before another one, as the greater of the two.
    pub fn is_before(self, other: Entry) -> bool
        ensures before { IsTrue result → bound_of self ≤ bound_of other }
        ensures behind { (IsTrue result → ⊥) → bound_of other ≤ bound_of self }
    {
        let rank = self.rank.0;
        let others = other.rank.0;
        rank < others || (rank == others && self.turn.0 < other.turn.0)
    }

    /// The bound.
    pub fn bound(self) -> u64
        ensures { result ≡ bound_of self }
    {
        self.rank.0 / 4_294_967_296
    }

    /// The number of the node.
    pub fn node(self) -> usize
        ensures { result ≡ number_of self }
    {
        (4_294_967_295 - self.turn.0 % 4_294_967_296) as usize
    }
}
