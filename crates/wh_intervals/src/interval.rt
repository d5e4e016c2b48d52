//! The times in which an agent may wait at a cell, by which arrivals are told apart.
#![tactic(auto)]

ghost use Rattle.std.specs.Prelude.{◌≡◌, ◌↔◌, ◌<◌, ◌^◌, IsTrue};
ghost use Rattle.wh_intervals.specs.Nodes.{interval_of};
ghost use Rattle.wh_intervals.specs.Places.{number_of, spread};

use crate::node::Node;
use wh_grid::Cell;

/// An agent with a number of stops behind it may wait at a cell up to a time. All arrivals there between
/// two visits of others are in one interval, since somebody comes just after its end.
#[derive(Clone, Copy)]
pub struct Interval {
    pub leg: u32,
    pub cell: Cell,
    pub until: u32,
}

impl Interval {
    /// Whether it is this interval.
    pub fn is(self, other: Interval) -> bool
        ensures { IsTrue result ↔ (self ≡ other) }
    {
        self.until == other.until && self.cell.is(other.cell) && self.leg == other.leg
    }

    /// A number of it, that two intervals seldom share.
    fn number(self) -> u64
        ensures { result ≡ number_of self }
    {
        let spot = u32::from(self.cell.y) * 65_536 + u32::from(self.cell.x);
        u64::from(self.until.wrapping_add(self.leg)) * 4_294_967_296 + u64::from(spot)
    }

    /// A number that spreads intervals, by the multiplier of Fibonacci hashing and the upper bits of the
    /// product.
    pub fn spread(self) -> usize
        ensures value { result ≡ spread self }
        ensures bound { result < 2 ^ 32 }
    {
        (self.number().wrapping_mul(0x9E37_79B9_7F4A_7C15) >> 32) as usize
    }
}

/// The interval of a node.
pub fn interval_of(node: Node) -> Interval
    ensures { result ≡ interval_of node }
{
    Interval {
        leg: node.leg,
        cell: node.cell,
        until: node.until,
    }
}
