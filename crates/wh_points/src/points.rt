//! Named cells.
#![tactic(auto)]

use wh_grid::Cell;
use wh_text::Name;

/// What a point is for.
#[derive(Clone, Copy, Debug, PartialEq, Eq)]
pub enum Kind {
    /// Tasks may name it.
    Station,
    /// No task may name it.
    Parking,
}

/// A named cell.
#[derive(Drop)]
pub struct Point {
    pub name: Name,
    pub cell: Cell,
    pub kind: Kind,
}
