//! What an agent may be asked to do.
#![tactic(auto)]

use wh_grid::Cell;

/// What a path is planned for.
#[derive(Clone, Copy)]
pub enum Duty<'a> {
    /// To go through the stops, 2 to 9 of them, in their order, and to end at the last.
    Deliver { stops: &'a [Cell] },
    /// To end at one of these cells.
    Park { allowed: &'a [Cell] },
}
