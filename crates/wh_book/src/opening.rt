//! With what a book begins.
#![tactic(auto)]

ghost use Rattle.std.specs.Prelude.{◌≡◌};
ghost use Rattle.wh_points.specs.Points.{Layout};
ghost use Rattle.wh_book.specs.Openings.{opening_of};

use wh_state::StateParts;

/// With what a book begins.
#[derive(Drop)]
pub enum Opening {
    /// Each agent stands at its start and has no load, and there are no tasks.
    Starts {
        /// The clock.
        clock: u32,
        /// The slots of each agent's planner.
        slots: Vec<u32>,
    },
    /// A state that is given.
    State(StateParts),
}

impl Opening {
    /// The clock.
    pub fn clock(&self) -> u32
        ensures { (layout : Layout) → result ≡ (opening_of layout self.now).clock }
    {
        match self {
            Opening::Starts { clock, .. } => *clock,
            Opening::State(parts) => parts.clock,
        }
    }

    /// The slots of the agents' planners.
    pub fn slots(&self) -> &[u32]
        ensures { (layout : Layout) → result.now ≡ (opening_of layout self.now).slots }
    {
        match self {
            Opening::Starts { slots, .. } => slots.as_slice(),
            Opening::State(parts) => parts.slots.as_slice(),
        }
    }
}
