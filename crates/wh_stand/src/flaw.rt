//! What is wrong with a part of a state.
#![tactic(auto)]

ghost use Rattle.std.specs.Prelude.{◌≡◌};
ghost use Rattle.wh_stand.specs.declared.flaw.Refused.TheVariants as refused;

use std::alloc::AllocError;
use wh_grid::Cell;

/// Why no sound state has a part. Each is tested only where none before it is found.
#[derive(Clone, Copy, Debug, PartialEq, Eq)]
pub enum Flaw {
    /// There are not as many agents as the points have.
    Agents,
    /// The agent's path comes to this cell, which is blocked or lies outside the grid.
    Blocked(Cell),
    /// From some cell to the next the agent's path neither stays nor goes to a neighbour.
    NoStep,
    /// The agent's path conflicts with that of this earlier agent, and with that of none before it.
    Conflict(u32),
    /// A stop of the task is left, and this one, the first of such, is no station.
    NoStation(Cell),
    /// The clocks of the task do not lie in order, or one of them is later than the state's.
    Clocks,
    /// The task has this agent, which is not known.
    UnknownAgent(u32),
    /// A stop of the task is left, and so is one of this earlier task of its agent.
    HasAnother(u32),
    /// The agent of the task, which has this number, stands at the stop that it is to visit next.
    AtItsNextStop(u32),
}

/// Why a part is not taken.
#[derive(Clone, Copy, Debug, PartialEq, Eq)]
pub enum Refused {
    /// Memory ran out.
    NoMemory,
    /// No sound state has the part.
    Flaw(Flaw),
}

impl From<AllocError> for Refused {
    ghost from_gives = { λ _ e. e ≡ refused.NoMemory };

    fn from(_e: AllocError) -> Refused {
        Refused::NoMemory
    }
}
