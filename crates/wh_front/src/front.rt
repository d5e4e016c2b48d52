//! What a front tells.

use crate::before::Before;
use crate::rows::Rows;
use crate::rules::{Kind, Rules};
use wh_path::TimedPath;
use wh_tasks::Task;

/// How many entries a caller had before.
#[derive(Clone, Copy, Debug, PartialEq, Eq)]
pub struct Count {
    /// The number of the caller, below 64.
    pub caller: u32,
    /// How many entries it had, 1 or more.
    pub entries: u64,
}

/// An agent of a state.
#[derive(Drop)]
pub struct Seat {
    /// How many distance fields its planner may keep.
    pub slots: u32,
    /// Where it is at each time from now on, at one cell at least.
    pub path: TimedPath,
}

/// A task of a state, and who submitted it.
#[derive(Drop)]
pub struct Submission {
    /// The number of the caller, below 64.
    pub caller: u32,
    /// The task.
    pub task: Task,
}

/// What the front of a log tells: a state with which a run begins, and what came before.
#[derive(Drop)]
pub struct Front {
    /// The log before.
    pub before: Before,
    /// The rules of the run.
    pub rules: Rules,
    /// The clock of the state, in ticks.
    pub clock: u32,
    /// Whether the warehouse is closed.
    pub closed: bool,
    /// Where the state comes from.
    pub kind: Kind,
    /// How many entries each caller had before, by rising callers; those that had none are not told.
    pub counts: Rows<Count>,
    /// The agents, by their numbers.
    pub seats: Rows<Seat>,
    /// The tasks, by their numbers.
    pub tasks: Rows<Submission>,
}
