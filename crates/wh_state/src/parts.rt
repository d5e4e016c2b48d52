//! The parts of a state, as columns.
#![tactic(auto)]

use wh_path::TimedPath;
use wh_tasks::{Load, Task};

/// The state of a warehouse, as columns. For each agent, by its number from 0, it has a path from now on, a load, and its
/// planner's slots.
#[derive(Drop)]
pub struct StateParts {
    /// The clock, in steps of time.
    pub clock: u32,
    /// Whether nothing more is accepted.
    pub closed: bool,
    /// The path of each agent from now on.
    pub paths: Vec<TimedPath>,
    /// What each agent is doing.
    pub loads: Vec<Load>,
    /// The slots of each agent's planner.
    pub slots: Vec<u32>,
    /// The tasks, by their numbers from 0.
    pub tasks: Vec<Task>,
}
