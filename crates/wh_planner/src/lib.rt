//! The trait of planners, valid paths, and static paths.
//!
//! Proved: of every planner: a returned path is valid, and there is none only without a static path, also for an agent
//! under way; a static path gives a valid one, with or without the rule (`Planner::plan`, `laws`).
#![tactic(auto)]

mod duty;
pub mod laws;
mod others;
mod planner;

pub use duty::Duty;
pub use others::other_ends;
pub use planner::{PlanFault, Planner, Plans, Scene};
