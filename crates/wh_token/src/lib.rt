//! The machine: a book and its planners, with `prepare`, `commit`, `step`, and lists of commands.
//!
//! Proved: each commit appends one entry by one step; what was prepared may be committed after another was withdrawn;
//! at a request only its agent's planner may change; each planner plans on the grid and has the slots of the state
//! (`Warehouse`).
#![tactic(auto)]

mod asking;
mod command;
mod opening;
mod planning;
mod reading;
mod ready;
mod roster;
mod warehouse;

pub use ready::{Committed, NoMemory, Ran, Ready};
pub use roster::{OpenFault, ResumeFault};
pub use warehouse::Warehouse;
