//! The abstract warehouse: state, step, run, the states with which a run may begin, and the laws over all runs.
//!
//! Proved: over every run from a sound state: no collision, each task once, each visit made, each event answered, no
//! request refused on a well-formed instance; those laws that speak of where paths lead hold once all agents are on
//! their ways. Runs from an opening are those of Token Passing (`laws`, `homes`, `rows`).
#![tactic(auto)]

mod bounds;
pub mod homes;
pub mod laws;
pub mod rows;

pub use bounds::{LAST_CLOCK, MOST_TASKS};
