//! Laws that everything is delivered within a bound. Nothing runs here.
//!
//! Proved: each round, in which the clock advances and each idle agent requests where a task is open, brings what is
//! left to do down, or all stood still; only a new task raises it. On a well-formed instance all tasks are done after
//! as many rounds as are left, where each has its stops at two cells at most, or with homes at parkings; any other is
//! done or held by two agents (`laws`, `rows`).
#![tactic(auto)]

pub mod laws;
pub mod rows;
