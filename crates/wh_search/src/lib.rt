//! What is searched for and by which heuristics; the greedy depth-first descent for a path of just as many steps as the
//! heuristic says.
//!
//! Proved: a path that the descent finds is valid and none, however long, ends earlier; where it finds none, each has
//! more steps than the heuristic at the start, or as many where the descent was given up; it expands no more states than
//! are left; kept memory has room for at most 8,192 entries (`find_straight`, `straight_or_bound`, `try_straight`, `first_end`, `SearchMemory`).
#![tactic(auto)]

pub mod errand;
mod fault;
pub mod guide;
pub mod manhattan;
mod memory;
pub mod moves;
pub mod noted;
mod straight;
mod waits;

pub use fault::{Fault, Unfinished};
pub use memory::{MOST_KEPT, SearchMemory};
pub use straight::{find_straight, straight_or_bound, try_straight};
