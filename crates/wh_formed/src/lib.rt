//! Decides whether an instance is well-formed, over worker threads.
//!
//! Proved: the verdict is the only one that the definition allows: well-formed, too few parkings, or the first pair of
//! points that is cut; so it is the same for any number of workers (`check`).
#![tactic(auto)]

mod checker;
mod fill;
mod gather;
mod labels;
mod stamps;
mod table;
mod verdict;

pub use checker::check;
pub use verdict::{NoMemory, Verdict};
