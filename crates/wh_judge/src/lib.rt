//! Verification: whether an entry is a step, whether a log is a run, and its first line that is not.
//!
//! Proved, whether paths end at the last stop or go on home: whether an entry is a step is decided exactly, from the state
//! alone; a log is called a run exactly if it is of the format and its entries are a run from the opening that it names; of
//! a text one thing can be said (`Judge::step`, `verify`, `verify_over`, `verify_unended`, `runs_are_logs`, `verdicts_are_one`).
#![tactic(auto)]

mod agents;
mod choice;
mod course;
mod follower;
mod instance;
mod judge;
mod lacking;
pub mod laws;
mod plain;
mod refusals;
mod requests;
mod routes;
mod submitting;
mod verifier;

pub use instance::Instance;
pub use judge::Judge;
pub use verifier::{Verified, VerifiedFront, verify, verify_over, verify_unended};

// handed on, for callers: what the items below take, return and speak of
pub use wh_book::{Book, FleetState, Opening, Setting, StateParts};
