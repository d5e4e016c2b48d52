//! The whole program as one call, from arguments and input to output and status.
//!
//! Proved: what the arguments ask for was done, and the status says what it came to; or no input was read, and it says
//! why. Nothing is said of the bytes of a file or pipe (`run`).
#![tactic(auto)]

mod attending;
mod barring;
mod driving;
mod running;
mod stating;

pub use running::{end, run};

// handed on, for callers: what the items above take
pub use wh_service::PlannerParts;
