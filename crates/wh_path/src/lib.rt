//! Timed paths: where an agent is at each time; vertex, swap and following conflicts; lemmas on walks.
//!
//! Proved: a path is where it says at every time, resting included; `conflict` finds the first conflict over all times,
//! and none exactly if two paths are free for ever; being free is mutual and lasts (`conflict`, `TimedPath`, `laws`).
#![tactic(auto)]

mod ends;
mod kind;
pub mod laws;
mod meeting;
mod path;

pub use ends::last_to_rest;
pub use kind::Conflict;
pub use meeting::conflict;
pub use path::TimedPath;
