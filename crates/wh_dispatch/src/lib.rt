//! A script of commands and of vehicles' reports, answered line by line, with vehicles that carry out the plan late.
//!
//! Proved: commands are answered as without vehicles, by one run; a tick is refused exactly while a vehicle is the
//! bound or more behind; after each line every vehicle that may move was granted its step and every visit made was
//! written, once each, in order; all of it is a run of vehicles over the history's ticks (`dispatch`, `serve`,
//! `set_out`, `laws`). Where lines are logged, a keeper is handed all entries, and the reports that moved vehicles and
//! no others (`Manned`).
#![tactic(auto)]

mod fleet;
mod keeping;
pub mod laws;
mod line;
mod manned;
mod script;
mod telling;
mod visits;

pub use fleet::Vehicles;
pub use line::{serve, set_out};
pub use manned::Manned;
pub use script::{DispatchFault, dispatch};
