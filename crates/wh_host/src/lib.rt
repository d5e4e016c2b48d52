//! A run that hosts running clients, with a journal, a worker for all agents and the clock, and boards on a screen.
//!
//! Proved: they leave one run that extends the earlier entries; each new entry is one client's, within its rights and
//! share, or the worker's; a journal that was the log has the lines of all, synced if it is reported whole; a screen
//! was shown ever longer prefixes (`host_clients`, `run_clients`).
#![tactic(auto)]

mod beside;
mod display;
mod hosting;
mod kept_screen;
mod pacing;
mod run;

pub use display::{Display, trouble_of_show};
pub use hosting::{Hosted, host_clients};
pub use pacing::Pacing;
pub use run::{Ran, run_clients};

// handed on, for callers: what the items above take and speak of
pub use wh_display::{Screen, ShowFault};
