//! The judge of a state that is given part by part: agents, then tasks.
//!
//! Proved: parts are taken whole exactly if their state is sound, so that a run may begin with it; what is refused is
//! named by its first flaw, and changes nothing (`StateBuilder`, `laws`).
#![tactic(auto)]

mod builder;
mod flaw;
pub mod laws;
mod motion;
mod parts;
mod stations;
mod ways;
mod work;

pub use builder::StateBuilder;
pub use flaw::{Flaw, Refused};
pub use ways::{first_stray, is_berth, leads_on};

// handed on, for callers: what the items above return
pub use wh_state::{FleetState, StateParts};
