//! Vehicles after a stop: what a file of arrivals says, and vehicles brought to where they were.
//!
//! Proved: a text is read as a file of arrivals exactly if each whole line is a report of a known agent, and gives each
//! agent's greatest step; else the first line that is none is named. Vehicles brought to these steps are where a run of
//! vehicles over the history leads, or an agent is named (`read_arrivals`, `stand_from`, `stand`, `laws`).
#![tactic(auto)]

mod courses;
pub mod laws;
mod reading;
mod standing;

pub use reading::{ReadFault, read_arrivals};
pub use standing::{StandFault, first_paths, stand, stand_from};
