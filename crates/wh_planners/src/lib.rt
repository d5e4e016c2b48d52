//! The planners: `Sharing`, whose paths end as early as any can, or late by no more than its slack, or are the patient ones
//! beyond its effort, and `Patient`, which waits until all others rest.
//!
//! Proved: of all that serve no path ends before `Sharing`'s, less its slack, which is 0 if none is given; and it reports
//! none only if there is none; in a request that takes all of its effort, a number of expansions that none exceeds, it goes
//! the patient way; `Patient` returns a path exactly if there is a static one, unless memory runs out
//! (`Sharing::plan`, `Patient::plan`, `patient_path`).
#![tactic(auto)]

mod deliver;
mod patient;
mod searches;
mod sharing;

pub use patient::{Patient, patient_path};
pub use sharing::Sharing;
