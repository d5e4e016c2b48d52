//! Laws that the error reported for a map or a points file is its first one. Nothing runs here.
//!
//! Proved: the lines before it begin a map, or spell points, none continues with its line, and it is wrong in the way
//! that its kind says; there is exactly one such line, and none in a valid text (`map_faults_are`, `point_faults_are`).
#![tactic(auto)]

mod laws;

pub use laws::{map_faults_are, point_faults_are};
