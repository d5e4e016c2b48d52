//! The endpoints: stations, parkings, where each agent starts; the reader of points files; what a well-formed instance
//! is.
//!
//! Proved: a points file is read exactly if it fits the grammar; what is read has passable, distinct points, distinct
//! starts and at least one agent; a name is found exactly if a point has it (`Points::read`, `Points::find`).
#![tactic(auto)]

mod draft;
mod fault;
mod layout;
mod points;
mod reader;

pub use fault::{Fault, FaultKind, PointFault};
pub use layout::Points;
pub use points::{Kind, Point};
