//! The grid: cells, which of them are passable, and the reader of MovingAI maps.
//!
//! Proved: a map is read exactly if it fits the grammar, with that value; else the first error and its line are
//! returned, or out of memory, and nothing after that line changes the error; neighbours, passable cells and sameness
//! are exact (`Grid::read`, `Grid::neighbours`, `Grid::same`).
#![tactic(auto)]

mod cell;
mod fault;
mod grid;
mod head;
mod neighbours;
mod rows;

pub use cell::Cell;
pub use fault::{Fault, MapFault, MapKind};
pub use grid::Grid;
