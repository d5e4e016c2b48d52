//! Tests of the libraries of grids, points, paths, fields and searches; and `layers`, a plain search that is proved as
//! well.
//!
//! Proved: `layers` finds a valid path that none ends earlier than, and none exactly if there is none.
#![tactic(auto)]

#[cfg(test)]
mod agree;
#[cfg(test)]
mod beyond;
#[cfg(test)]
mod detours;
#[cfg(test)]
mod errands;
#[cfg(test)]
mod field;
#[cfg(test)]
mod formed;
#[cfg(test)]
mod grid;
#[cfg(test)]
mod intervals;
pub mod layers;
#[cfg(test)]
mod path;
#[cfg(test)]
mod points;
#[cfg(test)]
mod search;
#[cfg(test)]
mod timetable;
mod trail;
#[cfg(test)]
mod unguided;
