//! Distances and shortest routes by breadth first: whole fields, lazy ones, growing ones, and one for several cells.
//!
//! Proved: a distance is the number of steps of a shortest walk, None exactly if there is no walk; a lazy field answers
//! the same up to a limit; a growing field's estimate at a level is the distance, or one more than the level; a route
//! is shortest among all walks that avoid given cells (`Field::dist`, `LazyField`, `GrowingField`, `NearestField`,
//! `route`).
#![tactic(auto)]

mod field;
mod growing;
pub mod laws;
mod lazy;
mod nearest;
mod opening;
mod routes;
mod sight;
mod table;

pub use field::{Around, Field};
pub use growing::{GrowingField, MOST_LEVEL};
pub use lazy::LazyField;
pub use nearest::NearestField;
pub use routes::{route, route_to_nearest};
pub use sight::Sight;
