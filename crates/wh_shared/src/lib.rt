//! The distance fields that a warehouse lends to its planners, each filled as far as needed, and what one planner
//! counts as kept.
//!
//! Proved: the fields are the true ones of their cells, at most as many as there is room for, the requested one filled
//! at least as far as the leg needs; a request drops at most the least recently used one, and changes nothing when out
//! of memory. No clause bounds how much farther a field is filled (`SharedFields::ask`, `look`, `Share::keep`).
//!
//! [`SharedFields`] has one field for a stop, whoever asks, and a limit on how many in all. A planner has a [`Share`]:
//! the stops whose fields it counts as kept, one for each of its slots.
#![tactic(auto)]

mod share;
mod store;

pub use share::Share;
pub use store::{SharedFields, room_within};
