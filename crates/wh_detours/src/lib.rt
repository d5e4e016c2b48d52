//! A delivery where agents at rest block the way to a stop: the same search on the grid without their cells. Who comes to
//! rest before the agent can be there counts as well.
//!
//! Proved: the same of a delivery, with a detour or without; the grid without taken cells has just the other cells, on
//! it the same paths deliver, and a shortest one there is a shortest one; of others no cell is left out but one at which
//! the agent can never be. When a detour is made no clause says, since it changes no bound (`deliver_round`,
//! `without_taken`, `without_shut`, `barred_ways`, `laws`).
#![tactic(auto)]

mod barred;
mod closed;
mod fields;
mod filled;
mod laws;
mod round;
mod taken;

pub use laws::{all_least_there, same_deliveries};
pub use round::deliver_round;
pub use taken::without_taken;
