//! Delivers what is left behind a script, and reports what stays open.
//!
//! Proved: the entries are requests and ticks of the caller, and kept before a reply is written, each in its order; then all stands
//! still, within the bound of `wh_progress`, or is stuck, or the warehouse is closed, or the clock is at its last (`deliver`); the report is exact (`open_text`).
#![tactic(auto)]

mod delivering;
mod open_orders;
mod settling;

pub use delivering::{DeliverFault, deliver, may_deliver};
pub use open_orders::open_text;

// handed on, for callers: what the items above take
pub use wh_replay::Asker;
pub use wh_session::NoKeeper;
