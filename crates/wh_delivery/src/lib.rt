//! One call that has agents request and ticks until all stand.
//!
//! Proved: it ends; each task is then done, or held by two agents at rest, and done where paths go on home to parkings;
//! on a well-formed instance within the bound of `wh_progress`; else memory ran out, the warehouse is closed, the clock
//! is at its last, or, where the instance is not well-formed, all are stuck (`deliver_all`).
#![tactic(auto)]

mod broken_off;
mod deliver;

pub use broken_off::BrokenOff;
pub use deliver::deliver_all;
