//! The hand-over of a run: the front of a log that continues another.
//!
//! Proved: the state after any entry of a log, in one pass (`state_after`); the front of the state after the last entry that a log tells, or
//! after an earlier one, and the sum of the lines that lead there (`front_after`); the text of the front of the state as vehicles really
//! stand, of which a run may go on (`stopped_text`); why there is none. Begin at `specs/Handing.antt` and `specs/Standing.antt`.
#![tactic(auto)]

mod after;
mod behind;
mod chain;
mod count;
mod due;
mod front;
mod laws;
mod standing;
mod stopped;
mod sum;

pub use after::state_after;
pub use chain::{LinkFault, Linked, link};
pub use front::{HandoverFault, front_after, recovered};
pub use laws::{stopped_joins_keep_tasks, whole_joins_are_one_run};
pub use standing::{stopped_front, stopped_text};
pub use sum::sum_of;

// handed on, for callers: what the items above take, return and speak of
pub use wh_front::{Front, front_text};
pub use wh_resume::{Book, Resumed, Setting};
