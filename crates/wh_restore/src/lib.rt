//! Restores the state with which a run begins from the front of a log of version 3.
//!
//! Proved: a state is restored exactly if the text begins with the front of a sound one, and it is the one that this
//! front tells; else the first line with a flaw is told with the reason (`restore`). Begin at `specs/SoundFronts.antt`.
#![tactic(auto)]

mod follow;
mod from_front;
mod reason;
mod restored;
mod restoring;
mod text;

pub use from_front::restore;
pub use reason::{Reason, RestoreFault};
pub use restored::{Head, Restored};
