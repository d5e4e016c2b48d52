//! A killed session and the next over its log, as one theorem.
//!
//! Proved: whichever call of its file was the last, each entry whose reply the first may have told stands at its place in
//! the second, in one run from one opening (`two_lives`; begin with `specs/Lives.antt`).
#![tactic(auto)]

mod dying;
mod life;
mod lives;

pub use dying::{Dying, killed};
pub use life::{Equipment, LifeFault, live};
pub use lives::{Lives, two_lives};

// handed on, for callers: what the items above take, return and speak of
pub use wh_continue::{KeepFault, LogFile, RunFault, Setting, StartFault};
pub use wh_journal::MemoryJournal;
pub use wh_log::Form;
