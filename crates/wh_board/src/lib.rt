//! The published board: a status snapshot that displays read without waiting.
//!
//! Proved: a look is the board of a history that is a run and begins with all that this display saw or learnt; it waits
//! for nobody; of the histories known to two viewers one extends the other (`Viewer::look`, `Viewer::front`,
//! `Publisher::publish`).
#![tactic(auto)]

mod board;
mod copies;
mod front;
mod page;
mod publisher;

pub use board::{Board, Shown};
pub use front::{Front, Law, Stage};
pub use page::Page;
pub use publisher::{Publisher, Told, VIEWERS, Viewer, ViewerFault};
