//! A snapshot: the front of a log with which another run continues from the state of a book.
//!
//! Proved: it tells the book's state, who submitted each task, and how many entries each caller had; that state is the one that its
//! parts make; and its text is read back as the same front (`snapshot_of`, `snapshot`). Begin at `specs/Snapshots.antt`.
#![tactic(auto)]

mod cells;
mod counts;
mod front;
mod seats;
mod submissions;
mod tally;

pub use counts::can_count;
pub use front::{Earlier, Reached, snapshot, snapshot_of};

// handed on, for callers: what a snapshot takes and gives
pub use wh_book::Book;
pub use wh_front::{Before, Count, Front, Kind, Rules};
