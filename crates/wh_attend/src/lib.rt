//! `warehouse serve`: from reading the instance to the finished log.
//!
//! Proved: the run starts from what the log holds; each named client has its rights and share, the worker the rest; old
//! and new entries are one run, and the file is its log, synced; else the first error in order, and before clients are
//! served nothing is written (`attend`).
#![tactic(auto)]

mod attending;
mod clients;
mod ending;
mod laws;
mod ready;
mod serving;
mod shares;

pub use attending::attend;
pub use clients::named_by;
pub use ending::Unattended;
pub use laws::shares_fit;

// handed on, for callers: what the items above take and speak of
pub use wh_continue::{FileJournal, LogFile};
pub use wh_host::Screen;
pub use wh_pipes::Hall;
pub use wh_serve::{Connection, Doors, End, ReplayFault, ServeFault, Served};
