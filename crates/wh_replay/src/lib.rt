//! A script answered line by line; each reply is written before the next read that may wait.
//!
//! Proved: what is written is the output of the bytes read: its commands are one run, the history grows by that run
//! alone; after an error whole lines were served and none after them, all replies but the last written whole; the clock
//! of a reply is the run's (`replay`, `clocks_are`). A keeper that takes records is handed the lines of the entries, all
//! of them or up to a call that failed (`append_entries`, `Script`).
#![tactic(auto)]

mod answer;
mod answering;
mod appending;
mod asker;
mod laws;
mod replying;
mod script;
mod scripted;
mod waiting;

pub use answer::{obey, read_kept};
pub use answering::Answer;
pub use appending::append_entries;
pub use asker::Asker;
pub use laws::clocks_are;
pub use script::{ReplayFault, Replayed, replay, serve};
pub use scripted::Script;
pub use waiting::{Answers, ManyAnswers, OneAnswer};

// handed on, for callers: what the items below take, return and speak of
pub use wh_lines::{WriteFault, write_all};
pub use wh_log::Form;
pub use wh_token::{Committed, NoMemory, OpenFault, ResumeFault, Warehouse};
