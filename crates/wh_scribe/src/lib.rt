//! One journal behind a desk: entries are appended in order, and acknowledged once synced, one sync for all who wait.
//!
//! Proved: a receipt that is returned is in a run that its pass knows, and the lines of this run up to it were synced;
//! a refused call changed nothing; after an error nothing is appended (`Scribe::call`, `Scribe::keeps`,
//! `Scribe::into_journal`).
#![tactic(auto)]

mod calling;
mod keeper;
mod mark;
mod name;
mod order;
mod page;
mod scribe;
mod waiting;

pub use calling::CallFault;
pub use name::JournalName;
pub use scribe::{Kept, Scribe};
