//! The warehouse behind one lock: passes, receipts, one history.
//!
//! Proved: each answered call is a receipt that is in one history for good, after all that its pass had received, with
//! the clock there; a refusal changes nothing and sets no cell; who finds the journal full knows of a history with an
//! entry for each cell; at the end each pass knows a prefix of the history (`Desk`, `Journal::enter`, `Desk::meet`,
//! `Desk::finish`).
#![tactic(auto)]

mod answer;
mod cells;
mod desk;
mod earlier;
mod journal;
mod making;
mod naming;
mod pass;

pub use answer::{Answer, DeskFault, Met, Receipt, Stale};
pub use cells::Cells;
pub use desk::Desk;
pub use earlier::Unopened;
pub use journal::{History, Journal};
pub use naming::DeskName;
pub use pass::{Held, Pass, Row};

// handed on, for callers: what the items below take, return and speak of
pub use wh_board::{Board, Front, Publisher, Told, Viewer, ViewerFault};
pub use wh_token::{OpenFault, Warehouse};
