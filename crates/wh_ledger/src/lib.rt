//! The delivery ledger: tasks counted by client, and its text.
//!
//! Proved: a ledger is the count over the whole task list: one row for each client, in order of first tasks, whose four
//! phases add up; its text is the format's (`DeliveryLedger::of`, `ledger_text`, `laws`).
#![tactic(auto)]

pub mod laws;
mod ledger;
mod row;
mod text;

pub use ledger::DeliveryLedger;
pub use row::Row;
pub use text::ledger_text;
