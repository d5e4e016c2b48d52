//! The subcommand `live`: scripts of clients, agents and clock at work in threads, and the log of it.
//!
//! Proved: the scripts are the sections that were read; the log is the one text of one history, made by these workers
//! alone, each of whose commands is in it or was missed with a cause (`live`).
#![tactic(auto)]

mod clients;
mod living;
mod run;
mod works;

pub use clients::{MAX_WORKERS, SCRIPT_LIMIT, read_clients};
pub use living::live;
pub use run::run_crew;
pub use works::works_of;

// handed on, for callers: what the items below take, return and speak of
pub use wh_crew::{
    Cells, Desk, DeskFault, DeskName, Front, History, Missed, Pass, Publisher, Receipt, Viewer,
    Warehouse,
};
