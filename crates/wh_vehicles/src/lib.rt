//! The warehouse's run as a plan that vehicles carry out late; the line of a report, the texts for vehicles.
//!
//! Proved: each run of the warehouse is such a plan, so all laws of `wh_drive` hold; vehicles are always at passable
//! cells, no two at one; a line is a report exactly if it has that form; the vehicle furthest behind is named if it is
//! at least the bound behind (`laws`, `read_report`, `put_notice`, `answer_report`, `late`).
#![tactic(auto)]

mod driving;
pub mod laws;
mod notice;
mod report;

pub use driving::{answer_report, going, late};
pub use notice::{Notice, put_notice};
pub use report::{Report, read_report};
