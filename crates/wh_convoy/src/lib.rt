//! A script with vehicles over two files: the log, and a file of arrivals beside it, and the run that continues over
//! both.
//!
//! Proved: lines are served as by `wh_dispatch`; entries are synced before reports, and both before what they cause is
//! written; a report that is not kept moves no vehicle; vehicles are found at the steps that the file names, or a line
//! or an agent is named; the file begins with a line that tells of its log's front. That what a kill leaves of both files fits
//! together is not proved (`convoy`, `find_stand`, `find_stand_from`, `first_line`, `ride_on`, `laws`).
#![tactic(auto)]

mod beginning;
mod fault;
mod files;
mod finding;
pub mod laws;
mod riding;
mod rounds;

pub use beginning::{begin_arrivals, first_line};
pub use fault::ConvoyFault;
pub use finding::{Stood, StoodFault, find_stand, find_stand_from, is_driven};
pub use riding::{RideFault, ride_on};
pub use rounds::convoy;
