//! Workers as threads over one desk, and what a turn of a worker for agents and clock came to.
//!
//! Proved: the history is a run from an opening and holds each worker's commands, in order, without those missed, each
//! with a cause; whether a turn changed nothing but the clock, so that nothing is to do at a board (`crew`,
//! `LastTurn::rests_at`).
#![tactic(auto)]

mod gate;
mod last_turn;
mod threads;
mod trouble;
mod turns;
mod worker;

pub use gate::Gate;
pub use last_turn::{Idle, LastTurn};
pub use threads::{CrewFault, Crewed, Due, crew};
pub use trouble::trouble_of;
pub use turns::is_to_tick;
pub use worker::{Missed, Report, work_through};

// handed on, for callers: what the items below take, return and speak of
pub use wh_desk::{
    Answer, Cells, Desk, DeskFault, DeskName, Front, History, OpenFault, Pass, Publisher, Receipt,
    Viewer, ViewerFault, Warehouse,
};
