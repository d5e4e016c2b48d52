//! The lines of a front.

use crate::before::Before;
use crate::front::{Count, Seat, Submission};
use crate::rows::Rows;
use crate::rules::{Kind, Rules};

/// What a line of a front tells.
#[derive(Drop)]
pub enum Line {
    /// `wlog 3`
    Title,
    /// `after ..`: the log before.
    Before(Before),
    /// `rules ..`: the rules that are not the defaults.
    Rules(Rules),
    /// `state CLOCK open|closed whole|stopped|edited`
    State {
        clock: u32,
        closed: bool,
        kind: Kind,
    },
    /// `entries ..`: how many entries each caller had before.
    Entries(Rows<Count>),
    /// `agents N`: so many lines of agents follow.
    Agents(u32),
    /// `agent ..`
    Agent(Seat),
    /// `tasks N`: so many lines of tasks follow.
    Tasks(u32),
    /// `task ..`
    Task(Submission),
    /// `begin`: the last line.
    Begin,
}
