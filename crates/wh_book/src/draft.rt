//! What was prepared.
#![tactic(auto)]

use wh_event::Entry;
use wh_path::TimedPath;
use wh_tasks::Places;
use wh_text::Name;

/// What a prepared event does to the state.
#[derive(Drop)]
pub enum Change {
    /// It stays.
    Nothing,
    /// A task is added.
    Add {
        client: Name,
        stops: Places,
    },
    /// An agent takes a task.
    Take {
        agent: u32,
        task: u32,
        path: TimedPath,
    },
    /// An agent makes way.
    Park {
        agent: u32,
        path: TimedPath,
    },
    /// One step of time.
    Tick,
    /// An agent's planner is replaced by one with `slots` slots.
    Seat {
        agent: u32,
        slots: u32,
    },
    /// Every later event is refused.
    Shut,
}

/// An event that is ready to be committed: its entry for the history, and what it does.
#[derive(Drop)]
pub struct Draft {
    pub entry: Entry,
    pub change: Change,
}
