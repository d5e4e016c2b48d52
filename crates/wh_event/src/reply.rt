//! The reply to an event.
#![tactic(auto)]

ghost use Rattle.std.specs.Prelude.{◌≡◌, IfOk};

use std::alloc::{AllocError, Global};
use wh_path::TimedPath;
use wh_text::Name;

/// Why an event is refused. It then changes nothing.
#[derive(Drop)]
pub enum Refusal {
    /// E1: no point has the name.
    UnknownPoint(Name),
    /// E2: the point of the name is no station.
    NotStation(Name),
    /// E3: as many tasks stand as there may be: 1,000,000.
    TasksFull,
    /// E4: there is no agent of this number.
    UnknownAgent(u32),
    /// E5: the agent has this many steps left.
    Moving(u64),
    /// E6: there is no path for what the agent has to do.
    NoPath,
    /// E7: the clock is at its greatest value: 1,000,000,000.
    ClockFull,
    /// E8: the warehouse is closed.
    Closed,
    /// E9: the planner is of another map.
    ForeignPlanner,
    /// E10: there is no spare planner.
    NoSpare,
}

impl Refusal {
    /// The same refusal.
    pub fn copy(&self) -> Refusal
        ensures { result ≡ self.now }
    {
        match self {
            Refusal::UnknownPoint(name) => Refusal::UnknownPoint(name.copy()),
            Refusal::NotStation(name) => Refusal::NotStation(name.copy()),
            Refusal::TasksFull => Refusal::TasksFull,
            Refusal::UnknownAgent(agent) => Refusal::UnknownAgent(*agent),
            Refusal::Moving(left) => Refusal::Moving(*left),
            Refusal::NoPath => Refusal::NoPath,
            Refusal::ClockFull => Refusal::ClockFull,
            Refusal::Closed => Refusal::Closed,
            Refusal::ForeignPlanner => Refusal::ForeignPlanner,
            Refusal::NoSpare => Refusal::NoSpare,
        }
    }
}

/// The reply to an event.
#[derive(Drop)]
pub enum Reply {
    /// The task stands, with this number.
    Accepted { task: u32 },
    /// The agent took this task, and goes this path.
    Took { task: u32, path: TimedPath },
    /// The agent stays where it is.
    Rested,
    /// The agent goes this path out of the way, to this point.
    Parked { point: Name, path: TimedPath },
    /// The clock, and how many tasks got their first and their last visit.
    Clock { now: u32, picked: u32, dropped: u32 },
    /// The agent's planner is another one now, with the given number of slots.
    Replaced { slots: u32 },
    /// Nothing more changes.
    Closed,
    /// The event changed nothing, for this reason.
    Refused(Refusal),
}

impl Reply {
    /// The same reply; a path needs memory.
    pub fn copy(&self, alloc: Global) -> Result<Reply, AllocError>
        ensures { IfOk result (λ reply. reply ≡ self.now) }
    {
        Ok(match self {
            Reply::Accepted { task } => Reply::Accepted { task: *task },
            Reply::Took { task, path } => Reply::Took {
                task: *task,
                path: path.copy(alloc)?,
            },
            Reply::Rested => Reply::Rested,
            Reply::Parked { point, path } => Reply::Parked {
                point: point.copy(),
                path: path.copy(alloc)?,
            },
            Reply::Clock {
                now,
                picked,
                dropped,
            } => Reply::Clock {
                now: *now,
                picked: *picked,
                dropped: *dropped,
            },
            Reply::Replaced { slots } => Reply::Replaced { slots: *slots },
            Reply::Closed => Reply::Closed,
            Reply::Refused(refusal) => Reply::Refused(refusal.copy()),
        })
    }
}
