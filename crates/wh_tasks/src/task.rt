//! Tasks and loads.
#![tactic(auto)]

ghost use Rattle.std.specs.Prelude.{◌≡◌, ◌+◌, ◌<◌, ◌≤◌, ◌++◌, ◌∷◌, ◌↔◌, ◌⊎◌, [], length, IsTrue, All};
ghost use Rattle.wh_tasks.specs.Arrivals.{stops_here};

use arrayvec::ArrayVec;
use std::marker::Model;
use wh_grid::Cell;
use wh_text::Name;

/// The cells of a task's stops, 2 to 8 of them, in their order.
#[derive(Drop)]
pub struct Places {
    cells: ArrayVec<Cell, 8>,
}

impl Model for Places {
    ghost use Rattle.std.specs.Prelude.{List, ◌≤◌, length};
    ghost use Rattle.wh_grid.specs.declared.cell.Cell.{Cell};

    ghost Value = { List Cell };

    ghost view = { λ p. p.cells.items };

    ghost invariant = { λ p. (2 ≤ length p.cells.items) × (length p.cells.items ≤ 8) };
}

impl Places {
    /// These 2 to 8 cells. It takes no memory.
    pub fn of(cells: &[Cell]) -> Places
        requires two { 2 ≤ length cells.now }
        requires eight { length cells.now ≤ 8 }
        ensures { result ≡ cells.now }
    {
        let mut places = ArrayVec::new();
        for cell in cells {
            places.push(*cell);
        }
        Places { cells: places }
    }

    /// The cells, 2 to 8 of them.
    pub fn as_slice(&self) -> &[Cell]
        ensures value { result.now ≡ self.now }
        ensures two { 2 ≤ length self.now }
        ensures eight { length self.now ≤ 8 }
    {
        self.cells.as_slice()
    }
}

/// The clocks of a task's visits, one for each stop that was visited, in their order. There is always room for 8.
#[derive(Drop)]
pub struct Visits {
    clocks: ArrayVec<u32, 8>,
}

impl Model for Visits {
    ghost use Rattle.std.specs.Prelude.{ℕ, List};

    ghost Value = { List ℕ };

    ghost view = { λ v. v.clocks.items };
}

impl Visits {
    /// No visit.
    pub fn none() -> Visits
        ensures { result ≡ [] }
    {
        Visits {
            clocks: ArrayVec::new(),
        }
    }

    /// The clocks, at most 8 of them.
    pub fn as_slice(&self) -> &[u32]
        ensures value { result.now ≡ self.now }
        ensures eight { length self.now ≤ 8 }
    {
        self.clocks.as_slice()
    }

    /// The same clocks.
    pub(crate) fn copy(&self) -> Visits
        ensures { result ≡ self.now }
    {
        let mut clocks = ArrayVec::new();
        for clock in self.clocks.as_slice() {
            clocks.push(*clock);
        }
        Visits { clocks }
    }

    /// A further visit at this clock. It takes no memory.
    pub fn push(&mut self, clock: u32)
        requires { length self.old < 8 }
        ensures { self.new ≡ self.old ++ clock ∷ [] }
    {
        self.clocks.push(clock);
    }
}

/// A task: who asked for it, its stops, when it was submitted, the agent that it is assigned to, and its visits.
#[derive(Drop)]
pub struct Task {
    /// Who asked for it.
    pub client: Name,
    /// The cells that it leads over, from the first, where it is picked up, to the last, where it is delivered.
    pub stops: Places,
    /// The clock at which it was submitted.
    pub submitted: u32,
    /// The agent that it is assigned to; None while it is open.
    pub agent: Option<u32>,
    /// The clocks of the visits, one for each stop that was visited.
    pub visits: Visits,
}

/// How far a task has come.
#[derive(Clone, Copy, Debug, PartialEq, Eq)]
pub enum Phase {
    /// No agent has it.
    Open,
    /// An agent is on its way to the first stop.
    Assigned,
    /// The first stop was visited, and not yet the last.
    Carried,
    /// The last stop was visited.
    Done,
}

/// Which of a task's stops was visited.
#[derive(Clone, Copy, Debug, PartialEq, Eq)]
pub enum Visit {
    /// The first: the task is picked up.
    First,
    /// One between the first and the last.
    Between,
    /// The last: the task is delivered.
    Last,
}

/// What an agent is doing.
#[derive(Clone, Copy, Debug, PartialEq, Eq)]
pub enum Load {
    /// It has no task.
    None,
    /// It is on its way to the first stop of a task.
    Fetching(u32),
    /// It has visited this many stops of a task, and not yet the last.
    Carrying {
        /// The number of the task.
        task: u32,
        /// How many of its stops were visited: 1 or more.
        visited: u32,
    },
}

/// How many tasks are in each phase.
#[derive(Clone, Copy, Debug, PartialEq, Eq)]
pub struct Counts {
    /// How many no agent has.
    pub open_tasks: u32,
    /// How many are assigned, and not yet picked up.
    pub assigned: u32,
    /// How many are carried.
    pub carried: u32,
    /// How many are done.
    pub done: u32,
}

impl Task {
    ghost use Rattle.wh_tasks.specs.Tasks.{phase, visited, stops_left, pickup, delivery, load_for};
    ghost use Rattle.wh_tasks.specs.Changes.{visited_once, visit_of, IsInTime};
    ghost use Rattle.wh_tasks.specs.declared.task.Phase.{Phase as Stage};

    /// The same task. It takes no memory.
    pub fn copy(&self) -> Task
        ensures { result ≡ self.now }
    {
        Task {
            client: self.client.copy(),
            stops: Places::of(self.stops.as_slice()),
            submitted: self.submitted,
            agent: self.agent,
            visits: self.visits.copy(),
        }
    }

    /// How far it has come.
    pub fn phase(&self) -> Phase
        ensures { result ≡ phase self.now }
    {
        if self.agent.is_none() {
            return Phase::Open;
        }
        let seen = self.visits.as_slice().len();
        if seen == 0 {
            Phase::Assigned
        } else if seen < self.stops.as_slice().len() {
            Phase::Carried
        } else {
            Phase::Done
        }
    }

    /// The cell of the first stop.
    pub fn pickup(&self) -> Cell
        ensures { result ≡ pickup self.now }
    {
        self.stops.as_slice()[0]
    }

    /// The cell of the last stop.
    pub fn delivery(&self) -> Cell
        ensures { result ≡ delivery self.now }
    {
        let stops = self.stops.as_slice();
        stops[stops.len() - 1]
    }

    /// What its agent is doing for it, where n is its number.
    pub fn load(&self, n: u32) -> Load
        ensures { result ≡ load_for n self.now }
    {
        match self.phase() {
            Phase::Open | Phase::Done => Load::None,
            Phase::Assigned => Load::Fetching(n),
            Phase::Carried => Load::Carrying {
                task: n,
                visited: self.visits.as_slice().len() as u32,
            },
        }
    }

    /// How many of the stops that are left, from the next one on, are this cell.
    pub fn stops_here(&self, here: Cell) -> usize
        requires { visited self.now ≤ length self.now.stops }
        ensures here { result ≡ stops_here here (stops_left self.now) }
        ensures within { visited self.now + result ≤ length self.now.stops }
    {
        let seen = self.visits.as_slice().len();
        count_here(here, &self.stops.as_slice()[seen..])
    }

    /// Whether an agent has it, and a stop is left.
    pub fn is_underway(&self) -> bool
        ensures { IsTrue result ↔ ((phase self.now ≡ Stage.Assigned) ⊎ (phase self.now ≡ Stage.Carried)) }
    {
        match self.phase() {
            Phase::Assigned | Phase::Carried => true,
            Phase::Open | Phase::Done => false,
        }
    }

    /// Whether none of its clocks is later than this one.
    pub fn is_in_time(&self, clock: u32) -> bool
        ensures { IsTrue result ↔ IsInTime clock self.now }
    {
        self.submitted <= clock && none_later(self.visits.as_slice(), clock)
    }

    /// The next stop is visited at this clock.
    pub fn visit(&mut self, clock: u32) -> Visit
        requires { visited self.old < length self.old.stops }
        ensures task { self.new ≡ visited_once clock self.old }
        ensures visit { result ≡ visit_of self.old }
    {
        let stops = self.stops.as_slice().len();
        let seen = self.visits.as_slice().len();
        self.visits.push(clock);
        if seen == 0 {
            Visit::First
        } else if seen + 1 < stops {
            Visit::Between
        } else {
            Visit::Last
        }
    }
}

impl Load {
    ghost use Rattle.wh_tasks.specs.Loads.{task_of};

    /// The number of its task, if it has one.
    pub fn task(self) -> Option<u32>
        ensures { result ≡ task_of self }
    {
        match self {
            Load::None => None,
            Load::Fetching(n) => Some(n),
            Load::Carrying { task, .. } => Some(task),
        }
    }
}

/// Whether none of the clocks is later than one.
fn none_later(clocks: &[u32], clock: u32) -> bool
    ensures { IsTrue result ↔ All (λ earlier. earlier ≤ clock) clocks.now }
{
    clocks.iter().all(|earlier| *earlier <= clock)
}

/// How many of the stops, from the first on, are this cell.
fn count_here(here: Cell, stops: &[Cell]) -> usize
    ensures here { result ≡ stops_here here stops.now }
    ensures within { result ≤ length stops.now }
{
    for (k, stop) in stops.iter().enumerate() {
        if here != *stop {
            return k;
        }
    }
    stops.len()
}

impl Counts {
    ghost use Rattle.wh_tasks.specs.Changes.{counted_more, counted_assign, counted_visit, AreFew, CanCount};

    /// No task.
    pub(crate) fn none() -> Counts
        ensures { result ≡ record { open_tasks = 0; assigned = 0; carried = 0; done = 0 } }
    {
        Counts {
            open_tasks: 0,
            assigned: 0,
            carried: 0,
            done: 0,
        }
    }

    /// A task in this phase was added.
    pub(crate) fn add(&mut self, phase: Phase)
        requires { AreFew self.old }
        ensures { self.new ≡ counted_more phase self.old }
    {
        match phase {
            Phase::Open => self.open_tasks += 1,
            Phase::Assigned => self.assigned += 1,
            Phase::Carried => self.carried += 1,
            Phase::Done => self.done += 1,
        }
    }

    /// An open task was assigned.
    pub(crate) fn assign(&mut self)
        requires few { AreFew self.old }
        requires there { 1 ≤ self.old.open_tasks }
        ensures { self.new ≡ counted_assign self.old }
    {
        self.open_tasks -= 1;
        self.assigned += 1;
    }

    /// A stop was visited.
    pub(crate) fn visit(&mut self, visit: Visit)
        requires few { AreFew self.old }
        requires there { CanCount visit self.old }
        ensures { self.new ≡ counted_visit visit self.old }
    {
        match visit {
            Visit::First => {
                self.assigned -= 1;
                self.carried += 1;
            }
            Visit::Between => {}
            Visit::Last => {
                self.carried -= 1;
                self.done += 1;
            }
        }
    }
}
