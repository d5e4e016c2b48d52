//! The state of the warehouse, by columns.
#![tactic(auto)]

ghost use Rattle.std.specs.Prelude.{◌≡◌, ◌≢◌, ℕ, ◌+◌, ◌-◌, ◌<◌, ◌≤◌, List, [], ◌∷◌, ◌++◌, length, IfOk, OnOk, OnErr, Some, slice_get, slice_set, IsTrue, ◌↔◌, All};
ghost use Rattle.wh_path.specs.Paths.{end, ends, others};
ghost use Rattle.wh_tasks.specs.declared.task.Load.{Load as Burden};
ghost use Rattle.wh_tasks.specs.declared.task.Task.{Task as Job};
ghost use Rattle.wh_tasks.specs.Tasks.{IsTask, IsOpen};
ghost use Rattle.wh_core.specs.States.{State, arrived, picked, dropped, submitted, adopted, assigned, moved, reseated, shut};
ghost use Rattle.wh_state.specs.Standings.{AreTied, IsSoundSomewhere, Standing, standing_at};
ghost use Rattle.wh_state.specs.Columns.{state_in};

use crate::arrivals::{Arrivals, arrive_all, foretell_all};
use crate::coming::note_due;
use crate::dues::Dues;
use crate::parts::StateParts;
use std::alloc::{AllocError, Global};
use std::marker::Model;
use wh_grid::{Cell, Grid};
use wh_path::TimedPath;
use wh_tasks::{EndSet, Load, PathEnds, Places, TaskSet};
use wh_text::Name;
use wh_timetable::Timetable;

/// The state of the warehouse, as the machine keeps it. For each agent it has a path from now on, a load, and its planner's
/// slots; the tasks know the cell where each path ends. The arrivals ask only the agents that are due.
#[derive(Drop)]
pub struct FleetState {
    clock: u32,
    closed: bool,
    paths: Timetable,
    loads: Vec<Load>,
    slots: Vec<u32>,
    tasks: TaskSet,
    dues: Dues,
}

impl Model for FleetState {
    ghost use Rattle.wh_state.specs.Standings.{Standing, IsSound};
    ghost use Rattle.wh_state.specs.Dues.{AreDue};

    ghost Value = { Standing };

    ghost view = { λ f. record {
      state = record {
        clock = f.clock;
        closed = f.closed;
        paths = f.paths;
        loads = f.loads.items;
        slots = f.slots.items;
        tasks = f.tasks.tasks;
      };
      room = f.tasks.room;
    } };

    ghost invariant = { λ f. IsSound f.clock f.paths f.tasks.ends f.loads.items f.slots.items f.tasks.tasks × AreDue f.clock f.paths f.tasks.tasks f.dues };
}

impl FleetState {
    /// The state over a grid at the opening: each agent stands at its start and has no load, and there are no tasks.
    pub fn open(
        alloc: Global,
        grid: &Grid,
        clock: u32,
        starts: &[Cell],
        slots: Vec<u32>,
    ) -> Result<FleetState, AllocError>
        requires clock { clock ≤ 1000000000 }
        requires few { length starts.now ≤ 256 }
        requires seats { length slots.items ≡ length starts.now }
        ensures { IfOk result (λ floor. floor.state ≡ standing_at starts.now clock slots.items) }
    {
        let cells = grid.width() as usize * grid.height() as usize;
        let mut paths = Timetable::empty(alloc, cells)?;
        let mut loads = Vec::new(alloc);
        for start in starts {
            paths.add(TimedPath::one(alloc, *start)?)?;
            loads.push(Load::None)?;
        }
        let ends = PathEnds::of(alloc, grid.width(), grid.height(), starts)?;
        let tasks = TaskSet::new(alloc, grid.width(), grid.height(), ends)?;
        let dues = Dues::all(alloc, starts.len(), u32::MAX)?;
        Ok(FleetState {
            clock,
            closed: false,
            paths,
            loads,
            slots,
            tasks,
            dues,
        })
    }

    /// The state of these parts, which stay as they are: a sound one of at most 256 agents. All agents are asked at the first
    /// arrivals. It needs memory for copies of the paths and tasks, and for each cell of the grid as an opening does.
    pub fn of(alloc: Global, grid: &Grid, parts: &StateParts) -> Result<FleetState, AllocError>
        requires { IsSoundSomewhere (state_in parts.now) }
        ensures { IfOk result (λ floor. floor.state ≡ state_in parts.now) }
    {
        let cells = grid.width() as usize * grid.height() as usize;
        let paths = Timetable::of(alloc, cells, &parts.paths)?;
        let loads = Vec::from_slice(alloc, &parts.loads)?;
        let slots = Vec::from_slice(alloc, &parts.slots)?;
        let last = ends_of(alloc, &parts.paths)?;
        let ends = PathEnds::of(alloc, grid.width(), grid.height(), &last)?;
        let tasks = TaskSet::of(alloc, grid.width(), grid.height(), ends, &parts.tasks)?;
        let dues = Dues::all(alloc, parts.paths.len(), parts.clock)?;
        Ok(FleetState {
            clock: parts.clock,
            closed: parts.closed,
            paths,
            loads,
            slots,
            tasks,
            dues,
        })
    }

    pub fn clock(&self) -> u32
        ensures value { result ≡ self.now.state.clock }
        ensures fits { result ≤ 1000000000 }
    {
        self.clock
    }

    pub fn closed(&self) -> bool
        ensures { result ≡ self.now.state.closed }
    {
        self.closed
    }

    /// The paths of all agents.
    pub fn paths(&self) -> &[TimedPath]
        ensures value { result.now ≡ self.now.state.paths }
        ensures few { length result.now ≤ 256 }
    {
        self.paths.paths()
    }

    /// The paths of all agents, for planners.
    pub fn timetable(&self) -> &Timetable
        ensures value { result.now ≡ self.now.state.paths }
        ensures few { length result.now ≤ 256 }
    {
        &self.paths
    }

    /// The loads of all agents, which agree with the tasks.
    pub fn loads(&self) -> &[Load]
        ensures value { result.now ≡ self.now.state.loads }
        ensures each { length result.now ≡ length self.now.state.paths }
        ensures tied { AreTied self.now.state.loads self.now.state.tasks }
    {
        self.loads.as_slice()
    }

    /// The slots of all agents' planners.
    pub fn slots(&self) -> &[u32]
        ensures value { result.now ≡ self.now.state.slots }
        ensures each { length result.now ≡ length self.now.state.paths }
    {
        self.slots.as_slice()
    }

    /// Whether the agent is known and has no load.
    pub fn is_idle(&self, agent: u32) -> bool
        ensures { IsTrue result ↔ (slice_get self.now.state.loads agent ≡ Some Burden.None) }
    {
        match self.loads.get(agent as usize) {
            None => false,
            Some(load) => *load == Load::None,
        }
    }

    /// The cells where the paths of all agents but this one end. It takes constant time.
    pub fn other_ends(&self, agent: u32) -> EndSet<'_>
        requires known { agent < length self.now.state.paths }
        ensures { result ≡ ends (others self.now.state.paths agent) }
    {
        self.tasks.other_ends(agent)
    }

    /// The tasks.
    pub fn tasks(&self) -> &TaskSet
        ensures tasks { result.now.tasks ≡ self.now.state.tasks }
        ensures room { result.now.room ≡ self.now.room }
        ensures ends { result.now.ends ≡ ends self.now.state.paths }
    {
        &self.tasks
    }

    /// Makes room for one task. Room that there was stays.
    pub fn reserve_task(&mut self, alloc: Global) -> Result<(), AllocError>
        ensures state { self.new.state ≡ self.old.state }
        ensures kept { self.old.room ≤ self.new.room }
        ensures room { OnOk result (1 ≤ self.new.room) }
        ensures full { OnErr result (self.old.room ≡ 0) }
    {
        self.tasks.reserve(alloc)
    }

    /// Adds an open task, and returns its number. It takes no memory.
    pub fn submit(&mut self, client: Name, stops: Places) -> u32
        requires room { 1 ≤ self.old.room }
        requires few { length self.old.state.tasks < 1000000 }
        ensures number { result ≡ length self.old.state.tasks }
        ensures state { self.new.state ≡ submitted client stops self.old.state }
    {
        self.tasks.submit(client, stops, self.clock)
    }

    /// One step of time: each path drops its first cell if a second follows, the clock grows, and the agents arrive.
    /// It takes time by the number of agents, and by the paths of those that arrive, and no memory.
    pub fn tick(&mut self) -> Arrivals
        requires { self.old.state.clock < 1000000000 }
        ensures state { self.new.state ≡ arrived (moved self.old.state) }
        ensures picked { result.picked ≡ picked (moved self.old.state) }
        ensures dropped { result.dropped ≡ dropped (moved self.old.state) }
        ensures room { self.new.room ≡ self.old.room }
    {
        self.step();
        self.arrive()
    }

    /// What the next tick's arrivals will be. Nothing changes. It takes constant time where nobody is due.
    pub fn next_arrivals(&self) -> Arrivals
        ensures picked { result.picked ≡ picked (moved self.now.state) }
        ensures dropped { result.dropped ≡ dropped (moved self.now.state) }
    {
        foretell_all(
            self.clock,
            self.paths.paths(),
            &self.loads,
            &self.tasks,
            &self.dues,
        )
    }

    /// Makes room for an agent to follow the path without new memory for who is where. Nothing visible changes.
    pub fn reserve_path(&mut self, path: &TimedPath) -> Result<(), AllocError>
        ensures same { self.new ≡ self.old }
    {
        self.paths.reserve(path)
    }

    /// An agent without a load follows a path from now on to fetch an open task, and the agents arrive.
    pub fn take(&mut self, agent: u32, n: u32, path: TimedPath)
        requires known { agent < length self.old.state.paths }
        requires idle { slice_get self.old.state.loads agent ≡ Some Burden.None }
        requires is_open { (task : Job) × IsTask self.old.state.tasks n task × IsOpen task }
        ensures { (task : Job) × IsTask self.old.state.tasks n task × (self.new.state ≡ arrived (adopted agent path (assigned agent n task self.old.state))) }
    {
        self.assign(agent, n, path);
        self.arrive();
    }

    /// An agent follows a path from now on. It looks at the open tasks.
    pub fn park(&mut self, agent: u32, path: TimedPath)
        requires { agent < length self.old.state.paths }
        ensures { self.new.state ≡ adopted agent path self.old.state }
    {
        adopt(&mut self.paths, &mut self.tasks, agent, path);
        note_due(
            self.clock,
            self.paths.paths(),
            &self.loads,
            &self.tasks,
            &mut self.dues,
            agent,
        );
    }

    /// An agent's planner has this many slots from now on.
    pub fn seat(&mut self, agent: u32, slots: u32)
        requires { agent < length self.old.state.paths }
        ensures { self.new.state ≡ reseated agent slots self.old.state }
    {
        self.slots[agent as usize] = slots;
    }

    /// Every later event is refused.
    pub fn shut(&mut self)
        ensures { self.new.state ≡ shut self.old.state }
    {
        self.closed = true;
    }

    /// One step of time, without the arrivals. No path ends elsewhere.
    fn step(&mut self)
        requires { self.old.state.clock < 1000000000 }
        ensures state { self.new.state ≡ moved self.old.state }
        ensures room { self.new.room ≡ self.old.room }
    {
        self.clock += 1;
        self.paths.tick();
    }

    /// The arrivals of all agents.
    fn arrive(&mut self) -> Arrivals
        ensures state { self.new.state ≡ arrived self.old.state }
        ensures picked { result.picked ≡ picked self.old.state }
        ensures dropped { result.dropped ≡ dropped self.old.state }
        ensures room { self.new.room ≡ self.old.room }
    {
        arrive_all(
            self.clock,
            self.paths.paths(),
            &mut self.loads,
            &mut self.tasks,
            &mut self.dues,
        )
    }

    /// An agent without a load goes by a path from now on to fetch an open task.
    fn assign(&mut self, agent: u32, n: u32, path: TimedPath)
        requires known { agent < length self.old.state.paths }
        requires idle { slice_get self.old.state.loads agent ≡ Some Burden.None }
        requires is_open { (task : Job) × IsTask self.old.state.tasks n task × IsOpen task }
        ensures { (task : Job) × IsTask self.old.state.tasks n task × (self.new.state ≡ adopted agent path (assigned agent n task self.old.state)) }
    {
        let _task = self.tasks.task(n);
        adopt(&mut self.paths, &mut self.tasks, agent, path);
        self.loads[agent as usize] = Load::Fetching(n);
        self.tasks.assign(n, agent);
        note_due(
            self.clock,
            self.paths.paths(),
            &self.loads,
            &self.tasks,
            &mut self.dues,
            agent,
        );
    }
}

/// Where each path ends.
fn ends_of(alloc: Global, paths: &[TimedPath]) -> Result<Vec<Cell>, AllocError>
    ensures { IfOk result (λ cells. cells.items ≡ ends paths.now) }
{
    let mut cells = Vec::new(alloc);
    for path in paths {
        cells.push(path.end())?;
    }
    Ok(cells)
}

/// An agent goes by a path from now on, and ends where that ends.
fn adopt(paths: &mut Timetable, tasks: &mut TaskSet, agent: u32, path: TimedPath)
    requires known { agent < length paths.old }
    requires ended { agent < length tasks.old.ends }
    ensures paths { paths.new ≡ slice_set paths.old agent path }
    ensures ends { tasks.new.ends ≡ slice_set tasks.old.ends agent (end path) }
    ensures tasks { tasks.new.tasks ≡ tasks.old.tasks }
    ensures room { tasks.new.room ≡ tasks.old.room }
{
    tasks.set_end(agent, path.end());
    paths.adopt(agent as usize, path);
}
