//! The arrivals of all agents.
#![tactic(auto)]

ghost use Rattle.std.specs.Prelude.{◌≡◌, ◌<◌, ◌≤◌, ◌+◌, ℕ, Some, length, map, All, slice_set, slice_index_or};
ghost use Rattle.wh_path.specs.Paths.{at, place_of, advanced};
ghost use Rattle.wh_tasks.specs.Arrivals.{arrived_tasks, arrived_load, picked, dropped};
ghost use Rattle.wh_tasks.specs.Changes.{IsInTime};
ghost use Rattle.wh_tasks.specs.Loads.{task_of, Holds};
ghost use Rattle.wh_state.specs.Arriving.{visited_by, ArrivesBy, ForetellsBy};
ghost use Rattle.wh_tasks.specs.declared.task.Load.{Load as Burden};
ghost use Rattle.wh_state.specs.Standings.{AreTied, IsLoadOf};
ghost use Rattle.wh_state.specs.Dues.{AreDue, IsAway};

use crate::coming::due_of;
use crate::dues::Dues;
use wh_grid::Cell;
use wh_path::TimedPath;
use wh_tasks::{Arrived, Foretold, Load, TaskSet, arrive, foretell};

/// How many tasks arrivals pick up, and how many they deliver.
#[derive(Clone, Copy, Debug, PartialEq, Eq)]
pub struct Arrivals {
    pub picked: u32,
    pub dropped: u32,
}

/// Each agent that has a task visits its next stop, and the next after it, as long as it stands there. It asks only the
/// agents that are due, and takes no memory.
pub fn arrive_all(
    clock: u32,
    paths: &[TimedPath],
    loads: &mut [Load],
    tasks: &mut TaskSet,
    dues: &mut Dues,
) -> Arrivals
    requires few { length paths.now ≤ 256 }
    requires each { length loads.old ≡ length paths.now }
    requires tied { AreTied loads.old tasks.old.tasks }
    requires in_time { All (IsInTime clock) tasks.old.tasks }
    requires due { AreDue clock paths.now tasks.old.tasks dues.old }
    ensures tasks { tasks.new.tasks ≡ arrived_tasks clock (place_of paths.now) tasks.old.tasks }
    ensures loads { loads.new ≡ map (arrived_load tasks.new.tasks) loads.old }
    ensures picked { result.picked ≡ picked clock (place_of paths.now) tasks.old.tasks }
    ensures dropped { result.dropped ≡ dropped clock (place_of paths.now) tasks.old.tasks }
    ensures room { tasks.new.room ≡ tasks.old.room }
    ensures ends { tasks.new.ends ≡ tasks.old.ends }
    ensures due { AreDue clock paths.now tasks.new.tasks dues.new }
{
    let mut picked = 0;
    let mut dropped = 0;
    if !dues.is_any(clock) {
        return Arrivals { picked, dropped };
    }
    for agent in 0..loads.len() {
        let arrived = ask_one(clock, agent, paths, loads, tasks, dues);
        picked += u32::from(arrived.picked);
        dropped += u32::from(arrived.dropped);
    }
    dues.renew();
    Arrivals { picked, dropped }
}

/// The arrivals of one agent, which is asked only if it is due.
fn ask_one(
    clock: u32,
    agent: usize,
    paths: &[TimedPath],
    loads: &mut [Load],
    tasks: &mut TaskSet,
    dues: &mut Dues,
) -> Arrived
    requires known { agent < length loads.old }
    requires each { length loads.old ≡ length paths.now }
    requires load { IsLoadOf tasks.old.tasks agent (slice_index_or loads.old agent Burden.None) }
    requires in_time { All (IsInTime clock) tasks.old.tasks }
    requires due { AreDue clock paths.now tasks.old.tasks dues.old }
    ensures tasks { tasks.new.tasks ≡ visited_by clock (place_of paths.now agent) (task_of (slice_index_or loads.old agent Burden.None)) tasks.old.tasks }
    ensures loads { loads.new ≡ slice_set loads.old agent result.load }
    ensures arrived { ArrivesBy clock (place_of paths.now agent) tasks.old.tasks (task_of (slice_index_or loads.old agent Burden.None)) result }
    ensures room { tasks.new.room ≡ tasks.old.room }
    ensures ends { tasks.new.ends ≡ tasks.old.ends }
    ensures due { AreDue clock paths.now tasks.new.tasks dues.new }
{
    let load = loads[agent];
    if !dues.is_due(agent, clock) {
        return Arrived {
            load,
            picked: false,
            dropped: false,
        };
    }
    let path = &paths[agent];
    let arrived = arrive_one(clock, path.start(), load, tasks);
    loads[agent] = arrived.load;
    dues.put(agent, due_of(clock, path, load, tasks));
    arrived
}

/// The arrivals of one agent, which is here.
fn arrive_one(clock: u32, here: Cell, load: Load, tasks: &mut TaskSet) -> Arrived
    requires holds { (n : ℕ) → task_of load ≡ Some n → (agent : ℕ) × Holds tasks.old.tasks agent n load }
    requires in_time { All (IsInTime clock) tasks.old.tasks }
    ensures tasks { tasks.new.tasks ≡ visited_by clock here (task_of load) tasks.old.tasks }
    ensures room { tasks.new.room ≡ tasks.old.room }
    ensures ends { tasks.new.ends ≡ tasks.old.ends }
    ensures arrived { ArrivesBy clock here tasks.old.tasks (task_of load) result }
{
    match load.task() {
        None => Arrived {
            load: Load::None,
            picked: false,
            dropped: false,
        },
        Some(n) => arrive(tasks, n, clock, here),
    }
}

/// What the arrivals one step of time later will be. It asks only the agents that are due then. Nothing changes.
pub fn foretell_all(
    clock: u32,
    paths: &[TimedPath],
    loads: &[Load],
    tasks: &TaskSet,
    dues: &Dues,
) -> Arrivals
    requires fits { clock ≤ 1000000000 }
    requires few { length paths.now ≤ 256 }
    requires each { length loads.now ≡ length paths.now }
    requires tied { AreTied loads.now tasks.now.tasks }
    requires due { AreDue clock paths.now tasks.now.tasks dues.now }
    ensures picked { result.picked ≡ picked (clock + 1) (place_of (map advanced paths.now)) tasks.now.tasks }
    ensures dropped { result.dropped ≡ dropped (clock + 1) (place_of (map advanced paths.now)) tasks.now.tasks }
{
    let mut picked = 0;
    let mut dropped = 0;
    if !dues.is_any(clock + 1) {
        return Arrivals { picked, dropped };
    }
    for agent in 0..loads.len() {
        let told = foretell_if_due(clock, agent, &paths[agent], loads[agent], tasks, dues);
        picked += u32::from(told.picked);
        dropped += u32::from(told.dropped);
    }
    Arrivals { picked, dropped }
}

/// What the arrivals of one agent one step of time later will be. It is asked only if it is due then.
fn foretell_if_due(
    clock: u32,
    agent: usize,
    path: &TimedPath,
    load: Load,
    tasks: &TaskSet,
    dues: &Dues,
) -> Foretold
    requires fits { clock ≤ 1000000000 }
    requires known { agent < length dues.now }
    requires load { IsLoadOf tasks.now.tasks agent load }
    requires away { IsAway clock path.now tasks.now.tasks (slice_index_or dues.now agent 0) agent }
    ensures { ForetellsBy (clock + 1) (at path.now 1) tasks.now.tasks (task_of load) result }
{
    if !dues.is_due(agent, clock + 1) {
        return Foretold {
            picked: false,
            dropped: false,
        };
    }
    foretell_one(path.at(1), load, tasks)
}

/// What the arrivals of one agent, which will be here, will be.
fn foretell_one(here: Cell, load: Load, tasks: &TaskSet) -> Foretold
    requires { (n : ℕ) → task_of load ≡ Some n → n < length tasks.now.tasks }
    ensures { (clock : ℕ) → ForetellsBy clock here tasks.now.tasks (task_of load) result }
{
    match load.task() {
        None => Foretold {
            picked: false,
            dropped: false,
        },
        Some(n) => foretell(tasks, n, here),
    }
}
