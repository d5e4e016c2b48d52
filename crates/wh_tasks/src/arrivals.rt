//! The arrivals of one agent.
#![tactic(auto)]

ghost use Rattle.std.specs.Prelude.{◌≡◌, ℕ, ◌<◌, ◌==◌, ◌&&◌, nat_lt, length};
ghost use Rattle.wh_tasks.specs.Tasks.{IsTask};
ghost use Rattle.wh_tasks.specs.Arrivals.{visited_at};
ghost use Rattle.wh_tasks.specs.Changes.{changed_at, IsInTime};
ghost use Rattle.wh_tasks.specs.Visiting.{Arrives, Foretells, IsGoing, visited_times};
ghost use Rattle.wh_tasks.specs.declared.task.Task.{Task as Job};

use crate::task::Load;
use crate::task_set::TaskSet;
use wh_grid::Cell;

/// What an agent's arrivals leave it to do, and whether they pick up its task or deliver it.
#[derive(Clone, Copy, Debug, PartialEq, Eq)]
pub struct Arrived {
    /// What is left to do.
    pub load: Load,
    /// The first stop is among those visited.
    pub picked: bool,
    /// The last stop is among those visited.
    pub dropped: bool,
}

/// The agent of a task, which is here, visits its next stop, and the next after it, as long as its cell is that stop.
/// It takes no memory.
pub fn arrive(tasks: &mut TaskSet, n: u32, clock: u32, here: Cell) -> Arrived
    requires { (task : Job) × IsGoing tasks.old.tasks n 1 task × IsInTime clock task }
    ensures tasks { tasks.new.tasks ≡ changed_at n (visited_at clock here) tasks.old.tasks }
    ensures room { tasks.new.room ≡ tasks.old.room }
    ensures ends { tasks.new.ends ≡ tasks.old.ends }
    ensures arrived { (task : Job) × IsTask tasks.old.tasks n task × Arrives n task (visited_at clock here task) result }
{
    let task = tasks.task(n);
    let seen = task.visits.as_slice().len();
    let stops = task.stops.as_slice().len();
    let count = task.stops_here(here);
    visit_times(tasks, n, clock, count);
    Arrived {
        load: tasks.task(n).load(n),
        picked: begins(seen, seen + count),
        dropped: finishes(seen, seen + count, stops),
    }
}

/// Whether the next arrivals pick up a task, and whether they deliver it.
#[derive(Clone, Copy, Debug, PartialEq, Eq)]
pub struct Foretold {
    /// The first stop would be among those visited.
    pub picked: bool,
    /// The last stop would be among those visited.
    pub dropped: bool,
}

/// What the arrivals of a task's agent would do if it were here. Nothing changes.
pub fn foretell(tasks: &TaskSet, n: u32, here: Cell) -> Foretold
    requires { n < length tasks.now.tasks }
    ensures { (task : Job) × IsTask tasks.now.tasks n task × ((clock : ℕ) → Foretells task (visited_at clock here task) result) }
{
    let task = tasks.task(n);
    let seen = task.visits.as_slice().len();
    let stops = task.stops.as_slice().len();
    let count = task.stops_here(here);
    let after = seen + count;
    Foretold {
        picked: begins(seen, after),
        dropped: finishes(seen, after, stops),
    }
}

/// This many stops are visited one after another.
fn visit_times(tasks: &mut TaskSet, n: u32, clock: u32, count: usize)
    requires { (task : Job) × IsGoing tasks.old.tasks n count task × IsInTime clock task }
    ensures tasks { tasks.new.tasks ≡ changed_at n (visited_times count clock) tasks.old.tasks }
    ensures room { tasks.new.room ≡ tasks.old.room }
    ensures ends { tasks.new.ends ≡ tasks.old.ends }
{
    for _ in 0..count {
        let _visit = tasks.visit(n, clock);
    }
}

/// Whether the first visit is among those after the count before.
fn begins(before: usize, after: usize) -> bool
    ensures { result ≡ ((before == 0) && nat_lt 0 after) }
{
    before == 0 && 0 < after
}

/// Whether the last visit is among those after the count before.
fn finishes(before: usize, after: usize, stops: usize) -> bool
    ensures { result ≡ (nat_lt before stops && (after == stops)) }
{
    before < stops && after == stops
}
