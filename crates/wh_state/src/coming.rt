//! When an agent comes to its next stop.
#![tactic(auto)]

ghost use Rattle.std.specs.Prelude.{◌≡◌, ◌≢◌, ◌<◌, ◌+◌, ℕ, Some, length};
ghost use Rattle.wh_path.specs.Paths.{at, cell_at, path_of};
ghost use Rattle.wh_tasks.specs.Loads.{task_of};
ghost use Rattle.wh_state.specs.Standings.{AreTied};
ghost use Rattle.wh_state.specs.Dues.{AreDue, OthersAreDue, IsAwayFor};

use crate::dues::Dues;
use wh_grid::Cell;
use wh_path::TimedPath;
use wh_tasks::{Load, TaskSet};

/// The clock at which a path comes to a cell, or an earlier one; the greatest number where it never does.
fn comes_at(clock: u32, path: &TimedPath, cell: Cell) -> u32
    ensures { (k : ℕ) → clock + k < result → at path.now k ≢ cell }
{
    let mut due = clock;
    for here in path.cells() {
        if here.is(cell) {
            return due;
        }
        due = due.saturating_add(1);
    }
    u32::MAX
}

/// The clock at which an agent with this load comes to its next stop, or an earlier one; the greatest number where it never does.
pub fn due_of(clock: u32, path: &TimedPath, load: Load, tasks: &TaskSet) -> u32
    requires { (n : ℕ) → task_of load ≡ Some n → n < length tasks.now.tasks }
    ensures { (n : ℕ) → task_of load ≡ Some n → IsAwayFor clock path.now tasks.now.tasks result n }
{
    let Some(n) = load.task() else {
        return u32::MAX;
    };
    let task = tasks.task(n);
    let seen = task.visits.as_slice().len();
    match task.stops.as_slice().get(seen) {
        None => u32::MAX,
        Some(stop) => comes_at(clock, path, *stop),
    }
}

/// An agent that goes another way, or has another load, is asked when it comes to its next stop.
pub fn note_due(
    clock: u32,
    paths: &[TimedPath],
    loads: &[Load],
    tasks: &TaskSet,
    dues: &mut Dues,
    agent: u32,
)
    requires known { agent < length paths.now }
    requires each { length loads.now ≡ length paths.now }
    requires tied { AreTied loads.now tasks.now.tasks }
    requires others { OthersAreDue agent clock paths.now tasks.now.tasks dues.old }
    ensures { AreDue clock paths.now tasks.now.tasks dues.new }
{
    let i = agent as usize;
    dues.put(i, due_of(clock, &paths[i], loads[i], tasks));
}
