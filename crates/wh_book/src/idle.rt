//! When an agent is idle.
#![tactic(auto)]

ghost use Rattle.std.specs.Prelude.{◌≡◌, ◌<◌, ◌≤◌, true, length};
ghost use Rattle.wh_points.specs.Points.{Site};
ghost use Rattle.wh_core.specs.Steps.{IsIdleIn};
ghost use Rattle.wh_tasks.specs.Arrivals.{stops_here};
ghost use Rattle.wh_book.specs.Waiting.{cells_through};

use wh_grid::Cell;
use wh_state::FleetState;

/// In how many ticks the agent is idle, if nothing else happens: 0 where it is. Without homes that is when its path ends, and
/// constant time tells it. Where paths go on home it is when it has no task: it takes time by the rest of the agent's path
/// where it has one, and no memory.
#[inline(always)]
pub fn ticks_until_idle(homes: bool, floor: &FleetState, agent: u32) -> u64
    requires { agent < length floor.now.state.paths }
    ensures { (site : Site) → site.homes ≡ homes → IsIdleIn site floor.now.state agent result }
{
    if homes {
        ticks_until_free(floor, agent)
    } else {
        floor.paths()[agent as usize].remaining()
    }
}

/// In how many ticks the agent has no task, or no steps left.
fn ticks_until_free(floor: &FleetState, agent: u32) -> u64
    requires { agent < length floor.now.state.paths }
    ensures { (site : Site) → site.homes ≡ true → IsIdleIn site floor.now.state agent result }
{
    let i = agent as usize;
    let Some(n) = floor.loads()[i].task() else {
        return 0;
    };
    let task = floor.tasks().task(n);
    let seen = task.visits.as_slice().len();
    let ahead = &floor.paths()[i].cells()[1..];
    count_through(ahead, &task.stops.as_slice()[seen..]) as u64
}

/// How many of the cells, one after another, lead through the stops: all of them, where not even these do.
fn count_through(cells: &[Cell], stops: &[Cell]) -> usize
    ensures { result ≡ cells_through cells.now stops.now }
{
    let mut seen = 0;
    for (k, here) in cells.iter().enumerate() {
        if seen == stops.len() {
            return k;
        }
        seen += count_here(*here, &stops[seen..]);
    }
    cells.len()
}

/// How many of the stops, from the first on, are this cell.
fn count_here(here: Cell, stops: &[Cell]) -> usize
    ensures here { result ≡ stops_here here stops.now }
    ensures within { result ≤ length stops.now }
{
    for (k, stop) in stops.iter().enumerate() {
        if here != *stop {
            return k;
        }
    }
    stops.len()
}
