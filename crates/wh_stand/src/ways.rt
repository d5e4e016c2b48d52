//! Whether agents are on their ways.
#![tactic(auto)]

ghost use Rattle.std.specs.Prelude.{◌≡◌, ℕ, ◌<◌, ◌≤◌, ◌↔◌, IsTrue, IfNone, IfSome, length};
ghost use Rattle.wh_grid.specs.Grids.{Floor};
ghost use Rattle.wh_path.specs.Paths.{VisitsInOrder};
ghost use Rattle.wh_points.specs.declared.points.Point.{Point as Spot};
ghost use Rattle.wh_points.specs.Points.{IsLayout, home_of};
ghost use Rattle.wh_tasks.specs.Tasks.{visited, stops_left};
ghost use Rattle.wh_planner.specs.Duties.{Delivers};
ghost use Rattle.wh_core.specs.Steps.{IsBerth, homeward};
ghost use Rattle.wh_core.specs.Laws.{IsBeginning, IsOnItsWay, AllOnTheirWays};
ghost use Rattle.wh_stand.specs.Ways.{GoesPast, IsAtPoint, IsFirstStray, site_at};
ghost use Rattle.wh_stand.specs.Ways as ways;

use wh_grid::Cell;
use wh_path::TimedPath;
use wh_points::{Point, Points};
use wh_state::FleetState;
use wh_tasks::Task;

/// How many stops are behind an agent that comes to the cell with `before` of them behind it.
fn go_past(stops: &[Cell], before: usize, here: Cell) -> usize
    requires { before ≤ length stops.now }
    ensures { GoesPast stops.now before here result }
{
    for i in before..stops.len() {
        if !stops[i].is(here) {
            return i;
        }
    }
    stops.len()
}

/// Whether the path goes through the stops in their order.
fn goes_through(path: &TimedPath, stops: &[Cell]) -> bool
    ensures { IsTrue result ↔ VisitsInOrder path.now stops.now }
{
    let mut visited = 0;
    for k in 0..path.remaining() + 1 {
        visited = go_past(stops, visited, path.at(k));
    }
    visited == stops.len()
}

/// The cell that a path comes to last that goes through the stops and, if paths go on home, there.
fn last_of(homes: bool, home: Cell, stops: &[Cell]) -> Cell
    requires { 1 ≤ length stops.now }
    ensures { result ≡ ways.last_of homes home stops.now }
{
    if homes { home } else { stops[stops.len() - 1] }
}

/// Whether the path goes through the stops, and ends at the last of them or, if paths go on home, there.
fn delivers(homes: bool, home: Cell, path: &TimedPath, stops: &[Cell]) -> bool
    requires { 1 ≤ length stops.now }
    ensures { IsTrue result ↔ Delivers (homeward homes home stops.now) path.now }
{
    path.end().is(last_of(homes, home, stops)) && goes_through(path, stops)
}

/// Whether one of the points stands at the cell.
fn has_point(points: &[Point], cell: Cell) -> bool
    ensures { IsTrue result ↔ IsAtPoint points.now cell }
{
    for point in points {
        if point.cell.is(cell) {
            return true;
        }
    }
    false
}

/// The home of the agent.
fn home(points: &Points, agent: usize) -> Cell
    requires { agent < length points.now.agents }
    ensures { result ≡ home_of points.now agent }
{
    points.cell(points.agents()[agent])
}

/// Whether the agent may come to rest at the cell. Each point is looked at.
pub fn is_berth(points: &Points, homes: bool, agent: usize, cell: Cell) -> bool
    requires { agent < length points.now.agents }
    ensures { (grid : Floor) → IsTrue result ↔ IsBerth (site_at grid points.now homes) agent cell }
{
    if homes && !cell.is(home(points, agent)) {
        return false;
    }
    has_point(points.as_slice(), cell)
}

/// Whether the path leads the agent of the task through the stops that are left of it, and home if paths go on home.
pub fn leads_on(points: &Points, homes: bool, agent: usize, task: &Task, path: &TimedPath) -> bool
    requires known { agent < length points.now.agents }
    requires left { visited task.now < length task.now.stops }
    ensures { IsTrue result ↔ Delivers (homeward homes (home_of points.now agent) (stops_left task.now)) path.now }
{
    let seen = task.visits.as_slice().len();
    let left = &task.stops.as_slice()[seen..];
    delivers(homes, home(points, agent), path, left)
}

/// Whether the agent is on its way.
fn is_on_its_way(points: &Points, homes: bool, floor: &FleetState, agent: usize) -> bool
    requires begins { (grid : Floor) × IsBeginning (site_at grid points.now homes) floor.now.state }
    requires known { agent < length floor.now.state.paths }
    ensures { (grid : Floor) → IsTrue result ↔ IsOnItsWay (site_at grid points.now homes) floor.now.state agent }
{
    let path = &floor.paths()[agent];
    if !is_berth(points, homes, agent, path.end()) {
        return false;
    }
    match floor.loads()[agent].task() {
        None => true,
        Some(n) => leads_on(points, homes, agent, floor.tasks().task(n), path),
    }
}

/// The first agent that is not on its way, in a state with which a run may begin: its path does not end where it may come to rest, or
/// does not lead it through the stops that are left of its task. Each path and each point is looked at, and of the tasks those that
/// agents have.
pub fn first_stray(points: &Points, homes: bool, floor: &FleetState) -> Option<u32>
    requires { (grid : Floor) × IsBeginning (site_at grid points.now homes) floor.now.state }
    ensures some { IfSome result (λ agent. (grid : Floor) → IsFirstStray (site_at grid points.now homes) floor.now.state agent) }
    ensures none { IfNone result ((grid : Floor) → AllOnTheirWays (site_at grid points.now homes) floor.now.state) }
{
    let _agents = points.agents();
    for agent in 0..floor.paths().len() {
        if !is_on_its_way(points, homes, floor, agent) {
            return Some(agent as u32);
        }
    }
    None
}
