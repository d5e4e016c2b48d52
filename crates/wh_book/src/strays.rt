//! Where agents may come to rest, also while some were stopped.
#![tactic(auto)]

ghost use Rattle.std.specs.Prelude.{◌≡◌, ◌≢◌, ◌⊎◌, ◌<◌, ◌↔◌, false, IfOk, IsTrue, MatchBool, Contains, length};
ghost use Rattle.wh_grid.specs.declared.cell.Cell.{Cell as Place};
ghost use Rattle.wh_grid.specs.Grids.{Floor};
ghost use Rattle.wh_path.specs.Paths.{end_of};
ghost use Rattle.wh_points.specs.Points.{IsPointCell};
ghost use Rattle.wh_points.specs.Points as starts;
ghost use Rattle.wh_tasks.specs.declared.task.Load.{Load as Burden};
ghost use Rattle.wh_core.specs.States.{load_of};
ghost use Rattle.wh_core.specs.Steps.{IsAllowed, IsAwaited, IsBerth, IsRestCell, IsStray, IsWanted};
ghost use Rattle.wh_core.specs.Laws.{IsBeginning, AllOnTheirWays};
ghost use Rattle.wh_stand.specs.Ways.{site_at};
ghost use Rattle.wh_book.specs.Strays.{Awaits};

use std::alloc::{AllocError, Global};
use wh_grid::Cell;
use wh_points::Points;
use wh_stand::{is_berth, leads_on};
use wh_state::FleetState;
use wh_tasks::Load;

/// Whether the agent was stopped, and a stop that is left to it is at the cell.
fn awaits(points: &Points, homes: bool, floor: &FleetState, agent: usize, cell: Cell) -> bool
    requires begins { (grid : Floor) × IsBeginning (site_at grid points.now homes) floor.now.state }
    requires known { agent < length floor.now.state.paths }
    ensures { (grid : Floor) → IsTrue result ↔ Awaits (site_at grid points.now homes) floor.now.state agent cell }
{
    let Some(n) = floor.loads()[agent].task() else {
        return false;
    };
    let task = floor.tasks().task(n);
    let left = &task.stops.as_slice()[task.visits.as_slice().len()..];
    left.contains(&cell) && !leads_on(points, homes, agent, task, &floor.paths()[agent])
}

/// Whether a stop that is left to an agent that was stopped is at the cell.
fn is_awaited(points: &Points, homes: bool, floor: &FleetState, cell: Cell) -> bool
    requires begins { (grid : Floor) × IsBeginning (site_at grid points.now homes) floor.now.state }
    ensures { (grid : Floor) → IsTrue result ↔ IsAwaited (site_at grid points.now homes) floor.now.state cell }
{
    for agent in 0..floor.paths().len() {
        if awaits(points, homes, floor, agent, cell) {
            return true;
        }
    }
    false
}

/// Whether an open task is to be delivered at the cell, or an agent that was stopped is to go there; where paths go on home nobody need
/// keep away. Without strays it looks at the open tasks alone.
fn is_wanted(points: &Points, homes: bool, strays: bool, floor: &FleetState, cell: Cell) -> bool
    requires begins { (grid : Floor) × IsBeginning (site_at grid points.now homes) floor.now.state }
    requires ways { strays ≡ false → (grid : Floor) → AllOnTheirWays (site_at grid points.now homes) floor.now.state }
    ensures { (grid : Floor) → IsTrue result ↔ IsWanted (site_at grid points.now homes) floor.now.state cell }
{
    if homes {
        return false;
    }
    floor.tasks().delivers_at(cell) || (strays && is_awaited(points, homes, floor, cell))
}

/// Whether the agent may stay at rest where its path ends. With `strays` false all agents are on their ways, and no point is looked at.
pub fn may_rest(points: &Points, homes: bool, strays: bool, floor: &FleetState, agent: u32) -> bool
    requires begins { (grid : Floor) × IsBeginning (site_at grid points.now homes) floor.now.state }
    requires ways { strays ≡ false → (grid : Floor) → AllOnTheirWays (site_at grid points.now homes) floor.now.state }
    requires known { agent < length floor.now.state.paths }
    ensures { (grid : Floor) → MatchBool result (IsRestCell (site_at grid points.now homes) floor.now.state agent (end_of floor.now.state.paths agent))
        (IsWanted (site_at grid points.now homes) floor.now.state (end_of floor.now.state.paths agent) ⊎ (¬ IsBerth (site_at grid points.now homes) agent (end_of floor.now.state.paths agent))) }
{
    let end = floor.paths()[agent as usize].end();
    if strays && !is_berth(points, homes, agent as usize, end) {
        return false;
    }
    !is_wanted(points, homes, strays, floor, end)
}

/// Whether the agent has a task, or comes to rest where it may not: of one that is idle, whether it is a stray.
pub fn is_stray(points: &Points, homes: bool, floor: &FleetState, agent: u32) -> bool
    requires start { agent < length points.now.agents }
    requires known { agent < length floor.now.state.paths }
    ensures { (grid : Floor) → MatchBool result (IsStray (site_at grid points.now homes) floor.now.state agent)
        ((load_of floor.now.state agent ≡ Burden.None) × IsBerth (site_at grid points.now homes) agent (end_of floor.now.state.paths agent)) }
{
    if floor.loads()[agent as usize] != Load::None {
        return true;
    }
    !is_berth(
        points,
        homes,
        agent as usize,
        floor.paths()[agent as usize].end(),
    )
}

/// Whether the agent may park at the cell, where a point is.
pub fn may_end(
    points: &Points,
    homes: bool,
    strays: bool,
    floor: &FleetState,
    agent: u32,
    cell: Cell,
) -> bool
    requires begins { (grid : Floor) × IsBeginning (site_at grid points.now homes) floor.now.state }
    requires ways { strays ≡ false → (grid : Floor) → AllOnTheirWays (site_at grid points.now homes) floor.now.state }
    requires known { agent < length floor.now.state.paths }
    requires point { IsPointCell points.now cell }
    ensures { (grid : Floor) → IsTrue result ↔ IsAllowed (site_at grid points.now homes) floor.now.state agent cell }
{
    if homes && !cell.is(home_of(points, agent)) {
        return false;
    }
    !is_wanted(points, homes, strays, floor, cell) && !floor.other_ends(agent).has(cell)
}

/// The cells of the points at which the agent may park.
pub fn free_points(
    alloc: Global,
    points: &Points,
    homes: bool,
    strays: bool,
    floor: &FleetState,
    agent: u32,
) -> Result<Vec<Cell>, AllocError>
    requires begins { (grid : Floor) × IsBeginning (site_at grid points.now homes) floor.now.state }
    requires ways { strays ≡ false → (grid : Floor) → AllOnTheirWays (site_at grid points.now homes) floor.now.state }
    requires known { agent < length floor.now.state.paths }
    ensures { IfOk result (λ cells. (grid : Floor) (cell : Place) → Contains cells.items cell ↔ IsAllowed (site_at grid points.now homes) floor.now.state agent cell) }
{
    let mut cells = Vec::new(alloc);
    for point in points.as_slice() {
        if may_end(points, homes, strays, floor, agent, point.cell) {
            cells.push(point.cell)?;
        }
    }
    Ok(cells)
}

/// The home of the agent: the cell where it starts.
fn home_of(points: &Points, agent: u32) -> Cell
    requires { agent < length points.now.agents }
    ensures { result ≡ starts.home_of points.now agent }
{
    points.cell(points.agents()[agent as usize])
}
