//! The flaws of a task.
#![tactic(auto)]

ghost use Rattle.std.specs.Prelude.{◌≡◌, ℕ, ◌<◌, ◌≤◌, ◌↔◌, IsTrue, IfNone, IfSome, Some, None, length};
ghost use Rattle.wh_path.specs.Paths.{cell_at};
ghost use Rattle.wh_tasks.specs.Tasks.{visited};
ghost use Rattle.wh_core.specs.Laws.{IsTimed};
ghost use Rattle.wh_stand.specs.Parts.{parts_of};
ghost use Rattle.wh_state.specs.Columns.{state_in};
ghost use Rattle.wh_stand.specs.Columns.{IsTold};
ghost use Rattle.wh_stand.specs.TaskFlaws.{HasStations, IsNoStation, IsHeld, IsFitTask, IsDutyFlaw, IsTaskFlaw, IsAlone, IsAway, HasKnown};

use crate::flaw::Flaw;
use crate::stations::Stations;
use wh_grid::Cell;
use wh_state::StateParts;
use wh_tasks::Task;

/// The first stop that is no station, of a task of which a stop is left.
fn no_station(stations: &Stations, task: &Task) -> Option<Cell>
    ensures none { IfNone result (HasStations stations.now task.now) }
    ensures some { IfSome result (IsNoStation stations.now task.now) }
{
    let stops = task.stops.as_slice();
    if task.visits.as_slice().len() >= stops.len() {
        return None;
    }
    for i in 0..stops.len() {
        if !stations.has(stops[i]) {
            return Some(stops[i]);
        }
    }
    None
}

/// Whether the clocks of the task lie in order, up to this one.
fn is_timed(clock: u32, task: &Task) -> bool
    ensures { IsTrue result ↔ IsTimed clock task.now }
{
    let mut last = task.submitted;
    let visits = task.visits.as_slice();
    for i in 0..visits.len() {
        if visits[i] < last {
            return false;
        }
        last = visits[i];
    }
    last <= clock
}

/// The first flaw of what the task's agent is to do for it.
fn duty_flaw(parts: &StateParts, agent: u32, task: &Task) -> Option<Flaw>
    requires told { IsTold (state_in parts.now) }
    requires agent { task.now.agent ≡ Some agent }
    requires known { agent < length parts.now.paths.items }
    requires few { visited task.now ≤ length task.now.stops }
    requires room { length parts.now.tasks.items < 1000000 }
    ensures none { IfNone result (IsAlone (parts_of (state_in parts.now)) task.now × IsAway parts.now.paths.items task.now) }
    ensures some { IfSome result (IsDutyFlaw (parts_of (state_in parts.now)) task.now) }
{
    let _stops = task.stops.as_slice();
    if !task.is_underway() {
        return None;
    }
    if let Some(other) = parts.loads[agent as usize].task() {
        return Some(Flaw::HasAnother(other));
    }
    if task.stops_here(parts.paths[agent as usize].start()) > 0 {
        return Some(Flaw::AtItsNextStop(parts.tasks.len() as u32));
    }
    None
}

/// The first flaw of a task that comes behind these parts.
pub(crate) fn task_flaw(stations: &Stations, parts: &StateParts, task: &Task) -> Option<Flaw>
    requires told { IsTold (state_in parts.now) }
    requires few { visited task.now ≤ length task.now.stops }
    requires room { length parts.now.tasks.items < 1000000 }
    ensures none { IfNone result (IsFitTask stations.now (parts_of (state_in parts.now)) task.now) }
    ensures some { IfSome result (IsTaskFlaw stations.now (parts_of (state_in parts.now)) task.now) }
{
    if let Some(cell) = no_station(stations, task) {
        return Some(Flaw::NoStation(cell));
    }
    if !is_timed(parts.clock, task) {
        return Some(Flaw::Clocks);
    }
    match task.agent {
        None => None,
        Some(agent) => {
            if agent as usize >= parts.paths.len() {
                return Some(Flaw::UnknownAgent(agent));
            }
            duty_flaw(parts, agent, task)
        }
    }
}
