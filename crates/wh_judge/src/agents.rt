//! What is known of an agent.
#![tactic(auto)]

ghost use Rattle.std.specs.Prelude.{◌≡◌, ◌≢◌, ◌⊎◌, ◌<◌, ◌≤◌, ◌↔◌, false, IsTrue, MatchBool, length};
ghost use Rattle.wh_path.specs.Paths.{end_of};
ghost use Rattle.wh_core.specs.Steps.{IsKnown, IsBerth, IsDue, IsIdleIn, IsRestCell, IsWanted};
ghost use Rattle.wh_core.specs.Laws.{AllOnTheirWays};
ghost use Rattle.wh_judge.specs.Judged.{IsReachable, MayStay};

use crate::instance::Instance;
use wh_book::{FleetState, first_stray, is_stray, may_rest, ticks_until_idle};
use wh_grid::Cell;

/// Whether the warehouse is open and has an agent of this number.
pub fn is_known(floor: &FleetState, agent: u32) -> bool
    ensures { IsTrue result ↔ IsKnown floor.now.state agent }
{
    !floor.closed() && (agent as usize) < floor.paths().len()
}

/// Whether the warehouse is open and has no agent of this number.
pub fn is_stranger(floor: &FleetState, agent: u32) -> bool
    ensures { IsTrue result ↔ ((floor.now.state.closed ≡ false) × (length floor.now.state.paths ≤ agent)) }
{
    !floor.closed() && floor.paths().len() <= agent as usize
}

/// Whether the agent may be given something to do.
pub fn is_due(instance: &Instance, floor: &FleetState, agent: u32) -> bool
    ensures { IsTrue result ↔ IsDue instance.now floor.now.state agent }
{
    if !is_known(floor, agent) {
        return false;
    }
    ticks_until_idle(instance.homes(), floor, agent) == 0
}

/// Whether the agent is due in just `left` ticks, and not yet.
pub fn is_moving(instance: &Instance, floor: &FleetState, agent: u32, left: u64) -> bool
    ensures { IsTrue result ↔ (IsKnown floor.now.state agent × IsIdleIn instance.now floor.now.state agent left × (left ≢ 0)) }
{
    if left == 0 || !is_known(floor, agent) {
        return false;
    }
    left == ticks_until_idle(instance.homes(), floor, agent)
}

/// Where the agent's path ends.
pub fn path_end(floor: &FleetState, agent: u32) -> Cell
    requires { agent < length floor.now.state.paths }
    ensures { result ≡ end_of floor.now.state.paths agent }
{
    floor.paths()[agent as usize].end()
}

/// Whether some agent is not on its way. With `strays` false it is known that none is.
pub fn has_stray(instance: &Instance, strays: bool, floor: &FleetState) -> bool
    requires reached { IsReachable instance.now floor.now.state }
    requires ways { strays ≡ false → AllOnTheirWays instance.now floor.now.state }
    ensures { result ≡ false → AllOnTheirWays instance.now floor.now.state }
{
    if !strays {
        return false;
    }
    first_stray(instance.points(), instance.homes(), floor).is_some()
}

/// Whether the agent is in nobody's way where its path ends. With `strays` false all agents are on their ways.
pub fn may_linger(instance: &Instance, strays: bool, floor: &FleetState, agent: u32) -> bool
    requires reached { IsReachable instance.now floor.now.state }
    requires ways { strays ≡ false → AllOnTheirWays instance.now floor.now.state }
    requires known { agent < length floor.now.state.paths }
    ensures { MatchBool result (IsRestCell instance.now floor.now.state agent (end_of floor.now.state.paths agent))
        (IsWanted instance.now floor.now.state (end_of floor.now.state.paths agent) ⊎ (¬ IsBerth instance.now agent (end_of floor.now.state.paths agent))) }
{
    may_rest(instance.points(), instance.homes(), strays, floor, agent)
}

/// Whether the agent may stay where its path ends, though it has no way to its next task.
pub fn may_stay(instance: &Instance, strays: bool, floor: &FleetState, agent: u32) -> bool
    requires reached { IsReachable instance.now floor.now.state }
    requires ways { strays ≡ false → AllOnTheirWays instance.now floor.now.state }
    requires home { agent < length instance.now.layout.agents }
    requires known { agent < length floor.now.state.paths }
    ensures { IsTrue result ↔ MayStay instance.now floor.now.state agent }
{
    if !is_stray(instance.points(), instance.homes(), floor, agent) {
        return true;
    }
    may_linger(instance, strays, floor, agent)
}
