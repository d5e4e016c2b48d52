//! Whether an agent has no clear way for what it is to do.
#![tactic(auto)]

ghost use Rattle.std.specs.Prelude.{◌≡◌, ◌⊎◌, ◌<◌, ◌↔◌, false, IsTrue, IfOk, length};
ghost use Rattle.wh_path.specs.Paths.{end_of};
ghost use Rattle.wh_tasks.specs.declared.task.Task.{Task as Job};
ghost use Rattle.wh_core.specs.Steps.{IsNext, IsRestCell, IsShutIn, MakesWay, NoneIsNext};
ghost use Rattle.wh_core.specs.Laws.{AllOnTheirWays};
ghost use Rattle.wh_judge.specs.Judged.{CanDeliver, CanPark, IsReachable, LacksDelivery, LacksParking};

use crate::agents::{may_linger, may_stay, path_end};
use crate::choice::{next, none_is_next};
use crate::instance::Instance;
use crate::routes::{has_route_to_any, has_routes};
use std::alloc::{AllocError, Global};
use wh_book::{FleetState, free_points, is_stray};
use wh_field::LazyField;
use wh_planner::other_ends;

/// Whether the agent has nothing to do, and is in nobody's way.
pub fn has_rest(
    instance: &Instance,
    strays: bool,
    floor: &FleetState,
    near: &mut LazyField,
    agent: u32,
) -> bool
    requires reached { IsReachable instance.now floor.now.state }
    requires ways { strays ≡ false → AllOnTheirWays instance.now floor.now.state }
    requires known { agent < length floor.now.state.paths }
    requires grid { near.old.grid ≡ instance.now.grid }
    ensures rests { IsTrue result ↔ (NoneIsNext floor.now.state agent × IsRestCell instance.now floor.now.state agent (end_of floor.now.state.paths agent)) }
    ensures grid { near.new.grid ≡ instance.now.grid }
{
    if !may_linger(instance, strays, floor, agent) {
        return false;
    }
    none_is_next(instance, floor, near, agent)
}

/// Whether a clear way leads the agent through the stops that are left of its next task.
fn has_way(
    alloc: Global,
    instance: &Instance,
    floor: &FleetState,
    agent: u32,
    n: u32,
) -> Result<bool, AllocError>
    requires reached { IsReachable instance.now floor.now.state }
    requires known { agent < length floor.now.state.paths }
    requires home { agent < length instance.now.layout.agents }
    requires next { (task : Job) × IsNext instance.now floor.now.state agent n task }
    ensures { IfOk result (λ b. IsTrue b ↔ CanDeliver instance.now floor.now.state agent n) }
{
    let tour = instance.tour(agent, floor.tasks().task(n));
    let avoid = other_ends(alloc, floor.paths(), agent as usize)?;
    let from = path_end(floor, agent);
    has_routes(alloc, instance.grid(), &avoid, from, tour.as_slice())
}

/// Whether the agent is a stray that has no clear way to do its next task, which has this number.
fn is_shut_in(
    alloc: Global,
    instance: &Instance,
    floor: &FleetState,
    agent: u32,
    n: u32,
) -> Result<bool, AllocError>
    requires reached { IsReachable instance.now floor.now.state }
    requires known { agent < length floor.now.state.paths }
    requires home { agent < length instance.now.layout.agents }
    requires next { (task : Job) × IsNext instance.now floor.now.state agent n task }
    ensures { IfOk result (λ b. IsTrue b ↔ IsShutIn instance.now floor.now.state agent) }
{
    if !is_stray(instance.points(), instance.homes(), floor, agent) {
        return Ok(false);
    }
    Ok(!has_way(alloc, instance, floor, agent, n)?)
}

/// Whether the agent has to make way. It takes memory where the agent is a stray that has something to do.
pub fn makes_way(
    alloc: Global,
    instance: &Instance,
    strays: bool,
    floor: &FleetState,
    near: &mut LazyField,
    agent: u32,
) -> Result<bool, AllocError>
    requires reached { IsReachable instance.now floor.now.state }
    requires ways { strays ≡ false → AllOnTheirWays instance.now floor.now.state }
    requires known { agent < length floor.now.state.paths }
    requires home { agent < length instance.now.layout.agents }
    requires grid { near.old.grid ≡ instance.now.grid }
    ensures way { IfOk result (λ b. IsTrue b ↔ MakesWay instance.now floor.now.state agent) }
    ensures grid { near.new.grid ≡ instance.now.grid }
{
    if may_linger(instance, strays, floor, agent) {
        return Ok(false);
    }
    match next(instance, floor, near, agent) {
        None => Ok(true),
        Some(n) => is_shut_in(alloc, instance, floor, agent, n),
    }
}

/// Whether the agent has a task before it and no clear way to deliver it, and may stay where it is.
fn lacks_delivery(
    alloc: Global,
    instance: &Instance,
    strays: bool,
    floor: &FleetState,
    near: &mut LazyField,
    agent: u32,
) -> Result<bool, AllocError>
    requires reached { IsReachable instance.now floor.now.state }
    requires ways { strays ≡ false → AllOnTheirWays instance.now floor.now.state }
    requires known { agent < length floor.now.state.paths }
    requires home { agent < length instance.now.layout.agents }
    requires grid { near.old.grid ≡ instance.now.grid }
    ensures lacks { IfOk result (λ b. IsTrue b ↔ LacksDelivery instance.now floor.now.state agent) }
    ensures grid { near.new.grid ≡ instance.now.grid }
{
    if !may_stay(instance, strays, floor, agent) {
        return Ok(false);
    }
    match next(instance, floor, near, agent) {
        None => Ok(false),
        Some(n) => Ok(!has_way(alloc, instance, floor, agent, n)?),
    }
}

/// Whether a route leads round the others' ends to a cell where the agent may park.
fn can_park(
    alloc: Global,
    instance: &Instance,
    strays: bool,
    floor: &FleetState,
    agent: u32,
) -> Result<bool, AllocError>
    requires reached { IsReachable instance.now floor.now.state }
    requires ways { strays ≡ false → AllOnTheirWays instance.now floor.now.state }
    requires known { agent < length floor.now.state.paths }
    ensures { IfOk result (λ b. IsTrue b ↔ CanPark instance.now floor.now.state agent) }
{
    let avoid = other_ends(alloc, floor.paths(), agent as usize)?;
    let allowed = free_points(
        alloc,
        instance.points(),
        instance.homes(),
        strays,
        floor,
        agent,
    )?;
    let leads = has_route_to_any(
        alloc,
        instance.grid(),
        &avoid,
        path_end(floor, agent),
        &allowed,
    )?;
    Ok(leads)
}

/// Whether the agent has to make way, and no clear way to a cell where it may.
fn lacks_parking(
    alloc: Global,
    instance: &Instance,
    strays: bool,
    floor: &FleetState,
    near: &mut LazyField,
    agent: u32,
) -> Result<bool, AllocError>
    requires reached { IsReachable instance.now floor.now.state }
    requires ways { strays ≡ false → AllOnTheirWays instance.now floor.now.state }
    requires known { agent < length floor.now.state.paths }
    requires home { agent < length instance.now.layout.agents }
    requires grid { near.old.grid ≡ instance.now.grid }
    ensures lacks { IfOk result (λ b. IsTrue b ↔ LacksParking instance.now floor.now.state agent) }
    ensures grid { near.new.grid ≡ instance.now.grid }
{
    if !makes_way(alloc, instance, strays, floor, near, agent)? {
        return Ok(false);
    }
    Ok(!can_park(alloc, instance, strays, floor, agent)?)
}

/// Whether the agent lacks a clear way for what it is to do.
pub fn lacks_way(
    alloc: Global,
    instance: &Instance,
    strays: bool,
    floor: &FleetState,
    near: &mut LazyField,
    agent: u32,
) -> Result<bool, AllocError>
    requires reached { IsReachable instance.now floor.now.state }
    requires ways { strays ≡ false → AllOnTheirWays instance.now floor.now.state }
    requires known { agent < length floor.now.state.paths }
    requires home { agent < length instance.now.layout.agents }
    requires grid { near.old.grid ≡ instance.now.grid }
    ensures lacks { IfOk result (λ b. IsTrue b ↔ (LacksDelivery instance.now floor.now.state agent ⊎ LacksParking instance.now floor.now.state agent)) }
    ensures grid { near.new.grid ≡ instance.now.grid }
{
    if lacks_delivery(alloc, instance, strays, floor, near, agent)? {
        return Ok(true);
    }
    lacks_parking(alloc, instance, strays, floor, near, agent)
}
