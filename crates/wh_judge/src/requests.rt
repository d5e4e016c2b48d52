//! The answers to an agent that asks for something to do.
#![tactic(auto)]

ghost use Rattle.std.specs.Prelude.{◌≡◌, ◌<◌, ◌↔◌, true, false, IsTrue, IfOk, OnErr, length};
ghost use Rattle.wh_path.specs.Paths.{end};
ghost use Rattle.wh_points.specs.Points.{IsPointCell};
ghost use Rattle.wh_tasks.specs.declared.task.Task.{Task as Job};
ghost use Rattle.wh_tasks.specs.Tasks.{IsTask, stops_left};
ghost use Rattle.wh_planner.specs.Duties.{Delivers, ParksAt, IsLawful};
ghost use Rattle.wh_event.specs.declared.event.Event.TheVariants as events;
ghost use Rattle.wh_event.specs.declared.reply.Reply.TheVariants as replies;
ghost use Rattle.wh_event.specs.declared.reply.Refusal.TheVariants as refusals;
ghost use Rattle.wh_core.specs.States.{arrived, adopted, assigned};
ghost use Rattle.wh_core.specs.Steps.{IsAllowed, IsDue, IsNext, Refuses, tour};
ghost use Rattle.wh_core.specs.Laws.{AllOnTheirWays};
ghost use Rattle.wh_judge.specs.Judged.{Decides, IsReachable};

use crate::agents::is_due;
use crate::choice::is_next;
use crate::course::{is_course, may_deliver};
use crate::instance::Instance;
use crate::lacking::{has_rest, lacks_way, makes_way};
use std::alloc::{AllocError, Global};
use wh_book::{FleetState, may_end, rests_at_once};
use wh_field::LazyField;
use wh_path::TimedPath;
use wh_text::Name;

/// Whether the agent may take the task of this number by this path.
fn may_take(
    instance: &Instance,
    floor: &FleetState,
    near: &mut LazyField,
    agent: u32,
    n: u32,
    path: &TimedPath,
) -> bool
    requires reached { IsReachable instance.now floor.now.state }
    requires known { agent < length floor.now.state.paths }
    requires home { agent < length instance.now.layout.agents }
    requires grid { near.old.grid ≡ instance.now.grid }
    ensures takes { IsTrue result ↔ ((task : Job) × IsNext instance.now floor.now.state agent n task × IsLawful instance.now.grid instance.now.layout.nofollow floor.now.state.paths agent (length (tour instance.now agent task.stops)) (Delivers (tour instance.now agent (stops_left task))) path.now) }
    ensures grid { near.new.grid ≡ instance.now.grid }
{
    if !is_next(instance, floor, near, agent, n) {
        return false;
    }
    let task = floor.tasks().task(n);
    let tour = instance.tour(agent, task);
    may_deliver(
        instance.grid(),
        instance.nofollow(),
        floor.timetable(),
        agent as usize,
        instance.legs(task.stops.as_slice()),
        tour.as_slice(),
        path,
    )
}

/// Whether the agent may adopt the path to park at its end, where a point is.
fn may_park(
    instance: &Instance,
    strays: bool,
    floor: &FleetState,
    agent: u32,
    path: &TimedPath,
) -> bool
    requires reached { IsReachable instance.now floor.now.state }
    requires ways { strays ≡ false → AllOnTheirWays instance.now floor.now.state }
    requires known { agent < length floor.now.state.paths }
    requires point { IsPointCell instance.now.layout (end path.now) }
    ensures { IsTrue result ↔ IsLawful instance.now.grid instance.now.layout.nofollow floor.now.state.paths agent 2 (ParksAt (IsAllowed instance.now floor.now.state agent)) path.now }
{
    if !may_end(
        instance.points(),
        instance.homes(),
        strays,
        floor,
        agent,
        path.end(),
    ) {
        return false;
    }
    is_course(
        instance.grid(),
        instance.nofollow(),
        floor.timetable(),
        agent as usize,
        2,
        path,
    )
}

/// The agent takes its next task by the path: an open one, or its own, with which it goes on. It takes no memory.
fn start(instance: &Instance, floor: &mut FleetState, agent: u32, n: u32, path: TimedPath)
    requires reached { IsReachable instance.now floor.old.state }
    requires due { IsDue instance.now floor.old.state agent }
    requires takes { (task : Job) × IsNext instance.now floor.old.state agent n task × IsLawful instance.now.grid instance.now.layout.nofollow floor.old.state.paths agent (length (tour instance.now agent task.stops)) (Delivers (tour instance.now agent (stops_left task))) path }
    ensures { (task : Job) × IsTask floor.old.state.tasks n task × (floor.new.state ≡ arrived (adopted agent path (assigned agent n task floor.old.state))) }
{
    let _grid = instance.grid();
    if floor.is_idle(agent) {
        floor.take(agent, n, path);
    } else {
        floor.park(agent, path);
    }
}

/// Whether the agent may take the task by the path; if so, it does. Fails when out of memory; then the state stays.
pub fn take(
    instance: &Instance,
    floor: &mut FleetState,
    near: &mut LazyField,
    agent: u32,
    n: u32,
    path: TimedPath,
) -> Result<bool, AllocError>
    requires reached { IsReachable instance.now floor.old.state }
    requires grid { near.old.grid ≡ instance.now.grid }
    ensures answer { IfOk result (Decides instance.now floor.old.state (replies.Took n path) (events.Request agent) floor.new.state) }
    ensures kept { IfOk result (λ b. b ≡ false → floor.new.state ≡ floor.old.state) }
    ensures err { OnErr result (floor.new.state ≡ floor.old.state) }
    ensures grid { near.new.grid ≡ instance.now.grid }
{
    if !is_due(instance, floor, agent) {
        return Ok(false);
    }
    if !may_take(instance, floor, near, agent, n, &path) {
        return Ok(false);
    }
    floor.reserve_path(&path)?;
    start(instance, floor, agent, n, path);
    Ok(true)
}

/// Whether the agent may be told to rest. While all are on their ways it takes constant time where the agent is due, at a stop of each
/// open task another's path ends, and none stops where its own ends.
pub fn rest(
    instance: &Instance,
    strays: bool,
    floor: &FleetState,
    near: &mut LazyField,
    agent: u32,
) -> bool
    requires reached { IsReachable instance.now floor.now.state }
    requires ways { strays ≡ false → AllOnTheirWays instance.now floor.now.state }
    requires grid { near.old.grid ≡ instance.now.grid }
    ensures answer { Decides instance.now floor.now.state replies.Rested (events.Request agent) floor.now.state result }
    ensures grid { near.new.grid ≡ instance.now.grid }
{
    if !is_due(instance, floor, agent) {
        return false;
    }
    if rests_at_once(strays, floor, agent) {
        return true;
    }
    if !has_rest(instance, strays, floor, near, agent) {
        return false;
    }
    true
}

/// Whether the agent may make way by the path to the point of this name; if so, it does. Fails when out of memory; then the
/// state stays.
pub fn park(
    alloc: Global,
    instance: &Instance,
    strays: bool,
    floor: &mut FleetState,
    near: &mut LazyField,
    agent: u32,
    point: &Name,
    path: TimedPath,
) -> Result<bool, AllocError>
    requires reached { IsReachable instance.now floor.old.state }
    requires ways { strays ≡ false → AllOnTheirWays instance.now floor.old.state }
    requires grid { near.old.grid ≡ instance.now.grid }
    ensures answer { IfOk result (Decides instance.now floor.old.state (replies.Parked point.now path) (events.Request agent) floor.new.state) }
    ensures kept { IfOk result (λ b. b ≡ false → floor.new.state ≡ floor.old.state) }
    ensures err { OnErr result (floor.new.state ≡ floor.old.state) }
    ensures grid { near.new.grid ≡ instance.now.grid }
{
    if !is_due(instance, floor, agent) {
        return Ok(false);
    }
    if !instance.is_at(point, path.end()) {
        return Ok(false);
    }
    if !may_park(instance, strays, floor, agent, &path) {
        return Ok(false);
    }
    if !makes_way(alloc, instance, strays, floor, near, agent)? {
        return Ok(false);
    }
    floor.reserve_path(&path)?;
    floor.park(agent, path);
    Ok(true)
}

/// Whether a due agent lacks a clear way for what it is to do.
pub fn has_no_path(
    alloc: Global,
    instance: &Instance,
    strays: bool,
    floor: &FleetState,
    near: &mut LazyField,
    agent: u32,
) -> Result<bool, AllocError>
    requires reached { IsReachable instance.now floor.now.state }
    requires ways { strays ≡ false → AllOnTheirWays instance.now floor.now.state }
    requires grid { near.old.grid ≡ instance.now.grid }
    ensures lacks { IfOk result (λ b. IsTrue b ↔ Refuses instance.now floor.now.state refusals.NoPath (events.Request agent)) }
    ensures grid { near.new.grid ≡ instance.now.grid }
{
    if !is_due(instance, floor, agent) {
        return Ok(false);
    }
    lacks_way(alloc, instance, strays, floor, near, agent)
}
