//! Which task an agent takes.
#![tactic(auto)]

ghost use Rattle.std.specs.Prelude.{◌≡◌, ◌<◌, ◌↔◌, IsTrue, length};
ghost use Rattle.wh_tasks.specs.declared.task.Task.{Task as Job};
ghost use Rattle.wh_core.specs.Steps.{IsNext, NoneIsNext};
ghost use Rattle.wh_judge.specs.Judged.{IsChoice};

use crate::instance::Instance;
use wh_book::{FleetState, next_task};
use wh_field::LazyField;

/// The task that the agent takes, if there is one: its own, or else the nearest. The field is filled no further than to that one.
pub fn next(
    instance: &Instance,
    floor: &FleetState,
    near: &mut LazyField,
    agent: u32,
) -> Option<u32>
    requires known { agent < length floor.now.state.paths }
    requires grid { near.old.grid ≡ instance.now.grid }
    ensures choice { IsChoice instance.now floor.now.state agent result }
    ensures grid { near.new.grid ≡ instance.now.grid }
{
    let _grid = instance.grid();
    next_task(floor, agent, near)
}

/// Whether it is the task of this number that the agent takes.
pub fn is_next(
    instance: &Instance,
    floor: &FleetState,
    near: &mut LazyField,
    agent: u32,
    n: u32,
) -> bool
    requires known { agent < length floor.now.state.paths }
    requires grid { near.old.grid ≡ instance.now.grid }
    ensures is { IsTrue result ↔ ((task : Job) × IsNext instance.now floor.now.state agent n task) }
    ensures grid { near.new.grid ≡ instance.now.grid }
{
    match next(instance, floor, near, agent) {
        None => false,
        Some(m) => m == n,
    }
}

/// Whether there is no task for the agent.
pub fn none_is_next(
    instance: &Instance,
    floor: &FleetState,
    near: &mut LazyField,
    agent: u32,
) -> bool
    requires known { agent < length floor.now.state.paths }
    requires grid { near.old.grid ≡ instance.now.grid }
    ensures none { IsTrue result ↔ NoneIsNext floor.now.state agent }
    ensures grid { near.new.grid ≡ instance.now.grid }
{
    match next(instance, floor, near, agent) {
        None => true,
        Some(_) => false,
    }
}
