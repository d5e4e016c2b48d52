//! The parts of a state, as columns.
#![tactic(auto)]

ghost use Rattle.std.specs.Prelude.{◌≡◌, ℕ, ◌<◌, length, OnOk, OnErr, Some, slice_set};
ghost use Rattle.wh_path.specs.Paths.{path_of};
ghost use Rattle.wh_tasks.specs.Tasks.{IsTask, load_for};
ghost use Rattle.wh_tasks.specs.declared.task.Task.{Task as Job};
ghost use Rattle.wh_core.specs.Steps.{most_tasks};
ghost use Rattle.wh_stand.specs.Parts.{parts_of, begun, with_agent, with_task};
ghost use Rattle.wh_state.specs.Columns.{state_in};
ghost use Rattle.wh_stand.specs.Columns.{IsTold, AllKnown};
ghost use Rattle.wh_stand.specs.TaskFlaws.{HasKnown, IsAlone, IsHeld};

use std::alloc::{AllocError, Global};
use wh_path::TimedPath;
use wh_state::StateParts;
use wh_tasks::{Load, Task};

/// No agent yet and no task.
pub(crate) fn no_parts(alloc: Global, clock: u32, closed: bool) -> StateParts
    ensures told { IsTold (state_in result) }
    ensures parts { parts_of (state_in result) ≡ begun clock closed }
{
    StateParts {
        clock,
        closed,
        paths: Vec::new(alloc),
        loads: Vec::new(alloc),
        slots: Vec::new(alloc),
        tasks: Vec::new(alloc),
    }
}

/// One agent more, which has no task. When out of memory, nothing changes.
pub(crate) fn add_agent(
    parts: &mut StateParts,
    slots: u32,
    path: TimedPath,
) -> Result<(), AllocError>
    requires told { IsTold (state_in parts.old) }
    requires known { AllKnown (state_in parts.old) }
    ensures told { IsTold (state_in parts.new) }
    ensures ok { OnOk result (parts_of (state_in parts.new) ≡ with_agent slots path (parts_of (state_in parts.old))) }
    ensures err { OnErr result (parts_of (state_in parts.new) ≡ parts_of (state_in parts.old)) }
{
    parts.paths.reserve(1)?;
    parts.loads.reserve(1)?;
    parts.slots.reserve(1)?;
    parts.paths.push_reserved(path);
    parts.loads.push_reserved(Load::None);
    parts.slots.push_reserved(slots);
    Ok(())
}

/// One task more: whoever holds it does so from now on. When out of memory, nothing changes.
pub(crate) fn add_task(parts: &mut StateParts, task: Task) -> Result<(), AllocError>
    requires told { IsTold (state_in parts.old) }
    requires room { length parts.old.tasks.items < most_tasks }
    requires known { HasKnown parts.old.paths.items task }
    requires alone { IsAlone (parts_of (state_in parts.old)) task }
    ensures told { IsTold (state_in parts.new) }
    ensures ok { OnOk result (parts_of (state_in parts.new) ≡ with_task task (parts_of (state_in parts.old))) }
    ensures err { OnErr result (parts_of (state_in parts.new) ≡ parts_of (state_in parts.old)) }
{
    parts.tasks.reserve(1)?;
    take_on(&mut parts.loads, parts.tasks.len() as u32, &task);
    parts.tasks.push_reserved(task);
    Ok(())
}

/// Whoever holds the task, of which n is the number, has its load from now on.
fn take_on(loads: &mut [Load], n: u32, task: &Task)
    requires { (agent : ℕ) → task.now.agent ≡ Some agent → agent < length loads.old }
    ensures held { (agent : ℕ) → IsHeld agent task.now → loads.new ≡ slice_set loads.old agent (load_for n task.now) }
    ensures free { ((agent : ℕ) → ¬ IsHeld agent task.now) → loads.new ≡ loads.old }
{
    let _stops = task.stops.as_slice();
    if let Some(agent) = task.agent {
        if task.is_underway() {
            loads[agent as usize] = task.load(n);
        }
    }
}
