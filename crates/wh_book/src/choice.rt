//! Which task an agent takes.
#![tactic(auto)]

ghost use Rattle.std.specs.Prelude.{◌≡◌, ◌<◌, false, IfNone, IfSome, IsTrue, length};
ghost use Rattle.wh_path.specs.Paths.{place_of, end_of};
ghost use Rattle.wh_points.specs.Points.{Site};
ghost use Rattle.wh_tasks.specs.Choice.{NoneEligible};
ghost use Rattle.wh_tasks.specs.declared.task.Task.{Task as Job};
ghost use Rattle.wh_core.specs.Steps.{IsDeliveryCell, IsNext, NoneIsNext, other_ends};

use wh_field::LazyField;
use wh_state::FleetState;

/// The task that the agent takes: its own, if it has one, and else the nearest of those that it may take. The field is filled no
/// further than to that task, and not at all for its own. It takes no memory.
pub fn next_task(floor: &FleetState, agent: u32, near: &mut LazyField) -> Option<u32>
    requires { agent < length floor.now.state.paths }
    ensures grid { near.new.grid ≡ near.old.grid }
    ensures source { near.new.cell ≡ place_of floor.now.state.paths agent }
    ensures none { IfNone result (NoneIsNext floor.now.state agent) }
    ensures next { IfSome result (λ n. (site : Site) → site.grid ≡ near.old.grid → (task : Job) × IsNext site floor.now.state agent n task) }
{
    near.again(floor.paths()[agent as usize].start());
    match floor.loads()[agent as usize].task() {
        Some(own) => Some(own),
        None => floor.tasks().nearest(near, agent),
    }
}

/// Whether it is known at once that the agent may take no task and comes to rest in nobody's way, where no agent is a stray: at a stop
/// of each open task a path ends, and none stops where its own ends. It takes constant time.
#[inline(always)]
pub fn rests_at_once(strays: bool, floor: &FleetState, agent: u32) -> bool
    requires { agent < length floor.now.state.paths }
    ensures no_strays { IsTrue result → strays ≡ false }
    ensures none { IsTrue result → NoneEligible floor.now.state.tasks (other_ends floor.now.state agent) }
    ensures out_of_the_way { IsTrue result → ¬ IsDeliveryCell floor.now.state (end_of floor.now.state.paths agent) }
{
    !strays && floor.tasks().has_none_for(agent)
}
