//! What every planner promises.
#![tactic(auto)]

ghost use Rattle.std.specs.Prelude.{◌≡◌, ◌<◌, ℕ, Bool, true, IfOk, IfErr, length};
ghost use Rattle.wh_grid.specs.Grids.{Floor};
ghost use Rattle.wh_path.specs.Paths.{path_of, AllFree, IsWalk};
ghost use Rattle.wh_planner.specs.Duties.{IsLawful, HasNoClearWay};
ghost use Rattle.wh_planner.specs.Asked.{IsDuty, Serves, legs};
ghost use Rattle.wh_shared.specs.Shares.{stored_grid, room};

use crate::duty::Duty;
use std::alloc::Global;
use wh_grid::Grid;
use wh_path::TimedPath;
use wh_shared::SharedFields;
use wh_timetable::Timetable;

/// What a planner sees of the warehouse.
#[derive(Clone, Copy)]
pub struct Scene<'a> {
    /// The grid on which all agents walk.
    pub grid: &'a Grid,
    /// Whether no agent may follow another.
    pub nofollow: bool,
    /// The paths of all agents from now on, by the agent's number.
    pub paths: &'a Timetable,
    /// The number of the agent that asks.
    pub agent: usize,
}

/// Why there is no path.
#[derive(Clone, Copy, Debug, PartialEq, Eq)]
pub enum PlanFault {
    /// No clear way leads there: each way meets a cell where another's path ends.
    NoPath,
    /// Out of memory.
    NoMemory,
}

/// Plans for one agent at a time, on one grid, by distance fields that are lent to it for the call, and may count some
/// of them as kept between the plans.
pub trait Plans: Drop {
    // the grids that it plans on
    ghost fits_map: { Self → Floor → Bool };

    // how many distance fields it may count as kept
    ghost slot_count: { Self → ℕ };

    /// Whether it plans on this grid.
    fn fits(&self, grid: &Grid) -> bool
        ensures { result ≡ fits_map self.now grid.now };

    /// How many distance fields it may count as kept.
    fn slots(&self) -> u32
        ensures { result ≡ slot_count self.now };

    /// A lawful path for the duty of an agent, in place of what is left of its own. `NoPath` comes only where there is no clear way, and
    /// `NoMemory` when out of memory: the planner then fits the same grids and has the same slots. The fields are
    /// over the same grid as before, and there is room for as many.
    fn plan(
        &mut self,
        alloc: Global,
        fields: &mut SharedFields,
        scene: &Scene,
        duty: Duty,
    ) -> Result<TimedPath, PlanFault>
        requires fits { fits_map self.old scene.now.grid.now ≡ true }
        requires stored { stored_grid fields.old ≡ scene.now.grid.now }
        requires agent { scene.now.agent < length scene.now.paths.now }
        requires walk { IsWalk scene.now.grid.now (path_of scene.now.paths.now scene.now.agent) }
        requires free { AllFree scene.now.nofollow scene.now.paths.now }
        requires duty { IsDuty duty }
        ensures fits_stays { (g : Floor) → fits_map self.new g ≡ fits_map self.old g }
        ensures slots_stay { slot_count self.new ≡ slot_count self.old }
        ensures room_stays { room fields.new ≡ room fields.old }
        ensures stored_stays { stored_grid fields.new ≡ stored_grid fields.old }
        ensures lawful { IfOk result (IsLawful scene.now.grid.now scene.now.nofollow scene.now.paths.now scene.now.agent (legs duty.entry) (Serves duty.entry)) }
        ensures no_path { IfErr result (λ fault. fault ≡ PlanFault.NoPath → HasNoClearWay scene.now.grid.now scene.now.paths.now scene.now.agent (Serves duty.entry)) };
}

/// A planner that may be sent to another thread.
pub trait Planner: Plans + Send {}

/// A boxed planner plans as the planner in the box.
impl Plans for Box<dyn Planner> {
    ghost fits_map = { λ b. (Planner-box b).Plans.fits_map b.value };

    ghost slot_count = { λ b. (Planner-box b).Plans.slot_count b.value };

    fn fits(&self, grid: &Grid) -> bool {
        (**self).fits(grid)
    }

    fn slots(&self) -> u32 {
        (**self).slots()
    }

    fn plan(
        &mut self,
        alloc: Global,
        fields: &mut SharedFields,
        scene: &Scene,
        duty: Duty,
    ) -> Result<TimedPath, PlanFault> {
        (**self).plan(alloc, fields, scene, duty)
    }
}

impl Planner for Box<dyn Planner> {}
