//! Planners of both kinds as one type.
ghost use Rattle.wh_embedding.specs.Minds.{fits, slots};

use std::alloc::Global;
use wh_grid::Grid;
use wh_path::TimedPath;
use wh_planner::{Duty, PlanFault, Planner, Plans, Scene};
use wh_planners::{Patient, Sharing};
use wh_shared::SharedFields;

/// A planner of either kind. Unlike a box it may stand in a field, a local or a signature of any function.
#[derive(Drop)]
pub enum Mind {
    /// Searches for shortest paths.
    Sharing(Sharing),
    /// Waits until the others rest.
    Patient(Patient),
}

impl Plans for Mind {
    ghost fits_map = { fits };

    ghost slot_count = { slots };

    fn fits(&self, grid: &Grid) -> bool {
        match self {
            Mind::Sharing(planner) => planner.fits(grid),
            Mind::Patient(planner) => planner.fits(grid),
        }
    }

    fn slots(&self) -> u32 {
        match self {
            Mind::Sharing(planner) => planner.slots(),
            Mind::Patient(planner) => planner.slots(),
        }
    }

    fn plan(
        &mut self,
        alloc: Global,
        fields: &mut SharedFields,
        scene: &Scene,
        duty: Duty,
    ) -> Result<TimedPath, PlanFault> {
        match self {
            Mind::Sharing(planner) => planner.plan(alloc, fields, scene, duty),
            Mind::Patient(planner) => planner.plan(alloc, fields, scene, duty),
        }
    }
}

impl Planner for Mind {}
