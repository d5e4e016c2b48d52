//! A planner for tests alone, in a box.
ghost use Rattle.std.specs.Prelude.{true};

use crate::shared::number;
use std::alloc::{AllocError, Global};
use std::sync::Arc;
use std::test::Fail;
use wh_grid::{Cell, Grid};
use wh_path::TimedPath;
use wh_planner::{Duty, PlanFault, Planner, Plans, Scene};
use wh_shared::SharedFields;
use wh_timetable::Timetable;

/// Plans on every grid, and never has memory.
#[derive(Drop)]
struct Forgetful {
    slots: u32,
}

impl Plans for Forgetful {
    ghost fits_map = { λ p g. true };

    ghost slot_count = { λ p. p.slots };

    fn fits(&self, grid: &Grid) -> bool {
        true
    }

    fn slots(&self) -> u32 {
        self.slots
    }

    fn plan(
        &mut self,
        alloc: Global,
        fields: &mut SharedFields,
        scene: &Scene,
        duty: Duty,
    ) -> Result<TimedPath, PlanFault> {
        Err(PlanFault::NoMemory)
    }
}

impl Planner for Forgetful {}

fn is_forgotten(planned: Result<TimedPath, PlanFault>) -> bool {
    matches!(planned, Err(PlanFault::NoMemory))
}

/// A row of two cells.
fn row(alloc: Global) -> Result<Grid, AllocError> {
    Ok(Grid::new(2, 1, [true, true].to_vec(alloc)?))
}

#[test]
fn a_box_plans_as_the_planner_in_it(rt: HostRuntime) -> Result<(), Fail> {
    let grid = Arc::new(rt.alloc(), row(rt.alloc())?)?;
    let here = Cell { x: 0, y: 0 };
    if !grid.passable(here) {
        return Err("both cells are passable".into());
    }
    let mut fields = SharedFields::new(rt.alloc(), Arc::try_clone(&grid)?, number(1)?)?;
    let paths = [TimedPath::one(rt.alloc(), here)?];
    let mut planner: Box<dyn Planner> = Box::new(rt.alloc(), Forgetful { slots: 3 })?;
    assert!(rt; planner.slots() == 3);
    if !planner.fits(&grid) {
        return Err("it plans on every grid".into());
    }
    let all = Timetable::of(rt.alloc(), 2, &paths)?;
    let scene = Scene {
        grid: &grid,
        nofollow: true,
        paths: &all,
        agent: 0,
    };
    let duty = Duty::Park { allowed: &[here] };
    assert!(rt; is_forgotten(planner.plan(rt.alloc(), &mut fields, &scene, duty)));
    Ok(())
}
