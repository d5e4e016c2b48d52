//! Laws that tie the plan of vehicles to the warehouse's run. Each function is a law: it does nothing, and its contract is
//! the law.

ghost use Rattle.wh_vehicles.specs.Plans.{EachStepMayBeTaken, EachRunIsAPlan, RowsAreTheTicks};
ghost use Rattle.wh_vehicles.specs.Stands.{VehiclesStand};

/// Whatever the warehouse does next, the plan may go on to where the agents then are.
pub fn each_step_may_be_taken()
    ensures { EachStepMayBeTaken }
{}

/// Each run of the warehouse is a plan that vehicles may carry out late, in whatever order things happen.
pub fn each_run_is_a_plan()
    ensures { EachRunIsAPlan }
{}

/// The rows of the plan are those of the history's ticks.
pub fn rows_are_the_ticks()
    ensures { RowsAreTheTicks }
{}

/// Vehicles stand at passable cells, and no two at one.
pub fn vehicles_stand()
    ensures { VehiclesStand }
{}
