//! Laws of clear ways. Each function is a law: it does nothing, and its contract is the law.

ghost use Rattle.wh_planner.specs.Laws.{ClearWaysGoFromStopToStop, LeastRoutesAreShort};
ghost use Rattle.wh_planner.specs.Laws.{ClearDeliveriesGivePaths, ClearParkingsGivePaths};

/// There is a clear way for a delivery exactly where there is a route from stop to stop.
pub fn clear_ways_go_from_stop_to_stop()
    ensures { ClearWaysGoFromStopToStop }
{}

/// A shortest route has fewer steps than the grid has passable cells.
pub fn least_routes_are_short()
    ensures { LeastRoutesAreShort }
{}

/// Where an agent at rest has a clear way for a delivery, it has a lawful path.
pub fn clear_deliveries_give_paths()
    ensures { ClearDeliveriesGivePaths }
{}

/// Where an agent at rest has a clear way for parking, it has a lawful path.
pub fn clear_parkings_give_paths()
    ensures { ClearParkingsGivePaths }
{}
