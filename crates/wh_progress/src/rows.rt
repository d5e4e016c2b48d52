//! Worked rows. Each function's contract is the row.

ghost use Rattle.wh_progress.specs.Rows.{DeliveredInSix, LeftWithHomes, ThreeStopsStand};

/// An order from P0 by A to B is delivered in six rounds, of the 38 that were left to do.
pub fn delivered_in_six()
    ensures { DeliveredInSix }
{}

/// Of the same order 28 rounds are left to do where paths go on home.
pub fn left_with_homes()
    ensures { LeftWithHomes }
{}

/// An order of three stops, with agents at its first two, stands still for good.
pub fn three_stops_stand()
    ensures { ThreeStopsStand }
{}
