//! Worked rows: entries that are a run, and entries that are not. Each function's contract is the row.

ghost use Rattle.wh_core.specs.Rows.{DeliveredAtOnce, SubmitRefusals, OneDelivery, LongestWait};
ghost use Rattle.wh_core.specs.Rows.{NoRestWhileWorkWaits, NoPathPastThePickup, NoEndlessWait, NoRefusalWithAClearWay, NoPickupInvented};

/// An agent at A takes a task from A to A: it is delivered at once.
pub fn delivered_at_once()
    ensures { DeliveredAtOnce }
{}

/// The first stop that is no station decides which refusal a submit gets.
pub fn submit_refusals()
    ensures { SubmitRefusals }
{}

/// An agent goes from P0 by A to B: picked up at clock 2, delivered at clock 6, and each tick between.
pub fn one_delivery()
    ensures { OneDelivery }
{}

/// A path may wait up to the bound: 12 steps before the way of 6, on 9 cells with 2 stops.
pub fn longest_wait()
    ensures { LongestWait }
{}

/// An agent may not rest while a task waits for it.
pub fn no_rest_while_work_waits()
    ensures { NoRestWhileWorkWaits }
{}

/// A path may not leave out the pickup.
pub fn no_path_past_the_pickup()
    ensures { NoPathPastThePickup }
{}

/// A path may not wait one step more.
pub fn no_endless_wait()
    ensures { NoEndlessWait }
{}

/// No request may be refused for lack of a path where there is a clear way.
pub fn no_refusal_with_a_clear_way()
    ensures { NoRefusalWithAClearWay }
{}

/// A tick may not tell a pickup that was not made.
pub fn no_pickup_invented()
    ensures { NoPickupInvented }
{}
