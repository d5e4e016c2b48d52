//! Orders that are handed in, and all delivered by one call.

use crate::day::{CALLER, Halt, MAP, POINTS, Parts, planners};
use std::alloc::{AllocError, Global};
use std::sync::Arc;
use wh_delivery::{BrokenOff, deliver_all};
use wh_event::read_line;
use wh_grid::Grid;
use wh_planner::Planner;
use wh_planners::Patient;
use wh_points::Points;
use wh_token::Warehouse;

/// The orders: two that cross, one the other way, one from a shelf to a station and back, and one for the cell where it begins.
const ORDERS: [&str; 5] = [
    "submit x A B",
    "submit y D C",
    "submit z B A",
    "submit z C D C",
    "submit z A A",
];

/// Two spans for each agent and each order: on 9 cells a span of three stops is 28.
const BOUND: u32 = 392;

/// A warehouse in its opening state.
fn opened(alloc: Global) -> Result<Warehouse<Patient>, Halt> {
    let grid = Arc::new(alloc, Grid::read(alloc, MAP)?)?;
    let points = Points::read(alloc, &grid, POINTS)?;
    let make = |parts: Parts| -> Result<Patient, AllocError> {
        Ok(Patient::new(parts.grid, parts.claim))
    };
    match planners(alloc, &grid, points.agents().len(), &make) {
        Ok(planners) => Ok(Warehouse::open(alloc, grid, points, planners, 0)?),
        Err(halt) => {
            drop(points);
            Err(halt)
        }
    }
}

/// Hands a command in.
fn hand_in<P: Planner>(
    alloc: Global,
    warehouse: &mut Warehouse<P>,
    line: &str,
) -> Result<(), Halt> {
    let Ok(Some(command)) = read_line(line.as_bytes()) else {
        return Err(Halt::Unread);
    };
    match warehouse.step(alloc, CALLER, command, None) {
        Ok(_) => Ok(()),
        Err(_) => Err(Halt::NoMemory),
    }
}

/// Has all delivered, and tells what came of it.
fn deliver<R: Print, P: Planner>(
    rt: &R,
    alloc: Global,
    warehouse: &mut Warehouse<P>,
) -> Result<(), Halt> {
    match deliver_all(alloc, warehouse, CALLER) {
        Ok(ticks) => {
            let is_within = ticks <= BOUND;
            println!(rt; "all stands still, within the bound: {is_within}")?;
        }
        Err(BrokenOff::NoMemory) => return Err(Halt::NoMemory),
        Err(BrokenOff::Closed) => println!(rt; "closed")?,
        Err(BrokenOff::ClockFull) => println!(rt; "the clock is at its last")?,
        Err(BrokenOff::Stuck) => println!(rt; "all stand, and no path is found")?,
    }
    println!(rt; "done: {}", warehouse.book().tasks().counts().done)?;
    Ok(())
}

/// Hands the orders in and has them delivered; once more, where nothing is left; and where it is closed.
fn tell_orders<R: Print, P: Planner>(
    rt: &R,
    alloc: Global,
    warehouse: &mut Warehouse<P>,
) -> Result<(), Halt> {
    for line in ORDERS.iter() {
        hand_in(alloc, warehouse, line)?;
    }
    deliver(rt, alloc, warehouse)?;
    deliver(rt, alloc, warehouse)?;
    hand_in(alloc, warehouse, "close")?;
    deliver(rt, alloc, warehouse)
}

/// A warehouse whose orders are all delivered, and what is told of them.
pub fn orders<R: Print>(rt: &R, alloc: Global) -> Result<(), Halt> {
    let mut warehouse = opened(alloc)?;
    let told = tell_orders(rt, alloc, &mut warehouse);
    drop(warehouse);
    told
}
