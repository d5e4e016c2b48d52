//! After a stop: vehicles are brought to where they stood, by a file of what they had reported.

use crate::day::Halt;
use std::alloc::Global;
use wh_arrivals::{ReadFault, StandFault, read_arrivals, stand};
use wh_grid::Cell;
use wh_order::VisitOrder;
use wh_planner::Planner;
use wh_token::Warehouse;

/// The file, cut in the midst of a line.
const REPORTS: &[u8] = b"at 0 1\nat 1 0\nat 0 2";

/// One that names a vehicle which there is not.
const OTHER_REPORTS: &[u8] = b"at 0 1\nat 2 1\n";

impl From<ReadFault> for Halt {
    fn from(fault: ReadFault) -> Halt {
        match fault {
            ReadFault::NoMemory => Halt::NoMemory,
            ReadFault::BadLine(_) => Halt::Unread,
        }
    }
}

impl From<StandFault> for Halt {
    fn from(fault: StandFault) -> Halt {
        match fault {
            StandFault::NoMemory => Halt::NoMemory,
            StandFault::TooEarly(_) => Halt::Unread,
        }
    }
}

/// The vehicles of the warehouse's run, where the file says that they had come. Each is told at most one cell ahead from then on.
fn stood<P: Planner>(alloc: Global, warehouse: &Warehouse<P>) -> Result<VisitOrder, Halt> {
    let steps = read_arrivals(alloc, warehouse.agents(), REPORTS)?;
    Ok(stand(alloc, warehouse.book(), 1, steps.as_slice())?)
}

/// Tells where each vehicle stands, and how far it is behind.
fn tell_places<R: Print>(rt: &R, order: &VisitOrder) -> Result<(), Halt> {
    for agent in 0..order.agents() {
        let Cell { x, y } = order.place(agent);
        let behind = order.behind(agent);
        println!(rt; "vehicle of {agent}: at {x},{y}, behind by {behind}")?;
    }
    Ok(())
}

/// Tells which line of the other file is bad.
fn tell_bad_line<R: Print>(rt: &R, alloc: Global, agents: u32) -> Result<(), Halt> {
    let Err(ReadFault::BadLine(line)) = read_arrivals(alloc, agents, OTHER_REPORTS) else {
        return Ok(());
    };
    println!(rt; "bad line: {line}")?;
    Ok(())
}

/// Where the vehicles stand after a stop, and what is wrong with another file.
pub fn bring<R: Print, P: Planner>(
    rt: &R,
    alloc: Global,
    warehouse: &Warehouse<P>,
) -> Result<(), Halt> {
    let order = stood(alloc, warehouse)?;
    let told = tell_places(rt, &order);
    drop(order);
    told?;
    tell_bad_line(rt, alloc, warehouse.agents())
}
