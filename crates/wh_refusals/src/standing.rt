//! What a warehouse tells.

use wh_grid::Cell;
use wh_planner::Planner;
use wh_service::Warehouse;
use wh_tasks::{Counts, Load};

/// What a warehouse tells of an agent.
#[derive(Clone, Copy, PartialEq, Eq)]
struct Member {
    cell: Cell,
    remaining: u64,
    load: Load,
    slots: u32,
}

/// What a warehouse of two agents tells.
#[derive(Clone, Copy, PartialEq, Eq)]
pub struct Standing {
    clock: u32,
    closed: bool,
    agents: [Option<Member>; 2],
    entries: usize,
    counts: Counts,
    tasks: u32,
}

/// What is told of an agent, if there is one of that number.
fn told<P: Planner>(warehouse: &Warehouse<P>, agent: u32) -> Option<Member> {
    if agent >= warehouse.agents() {
        return None;
    }
    Some(Member {
        cell: warehouse.cell(agent),
        remaining: warehouse.remaining(agent),
        load: warehouse.load(agent),
        slots: warehouse.slots(agent),
    })
}

impl Standing {
    /// What the warehouse tells now.
    pub fn of<P: Planner>(warehouse: &Warehouse<P>) -> Standing {
        let tasks = warehouse.book().tasks();
        Standing {
            clock: warehouse.clock(),
            closed: warehouse.closed(),
            agents: [told(warehouse, 0), told(warehouse, 1)],
            entries: warehouse.history().len(),
            counts: tasks.counts(),
            tasks: tasks.len(),
        }
    }
}
