//! Tasks that are submitted, taken and visited over a few ticks.
#![tactic(auto)]

use std::alloc::Global;
use std::test::Fail;
use wh_grid::{Cell, Grid};
use wh_path::TimedPath;
use wh_state::{Arrivals, FleetState};
use wh_tasks::{Counts, Load, Phase, Places};
use wh_text::Name;

const A: Cell = Cell { x: 1, y: 0 };

const B: Cell = Cell { x: 3, y: 0 };

const C: Cell = Cell { x: 1, y: 2 };

const RIGHT: Cell = Cell { x: 4, y: 1 };

/// A floor of five columns and three rows with an agent at each of these cells, at clock 0.
fn floor_with(alloc: Global, starts: &[Cell]) -> Result<FleetState, Fail> {
    if starts.len() > 256 {
        return Err("there are too many agents".into());
    }
    let grid = Grid::new(5, 3, vec![in alloc; true; 15]?);
    let slots = vec![in alloc; 4; starts.len()]?;
    Ok(FleetState::open(alloc, &grid, 0, starts, slots)?)
}

/// Submits a task with these stops.
fn submit(alloc: Global, floor: &mut FleetState, stops: &[Cell]) -> Result<u32, Fail> {
    floor.reserve_task(alloc)?;
    if stops.len() < 2 || stops.len() > 8 || floor.tasks().len() >= 1_000_000 {
        return Err("this is no task, or there is no room".into());
    }
    Ok(floor.submit(Name::default(), Places::of(stops)))
}

/// An agent takes a task over these cells.
fn take(
    alloc: Global,
    floor: &mut FleetState,
    agent: u32,
    n: u32,
    cells: &[Cell],
) -> Result<(), Fail> {
    let is_free = (agent as usize) < floor.paths().len() && floor.is_idle(agent);
    if cells.is_empty() || !is_free || !floor.tasks().is_open(n) {
        return Err("it may not take the task".into());
    }
    let path = TimedPath::over(Vec::from_slice(alloc, cells)?);
    floor.reserve_path(&path)?;
    floor.take(agent, n, path);
    Ok(())
}

/// An agent goes over these cells.
fn park(alloc: Global, floor: &mut FleetState, agent: u32, cells: &[Cell]) -> Result<(), Fail> {
    if cells.is_empty() || agent as usize >= floor.paths().len() {
        return Err("it may not go there".into());
    }
    let path = TimedPath::over(Vec::from_slice(alloc, cells)?);
    floor.reserve_path(&path)?;
    floor.park(agent, path);
    Ok(())
}

/// Whether an agent may choose a task, if there is such an agent.
fn may_choose(floor: &FleetState, agent: u32, n: u32) -> Option<bool> {
    if agent as usize >= floor.paths().len() {
        return None;
    }
    Some(floor.tasks().eligible(n, &floor.other_ends(agent)))
}

/// The next tick's arrivals: how many tasks are picked up, and how many delivered.
fn tick(floor: &mut FleetState) -> Option<(u32, u32)> {
    if floor.clock() >= 1_000_000_000 {
        return None;
    }
    let Arrivals { picked, dropped } = floor.tick();
    Some((picked, dropped))
}

fn is_loaded(floor: &FleetState, agent: usize, load: Load) -> bool {
    agent < floor.loads().len() && floor.loads()[agent] == load
}

fn is_in(floor: &FleetState, n: u32, phase: Phase) -> bool {
    n < floor.tasks().len() && floor.tasks().phase(n) == phase
}

/// Whether these are the clocks of a task's visits.
fn is_visited(floor: &FleetState, n: u32, clocks: &[u32]) -> bool {
    n < floor.tasks().len() && floor.tasks().task(n).visits.as_slice() == clocks
}

/// Whether the next ticks have these arrivals, and agent 0 has this load after each.
fn go_on(floor: &mut FleetState, ticks: &[((u32, u32), Load)]) -> bool {
    for (arrivals, load) in ticks {
        if tick(floor) != Some(*arrivals) || !is_loaded(floor, 0, *load) {
            return false;
        }
    }
    true
}

const START: Cell = Cell { x: 0, y: 1 };

/// From the left to A, to C and to B.
const OVER_THREE: [Cell; 9] = [
    START,
    Cell { x: 1, y: 1 },
    A,
    Cell { x: 1, y: 1 },
    C,
    Cell { x: 1, y: 1 },
    Cell { x: 2, y: 1 },
    Cell { x: 3, y: 1 },
    B,
];

const FETCHING: Load = Load::Fetching(0);

const CARRYING: Load = Load::Carrying {
    task: 0,
    visited: 1,
};

const CARRYING_ON: Load = Load::Carrying {
    task: 0,
    visited: 2,
};

/// What happens on that way before the last step.
const BEFORE_THE_LAST: [((u32, u32), Load); 7] = [
    ((0, 0), FETCHING),
    ((1, 0), CARRYING),
    ((0, 0), CARRYING),
    ((0, 0), CARRYING_ON),
    ((0, 0), CARRYING_ON),
    ((0, 0), CARRYING_ON),
    ((0, 0), CARRYING_ON),
];

/// Whether agent 0 carries the first task over that way.
fn is_carried(alloc: Global, floor: &mut FleetState) -> Result<bool, Fail> {
    take(alloc, floor, 0, 0, &OVER_THREE)?;
    Ok(
        is_loaded(floor, 0, FETCHING)
            && go_on(floor, &BEFORE_THE_LAST)
            && is_in(floor, 0, Phase::Carried)
            && go_on(floor, &[((0, 1), Load::None)])
            && is_in(floor, 0, Phase::Done),
    )
}

#[test]
fn three_stops(rt: HostRuntime) -> Result<(), Fail> {
    let mut floor = floor_with(rt.alloc(), &[START])?;
    assert!(rt; submit(rt.alloc(), &mut floor, &[A, C, B])? == 0 && is_in(&floor, 0, Phase::Open));
    assert!(rt; is_carried(rt.alloc(), &mut floor)? && is_visited(&floor, 0, &[2, 4, 8]));
    Ok(())
}

/// From the left to A, and to B.
const OVER_TWO: [Cell; 7] = [
    START,
    Cell { x: 1, y: 1 },
    A,
    Cell { x: 1, y: 1 },
    Cell { x: 2, y: 1 },
    Cell { x: 3, y: 1 },
    B,
];

/// What happens on that way, where both stops come twice.
const TWICE: [((u32, u32), Load); 6] = [
    ((0, 0), FETCHING),
    ((1, 0), CARRYING_ON),
    ((0, 0), CARRYING_ON),
    ((0, 0), CARRYING_ON),
    ((0, 0), CARRYING_ON),
    ((0, 1), Load::None),
];

#[test]
fn stops_that_repeat(rt: HostRuntime) -> Result<(), Fail> {
    let mut floor = floor_with(rt.alloc(), &[START])?;
    submit(rt.alloc(), &mut floor, &[A, A, B, B])?;
    take(rt.alloc(), &mut floor, 0, 0, &OVER_TWO)?;
    assert!(rt; go_on(&mut floor, &TWICE) && is_visited(&floor, 0, &[2, 2, 6, 6]));
    Ok(())
}

/// Whether so many tasks are open, assigned, carried and done.
fn has_counts(floor: &FleetState, open_tasks: u32, assigned: u32, carried: u32, done: u32) -> bool {
    floor.tasks().counts()
        == Counts {
            open_tasks,
            assigned,
            carried,
            done,
        }
}

/// Three tasks. Agent 0 takes the first, at both of whose stops it is, and agent 1 the third.
fn take_two(alloc: Global, floor: &mut FleetState) -> Result<(), Fail> {
    for stops in [[A, A], [B, C], [B, C]] {
        submit(alloc, floor, &stops)?;
    }
    take(alloc, floor, 0, 0, &[A])?;
    take(alloc, floor, 1, 2, &[RIGHT, Cell { x: 3, y: 1 }, B])
}

#[test]
fn visited_at_once(rt: HostRuntime) -> Result<(), Fail> {
    let mut floor = floor_with(rt.alloc(), &[A, RIGHT])?;
    take_two(rt.alloc(), &mut floor)?;
    assert!(rt; is_loaded(&floor, 0, Load::None) && is_visited(&floor, 0, &[0, 0]));
    assert!(rt; has_counts(&floor, 1, 1, 0, 1));
    assert!(rt; go_on(&mut floor, &[((0, 0), Load::None), ((1, 0), Load::None)]));
    assert!(rt; has_counts(&floor, 1, 0, 1, 1));
    assert!(rt; floor.tasks().delivers_at(C) && !floor.tasks().delivers_at(A));
    Ok(())
}

/// Agents, tasks, and whether the agent may choose the task: not where there is none, nor where another's path ends at
/// one of its stops.
const CHOICES: [(u32, u32, bool); 4] = [(0, 0, true), (0, 1, false), (0, 2, false), (1, 0, false)];

fn submit_both(alloc: Global, floor: &mut FleetState) -> Result<(), Fail> {
    for stops in [[A, RIGHT, C], [A, B, C]] {
        submit(alloc, floor, &stops)?;
    }
    Ok(())
}

fn may_choose_so(floor: &FleetState) -> bool {
    for (agent, task, may) in CHOICES {
        if may_choose(floor, agent, task) != Some(may) {
            return false;
        }
    }
    true
}

/// Agent 1 parks elsewhere, and then takes a task.
fn go_elsewhere(alloc: Global, floor: &mut FleetState) -> Result<bool, Fail> {
    park(alloc, floor, 1, &[B, Cell { x: 3, y: 1 }])?;
    let may_at_once = may_choose(floor, 0, 1) == Some(true);
    let may_then = tick(floor).is_some() && may_choose(floor, 0, 1) == Some(true);
    take(alloc, floor, 1, 1, &[Cell { x: 3, y: 1 }, RIGHT])?;
    Ok(may_at_once && may_then && may_choose(floor, 0, 0) == Some(false))
}

#[test]
fn ends_of_others(rt: HostRuntime) -> Result<(), Fail> {
    let mut floor = floor_with(rt.alloc(), &[A, B])?;
    submit_both(rt.alloc(), &mut floor)?;
    assert!(rt; may_choose_so(&floor));
    assert!(rt; go_elsewhere(rt.alloc(), &mut floor)?);
    Ok(())
}
