//! Tasks on small maps: which is nearest, and how they go from phase to phase.
#![tactic(auto)]

ghost use Rattle.std.specs.Prelude.{◌≡◌, ◌<◌, ◌≤◌, length, IfOk};

use std::alloc::{AllocError, Global};
use std::test::Fail;
use wh_field::LazyField;
use wh_grid::{Cell, Grid};
use wh_tasks::{
    Arrived, Counts, Foretold, Load, PathEnds, Phase, Places, TaskSet, Visit, arrive, foretell,
    laws,
};
use wh_text::Name;

/// Which cells of the map `@.@.@`, `.....`, `@.@.@` are passable.
const MAP: [bool; 15] = [
    false, true, false, true, false, true, true, true, true, true, false, true, false, true, false,
];

const A: Cell = Cell { x: 1, y: 0 };

const B: Cell = Cell { x: 3, y: 0 };

const C: Cell = Cell { x: 1, y: 2 };

const D: Cell = Cell { x: 3, y: 2 };

const LEFT: Cell = Cell { x: 0, y: 1 };

const RIGHT: Cell = Cell { x: 4, y: 1 };

/// A cell outside the map.
const OUTSIDE: Cell = Cell { x: 3, y: 9 };

/// No task, where the paths end at these cells, on a grid of these sides.
fn among(alloc: Global, width: u16, height: u16, cells: &[Cell]) -> Result<TaskSet, AllocError>
    requires { length cells.now ≤ 65535 }
    ensures { IfOk result (λ set. set.ends ≡ cells.now) }
{
    let ends = PathEnds::of(alloc, width, height, cells)?;
    TaskSet::new(alloc, width, height, ends)
}

/// Submits a task at clock 3.
fn submit(alloc: Global, set: &mut TaskSet, stops: &[Cell]) -> Result<u32, Fail>
    ensures { set.new.ends ≡ set.old.ends }
{
    let client = Name::read(b"x").ok_or("no name")?;
    set.reserve(alloc)?;
    if !set.room() || set.len() >= 1_000_000 || stops.len() < 2 || stops.len() > 8 {
        return Err("this is no task, or there is no room".into());
    }
    Ok(set.submit(client, Places::of(stops), 3))
}

/// Gives a task to agent 0, where it is open.
fn assign(set: &mut TaskSet, n: u32) -> bool
    ensures { set.new.ends ≡ set.old.ends }
{
    let is_open = set.is_open(n);
    if is_open {
        set.assign(n, 0);
    }
    is_open
}

/// Visits the next stop of a task.
fn visit(set: &mut TaskSet, n: u32, clock: u32) -> Option<Visit> {
    if set.may_visit(n, clock) {
        Some(set.visit(n, clock))
    } else {
        None
    }
}

/// The arrivals of a task's agent.
fn come(set: &mut TaskSet, n: u32, clock: u32, here: Cell) -> Option<Arrived> {
    if set.may_visit(n, clock) {
        Some(arrive(set, n, clock, here))
    } else {
        None
    }
}

fn is_in(set: &TaskSet, n: u32, phase: Phase) -> bool {
    n < set.len() && set.phase(n) == phase
}

fn map(alloc: Global) -> Result<Grid, AllocError> {
    Ok(Grid::new(5, 3, MAP.to_vec(alloc)?))
}

fn submit_all(alloc: Global, set: &mut TaskSet, tasks: &[[Cell; 2]]) -> Result<(), Fail>
    ensures { set.new.ends ≡ set.old.ends }
{
    for stops in tasks {
        submit(alloc, set, stops)?;
    }
    Ok(())
}

/// Tasks in the order in which they are submitted, and which one is nearest then.
const COMING: [([Cell; 2], u32); 3] = [([D, C], 0), ([A, B], 1), ([C, D], 1)];

fn are_nearest_as_they_come(
    alloc: Global,
    set: &mut TaskSet,
    lazy: &mut LazyField,
) -> Result<bool, Fail>
    requires { 0 < length set.old.ends }
    ensures { set.new.ends ≡ set.old.ends }
{
    let mut are = set.nearest(lazy, 0).is_none();
    for (stops, nearest) in COMING {
        submit(alloc, set, &stops)?;
        are = are && set.nearest(lazy, 0) == Some(nearest);
    }
    Ok(are)
}

/// Where another rests at a stop of the nearest task, the next one is taken.
fn is_nearest_barred(set: &TaskSet, lazy: &mut LazyField) -> bool
    requires { 0 < length set.now.ends }
{
    let ends = set.other_ends(0);
    set.eligible(0, &ends)
        && !set.eligible(1, &ends)
        && !set.eligible(3, &ends)
        && set.nearest(lazy, 0) == Some(2)
}

/// The second of two comes to a stop of the nearest task at last.
fn are_nearest(alloc: Global, set: &mut TaskSet, lazy: &mut LazyField) -> Result<bool, Fail>
    requires { length set.old.ends ≡ 2 }
{
    let are_nearest = are_nearest_as_they_come(alloc, set, lazy)?;
    set.set_end(1, B);
    Ok(are_nearest && is_nearest_barred(set, lazy))
}

/// The distances from the cell at the left.
fn from_left(alloc: Global) -> Result<LazyField, AllocError> {
    let grid = map(alloc)?;
    LazyField::from(alloc, &grid, LEFT)
}

#[test]
fn nearest_task_first(rt: HostRuntime) -> Result<(), Fail> {
    let mut lazy = from_left(rt.alloc())?;
    let mut set = among(rt.alloc(), 5, 3, &[A, RIGHT])?;
    assert!(rt; are_nearest(rt.alloc(), &mut set, &mut lazy)?);
    Ok(())
}

/// Which task is nearest to the cell at the right, where the distances were those of the left before.
fn nearest_from_right(alloc: Global, set: &TaskSet) -> Result<Option<u32>, AllocError>
    requires { 0 < length set.now.ends }
{
    let grid = map(alloc)?;
    let mut lazy = LazyField::from(alloc, &grid, LEFT)?;
    lazy.again(RIGHT);
    Ok(set.nearest(&mut lazy, 0))
}

#[test]
fn nearest_of_the_open_ones(rt: HostRuntime) -> Result<(), Fail> {
    let mut set = among(rt.alloc(), 5, 3, &[A, RIGHT])?;
    submit_all(rt.alloc(), &mut set, &[[D, C], [A, B], [C, D]])?;
    assert!(rt; assign(&mut set, 1));
    assert!(rt; nearest_from_right(rt.alloc(), &set)? == Some(0));
    Ok(())
}

/// Which of two agents may choose the one task.
fn choosers(set: &TaskSet, lazy: &mut LazyField) -> (bool, bool)
    requires { length set.now.ends ≡ 2 }
{
    (
        set.nearest(lazy, 0) == Some(0),
        set.nearest(lazy, 1) == Some(0),
    )
}

/// An agent that rests at a stop of the task bars only the others, until its path ends elsewhere.
fn are_barred_in_turn(set: &mut TaskSet, lazy: &mut LazyField) -> bool
    requires { length set.old.ends ≡ 2 }
{
    let at_first = choosers(set, lazy) == (true, false);
    set.set_end(1, B);
    let with_both = choosers(set, lazy) == (false, false);
    set.set_end(0, LEFT);
    let with_second = choosers(set, lazy) == (false, true);
    set.set_end(1, RIGHT);
    at_first && with_both && with_second && choosers(set, lazy) == (true, true)
}

#[test]
fn own_end_bars_the_others(rt: HostRuntime) -> Result<(), Fail> {
    let mut lazy = from_left(rt.alloc())?;
    let mut set = among(rt.alloc(), 5, 3, &[A, RIGHT])?;
    submit(rt.alloc(), &mut set, &[A, B])?;
    assert!(rt; are_barred_in_turn(&mut set, &mut lazy));
    Ok(())
}

/// Of which of two agents it is known at once that it may choose none.
fn idle(set: &TaskSet) -> (bool, bool)
    requires { length set.now.ends ≡ 2 }
{
    (set.has_none_for(0), set.has_none_for(1))
}

/// While a path ends at a stop of the one task, that is known of an agent whose own path ends at none of its stops.
fn are_idle_in_turn(set: &mut TaskSet) -> bool
    requires { length set.old.ends ≡ 2 }
{
    let at_first = idle(set) == (false, true);
    set.set_end(1, B);
    let with_both = idle(set) == (false, false);
    set.set_end(0, LEFT);
    let with_second = idle(set) == (true, false);
    set.set_end(1, RIGHT);
    at_first && with_both && with_second && idle(set) == (false, false)
}

#[test]
fn who_may_choose_none_is_known(rt: HostRuntime) -> Result<(), Fail> {
    let mut set = among(rt.alloc(), 5, 3, &[A, RIGHT])?;
    submit(rt.alloc(), &mut set, &[A, B])?;
    assert!(rt; are_idle_in_turn(&mut set));
    Ok(())
}

/// Agents, cells, and whether another of three agents ends there.
fn are_ends(all: &PathEnds, ends: &[(u32, Cell, bool)]) -> bool
    requires { length all.now ≡ 3 }
{
    for (agent, cell, is_end) in ends {
        if *agent >= 3 || all.but(*agent).has(*cell) != *is_end {
            return false;
        }
    }
    true
}

const AT_FIRST: [(u32, Cell, bool); 5] = [
    (0, A, false),
    (1, A, true),
    (1, B, true),
    (0, LEFT, false),
    (0, OUTSIDE, false),
];

const WITH_ONE_OUTSIDE: [(u32, Cell, bool); 3] = [
    (1, B, false),
    (1, OUTSIDE, true),
    (2, OUTSIDE, false),
];

const WITH_TWO_AT_ONE: [(u32, Cell, bool); 3] = [(0, A, true), (2, A, true), (1, OUTSIDE, false)];

#[test]
fn ends_of_others(rt: HostRuntime) -> Result<(), Fail> {
    let mut all = PathEnds::of(rt.alloc(), 5, 3, &[A, B, B])?;
    assert!(rt; are_ends(&all, &AT_FIRST));
    all.set(2, OUTSIDE);
    assert!(rt; are_ends(&all, &WITH_ONE_OUTSIDE));
    all.set(2, A);
    assert!(rt; are_ends(&all, &WITH_TWO_AT_ONE));
    Ok(())
}

/// A row of 40 cells, of which the one at 35 is blocked.
fn row(alloc: Global) -> Result<Grid, AllocError> {
    let mut cells = vec![in alloc; true; 40]?;
    cells[35] = false;
    Ok(Grid::new(40, 1, cells))
}

/// Tasks at these places of the row.
fn submit_along(alloc: Global, set: &mut TaskSet, places: &[u16]) -> Result<(), Fail>
    ensures { set.new.ends ≡ set.old.ends }
{
    for x in places {
        submit(alloc, set, &[Cell { x: *x, y: 0 }, Cell { x: 0, y: 0 }])?;
    }
    Ok(())
}

/// Whether a task is the nearest; it is taken then.
fn is_next(set: &mut TaskSet, lazy: &mut LazyField, n: u32) -> bool
    requires { 0 < length set.old.ends }
    ensures { set.new.ends ≡ set.old.ends }
{
    set.nearest(lazy, 0) == Some(n) && assign(set, n)
}

fn are_taken_in_turn(set: &mut TaskSet, lazy: &mut LazyField) -> bool
    requires { 0 < length set.old.ends }
{
    for n in [2, 1, 0, 3] {
        if !is_next(set, lazy, n) {
            return false;
        }
    }
    set.nearest(lazy, 0).is_none()
}

/// Whether the tasks are taken in turn by one at the left of the row.
fn are_taken(alloc: Global, set: &mut TaskSet) -> Result<bool, AllocError>
    requires { 0 < length set.old.ends }
{
    let grid = row(alloc)?;
    let mut lazy = LazyField::from(alloc, &grid, Cell { x: 0, y: 0 })?;
    Ok(are_taken_in_turn(set, &mut lazy))
}

#[test]
fn far_tasks(rt: HostRuntime) -> Result<(), Fail> {
    let mut set = among(rt.alloc(), 40, 1, &[Cell { x: 0, y: 0 }])?;
    submit_along(rt.alloc(), &mut set, &[37, 30, 20, 38])?;
    assert!(rt; are_taken(rt.alloc(), &mut set)?);
    Ok(())
}

/// Clocks of the visits of a task with four stops, what each visit is, and the phase after it.
const VISITS: [(u32, Visit, Phase); 4] = [
    (5, Visit::First, Phase::Carried),
    (5, Visit::Between, Phase::Carried),
    (7, Visit::Between, Phase::Carried),
    (9, Visit::Last, Phase::Done),
];

fn are_visited(set: &mut TaskSet) -> bool {
    for (clock, kind, phase) in VISITS {
        if visit(set, 0, clock) != Some(kind) || !is_in(set, 0, phase) {
            return false;
        }
    }
    true
}

/// Whether all tasks are done, and there are this many.
fn are_done(set: &TaskSet, count: u32) -> bool {
    set.len() == count
        && set.counts()
            == Counts {
                open_tasks: 0,
                assigned: 0,
                carried: 0,
                done: count,
            }
}

/// Whether these are the clocks of the first task's visits.
fn is_visited(set: &TaskSet, clocks: &[u32]) -> bool {
    set.len() > 0 && set.task(0).visits.as_slice() == clocks
}

/// Whether the first task goes from those that are open to the agent that is to visit its stops.
fn is_given(set: &mut TaskSet) -> bool {
    let was_open = set.delivers_at(B) && !set.delivers_at(A) && is_in(set, 0, Phase::Open);
    was_open
        && assign(set, 0)
        && is_in(set, 0, Phase::Assigned)
        && !set.is_open(0)
        && !set.delivers_at(B)
        && !set.may_visit(0, 2)
}

#[test]
fn stops_that_repeat(rt: HostRuntime) -> Result<(), Fail> {
    let mut set = among(rt.alloc(), 5, 3, &[])?;
    assert!(rt; submit(rt.alloc(), &mut set, &[A, A, B, B])? == 0);
    assert!(rt; is_given(&mut set) && are_visited(&mut set));
    assert!(rt; are_done(&set, 1) && is_visited(&set, &[5, 5, 7, 9]));
    Ok(())
}

/// Whether each cell is a stop of an open task, and whether one is delivered there.
fn are_stops(set: &TaskSet, cells: &[(Cell, bool, bool)]) -> bool {
    for (cell, is_stop, is_delivery) in cells {
        if set.stops_at(*cell) != *is_stop || set.delivers_at(*cell) != *is_delivery {
            return false;
        }
    }
    true
}

const BOTH_OPEN: [(Cell, bool, bool); 5] = [
    (A, true, true),
    (B, true, true),
    (C, true, false),
    (D, false, false),
    (OUTSIDE, true, false),
];

const SECOND_OPEN: [(Cell, bool, bool); 4] = [
    (A, true, true),
    (B, false, false),
    (C, true, false),
    (OUTSIDE, false, false),
];

const NONE_OPEN: [(Cell, bool, bool); 3] = [
    (A, false, false),
    (B, false, false),
    (C, false, false),
];

#[test]
fn stops_of_open_tasks(rt: HostRuntime) -> Result<(), Fail> {
    let mut set = among(rt.alloc(), 5, 3, &[])?;
    submit(rt.alloc(), &mut set, &[A, OUTSIDE, A, B])?;
    submit(rt.alloc(), &mut set, &[C, A])?;
    assert!(rt; are_stops(&set, &BOTH_OPEN));
    assert!(rt; assign(&mut set, 0) && are_stops(&set, &SECOND_OPEN));
    assert!(rt; assign(&mut set, 1) && are_stops(&set, &NONE_OPEN));
    Ok(())
}

const TWO_VISITED: Load = Load::Carrying {
    task: 0,
    visited: 2,
};

/// Clocks and cells of the agent that has the first task, with its arrivals: A and B are stops twice each.
const COMES: [(u32, Cell, Arrived); 3] = [
    (
        4,
        A,
        Arrived {
            load: TWO_VISITED,
            picked: true,
            dropped: false,
        },
    ),
    (
        5,
        C,
        Arrived {
            load: TWO_VISITED,
            picked: false,
            dropped: false,
        },
    ),
    (
        6,
        B,
        Arrived {
            load: Load::None,
            picked: false,
            dropped: true,
        },
    ),
];

fn arrives_as_said(set: &mut TaskSet) -> bool {
    for (clock, cell, arrived) in COMES {
        if come(set, 0, clock, cell) != Some(arrived) {
            return false;
        }
    }
    true
}

/// Whether it is foretold that the first task is picked up where its agent comes to a cell, and no more.
fn is_foretold(set: &TaskSet, here: Cell) -> bool {
    let told = Foretold {
        picked: true,
        dropped: false,
    };
    set.len() > 0 && foretell(set, 0, here) == told
}

/// Whether the second task, with both stops at one cell, is picked up and delivered there at once.
fn is_done_at_once(set: &mut TaskSet) -> bool {
    let at_once = Arrived {
        load: Load::None,
        picked: true,
        dropped: true,
    };
    assign(set, 1) && come(set, 1, 6, C) == Some(at_once)
}

#[test]
fn arrivals(rt: HostRuntime) -> Result<(), Fail> {
    let mut set = among(rt.alloc(), 5, 3, &[])?;
    submit(rt.alloc(), &mut set, &[A, A, B, B])?;
    submit(rt.alloc(), &mut set, &[C, C])?;
    assert!(rt; assign(&mut set, 0) && set.len() == 2 && is_foretold(&set, A));
    assert!(rt; arrives_as_said(&mut set) && is_done_at_once(&mut set));
    assert!(rt; Load::Fetching(1).task() == Some(1));
    Ok(())
}

#[test]
fn laws_stand(_rt: HostRuntime) {
    laws::phases_are_as_said();
    laws::arrivals_visit_all();
    laws::nearest_is_one();
}
