//! What the files about searches share: floors, paths, and each search in one form, so that what they find can be compared.

use crate::layers;
use std::alloc::{AllocError, Global};
use wh_detours::deliver_round;
use wh_field::{Field, GrowingField, MOST_LEVEL, Sight};
use wh_grid::{Cell, Grid};
use wh_intervals::{deliver, deliver_guided, deliver_sighted, guided_steps, park, park_in};
use wh_path::TimedPath;
use wh_resv::Reservations;
use wh_search::{Fault, SearchMemory};

/// What comes of an errand.
#[derive(Clone, Copy, PartialEq, Eq)]
pub(crate) enum Found {
    /// A path with this many steps.
    Ends(u64),
    /// There is no path.
    NoPath,
    /// It cannot be asked, or memory runs out.
    NoAnswer,
}

pub(crate) fn outcome(answer: Result<TimedPath, Fault>) -> Found {
    match answer {
        Ok(path) => Found::Ends(path.remaining()),
        Err(Fault::NoPath) => Found::NoPath,
        Err(Fault::NoMemory) | Err(Fault::Effort) => Found::NoAnswer,
    }
}

/// A cell of the upper row.
pub(crate) fn at(x: u16) -> Cell {
    Cell { x, y: 0 }
}

fn push_all(path: &mut TimedPath, cells: &[(u16, u16)]) -> Result<(), AllocError> {
    for (x, y) in cells {
        path.push(Cell { x: *x, y: *y })?;
    }
    Ok(())
}

/// The path over these cells, of which there are some: else it is at the first cell of all.
pub(crate) fn path(alloc: Global, cells: &[(u16, u16)]) -> Result<TimedPath, AllocError> {
    let Some((first, rest)) = cells.split_first() else {
        return TimedPath::one(alloc, at(0));
    };
    let mut path = TimedPath::one(
        alloc,
        Cell {
            x: first.0,
            y: first.1,
        },
    )?;
    push_all(&mut path, rest)?;
    Ok(path)
}

/// Which cells of the rows `.....` and `@.@@@` are passable.
const SMALL: [bool; 10] = [
    true, true, true, true, true, false, true, false, false, false,
];

pub(crate) fn small_floor(alloc: Global) -> Result<Grid, AllocError> {
    Ok(Grid::new(5, 2, SMALL.to_vec(alloc)?))
}

/// By the plain search by layers of time.
pub(crate) fn delivered_by_layers(
    alloc: Global,
    grid: &Grid,
    others: &Reservations,
    loc: Cell,
    stops: &[Cell],
) -> Found {
    if !grid.passable(loc) || !others.may_rest(loc, 0) || stops.len() < 2 || stops.len() > 8 {
        return Found::NoAnswer;
    }
    outcome(layers::deliver(alloc, grid, others, loc, stops))
}

/// By the search over intervals.
pub(crate) fn delivered(
    alloc: Global,
    grid: &Grid,
    others: &Reservations,
    loc: Cell,
    stops: &[Cell],
) -> Found {
    if !grid.passable(loc) || !others.may_rest(loc, 0) || stops.len() < 2 || stops.len() > 8 {
        return Found::NoAnswer;
    }
    outcome(deliver(alloc, grid, others, loc, stops))
}

/// By the search over intervals, led by no field.
pub(crate) fn delivered_unled(
    alloc: Global,
    grid: &Grid,
    others: &Reservations,
    loc: Cell,
    stops: &[Cell],
) -> Found {
    if !grid.passable(loc) || !others.may_rest(loc, 0) || stops.len() < 2 || stops.len() > 8 {
        return Found::NoAnswer;
    }
    let bare = [None; 8];
    let fields = &bare[..stops.len()];
    outcome(deliver_guided(alloc, grid, others, loc, stops, fields))
}

/// The same in kept memory.
pub(crate) fn delivered_in(
    alloc: Global,
    memory: &mut SearchMemory,
    grid: &Grid,
    others: &Reservations,
    loc: Cell,
    stops: &[Cell],
) -> Found {
    if !grid.passable(loc) || !others.may_rest(loc, 0) || stops.len() < 2 || stops.len() > 8 {
        return Found::NoAnswer;
    }
    let blind: [Option<Sight>; 8] = [None; 8];
    let sights = &blind[..stops.len()];
    outcome(deliver_sighted(alloc, memory, grid, others, loc, stops, sights))
}

/// By the search over intervals, led by the fields of both stops.
pub(crate) fn delivered_led(
    alloc: Global,
    grid: &Grid,
    others: &Reservations,
    loc: Cell,
    stops: [Cell; 2],
) -> Found {
    if !grid.passable(loc) || !others.may_rest(loc, 0) {
        return Found::NoAnswer;
    }
    let (Ok(first), Ok(second)) = (
        Field::from(alloc, grid, stops[0]),
        Field::from(alloc, grid, stops[1]),
    ) else {
        return Found::NoAnswer;
    };
    let fields = [Some(&first), Some(&second)];
    outcome(deliver_guided(alloc, grid, others, loc, &stops, &fields))
}

/// By the search that makes detours round who stays, led by the fields of both stops, which are filled.
pub(crate) fn delivered_round(
    alloc: Global,
    grid: &Grid,
    others: &Reservations,
    paths: &[TimedPath],
    loc: Cell,
    stops: [Cell; 2],
) -> Found {
    if !grid.passable(loc) || !others.may_rest(loc, 0) {
        return Found::NoAnswer;
    }
    let (Ok(mut first), Ok(mut second)) = (
        GrowingField::from(alloc, grid, stops[0]),
        GrowingField::from(alloc, grid, stops[1]),
    ) else {
        return Found::NoAnswer;
    };
    first.fill_to(MOST_LEVEL);
    second.fill_to(MOST_LEVEL);
    let sights = [
        Some(Sight::new(&first, MOST_LEVEL)),
        Some(Sight::new(&second, MOST_LEVEL)),
    ];
    let mut memory = SearchMemory::empty(alloc);
    let mut effort = u64::MAX;
    outcome(deliver_round(
        alloc,
        &mut memory,
        grid,
        others,
        paths,
        loc,
        &stops,
        &sights,
        0,
        &mut effort,
    ))
}

/// How many arrivals are expanded then, where there is a path.
pub(crate) fn expanded(
    alloc: Global,
    grid: &Grid,
    others: &Reservations,
    loc: Cell,
    stops: [Cell; 2],
) -> Option<u64> {
    if !grid.passable(loc) || !others.may_rest(loc, 0) {
        return None;
    }
    let (Ok(first), Ok(second)) = (
        Field::from(alloc, grid, stops[0]),
        Field::from(alloc, grid, stops[1]),
    ) else {
        return None;
    };
    let fields = [Some(&first), Some(&second)];
    guided_steps(alloc, grid, others, loc, &stops, &fields).ok()
}

/// By the plain search by layers of time.
pub(crate) fn parked_by_layers(
    alloc: Global,
    grid: &Grid,
    others: &Reservations,
    loc: Cell,
    allowed: &[Cell],
) -> Found {
    if !grid.passable(loc) || !others.may_rest(loc, 0) {
        return Found::NoAnswer;
    }
    outcome(layers::park(alloc, grid, others, loc, allowed))
}

/// By the search over intervals.
pub(crate) fn parked(
    alloc: Global,
    grid: &Grid,
    others: &Reservations,
    loc: Cell,
    allowed: &[Cell],
) -> Found {
    if !grid.passable(loc) || !others.may_rest(loc, 0) {
        return Found::NoAnswer;
    }
    outcome(park(alloc, grid, others, loc, allowed))
}

/// The same in kept memory.
pub(crate) fn parked_in(
    alloc: Global,
    memory: &mut SearchMemory,
    grid: &Grid,
    others: &Reservations,
    loc: Cell,
    allowed: &[Cell],
) -> Found {
    if !grid.passable(loc) || !others.may_rest(loc, 0) {
        return Found::NoAnswer;
    }
    let mut effort = u64::MAX;
    outcome(park_in(alloc, memory, grid, others, loc, allowed, 0, &mut effort))
}
