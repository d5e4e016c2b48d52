//! Long ways along columns and rows, which need no field.

use crate::errands::{Found, delivered, path};
use std::alloc::{AllocError, Global};
use std::test::Fail;
use wh_grid::{Cell, Grid};
use wh_intervals::deliver_unguided;
use wh_resv::Reservations;
use wh_search::SearchMemory;

const CORNER: Cell = Cell { x: 0, y: 0 };

/// Along the first of two rows, and at its end into the second: 200 steps.
const LONG: [Cell; 2] = [Cell { x: 150, y: 0 }, Cell { x: 199, y: 1 }];

/// 127 steps, and 128.
const SHORT: [Cell; 2] = [Cell { x: 100, y: 0 }, Cell { x: 126, y: 1 }];

const LESS_SHORT: [Cell; 2] = [Cell { x: 100, y: 0 }, Cell { x: 127, y: 1 }];

fn floor(alloc: Global) -> Result<Grid, AllocError> {
    Ok(Grid::new(200, 2, vec![in alloc; true; 400]?))
}

/// What is found by no field; where nothing is said, no path.
fn unguided(
    alloc: Global,
    grid: &Grid,
    others: &Reservations,
    stops: [Cell; 2],
) -> Result<Found, AllocError> {
    if !grid.passable(CORNER) || !others.may_rest(CORNER, 0) {
        return Ok(Found::NoAnswer);
    }
    let mut memory = SearchMemory::empty(alloc);
    let mut effort = u64::MAX;
    let found = deliver_unguided(
        alloc,
        &mut memory,
        grid,
        others,
        CORNER,
        &stops,
        &mut effort,
    )?;
    Ok(match found {
        Some(path) => Found::Ends(path.remaining()),
        None => Found::NoPath,
    })
}

/// From the corner, beside another that stays at a cell: by no field, and by the search over intervals.
fn beside(
    alloc: Global,
    other: (u16, u16),
    stops: [Cell; 2],
) -> Result<(Found, Found), AllocError> {
    let grid = floor(alloc)?;
    let paths = [path(alloc, &[(0, 0)])?, path(alloc, &[other])?];
    let others = Reservations::build(alloc, &paths, 0, false)?;
    let found = unguided(alloc, &grid, &others, stops)?;
    Ok((found, delivered(alloc, &grid, &others, CORNER, &stops)))
}

/// Where the way is long enough.
#[test]
fn a_long_way_needs_no_field(rt: HostRuntime) -> Result<(), Fail> {
    let aside = (100, 1);
    assert!(rt; beside(rt.alloc(), aside, LONG)? == (Found::Ends(200), Found::Ends(200)));
    assert!(rt; beside(rt.alloc(), aside, LESS_SHORT)? == (Found::Ends(128), Found::Ends(128)));
    assert!(rt; beside(rt.alloc(), aside, SHORT)? == (Found::NoPath, Found::Ends(127)));
    Ok(())
}

/// Round another that stays in the row there are two steps more, of which nothing is said.
#[test]
fn a_way_aside_is_left_to_the_search(rt: HostRuntime) -> Result<(), Fail> {
    let between = (99, 0);
    assert!(rt; beside(rt.alloc(), between, LONG)? == (Found::NoPath, Found::Ends(202)));
    assert!(rt; beside(rt.alloc(), (199, 1), LONG)? == (Found::NoPath, Found::NoPath));
    Ok(())
}
