//! Errands for which a search over single times would take up very many states.

use crate::errands::{Found, delivered_in, parked_in};
use std::alloc::{AllocError, Global};
use std::test::Fail;
use wh_grid::{Cell, Grid};
use wh_path::TimedPath;
use wh_resv::Reservations;
use wh_search::SearchMemory;

const CORNER: Cell = Cell { x: 0, y: 0 };

/// An open floor of 48 cells a side.
fn floor(alloc: Global) -> Result<Grid, AllocError> {
    Ok(Grid::new(48, 48, vec![in alloc; true; 2304]?))
}

fn stay_and_leave(path: &mut TimedPath) -> Result<(), AllocError> {
    for _ in 0..99 {
        path.push(CORNER)?;
    }
    path.push(Cell { x: 1, y: 0 })?;
    path.push(Cell { x: 2, y: 0 })
}

/// A path that is in the corner up to 99, and then goes on along the wall.
fn guest(alloc: Global) -> Result<TimedPath, AllocError> {
    let mut path = TimedPath::one(alloc, CORNER)?;
    stay_and_leave(&mut path)?;
    Ok(path)
}

fn climb(path: &mut TimedPath) -> Result<(), AllocError> {
    for i in 0..46u16 {
        path.push(Cell {
            x: 0,
            y: 46u16.saturating_sub(i),
        })?;
    }
    Ok(())
}

/// A path up the other wall, that ends below the corner at 46.
fn climber(alloc: Global) -> Result<TimedPath, AllocError> {
    let mut path = TimedPath::one(alloc, Cell { x: 0, y: 47 })?;
    climb(&mut path)?;
    Ok(path)
}

/// Parks the first of these agents in the corner.
fn parked_beside(
    alloc: Global,
    paths: &[TimedPath; 2],
    loc: Cell,
    nofollow: bool,
) -> Result<Found, AllocError> {
    let grid = floor(alloc)?;
    let others = Reservations::build(alloc, paths, 0, nofollow)?;
    let mut memory = SearchMemory::empty(alloc);
    Ok(parked_in(alloc, &mut memory, &grid, &others, loc, &[CORNER]))
}

/// Parks in the corner once the guest has left it.
fn parks(alloc: Global, nofollow: bool) -> Result<Found, AllocError> {
    let loc = Cell { x: 9, y: 9 };
    let paths = [TimedPath::one(alloc, loc)?, guest(alloc)?];
    parked_beside(alloc, &paths, loc, nofollow)
}

/// At once, or under the rule one step later.
#[test]
fn waits_for_a_guest(rt: HostRuntime) -> Result<(), Fail> {
    assert!(rt; parks(rt.alloc(), false)? == Found::Ends(100));
    assert!(rt; parks(rt.alloc(), true)? == Found::Ends(101));
    Ok(())
}

/// Delivers by the first of these agents, through a cell beside it to the corner.
fn delivered_beside(alloc: Global, paths: &[TimedPath; 3], loc: Cell) -> Result<Found, AllocError> {
    let grid = floor(alloc)?;
    let others = Reservations::build(alloc, paths, 0, false)?;
    let mut memory = SearchMemory::empty(alloc);
    let stops = [Cell { x: 31, y: 30 }, CORNER];
    Ok(delivered_in(alloc, &mut memory, &grid, &others, loc, &stops))
}

/// Both cells beside the corner are taken for good before anybody can come there.
#[test]
fn is_told_that_none_delivers(rt: HostRuntime) -> Result<(), Fail> {
    let loc = Cell { x: 30, y: 30 };
    let paths = [
        TimedPath::one(rt.alloc(), loc)?,
        TimedPath::one(rt.alloc(), Cell { x: 1, y: 0 })?,
        climber(rt.alloc())?,
    ];
    assert!(rt; delivered_beside(rt.alloc(), &paths, loc)? == Found::NoPath);
    Ok(())
}
