//! Detours round an agent that stays, on an open floor of three rows and in a corridor.

use crate::errands::{Found, delivered_by_layers, delivered_round, path};
use std::alloc::{AllocError, Global};
use std::test::Fail;
use wh_detours::{all_least_there, same_deliveries, without_taken};
use wh_grid::{Cell, Grid};
use wh_path::TimedPath;
use wh_resv::Reservations;

fn in_row(x: u16, y: u16) -> Cell {
    Cell { x, y }
}

/// Some rows of five cells, all of them passable.
fn open_floor(alloc: Global, rows: u16) -> Result<Grid, AllocError> {
    let walkable = vec![in alloc; true; 5 * usize::from(rows.min(3))]?;
    Ok(Grid::new(5, rows.min(3), walkable))
}

/// When an agent at the left of a row has come through its second cell to its last one, beside another agent: with
/// detours, and by the plain search.
fn across(
    alloc: Global,
    rows: u16,
    row: u16,
    paths: &[TimedPath; 2],
) -> Result<[Found; 2], AllocError> {
    let grid = open_floor(alloc, rows)?;
    let others = Reservations::build(alloc, paths, 0, false)?;
    let (loc, stops) = (in_row(0, row), [in_row(1, row), in_row(4, row)]);
    Ok([
        delivered_round(alloc, &grid, &others, paths, loc, stops),
        delivered_by_layers(alloc, &grid, &others, loc, &stops),
    ])
}

#[test]
fn goes_round_who_stays(rt: HostRuntime) -> Result<(), Fail> {
    let paths = [path(rt.alloc(), &[(0, 1)])?, path(rt.alloc(), &[(2, 1)])?];
    assert!(rt; across(rt.alloc(), 3, 1, &paths)? == [Found::Ends(6), Found::Ends(6)]);
    Ok(())
}

#[test]
fn waits_for_who_moves_on(rt: HostRuntime) -> Result<(), Fail> {
    let other = path(rt.alloc(), &[(2, 1), (2, 1), (2, 1), (2, 0)])?;
    let paths = [path(rt.alloc(), &[(0, 1)])?, other];
    assert!(rt; across(rt.alloc(), 3, 1, &paths)? == [Found::Ends(5), Found::Ends(5)]);
    Ok(())
}

#[test]
fn is_walled_in_by_who_stays(rt: HostRuntime) -> Result<(), Fail> {
    let paths = [path(rt.alloc(), &[(0, 0)])?, path(rt.alloc(), &[(2, 0)])?];
    assert!(rt; across(rt.alloc(), 1, 0, &paths)? == [Found::NoPath, Found::NoPath]);
    Ok(())
}

/// Whether the cells of two others may be walked on once those that are taken are left out.
fn left_of(alloc: Global, paths: &[TimedPath; 3]) -> Result<[bool; 2], AllocError> {
    let grid = open_floor(alloc, 3)?;
    let others = Reservations::build(alloc, paths, 0, false)?;
    let without = without_taken(alloc, &grid, &others, paths)?;
    Ok([
        without.passable(paths[1].at(0)),
        without.passable(paths[2].at(0)),
    ])
}

#[test]
fn only_who_stays_bars_a_cell(rt: HostRuntime) -> Result<(), Fail> {
    let paths = [
        path(rt.alloc(), &[(0, 1)])?,
        path(rt.alloc(), &[(2, 1)])?,
        path(rt.alloc(), &[(3, 1), (3, 2)])?,
    ];
    assert!(rt; left_of(rt.alloc(), &paths)? == [false, true]);
    Ok(())
}

#[test]
fn detour_laws_hold(_rt: HostRuntime) -> Result<(), Fail> {
    same_deliveries();
    all_least_there();
    Ok(())
}
