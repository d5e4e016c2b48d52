//! Small errands on a floor of rows `.....` and `@.@@@`, one on an open floor, and what is asked of the others.

use crate::errands::{
    Found, at, delivered, delivered_by_layers, delivered_in, delivered_led, expanded, outcome,
    parked_in, path, small_floor,
};
use std::alloc::{AllocError, Global};
use std::test::Fail;
use wh_field::Field;
use wh_grid::{Cell, Grid};
use wh_intervals::deliver_guided;
use wh_path::TimedPath;
use wh_resv::Reservations;
use wh_search::SearchMemory;

/// A second search in the memory of a first one, of which what so short a search took is kept.
fn parks_again(
    alloc: Global,
    memory: &mut SearchMemory,
    grid: &Grid,
    others: &Reservations,
) -> bool {
    parked_in(alloc, memory, grid, others, at(0), &[at(4)]) == Found::NoPath
        && memory.room() >= 1024
        && parked_in(
            alloc,
            memory,
            grid,
            others,
            at(0),
            &[at(4), Cell { x: 1, y: 1 }],
        ) == Found::Ends(2)
}

fn parks_beside(alloc: Global, paths: &[TimedPath; 2]) -> Result<bool, AllocError> {
    let grid = small_floor(alloc)?;
    let others = Reservations::build(alloc, paths, 0, false)?;
    let mut memory = SearchMemory::empty(alloc);
    Ok(parks_again(alloc, &mut memory, &grid, &others))
}

#[test]
fn parks_in_kept_memory(rt: HostRuntime) -> Result<(), Fail> {
    let paths = [path(rt.alloc(), &[(0, 0)])?, path(rt.alloc(), &[(2, 0)])?];
    assert!(rt; parks_beside(rt.alloc(), &paths)?);
    Ok(())
}

/// Stops along the upper row of an open floor of 100 cells a side.
const FAR: [Cell; 2] = [Cell { x: 50, y: 0 }, Cell { x: 99, y: 0 }];

/// What is found with the field of the second stop alone: all is guessed to be near until the first stop.
fn delivered_half_led(alloc: Global, grid: &Grid, others: &Reservations) -> Found {
    let loc = at(0);
    if !grid.passable(loc) || !others.may_rest(loc, 0) {
        return Found::NoAnswer;
    }
    let Ok(second) = Field::from(alloc, grid, FAR[1]) else {
        return Found::NoAnswer;
    };
    let fields = [None, Some(&second)];
    outcome(deliver_guided(alloc, grid, others, loc, &FAR, &fields))
}

/// Whether few arrivals are expanded where both fields lead.
fn is_led(alloc: Global, grid: &Grid, others: &Reservations) -> bool {
    let few = match expanded(alloc, grid, others, at(0), FAR) {
        Some(count) => count <= 200,
        None => false,
    };
    few && delivered_led(alloc, grid, others, at(0), FAR) == Found::Ends(99)
}

#[test]
fn is_guided(rt: HostRuntime) -> Result<(), Fail> {
    let grid = Grid::new(100, 100, vec![in rt.alloc(); true; 10000]?);
    let paths = [path(rt.alloc(), &[(0, 0)])?];
    let others = Reservations::build(rt.alloc(), &paths, 0, false)?;
    assert!(rt; is_led(rt.alloc(), &grid, &others));
    assert!(rt; delivered_half_led(rt.alloc(), &grid, &others) == Found::Ends(99));
    Ok(())
}

/// Beside one that leaves (1, 0) in the first step, and comes by (2, 0) at time 1.
#[test]
fn asks_the_others(rt: HostRuntime) -> Result<(), Fail> {
    let paths = [
        path(rt.alloc(), &[(0, 0)])?,
        path(rt.alloc(), &[(1, 0), (2, 0), (3, 0)])?,
    ];
    let others = Reservations::build(rt.alloc(), &paths, 0, true)?;
    assert!(rt; others.horizon() == 2);
    assert!(rt; !others.may_step(at(0), at(1), 0) && others.may_step(at(0), at(1), 1));
    assert!(rt;
        !others.vacant(at(2), 1) && !others.may_rest(at(2), 1) && others.may_rest(at(2), 2)
    );
    assert!(rt; others.not_before(at(3)).is_none());
    Ok(())
}

/// How often the searches were compared beside one other path, and how often there was no path.
#[derive(Clone, Copy, PartialEq, Eq)]
struct Compared {
    all: u32,
    none: u32,
}

/// What all the searches find, one of them in kept memory, where they find the same.
fn agreed(
    alloc: Global,
    memory: &mut SearchMemory,
    grid: &Grid,
    others: &Reservations,
    loc: Cell,
    stops: [Cell; 2],
) -> Found {
    let plain = delivered_by_layers(alloc, grid, others, loc, &stops);
    if delivered_led(alloc, grid, others, loc, stops) == plain
        && delivered_in(alloc, memory, grid, others, loc, &stops) == plain
        && delivered(alloc, grid, others, loc, &stops) == plain
    {
        plain
    } else {
        Found::NoAnswer
    }
}

/// The passable cells of the small floor.
const CELLS: [Cell; 6] = [
    Cell { x: 0, y: 0 },
    Cell { x: 1, y: 0 },
    Cell { x: 2, y: 0 },
    Cell { x: 3, y: 0 },
    Cell { x: 4, y: 0 },
    Cell { x: 1, y: 1 },
];

/// Compares the searches from a cell, through each two cells. None: they differ.
fn compare_from(
    alloc: Global,
    memory: &mut SearchMemory,
    grid: &Grid,
    others: &Reservations,
    loc: Cell,
) -> Option<Compared> {
    let mut count = Compared { all: 0, none: 0 };
    for pickup in CELLS {
        for delivery in CELLS {
            count.all = count.all.saturating_add(1);
            match agreed(alloc, memory, grid, others, loc, [pickup, delivery]) {
                Found::Ends(_) => {}
                Found::NoPath => count.none = count.none.saturating_add(1),
                Found::NoAnswer => return None,
            }
        }
    }
    Some(count)
}

/// The same from each cell to which the other never comes.
fn compare_all(
    alloc: Global,
    memory: &mut SearchMemory,
    grid: &Grid,
    others: &Reservations,
) -> Option<Compared> {
    let mut sum = Compared { all: 0, none: 0 };
    for loc in CELLS {
        if others.may_rest(loc, 0) {
            let count = compare_from(alloc, memory, grid, others, loc)?;
            sum.all = sum.all.saturating_add(count.all);
            sum.none = sum.none.saturating_add(count.none);
        }
    }
    Some(sum)
}

fn compare_beside(alloc: Global, paths: &[TimedPath; 2]) -> Result<Option<Compared>, AllocError> {
    let grid = small_floor(alloc)?;
    let others = Reservations::build(alloc, paths, 0, false)?;
    let mut memory = SearchMemory::empty(alloc);
    Ok(compare_all(alloc, &mut memory, &grid, &others))
}

/// Whether the searches agree beside another path, over the given number of errands, and the given number have no path.
fn agree(alloc: Global, other: &[(u16, u16)], all: u32, none: u32) -> Result<bool, AllocError> {
    let paths = [path(alloc, &[(0, 0)])?, path(alloc, other)?];
    Ok(compare_beside(alloc, &paths)? == Some(Compared { all, none }))
}

// Six passable cells, so 36 pairs of pickup and delivery from each cell where the other never is.
#[test]
fn searches_agree(rt: HostRuntime) -> Result<(), Fail> {
    // The other comes everywhere but to (0,0). It ends at (4,0), and who is there before cannot get
    // out of its way: a path is there for the 25 pairs without that cell.
    let first = [(1, 1), (1, 1), (1, 0), (2, 0), (3, 0), (4, 0)];
    assert!(rt; agree(rt.alloc(), &first, 36, 11)?);
    // The other never comes to (0,0), (2,0), (3,0) and (4,0), and from 3 on it shuts (1,0), so that
    // nobody gets to (1,1): from these cells a path is there for 17, 15, 16 and 9 pairs.
    let second = [(1, 1), (1, 1), (1, 1), (1, 0)];
    assert!(rt; agree(rt.alloc(), &second, 144, 87)?);
    // The other parts three cells from two: a path is there for 9 pairs from each of the three, and
    // for 4 from each of the two.
    assert!(rt; agree(rt.alloc(), &[(2, 0)], 180, 145)?);
    Ok(())
}
