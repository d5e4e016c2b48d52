//! Shared fields on a small open map.

use std::alloc::Global;
use std::num::NonZeroUsize;
use std::sync::Arc;
use std::test::Fail;
use wh_field::Field;
use wh_grid::{Cell, Grid};
use wh_shared::{Share, SharedFields, room_within};

/// An open map of 8 by 6 cells, in which the cells at x = 4 but for the one at y = 0 are blocked.
pub(crate) const WALLED: &[u8] =
    b"type octile\nheight 6\nwidth 8\nmap\n........\n....@...\n....@...\n....@...\n....@...\n....@...\n";

/// The same with that one blocked.
const CLOSED: &[u8] =
    b"type octile\nheight 6\nwidth 8\nmap\n....@...\n....@...\n....@...\n....@...\n....@...\n....@...\n";

const STOP: Cell = Cell { x: 7, y: 5 };

pub(crate) fn read(alloc: Global, map: &[u8]) -> Result<Grid, Fail> {
    match Grid::read(alloc, map) {
        Ok(grid) => Ok(grid),
        Err(_) => Err("the map is read".into()),
    }
}

pub(crate) fn number(n: usize) -> Result<NonZeroUsize, Fail> {
    match NonZeroUsize::new(n) {
        Some(number) => Ok(number),
        None => Err("a number above 0".into()),
    }
}

/// A store with room for two fields of a map.
fn store(alloc: Global, map: &[u8]) -> Result<SharedFields, Fail> {
    let most = number(2)?;
    let grid = Arc::new(alloc, read(alloc, map)?)?;
    Ok(SharedFields::new(alloc, grid, most)?)
}

/// All distances from the stop.
fn whole(alloc: Global) -> Result<Field, Fail> {
    let grid = read(alloc, WALLED)?;
    Ok(Field::from(alloc, &grid, STOP)?)
}

/// Whether the stored field has each distance up to 5, and 6 in place of a greater one.
fn serves_all(store: &SharedFields, whole: &Field) -> bool {
    let Some(field) = store.look(STOP) else {
        return false;
    };
    if field.level() < 5 {
        return false;
    }
    for y in 0..6 {
        for x in 0..8 {
            let cell = Cell { x, y };
            if field.estimate(cell, 5) != whole.dist(cell).unwrap_or(100).min(6) {
                return false;
            }
        }
    }
    true
}

#[test]
fn a_field_grows_and_serves_all(rt: HostRuntime) -> Result<(), Fail> {
    let mut store = store(rt.alloc(), WALLED)?;
    let level = store.ask(rt.alloc(), STOP, Cell { x: 7, y: 2 }, 2)?;
    assert!(rt; level == 5 && store.count() == 1);
    let whole = whole(rt.alloc())?;
    assert!(rt; serves_all(&store, &whole));
    Ok(())
}

#[test]
fn of_three_stops_the_last_two_are_there(rt: HostRuntime) -> Result<(), Fail> {
    let mut store = store(rt.alloc(), WALLED)?;
    for (stop, cell) in [
        (STOP, Cell { x: 7, y: 2 }),
        (Cell { x: 0, y: 0 }, Cell { x: 1, y: 0 }),
        (Cell { x: 0, y: 5 }, Cell { x: 1, y: 5 }),
    ] {
        store.ask(rt.alloc(), stop, cell, 0)?;
    }
    assert!(rt; store.count() == 2 && store.look(STOP).is_none());
    Ok(())
}

/// How many bytes and slots there are, and how many fields have room: each takes 8 bytes for each of 9 x 8 places.
const ROOMS: [(u64, usize, usize); 3] = [(576 * 20, 100, 20), (576 * 20, 10, 10), (0, 10, 8)];

#[test]
fn fields_have_room_within_bytes_and_slots(rt: HostRuntime) -> Result<(), Fail> {
    let grid = read(rt.alloc(), WALLED)?;
    for (bytes, slots, room) in ROOMS {
        assert!(rt; room_within(&grid, bytes, slots).get() == room);
    }
    Ok(())
}

/// Whether the stored field says so of a cell that the stop cannot be reached from, and of one that is 7 steps from it.
fn knows_what_is_beyond(store: &SharedFields, level: u32) -> bool {
    let Some(field) = store.look(STOP) else {
        return false;
    };
    field.level() >= level
        && field.estimate(Cell { x: 0, y: 0 }, level) == 4294967294
        && field.estimate(Cell { x: 5, y: 0 }, level) == 7
}

#[test]
fn a_stop_that_cannot_be_reached_is_farther_than_all(rt: HostRuntime) -> Result<(), Fail> {
    let mut store = store(rt.alloc(), CLOSED)?;
    let level = store.ask(rt.alloc(), STOP, Cell { x: 0, y: 0 }, 16)?;
    assert!(rt; level == 4294967293 && knows_what_is_beyond(&store, level));
    Ok(())
}

#[test]
fn a_share_has_no_more_than_its_slots(rt: HostRuntime) -> Result<(), Fail> {
    let mut share = Share::new(rt.alloc(), number(2)?)?;
    assert!(rt; share.kept() == 0);
    for x in [1, 2, 1, 3] {
        share.keep(Cell { x, y: 0 })?;
    }
    assert!(rt; share.kept() == 2 && share.slots() == 2);
    Ok(())
}
