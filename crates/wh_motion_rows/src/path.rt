//! Worked conflicts of two paths, and each call on a path once.
#![tactic(auto)]

use crate::errands::path;
use std::alloc::{AllocError, Global};
use std::test::Fail;
use wh_grid::Cell;
use wh_path::{Conflict, TimedPath, conflict, laws};

/// The first conflict of the paths over these cells.
fn meet(
    alloc: Global,
    one: &[(u16, u16)],
    other: &[(u16, u16)],
    nofollow: bool,
) -> Result<Option<Conflict>, AllocError> {
    let one = path(alloc, one)?;
    let other = path(alloc, other)?;
    Ok(conflict(&one, &other, nofollow))
}

#[test]
fn worked_conflicts(rt: HostRuntime) -> Result<(), Fail> {
    let right = [(0, 0), (1, 0)];
    let left = [(1, 0), (0, 0)];
    let ahead = [(1, 0), (2, 0)];
    for nofollow in [false, true] {
        assert!(rt; meet(rt.alloc(), &right, &left, nofollow)? == Some(Conflict::Swap { k: 0 }));
    }
    assert!(rt; meet(rt.alloc(), &right, &ahead, false)?.is_none());
    assert!(rt; meet(rt.alloc(), &right, &ahead, true)? == Some(Conflict::Follow { k: 0 }));
    assert!(rt; meet(rt.alloc(), &ahead, &right, true)? == Some(Conflict::Follow { k: 0 }));
    let far = [(0, 0), (1, 0), (2, 0)];
    let back = [(3, 0), (2, 0), (1, 0)];
    assert!(rt; meet(rt.alloc(), &far, &back, false)? == Some(Conflict::Swap { k: 1 }));
    Ok(())
}

#[test]
fn two_agents_cross(rt: HostRuntime) -> Result<(), Fail> {
    let first = [(0, 1), (1, 1), (1, 0), (1, 1), (2, 1), (3, 1), (3, 0)];
    let direct = [(4, 1), (3, 1), (3, 2), (3, 1), (2, 1), (1, 1), (1, 2)];
    let waiting = [
        (4, 1),
        (4, 1),
        (3, 1),
        (3, 2),
        (3, 1),
        (2, 1),
        (1, 1),
        (1, 2),
    ];
    assert!(rt; meet(rt.alloc(), &direct, &first, false)? == Some(Conflict::Vertex { k: 4 }));
    assert!(rt; meet(rt.alloc(), &waiting, &first, false)? == Some(Conflict::Swap { k: 4 }));
    Ok(())
}

// One rests at (1, 0) from the start; the other comes there at time 2.
#[test]
fn a_resting_agent_is_met(rt: HostRuntime) -> Result<(), Fail> {
    let coming = [(0, 1), (0, 0), (1, 0), (2, 0)];
    assert!(rt; meet(rt.alloc(), &[(1, 0)], &coming, false)? == Some(Conflict::Vertex { k: 2 }));
    assert!(rt; meet(rt.alloc(), &[(1, 0)], &coming, true)? == Some(Conflict::Follow { k: 1 }));
    Ok(())
}

const CORNER: Cell = Cell { x: 0, y: 0 };

const BESIDE: Cell = Cell { x: 1, y: 0 };

const BEYOND: Cell = Cell { x: 2, y: 0 };

/// Goes on from the corner to the cell beside it, and from there by another path.
fn lengthen(walk: &mut TimedPath, on: &TimedPath) -> Result<(), AllocError> {
    walk.push(BESIDE)?;
    walk.follow(on)
}

/// From the corner over the other two cells.
fn walk(alloc: Global) -> Result<TimedPath, AllocError> {
    let on = TimedPath::over([BESIDE, BEYOND].to_vec(alloc)?);
    let mut walk = TimedPath::one(alloc, CORNER)?;
    lengthen(&mut walk, &on)?;
    Ok(walk)
}

/// Whether a path has the given number of steps, from one cell to another.
fn leads(path: &TimedPath, steps: u64, from: Cell, to: Cell) -> bool {
    path.remaining() == steps && path.start() == from && path.end() == to
}

#[test]
fn a_path_is_lengthened_and_copied(rt: HostRuntime) -> Result<(), Fail> {
    let corner = TimedPath::one(rt.alloc(), CORNER)?;
    assert!(rt; corner.remaining() == 0);
    let walk = walk(rt.alloc())?;
    assert!(rt; walk.at(1) == BESIDE && walk.at(7) == BEYOND);
    let mut turned = walk.copy(rt.alloc())?;
    turned.reverse();
    assert!(rt; leads(&walk, 2, CORNER, BEYOND) && leads(&turned, 2, BEYOND, CORNER));
    Ok(())
}

#[test]
fn a_path_is_gone(rt: HostRuntime) -> Result<(), Fail> {
    let mut walk = walk(rt.alloc())?;
    walk.advance();
    assert!(rt; leads(&walk, 1, BESIDE, BEYOND));
    walk.reverse();
    assert!(rt; leads(&walk, 1, BEYOND, BESIDE));
    walk.advance();
    walk.advance();
    assert!(rt; leads(&walk, 0, BESIDE, BESIDE));
    Ok(())
}

#[test]
fn laws_hold(_rt: HostRuntime) -> Result<(), Fail> {
    laws::freedom_is_mutual();
    laws::freedom_lasts();
    laws::freedom_needs_no_rule();
    Ok(())
}
