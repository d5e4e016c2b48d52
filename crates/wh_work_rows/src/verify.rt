//! A worked log and its changes, over one small map.
use std::alloc::Global;
use std::test::*;
use wh_grid::Grid;
use wh_judge::{Instance, Verified, verify, verify_over};
use wh_points::Points;

const MAP: &[u8] = b"type octile\nheight 3\nwidth 5\nmap\n@.@.@\n.....\n@.@.@\n";

const POINTS: &[u8] =
    b"parking P0 0 1\nparking P1 4 1\nstation A 1 0\nstation B 3 0\nstation C 1 2\nstation D 3 2\nagent P0\nagent P1\n";

const RULE: &[u8] =
    b"parking P0 0 1\nparking P1 4 1\nstation A 1 0\nstation B 3 0\nstation C 1 2\nstation D 3 2\nagent P0\nagent P1\nrule nofollow\n";

/// What a text is over a map and these points: how many entries, or 100 and the bad line.
fn told_over(alloc: Global, grid: &Grid, points: &[u8], log: &[u8]) -> Option<u64> {
    let Ok(points) = Points::read(alloc, grid, points) else {
        return None;
    };
    if points.agents().is_empty() {
        return None;
    }
    match verify(alloc, grid, &points, log) {
        Ok(Verified::Run { entries }) => Some(u64::from(entries)),
        Ok(Verified::Bad { line }) => Some(line.saturating_add(100)),
        Err(_) => None,
    }
}

fn told(alloc: Global, points: &[u8], log: &[u8]) -> Option<u64> {
    match Grid::read(alloc, MAP) {
        Ok(grid) => told_over(alloc, &grid, points, log),
        Err(_) => None,
    }
}

/// Logs, each with what it is: a whole one; the end is missing; a pickup too early; a path that goes by
/// the first stop; no path if there is one; one seat for two agents; two spaces; a wrong task number.
const LOGS: [(&[u8], u64); 8] = [
    (
        b"wlog 1\nstart 0 slots 4 4\n0 submit x A B = accepted 0\n0 token 0 = took 0 path 0,1 1,1 1,0 1,1 2,1 3,1 3,0\n0 tick = clock 1 picked 0 dropped 0\nend 3\n",
        3,
    ),
    (
        b"wlog 1\nstart 0 slots 4 4\n0 submit x A B = accepted 0\n0 token 0 = took 0 path 0,1 1,1 1,0 1,1 2,1 3,1 3,0\n0 tick = clock 1 picked 0 dropped 0\n",
        106,
    ),
    (
        b"wlog 1\nstart 0 slots 4 4\n0 submit x A B = accepted 0\n0 token 0 = took 0 path 0,1 1,1 1,0 1,1 2,1 3,1 3,0\n0 tick = clock 1 picked 1 dropped 0\nend 3\n",
        105,
    ),
    (
        b"wlog 1\nstart 0 slots 4 4\n0 submit x A B = accepted 0\n0 token 0 = took 0 path 0,1 1,1 2,1 3,1 3,0\n0 tick = clock 1 picked 0 dropped 0\nend 3\n",
        104,
    ),
    (
        b"wlog 1\nstart 0 slots 4 4\n0 submit x A B = accepted 0\n0 token 0 = refused E6\n0 tick = clock 1 picked 0 dropped 0\nend 3\n",
        104,
    ),
    (
        b"wlog 1\nstart 0 slots 4\n0 submit x A B = accepted 0\nend 1\n",
        102,
    ),
    (
        b"wlog 1\nstart 0 slots 4 4\n0 submit  x A B = accepted 0\nend 1\n",
        103,
    ),
    (
        b"wlog 1\nstart 0 slots 4 4\n0 submit x A B = accepted 1\n0 tick  = rested\nend 2\n",
        103,
    ),
];

#[test]
fn log_and_verify(rt: HostRuntime) {
    for (log, entries) in LOGS {
        assert!(rt; told(rt.alloc(), POINTS, log) == Some(entries));
    }
}

/// The bound of a path is 18: the others have no steps left, and there are two stops and nine cells.
/// A path of 18 steps, and one of 19.
const LONG_WAITS: [(&[u8], u64); 2] = [
    (
        b"wlog 2\nstart 0 slots 4 4\n0 submit x A B = accepted 0\n0 token 0 = took 0 path 0,1 0,1 0,1 0,1 0,1 0,1 0,1 0,1 0,1 0,1 0,1 0,1 0,1 1,1 1,0 1,1 2,1 3,1 3,0\nend 2\n",
        2,
    ),
    (
        b"wlog 2\nstart 0 slots 4 4\n0 submit x A B = accepted 0\n0 token 0 = took 0 path 0,1 0,1 0,1 0,1 0,1 0,1 0,1 0,1 0,1 0,1 0,1 0,1 0,1 0,1 1,1 1,0 1,1 2,1 3,1 3,0\nend 2\n",
        104,
    ),
];

#[test]
fn longest_wait(rt: HostRuntime) {
    for (log, entries) in LONG_WAITS {
        assert!(rt; told(rt.alloc(), POINTS, log) == Some(entries));
    }
}

/// Agent 0 enters a cell in the step in which agent 1 leaves it, which the rule forbids.
const CROSSING: &[u8] =
    b"wlog 2\nstart 0 slots 4 4\n0 submit x A B = accepted 0\n0 token 0 = took 0 path 0,1 1,1 1,0 1,1 2,1 3,1 3,0\n0 submit y D C = accepted 1\n0 token 1 = took 1 path 4,1 4,1 4,1 4,1 3,1 3,2 3,1 2,1 1,1 1,2\nend 4\n";

#[test]
fn crossing_without_following(rt: HostRuntime) {
    for (points, entries) in [(POINTS, 4), (RULE, 106)] {
        assert!(rt; told(rt.alloc(), points, CROSSING) == Some(entries));
    }
}

/// What a text is over the map and the points, where paths go on home or not.
fn told_with(alloc: Global, homes: bool, log: &[u8]) -> Option<u64> {
    let Ok(grid) = Grid::read(alloc, MAP) else {
        return None;
    };
    let Ok(points) = Points::read(alloc, &grid, POINTS) else {
        return None;
    };
    if points.agents().is_empty() {
        return None;
    }
    let instance = Instance::with_homes(&grid, &points, homes);
    match verify_over(alloc, instance, log) {
        Ok(Verified::Run { entries }) => Some(u64::from(entries)),
        Ok(Verified::Bad { line }) => Some(line.saturating_add(100)),
        Err(_) => None,
    }
}

/// Logs of the two rules, each with what it is where paths go on home, and where they end at the last stop. Two tasks end at
/// one station: both agents are on their ways at once, or the second rests until the first is done. An agent takes its next
/// task on its way home. What it is told while it is due in 6 ticks: its whole path has 10 steps.
const HOMEWARD: [(&[u8], u64, u64); 6] = [
    (
        b"wlog 2\nstart 0 slots 4 4\n0 submit x A B = accepted 0\n0 submit y D B = accepted 1\n0 token 0 = took 0 path 0,1 1,1 1,0 1,1 2,1 3,1 3,0 3,1 2,1 1,1 0,1\n0 token 1 = took 1 path 4,1 3,1 3,2 3,2 3,2 3,2 3,2 3,2 3,1 3,0 3,1 4,1\n0 token 0 = refused E5 6\n0 tick = clock 1 picked 0 dropped 0\n0 tick = clock 2 picked 2 dropped 0\nend 7\n",
        7,
        105,
    ),
    (
        b"wlog 2\nstart 0 slots 4 4\n0 submit x A B = accepted 0\n0 submit y D B = accepted 1\n0 token 0 = took 0 path 0,1 1,1 1,0 1,1 2,1 3,1 3,0\n0 token 1 = rested\n0 token 0 = refused E5 6\n0 tick = clock 1 picked 0 dropped 0\n0 tick = clock 2 picked 1 dropped 0\nend 7\n",
        105,
        7,
    ),
    (
        b"wlog 2\nstart 0 slots 4 4\n0 submit x A B = accepted 0\n0 token 0 = took 0 path 0,1 1,1 1,0 1,1 2,1 3,1 3,0 3,1 2,1 1,1 0,1\n0 tick = clock 1 picked 0 dropped 0\n0 tick = clock 2 picked 1 dropped 0\n0 tick = clock 3 picked 0 dropped 0\n0 tick = clock 4 picked 0 dropped 0\n0 tick = clock 5 picked 0 dropped 0\n0 tick = clock 6 picked 0 dropped 1\n0 token 0 = rested\n0 submit y D C = accepted 1\n0 tick = clock 7 picked 0 dropped 0\n0 token 0 = took 1 path 3,1 3,2 3,1 2,1 1,1 1,2 1,1 0,1\nend 12\n",
        12,
        104,
    ),
    (
        b"wlog 2\nstart 0 slots 4 4\n0 submit x A B = accepted 0\n0 token 0 = took 0 path 0,1 1,1 1,0 1,1 2,1 3,1 3,0\n0 tick = clock 1 picked 0 dropped 0\n0 tick = clock 2 picked 1 dropped 0\n0 tick = clock 3 picked 0 dropped 0\n0 tick = clock 4 picked 0 dropped 0\n0 tick = clock 5 picked 0 dropped 0\n0 tick = clock 6 picked 0 dropped 1\n0 token 0 = rested\n0 submit y D C = accepted 1\n0 tick = clock 7 picked 0 dropped 0\n0 token 0 = took 1 path 3,0 3,1 3,2 3,1 2,1 1,1 1,2\nend 12\n",
        104,
        12,
    ),
    (
        b"wlog 2\nstart 0 slots 4 4\n0 submit x A B = accepted 0\n0 token 0 = took 0 path 0,1 1,1 1,0 1,1 2,1 3,1 3,0 3,1 2,1 1,1 0,1\n0 token 0 = refused E5 10\nend 3\n",
        105,
        104,
    ),
    (
        b"wlog 2\nstart 0 slots 4 4\n0 submit x A B = accepted 0\n0 token 0 = took 0 path 0,1 1,1 1,0 1,1 2,1 3,1 3,0 3,1 4,1\nend 2\n",
        104,
        104,
    ),
];

#[test]
fn paths_that_go_on_home(rt: HostRuntime) {
    for (log, with_homes, without) in HOMEWARD {
        assert!(rt; told_with(rt.alloc(), true, log) == Some(with_homes));
        assert!(rt; told_with(rt.alloc(), false, log) == Some(without));
    }
}
