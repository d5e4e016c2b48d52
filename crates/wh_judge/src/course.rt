//! Whether a path is one that an agent may adopt.
#![tactic(auto)]

ghost use Rattle.std.specs.Prelude.{◌≡◌, ℕ, ◌+◌, ◌<◌, ◌≤◌, ◌^◌, ◌↔◌, ⊤, IsTrue, length, All};
ghost use Rattle.wh_path.specs.Paths.{at, horizon, last_index, others, IsWalk, IsFree};
ghost use Rattle.wh_planner.specs.Duties.{Delivers, IsLawful};
ghost use Rattle.wh_judge.specs.Courses.{GoesPast};

use wh_grid::{Cell, Grid};
use wh_path::{TimedPath, conflict, last_to_rest};
use wh_resv::Reservations;
use wh_timetable::Timetable;

/// How many stops are behind an agent that comes to the cell with `before` of them behind it.
fn go_past(stops: &[Cell], before: usize, here: Cell) -> usize
    requires { before ≤ length stops.now }
    ensures { GoesPast stops.now before here result }
{
    for i in before..stops.len() {
        if !stops[i].is(here) {
            return i;
        }
    }
    stops.len()
}

/// Whether the path goes through the stops in their order and ends at the last of them.
fn goes_through(path: &TimedPath, stops: &[Cell]) -> bool
    requires { 1 ≤ length stops.now }
    ensures { IsTrue result ↔ Delivers stops.now path.now }
{
    let mut visited = 0;
    for k in 0..path.remaining() + 1 {
        visited = go_past(stops, visited, path.at(k));
    }
    visited == stops.len() && path.end().is(stops[stops.len() - 1])
}

/// Whether the path is a walk on the grid.
fn walks(grid: &Grid, path: &TimedPath) -> bool
    ensures { IsTrue result ↔ IsWalk grid.now path.now }
{
    for k in 0..path.remaining() + 1 {
        if !grid.passable(path.at(k)) || !Cell::is_move(path.at(k), path.at(k + 1)) {
            return false;
        }
    }
    true
}

/// Whether the paths are free of each other for ever. It looks up to the end of the longer one.
fn are_free(nofollow: bool, p: &TimedPath, q: &TimedPath) -> bool
    ensures { IsTrue result ↔ IsFree nofollow p.now q.now }
{
    match conflict(p, q, nofollow) {
        None => true,
        Some(_) => false,
    }
}

/// Whether the path is free of each other agent's path, looked at one by one.
fn free_of_each(nofollow: bool, paths: &[TimedPath], agent: usize, path: &TimedPath) -> bool
    ensures { IsTrue result ↔ All (λ other. IsFree nofollow path.now other) (others paths.now agent) }
{
    for i in 0..paths.len() {
        if i != agent && !are_free(nofollow, path, &paths[i]) {
            return false;
        }
    }
    true
}

/// Whether the path is free of the others' paths: whether nobody bars one of its steps, or its rest at the end.
fn goes_free(others: &Reservations, path: &TimedPath) -> bool
    ensures { IsTrue result ↔ All (λ other. IsFree others.now.nofollow path.now other) others.now.paths }
{
    if !others.vacant(path.at(0), 0) {
        return false;
    }
    for k in 0..path.remaining() {
        if !others.may_enter(path.at(k), path.at(k + 1), k) {
            return false;
        }
    }
    others.may_rest(path.end(), path.remaining())
}

/// Whether the path is free of each other agent's path. It takes time by the path's length where the timetable has stays
/// to tell.
fn free_of_others(nofollow: bool, paths: &Timetable, agent: usize, path: &TimedPath) -> bool
    requires { agent < length paths.now }
    ensures { IsTrue result ↔ All (λ other. IsFree nofollow path.now other) (others paths.now agent) }
{
    match Reservations::kept(paths, agent, nofollow) {
        Some(others) => goes_free(&others, path),
        None => free_of_each(nofollow, paths.paths(), agent, path),
    }
}

/// Whether the path takes no longer than the others may still move, and then so many steps. The others are looked at only where it
/// takes more steps than that.
fn is_soon(list: &[TimedPath], agent: usize, steps: u64, path: &TimedPath) -> bool
    requires known { agent < length list.now }
    requires few { steps < 2 ^ 62 }
    ensures { IsTrue result ↔ (last_index path.now ≤ horizon (others list.now agent) + steps) }
{
    path.remaining() <= steps || path.remaining() <= last_to_rest(list, agent) + steps
}

/// Whether the agent may adopt the path, whatever its duty of `legs` legs asks of it. The cheap questions come first.
pub fn is_course(
    grid: &Grid,
    nofollow: bool,
    paths: &Timetable,
    agent: usize,
    legs: u64,
    path: &TimedPath,
) -> bool
    requires known { agent < length paths.now }
    requires legs { legs ≤ 9 }
    ensures { IsTrue result ↔ IsLawful grid.now nofollow paths.now agent legs (λ _. ⊤) path.now }
{
    let list = paths.paths();
    let starts = path.at(0).is(list[agent].at(0));
    if !starts {
        return false;
    }
    if !is_soon(list, agent, legs * grid.cells() as u64, path) {
        return false;
    }
    if !walks(grid, path) {
        return false;
    }
    free_of_others(nofollow, paths, agent, path)
}

/// Whether the agent may adopt the path to go through these stops, with so many legs.
pub fn may_deliver(
    grid: &Grid,
    nofollow: bool,
    paths: &Timetable,
    agent: usize,
    legs: u64,
    stops: &[Cell],
    path: &TimedPath,
) -> bool
    requires known { agent < length paths.now }
    requires some { 1 ≤ length stops.now }
    requires legs { legs ≤ 9 }
    ensures { IsTrue result ↔ IsLawful grid.now nofollow paths.now agent legs (Delivers stops.now) path.now }
{
    if !goes_through(path, stops) {
        return false;
    }
    is_course(grid, nofollow, paths, agent, legs, path)
}
