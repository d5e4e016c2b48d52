//! The flaws of an agent's path.
#![tactic(auto)]

ghost use Rattle.std.specs.Prelude.{◌≡◌, ℕ, ◌+◌, ◌<◌, ◌≤◌, ◌↔◌, IsTrue, IfNone, IfSome, false, length};
ghost use Rattle.wh_grid.specs.Grids.{IsPassable, IsMove};
ghost use Rattle.wh_path.specs.Paths.{at, path_of, IsFree};
ghost use Rattle.wh_stand.specs.PathFlaws.{IsFirstBlocked, HasJump, IsFirstInTheWay, IsFit, IsPathFlaw};

use crate::flaw::Flaw;
use wh_grid::{Cell, Grid};
use wh_path::{TimedPath, conflict};

/// The first cell of the path on which nobody may walk.
fn first_blocked(grid: &Grid, path: &TimedPath) -> Option<Cell>
    ensures none { IfNone result ((k : ℕ) → IsPassable grid.now (at path.now k)) }
    ensures some { IfSome result (IsFirstBlocked grid.now path.now) }
{
    for k in 0..path.remaining() + 1 {
        let cell = path.at(k);
        if !grid.passable(cell) {
            return Some(cell);
        }
    }
    None
}

/// Whether the path stays or goes to a neighbour at each time.
fn moves(path: &TimedPath) -> bool
    ensures yes { IsTrue result → (k : ℕ) → IsMove (at path.now k) (at path.now (k + 1)) }
    ensures no { result ≡ false → HasJump path.now }
{
    for k in 0..path.remaining() + 1 {
        if !Cell::is_move(path.at(k), path.at(k + 1)) {
            return false;
        }
    }
    true
}

/// Whether the paths are free of each other for ever.
fn are_free(nofollow: bool, p: &TimedPath, q: &TimedPath) -> bool
    ensures { IsTrue result ↔ IsFree nofollow p.now q.now }
{
    match conflict(p, q, nofollow) {
        None => true,
        Some(_) => false,
    }
}

/// The first of the agents whose path conflicts with this one.
fn first_in_the_way(nofollow: bool, paths: &[TimedPath], path: &TimedPath) -> Option<u32>
    requires { length paths.now ≤ 256 }
    ensures none { IfNone result ((agent : ℕ) → agent < length paths.now → IsFree nofollow path.now (path_of paths.now agent)) }
    ensures some { IfSome result (IsFirstInTheWay nofollow paths.now path.now) }
{
    for i in 0..paths.len() {
        if !are_free(nofollow, path, &paths[i]) {
            return Some(i as u32);
        }
    }
    None
}

/// The first flaw of the path of an agent that comes behind those with these paths.
pub(crate) fn path_flaw(
    grid: &Grid,
    nofollow: bool,
    paths: &[TimedPath],
    path: &TimedPath,
) -> Option<Flaw>
    requires { length paths.now ≤ 256 }
    ensures none { IfNone result (IsFit grid.now nofollow paths.now path.now) }
    ensures some { IfSome result (IsPathFlaw grid.now nofollow paths.now path.now) }
{
    let _steps = path.remaining();
    if let Some(cell) = first_blocked(grid, path) {
        return Some(Flaw::Blocked(cell));
    }
    if !moves(path) {
        return Some(Flaw::NoStep);
    }
    match first_in_the_way(nofollow, paths, path) {
        Some(agent) => Some(Flaw::Conflict(agent)),
        None => None,
    }
}
