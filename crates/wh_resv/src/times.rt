//! When nobody is at a cell again.
#![tactic(auto)]

ghost use Rattle.std.specs.Prelude.{◌≡◌, ℕ, ◌+◌, ◌-◌, ◌<◌, ◌≤◌, ◌^◌, IfSome, IfNone, remove};
ghost use Rattle.wh_grid.specs.declared.cell.Cell.{Cell as Spot};
ghost use Rattle.wh_path.specs.Paths.{horizon};
ghost use Rattle.wh_timetable.specs.Timetables.{IsTold};
ghost use Rattle.wh_resv.specs.Calls.{IsVacant};
ghost use Rattle.wh_resv.specs.Questions.{IsNextFree, IsNeverFree};

use crate::questions::{none_there, taken_until};
use wh_grid::Cell;
use wh_path::TimedPath;
use wh_timetable::Stays;

/// The first time from k on at which none of the others is at a cell; none where one always is. Of the times that a stay
/// takes only the first is asked for, and none beyond the latest, from which on all rest.
pub fn next_free(
    stays: &Stays,
    paths: &[TimedPath],
    except: usize,
    cell: Cell,
    k: u64,
    latest: u64,
) -> Option<u64>
    requires told { IsTold stays.now paths.now }
    requires rest { horizon (remove paths.now except) ≤ latest }
    ensures some { IfSome result (λ f. IsNextFree (remove paths.now except) cell k f) }
    ensures none { IfNone result (IsNeverFree (remove paths.now except) cell k) }
{
    let mut time = k;
    while time < latest {
        let Some(next) = taken_until(stays, paths, except, cell, time) else {
            return None;
        };
        if next == time {
            return Some(time);
        }
        time = next;
    }
    if none_there(stays, paths, except, cell, time) {
        Some(time)
    } else {
        None
    }
}
