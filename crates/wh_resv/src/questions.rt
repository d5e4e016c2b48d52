//! What is asked of the others' stays. Each question scans those at one place.
#![tactic(auto)]

ghost use Rattle.std.specs.Prelude.{◌≡◌, ◌≢◌, ℕ, ◌+◌, ◌-◌, ◌<◌, ◌≤◌, ◌^◌, ◌↔◌, ◌⊎◌, IsTrue, IfSome, IfNone, List, length, remove, All};
ghost use Rattle.wh_grid.specs.declared.cell.Cell.{Cell as Spot};
ghost use Rattle.wh_path.specs.Paths.{at, path_of};
ghost use Rattle.wh_timetable.specs.Timetables.{IsTold};
ghost use Rattle.wh_resv.specs.Calls.{IsVacant, NoneExchanges};
ghost use Rattle.wh_resv.specs.Looks.{IsOthers, IsDuring, Bars};
ghost use Rattle.wh_resv.specs.Others.{StaysAway};
ghost use Rattle.wh_resv.specs.Questions.{IsLastFree, IsFreeWithin, IsTakenUntil, IsNeverFree};

use crate::looks::{end_at, is_during, is_free, is_others, last_end, next_start};
use wh_grid::Cell;
use wh_path::TimedPath;
use wh_timetable::{Stay, Stays};

/// Whether none of the others is at a cell at time k.
pub fn none_there(stays: &Stays, paths: &[TimedPath], except: usize, cell: Cell, k: u64) -> bool
    requires { IsTold stays.now paths.now }
    ensures { IsTrue result ↔ IsVacant (remove paths.now except) cell k }
{
    let _ = paths;
    is_free(stays.list(cell), except, cell, stays.time(k))
}

/// Whether by a stay another is at a cell at the time of k + 1, or leaves it for the first one between k and k + 1.
fn bars(
    paths: &[TimedPath],
    stay: Stay,
    except: usize,
    from: Cell,
    to: Cell,
    k: u64,
    time: u32,
    next: u32,
) -> bool
    requires time { k + 1 < 2 ^ 64 }
    requires grows { time ≤ next }
    requires within { IsOthers stay except to → IsDuring stay time → stay.agent < length paths.now }
    ensures { IsTrue result ↔ Bars paths.now stay except from to k time next }
{
    // mostly it is over, or it begins later
    if stay.until <= time || next < stay.from || !is_others(stay, except, to) {
        return false;
    }
    if is_during(stay, next) {
        return true;
    }
    is_during(stay, time) && paths[stay.agent as usize].at(k + 1).is(from)
}

/// Whether none of the others is at a cell at k + 1, nor leaves it for the first one between k and k + 1.
#[inline(always)]
pub fn is_open(
    stays: &Stays,
    paths: &[TimedPath],
    except: usize,
    from: Cell,
    to: Cell,
    k: u64,
) -> bool
    requires told { IsTold stays.now paths.now }
    requires time { k + 1 < 2 ^ 64 }
    ensures { IsTrue result ↔ (IsVacant (remove paths.now except) to (k + 1) × NoneExchanges (remove paths.now except) from to k) }
{
    let time = stays.time(k);
    let next = stays.time(k + 1);
    let list = stays.list(to);
    for stay in list {
        if bars(paths, *stay, except, from, to, k, time, next) {
            return false;
        }
    }
    true
}

/// Up to when none of the others is at a cell from k + 1 on, as far as a limit, where none is there then nor leaves it for
/// the first one between k and k + 1; none where one is or does.
#[inline(always)]
pub fn open_until(
    stays: &Stays,
    paths: &[TimedPath],
    except: usize,
    from: Cell,
    to: Cell,
    k: u64,
    limit: u64,
) -> Option<u64>
    requires told { IsTold stays.now paths.now }
    requires time { k < limit }
    ensures some { IfSome result (λ u. IsVacant (remove paths.now except) to (k + 1) × NoneExchanges (remove paths.now except) from to k × IsFreeWithin (remove paths.now except) to (k + 1) limit u) }
    ensures none { IfNone result (IsVacant (remove paths.now except) to (k + 1) → NoneExchanges (remove paths.now except) from to k → ⊥) }
{
    let time = stays.time(k);
    let next = stays.time(k + 1);
    let list = stays.list(to);
    let mut start = u32::MAX;
    for stay in list {
        if time < stay.until && is_others(*stay, except, to) {
            if next < stay.from {
                start = start.min(stay.from);
            } else if bars(paths, *stay, except, from, to, k, time, next) {
                return None;
            }
        }
    }
    if start == u32::MAX {
        return Some(limit);
    }
    Some(((start - 1).saturating_sub(stays.clock()) as u64).min(limit))
}

/// The last time up to which none of the others is at a cell, where none is at time k; none where none ever comes.
pub fn free_until(
    stays: &Stays,
    paths: &[TimedPath],
    except: usize,
    cell: Cell,
    k: u64,
) -> Option<u64>
    requires told { IsTold stays.now paths.now }
    requires vacant { IsVacant (remove paths.now except) cell k }
    ensures some { IfSome result (λ u. IsLastFree (remove paths.now except) cell k u) }
    ensures none { IfNone result (All (λ q. StaysAway q cell k) (remove paths.now except)) }
{
    let _ = paths;
    let start = next_start(stays.list(cell), except, cell, stays.time(k));
    if start == u32::MAX {
        None
    } else {
        Some((start - 1).saturating_sub(stays.clock()) as u64)
    }
}

/// Up to when one of the others is at a cell from time k on, as far as one stay tells: k where none is; none where for ever.
pub fn taken_until(
    stays: &Stays,
    paths: &[TimedPath],
    except: usize,
    cell: Cell,
    k: u64,
) -> Option<u64>
    requires { IsTold stays.now paths.now }
    ensures some { IfSome result (λ f. IsTakenUntil (remove paths.now except) cell k f) }
    ensures none { IfNone result (IsNeverFree (remove paths.now except) cell k) }
{
    let _ = paths;
    let Some(over) = end_at(stays.list(cell), except, cell, stays.time(k)) else {
        return Some(k);
    };
    if over < u32::MAX {
        Some(over.saturating_sub(stays.clock()) as u64)
    } else {
        None
    }
}

/// The time from which on none of the others is at a cell; none where one ends there.
pub fn not_before(stays: &Stays, paths: &[TimedPath], except: usize, cell: Cell) -> Option<u64>
    requires { IsTold stays.now paths.now }
    ensures some { IfSome result (λ t. (k : ℕ) → All (λ q. StaysAway q cell k) (remove paths.now except) ↔ t ≤ k) }
    ensures none { IfNone result ((k : ℕ) → All (λ q. StaysAway q cell k) (remove paths.now except) → ⊥) }
{
    let _ = paths;
    let end = last_end(stays.list(cell), except, cell);
    if end == u32::MAX {
        None
    } else {
        Some(end.saturating_sub(stays.clock()) as u64)
    }
}
