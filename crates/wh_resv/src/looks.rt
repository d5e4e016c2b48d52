//! What is asked of the stays at one place. Each question scans them all, which are few.
#![tactic(auto)]

ghost use Rattle.std.specs.Prelude.{◌≡◌, ◌≢◌, ℕ, ◌+◌, ◌<◌, ◌≤◌, ◌^◌, ◌↔◌, ◌⊎◌, IsTrue, IfSome, IfNone, List, length};
ghost use Rattle.wh_grid.specs.declared.cell.Cell.{Cell as Spot};
ghost use Rattle.wh_timetable.specs.Stays.{stay_at};
ghost use Rattle.wh_resv.specs.Looks.{IsOthers, IsDuring, IsFreeFor, IsEndAt, IsNextStart, IsLastEnd};

use wh_grid::Cell;
use wh_timetable::Stay;

/// Whether a stay is one of another than the agent of this number at a cell, and takes time.
pub fn is_others(stay: Stay, except: usize, cell: Cell) -> bool
    ensures { IsTrue result ↔ IsOthers stay except cell }
{
    stay.cell.is(cell) && stay.agent as usize != except && stay.from < stay.until
}

/// Whether a stay takes in a time.
pub fn is_during(stay: Stay, time: u32) -> bool
    ensures { IsTrue result ↔ IsDuring stay time }
{
    time < stay.until && stay.from <= time
}

/// Whether nobody else is at a cell at a time.
pub fn is_free(stays: &[Stay], except: usize, cell: Cell, time: u32) -> bool
    ensures { IsTrue result ↔ IsFreeFor stays.now except cell time }
{
    for stay in stays {
        if is_during(*stay, time) && is_others(*stay, except, cell) {
            return false;
        }
    }
    true
}

/// When a stay of somebody else at a cell that takes in a time is over; none where nobody else is there then.
pub fn end_at(stays: &[Stay], except: usize, cell: Cell, time: u32) -> Option<u32>
    ensures some { IfSome result (λ end. IsEndAt stays.now except cell time end) }
    ensures none { IfNone result (IsFreeFor stays.now except cell time) }
{
    for stay in stays {
        if is_during(*stay, time) && is_others(*stay, except, cell) {
            return Some(stay.until);
        }
    }
    None
}

/// The first time after one at which a stay of somebody else at a cell begins, the greatest number where none does.
pub fn next_start(stays: &[Stay], except: usize, cell: Cell, time: u32) -> u32
    ensures { IsNextStart stays.now except cell time result }
{
    let mut start = u32::MAX;
    for stay in stays {
        if time < stay.from && stay.from < start && is_others(*stay, except, cell) {
            start = stay.from;
        }
    }
    start
}

/// The time at which the last stay of somebody else at a cell is over, 0 where there is none.
pub fn last_end(stays: &[Stay], except: usize, cell: Cell) -> u32
    ensures { IsLastEnd stays.now except cell result }
{
    let mut end = 0;
    for stay in stays {
        if end < stay.until && is_others(*stay, except, cell) {
            end = stay.until;
        }
    }
    end
}
