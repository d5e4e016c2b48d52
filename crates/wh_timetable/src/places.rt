//! The stays at all places.
#![tactic(auto)]

ghost use Rattle.std.specs.Prelude.{◌≡◌, ◌≢◌, ℕ, ◌+◌, ◌<◌, ◌≤◌, ◌↔◌, ◌⊎◌, IsTrue, length};
ghost use Rattle.wh_grid.specs.declared.cell.Cell.{Cell as Spot};
ghost use Rattle.wh_path.specs.Paths.{cell_at, last_index};
ghost use Rattle.wh_timetable.specs.Stays.{IsBy, IsThere, endless};
ghost use Rattle.wh_timetable.specs.Places.{stays_for, AreSame, IsLeft, IsNoted};

use crate::place_stays::PlaceStays;
use crate::spread::place_of;
use crate::stay::Stay;
use std::alloc::AllocError;
use wh_grid::Cell;

/// Drops the stays of an agent at the place of a cell, and those there that are over.
fn leave_at(places: &mut [PlaceStays], cell: Cell, agent: u32, now: u32)
    requires { 0 < length places.old }
    ensures left { IsLeft agent now places.old places.new }
    ensures gone { (t : ℕ) → IsThere (stays_for places.new cell) agent cell t → ⊥ }
{
    let at = place_of(places.len(), cell);
    let stays = &mut places[at];
    stays.leave(agent, now);
}

/// Drops the stays of an agent at each cell of a path.
pub fn leave_all(places: &mut [PlaceStays], cells: &[Cell], agent: u32, now: u32)
    requires { 0 < length places.old }
    ensures left { IsLeft agent now places.old places.new }
    ensures gone { (k t : ℕ) → k < length cells.now → now ≤ t → IsThere (stays_for places.new (cell_at cells.now k)) agent (cell_at cells.now k) t → ⊥ }
{
    for cell in cells {
        leave_at(places, *cell, agent, now);
    }
}

/// Adds a stay at its place, and answers whether there was room for it.
fn put_at(places: &mut [PlaceStays], stay: Stay) -> bool
    requires some { 0 < length places.old }
    requires lasting { stay.from < stay.until }
    ensures { IsTrue result → (i : ℕ) (c : Spot) (t : ℕ) → IsThere (stays_for places.new c) i c t ↔ (IsThere (stays_for places.old c) i c t ⊎ IsBy stay i c t) }
{
    let at = place_of(places.len(), stay.cell);
    let stays = &mut places[at];
    stays.put(stay)
}

/// Adds the stays of an agent that goes by a path from now on: at its cells in turn, and at the last one for ever. It
/// answers whether their times fit and there was room for all of them, and takes no memory.
pub fn note_all(places: &mut [PlaceStays], cells: &[Cell], agent: u32, now: u32) -> bool
    requires some { 0 < length places.old }
    requires path { 1 ≤ length cells.now }
    ensures noted { IsTrue result → IsNoted cells.now agent now endless places.old places.new }
    ensures short { IsTrue result → now + last_index cells.now < endless }
{
    let last = cells.len() - 1;
    if last >= (u32::MAX - now) as usize {
        return false;
    }
    for k in 0..last {
        let from = now + k as u32;
        let until = from + 1;
        let cell = cells[k];
        if !put_at(
            places,
            Stay {
                cell,
                agent,
                from,
                until,
            },
        ) {
            return false;
        }
    }
    let from = now + last as u32;
    let cell = cells[last];
    put_at(
        places,
        Stay {
            cell,
            agent,
            from,
            until: u32::MAX,
        },
    )
}

/// Room for one more stay is wanted at the place of a cell. Where it is the first one, those that are over are dropped.
fn want_at(places: &mut [PlaceStays], cell: Cell, now: u32)
    requires { 0 < length places.old }
    ensures { AreSame now places.old places.new }
{
    let at = place_of(places.len(), cell);
    let stays = &mut places[at];
    stays.want_one(now);
}

/// Makes the room that is wanted at the place of a cell, and answers whether there was memory for it.
fn grow_at(places: &mut [PlaceStays], cell: Cell) -> bool
    requires { 0 < length places.old }
    ensures { places.new ≡ places.old }
{
    let at = place_of(places.len(), cell);
    let stays = &mut places[at];
    stays.make_room().is_ok()
}

/// Whether a path comes to a cell then, and does not wait there.
fn is_visit(cells: &[Cell], k: usize) -> bool
    requires { k < length cells.now }
{
    k == 0 || !cells[k].is(cells[k - 1])
}

/// Wants room for each stay of a path, one where it comes to a cell.
fn want_all(places: &mut [PlaceStays], cells: &[Cell], now: u32)
    requires { 0 < length places.old }
    ensures { AreSame now places.old places.new }
{
    for k in 0..cells.len() {
        if is_visit(cells, k) {
            want_at(places, cells[k], now);
        }
    }
}

/// Makes room for the stays of a path, at each place once for all of them. Stays that are over are dropped there. The error
/// comes where memory is wanting; each place is gone to nevertheless, so that none wants room any more.
pub fn make_room(places: &mut [PlaceStays], cells: &[Cell], now: u32) -> Result<(), AllocError>
    requires { 0 < length places.old }
    ensures { AreSame now places.old places.new }
{
    want_all(places, cells, now);
    let mut is_room = true;
    for cell in cells {
        is_room = grow_at(places, *cell) && is_room;
    }
    if is_room { Ok(()) } else { Err(AllocError) }
}
