//! The agents of a front.

ghost use Rattle.std.specs.Prelude.{◌≡◌, map, length, IfOk};
ghost use Rattle.std.specs.List.{AllByRecursion};
ghost use Rattle.wh_front.specs.Ranges.{SeatFits};
ghost use Rattle.wh_front.specs.declared.front.Seat.{Seat as Told};

use crate::cells::read_all;
use std::alloc::{AllocError, Global};
use wh_front::{Rows, Seat};
use wh_path::TimedPath;

/// The agent with these slots and this path.
fn seat_of(alloc: Global, slots: u32, path: &TimedPath) -> Result<Seat, AllocError>
    ensures value { IfOk result (λ seat. seat ≡ record { slots = slots; path = path.now }) }
    ensures fits { IfOk result SeatFits }
{
    let cells = path.cells();
    read_all(cells);
    let path = path.copy(alloc)?;
    Ok(Seat { slots, path })
}

/// The agents with these slots and these paths.
pub fn seats_of(alloc: Global, slots: &[u32], paths: &[TimedPath]) -> Result<Rows<Seat>, AllocError>
    requires each { length slots.now ≡ length paths.now }
    ensures slots { IfOk result (λ seats. map (λ (seat : Told). seat.slots) seats ≡ slots.now) }
    ensures paths { IfOk result (λ seats. map (λ (seat : Told). seat.path) seats ≡ paths.now) }
    ensures fit { IfOk result (AllByRecursion SeatFits) }
{
    let mut seats = Rows::none(alloc);
    for (k, path) in paths.iter().enumerate() {
        let seat = seat_of(alloc, slots[k], path)?;
        seats.push(seat)?;
    }
    Ok(seats)
}
