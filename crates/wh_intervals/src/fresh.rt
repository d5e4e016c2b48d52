//! The call that makes its own fields.
#![tactic(auto)]

ghost use Rattle.std.specs.Prelude.{◌≡◌, ℕ, ◌<◌, ◌≤◌, List, IfOk, Some, None, length, slice_get, slice_index_or};
ghost use Rattle.wh_grid.specs.declared.cell.Cell.{Cell};
ghost use Rattle.wh_grid.specs.Grids.{IsPassable};
ghost use Rattle.wh_resv.specs.Calls.{IsVacant};
ghost use Rattle.wh_path.specs.Paths.{last_index, cell_at};
ghost use Rattle.wh_search.specs.Deliveries.{IsDelivery, IsLawful, IfNoPath, AreStops};
ghost use Rattle.wh_search.specs.Fields.{IsFieldAt, AreMade};

use crate::guided::deliver_guided;
use std::alloc::{AllocError, Global};
use wh_field::Field;
use wh_grid::{Cell, Grid};
use wh_path::TimedPath;
use wh_resv::Reservations;
use wh_search::Fault;

/// The field of each stop.
fn fields_from(alloc: Global, grid: &Grid, stops: &[Cell]) -> Result<Vec<Field>, AllocError>
    ensures { IfOk result (λ kept. AreMade grid.now stops.now kept.items) }
{
    let mut kept = Vec::new(alloc);
    for stop in stops {
        kept.push(Field::from(alloc, grid, *stop)?)?;
    }
    Ok(kept)
}

/// These fields, each in its place.
fn lent<'a>(grid: &Grid, stops: &[Cell], kept: &'a [Field]) -> [Option<&'a Field>; 9]
    requires few { length stops.now ≤ 9 }
    requires made { AreMade grid.now stops.now kept.now }
    ensures size { length result ≡ 9 }
    ensures each { (l : ℕ) → l < length stops.now → IsFieldAt grid.now (slice_index_or result l None) (cell_at stops.now l) }
{
    let _ = grid;
    let _ = stops;
    let mut fields = [None; 9];
    for i in 0..kept.len() {
        fields[i] = Some(&kept[i]);
    }
    fields
}

/// A lawful path from loc through the stops, with the least last index; it makes the field
/// of each stop. `NoPath` exactly if no path delivers, however long; `NoMemory` if memory ran out.
pub fn deliver<'x>(
    alloc: Global,
    grid: &'x Grid,
    others: &'x Reservations<'x>,
    loc: Cell,
    stops: &'x [Cell],
) -> Result<TimedPath, Fault>
    requires inside { IsPassable grid.now loc }
    requires clear { IsVacant others.now.paths loc 0 }
    requires stops { AreStops stops.now }
    ensures lawful { IfOk result (λ p. IsLawful grid.now others.now loc stops.now p) }
    ensures least { IfOk result (λ p. (q : List Cell) → IsDelivery grid.now others.now loc stops.now q → last_index p ≤ last_index q) }
    ensures none { IfNoPath result ((q : List Cell) → IsDelivery grid.now others.now loc stops.now q → ⊥) }
{
    match fields_from(alloc, grid, stops) {
        Ok(kept) => {
            let fields = lent(grid, stops, &kept);
            deliver_guided(alloc, grid, others, loc, stops, &fields[..stops.len()])
        }
        Err(_) => Err(Fault::NoMemory),
    }
}
