//! The estimate that leads the search.
#![tactic(auto)]

ghost use Rattle.std.specs.Prelude.{◌≡◌, ℕ, ◌+◌, ◌*◌, ◌/◌, ◌%◌, ◌<◌, ◌≤◌, ◌^◌, ◌⊎◌, ◌↔◌, IsTrue, Option, Some, IfOk, length, map, slice_index, slice_index_or, false, IfSome, IfNone, [], ◌∷◌};
ghost use Rattle.wh_grid.specs.declared.cell.Cell.{Cell};
ghost use Rattle.wh_field.specs.Sides.{around};
ghost use Rattle.wh_search.specs.Fields.{far};
ghost use Rattle.wh_search.specs.Guides.{by_field, guide_estimate, nearest_by, IsOnward};
ghost use Rattle.wh_search.specs.Manhattan.{by_manhattan};
ghost use Rattle.wh_search.specs.Sights.{by_sight, IsOnwardBySights};
ghost use Rattle.wh_search.specs.Ways.{IsFallingBy, IsLastBefore};

use crate::manhattan::{by_manhattan, stop_at};
use crate::moves::moves_from;
use std::alloc::{AllocError, Global};
use wh_field::{Field, NearestField, Sight};
use wh_grid::Cell;

/// By what the steps left are estimated.
#[derive(Clone, Copy)]
pub enum Guide<'a> {
    /// The field of all ends at once, any of which will do, as far as it is filled.
    Nearest {
        field: &'a NearestField,
    },
    /// The field of each stop, where it is there, and the estimate from each stop on.
    Stops {
        fields: &'a [Option<&'a Field>],
        onward: &'a [u64],
    },
    /// As `Stops`, by fields that are looked at up to a level.
    Sights {
        sights: &'a [Option<Sight<'a>>],
        onward: &'a [u64],
    },
    /// The Manhattan distance to each stop, and the estimate from each stop on.
    Manhattan {
        stops: &'a [Cell],
        onward: &'a [u64],
    },
}

/// A distance and a number of further steps; the greatest number where there is no distance.
fn far(distance: Option<u32>, further: u64) -> u64
    ensures { result ≡ far distance further }
{
    match distance {
        Some(steps) => further.saturating_add(u64::from(steps)),
        None => u64::MAX,
    }
}

/// The distance and what is further on; 0 where the field is absent.
pub fn by_field(field: Option<&Field>, further: u64, cell: Cell) -> u64
    ensures { result ≡ by_field field.entry further cell }
{
    match field {
        Some(field) => far(field.dist(cell), further),
        None => 0,
    }
}

/// The distance to the nearest of several cells, as far as the field's level.
fn to_nearest(field: &NearestField, cell: Cell) -> u64
    ensures { result ≡ nearest_by field.now cell }
{
    u64::from(field.estimate(cell))
}

/// The estimates at a cell and at those beside it, by the field of several cells.
fn to_nearest_around(field: &NearestField, cell: Cell) -> [u64; 5]
    ensures { result ≡ map (nearest_by field.now) (around cell) }
{
    let beside = moves_from(cell);
    [
        to_nearest(field, beside[0]),
        to_nearest(field, beside[1]),
        to_nearest(field, beside[2]),
        to_nearest(field, beside[3]),
        to_nearest(field, beside[4]),
    ]
}

/// The number at a place, 0 past the end.
fn number_at(numbers: &[u64], i: usize) -> u64
    ensures { result ≡ slice_index numbers.now i }
{
    if i < numbers.len() { numbers[i] } else { 0 }
}

/// From the last stop back: the estimate from each stop on.
pub fn onward_of(
    alloc: Global,
    stops: &[Cell],
    fields: &[Option<&Field>],
) -> Result<Vec<u64>, AllocError>
    requires stops { 2 ≤ length stops.now }
    requires fields { length fields.now ≡ length stops.now }
    ensures { IfOk result (λ onward. IsOnward fields.now stops.now onward.items) }
{
    let mut onward = vec![in alloc; 0; stops.len()]?;
    for done in 1..stops.len() {
        let leg = stops.len() - 1 - done;
        onward[leg] = by_field(fields[leg + 1], onward[leg + 1], stops[leg]);
    }
    Ok(onward)
}

/// The distance as far as the level, and what is further on; 0 where there is no sight.
pub fn by_sight(sight: Option<Sight>, further: u64, cell: Cell) -> u64
    ensures { result ≡ by_sight sight.entry further cell }
{
    match sight {
        Some(sight) => further.saturating_add(u64::from(sight.estimate(cell))),
        None => 0,
    }
}

/// The same at a cell and at those beside it.
fn by_sight_around(sight: Option<Sight>, further: u64, cell: Cell) -> [u64; 5]
    ensures { result ≡ map (by_sight sight.entry further) (around cell) }
{
    match sight {
        Some(sight) => {
            let near = sight.estimates(cell);
            [
                further.saturating_add(u64::from(near[0])),
                further.saturating_add(u64::from(near[1])),
                further.saturating_add(u64::from(near[2])),
                further.saturating_add(u64::from(near[3])),
                further.saturating_add(u64::from(near[4])),
            ]
        }
        None => [0, 0, 0, 0, 0],
    }
}

/// From the last stop back: the estimate from each stop on, by sights.
pub fn onward_by_sights(
    alloc: Global,
    stops: &[Cell],
    sights: &[Option<Sight>],
) -> Result<Vec<u64>, AllocError>
    requires stops { 2 ≤ length stops.now }
    requires sights { length sights.now ≡ length stops.now }
    ensures { IfOk result (λ onward. IsOnwardBySights sights.now stops.now onward.items) }
{
    let mut onward = vec![in alloc; 0; stops.len()]?;
    for done in 1..stops.len() {
        let leg = stops.len() - 1 - done;
        onward[leg] = by_sight(sights[leg + 1], onward[leg + 1], stops[leg]);
    }
    Ok(onward)
}

/// The distances at a cell and at those beside it, and what is further on.
#[inline(always)]
fn far_around(field: &Field, further: u64, cell: Cell) -> [u64; 5]
    ensures { result ≡ map (by_field (Some field.entry) further) (around cell) }
{
    let near = field.around(cell);
    [
        far(near.here, further),
        far(near.left, further),
        far(near.right, further),
        far(near.above, further),
        far(near.below, further),
    ]
}

/// As `far_around`, for a cell with no distance.
#[inline(never)]
fn far_around_none(field: &Field, further: u64, cell: Cell) -> [u64; 5]
    ensures { result ≡ map (by_field (Some field.entry) further) (around cell) }
{
    let beside = moves_from(cell);
    [
        far(field.dist(beside[0]), further),
        far(field.dist(beside[1]), further),
        far(field.dist(beside[2]), further),
        far(field.dist(beside[3]), further),
        far(field.dist(beside[4]), further),
    ]
}

/// The estimates at a cell and at those beside it, by a field and what is further on. Mostly the
/// cell has a distance: then it lies within the map, and the compiler need not ask that again.
fn by_field_around(field: Option<&Field>, further: u64, cell: Cell) -> [u64; 5]
    ensures { result ≡ map (by_field field.entry further) (around cell) }
{
    match field {
        Some(field) => {
            if field.dist(cell).is_some() {
                far_around(field, further, cell)
            } else {
                far_around_none(field, further, cell)
            }
        }
        None => [0, 0, 0, 0, 0],
    }
}

/// The Manhattan distances from a cell and from those beside it, and what is further on.
fn by_manhattan_around(stop: Cell, further: u64, cell: Cell) -> [u64; 5]
    ensures { result ≡ map (by_manhattan stop further) (around cell) }
{
    let beside = moves_from(cell);
    [
        by_manhattan(stop, further, beside[0]),
        by_manhattan(stop, further, beside[1]),
        by_manhattan(stop, further, beside[2]),
        by_manhattan(stop, further, beside[3]),
        by_manhattan(stop, further, beside[4]),
    ]
}

/// Some truths as the digits of a number of base 2.
fn digits(are: [bool; 5]) -> u8
    ensures { (i : ℕ) → i < 5 → IsTrue (slice_index_or are i false) ↔ (result / 2 ^ i % 2 ≡ 1) }
{
    let three = are[4] as u8 * 2 + are[3] as u8;
    let two = three * 2 + are[2] as u8;
    let one = two * 2 + are[1] as u8;
    one * 2 + are[0] as u8
}

/// The moves from a cell by which the distance, as far as the level, and what is further on become less than a number.
fn falls_by_sight(sight: &Option<Sight>, further: u64, leg: usize, cell: Cell, here: u64) -> u8
    ensures { IsFallingBy (λ l. by_sight sight.now further) leg cell here result }
{
    let _ = leg;
    match sight {
        Some(sight) => {
            if further < here {
                digits(sight.below(cell, here - further))
            } else {
                0
            }
        }
        None => { if here > 0 { 31 } else { 0 } }
    }
}

/// The last of some moves, each of which is a digit of a number of base 2, that is before another; none where none is.
pub(crate) fn last_before(moves: u8, before: usize) -> Option<usize>
    requires { before ≤ 5 }
    ensures some { IfSome result (λ i. IsLastBefore moves before i) }
    ensures none { IfNone result ((i : ℕ) → i < before → moves / 2 ^ i % 2 ≡ 0) }
{
    let few = u32::from(moves % (1 << before));
    if few == 0 {
        None
    } else {
        Some(31 - few.leading_zeros() as usize)
    }
}

impl<'a> Guide<'a> {
    /// The estimates for an agent at a cell and at those beside it, with the given number of stops behind it.
    pub fn around(&self, leg: usize, cell: Cell) -> [u64; 5]
        ensures { result ≡ map (guide_estimate self.now leg) (around cell) }
    {
        match self {
            Guide::Nearest { field } => to_nearest_around(field, cell),
            Guide::Stops { fields, onward } => {
                if leg < fields.len() {
                    by_field_around(fields[leg], number_at(onward, leg), cell)
                } else {
                    [0, 0, 0, 0, 0]
                }
            }
            Guide::Sights { sights, onward } => {
                if leg < sights.len() {
                    by_sight_around(sights[leg], number_at(onward, leg), cell)
                } else {
                    [0, 0, 0, 0, 0]
                }
            }
            Guide::Manhattan { stops, onward } => {
                by_manhattan_around(stop_at(stops, leg), number_at(onward, leg), cell)
            }
        }
    }

    /// The moves by which the estimate becomes less than a number, where no sight tells them.
    #[inline(never)]
    fn falls_apart(&self, leg: usize, cell: Cell, here: u64) -> u8
        ensures { IsFallingBy (guide_estimate self.now) leg cell here result }
    {
        let lefts = self.around(leg, cell);
        digits([
            lefts[0] < here,
            lefts[1] < here,
            lefts[2] < here,
            lefts[3] < here,
            lefts[4] < here,
        ])
    }

    /// The moves from a cell by which the estimate becomes less than a number.
    #[inline(always)]
    pub(crate) fn falls(&self, leg: usize, cell: Cell, here: u64) -> u8
        ensures { IsFallingBy (guide_estimate self.now) leg cell here result }
    {
        if let Guide::Sights { sights, onward } = self {
            if leg < sights.len() {
                return falls_by_sight(&sights[leg], number_at(onward, leg), leg, cell, here);
            }
        }
        self.falls_apart(leg, cell, here)
    }

    /// The estimated number of steps left for an agent at a cell with the given number of stops behind it.
    pub fn estimate(&self, leg: usize, cell: Cell) -> u64
        ensures { result ≡ guide_estimate self.now leg cell }
    {
        match self {
            Guide::Nearest { field } => to_nearest(field, cell),
            Guide::Stops { fields, onward } => {
                if leg < fields.len() {
                    by_field(fields[leg], number_at(onward, leg), cell)
                } else {
                    0
                }
            }
            Guide::Sights { sights, onward } => {
                if leg < sights.len() {
                    by_sight(sights[leg], number_at(onward, leg), cell)
                } else {
                    0
                }
            }
            Guide::Manhattan { stops, onward } => {
                by_manhattan(stop_at(stops, leg), number_at(onward, leg), cell)
            }
        }
    }
}
