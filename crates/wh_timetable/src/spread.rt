//! The place of each cell.
#![tactic(auto)]

ghost use Rattle.std.specs.Prelude.{◌≡◌, ◌<◌, ℕ, ◌^◌};
ghost use Rattle.wh_timetable.specs.Places.{number_of, start_of, place};

use wh_grid::Cell;

/// A number of the cell that no other cell has.
fn number_of(cell: Cell) -> u32
    ensures { result ≡ number_of cell }
{
    u32::from(cell.x) + u32::from(cell.y) * 65_536
}

/// A number that spreads cells, by the multiplier of MurmurHash2 and the upper bits of the product.
fn start_of(cell: Cell) -> usize
    ensures value { result ≡ start_of cell }
    ensures bound { result < 2 ^ 17 }
{
    (number_of(cell).wrapping_mul(1_540_483_477) >> 15) as usize
}

/// The place of a cell among the given number. It is a good spread where they are a power of two.
pub fn place_of(size: usize, cell: Cell) -> usize
    requires { 0 < size }
    ensures value { result ≡ place size cell }
    ensures bound { result < size }
{
    start_of(cell) & (size - 1)
}

/// How many places there are, a power of two: about as many as what is spread, and no more than are made in little time.
pub fn places_for(count: usize) -> usize
    ensures { 0 < result }
{
    match count {
        0..=256 => 256,
        257..=512 => 512,
        513..=1024 => 1024,
        1025..=2048 => 2048,
        2049..=4096 => 4096,
        4097..=8192 => 8192,
        _ => 16_384,
    }
}
