//! Laws of distances. The functions do nothing: their contracts are the laws.
#![tactic(auto)]

ghost use Rattle.std.specs.Prelude.{◌≡◌, ℕ, ◌+◌, ◌≤◌, ◌⊎◌, IsSomeAnd, Option};
ghost use Rattle.wh_grid.specs.declared.cell.Cell.{Cell};
ghost use Rattle.wh_grid.specs.Grids.{IsAdjacent, IsMove, IsPassable};
ghost use Rattle.wh_field.specs.Distances.{IsDistance, distance};

use wh_grid::Grid;

/// The distance of two cells is the last index of a shortest walk between them, none where there is
/// no walk, and nothing else is.
#[tactic(auto, using(crate::proofs::DistanceLaws::distance_is, crate::proofs::DistanceLaws::distance_one))]
pub fn distance_is_least(grid: &Grid)
    ensures least { (from to : Cell) → IsDistance grid.now from to (distance grid.now from to) }
    ensures only { (from to : Cell) (o : Option ℕ) → IsDistance grid.now from to o → o ≡ distance grid.now from to }
{
    let _ = grid;
}

/// A passable cell is at distance 0 of itself.
#[tactic(auto, using(crate::proofs::DistanceLaws::distance_start))]
pub fn distance_of_itself(grid: &Grid)
    ensures { (cell : Cell) → IsPassable grid.now cell → distance grid.now cell cell ≡ Some 0 }
{
    let _ = grid;
}

/// In one step a distance grows by at most 1.
#[tactic(auto, using(crate::proofs::DistanceLaws::distance_falls))]
pub fn distance_grows_by_one(grid: &Grid)
    ensures { (from cell next : Cell) (n : ℕ) → IsPassable grid.now next → IsMove cell next → distance grid.now from cell ≡ Some n → IsSomeAnd (distance grid.now from next) (λ m. m ≤ n + 1) }
{
    let _ = grid;
}

/// The distances of two passable neighbours differ by exactly 1, or there is none.
#[tactic(auto, using(crate::proofs::DistanceLaws::distance_neighbours))]
pub fn distance_of_neighbours(grid: &Grid)
    ensures { (from cell next : Cell) (n : ℕ) → IsPassable grid.now next → IsAdjacent cell next → distance grid.now from cell ≡ Some n → IsSomeAnd (distance grid.now from next) (λ m. (m ≡ n + 1) ⊎ (m + 1 ≡ n)) }
{
    let _ = grid;
}

/// A distance is the same both ways.
#[tactic(auto, using(crate::proofs::DistanceLaws::distance_back))]
pub fn distance_both_ways(grid: &Grid)
    ensures { (from to : Cell) → distance grid.now from to ≡ distance grid.now to from }
{
    let _ = grid;
}
