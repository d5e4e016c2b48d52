//! What tells how far a cell is.
#![tactic(auto)]

ghost use Rattle.std.specs.Prelude.{◌≡◌, ℕ, ◌<◌, ◌≤◌, ◌⊎◌, ◌↔◌, Bool, false, IsTrue, IfSome, IfNone, Some};
ghost use Rattle.wh_grid.specs.Grids.{Floor};
ghost use Rattle.wh_grid.specs.declared.cell.Cell.{Cell as Place};
ghost use Rattle.wh_field.specs.Distances.{IsDistance, IsDistanceToFirst};
ghost use Rattle.wh_field.specs.Lazy.{is_sought};

use wh_field::LazyField;
use wh_grid::Cell;

/// Tells the distance from one cell to every other, as a distance field does, and to the nearest of some cells that are
/// sought. What it tells stays the same; it may note what it has found.
pub trait Distances {
    ghost grid: { Self → Floor };

    ghost source: { Self → Place };

    ghost sought: { Self → Place → Bool };

    /// The distance of a cell where it is at most the limit; None where it is greater, or no walk leads there. What lies
    /// beyond the limit need not be looked at.
    fn within(&mut self, to: Cell, limit: u32) -> Option<u32>
        ensures grid { grid self.new ≡ grid self.old }
        ensures source { source self.new ≡ source self.old }
        ensures sought { (c : Place) → sought self.new c ≡ sought self.old c }
        ensures found { IfSome result (λ n. IsDistance (grid self.old) (source self.old) to (Some n) × (n ≤ limit)) }
        ensures farther { IfNone result ((n : ℕ) → IsDistance (grid self.old) (source self.old) to (Some n) → limit < n) };

    /// From now on no cell is sought.
    fn seek_none(&mut self)
        ensures grid { grid self.new ≡ grid self.old }
        ensures source { source self.new ≡ source self.old }
        ensures sought { (c : Place) → IsTrue (sought self.new c) → ⊥ };

    /// From now on this cell is sought too, if it lies on the grid.
    fn seek(&mut self, cell: Cell)
        ensures grid { grid self.new ≡ grid self.old }
        ensures source { source self.new ≡ source self.old }
        ensures sought { (c : Place) → IsTrue (sought self.new c) ↔ (IsTrue (sought self.old c) ⊎ ((c ≡ cell) × (c.x < (grid self.old).width) × (c.y < (grid self.old).height))) };

    /// How far the nearest of the cells that are sought is; None where no walk leads to any. What lies beyond it need not
    /// be looked at.
    fn first_sought(&mut self) -> Option<u32>
        ensures grid { grid self.new ≡ grid self.old }
        ensures source { source self.new ≡ source self.old }
        ensures sought { (c : Place) → sought self.new c ≡ sought self.old c }
        ensures distance { IsDistanceToFirst (grid self.old) (source self.old) (sought self.old) result };
}

/// It is filled only as far as asked.
impl Distances for LazyField {
    ghost grid = { λ f. f.grid };

    ghost source = { λ f. f.cell };

    ghost sought = { λ f. is_sought f };

    fn within(&mut self, to: Cell, limit: u32) -> Option<u32> {
        LazyField::within(self, to, limit)
    }

    fn seek_none(&mut self) {
        LazyField::seek_none(self);
    }

    fn seek(&mut self, cell: Cell) {
        LazyField::seek(self, cell);
    }

    fn first_sought(&mut self) -> Option<u32> {
        LazyField::first_sought(self)
    }
}
