//! A count for each cell of a grid.
#![tactic(auto)]

ghost use Rattle.std.specs.Prelude.{◌≡◌, ◌+◌, ◌*◌, ◌<◌, ◌≤◌, length, cond, IfOk, IfNone, IfSome};
ghost use Rattle.wh_grid.specs.declared.cell.Cell.{Cell as Place};
ghost use Rattle.wh_grid.specs.Cells.{is_cell};
ghost use Rattle.wh_tasks.specs.CellCounts.{AreCounts, IsInside, IsRaised, count_of, times};

use std::alloc::{AllocError, Global};
use std::marker::Model;
use wh_grid::Cell;

/// The sides of a grid.
#[derive(Clone, Copy)]
pub(crate) struct Sides {
    pub(crate) width: u16,
    pub(crate) height: u16,
}

impl Sides {
    /// Where the count of a cell stands. A cell outside the sides has none.
    pub(crate) fn place(self, cell: Cell) -> Option<usize>
        ensures inside { IfSome result (λ place. IsInside self.width self.height cell × (place ≡ cell.y * self.width + cell.x) × (place < self.width * self.height)) }
        ensures outside { IfNone result (¬ IsInside self.width self.height cell) }
    {
        if cell.x < self.width && cell.y < self.height {
            Some(cell.y as usize * self.width as usize + cell.x as usize)
        } else {
            None
        }
    }
}

/// A count for each cell of a grid, row by row. Reading a count takes constant time, and so does a change. It takes
/// memory only when it is made.
#[derive(Drop)]
pub(crate) struct CellCounts {
    sides: Sides,
    counts: Vec<u32>,
}

impl Model for CellCounts {
    ghost use Rattle.std.specs.Prelude.{◌≡◌, ◌*◌, length};
    ghost use Rattle.wh_tasks.specs.CellCounts.{Tally};

    ghost Value = { Tally };

    ghost view = { λ c. record {
      width = c.sides.width;
      height = c.sides.height;
      counts = c.counts.items;
    } };

    ghost invariant = { λ c. length c.counts.items ≡ c.sides.width * c.sides.height };
}

impl CellCounts {
    /// No cell of a grid of these sides counts yet. Fails when out of memory.
    pub(crate) fn none(alloc: Global, width: u16, height: u16) -> Result<CellCounts, AllocError>
        ensures sides { IfOk result (λ counts. (counts.width ≡ width) × (counts.height ≡ height)) }
        ensures zero { IfOk result (λ counts. AreCounts counts (λ cell. 0)) }
    {
        let counts = vec![in alloc; 0u32; width as usize * height as usize]?;
        Ok(CellCounts {
            sides: Sides { width, height },
            counts,
        })
    }

    /// The count of a cell. A cell outside the sides has none.
    pub(crate) fn count(&self, cell: Cell) -> Option<u32>
        ensures inside { IfSome result (λ count. IsInside self.now.width self.now.height cell × (count ≡ count_of self.now cell)) }
        ensures outside { IfNone result (¬ IsInside self.now.width self.now.height cell) }
    {
        let place = self.sides.place(cell)?;
        Some(self.counts[place])
    }

    /// The cell counts once more, if it has a count.
    pub(crate) fn raise(&mut self, cell: Cell)
        requires fits { IsInside self.old.width self.old.height cell → count_of self.old cell < 4294967295 }
        ensures { IsRaised self.old self.new (λ other. cond (is_cell other cell) 1 0) }
    {
        if let Some(place) = self.sides.place(cell) {
            self.counts[place] += 1;
        }
    }

    /// The cell counts once less, if it has a count.
    pub(crate) fn lower(&mut self, cell: Cell)
        requires some { IsInside self.old.width self.old.height cell → 0 < count_of self.old cell }
        ensures { IsRaised self.new self.old (λ other. cond (is_cell other cell) 1 0) }
    {
        if let Some(place) = self.sides.place(cell) {
            self.counts[place] -= 1;
        }
    }

    /// Each of these cells counts once more, as often as it is among them.
    pub(crate) fn raise_all(&mut self, cells: &[Cell])
        requires fits { (cell : Place) → IsInside self.old.width self.old.height cell → count_of self.old cell + length cells.now ≤ 4294967295 }
        ensures { IsRaised self.old self.new (λ cell. times cell cells.now) }
    {
        for cell in cells {
            self.raise(*cell);
        }
    }
}
