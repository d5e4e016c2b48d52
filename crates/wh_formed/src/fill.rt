//! The cells that can be reached from one.
#![tactic(auto)]

ghost use Rattle.std.specs.Prelude.{◌≡◌, ◌+◌, ◌*◌, ◌<◌, ◌^◌, ◌↔◌, [], false, All, OnOk, length};
ghost use Rattle.wh_grid.specs.declared.cell.Cell.{Cell};
ghost use Rattle.wh_grid.specs.Grids.{IsMove};

use crate::stamps::Stamps;
use crate::table::{is_marked, neighbours, place_of};
use std::alloc::{AllocError, Global};
use wh_grid::{Cell, Grid};

/// The cells that were entered, and those of them whose neighbours are still to be entered.
#[derive(Drop)]
pub struct Fill {
    pub marks: Stamps,
    pub queue: Vec<Cell>,
}

impl Fill {
    ghost use Rattle.wh_formed.specs.Fills.{IsMarked, IsReached, Spreads};
    ghost use Rattle.wh_formed.specs.Rounds.{Marks, marks_of};

    /// A fill that has entered nothing, and has no memory yet.
    pub fn new(alloc: Global) -> Self
        ensures marks { result.marks ≡ record { numbers = []; current = 0 } }
        ensures queue { result.queue.items ≡ [] }
    {
        Fill {
            marks: Stamps::new(alloc),
            queue: Vec::new(alloc),
        }
    }

    /// Enters a cell, if it is open and was not entered yet.
    fn enter(&mut self, grid: &Grid, open_cells: &[bool], cell: Cell) -> Result<(), AllocError>
        requires table { length open_cells.now ≡ grid.now.width * grid.now.height }
        requires size { length self.old.marks.numbers ≡ grid.now.width * grid.now.height }
        ensures { OnOk result (Spreads grid.now open_cells.now (λ c. c ≡ cell) self.old self.new) }
    {
        if !is_marked(grid, open_cells, cell) {
            return Ok(());
        }
        let place = place_of(grid, cell);
        if self.marks.is_marked(place) {
            return Ok(());
        }
        self.queue.push(cell)?;
        self.marks.mark(place);
        Ok(())
    }

    /// Enters the open cells to which one step leads from a cell.
    fn spread(&mut self, grid: &Grid, open_cells: &[bool], cell: Cell) -> Result<(), AllocError>
        requires table { length open_cells.now ≡ grid.now.width * grid.now.height }
        requires size { length self.old.marks.numbers ≡ grid.now.width * grid.now.height }
        requires entered { IsMarked grid.now (marks_of self.old.marks) cell }
        ensures { OnOk result (Spreads grid.now open_cells.now (λ c. IsMove cell c) self.old self.new) }
    {
        let around = neighbours(grid, cell);
        for next in &around {
            self.enter(grid, open_cells, *next)?;
        }
        Ok(())
    }

    /// Enters all that can be reached from a cell through open cells, where nothing was entered
    /// in this round yet.
    fn flood(&mut self, grid: &Grid, open_cells: &[bool], from: Cell) -> Result<(), AllocError>
        requires table { length open_cells.now ≡ grid.now.width * grid.now.height }
        requires size { length self.old.marks.numbers ≡ grid.now.width * grid.now.height }
        requires none { All (λ b. b ≡ false) (marks_of self.old.marks) }
        ensures rounds { OnOk result (Marks self.old.marks self.new.marks) }
        ensures reached { OnOk result ((c : Cell) → IsMarked grid.now (marks_of self.new.marks) c ↔ IsReached grid.now (IsMarked grid.now open_cells.now) from c) }
    {
        self.queue.clear();
        if !grid.passable(from) {
            return Ok(());
        }
        self.queue.push(from)?;
        self.marks.mark(place_of(grid, from));
        while let Some(cell) = self.queue.pop() {
            self.spread(grid, open_cells, cell)?;
        }
        Ok(())
    }

    /// Enters all that can be reached from a cell through open cells, in a round of its own, which
    /// keeps the numbers of the rounds before.
    pub fn run_on(&mut self, grid: &Grid, open_cells: &[bool], from: Cell) -> Result<(), AllocError>
        requires table { length open_cells.now ≡ grid.now.width * grid.now.height }
        requires size { length self.old.marks.numbers ≡ grid.now.width * grid.now.height }
        requires current { self.old.marks.current + 1 < 2 ^ 32 }
        ensures rounds { OnOk result (Marks (record { numbers = self.old.marks.numbers; current = self.old.marks.current + 1 }) self.new.marks) }
        ensures reached { OnOk result ((c : Cell) → IsMarked grid.now (marks_of self.new.marks) c ↔ IsReached grid.now (IsMarked grid.now open_cells.now) from c) }
    {
        self.marks.advance();
        self.flood(grid, open_cells, from)
    }
}
