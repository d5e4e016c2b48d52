//! The cells at which paths end, with a count of them for each cell of the grid.
#![tactic(auto)]

ghost use Rattle.std.specs.Prelude.{◌≡◌, ℕ, ◌+◌, ◌*◌, ◌<◌, ◌≤◌, ◌↔◌, length, IsTrue, IfOk, IfNone, IfSome, Contains, remove, slice_set, slice_index_or};
ghost use Rattle.wh_tasks.specs.CellCounts.{times};

use crate::cell_counts::CellCounts;
use std::alloc::{AllocError, Global};
use std::marker::Model;
use wh_grid::Cell;

/// The cell at which each path ends, and for each cell of the grid, row by row, how many end there. Whether others than
/// one of them end at a cell takes constant time, and so does a change. It takes memory only when it is made.
#[derive(Drop)]
pub struct PathEnds {
    counts: CellCounts,
    cells: Vec<Cell>,
}

impl Model for PathEnds {
    ghost use Rattle.std.specs.Prelude.{List};
    ghost use Rattle.wh_grid.specs.declared.cell.Cell.{Cell as Place};
    ghost use Rattle.wh_tasks.specs.Ends.{IsCounted};

    ghost Value = { List Place };

    ghost view = { λ e. e.cells.items };

    ghost invariant = { λ e. IsCounted e.counts e.cells.items };
}

impl PathEnds {
    /// The ends of paths on a grid of these sides. Fails when out of memory.
    pub fn of(
        alloc: Global,
        width: u16,
        height: u16,
        cells: &[Cell],
    ) -> Result<PathEnds, AllocError>
        requires few { length cells.now ≤ 65535 }
        ensures { IfOk result (λ ends. ends ≡ cells.now) }
    {
        let mut counts = CellCounts::none(alloc, width, height)?;
        counts.raise_all(cells);
        let cells = Vec::from_slice(alloc, cells)?;
        Ok(PathEnds { counts, cells })
    }

    /// The path of an agent ends at this cell from now on.
    pub fn set(&mut self, agent: u32, cell: Cell)
        requires { agent < length self.old }
        ensures { self.new ≡ slice_set self.old agent cell }
    {
        let before = self.cells[agent as usize];
        self.counts.lower(before);
        self.counts.raise(cell);
        self.cells[agent as usize] = cell;
    }

    /// The cell at which the path of an agent ends.
    pub(crate) fn end(&self, agent: u32) -> Cell
        requires { agent < length self.now }
        ensures { slice_index_or self.now agent result ≡ result }
    {
        self.cells[agent as usize]
    }

    /// Whether a path ends at the cell. It takes constant time, if the cell is inside the grid; else it looks at all ends.
    pub(crate) fn is_end(&self, cell: Cell) -> bool
        ensures { IsTrue result ↔ Contains self.now cell }
    {
        match self.count(cell) {
            Some(count) => count > 0,
            None => is_among(&self.cells, cell),
        }
    }

    /// The ends of the paths of all agents but this one.
    pub fn but(&self, agent: u32) -> EndSet<'_>
        requires { agent < length self.now }
        ensures { result ≡ remove self.now agent }
    {
        EndSet {
            all: self,
            but: agent as usize,
            own: self.cells[agent as usize],
        }
    }

    /// How many paths end at the cell. A cell outside the sides has no count.
    fn count(&self, cell: Cell) -> Option<u32>
        ensures { IfSome result (λ count. count ≡ times cell self.now) }
    {
        self.counts.count(cell)
    }
}

/// The ends of all paths but one.
#[derive(Drop)]
pub struct EndSet<'a> {
    all: &'a PathEnds,
    but: usize,
    own: Cell,
}

impl<'a> Model for EndSet<'a> {
    ghost use Rattle.std.specs.Prelude.{◌≡◌, ◌<◌, List, length, remove, slice_index_or};
    ghost use Rattle.wh_grid.specs.declared.cell.Cell.{Cell as Place};

    ghost Value = { List Place };

    ghost view = { λ e. remove e.all.now e.but };

    ghost invariant = { λ e. (e.but < length e.all.now) × (slice_index_or e.all.now e.but e.own ≡ e.own) };
}

impl<'a> EndSet<'a> {
    /// Whether any of these paths ends at the cell.
    pub fn has(&self, cell: Cell) -> bool
        ensures { IsTrue result ↔ Contains self.now cell }
    {
        match self.all.count(cell) {
            Some(count) => u32::from(cell.is(self.own)) < count,
            None => self.lists(cell),
        }
    }

    /// The same, by going over the list.
    fn lists(&self, cell: Cell) -> bool
        ensures { IsTrue result ↔ Contains self.now cell }
    {
        let all = self.all;
        let cells = all.cells.as_slice();
        is_among(&cells[..self.but], cell) || is_among(&cells[self.but + 1..], cell)
    }
}

/// Whether the cell is one of these.
pub(crate) fn is_among(cells: &[Cell], cell: Cell) -> bool
    ensures { IsTrue result ↔ Contains cells.now cell }
{
    for other in cells {
        if other.is(cell) {
            return true;
        }
    }
    false
}
