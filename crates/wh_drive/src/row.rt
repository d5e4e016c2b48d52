//! Where a plan has its agents at one time.
#![tactic(auto)]

ghost use Rattle.std.specs.Prelude.{◌≡◌, ◌≢◌, ◌<◌, ◌↔◌, IsTrue, IfOk, length};
ghost use Rattle.std.specs.List.{AllPairs};
ghost use Rattle.wh_path.specs.Paths.{cell_at};

use std::alloc::{AllocError, Global};
use std::marker::Model;
use wh_grid::Cell;

/// A cell for each agent.
#[derive(Drop)]
pub(crate) struct Row {
    cells: Vec<Cell>,
}

impl Model for Row {
    ghost use Rattle.std.specs.Prelude.{List};
    ghost use Rattle.wh_grid.specs.declared.cell.Cell.{Cell as Place};

    ghost Value = { List Place };

    ghost view = { λ r. r.cells.items };
}

impl Row {
    pub(crate) fn over(alloc: Global, cells: &[Cell]) -> Result<Row, AllocError>
        ensures { IfOk result (λ r. r ≡ cells.now) }
    {
        Ok(Row {
            cells: Vec::from_slice(alloc, cells)?,
        })
    }

    pub(crate) fn at(&self, agent: u32) -> Cell
        requires { agent < length self.now }
        ensures { result ≡ cell_at self.now agent }
    {
        self.cells[agent as usize]
    }

    pub(crate) fn cells(&self) -> &[Cell]
        ensures { result.now ≡ self.now }
    {
        &self.cells
    }
}

/// Whether no cell stands twice among these.
pub fn all_differ(cells: &[Cell]) -> bool
    ensures { IsTrue result ↔ AllPairs (λ a b. a ≢ b) cells.now }
{
    for i in 0..cells.len() {
        for j in 0..i {
            if cells[j].is(cells[i]) {
                return false;
            }
        }
    }
    true
}
