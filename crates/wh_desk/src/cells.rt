//! The cells that receipts are written into.
#![tactic(auto)]

ghost use Rattle.std.specs.Prelude.{◌≡◌, ◌+◌, ◌<◌, length, Some, slice_get, IfOk, IfSome, MatchOption};
ghost use Rattle.once_cell.specs.Once.{cell_name};

use once_cell::race::{Note, OnceBox};
use std::alloc::{AllocError, Global};
use std::marker::Model;
use wh_event::Entry;

/// A row of cells for receipts, one for each position of the history. Contracts see it as the cells' names.
#[derive(Drop)]
pub struct Cells {
    row: Vec<OnceBox<Entry>>,
}

impl Model for Cells {
    ghost use Rattle.std.specs.Prelude.{ℕ, List, map};
    ghost use Rattle.once_cell.specs.Once.{cell_name};

    ghost Value = { List ℕ };

    ghost view = { λ c. map cell_name c.row.items };
}

impl Cells {
    /// The given number of cells, with nothing in them.
    pub fn new(alloc: Global, capacity: u64) -> Result<Cells, AllocError>
        ensures { IfOk result (λ c. length c ≡ capacity) }
    {
        let row = empty_row(alloc, capacity)?;
        Ok(Cells { row })
    }

    /// How many there are.
    pub fn len(&self) -> u64
        ensures { result ≡ length self.now }
    {
        self.row.len() as u64
    }

    /// The cell at a position.
    fn cell(&self, at: u64) -> &OnceBox<Entry>
        requires { at < length self.now }
        ensures { slice_get self.now at ≡ Some (cell_name result.now) }
    {
        &self.row[at as usize]
    }
}

/// The cells of a journal, which are set in order, one for each entry. Contracts see their names, and how many are set.
#[derive(Drop)]
pub(crate) struct CellRow {
    cells: Cells,
    count: u64,
}

impl Model for CellRow {
    ghost use Rattle.wh_desk.specs.Kept.{Filled};

    ghost Value = { Filled };

    ghost view = { λ r. record { names = r.cells; count = r.count } };
}

impl CellRow {
    /// The cells, of which none is set.
    pub(crate) fn new(cells: Cells) -> CellRow
        ensures { result ≡ record { names = cells; count = 0 } }
    {
        CellRow { cells, count: 0 }
    }

    /// Sets the next cell. The note knows its value then. `None`: it had a value already, and nothing has changed.
    pub(crate) fn fill(&mut self, value: Box<Entry>) -> Option<Note<Entry>>
        requires { self.old.count < length self.old.names }
        ensures names { self.new.names ≡ self.old.names }
        ensures count { MatchOption result (self.new.count ≡ self.old.count) (λ _. self.new.count ≡ self.old.count + 1) }
        ensures cell { IfSome result (λ note. slice_get self.old.names self.old.count ≡ Some note.cell) }
        ensures known { IfSome result (λ note. note.known ≡ Some value.value) }
    {
        let _all = self.cells.len();
        let at = self.count;
        match write_into(self.cells.cell(at), value) {
            Some(note) => {
                self.count = at + 1;
                Some(note)
            }
            None => None,
        }
    }
}

/// Writes the entry into the cell. The note knows it then. `None`: the cell has a value already.
fn write_into(cell: &OnceBox<Entry>, boxed: Box<Entry>) -> Option<Note<Entry>>
    ensures cell { IfSome result (λ note. note.cell ≡ cell_name cell.now) }
    ensures known { IfSome result (λ note. note.known ≡ Some boxed.value) }
{
    let mut note = cell.note();
    cell.set_as(boxed, &mut note).ok()?;
    Some(note)
}

fn empty_row(alloc: Global, capacity: u64) -> Result<Vec<OnceBox<Entry>>, AllocError>
    ensures { IfOk result (λ row. length row.items ≡ capacity) }
{
    let mut row = Vec::new(alloc);
    for _ in 0..capacity {
        row.push(OnceBox::new(alloc))?;
    }
    Ok(row)
}
