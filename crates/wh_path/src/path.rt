//! Timed paths: where an agent is at each time from now on.
#![tactic(auto)]

ghost use Rattle.std.specs.Prelude.{◌≡◌, ℕ, ◌+◌, ◌*◌, ◌<◌, ◌≤◌, ◌^◌, ◌++◌, ◌∷◌, [], IfOk, OnErr, OnOk, drop, length, reverse, vec_len};
ghost use Rattle.wh_path.specs.Paths.{advanced, at, end, last_index};

use std::alloc::{AllocError, Global};
use std::marker::Model;
use wh_grid::Cell;

/// Where an agent is at each time from now on: a list of cells, and the last of them for ever. The cells that it has
/// passed are skipped by an index, so that a step moves no cell.
#[derive(Drop)]
pub struct TimedPath {
    cells: Vec<Cell>,
    passed: usize,
}

impl Model for TimedPath {
    ghost use Rattle.std.specs.Prelude.{◌<◌, List, drop, length};
    ghost use Rattle.wh_grid.specs.declared.cell.Cell.{Cell};

    ghost Value = { List Cell };

    ghost view = { λ p. drop p.passed p.cells.items };

    ghost invariant = { λ p. p.passed < length p.cells.items };
}

impl TimedPath {
    /// The path that stays at a cell. Fails when out of memory, here and below.
    pub fn one(alloc: Global, cell: Cell) -> Result<Self, AllocError>
        ensures { IfOk result (λ p. p ≡ cell ∷ []) }
    {
        let mut cells = Vec::new(alloc);
        cells.push(cell)?;
        Ok(TimedPath { cells, passed: 0 })
    }

    /// The path over these cells, at least one.
    pub fn over(cells: Vec<Cell>) -> Self
        requires { 0 < vec_len cells }
        ensures { result ≡ cells.items }
    {
        TimedPath { cells, passed: 0 }
    }

    /// The same path.
    pub fn copy(&self, alloc: Global) -> Result<Self, AllocError>
        ensures { IfOk result (λ p. p ≡ self.now) }
    {
        let cells = Vec::from_slice(alloc, &self.cells.as_slice()[self.passed..])?;
        Ok(TimedPath { cells, passed: 0 })
    }

    /// Adds a cell at the end, any cell: whether cells are adjacent is a walk's concern. When out of memory, nothing
    /// changes.
    pub fn push(&mut self, cell: Cell) -> Result<(), AllocError>
        ensures ok { OnOk result (self.new ≡ self.old ++ cell ∷ []) }
        ensures err { OnErr result (self.new ≡ self.old) }
    {
        self.cells.push(cell)?;
        Ok(())
    }

    /// Where it is at time k; past its end it rests there.
    pub fn at(&self, k: u64) -> Cell
        ensures { result ≡ at self.now k }
    {
        let last = self.cells.len() - 1 - self.passed;
        self.cells[self.passed + last.min(k as usize)]
    }

    /// Where it is from now on until it ends, one cell a step.
    pub fn cells(&self) -> &[Cell]
        ensures value { result.now ≡ self.now }
        ensures some { 1 ≤ length result.now }
    {
        &self.cells[self.passed..]
    }

    /// The last index: how many steps are left.
    pub fn remaining(&self) -> u64
        ensures value { result ≡ last_index self.now }
        ensures bound { result < 2 ^ 61 }
        ensures some { 1 ≤ length self.now }
    {
        let cells: &[Cell] = &self.cells;
        (cells.len() - self.passed) as u64 - 1
    }

    /// Where it ends.
    pub fn end(&self) -> Cell
        ensures { result ≡ end self.now }
    {
        self.at(self.remaining())
    }

    /// Where it is now.
    pub fn start(&self) -> Cell
        ensures { result ≡ at self.now 0 }
    {
        self.at(0)
    }

    /// The other way round.
    pub fn reverse(&mut self)
        ensures { self.new ≡ reverse self.old }
    {
        self.cells[self.passed..].reverse();
    }

    /// Appends another path without its first cell. When out of memory, nothing changes.
    pub fn follow(&mut self, next: &TimedPath) -> Result<(), AllocError>
        ensures ok { OnOk result (self.new ≡ self.old ++ drop 1 next.now) }
        ensures err { OnErr result (self.new ≡ self.old) }
    {
        self.cells
            .extend_from_slice(&next.cells[next.passed + 1..])?;
        Ok(())
    }

    /// One step later: the first cell is dropped if a second follows. It takes constant time.
    pub fn advance(&mut self)
        ensures { self.new ≡ advanced self.old }
    {
        if self.passed + 1 < self.cells.len() {
            self.passed += 1;
        }
    }
}
