//! A field that is filled only as far as asked.
#![tactic(auto)]

ghost use Rattle.std.specs.Prelude.{◌≡◌, ℕ, ◌+◌, ◌*◌, ◌<◌, ◌≤◌, ◌⊎◌, ◌↔◌, IfOk, IfSome, IfNone, Some, IsTrue, replicate, slice_index_or};
ghost use Rattle.wh_grid.specs.declared.cell.Cell.{Cell as Place};
ghost use Rattle.wh_field.specs.Distances.{IsDistance, IsDistanceToFirst, distance};
ghost use Rattle.wh_field.specs.Lazy.{is_sought, nowhere};
ghost use Rattle.wh_field.specs.Tables.{blocked};

use crate::opening::{begin, begin_again, open_table, place_of};
use crate::table::{BLOCKED, Front, fill_to_mark, fill_until, fill_within};
use std::alloc::{AllocError, Global};
use std::marker::Model;
use std::snapshot::Snapshot;
use wh_grid::{Cell, Grid};

/// How far each cell of a grid is from one cell, its source, and which cells are sought. The
/// distances are found layer by layer as they are asked for.
#[derive(Drop)]
pub struct LazyField {
    grid: Snapshot<Grid>,
    source: Cell,
    width: u16,
    height: u16,
    table: Vec<u32>,
    queue: Vec<u32>,
    front: Front,
    marks: Vec<u32>,
    mark: u32,
}

impl Model for LazyField {
    ghost use Rattle.wh_field.specs.Fields.{Seeking};

    ghost Value = { Seeking };

    ghost use Rattle.wh_field.specs.Lazy.{lazy_source, IsLazyField};

    ghost view = { lazy_source };

    ghost invariant = { IsLazyField };
}

impl LazyField {
    /// The distances from a cell over a grid; no cell is sought. Needs twelve bytes per cell; fails when out of memory.
    /// No other call takes memory.
    pub fn from(alloc: Global, grid: &Grid, source: Cell) -> Result<Self, AllocError>
        ensures { IfOk result (λ f. f ≡ record { grid = grid.now; cell = source; sought = nowhere grid.now }) }
    {
        let mut table = open_table(alloc, grid)?;
        let mut queue = Vec::with_capacity(alloc, table.len())?;
        begin(&mut table, &mut queue, grid, &[source], &[]);
        let marks = unmarked(alloc, table.len())?;
        Ok(LazyField {
            grid: Snapshot::of(grid),
            source,
            width: grid.width(),
            height: grid.height(),
            table,
            queue,
            front: Front {
                head: 0,
                distance: 0,
            },
            marks,
            mark: 1,
        })
    }

    /// The same field from another cell. It clears only what was met, so its time is that of the distances asked for.
    pub fn again(&mut self, source: Cell)
        ensures { self.new ≡ record self.old { cell = source } }
    {
        begin_again(
            &mut self.table,
            &mut self.queue,
            self.width,
            self.height,
            source,
        );
        self.source = source;
        self.front = Front {
            head: 0,
            distance: 0,
        };
    }

    /// How many steps a shortest walk from the source to a cell has; none where there is no walk.
    pub fn dist(&mut self, cell: Cell) -> Option<u32>
        ensures same { self.new ≡ self.old }
        ensures value { result ≡ distance self.old.grid self.old.cell cell }
        ensures exact { IsDistance self.old.grid self.old.cell cell result }
    {
        match place_of(self.width, self.height, cell) {
            Some(place) => {
                let stride = self.width as usize + 1;
                self.front = fill_until(
                    &mut self.table,
                    &mut self.queue,
                    stride,
                    self.front,
                    place,
                );
                let steps = self.table[place];
                if steps < BLOCKED { Some(steps) } else { None }
            }
            None => None,
        }
    }

    /// The distance of a cell where it is at most the limit; none where it is greater, or there is
    /// no walk. The field is filled no further than the limit.
    pub fn within(&mut self, cell: Cell, limit: u32) -> Option<u32>
        ensures same { self.new ≡ self.old }
        ensures found { IfSome result (λ n. IsDistance self.old.grid self.old.cell cell (Some n) × (n ≤ limit)) }
        ensures farther { IfNone result ((n : ℕ) → IsDistance self.old.grid self.old.cell cell (Some n) → limit < n) }
    {
        match place_of(self.width, self.height, cell) {
            Some(place) => {
                let stride = self.width as usize + 1;
                self.front = fill_within(
                    &mut self.table,
                    &mut self.queue,
                    stride,
                    self.front,
                    place,
                    limit,
                );
                up_to(limit, self.table[place])
            }
            None => None,
        }
    }

    /// From now on no cell is sought.
    pub fn seek_none(&mut self)
        ensures { self.new ≡ record self.old { sought = nowhere self.old.grid } }
    {
        self.mark = next_mark(&mut self.marks, self.mark);
    }

    /// From now on this cell is sought too, if it lies on the grid.
    pub fn seek(&mut self, cell: Cell)
        ensures grid { self.new.grid ≡ self.old.grid }
        ensures source { self.new.cell ≡ self.old.cell }
        ensures sought { (c : Place) → IsTrue (is_sought self.new c) ↔ (IsTrue (is_sought self.old c) ⊎ ((c ≡ cell) × (c.x < self.old.grid.width) × (c.y < self.old.grid.height))) }
    {
        match place_of(self.width, self.height, cell) {
            Some(place) => self.marks[place] = self.mark,
            None => {}
        }
    }

    /// How far the nearest of the cells that are sought is; none where there is no walk to any. The field is filled no
    /// further than that.
    pub fn first_sought(&mut self) -> Option<u32>
        ensures same { self.new ≡ self.old }
        ensures exact { IsDistanceToFirst self.old.grid self.old.cell (is_sought self.old) result }
    {
        let stride = self.width as usize + 1;
        let reached = fill_to_mark(
            &mut self.table,
            &mut self.queue,
            stride,
            self.front,
            &self.marks,
            self.mark,
        );
        self.front = reached.front;
        if reached.least < BLOCKED {
            Some(reached.least)
        } else {
            None
        }
    }
}

/// No marks, for the given number of places.
fn unmarked(alloc: Global, places: usize) -> Result<Vec<u32>, AllocError>
    ensures { IfOk result (λ marks. marks.items ≡ replicate places 0) }
{
    vec![in alloc; 0; places]
}

/// A mark that no place has. Once in 2³² times all marks are taken away for it.
fn next_mark(marks: &mut [u32], mark: u32) -> u32
    requires { (i : ℕ) → slice_index_or marks.old i 0 ≤ mark }
    ensures positive { 0 < result }
    ensures later { (i : ℕ) → slice_index_or marks.new i 0 < result }
{
    if mark < u32::MAX {
        return mark + 1;
    }
    for old in marks.iter_mut() {
        *old = 0;
    }
    1
}

/// A number of a table as a distance, where it is at most the limit.
fn up_to(limit: u32, steps: u32) -> Option<u32>
    ensures known { IfSome result (λ n. (n ≡ steps) × (n < blocked) × (n ≤ limit)) }
    ensures unknown { IfNone result ((steps < blocked) × (steps ≤ limit) → ⊥) }
{
    if steps < BLOCKED && steps <= limit {
        Some(steps)
    } else {
        None
    }
}
