//! How far each cell is from one cell.
#![tactic(auto)]

ghost use Rattle.std.specs.Prelude.{◌≡◌, ℕ, ◌+◌, ◌*◌, ◌<◌, ◌≤◌, IfOk};
ghost use Rattle.wh_field.specs.Distances.{IsDistance, distance};
ghost use Rattle.wh_field.specs.Places.{place, places};
ghost use Rattle.wh_field.specs.Sides.{left_of, right_of, above, below};

use crate::opening::{place_of, survey};
use crate::table::BLOCKED;
use std::alloc::{AllocError, Global};
use std::marker::Model;
use std::snapshot::Snapshot;
use wh_grid::{Cell, Grid};

/// How far each cell of a grid is from one cell, its source.
#[derive(Drop)]
pub struct Field {
    grid: Snapshot<Grid>,
    source: Cell,
    width: u16,
    height: u16,
    table: Vec<u32>,
}

impl Model for Field {
    ghost use Rattle.std.specs.Prelude.{◌≡◌, [], ◌∷◌};
    ghost use Rattle.wh_field.specs.Fields.{Source};
    ghost use Rattle.wh_field.specs.Places.{IsSurveyed};

    ghost Value = { Source };

    ghost view = { λ f. record { grid = f.grid.value; cell = f.source } };

    ghost invariant = { λ f. (f.width ≡ f.grid.value.width) × (f.height ≡ f.grid.value.height) × IsSurveyed f.grid.value [] (f.source ∷ []) f.table.items };
}

/// The distances of a cell and of the cells to its left, right, above and below it. At a border
/// of the coordinates the cell itself stands for the one that is missing.
#[derive(Clone, Copy)]
pub struct Around {
    pub here: Option<u32>,
    pub left: Option<u32>,
    pub right: Option<u32>,
    pub above: Option<u32>,
    pub below: Option<u32>,
}

impl Field {
    /// The distances from a cell over a grid. From a cell that is blocked or outside no walk leads
    /// anywhere. Needs four bytes per cell, and as many again while it fills; fails when out of memory.
    pub fn from(alloc: Global, grid: &Grid, source: Cell) -> Result<Self, AllocError>
        ensures { IfOk result (λ f. f ≡ record { grid = grid.now; cell = source }) }
    {
        let table = survey(alloc, grid, source, &[])?;
        Ok(Field {
            grid: Snapshot::of(grid),
            source,
            width: grid.width(),
            height: grid.height(),
            table,
        })
    }

    /// How many steps a shortest walk from the source to a cell has; none where there is no walk.
    pub fn dist(&self, cell: Cell) -> Option<u32>
        ensures value { result ≡ distance self.now.grid self.now.cell cell }
        ensures exact { IsDistance self.now.grid self.now.cell cell result }
    {
        match place_of(self.width, self.height, cell) {
            Some(place) => {
                let steps = self.table[place];
                if steps < BLOCKED { Some(steps) } else { None }
            }
            None => None,
        }
    }

    /// The distance of a cell by its place.
    fn read(&self, index: usize, cell: Cell) -> Option<u32>
        requires column { cell.x ≤ self.now.grid.width }
        requires here { index ≡ place self.now.grid cell }
        requires within { index < places self.now.grid }
        ensures { result ≡ distance self.now.grid self.now.cell cell }
    {
        let _ = cell;
        let steps = self.table[index];
        if steps < BLOCKED { Some(steps) } else { None }
    }

    /// The distances of a cell and of its neighbours.
    pub fn around(&self, cell: Cell) -> Around
        ensures here { result.here ≡ distance self.now.grid self.now.cell cell }
        ensures left { result.left ≡ distance self.now.grid self.now.cell (left_of cell) }
        ensures right { result.right ≡ distance self.now.grid self.now.cell (right_of cell) }
        ensures above { result.above ≡ distance self.now.grid self.now.cell (above cell) }
        ensures below { result.below ≡ distance self.now.grid self.now.cell (below cell) }
    {
        let left = to_the_left(cell);
        let right = to_the_right(cell);
        let above = cell_above(cell);
        let below = cell_below(cell);
        match place_of(self.width, self.height, cell) {
            Some(place) => {
                let stride = self.width as usize + 1;
                let to_left = if cell.x > 0 { place - 1 } else { place };
                let to_above = if cell.y > 0 { place - stride } else { place };
                Around {
                    here: self.read(place, cell),
                    left: self.read(to_left, left),
                    right: self.read(place + 1, right),
                    above: self.read(to_above, above),
                    below: self.read(place + stride, below),
                }
            }
            None => Around {
                here: self.dist(cell),
                left: self.dist(left),
                right: self.dist(right),
                above: self.dist(above),
                below: self.dist(below),
            },
        }
    }
}

pub(crate) fn to_the_left(cell: Cell) -> Cell
    ensures { result ≡ left_of cell }
{
    Cell {
        x: cell.x.saturating_sub(1),
        y: cell.y,
    }
}

pub(crate) fn to_the_right(cell: Cell) -> Cell
    ensures { result ≡ right_of cell }
{
    Cell {
        x: cell.x.saturating_add(1),
        y: cell.y,
    }
}

pub(crate) fn cell_above(cell: Cell) -> Cell
    ensures { result ≡ above cell }
{
    Cell {
        x: cell.x,
        y: cell.y.saturating_sub(1),
    }
}

pub(crate) fn cell_below(cell: Cell) -> Cell
    ensures { result ≡ below cell }
{
    Cell {
        x: cell.x,
        y: cell.y.saturating_add(1),
    }
}
