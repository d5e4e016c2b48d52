//! How far each cell is from the nearest of several cells, no further than asked.
#![tactic(auto)]

ghost use Rattle.std.specs.Prelude.{◌≡◌, ℕ, ◌+◌, ◌*◌, ◌<◌, ◌≤◌, [], length, drop, vec_capacity, IfOk, Some};
ghost use Rattle.wh_field.specs.Distances.{IsNearestDistance};
ghost use Rattle.wh_field.specs.Nearest.{nearest_capped};
ghost use Rattle.wh_field.specs.Places.{IsOpen, IsSurveying};
ghost use Rattle.wh_field.specs.Tables.{HasRoom, IsListed};

use crate::growing::{MOST_LEVEL, level_of};
use crate::opening::{begin, open_table, place_of};
use crate::table::{Front, fill_level, fill_until};
use std::alloc::{AllocError, Global};
use std::marker::Model;
use std::snapshot::Snapshot;
use wh_grid::{Cell, Grid};

/// How far each cell of a grid is from the nearest of several cells, its sources, up to a level: the
/// distances up to it are known. It is filled as far as one cell at first, and all of it where asked.
#[derive(Drop)]
pub struct NearestField {
    grid: Snapshot<Grid>,
    sources: Vec<Cell>,
    width: u16,
    height: u16,
    table: Vec<u32>,
    queue: Vec<u32>,
    front: Front,
    level: u32,
}

impl Model for NearestField {
    ghost use Rattle.wh_field.specs.Fields.{Sources};
    ghost use Rattle.wh_field.specs.Nearest.{nearest_sources, IsNearestField};

    ghost Value = { Sources };

    ghost view = { nearest_sources };

    ghost invariant = { IsNearestField };
}

/// Fills an open table with the distances from the nearest source, layer by layer until a cell has
/// its own.
fn mark_to(
    table: &mut [u32],
    queue: &mut Vec<u32>,
    grid: &Grid,
    sources: &[Cell],
    cell: Cell,
) -> Front
    requires opened { IsOpen grid.now [] table.old }
    requires empty { queue.old.items ≡ [] }
    requires capacity { length table.old ≤ vec_capacity queue.old }
    ensures surveying { IsSurveying grid.now [] sources.now result.distance table.new (drop result.head queue.new.items) }
    ensures head { result.head ≤ length queue.new.items }
    ensures room { HasRoom (vec_capacity queue.new) table.new queue.new.items }
    ensures listed { IsListed table.new queue.new.items }
    ensures reached { (n : ℕ) → IsNearestDistance grid.now sources.now cell (Some n) → n ≤ result.distance }
{
    let width = grid.width();
    let height = grid.height();
    begin(table, queue, grid, sources, &[]);
    let start = Front {
        head: 0,
        distance: 0,
    };
    match place_of(width, height, cell) {
        Some(place) => fill_until(table, queue, width as usize + 1, start, place),
        None => start,
    }
}

impl NearestField {
    /// The distances from several cells over a grid, no further than to where one cell has its own.
    /// Those that are blocked or outside count for nothing. Needs eight bytes per cell; fails when out of memory. No other
    /// call takes memory.
    pub fn until(
        alloc: Global,
        grid: &Grid,
        sources: &[Cell],
        cell: Cell,
    ) -> Result<Self, AllocError>
        ensures grid { IfOk result (λ f. f.grid ≡ grid.now) }
        ensures sources { IfOk result (λ f. f.cells ≡ sources.now) }
        ensures reached { IfOk result (λ f. (n : ℕ) → IsNearestDistance grid.now sources.now cell (Some n) → n ≤ f.level) }
    {
        let mut table = open_table(alloc, grid)?;
        let mut queue = Vec::with_capacity(alloc, table.len())?;
        let front = mark_to(&mut table, &mut queue, grid, sources, cell);
        let level = level_of(front, queue.len());
        Ok(NearestField {
            grid: Snapshot::of(grid),
            sources: Vec::from_slice(alloc, sources)?,
            width: grid.width(),
            height: grid.height(),
            table,
            queue,
            front,
            level,
        })
    }

    /// Fills the rest, so that all distances are known.
    pub fn fill(&mut self)
        ensures { self.new ≡ record self.old { level = MOST_LEVEL } }
    {
        let stride = self.width as usize + 1;
        self.front = fill_level(
            &mut self.table,
            &mut self.queue,
            stride,
            self.front,
            MOST_LEVEL,
        );
        self.level = MOST_LEVEL;
    }

    /// The distance from the nearest source as far as the level; one more than that where it is
    /// farther, or there is no walk.
    pub fn estimate(&self, cell: Cell) -> u32
        ensures { result ≡ nearest_capped self.now.grid self.now.cells self.now.level cell }
    {
        match place_of(self.width, self.height, cell) {
            Some(place) => self.table[place].min(self.level + 1),
            None => self.level + 1,
        }
    }
}
