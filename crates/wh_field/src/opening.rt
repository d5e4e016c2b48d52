//! Tables in which no walk has begun.
#![tactic(auto)]

ghost use Rattle.std.specs.Prelude.{◌≡◌, ℕ, ◌+◌, ◌*◌, ◌<◌, ◌≤◌, [], length, vec_len, vec_capacity, IfOk, IfSome, IfNone, Contains, ◌∷◌};
ghost use Rattle.wh_field.specs.Tables.{HasRoom, IsListed};
ghost use Rattle.wh_field.specs.Places.{IsAllowedAt, IsOpen, IsOpenBelow, IsStarted, IsSurveyed, IsFalling, IsLeastAt, StartsAt, StartsAgainAt};

use crate::table::{BLOCKED, Front, UNSEEN, fill, fill_until, forget, visit};
use std::alloc::{AllocError, Global};
use wh_grid::{Cell, Grid};

/// A table with the passable cells open.
pub fn open_table(alloc: Global, grid: &Grid) -> Result<Vec<u32>, AllocError>
    ensures { IfOk result (λ t. IsOpen grid.now [] t.items) }
{
    let height = grid.height();
    let places = (grid.width() as usize + 1) * (height as usize + 2);
    let mut table = Vec::with_capacity(alloc, places)?;
    close_row(&mut table, grid);
    for y in 0..height {
        open_row(&mut table, grid, y as usize);
    }
    close_row(&mut table, grid);
    Ok(table)
}

/// Appends a row with no cells.
fn close_row(table: &mut Vec<u32>, grid: &Grid)
    requires open { IsOpenBelow grid.now (vec_len table.old) table.old.items }
    requires none { (i : ℕ) → vec_len table.old ≤ i → i < vec_len table.old + (grid.now.width + 1) → IsAllowedAt grid.now [] i → ⊥ }
    requires room { vec_len table.old + (grid.now.width + 1) ≤ vec_capacity table.old }
    ensures open { IsOpenBelow grid.now (vec_len table.old + (grid.now.width + 1)) table.new.items }
    ensures room { vec_capacity table.new ≡ vec_capacity table.old }
{
    for x in 0..grid.width() as usize + 1 {
        table.push_reserved(BLOCKED);
    }
}

/// Appends a row, with its passable cells open.
fn open_row(table: &mut Vec<u32>, grid: &Grid, y: usize)
    requires inside { y < grid.now.height }
    requires above { IsOpenBelow grid.now ((y + 1) * (grid.now.width + 1)) table.old.items }
    requires room { (grid.now.width + 1) * (grid.now.height + 2) ≤ vec_capacity table.old }
    ensures open { IsOpenBelow grid.now ((y + 1 + 1) * (grid.now.width + 1)) table.new.items }
    ensures room { vec_capacity table.new ≡ vec_capacity table.old }
{
    let width = grid.width() as usize;
    let _height = grid.height();
    let cells = grid.rows();
    let before = y * width;
    for x in 0..width {
        table.push_reserved(if cells[before + x] { UNSEEN } else { BLOCKED });
    }
    table.push_reserved(BLOCKED);
}

/// The place of a cell in a table; none where the cell lies outside.
pub fn place_of(width: u16, height: u16, cell: Cell) -> Option<usize>
    ensures inside { IfSome result (λ i. (cell.x < width) × (cell.y < height) × (i ≡ (cell.y + 1) * (width + 1) + cell.x)) }
    ensures outside { IfNone result ((cell.x < width) × (cell.y < height) → ⊥) }
{
    if cell.x < width && cell.y < height {
        Some((cell.y as usize + 1) * (width as usize + 1) + cell.x as usize)
    } else {
        None
    }
}

/// Blocks some cells.
pub fn block(table: &mut [u32], grid: &Grid, avoid: &[Cell])
    requires { IsOpen grid.now [] table.old }
    ensures { IsOpen grid.now avoid.now table.new }
{
    let width = grid.width();
    let height = grid.height();
    for cell in avoid {
        if let Some(place) = place_of(width, height, *cell) {
            table[place] = BLOCKED;
        }
    }
}

/// Marks a source with 0 and lists it, where it may be walked on.
fn start(table: &mut [u32], queue: &mut Vec<u32>, width: u16, height: u16, source: Cell)
    requires few { length table.old < BLOCKED }
    requires size { length table.old ≡ (width + 1) * (height + 2) }
    requires room { HasRoom (vec_capacity queue.old) table.old queue.old.items }
    ensures started { StartsAt width height source table.old queue.old.items table.new queue.new.items }
    ensures room { HasRoom (vec_capacity queue.new) table.new queue.new.items }
{
    match place_of(width, height, source) {
        Some(place) => visit(table, queue, place, 0),
        None => {}
    }
}

/// Begins once more, from one cell, in a table that is filled up to some distance. Only what was
/// met is cleared.
pub fn begin_again(table: &mut [u32], queue: &mut Vec<u32>, width: u16, height: u16, source: Cell)
    requires few { length table.old < BLOCKED }
    requires size { length table.old ≡ (width + 1) * (height + 2) }
    requires room { HasRoom (vec_capacity queue.old) table.old queue.old.items }
    requires listed { IsListed table.old queue.old.items }
    ensures started { StartsAgainAt width height source table.old table.new queue.new.items }
    ensures room { HasRoom (vec_capacity queue.new) table.new queue.new.items }
{
    forget(table, queue);
    queue.clear();
    start(table, queue, width, height, source);
}

/// Blocks the cells to avoid in an open table, and marks and lists the sources.
pub fn begin(table: &mut [u32], queue: &mut Vec<u32>, grid: &Grid, sources: &[Cell], avoid: &[Cell])
    requires opened { IsOpen grid.now [] table.old }
    requires empty { queue.old.items ≡ [] }
    requires capacity { length table.old ≤ vec_capacity queue.old }
    ensures started { IsStarted grid.now avoid.now sources.now table.new queue.new.items }
    ensures room { HasRoom (vec_capacity queue.new) table.new queue.new.items }
{
    let width = grid.width();
    let height = grid.height();
    block(table, grid, avoid);
    for source in sources {
        start(table, queue, width, height, *source);
    }
}

/// Fills an open table with the distances from a cell.
fn mark(table: &mut [u32], queue: &mut Vec<u32>, grid: &Grid, source: Cell, avoid: &[Cell])
    requires opened { IsOpen grid.now [] table.old }
    requires empty { queue.old.items ≡ [] }
    requires capacity { length table.old ≤ vec_capacity queue.old }
    ensures { IsSurveyed grid.now avoid.now (source ∷ []) table.new }
{
    let width = grid.width();
    let _height = grid.height();
    begin(table, queue, grid, &[source], avoid);
    fill(table, queue, width as usize + 1);
}

/// How far each cell is from one cell, by walks that avoid some others.
pub fn survey(
    alloc: Global,
    grid: &Grid,
    source: Cell,
    avoid: &[Cell],
) -> Result<Vec<u32>, AllocError>
    ensures { IfOk result (λ t. IsSurveyed grid.now avoid.now (source ∷ []) t.items) }
{
    let mut table = open_table(alloc, grid)?;
    let mut queue = Vec::with_capacity(alloc, table.len())?;
    mark(&mut table, &mut queue, grid, source, avoid);
    Ok(table)
}

/// Fills an open table with the distances from a cell, until a place has one.
fn mark_until(
    table: &mut [u32],
    queue: &mut Vec<u32>,
    grid: &Grid,
    source: Cell,
    avoid: &[Cell],
    place: usize,
)
    requires opened { IsOpen grid.now [] table.old }
    requires empty { queue.old.items ≡ [] }
    requires capacity { length table.old ≤ vec_capacity queue.old }
    requires inside { place < length table.old }
    ensures falling { IsFalling grid.now avoid.now (source ∷ []) table.new }
    ensures least { IsLeastAt grid.now avoid.now source place table.new }
{
    let width = grid.width();
    let _height = grid.height();
    begin(table, queue, grid, &[source], avoid);
    let start = Front {
        head: 0,
        distance: 0,
    };
    fill_until(table, queue, width as usize + 1, start, place);
}

/// How far each cell is from one cell, by walks that avoid some others: no further than to
/// where a place has its distance.
pub fn survey_until(
    alloc: Global,
    grid: &Grid,
    source: Cell,
    avoid: &[Cell],
    place: usize,
) -> Result<Vec<u32>, AllocError>
    requires { place < (grid.now.width + 1) * (grid.now.height + 2) }
    ensures falling { IfOk result (λ t. IsFalling grid.now avoid.now (source ∷ []) t.items) }
    ensures least { IfOk result (λ t. IsLeastAt grid.now avoid.now source place t.items) }
{
    let mut table = open_table(alloc, grid)?;
    let mut queue = Vec::with_capacity(alloc, table.len())?;
    mark_until(&mut table, &mut queue, grid, source, avoid, place);
    Ok(table)
}
