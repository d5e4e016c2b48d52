//! Numbers for the cells that open cells link with one another.
#![tactic(auto)]

ghost use Rattle.std.specs.Prelude.{◌≡◌, ℕ, ◌+◌, ◌*◌, ◌<◌, ◌≤◌, ◌^◌, ◌↔◌, IsTrue, OnOk, length};
ghost use Rattle.wh_grid.specs.declared.cell.Cell.{Cell};
ghost use Rattle.wh_formed.specs.Fills.{IsMarked, place};
ghost use Rattle.wh_formed.specs.Labels.{AreLabels, AreLabelsBeside, AreLinked, AreParts, HasNumber, IsBesideNumber, MarksPassable, NumbersMore, ShareNumber};

use crate::fill::Fill;
use crate::table::{cell_of, is_inside, neighbours, place_of, places};
use std::alloc::{AllocError, Global};
use wh_grid::{Cell, Grid};

/// Numbers the cells that are linked with the cell of a place, if it is open and has no number.
fn label_from(grid: &Grid, open_cells: &[bool], fill: &mut Fill, i: usize) -> Result<(), AllocError>
    requires table { MarksPassable grid.now open_cells.now }
    requires current { fill.old.marks.current + 1 < 2 ^ 32 }
    requires inside { i < grid.now.width * grid.now.height }
    requires parts { AreParts grid.now (IsMarked grid.now open_cells.now) fill.old.marks.numbers }
    ensures current { OnOk result (fill.new.marks.current ≤ fill.old.marks.current + 1) }
    ensures more { OnOk result (NumbersMore grid.now (IsMarked grid.now open_cells.now) (λ c. place grid.now c ≡ i) fill.old.marks.numbers fill.new.marks.numbers) }
{
    if !open_cells[i] {
        return Ok(());
    }
    if fill.marks.number(i) != 0 {
        return Ok(());
    }
    fill.run_on(grid, open_cells, cell_of(grid, i))?;
    Ok(())
}

/// Numbers the cells that are linked with a cell, if it is open and has no number.
fn label_cell(
    grid: &Grid,
    open_cells: &[bool],
    fill: &mut Fill,
    cell: Cell,
) -> Result<(), AllocError>
    requires table { MarksPassable grid.now open_cells.now }
    requires current { fill.old.marks.current + 1 < 2 ^ 32 }
    requires parts { AreParts grid.now (IsMarked grid.now open_cells.now) fill.old.marks.numbers }
    ensures current { OnOk result (fill.new.marks.current ≤ fill.old.marks.current + 1) }
    ensures more { OnOk result (NumbersMore grid.now (IsMarked grid.now open_cells.now) (λ c. c ≡ cell) fill.old.marks.numbers fill.new.marks.numbers) }
{
    if !is_inside(grid, cell) {
        return Ok(());
    }
    label_from(grid, open_cells, fill, place_of(grid, cell))
}

/// Numbers the open cells one step from a cell, and what is linked with them.
pub fn label_beside(
    grid: &Grid,
    open_cells: &[bool],
    fill: &mut Fill,
    cell: Cell,
) -> Result<(), AllocError>
    requires table { MarksPassable grid.now open_cells.now }
    requires current { fill.old.marks.current + 5 < 2 ^ 32 }
    requires parts { AreParts grid.now (IsMarked grid.now open_cells.now) fill.old.marks.numbers }
    ensures current { OnOk result (fill.new.marks.current ≤ fill.old.marks.current + 5) }
    ensures labels { OnOk result (AreLabelsBeside grid.now (IsMarked grid.now open_cells.now) cell fill.new.marks.numbers) }
{
    label_cell(grid, open_cells, fill, cell)?;
    let around = neighbours(grid, cell);
    for next in &around {
        label_cell(grid, open_cells, fill, *next)?;
    }
    Ok(())
}

/// Numbers the open cells: two have the same number exactly where a walk through open cells links
/// them. All others have the number 0.
pub fn label(grid: &Grid, open_cells: &[bool], fill: &mut Fill) -> Result<(), AllocError>
    requires table { MarksPassable grid.now open_cells.now }
    requires current { fill.old.marks.current + 2 ^ 24 < 2 ^ 32 }
    requires parts { AreParts grid.now (IsMarked grid.now open_cells.now) fill.old.marks.numbers }
    ensures { OnOk result (AreLabels grid.now (IsMarked grid.now open_cells.now) fill.new.marks.numbers) }
{
    for i in 0..places(grid) {
        label_from(grid, open_cells, fill, i)?;
    }
    Ok(())
}

/// The number of a cell, 0 outside.
fn number_of(grid: &Grid, numbers: &[u32], cell: Cell) -> u32
    requires { length numbers.now ≡ grid.now.width * grid.now.height }
    ensures { (k : ℕ) → 0 < k → (result ≡ k) ↔ HasNumber grid.now numbers.now cell k }
{
    if is_inside(grid, cell) {
        numbers[place_of(grid, cell)]
    } else {
        0
    }
}

/// Whether a cell or a neighbour of it has a number.
fn is_beside_number(grid: &Grid, numbers: &[u32], cell: Cell, number: u32) -> bool
    requires size { length numbers.now ≡ grid.now.width * grid.now.height }
    requires positive { 0 < number }
    ensures { IsTrue result ↔ IsBesideNumber grid.now numbers.now cell number }
{
    let around = neighbours(grid, cell);
    for next in &around {
        if number_of(grid, numbers, *next) == number {
            return true;
        }
    }
    number_of(grid, numbers, cell) == number
}

/// Whether two cells are next to cells with one number.
fn share_number(grid: &Grid, numbers: &[u32], a: Cell, b: Cell) -> bool
    requires { length numbers.now ≡ grid.now.width * grid.now.height }
    ensures { IsTrue result ↔ ShareNumber grid.now numbers.now a b }
{
    let around = neighbours(grid, b);
    for next in &around {
        if is_beside_number_of(grid, numbers, a, *next) {
            return true;
        }
    }
    is_beside_number_of(grid, numbers, a, b)
}

/// Whether a cell or a neighbour of it has the number of another cell, which has one.
fn is_beside_number_of(grid: &Grid, numbers: &[u32], cell: Cell, other: Cell) -> bool
    requires { length numbers.now ≡ grid.now.width * grid.now.height }
    ensures { IsTrue result ↔ ((k : ℕ) × (0 < k) × HasNumber grid.now numbers.now other k × IsBesideNumber grid.now numbers.now cell k) }
{
    let number = number_of(grid, numbers, other);
    if number == 0 {
        return false;
    }
    is_beside_number(grid, numbers, cell, number)
}

/// Whether two cells are one step apart, or next to cells with one number.
pub fn are_linked(grid: &Grid, numbers: &[u32], a: Cell, b: Cell) -> bool
    requires { length numbers.now ≡ grid.now.width * grid.now.height }
    ensures { IsTrue result ↔ AreLinked grid.now numbers.now a b }
{
    if !grid.passable(a) {
        return false;
    }
    if !grid.passable(b) {
        return false;
    }
    Cell::is_move(a, b) || share_number(grid, numbers, a, b)
}
