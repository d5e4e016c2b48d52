//! The check of an instance.
#![tactic(auto)]

ghost use Rattle.std.specs.Prelude.{◌≡◌, ℕ, ◌<◌, ◌≤◌, ◌*◌, ◌^◌, List, Bool, Some, false, IfOk, OnOk, length};
ghost use Rattle.wh_formed.specs.declared.verdict.Verdict.{Verdict};
ghost use Rattle.wh_path.specs.Paths.{cell_at};
ghost use Rattle.wh_points.specs.Points.{Layout, parkings};
ghost use Rattle.wh_formed.specs.Cuts.{AreCuts, IsFirstFailing, cells_of};
ghost use Rattle.wh_formed.specs.Fills.{IsMarked, IsOpenTable};
ghost use Rattle.wh_formed.specs.Labels.{AreLabels, AreLinked, AreParts};
ghost use Rattle.wh_formed.specs.Verdicts.{IsFirstCut, IsVerdict};

use crate::fill::Fill;
use crate::gather::verdict_of;
use crate::labels::{are_linked, label, label_beside};
use crate::table::{open_table, places};
use crate::verdict::{NoMemory, Verdict};
use rayon::prelude::*;
use std::alloc::{AllocError, Global};
use std::thread::Threads;
use wh_grid::{Cell, Grid};
use wh_points::Points;

/// The first cell after the a-th that is not linked with it.
fn first_unlinked(grid: &Grid, numbers: &[u32], cells: &[Cell], a: usize) -> Option<u32>
    requires size { length numbers.now ≡ grid.now.width * grid.now.height }
    requires few { length cells.now < 2 ^ 32 }
    requires inside { a < length cells.now }
    ensures { IsFirstFailing (λ b. AreLinked grid.now numbers.now (cell_at cells.now a) (cell_at cells.now b)) a (length cells.now) result }
{
    let from = cells[a];
    for b in a + 1..cells.len() {
        if !are_linked(grid, numbers, from, cells[b]) {
            return Some(b as u32);
        }
    }
    None
}

/// The cells of the points, in the order of their file.
fn cells_of(alloc: Global, points: &Points) -> Result<Vec<Cell>, AllocError>
    ensures cells { IfOk result (λ v. v.items ≡ cells_of points.now) }
    ensures bound { IfOk result (λ v. length v.items ≤ 4096) }
{
    points
        .as_slice()
        .iter()
        .map(|point| point.cell)
        .collect(alloc)
}

/// The first later cell that is cut off from the first one. Only what is beside that one is numbered.
fn first_cut(
    grid: &Grid,
    cells: &[Cell],
    open_cells: &[bool],
    fill: &mut Fill,
) -> Result<Option<u32>, AllocError>
    requires few { length cells.now ≤ 4096 }
    requires table { IsOpenTable grid.now cells.now open_cells.now }
    ensures current { OnOk result (fill.new.marks.current ≤ 6) }
    ensures parts { OnOk result (AreParts grid.now (IsMarked grid.now open_cells.now) fill.new.marks.numbers) }
    ensures cut { (layout : Layout) → cells_of layout ≡ cells.now → IfOk result (λ cut. (b : ℕ) → cut ≡ Some b → IsFirstCut (record { grid = grid.now; layout = layout; homes = false }) 0 b) }
{
    fill.marks.reset(places(grid))?;
    if cells.is_empty() {
        return Ok(None);
    }
    label_beside(grid, open_cells, fill, cells[0])?;
    Ok(first_unlinked(grid, fill.marks.numbers(), cells, 0))
}

/// For each point the first later one that is not joined to it, found by several threads.
fn cuts(
    rt: &(impl Threads + Sync),
    alloc: Global,
    grid: &Grid,
    numbers: &[u32],
    cells: &[Cell],
) -> Result<Vec<Option<u32>>, AllocError>
    requires size { length numbers.now ≡ grid.now.width * grid.now.height }
    requires few { length cells.now ≤ 4096 }
    ensures cuts { (layout : Layout) (open_cells : List Bool) → cells_of layout ≡ cells.now → IsOpenTable grid.now cells.now open_cells → AreLabels grid.now (IsMarked grid.now open_cells) numbers.now → IfOk result (λ v. AreCuts (record { grid = grid.now; layout = layout; homes = false }) v.items) }
    ensures bound { IfOk result (λ v. length v.items ≤ 4096) }
{
    let found: Vec<Option<u32>> = (0..cells.len())
        .into_par_iter()
        // else fewer than 2,048 points would be left to one thread
        .with_min_len(16)
        .map(
            |a: usize| -> Option<u32>
                requires size { length numbers.now ≡ grid.now.width * grid.now.height }
                requires few { length cells.now < 2 ^ 32 }
                requires inside { a < length cells.now }
                ensures { IsFirstFailing (λ b. AreLinked grid.entry.now numbers.entry.now (cell_at cells.entry.now a) (cell_at cells.entry.now b)) a (length cells.entry.now) result }
            { first_unlinked(grid, numbers, cells, a) },
        )
        .collect(rt, alloc)?;
    Ok(found)
}

/// The verdict on a site with enough parkings. Where a point is cut off from the first one, no more is numbered than what is beside
/// that one.
fn verdict_on(
    rt: &(impl Threads + Sync),
    alloc: Global,
    grid: &Grid,
    cells: &[Cell],
    open_cells: &[bool],
    fill: &mut Fill,
) -> Result<Verdict, AllocError>
    requires few { length cells.now ≤ 4096 }
    requires table { IsOpenTable grid.now cells.now open_cells.now }
    ensures { (layout : Layout) → cells_of layout ≡ cells.now → length layout.agents ≤ parkings layout → IfOk result (IsVerdict (record { grid = grid.now; layout = layout; homes = false })) }
{
    if let Some(b) = first_cut(grid, cells, open_cells, fill)? {
        return Ok(Verdict::Cut { a: 0, b });
    }
    label(grid, open_cells, fill)?;
    let cuts = cuts(rt, alloc, grid, fill.marks.numbers(), cells)?;
    Ok(verdict_of(&cuts))
}

/// Whether an instance is well-formed: there are as many parkings as agents, and any two points are
/// joined by a walk that meets no third one (Ma, Li, Kumar and Koenig, AAMAS 2017).
///
/// Parts of the grid without points are numbered, those beside the first point before all others, and then each pair of points is
/// compared. `Err` only when out of memory. The result is the same for every number of threads.
pub fn check(
    rt: &(impl Threads + Sync),
    alloc: Global,
    grid: &Grid,
    points: &Points,
) -> Result<Verdict, NoMemory>
    // Which verdict it is.
    ensures verdict { IfOk result (IsVerdict (record { grid = grid.now; layout = points.now; homes = false })) }
    // No other verdict holds.
    ensures only { (v : Verdict) → IsVerdict (record { grid = grid.now; layout = points.now; homes = false }) v → IfOk result (λ w. w ≡ v) }
{
    // The proof reads here that no cell has two points.
    points.are_apart();
    let (have, need) = (points.parkings(), points.agents().len() as u32);
    if have < need {
        return Ok(Verdict::FewParkings { have, need });
    }
    let cells = cells_of(alloc, points)?;
    let open_cells = open_table(alloc, grid, &cells)?;
    let mut fill = Fill::new(alloc);
    let verdict = verdict_on(rt, alloc, grid, &cells, &open_cells, &mut fill)?;
    Ok(verdict)
}
