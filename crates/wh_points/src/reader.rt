//! Reading a points file.

ghost use Rattle.std.specs.Prelude.{◌≡◌, ◌+◌, ◌<◌, ◌≤◌, ◌^◌, List, ℕ, Ok, IfOk, IfErr, length};
ghost use Rattle.wh_text.specs.Lines.{lines_of};
ghost use Rattle.wh_points.specs.PointFiles.{layout_at, fault_of, Gives, IsWithin, IsFirst};
ghost use Rattle.wh_points.specs.Points.{Layout, IsLayout};
ghost use Rattle.wh_points.specs.PointGrammar.{IsPointsFile};

use crate::draft::Draft;
use crate::fault::{Fault, PointFault, Refused};
use crate::layout::Points;
use std::alloc::Global;
use wh_grid::Grid;
use wh_text::Lines;

/// The refusal of a line, at its number.
fn located(refused: Refused, line: u64) -> PointFault
    ensures { result ≡ fault_of line refused }
{
    match refused {
        Refused::NoMemory => PointFault::NoMemory,
        Refused::Line(kind) => PointFault::At(Fault { kind, line }),
    }
}

fn read_all(alloc: Global, grid: &Grid, text: &[u8]) -> Result<Points, PointFault>
    ensures { Gives result (layout_at grid.now text.now) }
{
    let mut draft = Draft::new(alloc);
    let mut lines = Lines::new(text);
    while let Some(line) = lines.next_line() {
        draft = match draft.line(grid, line) {
            Ok(more) => more,
            Err(refused) => return Err(located(refused, lines.count())),
        };
    }
    match draft.finish(lines.count()) {
        Ok(points) => Ok(points),
        Err(fault) => Err(PointFault::At(fault)),
    }
}

impl Points {
    /// The points of a points file's text, on their grid. It takes time linear in the text.
    /// An error is `NoMemory`, or the fault of the first line that has one; where only an agent is missing, that
    /// is a fault of the line after the last.
    pub fn read(alloc: Global, grid: &Grid, text: &[u8]) -> Result<Points, PointFault>
        // What is read is a points file, and this layout is what its lines spell.
        ensures found { IfOk result (IsPointsFile grid.now (lines_of text.now)) }
        // Each points file is read, unless memory runs out.
        ensures only { (layout : Layout) → IsPointsFile grid.now (lines_of text.now) layout → Gives result (Ok layout) }
        // Which layout it is, or which fault at which line.
        ensures exact { Gives result (layout_at grid.now text.now) }
        ensures layout { IfOk result (IsLayout grid.now) }
        ensures agents { IfOk result (λ layout. 1 ≤ length layout.agents) }
        ensures line { IfErr result (IsWithin (length (lines_of text.now) + 1)) }
        // Nothing that stands after the fault's line changes it.
        ensures first { IfErr result (IsFirst grid.now (lines_of text.now)) }
    {
        read_all(alloc, grid, text)
    }
}
