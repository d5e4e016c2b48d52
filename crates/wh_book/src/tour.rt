//! Where an agent goes for a task.
#![tactic(auto)]

ghost use Rattle.std.specs.Prelude.{◌≡◌, ◌<◌, ◌≤◌, ◌↔◌, List, length};
ghost use Rattle.wh_grid.specs.declared.cell.Cell.{Cell as Place};
ghost use Rattle.wh_tasks.specs.Tasks.{visited, stops_left};
ghost use Rattle.wh_planner.specs.Duties.{Delivers};
ghost use Rattle.wh_core.specs.Steps.{homeward};

use arrayvec::ArrayVec;
use wh_grid::Cell;
use wh_tasks::Task;

/// Through the stops of the task that are left, and then home if paths go on home. Where that is one cell it is told twice, which asks
/// for the same paths. It takes no memory.
pub fn tour_left(homes: bool, home: Cell, task: &Task) -> ArrayVec<Cell, 9>
    requires left { visited task.now < length task.now.stops }
    requires two { 2 ≤ length task.now.stops }
    requires eight { length task.now.stops ≤ 8 }
    ensures same { (path : List Place) → Delivers result.items path ↔ Delivers (homeward homes home (stops_left task.now)) path }
    ensures few { length result.items ≤ length (homeward homes home task.now.stops) }
    ensures two { 2 ≤ length result.items }
    ensures nine { length result.items ≤ 9 }
{
    let seen = task.visits.as_slice().len();
    let mut cells = ArrayVec::new();
    for stop in &task.stops.as_slice()[seen..] {
        cells.push(*stop);
    }
    if homes {
        cells.push(home);
    }
    if cells.len() == 1 {
        cells.push(cells[0]);
    }
    cells
}
