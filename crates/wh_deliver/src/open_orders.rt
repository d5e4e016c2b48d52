//! What stays open, as a text.

ghost use Rattle.std.specs.Prelude.{◌≡◌, ◌≤◌, ◌<◌, ◌++◌, drop, decimal, length, IfOk, IfSome, OnOk, List};
ghost use Rattle.wh_tasks.specs.Tasks.{IsTask};
ghost use Rattle.wh_path.specs.Paths.{place_of};
ghost use Rattle.wh_deliver.specs.OpenOrders as orders;
ghost use Rattle.wh_deliver.specs.OpenOrders.{IsFirstBarring, bar_line, head_text, lines_from, open_text, undelivered};

use arrayvec::ArrayVec;
use std::alloc::{AllocError, Global};
use wh_event::put_number;
use wh_grid::Cell;
use wh_planner::Plans;
use wh_replay::Warehouse;
use wh_tasks::{Counts, Task, TaskSet};

/// Whether one of the cells is this one.
fn has(cells: &[Cell], here: Cell) -> bool
    ensures { result ≡ orders.has cells.now here }
{
    for cell in cells {
        if here.x == cell.x && here.y == cell.y {
            return true;
        }
    }
    false
}

/// Whether the cell is a stop of the task, and not its last.
fn bars(task: &Task, here: Cell) -> bool
    ensures { result ≡ orders.bars task.now here }
{
    let last = task.delivery();
    has(task.stops.as_slice(), here) && !(last.x == here.x && last.y == here.y)
}

/// The first agent, from this one on, that rests at a stop of the task and not at its last.
fn next<P: Plans>(warehouse: &Warehouse<P>, task: &Task, from: u32) -> Option<u32>
    ensures agent { IsFirstBarring task.now warehouse.now.book.state.paths from result }
    ensures few { IfSome result (λ agent. agent < 256) }
{
    let agents = warehouse.agents();
    for agent in from..agents {
        if warehouse.remaining(agent) == 0 && bars(task, warehouse.cell(agent)) {
            return Some(agent);
        }
    }
    None
}

/// The two lowest agents that bar the task, where it is open and two do.
fn pair<P: Plans>(warehouse: &Warehouse<P>, task: &Task) -> Option<(u32, u32)>
    ensures { result ≡ orders.pair warehouse.now.book.state.paths task.now }
{
    if task.agent.is_some() {
        return None;
    }
    let Some(one) = next(warehouse, task, 0) else {
        return None;
    };
    match next(warehouse, task, one + 1) {
        Some(other) => Some((one, other)),
        None => None,
    }
}

/// Adds a text of a few bytes, and a number behind it.
fn push_number(out: &mut Vec<u8>, text: &[u8], number: u64) -> Result<(), AllocError>
    requires { length text.now ≤ 44 }
    ensures { OnOk result (out.new.items ≡ out.old.items ++ (text.now ++ decimal number)) }
{
    let mut line = ArrayVec::new();
    put_number(&mut line, text, number);
    out.extend_from_slice(line.as_slice())
}

/// Adds the line of a task that two agents bar.
fn push_bar(out: &mut Vec<u8>, task: u32, one: u32, other: u32) -> Result<(), AllocError>
    ensures { OnOk result (out.new.items ≡ out.old.items ++ bar_line task (one, other)) }
{
    push_number(out, b"standstill ", u64::from(task))?;
    push_number(out, b" ", u64::from(one))?;
    push_number(out, b" ", u64::from(other))?;
    out.push(b'\n')?;
    Ok(())
}

/// How many tasks are not delivered.
fn undelivered(tasks: &TaskSet) -> u64
    ensures { result ≡ undelivered tasks.now.tasks }
{
    let Counts {
        open_tasks,
        assigned,
        carried,
        ..
    } = tasks.counts();
    u64::from(open_tasks) + u64::from(assigned) + u64::from(carried)
}

/// Adds the line that tells how many orders are open, if some are.
fn push_head(out: &mut Vec<u8>, count: u64) -> Result<(), AllocError>
    ensures { OnOk result (out.new.items ≡ out.old.items ++ head_text count) }
{
    if count == 0 {
        return Ok(());
    }
    push_number(out, b"orders open: ", count)?;
    out.push(b'\n')?;
    Ok(())
}

/// Tells what is open: how many orders are accepted and not delivered, if some are, and of each that two agents bar, by number, the two
/// lowest of these agents. Fails when out of memory.
pub fn open_text<P: Plans>(alloc: Global, warehouse: &Warehouse<P>) -> Result<Vec<u8>, AllocError>
    ensures { IfOk result (λ text. text.items ≡ open_text warehouse.now.book.state) }
{
    let mut out = Vec::new(alloc);
    let tasks = warehouse.book().tasks();
    push_head(&mut out, undelivered(tasks))?;
    for n in 0..tasks.len() {
        match pair(warehouse, tasks.task(n)) {
            Some((one, other)) => push_bar(&mut out, n, one, other)?,
            None => {}
        }
    }
    Ok(out)
}
