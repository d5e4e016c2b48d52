//! The agents' paths, entry by entry of a history.

ghost use Rattle.std.specs.Prelude.{◌≡◌, ◌∷◌, [], ◌↔◌, IfOk, IsTrue, OnOk, map, slice_set, length};
ghost use Rattle.wh_grid.specs.declared.cell.Cell.{Cell as Place};
ghost use Rattle.wh_path.specs.Paths.{advanced, at};
ghost use Rattle.wh_arrivals.specs.Standing.{paths_after, is_clock};

use std::alloc::{AllocError, Global};
use wh_event::{Entry, Event, Reply};
use wh_grid::Cell;
use wh_path::TimedPath;

/// The paths that stay at these cells.
pub fn resting(alloc: Global, starts: &[Cell]) -> Result<Vec<TimedPath>, AllocError>
    ensures { IfOk result (λ paths. paths.items ≡ map (λ cell. cell ∷ []) starts.now) }
{
    let mut paths = Vec::new(alloc);
    for start in starts {
        paths.push(TimedPath::one(alloc, *start)?)?;
    }
    Ok(paths)
}

/// These paths.
pub fn copied(alloc: Global, paths: &[TimedPath]) -> Result<Vec<TimedPath>, AllocError>
    ensures { IfOk result (λ copies. copies.items ≡ paths.now) }
{
    let mut copies = Vec::new(alloc);
    for path in paths {
        copies.push(path.copy(alloc)?)?;
    }
    Ok(copies)
}

/// Each path is a step further.
fn advance_all(paths: &mut [TimedPath])
    ensures { paths.new ≡ map advanced paths.old }
{
    for path in paths.iter_mut() {
        path.advance();
    }
}

/// The agent follows another path from now on.
fn give(
    alloc: Global,
    paths: &mut Vec<TimedPath>,
    agent: u32,
    path: &TimedPath,
) -> Result<(), AllocError>
    ensures { OnOk result (paths.new.items ≡ slice_set paths.old.items agent path.now) }
{
    if (agent as usize) < paths.len() {
        paths[agent as usize] = path.copy(alloc)?;
    }
    Ok(())
}

/// Whether the entry is a tick that was made.
pub fn is_tick(entry: &Entry) -> bool
    ensures { result ≡ is_clock entry.now.reply }
{
    matches!(&entry.reply, Reply::Clock { .. })
}

/// The paths after an entry of the history.
pub fn follow(alloc: Global, paths: &mut Vec<TimedPath>, entry: &Entry) -> Result<(), AllocError>
    ensures { OnOk result (paths.new.items ≡ paths_after entry.now.reply entry.now.event paths.old.items) }
{
    match &entry.reply {
        Reply::Took { path, .. } | Reply::Parked { path, .. } => match &entry.event {
            Event::Request { agent } => give(alloc, paths, *agent, path),
            _ => Ok(()),
        },
        Reply::Clock { .. } => {
            advance_all(paths);
            Ok(())
        }
        _ => Ok(()),
    }
}

/// Where the paths begin, over what was in the row.
pub fn write_row(row: &mut Vec<Cell>, paths: &[TimedPath]) -> Result<(), AllocError>
    ensures { OnOk result (row.new.items ≡ map (λ path. at path 0) paths.now) }
{
    row.clear();
    for path in paths {
        row.push(path.start())?;
    }
    Ok(())
}
