//! What is asked of the other agents' paths.
#![tactic(auto)]

ghost use Rattle.std.specs.Prelude.{◌≡◌, ℕ, ◌+◌, ◌<◌, ◌++◌, IfOk, OnOk, length, map};
ghost use Rattle.wh_path.specs.Paths.{end, ends, others};

use std::alloc::{AllocError, Global};
use wh_grid::Cell;
use wh_path::TimedPath;

fn push_ends(cells: &mut Vec<Cell>, paths: &[TimedPath]) -> Result<(), AllocError>
    ensures { OnOk result (cells.new.items ≡ cells.old.items ++ map end paths.now) }
{
    for path in paths {
        cells.push(path.end())?;
    }
    Ok(())
}

/// Where the paths of all agents but one end.
pub fn other_ends(alloc: Global, paths: &[TimedPath], agent: usize) -> Result<Vec<Cell>, AllocError>
    requires { agent < length paths.now }
    ensures { IfOk result (λ cells. cells.items ≡ ends (others paths.now agent)) }
{
    let mut cells = Vec::with_capacity(alloc, paths.len())?;
    push_ends(&mut cells, &paths[..agent])?;
    push_ends(&mut cells, &paths[agent + 1..])?;
    Ok(cells)
}
