//! The path that leads to a node.
#![tactic(auto)]

ghost use Rattle.std.specs.Prelude.{◌≡◌, ℕ, ◌+◌, ◌<◌, ◌≤◌, ◌^◌, IfOk, length};
ghost use Rattle.wh_search.specs.Frontiers.{problem, node_at, IsTrace};
ghost use Rattle.wh_motion_rows.specs.Layers.{IsReached};

use std::alloc::{AllocError, Global};
use wh_path::TimedPath;
use wh_search::errand::Errand;
use wh_search::noted::Node;

/// The path to a node, back through the nodes from which it came.
pub fn walk_back(
    alloc: Global,
    errand: &Errand,
    nodes: &[Node],
    index: usize,
) -> Result<TimedPath, AllocError>
    requires within { index < length nodes.now }
    requires reached { (i : ℕ) → i < length nodes.now → IsReached (problem errand.now) nodes.now i (node_at nodes.now i) }
    ensures { IfOk result (λ path. IsTrace (problem errand.now) path (node_at nodes.now index)) }
{
    let mut trail = Vec::new(alloc);
    let mut place = index;
    while nodes[place].time > 0 {
        trail.push(nodes[place].cell)?;
        place = nodes[place].parent as usize;
    }
    trail.push(errand.loc)?;
    trail.reverse();
    Ok(TimedPath::over(trail))
}
