//! From the answers of all points to the verdict.
#![tactic(auto)]

ghost use Rattle.std.specs.Prelude.{◌<◌, ◌≤◌, ◌^◌, length};
ghost use Rattle.wh_points.specs.Points.{Site, parkings};
ghost use Rattle.wh_formed.specs.Cuts.{AreCuts};
ghost use Rattle.wh_formed.specs.Verdicts.{IsVerdict};

use crate::verdict::Verdict;

/// The verdict on an instance with enough parkings, from the first cut of each point: the first
/// point that has one wins.
pub fn verdict_of(cuts: &[Option<u32>]) -> Verdict
    requires { length cuts.now < 2 ^ 32 }
    ensures { (site : Site) → length site.layout.agents ≤ parkings site.layout → AreCuts site cuts.now → IsVerdict site result }
{
    for a in 0..cuts.len() {
        if let Some(b) = cuts[a] {
            return Verdict::Cut { a: a as u32, b };
        }
    }
    Verdict::Formed
}
