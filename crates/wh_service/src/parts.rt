//! What a planner is made of.

ghost use Rattle.std.specs.Prelude.{◌≤◌};
ghost use Rattle.wh_claims.specs.Claim.{claim_amount};

use std::sync::Arc;
use wh_claims::Claim;
use wh_grid::Grid;
use wh_options::PlannerKind;

/// What one planner is made of: its kind, by how many steps its paths may be late and how many expansions a request may take
/// where it searches, the grid on which it plans, and a claim that has its slots, 2 to 64 of them.
#[derive(Drop)]
pub struct PlannerParts {
    /// The kind of the planner.
    pub kind: PlannerKind,
    /// By how many steps its paths may be late, where it searches.
    pub slack: u32,
    /// How many expansions one request may take, where it searches and they are bounded.
    pub effort: Option<u32>,
    /// The grid on which it plans.
    pub grid: Arc<Grid>,
    /// The claim that has its slots.
    pub claim: Claim,
    ghost at_least: { 2 ≤ claim_amount claim },
    ghost at_most: { claim_amount claim ≤ 64 },
}
