//! The planner that searches for a path that is shortest, or late by no more than a slack, guided by distance fields that
//! all planners share. A request that takes more expansions than its effort it answers as the patient planner does.
#![tactic(auto)]

ghost use Rattle.std.specs.Prelude.{◌≡◌, ◌≢◌, ◌+◌, ◌<◌, ◌≤◌, ◌^◌, IfOk, IfErr, IfSome, None, Some, [], length};
ghost use Rattle.wh_grid.specs.Grids.{Floor, same_floor};
ghost use Rattle.wh_path.specs.Paths.{path_of, AllFree, IsWalk};
ghost use Rattle.wh_planner.specs.Duties.{IsLawful, HasNoClearWay};
ghost use Rattle.wh_planner.specs.Asked.{IsDuty, Serves, legs};
ghost use Rattle.wh_claims.specs.Claim.{claim_amount};
ghost use Rattle.wh_planners.specs.Patience.{IsPatientPath};
ghost use Rattle.wh_planners.specs.Services.{HasNoService, HasNoShorter};
ghost use Rattle.wh_shared.specs.Shares.{stored_grid, room};

use crate::patient::plan_patiently;
use crate::searches::search_for;
use std::alloc::{AllocError, Global};
use std::marker::Model;
use std::num::NonZeroUsize;
use std::sync::Arc;
use wh_claims::Claim;
use wh_grid::Grid;
use wh_path::TimedPath;
use wh_planner::{Duty, PlanFault, Planner, Plans, Scene};
use wh_search::{Fault, SearchMemory};
use wh_shared::{Share, SharedFields};

/// How many expansions a request may take; where they are not bounded, more than any takes.
fn most_of(effort: Option<u32>) -> u64
    ensures { IfSome effort (λ n. result ≡ n) }
{
    match effort {
        Some(most) => u64::from(most),
        None => u64::MAX,
    }
}

/// One more request in which the effort was met; none where there is no effort, or the number would be too great.
fn one_more(effort: Option<u32>, limited: u64) -> Option<u64>
    ensures next { IfSome result (λ n. n ≡ limited + 1) }
    ensures bounded { IfSome result (λ n. effort ≢ None) }
{
    match effort {
        Some(_) => limited.checked_add(1),
        None => None,
    }
}

/// Searches for a shortest path, or one that is late by no more than a slack, by fields that are lent to it, and counts one
/// as kept for each slot of its claim. Where the search takes more expansions than its effort, it goes the patient way, and
/// counts that. When it is dropped, its claim gives the slots back.
#[derive(Drop)]
pub struct Sharing {
    grid: Arc<Grid, Global>,
    claim: Claim,
    share: Share,
    memory: SearchMemory,
    slack: u32,
    effort: Option<u32>,
    limited: u64,
    expanded: u64,
}

impl Model for Sharing {
    ghost use Rattle.wh_shared.specs.Shares.{kept_stops};
    ghost use Rattle.wh_planners.specs.Sharing.{Sharer, HasShare};

    ghost Value = { Sharer };

    ghost view = { λ n. record { grid = n.grid.value; claim = n.claim; kept = kept_stops n.share; slack = n.slack; effort = n.effort; limited = n.limited; expanded = n.expanded } };

    ghost invariant = { λ n. HasShare n.claim n.share };
}

impl Sharing {
    /// A planner on a grid that searches for shortest paths, with the slots of a claim: 2 to 64 of them, that counts no
    /// field as kept yet. Fails when out of memory, and the claim is dropped.
    pub fn new(alloc: Global, grid: Arc<Grid, Global>, claim: Claim) -> Result<Sharing, AllocError>
        requires at_least { 2 ≤ claim_amount claim }
        requires at_most { claim_amount claim ≤ 64 }
        ensures grid { IfOk result (λ n. n.grid ≡ grid.value) }
        ensures claim { IfOk result (λ n. n.claim ≡ claim) }
        ensures kept { IfOk result (λ n. n.kept ≡ []) }
        ensures slack { IfOk result (λ n. n.slack ≡ 0) }
        ensures effort { IfOk result (λ n. n.effort ≡ None) }
        ensures limited { IfOk result (λ n. n.limited ≡ 0) }
    {
        let Some(most) = NonZeroUsize::new(claim.amount() as usize) else {
            unreachable!()
        };
        let share = Share::new(alloc, most)?;
        Ok(Sharing {
            grid,
            claim,
            share,
            memory: SearchMemory::empty(alloc),
            slack: 0,
            effort: None,
            limited: 0,
            expanded: 0,
        })
    }

    /// The same planner, whose paths may be late by this many steps.
    pub fn with_slack(self, slack: u32) -> Sharing
        ensures { result ≡ record { grid = self.grid; claim = self.claim; kept = self.kept; slack = slack; effort = self.effort; limited = self.limited; expanded = self.expanded } }
    {
        Sharing { slack, ..self }
    }

    /// The same planner, whose requests may take this many expansions each, or as many as they need.
    pub fn with_effort(self, effort: Option<u32>) -> Sharing
        ensures { result ≡ record { grid = self.grid; claim = self.claim; kept = self.kept; slack = self.slack; effort = effort; limited = self.limited; expanded = self.expanded } }
    {
        Sharing { effort, ..self }
    }

    /// In how many requests the effort was met, so that the planner went the patient way.
    pub fn limited(&self) -> u64
        ensures { result ≡ self.now.limited }
    {
        self.limited
    }

    /// How many expansions the last request took.
    pub fn expanded(&self) -> u64
        ensures { result ≡ self.now.expanded }
    {
        self.expanded
    }

    /// How many distance fields it counts as kept at the moment: no more than its slots.
    pub fn kept(&self) -> usize
        ensures value { result ≡ length self.now.kept }
        ensures at_most { result ≤ claim_amount self.now.claim }
    {
        self.share.kept()
    }
}

impl Plans for Sharing {
    ghost fits_map = { λ n g. same_floor n.grid g };

    ghost slot_count = { λ n. claim_amount n.claim };

    fn fits(&self, grid: &Grid) -> bool {
        self.grid.same(grid)
    }

    fn slots(&self) -> u32
        ensures value { result ≡ claim_amount self.now.claim }
        ensures at_least { 2 ≤ result }
        ensures at_most { result ≤ 64 }
    {
        self.claim.amount()
    }

    fn plan(
        &mut self,
        alloc: Global,
        fields: &mut SharedFields,
        scene: &Scene,
        duty: Duty,
    ) -> Result<TimedPath, PlanFault>
        requires stored { stored_grid fields.old ≡ scene.now.grid.now }
        requires agent { scene.now.agent < length scene.now.paths.now }
        requires walk { IsWalk scene.now.grid.now (path_of scene.now.paths.now scene.now.agent) }
        requires free { AllFree scene.now.nofollow scene.now.paths.now }
        requires duty { IsDuty duty }
        ensures grid_stays { self.new.grid ≡ self.old.grid }
        ensures claim_stays { self.new.claim ≡ self.old.claim }
        ensures slack_stays { self.new.slack ≡ self.old.slack }
        ensures effort_stays { self.new.effort ≡ self.old.effort }
        ensures fits_stays { (g : Floor) → same_floor self.new.grid g ≡ same_floor self.old.grid g }
        ensures slots_stay { claim_amount self.new.claim ≡ claim_amount self.old.claim }
        ensures room_stays { room fields.new ≡ room fields.old }
        ensures stored_stays { stored_grid fields.new ≡ stored_grid fields.old }
        ensures lawful { IfOk result (IsLawful scene.now.grid.now scene.now.nofollow scene.now.paths.now scene.now.agent (legs duty.entry) (Serves duty.entry)) }
        ensures late { self.new.limited ≡ self.old.limited → IfOk result (HasNoShorter scene.now.grid.now scene.now.nofollow scene.now.paths.now scene.now.agent (Serves duty.entry) self.old.slack) }
        ensures none { self.new.limited ≡ self.old.limited → IfErr result (λ fault. fault ≡ PlanFault.NoPath → HasNoService scene.now.grid.now scene.now.nofollow scene.now.paths.now scene.now.agent (Serves duty.entry)) }
        ensures no_path { IfErr result (λ fault. fault ≡ PlanFault.NoPath → HasNoClearWay scene.now.grid.now scene.now.paths.now scene.now.agent (Serves duty.entry)) }
        ensures patient { self.new.limited ≢ self.old.limited → IfOk result (IsPatientPath scene.now.grid.now scene.now.paths.now scene.now.agent duty.entry) }
        ensures expanded { IfSome self.old.effort (λ most. self.new.expanded ≤ most) }
        ensures limited { self.new.limited ≢ self.old.limited → self.old.effort ≡ Some self.new.expanded }
        ensures unlimited { self.old.effort ≡ None → self.new.limited ≡ self.old.limited }
    {
        let slack = u64::from(self.slack);
        let most = most_of(self.effort);
        let mut left = most;
        let found = search_for(
            alloc,
            fields,
            &mut self.share,
            &mut self.memory,
            scene,
            duty,
            slack,
            &mut left,
        );
        self.expanded = most - left;
        match found {
            Ok(path) => Ok(path),
            Err(Fault::NoPath) => Err(PlanFault::NoPath),
            Err(Fault::NoMemory) => Err(PlanFault::NoMemory),
            Err(Fault::Effort) => {
                let Some(limited) = one_more(self.effort, self.limited) else {
                    return Err(PlanFault::NoMemory);
                };
                self.limited = limited;
                plan_patiently(alloc, scene, duty)
            }
        }
    }
}

impl Planner for Sharing {}
