//! The patient planner: it goes its own way until all others rest, and then around them.
#![tactic(auto)]

ghost use Rattle.std.specs.Prelude.{◌≡◌, ◌<◌, ◌≤◌, ◌^◌, ◌+◌, ◌*◌, ℕ, Bool, true, List, [], ◌∷◌, IfOk, IfErr, IfSome, IfNone, length, Contains};
ghost use Rattle.wh_grid.specs.declared.cell.Cell.{Cell};
ghost use Rattle.wh_grid.specs.Grids.{Floor, same_floor};
ghost use Rattle.wh_path.specs.Paths.{at, last_index, path_of, AllFree, IsWalk};
ghost use Rattle.wh_field.specs.Distances.{IsNearestRoute};
ghost use Rattle.wh_planner.specs.Duties.{Delivers, ParksAt, IsLawful, HasNoClearWay};
ghost use Rattle.wh_planner.specs.Asked.{IsDuty, Serves, legs};
ghost use Rattle.wh_planners.specs.Patience.{IsPatient, GoesPatiently, ParksPatiently, IsPatientPath};
ghost use Rattle.wh_claims.specs.Claim.{claim_amount};
ghost use Rattle.wh_shared.specs.Shares.{stored_grid, room};

use std::alloc::{AllocError, Global};
use std::marker::Model;
use std::sync::Arc;
use wh_claims::Claim;
use wh_field::{route, route_to_nearest};
use wh_grid::{Cell, Grid};
use wh_path::{TimedPath, last_to_rest};
use wh_planner::{Duty, PlanFault, Planner, Plans, Scene, other_ends};
use wh_shared::SharedFields;

/// The path that goes the way of another until a time.
fn going_on(alloc: Global, own: &TimedPath, wait: u64) -> Result<TimedPath, AllocError>
    requires { wait < 2 ^ 61 }
    ensures goes { IfOk result (λ p. (k : ℕ) → k ≤ wait → at p k ≡ at own.now k) }
    ensures size { IfOk result (λ p. length p ≡ wait + 1) }
{
    let mut cells = Vec::with_capacity(alloc, wait as usize + 1)?;
    cells.push(own.at(0))?;
    for k in 0..wait {
        cells.push(own.at(k + 1))?;
    }
    Ok(TimedPath::over(cells))
}

/// Goes the own way until a time, and then from stop to stop by shortest routes that avoid some cells.
fn tour(
    alloc: Global,
    grid: &Grid,
    own: &TimedPath,
    wait: u64,
    stops: &[Cell],
    avoid: &[Cell],
) -> Result<Option<TimedPath>, AllocError>
    requires wait { wait < 2 ^ 61 }
    requires walk { IsWalk grid.now own.now }
    requires off { ¬ Contains avoid.now (at own.now wait) }
    ensures found { IfOk result (λ r. IfSome r (IsPatient grid.now avoid.now own.now wait stops.now (length stops.now))) }
    ensures none { IfOk result (λ r. IfNone r ((way : List Cell) → IsWalk grid.now way → at way 0 ≡ at own.now wait → ((k : ℕ) → ¬ Contains avoid.now (at way k)) → ¬ Delivers stops.now way)) }
{
    let mut path = going_on(alloc, own, wait)?;
    for i in 0..stops.len() {
        match route(alloc, grid, path.end(), stops[i], avoid)? {
            Some(leg) => path.follow(&leg)?,
            None => return Ok(None),
        }
    }
    Ok(Some(path))
}

/// The patient path through the stops. None where there is no clear way.
fn deliver(alloc: Global, scene: &Scene, stops: &[Cell]) -> Result<Option<TimedPath>, AllocError>
    requires agent { scene.now.agent < length scene.now.paths.now }
    requires walk { IsWalk scene.now.grid.now (path_of scene.now.paths.now scene.now.agent) }
    requires free { AllFree scene.now.nofollow scene.now.paths.now }
    ensures found { IfOk result (λ r. IfSome r (GoesPatiently scene.now.grid.now scene.now.paths.now scene.now.agent stops.now)) }
    ensures none { IfOk result (λ r. IfNone r (HasNoClearWay scene.now.grid.now scene.now.paths.now scene.now.agent (Delivers stops.now))) }
{
    let paths = scene.paths.paths();
    let avoid = other_ends(alloc, paths, scene.agent)?;
    let wait = last_to_rest(paths, scene.agent);
    tour(alloc, scene.grid, &paths[scene.agent], wait, stops, &avoid)
}

/// The patient path to the nearest of the allowed cells. None where there is no clear way.
fn park(alloc: Global, scene: &Scene, allowed: &[Cell]) -> Result<Option<TimedPath>, AllocError>
    requires agent { scene.now.agent < length scene.now.paths.now }
    requires walk { IsWalk scene.now.grid.now (path_of scene.now.paths.now scene.now.agent) }
    requires free { AllFree scene.now.nofollow scene.now.paths.now }
    ensures found { IfOk result (λ r. IfSome r (ParksPatiently scene.now.grid.now scene.now.paths.now scene.now.agent allowed.now)) }
    ensures none { IfOk result (λ r. IfNone r (HasNoClearWay scene.now.grid.now scene.now.paths.now scene.now.agent (ParksAt (Contains allowed.now)))) }
{
    let paths = scene.paths.paths();
    let avoid = other_ends(alloc, paths, scene.agent)?;
    let wait = last_to_rest(paths, scene.agent);
    let here = paths[scene.agent].at(wait);
    match route_to_nearest(alloc, scene.grid, here, allowed, &avoid)? {
        Some((index, leg)) => {
            let mut path = going_on(alloc, &paths[scene.agent], wait)?;
            path.follow(&leg)?;
            Ok(Some(path))
        }
        None => Ok(None),
    }
}

/// The path of the patient planner: until the others rest it goes its own way, and then around their
/// ends, from stop to stop by shortest routes, or to the nearest of the allowed cells.
pub fn patient_path(
    alloc: Global,
    scene: &Scene,
    duty: Duty,
) -> Result<Option<TimedPath>, AllocError>
    requires agent { scene.now.agent < length scene.now.paths.now }
    requires walk { IsWalk scene.now.grid.now (path_of scene.now.paths.now scene.now.agent) }
    requires free { AllFree scene.now.nofollow scene.now.paths.now }
    requires duty { IsDuty duty }
    ensures patient { IfOk result (λ r. IfSome r (IsPatientPath scene.now.grid.now scene.now.paths.now scene.now.agent duty.entry)) }
    ensures lawful { IfOk result (λ r. IfSome r (IsLawful scene.now.grid.now scene.now.nofollow scene.now.paths.now scene.now.agent (legs duty.entry) (Serves duty.entry))) }
    ensures none { IfOk result (λ r. IfNone r (HasNoClearWay scene.now.grid.now scene.now.paths.now scene.now.agent (Serves duty.entry))) }
{
    match duty {
        Duty::Deliver { stops } => deliver(alloc, scene, stops),
        Duty::Park { allowed } => park(alloc, scene, allowed),
    }
}

/// The path of the patient planner, or why there is none.
pub fn plan_patiently(alloc: Global, scene: &Scene, duty: Duty) -> Result<TimedPath, PlanFault>
    requires agent { scene.now.agent < length scene.now.paths.now }
    requires walk { IsWalk scene.now.grid.now (path_of scene.now.paths.now scene.now.agent) }
    requires free { AllFree scene.now.nofollow scene.now.paths.now }
    requires duty { IsDuty duty }
    ensures patient { IfOk result (IsPatientPath scene.now.grid.now scene.now.paths.now scene.now.agent duty.entry) }
    ensures lawful { IfOk result (IsLawful scene.now.grid.now scene.now.nofollow scene.now.paths.now scene.now.agent (legs duty.entry) (Serves duty.entry)) }
    ensures no_path { IfErr result (λ fault. fault ≡ PlanFault.NoPath → HasNoClearWay scene.now.grid.now scene.now.paths.now scene.now.agent (Serves duty.entry)) }
{
    match patient_path(alloc, scene, duty) {
        Ok(Some(path)) => Ok(path),
        Ok(None) => Err(PlanFault::NoPath),
        Err(_) => Err(PlanFault::NoMemory),
    }
}

/// Goes its own way until all others rest, and then around them. It keeps no fields, so its slots stay empty; when it is dropped,
/// its claim gives them back.
#[derive(Drop)]
pub struct Patient {
    grid: Arc<Grid>,
    claim: Claim,
}

impl Model for Patient {
    ghost use Rattle.std.specs.Prelude.{◌≤◌};
    ghost use Rattle.wh_claims.specs.Claim.{claim_amount};
    ghost use Rattle.wh_planners.specs.Patience.{Mind};

    ghost Value = { Mind };

    ghost view = { λ p. record { grid = p.grid.value; claim = p.claim } };

    ghost invariant = { λ p. (2 ≤ claim_amount p.claim) × (claim_amount p.claim ≤ 64) };
}

impl Patient {
    /// A patient planner on a grid, with the slots of a claim: 2 to 64 of them. It takes no memory.
    pub fn new(grid: Arc<Grid>, claim: Claim) -> Self
        requires at_least { 2 ≤ claim_amount claim }
        requires at_most { claim_amount claim ≤ 64 }
        ensures { result ≡ record { grid = grid.value; claim = claim } }
    {
        Patient { grid, claim }
    }
}

impl Plans for Patient {
    ghost fits_map = { λ p g. same_floor p.grid g };

    ghost slot_count = { λ p. claim_amount p.claim };

    fn fits(&self, grid: &Grid) -> bool {
        self.grid.same(grid)
    }

    fn slots(&self) -> u32
        ensures value { result ≡ claim_amount self.now.claim }
        ensures at_least { 2 ≤ result }
        ensures at_most { result ≤ 64 }
    {
        self.claim.amount()
    }

    fn plan(
        &mut self,
        alloc: Global,
        fields: &mut SharedFields,
        scene: &Scene,
        duty: Duty,
    ) -> Result<TimedPath, PlanFault>
        requires fits { same_floor self.old.grid scene.now.grid.now ≡ true }
        requires agent { scene.now.agent < length scene.now.paths.now }
        requires walk { IsWalk scene.now.grid.now (path_of scene.now.paths.now scene.now.agent) }
        requires free { AllFree scene.now.nofollow scene.now.paths.now }
        requires duty { IsDuty duty }
        ensures same { self.new ≡ self.old }
        ensures fields_stay { fields.new ≡ fields.old }
        ensures fits_stays { (g : Floor) → same_floor self.new.grid g ≡ same_floor self.old.grid g }
        ensures slots_stay { claim_amount self.new.claim ≡ claim_amount self.old.claim }
        ensures room_stays { room fields.new ≡ room fields.old }
        ensures stored_stays { stored_grid fields.new ≡ stored_grid fields.old }
        ensures patient { IfOk result (IsPatientPath scene.now.grid.now scene.now.paths.now scene.now.agent duty.entry) }
        ensures lawful { IfOk result (IsLawful scene.now.grid.now scene.now.nofollow scene.now.paths.now scene.now.agent (legs duty.entry) (Serves duty.entry)) }
        ensures no_path { IfErr result (λ fault. fault ≡ PlanFault.NoPath → HasNoClearWay scene.now.grid.now scene.now.paths.now scene.now.agent (Serves duty.entry)) }
    {
        plan_patiently(alloc, scene, duty)
    }
}

impl Planner for Patient {}
