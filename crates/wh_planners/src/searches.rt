//! The searches of a planner: through the stops of a task, and to a parking cell. Each is given up where it takes more
//! expansions than are left, and none are left then.
#![tactic(auto)]

ghost use Rattle.std.specs.Prelude.{◌≡◌, ℕ, ◌<◌, ◌≤◌, IfOk, IfErr, List, Contains, length};
ghost use Rattle.wh_grid.specs.declared.cell.Cell.{Cell};
ghost use Rattle.wh_path.specs.Paths.{path_of, AllFree, IsWalk};
ghost use Rattle.wh_search.specs.Deliveries.{AreStops};
ghost use Rattle.wh_planner.specs.Duties.{Delivers, ParksAt, IsLawful};
ghost use Rattle.wh_planner.specs.Asked.{IsDuty, Serves, legs};
ghost use Rattle.wh_planners.specs.Services.{HasNoService, HasNoShorter, others_of};
ghost use Rattle.wh_shared.specs.Shares.{stored_grid, room, slots};

use crate::deliver::deliver_shared;
use std::alloc::{AllocError, Global};
use wh_grid::Cell;
use wh_intervals::park_in;
use wh_path::TimedPath;
use wh_planner::{Duty, Scene};
use wh_resv::Reservations;
use wh_search::{Fault, SearchMemory};
use wh_shared::{Share, SharedFields};

/// The paths of all agents but the one that asks. Fails when out of memory, or the agent's number has
/// more than 32 bits.
fn reserve<'a>(alloc: Global, scene: &Scene<'a>) -> Result<Reservations<'a>, AllocError>
    requires agent { scene.now.agent < length scene.now.paths.now }
    ensures { IfOk result (λ r. r ≡ others_of scene.now.nofollow scene.now.paths.now scene.now.agent) }
{
    let Ok(agent) = u32::try_from(scene.agent) else {
        return Err(AllocError);
    };
    Reservations::beside(alloc, scene.paths, agent, scene.nofollow)
}

/// A lawful path through the stops that is late by no more than `slack` steps.
pub fn plan_delivery(
    alloc: Global,
    fields: &mut SharedFields,
    share: &mut Share,
    memory: &mut SearchMemory,
    scene: &Scene,
    stops: &[Cell],
    slack: u64,
    effort: &mut u64,
) -> Result<TimedPath, Fault>
    requires fits { stored_grid fields.old ≡ scene.now.grid.now }
    requires agent { scene.now.agent < length scene.now.paths.now }
    requires walk { IsWalk scene.now.grid.now (path_of scene.now.paths.now scene.now.agent) }
    requires free { AllFree scene.now.nofollow scene.now.paths.now }
    requires stops { AreStops stops.now }
    ensures room { room fields.new ≡ room fields.old }
    ensures grid { stored_grid fields.new ≡ stored_grid fields.old }
    ensures slots { slots share.new ≡ slots share.old }
    ensures lawful { IfOk result (IsLawful scene.now.grid.now scene.now.nofollow scene.now.paths.now scene.now.agent (length stops.now) (Delivers stops.now)) }
    ensures late { IfOk result (HasNoShorter scene.now.grid.now scene.now.nofollow scene.now.paths.now scene.now.agent (Delivers stops.now) slack) }
    ensures none { IfErr result (λ fault. fault ≡ Fault.NoPath → HasNoService scene.now.grid.now scene.now.nofollow scene.now.paths.now scene.now.agent (Delivers stops.now)) }
    ensures effort { effort.new ≤ effort.old }
    ensures given_up { IfErr result (λ e. e ≡ Fault.Effort → effort.new ≡ 0) }
{
    let paths = scene.paths.paths();
    let loc = paths[scene.agent].at(0);
    if !scene.grid.passable(loc) {
        return Err(Fault::NoPath);
    }
    match reserve(alloc, scene) {
        Ok(others) => match deliver_shared(
            alloc, fields, share, memory, scene.grid, &others, paths, loc, stops, slack, effort,
        ) {
            Ok(path) => Ok(path),
            Err(Fault::NoPath) => Err(Fault::NoPath),
            Err(Fault::NoMemory) => Err(Fault::NoMemory),
            Err(Fault::Effort) => Err(Fault::Effort),
        },
        Err(_) => Err(Fault::NoMemory),
    }
}

/// A lawful path to one of the allowed cells that is late by no more than `slack` steps.
pub fn plan_parking(
    alloc: Global,
    memory: &mut SearchMemory,
    scene: &Scene,
    allowed: &[Cell],
    slack: u64,
    effort: &mut u64,
) -> Result<TimedPath, Fault>
    requires agent { scene.now.agent < length scene.now.paths.now }
    requires walk { IsWalk scene.now.grid.now (path_of scene.now.paths.now scene.now.agent) }
    requires free { AllFree scene.now.nofollow scene.now.paths.now }
    ensures lawful { IfOk result (IsLawful scene.now.grid.now scene.now.nofollow scene.now.paths.now scene.now.agent 2 (ParksAt (Contains allowed.now))) }
    ensures late { IfOk result (HasNoShorter scene.now.grid.now scene.now.nofollow scene.now.paths.now scene.now.agent (ParksAt (Contains allowed.now)) slack) }
    ensures none { IfErr result (λ fault. fault ≡ Fault.NoPath → HasNoService scene.now.grid.now scene.now.nofollow scene.now.paths.now scene.now.agent (ParksAt (Contains allowed.now))) }
    ensures effort { effort.new ≤ effort.old }
    ensures given_up { IfErr result (λ e. e ≡ Fault.Effort → effort.new ≡ 0) }
{
    let paths = scene.paths.paths();
    let loc = paths[scene.agent].at(0);
    if !scene.grid.passable(loc) {
        return Err(Fault::NoPath);
    }
    match reserve(alloc, scene) {
        Ok(others) => match park_in(
            alloc, memory, scene.grid, &others, loc, allowed, slack, effort,
        ) {
            Ok(path) => Ok(path),
            Err(Fault::NoPath) => Err(Fault::NoPath),
            Err(Fault::NoMemory) => Err(Fault::NoMemory),
            Err(Fault::Effort) => Err(Fault::Effort),
        },
        Err(_) => Err(Fault::NoMemory),
    }
}

/// A lawful path for the duty that is late by no more than `slack` steps.
pub fn search_for(
    alloc: Global,
    fields: &mut SharedFields,
    share: &mut Share,
    memory: &mut SearchMemory,
    scene: &Scene,
    duty: Duty,
    slack: u64,
    effort: &mut u64,
) -> Result<TimedPath, Fault>
    requires fits { stored_grid fields.old ≡ scene.now.grid.now }
    requires agent { scene.now.agent < length scene.now.paths.now }
    requires walk { IsWalk scene.now.grid.now (path_of scene.now.paths.now scene.now.agent) }
    requires free { AllFree scene.now.nofollow scene.now.paths.now }
    requires duty { IsDuty duty }
    ensures room { room fields.new ≡ room fields.old }
    ensures grid { stored_grid fields.new ≡ stored_grid fields.old }
    ensures slots { slots share.new ≡ slots share.old }
    ensures lawful { IfOk result (IsLawful scene.now.grid.now scene.now.nofollow scene.now.paths.now scene.now.agent (legs duty.entry) (Serves duty.entry)) }
    ensures late { IfOk result (HasNoShorter scene.now.grid.now scene.now.nofollow scene.now.paths.now scene.now.agent (Serves duty.entry) slack) }
    ensures none { IfErr result (λ fault. fault ≡ Fault.NoPath → HasNoService scene.now.grid.now scene.now.nofollow scene.now.paths.now scene.now.agent (Serves duty.entry)) }
    ensures effort { effort.new ≤ effort.old }
    ensures given_up { IfErr result (λ e. e ≡ Fault.Effort → effort.new ≡ 0) }
{
    match duty {
        Duty::Deliver { stops } => {
            plan_delivery(alloc, fields, share, memory, scene, stops, slack, effort)
        }
        Duty::Park { allowed } => plan_parking(alloc, memory, scene, allowed, slack, effort),
    }
}
