//! A delivery by shared fields on a small map, and a parking beyond its effort.

ghost use Rattle.std.specs.Prelude.{IfOk, ◌≡◌};
ghost use Rattle.wh_claims.specs.Claim.{claim_amount};
ghost use Rattle.wh_planner.specs.Asked.{IsDuty};

use crate::shared::{WALLED, number, read};
use std::alloc::Global;
use std::sync::Arc;
use std::test::Fail;
use wh_claims::{Bank, Claim};
use wh_grid::Cell;
use wh_path::TimedPath;
use wh_planner::{Duty, PlanFault, Plans, Scene};
use wh_planners::{Sharing, patient_path};
use wh_shared::SharedFields;
use wh_timetable::Timetable;

const STOPS: [Cell; 3] = [
    Cell { x: 6, y: 5 },
    Cell { x: 3, y: 5 },
    Cell { x: 6, y: 5 },
];

/// The two rows at y = 4 and y = 5.
const ROWS: &[u8] =
    b"type octile\nheight 6\nwidth 8\nmap\n@@@@@@@@\n@@@@@@@@\n@@@@@@@@\n@@@@@@@@\n........\n........\n";

const BEHIND: [Cell; 1] = [Cell { x: 7, y: 5 }];

fn claim(alloc: Global) -> Result<Claim, Fail>
    ensures { IfOk result (λ c. claim_amount c ≡ 2) }
{
    let (bank, seat) = Bank::new(alloc, 2)?;
    match Claim::take(bank, seat, 2) {
        Ok(claim) => Ok(claim),
        Err(_) => Err("both slots are free".into()),
    }
}

fn steps(planned: Result<TimedPath, PlanFault>) -> Option<u64> {
    match planned {
        Ok(path) => Some(path.remaining()),
        Err(_) => None,
    }
}

/// What comes of a request: the steps of the path, how many fields are kept then, in how many requests the effort was met, and the
/// steps of the patient path.
#[derive(Clone, Copy, PartialEq, Eq)]
struct Answered {
    steps: Option<u64>,
    kept: usize,
    limited: u64,
    patient: Option<u64>,
}

/// A path for a duty by shared fields, beside another that stays, where it may be late by this many steps and take this many
/// expansions.
fn planned(
    alloc: Global,
    map: &[u8],
    duty: Duty,
    slack: u32,
    effort: Option<u32>,
) -> Result<Answered, Fail>
    requires { IsDuty duty }
{
    let grid = Arc::new(alloc, read(alloc, map)?)?;
    let loc = Cell { x: 0, y: 5 };
    if !grid.passable(loc) {
        return Err("it starts at a passable cell".into());
    }
    let mut store = SharedFields::new(alloc, Arc::try_clone(&grid)?, number(4)?)?;
    let sharing = Sharing::new(alloc, Arc::try_clone(&grid)?, claim(alloc)?)?;
    let late = sharing.with_slack(slack);
    let mut planner = late.with_effort(effort);
    let other = Cell { x: 5, y: 5 };
    let paths = [TimedPath::one(alloc, loc)?, TimedPath::one(alloc, other)?];
    let cells = grid.width() as usize * grid.height() as usize;
    let all = Timetable::of(alloc, cells, &paths)?;
    let scene = Scene {
        grid: &grid,
        nofollow: true,
        paths: &all,
        agent: 0,
    };
    let path = planner.plan(alloc, &mut store, &scene, duty);
    let patient = match patient_path(alloc, &scene, duty)? {
        Some(path) => Some(path.remaining()),
        None => None,
    };
    Ok(Answered {
        steps: steps(path),
        kept: planner.kept(),
        limited: planner.limited(),
        patient,
    })
}

/// Through the stops on the map with a wall.
fn delivered(alloc: Global, slack: u32) -> Result<Answered, Fail> {
    planned(alloc, WALLED, Duty::Deliver { stops: &STOPS }, slack, None)
}

/// To the cell behind the other on the map of two rows.
fn parked(alloc: Global, effort: Option<u32>) -> Result<Answered, Fail> {
    planned(alloc, ROWS, Duty::Park { allowed: &BEHIND }, 0, effort)
}

// 16 steps to the first stop and 13 to each of the others, each time through the gap at (4, 0): no path has fewer, as a row of
// `wh_motion_rows` says
#[test]
fn a_path_by_shared_fields_is_shortest(rt: HostRuntime) -> Result<(), Fail> {
    let planned = delivered(rt.alloc(), 0)?;
    assert!(rt; planned.steps == Some(42) && planned.kept == 2);
    Ok(())
}

#[test]
fn a_path_is_late_by_the_slack_at_most(rt: HostRuntime) -> Result<(), Fail> {
    let planned = delivered(rt.alloc(), 4)?;
    let steps = planned.steps.unwrap_or(0);
    assert!(rt; 42 <= steps && steps <= 46 && planned.kept == 2);
    Ok(())
}

/// In two rows, round the other: 9 steps, and four cells before it from which no step leads nearer.
#[test]
fn beyond_its_effort_it_goes_the_patient_way(rt: HostRuntime) -> Result<(), Fail> {
    let met = Answered {
        steps: Some(9),
        kept: 0,
        limited: 1,
        patient: Some(9),
    };
    assert!(rt; parked(rt.alloc(), Some(1))? == met);
    Ok(())
}

#[test]
fn with_ample_effort_all_is_as_without(rt: HostRuntime) -> Result<(), Fail> {
    let free = parked(rt.alloc(), None)?;
    assert!(rt; parked(rt.alloc(), Some(1000))? == free && free.limited == 0);
    Ok(())
}
