//! A client that comes in after a run of two entries, which a journal tells, and how a run goes on with what a journal tells.
#![tactic(auto)]

ghost use Rattle.std.specs.Prelude.{◌≡◌, [], IfOk, Some, length, take};
ghost use Rattle.wh_points.specs.Points.{IsLayout};
ghost use Rattle.wh_journal.specs.Surviving.{HoldsLog};

use super::hosting::{Case, Left, Plan, hosts};
use super::houses::Notes;
use super::parts::{floor, patient};
use std::alloc::Global;
use std::sync::Arc;
use std::test::*;
use wh_continue::{LogFile, Setting, Start, begin_log, find_start};
use wh_desk::Warehouse;
use wh_edge::Trouble;
use wh_grid::Grid;
use wh_journal::{Journal, MemoryJournal};
use wh_planners::Patient;
use wh_points::Points;
use wh_serve::{Allowance, Client, Rights};

/// The log of a run of two entries of one caller, except for its end line.
const TWO: &[u8] =
    b"wlog 2\nstart 0 slots 4 4\n0 submit x A B = accepted 0\n0 token 0 = took 0 path 0,1 1,1 1,0 1,1 2,1 3,1 3,0\n";

/// The same with the entry that the client adds.
const THREE: &[u8] =
    b"wlog 2\nstart 0 slots 4 4\n0 submit x A B = accepted 0\n0 token 0 = took 0 path 0,1 1,1 1,0 1,1 2,1 3,1 3,0\n0 close = closed\n";

/// The same run where the request for the token was another caller's.
const OF_TWO: &[u8] =
    b"wlog 2\nstart 0 slots 4 4\n0 submit x A B = accepted 0\n1 token 0 = took 0 path 0,1 1,1 1,0 1,1 2,1 3,1 3,0\n";

/// Two patient planners.
fn crew(alloc: Global, grid: &Arc<Grid>) -> Result<Vec<Patient>, Fail> {
    let mut planners = Vec::new(alloc);
    planners.push(patient(alloc, grid)?)?;
    planners.push(patient(alloc, grid)?)?;
    Ok(planners)
}

/// Where the run that the log tells stands, on this floor. The log is made whole.
#[tactic(auto, using(crate::proofs::Begun::starts_of))]
fn started<L: LogFile>(
    alloc: Global,
    log: &mut L,
    grid: Arc<Grid>,
    points: Points,
) -> Result<Start, Fail>
    requires { IsLayout grid.value points }
    ensures log { IfOk result (λ start. HoldsLog (L.contents log.new) start.book) }
    ensures synced { IfOk result (λ _. L.synced log.new ≡ L.contents log.new) }
{
    if points.agents().is_empty() {
        return Err("two agents".into());
    }
    let slots = vec![in alloc; 4u32; points.agents().len()]?;
    let Ok(start) = find_start(alloc, Setting::new(grid, points), slots, log) else {
        return Err("it starts".into());
    };
    match begin_log(alloc, log, &start) {
        Ok(()) => Ok(start),
        Err(_) => {
            drop(start);
            Err("a log".into())
        }
    }
}

/// The warehouse with these planners that goes on with the run that the log tells.
fn goes_on<L: LogFile>(
    alloc: Global,
    log: &mut L,
    grid: Arc<Grid>,
    points: Points,
    planners: Vec<Patient>,
) -> Result<Warehouse<Patient>, Fail>
    requires { IsLayout grid.value points }
    ensures log { IfOk result (λ warehouse. HoldsLog (L.contents log.new) warehouse.book) }
    ensures synced { IfOk result (λ _. L.synced log.new ≡ L.contents log.new) }
{
    match started(alloc, log, grid, points) {
        Ok(start) => match Warehouse::resume(alloc, start.book, planners) {
            Ok(warehouse) => Ok(warehouse),
            Err(_) => Err("it goes on".into()),
        },
        Err(fault) => Err(fault),
    }
}

/// The same on map A, with two patient planners.
fn resumed<L: LogFile>(alloc: Global, log: &mut L) -> Result<Warehouse<Patient>, Fail>
    ensures log { IfOk result (λ warehouse. HoldsLog (L.contents log.new) warehouse.book) }
    ensures synced { IfOk result (λ _. L.synced log.new ≡ L.contents log.new) }
{
    let (grid, points) = floor(alloc)?;
    match crew(alloc, &grid) {
        Ok(planners) => goes_on(alloc, log, grid, points, planners),
        Err(fault) => Err(fault),
    }
}

/// The warehouse that goes on with the run that the plan's journal tells, that journal, and the plan's client, who has all rights.
pub fn begun(
    alloc: Global,
    journal: &mut MemoryJournal,
    clients: &mut Vec<Client<Patient>>,
    plan: &Plan,
) -> Result<Warehouse<Patient>, Fail>
    requires { clients.old.items ≡ [] }
    ensures log { IfOk result (λ warehouse. HoldsLog (Some journal.new.held.items) warehouse.book) }
    ensures synced { IfOk result (λ _. Some (take journal.new.safe journal.new.held.items) ≡ Some journal.new.held.items) }
    ensures one { IfOk result (λ _. length clients.new.items ≡ 1) }
{
    clients.push(Client {
        spares: Vec::new(alloc),
        allowance: Allowance {
            rights: Rights::all(),
            entries: plan.share,
            before: 0,
        },
    })?;
    if journal.append(plan.before).is_err() {
        return Err("there is memory".into());
    }
    let warehouse = resumed(alloc, journal)?;
    journal.has_failed = plan.has_failed;
    Ok(warehouse)
}

/// How these runs are hosted: each has room for one entry more, and the client is alone.
const ALONE: Plan = Plan {
    before: TWO,
    sends: &[b"begin 0123456789abcdef\nclose\n"],
    at_once: 2,
    entries: 1,
    share: 3,
    worker: None,
    has_screen: false,
    has_failed: false,
};

/// Whether the doors were told what must not come here.
fn is_odd(notes: &Notes) -> bool {
    !notes.fulls.is_empty() || notes.ended.is_some()
}

/// Whether the client found the two entries and added its own, and the journal has all three.
pub fn closes_it(ran: &Left, notes: &Notes) -> bool {
    notes.told.as_slice() == b"entries 2 0123456789abcdef\nclosed\n".as_slice()
        && !is_odd(notes)
        && ran.history.warehouse.history().len() == 3
        && ran.connections.as_slice() == [1].as_slice()
        && ran.is_whole
        && ran.journal.held.as_slice() == THREE
        && ran.journal.safe == THREE.len()
        && ran.worker.is_none()
        && ran.screen.is_none()
        && ran.last.is_ok()
}

#[test]
fn client_goes_on(rt: HostRuntime) -> Result<(), Fail> {
    assert!(rt; hosts(&rt, rt.alloc(), Case::GoesOn, &ALONE)?);
    Ok(())
}

/// Whether the run was refused before a door was opened.
pub fn comes_to_nothing(trouble: Trouble, notes: &Notes, opened: u64) -> bool {
    matches!(trouble, Trouble::Differs) && opened == 0 && !is_odd(notes)
}

#[test]
fn an_entry_is_nobodys(rt: HostRuntime) -> Result<(), Fail> {
    let plan = Plan {
        before: OF_TWO,
        ..ALONE
    };
    assert!(rt; hosts(&rt, rt.alloc(), Case::Nobodys, &plan)?);
    Ok(())
}
