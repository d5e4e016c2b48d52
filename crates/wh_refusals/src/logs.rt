//! The row of logs: a script is replayed, and the log of the run is verified.

ghost use Rattle.std.specs.Prelude.{◌≤◌, length};
ghost use Rattle.wh_points.specs.Points.{IsLayout};

use crate::again::{Halt, again, tell};
use crate::fleet::{bank, open};
use crate::sites::{MAP_AND_POINTS, read};
use std::alloc::{AllocError, Global};
use std::io;
use wh_edge::Site;
use wh_judge::{Verified, verify};
use wh_lines::Lines;
use wh_log::log_text;
use wh_planner::Planner;
use wh_replay::replay;
use wh_service::{Form, PlannerParts, Warehouse};

const SCRIPT: &[u8] = b"submit x A B\ntoken 0\ntick\n";

/// The log of the script with one pickup too many in its line 5.
const PICKED: &[u8] =
    b"wlog 2\nstart 0 slots 4 4\n0 submit x A B = accepted 0\n0 token 0 = took 0 path 0,1 1,1 1,0 1,1 2,1 3,1 3,0\n0 tick = clock 1 picked 1 dropped 0\nend 3\n";

/// The same log with a path in its line 4 that leaves the pickup out.
const NO_PICKUP: &[u8] =
    b"wlog 2\nstart 0 slots 4 4\n0 submit x A B = accepted 0\n0 token 0 = took 0 path 0,1 1,1 2,1 3,1 3,0\n0 tick = clock 1 picked 0 dropped 0\nend 3\n";

/// The same log without its line 6, the last.
const NO_END: &[u8] =
    b"wlog 2\nstart 0 slots 4 4\n0 submit x A B = accepted 0\n0 token 0 = took 0 path 0,1 1,1 1,0 1,1 2,1 3,1 3,0\n0 tick = clock 1 picked 0 dropped 0\n";

/// The log of the warehouse's run.
fn log_of<R: Print, P: Planner>(
    rt: &R,
    alloc: Global,
    warehouse: &Warehouse<P>,
) -> Result<Vec<u8>, Halt> {
    let (clock, slots) = (warehouse.start(), warehouse.first_slots());
    again!(rt, log_text(alloc, clock, slots, warehouse.history()))
}

/// What a text is over the site.
fn verified<R: Print>(rt: &R, alloc: Global, site: &Site, log: &[u8]) -> Result<Verified, Halt>
    requires layout { IsLayout site.now.grid site.now.points }
    requires some { 1 ≤ length site.now.points.agents }
{
    again!(rt, verify(alloc, &site.grid, &site.points, log))
}

/// Tells what a text is over the site.
fn tell_verified<R: Print>(rt: &R, alloc: Global, site: &Site, log: &[u8]) -> Result<(), Halt>
    requires layout { IsLayout site.now.grid site.now.points }
    requires some { 1 ≤ length site.now.points.agents }
{
    match verified(rt, alloc, site, log)? {
        Verified::Run { entries } => println!(rt; "run {entries}")?,
        Verified::Bad { line } => println!(rt; "bad {line}")?,
    }
    Ok(())
}

/// Serves the script to standard output.
fn serve<R: Print, P: Planner>(
    rt: &R,
    alloc: Global,
    warehouse: &mut Warehouse<P>,
) -> Result<(), Halt> {
    let mut lines = Lines::new(SCRIPT);
    let mut spares = Vec::new(alloc);
    match replay(
        &mut lines,
        alloc,
        Form::Short,
        &mut io::writer(rt),
        warehouse,
        &mut spares,
    ) {
        Ok(_) => Ok(()),
        Err(_) => Err(Halt::Unwritten),
    }
}

/// Replays the script, and tells the log of the run after a line `%%`.
fn tell_run<R: Print, P: Planner>(
    rt: &R,
    alloc: Global,
    warehouse: &mut Warehouse<P>,
) -> Result<Vec<u8>, Halt> {
    serve(rt, alloc, warehouse)?;
    tell(rt, b"%%")?;
    let log = log_of(rt, alloc, warehouse)?;
    rt.write_all(log.as_slice())?;
    Ok(log)
}

/// The log of the script's run.
fn log_of_run<R: Print, P: Planner, F: Fn(PlannerParts) -> Result<P, AllocError>>(
    rt: &R,
    alloc: Global,
    make: &F,
) -> Result<Vec<u8>, Halt>
    requires { F.IsAlwaysCallable make.now }
{
    let (bank, mut seat) = bank(rt, alloc, 1024)?;
    let mut warehouse = open(rt, alloc, &bank, &mut seat, make)?;
    let log = tell_run(rt, alloc, &mut warehouse);
    drop(warehouse);
    log
}

/// Tells what the log is over the site, and what three changes of the whole script's log are.
fn tell_each<R: Print>(rt: &R, alloc: Global, site: &Site, log: &[u8]) -> Result<(), Halt>
    requires layout { IsLayout site.now.grid site.now.points }
    requires some { 1 ≤ length site.now.points.agents }
{
    tell_verified(rt, alloc, site, log)?;
    tell_verified(rt, alloc, site, PICKED)?;
    tell_verified(rt, alloc, site, NO_PICKUP)?;
    tell_verified(rt, alloc, site, NO_END)
}

/// A script is replayed, and the log of the run is verified; three changes of the whole script's log are refused.
pub fn log_and_verify<R: Print, P: Planner, F: Fn(PlannerParts) -> Result<P, AllocError>>(
    rt: &R,
    alloc: Global,
    make: &F,
) -> Result<(), Halt>
    requires { F.IsAlwaysCallable make.now }
{
    let log = log_of_run(rt, alloc, make)?;
    let site = read(rt, alloc, MAP_AND_POINTS)?;
    let told = tell_each(rt, alloc, &site, log.as_slice());
    drop(site);
    told
}
