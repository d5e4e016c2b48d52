//! Worked rows, call by call: a call that was refused for lack of memory is made again.
//!
//! Proved: it is safe, and keeps what the calls require. `tests/calls_made_again.py` runs it with each request for
//! memory refused in turn.
#![tactic(auto)]

mod again;
mod desks;
mod fleet;
mod logs;
mod machine;
mod sites;
mod standing;

use again::{Halt, tell};
use desks::desk_receipts;
use logs::log_and_verify;
use machine::{one_delivery, replace_and_spares, two_agents_cross};
use sites::{checks, line_ends};
use std::alloc::AllocError;
use std::process::ExitCode;
use std::sync::Wait;
use std::thread::Threads;
use std::{env, io};
use wh_planner::Planner;
use wh_planners::Sharing;
use wh_service::PlannerParts;

/// The rows, in the order in which they are run.
#[derive(Clone, Copy)]
enum Row {
    LineEnds,
    Checks,
    OneDelivery,
    TwoAgentsCross,
    ReplaceAndSpares,
    DeskReceipts,
    LogAndVerify,
}

/// Each row with its name.
const ROWS: [(&str, Row); 7] = [
    ("line_ends", Row::LineEnds),
    ("checks", Row::Checks),
    ("one_delivery", Row::OneDelivery),
    ("two_agents_cross", Row::TwoAgentsCross),
    ("replace_and_spares", Row::ReplaceAndSpares),
    ("desk_receipts", Row::DeskReceipts),
    ("log_and_verify", Row::LogAndVerify),
];

/// Goes through a row.
fn run<
    R: AllocGlobal + Print + Threads + Wait + Sync,
    P: Planner,
    F: Fn(PlannerParts) -> Result<P, AllocError>,
>(rt: &R, row: Row, make: &F) -> Result<(), Halt>
    requires { F.IsAlwaysCallable make.now }
{
    let alloc = rt.alloc();
    match row {
        Row::LineEnds => line_ends(rt, alloc),
        Row::Checks => checks(rt, alloc),
        Row::OneDelivery => one_delivery(rt, alloc, make),
        Row::TwoAgentsCross => two_agents_cross(rt, alloc, make),
        Row::ReplaceAndSpares => replace_and_spares(rt, alloc, make),
        Row::DeskReceipts => desk_receipts(rt, alloc, make),
        Row::LogAndVerify => log_and_verify(rt, alloc, make),
    }
}

/// Goes through the row of the name, or through all of them, each after a line with its name.
fn run_named<
    R: AllocGlobal + Print + Threads + Wait + Sync,
    P: Planner,
    F: Fn(PlannerParts) -> Result<P, AllocError>,
>(rt: &R, wanted: Option<&str>, make: &F) -> Result<(), Halt>
    requires { F.IsAlwaysCallable make.now }
{
    let mut found = false;
    for (name, row) in ROWS.iter() {
        if wanted.is_none_or(|wanted| wanted == *name) {
            found = true;
            tell(rt, name.as_bytes())?;
            run(rt, *row, make)?;
        }
    }
    if found { Ok(()) } else { Err(Halt::Odd) }
}

/// The name of the row that is wanted, if the process's words have one.
fn wanted_row<R: env::Env + AllocGlobal>(rt: &R) -> io::Result<Option<String>> {
    Ok(env::args(rt)?.nth(1))
}

/// Does what the process's words ask for. All planners are made here.
fn obey<R: AllocGlobal + Print + env::Env + Threads + Wait + Sync>(rt: &R) -> Result<(), Halt> {
    let alloc = rt.alloc();
    let make = |parts: PlannerParts| -> Result<Box<dyn Planner>, AllocError> {
        let sharing = Sharing::new(alloc, parts.grid, parts.claim)?;
        let planner: Box<dyn Planner> = Box::new(alloc, sharing)?;
        Ok(planner)
    };
    match wanted_row(rt) {
        Ok(Some(wanted)) => run_named(rt, Some(wanted.as_str()), &make),
        Ok(None) => run_named(rt, None, &make),
        Err(error) if error.kind() == io::ErrorKind::OutOfMemory => Err(Halt::NoMemory),
        Err(_) => Err(Halt::Odd),
    }
}

fn main(rt: HostRuntime) -> ExitCode {
    match obey(&rt) {
        Ok(()) => ExitCode::SUCCESS,
        Err(Halt::NoMemory) => {
            let _ = eprintln!(rt; "refused E90");
            ExitCode::from(4)
        }
        Err(Halt::Unwritten) => ExitCode::from(3),
        Err(Halt::Odd) => ExitCode::from(1),
    }
}
