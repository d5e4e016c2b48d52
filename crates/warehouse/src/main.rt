//! The program: makes the boxed planners, and joins the call of `wh_program` to the process.
//!
//! Proved: the planners plan on the grid handed to them and have their claim's slots.
//!
//! The logic is in `wh_service`, over any reader and any writer. This file connects it to the process: its words, its
//! standard streams, and its exit status. It also says how a planner is made, and no crate below knows any kind of planner.
#![tactic(auto)]

ghost use Rattle.std.specs.Prelude.{◌≡◌, true, IfOk};
ghost use Rattle.wh_claims.specs.Claim.{claim_amount};

use std::alloc::AllocError;
use std::env;
use std::fs::File;
use std::io::{self, BufWriter, ErrorKind, Write};
use std::os::fd::{AsFd, IntoRawFd};
use std::process::ExitCode;
use std::sync::Wait;
use std::thread::Threads;
use std::time::Clock;
use wh_edge::{Status, Trouble};
use wh_lines::Lines;
use wh_options::PlannerKind;
use wh_planner::Planner;
use wh_planners::{Patient, Sharing};
use wh_program::{PlannerParts, end, run};

/// How many bytes of output are written at a time.
const OUTPUT_BUFFER: usize = 65_536;

/// The status of a program that had no memory to begin with, which one line on standard error tells.
fn starved<E: Write>(errors: &mut E) -> Status {
    end(errors, Err(Trouble::NoMemory))
}

/// The system's number for a descriptor that is not open.
const NOT_OPEN: i32 = 9;

/// Whether a standard stream was open when the program began.
fn is_open<S: AsFd>(stream: &S) -> bool {
    match stream.as_fd().try_clone_to_owned() {
        Ok(_) => true,
        Err(error) => error.raw_os_error() != Some(NOT_OPEN),
    }
}

/// Puts the folder `/` in the place of each standard stream that was closed. Nothing can be read from it or written to it, and no file that is
/// opened later takes that place, where it would be given what belongs on the stream.
fn hold_closed(rt: &HostRuntime) -> io::Result<()> {
    for _ in 0..3 {
        if is_open(&rt.stdin()) && is_open(&rt.stdout()) && is_open(&rt.stderr()) {
            return Ok(());
        }
        // the lowest number that is not open; it stays open to the end
        let _ = File::open(rt, "/")?.into_raw_fd();
    }
    Ok(())
}

/// The process's words, or the status with which it ends at once.
fn words<R: AllocGlobal + env::Env, E: Write>(
    rt: &R,
    errors: &mut E,
) -> Result<Vec<String>, Status> {
    match env::args(rt) {
        Ok(args) => match args.collect(rt.alloc()) {
            Ok(words) => Ok(words),
            Err(_) => Err(starved(errors)),
        },
        Err(error) if error.kind() == ErrorKind::OutOfMemory => Err(starved(errors)),
        Err(_) => {
            let _ = errors.write_all(b"error: an argument is not UTF-8\n");
            Err(Status::CommandLine)
        }
    }
}

/// Does what the words ask for, over the process's streams. All planners are made here.
fn obey<'w, R: AllocGlobal + Print + Input + Threads + Wait + Clock + Sync, E: Write>(
    rt: &R,
    files: &'w HostRuntime,
    words: &'w [String],
    errors: &mut E,
) -> Status {
    let alloc = rt.alloc();
    let make = |parts: PlannerParts| -> Result<Box<dyn Planner>, AllocError>
        ensures on_grid { IfOk result (λ b. fits_map b parts.grid.value ≡ true) }
        ensures has_slots { IfOk result (λ b. slot_count b ≡ claim_amount parts.claim) }
    {
        let PlannerParts {
            kind,
            slack,
            effort,
            grid,
            claim,
        } = parts;
        match kind {
            PlannerKind::Near => {
                let sharing = Sharing::new(alloc, grid, claim)?;
                let bounded = sharing.with_slack(slack).with_effort(effort);
                let planner: Box<dyn Planner> = Box::new(alloc, bounded)?;
                Ok(planner)
            }
            PlannerKind::Patient => {
                let planner: Box<dyn Planner> = Box::new(alloc, Patient::new(grid, claim))?;
                Ok(planner)
            }
        }
    };
    let mut lines = Lines::new(rt.reader());
    let Ok(mut output) = BufWriter::with_capacity(alloc, OUTPUT_BUFFER, io::writer(rt)) else {
        return starved(errors);
    };
    run(
        rt,
        files,
        alloc,
        words,
        &mut lines,
        &mut output,
        errors,
        make,
    )
}

fn main(rt: HostRuntime) -> ExitCode {
    let mut errors = rt.stderr();
    if hold_closed(&rt).is_err() {
        return ExitCode::from(end(&mut errors, Err(Trouble::Unkept)).number());
    }
    let status = match words(&rt, &mut errors) {
        Ok(words) => obey(&rt, &rt, words.as_slice(), &mut errors),
        Err(status) => status,
    };
    ExitCode::from(status.number())
}
