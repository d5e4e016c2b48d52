//! The warehouse inside another program, with planners in boxes and as values of an enum; `docs/EMBEDDING.md` goes
//! through it.
//!
//! Proved: it keeps what the calls require, and the history of its day is a run from an opening, with no request
//! refused for lack of a path if the instance is well-formed (`warehouse_after`, `Mind`, `work`).
#![tactic(auto)]

mod day;
mod mind;
mod orders;
mod shift;
mod stop;

use day::{Halt, Parts, day};
use mind::Mind;
use orders::orders;
use shift::shift;
use std::alloc::AllocError;
use std::process::ExitCode;
use wh_planner::Planner;
use wh_planners::{Patient, Sharing};

/// A day with planners of both kinds, each in a box.
fn with_boxes<R: AllocGlobal + Print>(rt: &R) -> Result<(), Halt> {
    let alloc = rt.alloc();
    let make = |parts: Parts| -> Result<Box<dyn Planner>, AllocError> {
        let Parts { agent, grid, claim } = parts;
        if agent == 0 {
            let sharing = Sharing::new(alloc, grid, claim)?;
            let planner: Box<dyn Planner> = Box::new(alloc, sharing)?;
            Ok(planner)
        } else {
            let planner: Box<dyn Planner> = Box::new(alloc, Patient::new(grid, claim))?;
            Ok(planner)
        }
    };
    day(rt, alloc, &make)
}

/// A day with the same planners, each as a value of the enum.
fn with_minds<R: AllocGlobal + Print>(rt: &R) -> Result<(), Halt> {
    let alloc = rt.alloc();
    let make = |parts: Parts| -> Result<Mind, AllocError> {
        let Parts { agent, grid, claim } = parts;
        if agent == 0 {
            let sharing = Sharing::new(alloc, grid, claim)?;
            Ok(Mind::Sharing(sharing))
        } else {
            Ok(Mind::Patient(Patient::new(grid, claim)))
        }
    };
    day(rt, alloc, &make)
}

fn all<R: AllocGlobal + Print>(rt: &R) -> Result<(), Halt> {
    with_boxes(rt)?;
    with_minds(rt)?;
    shift(rt, rt.alloc())?;
    orders(rt, rt.alloc())
}

fn main(rt: HostRuntime) -> ExitCode {
    match all(&rt) {
        Ok(()) => ExitCode::SUCCESS,
        Err(Halt::NoMemory) => ExitCode::from(4),
        Err(Halt::Unwritten) => ExitCode::from(3),
        Err(Halt::Unread | Halt::TooFewSlots | Halt::Unopened) => ExitCode::from(1),
    }
}
