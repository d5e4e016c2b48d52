//! Desks of boxed planners on map A, opened for what is done there.
#![tactic(auto)]

ghost use Rattle.std.specs.Prelude.{◌≡◌, []};
ghost use Rattle.wh_board.specs.Pasts.{origin_of, past_of};

use super::boards::{lags, no_place};
use super::callers::two_hundred;
use super::desks::{one_entry, receipts};
use super::parts::{Outfit, Parts, fit_out, last_pass, staffed, two_passes};
use std::alloc::{AllocError, Global};
use std::marker::Brand;
use std::sync::Wait;
use std::test::*;
use std::thread::Threads;
use wh_desk::{Desk, DeskName, Pass};
use wh_planner::Planner;
use wh_planners::Patient;

/// What is done at a desk that was just opened.
#[derive(Clone, Copy)]
pub enum Drill {
    Receipts,
    OnePlace,
    TwoHundred,
    Lag,
    ManyViewers,
}

/// What one caller does at a desk. Whether it went as it should.
fn alone<N: DeskName, H: Wait + Drop, P: Planner, R: Wait>(
    rt: &R,
    alloc: Global,
    desk: Desk<N, H, P>,
    passes: Vec<Pass<N>>,
    drill: Drill,
) -> bool
    requires { N.callers ≡ 1 }
{
    match (drill, last_pass(passes)) {
        (Drill::OnePlace, Some(pass)) => one_entry(rt, alloc, desk, pass),
        (Drill::Lag, Some(pass)) => lags(rt, alloc, desk, pass),
        (Drill::ManyViewers, Some(_)) => no_place(rt, alloc, desk),
        _ => false,
    }
}

/// What two callers do at a desk. Whether it went as it should.
fn together<
    N: DeskName + Send + Sync,
    H: Wait + Send + Sync + Drop,
    P: Planner,
    R: Threads + Wait + Sync,
>(rt: &R, alloc: Global, desk: Desk<N, H, P>, passes: Vec<Pass<N>>, drill: Drill) -> bool
    requires { N.callers ≡ 2 }
{
    match (drill, two_passes(passes)) {
        (Drill::Receipts, Some((zero, one))) => receipts(rt, alloc, desk, zero, one),
        (Drill::TwoHundred, Some((zero, one))) => two_hundred(rt, alloc, desk, zero, one),
        _ => false,
    }
}

/// Opens a desk with the given number of callers, and has them do what the drill says. Whether it went as it should.
fn open<
    N: DeskName + Send + Sync,
    H: Wait + Send + Sync + Drop,
    P: Planner,
    R: Threads + Wait + Sync,
>(rt: &R, alloc: Global, outfit: Outfit<H, P>, drill: Drill, callers: u32) -> bool
    requires origin { origin_of outfit.warehouse.book ≡ N.origin }
    requires history { outfit.warehouse.book.history ≡ [] }
    requires cells { outfit.cells ≡ N.cells }
    requires book { outfit.publisher.book ≡ N.book }
    requires added { outfit.publisher.added ≡ past_of outfit.warehouse.book }
    requires shown { outfit.publisher.shown ≡ past_of outfit.warehouse.book }
    requires callers { N.callers ≡ callers }
{
    let Outfit {
        warehouse,
        cells,
        publisher,
    } = outfit;
    match (
        callers,
        Desk::<N, H, P>::open(alloc, warehouse, cells, publisher, callers),
    ) {
        (1, Ok((desk, passes))) => alone(rt, alloc, desk, passes, drill),
        (2, Ok((desk, passes))) => together(rt, alloc, desk, passes, drill),
        _ => false,
    }
}

/// A desk with a journal of the given number of positions, and with the given number of callers, whose planners are made by `make`.
fn drill_made<P: Planner, F: Fn(Parts) -> Result<P, AllocError>, R: Threads + Wait + Sync>(
    rt: &R,
    alloc: Global,
    drill: Drill,
    capacity: u64,
    callers: u32,
    make: &F,
) -> Result<bool, Fail>
    requires { F.IsAlwaysCallable make.now }
{
    let warehouse = staffed(alloc, make)?;
    match fit_out(rt, alloc, warehouse, capacity) {
        Ok(outfit) => Ok(open::<Brand, _, _, _>(rt, alloc, outfit, drill, callers)),
        Err(fault) => Err(fault),
    }
}

/// The same with boxed planners.
pub fn drilled<R: Threads + Wait + Sync>(
    rt: &R,
    alloc: Global,
    drill: Drill,
    capacity: u64,
    callers: u32,
) -> Result<bool, Fail> {
    let make = |parts: Parts| -> Result<Box<dyn Planner>, AllocError> {
        let patient = Patient::new(parts.grid, parts.claim);
        let planner: Box<dyn Planner> = Box::new(alloc, patient)?;
        Ok(planner)
    };
    drill_made(rt, alloc, drill, capacity, callers, &make)
}
