//! Two threads at a desk, each with a pass of its own.
#![tactic(auto)]

ghost use Rattle.std.specs.Prelude.{◌≡◌};

use super::desks::submits;
use super::parts::finish_two;
use super::stage::{Drill, drilled};
use std::alloc::Global;
use std::sync::Wait;
use std::test::*;
use std::thread::{Threads, join};
use wh_desk::{Desk, DeskName, Pass, Receipt};
use wh_event::{Entry, Reply};
use wh_planner::Planner;

/// What a receipt of a submit tells.
#[derive(Clone, Copy)]
struct Seen {
    position: u64,
    task: u32,
}

/// Two callers submit in two threads.
pub fn two_hundred<
    N: DeskName + Send + Sync,
    H: Wait + Send + Sync + Drop,
    P: Planner,
    R: Threads + Wait + Sync,
>(rt: &R, alloc: Global, desk: Desk<N, H, P>, zero: Pass<N>, one: Pass<N>) -> bool
    requires { N.callers ≡ 2 }
{
    let ((zero, by_zero), (one, by_one)) = in_two_threads(rt, alloc, &desk, zero, one);
    let is_told = are_two_hundred(by_zero, by_one);
    let is_met = meet(rt, &desk, &zero, &one);
    let is_whole = match finish_two(alloc, desk, zero, one) {
        Some(history) => {
            let are_hundred = are_hundred_each(history.warehouse.history());
            drop(history);
            are_hundred
        }
        None => false,
    };
    is_told && is_met && is_whole
}

/// Whether the receipts of both stand in a history of 200 entries.
fn meet<N: DeskName, H: Wait + Drop, P: Planner, R: Wait>(
    rt: &R,
    desk: &Desk<N, H, P>,
    zero: &Pass<N>,
    one: &Pass<N>,
) -> bool {
    match desk.meet(rt, zero, one) {
        Ok(met) => met.length == 200,
        Err(_) => false,
    }
}

#[test]
fn two_callers(rt: HostRuntime) -> Result<(), Fail> {
    assert!(rt; drilled(&rt, rt.alloc(), Drill::TwoHundred, 200, 2)?);
    Ok(())
}

/// Each thread submits 100 times.
fn in_two_threads<
    N: DeskName + Send + Sync,
    H: Wait + Send + Sync + Drop,
    P: Planner,
    R: Threads + Wait + Sync,
>(
    rt: &R,
    alloc: Global,
    desk: &Desk<N, H, P>,
    zero: Pass<N>,
    one: Pass<N>,
) -> ((Pass<N>, Vec<Seen>), (Pass<N>, Vec<Seen>)) {
    join(
        rt,
        || submits_often(rt, alloc, desk, zero),
        || submits_often(rt, alloc, desk, one),
    )
}

/// Submits 100 times.
fn submits_often<N: DeskName, H: Wait + Drop, P: Planner, R: Wait>(
    rt: &R,
    alloc: Global,
    desk: &Desk<N, H, P>,
    mut pass: Pass<N>,
) -> (Pass<N>, Vec<Seen>) {
    let mut seen = Vec::new(alloc);
    for _ in 0..100u32 {
        if let Some(one) = submit(rt, alloc, desk, &mut pass) {
            if seen.push(one).is_err() {
                break;
            }
        }
    }
    (pass, seen)
}

fn submit<N: DeskName, H: Wait + Drop, P: Planner, R: Wait>(
    rt: &R,
    alloc: Global,
    desk: &Desk<N, H, P>,
    pass: &mut Pass<N>,
) -> Option<Seen> {
    match submits(rt, alloc, desk, pass) {
        Some(Ok(receipt)) => seen_in(&receipt),
        _ => None,
    }
}

fn seen_in(receipt: &Receipt) -> Option<Seen> {
    match &receipt.entry.reply {
        Reply::Accepted { task } => Some(Seen {
            position: receipt.position,
            task: *task,
        }),
        _ => None,
    }
}

/// Whether each position is above the one before.
fn rises(seen: &[Seen]) -> bool {
    let mut least = 0;
    for one in seen {
        if one.position < least {
            return false;
        }
        least = one.position.saturating_add(1);
    }
    true
}

/// Whether each had 100 receipts, in order, and the positions 0 to 199 and the tasks 0 to 199 stand in them, each once.
fn are_two_hundred(by_zero: Vec<Seen>, by_one: Vec<Seen>) -> bool {
    let (by_zero, by_one) = (by_zero.as_slice(), by_one.as_slice());
    by_zero.len() == 100
        && by_one.len() == 100
        && rises(by_zero)
        && rises(by_one)
        && each_once(by_zero, by_one)
}

/// Whether the positions 0 to 199 and the tasks 0 to 199 stand in them, each once.
fn each_once(by_zero: &[Seen], by_one: &[Seen]) -> bool {
    for k in 0..200u32 {
        let positions = at_position(by_zero, k).saturating_add(at_position(by_one, k));
        let tasks = of_task(by_zero, k).saturating_add(of_task(by_one, k));
        if positions != 1 || tasks != 1 {
            return false;
        }
    }
    true
}

fn at_position(seen: &[Seen], k: u32) -> usize {
    seen.iter()
        .filter(|one| one.position == u64::from(k))
        .count()
}

fn of_task(seen: &[Seen], k: u32) -> usize {
    seen.iter().filter(|one| one.task == k).count()
}

/// Whether the history has 200 entries, 100 for each caller.
fn are_hundred_each(entries: &[Entry]) -> bool {
    entries.len() == 200 && entries_by(entries, 0) == 100 && entries_by(entries, 1) == 100
}

fn entries_by(entries: &[Entry], caller: u32) -> usize {
    entries
        .iter()
        .filter(|entry| entry.caller == caller)
        .count()
}
