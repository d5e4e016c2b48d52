//! Planners that are replaced at a desk.
#![tactic(auto)]

ghost use Rattle.std.specs.Prelude.{◌≡◌, [], IfOk};
ghost use Rattle.wh_board.specs.Pasts.{origin_of, past_of};

use super::parts::{Outfit, Parts, fit_out, floor, last_pass, planner, staffed_on};
use std::alloc::{AllocError, Global};
use std::marker::Brand;
use std::sync::Wait;
use std::test::*;
use wh_desk::{Answer, Desk, DeskFault, DeskName, Pass, Receipt, Warehouse};
use wh_event::Reply;
use wh_planner::Planner;
use wh_planners::Sharing;

/// What a call told, as far as these tests look.
#[derive(Clone, Copy, PartialEq, Eq)]
enum Seen {
    Replaced { position: u64, slots: u32 },
    Closed { position: u64 },
    Full,
    Other,
}

/// What a replace, a close and another replace told, and the slots of the planners that the two replaces gave back.
#[derive(Clone, Copy, PartialEq, Eq)]
struct Swaps {
    first: Seen,
    first_back: Option<u32>,
    close: Seen,
    second: Seen,
    second_back: Option<u32>,
}

/// What an outcome told.
fn told_by(outcome: &Result<Receipt, DeskFault>) -> Seen {
    match outcome {
        Ok(receipt) => match &receipt.entry.reply {
            Reply::Replaced { slots } => Seen::Replaced {
                position: receipt.position,
                slots: *slots,
            },
            Reply::Closed => Seen::Closed {
                position: receipt.position,
            },
            _ => Seen::Other,
        },
        Err(DeskFault::Full) => Seen::Full,
        Err(_) => Seen::Other,
    }
}

/// Opens a desk with one caller, which swaps planners there.
fn swap<N: DeskName, H: Wait + Drop, P: Planner, R: Wait>(
    rt: &R,
    alloc: Global,
    outfit: Outfit<H, P>,
    spare: P,
) -> Option<Swaps>
    requires origin { origin_of outfit.warehouse.book ≡ N.origin }
    requires history { outfit.warehouse.book.history ≡ [] }
    requires cells { outfit.cells ≡ N.cells }
    requires book { outfit.publisher.book ≡ N.book }
    requires added { outfit.publisher.added ≡ past_of outfit.warehouse.book }
    requires shown { outfit.publisher.shown ≡ past_of outfit.warehouse.book }
    requires callers { N.callers ≡ 1 }
{
    let Outfit {
        warehouse,
        cells,
        publisher,
    } = outfit;
    match Desk::<N, H, P>::open(alloc, warehouse, cells, publisher, 1) {
        Ok((desk, passes)) => match last_pass(passes) {
            Some(mut pass) => Some(swap_twice(rt, alloc, &desk, &mut pass, spare)),
            None => None,
        },
        Err(_) => None,
    }
}

/// Replaces agent 0's planner by the spare one, closes, and replaces it by the one that came back.
fn swap_twice<N: DeskName, H: Wait + Drop, P: Planner, R: Wait>(
    rt: &R,
    alloc: Global,
    desk: &Desk<N, H, P>,
    pass: &mut Pass<N>,
    spare: P,
) -> Swaps {
    let (first, back) = replace(rt, alloc, desk, pass, Some(spare));
    let first_back = slots_of(&back);
    let close = told_by(&desk.close(rt, alloc, pass));
    let (second, back) = replace(rt, alloc, desk, pass, back);
    Swaps {
        first,
        first_back,
        close,
        second,
        second_back: slots_of(&back),
    }
}

/// Replaces agent 0's planner: what the call told, and the planner that is not in the warehouse.
fn replace<N: DeskName, H: Wait + Drop, P: Planner, R: Wait>(
    rt: &R,
    alloc: Global,
    desk: &Desk<N, H, P>,
    pass: &mut Pass<N>,
    spare: Option<P>,
) -> (Seen, Option<P>) {
    let Answer { outcome, back } = desk.replace(rt, alloc, pass, 0, spare);
    (told_by(&outcome), back)
}

fn slots_of<P: Planner>(planner: &Option<P>) -> Option<u32> {
    match planner {
        Some(planner) => Some(planner.slots()),
        None => None,
    }
}

/// A warehouse with planners of 4 slots, and a spare one of 2, all made by `make`.
fn with_spare<P: Planner, F: Fn(Parts) -> Result<P, AllocError>>(
    alloc: Global,
    make: &F,
) -> Result<(Warehouse<P>, P), Fail>
    requires { F.IsAlwaysCallable make.now }
    ensures { IfOk result (λ r. r.0.book.history ≡ []) }
{
    let (grid, points) = floor(alloc)?;
    let spare = planner(alloc, &grid, 2, make)?;
    match staffed_on(alloc, grid, points, make) {
        Ok(warehouse) => Ok((warehouse, spare)),
        Err(fault) => Err(fault),
    }
}

/// The swaps at a desk of these with a journal of the given number of positions.
fn swap_made<P: Planner, F: Fn(Parts) -> Result<P, AllocError>, R: Wait>(
    rt: &R,
    alloc: Global,
    capacity: u64,
    make: &F,
) -> Result<Option<Swaps>, Fail>
    requires { F.IsAlwaysCallable make.now }
{
    let (warehouse, spare) = with_spare(alloc, make)?;
    match fit_out(rt, alloc, warehouse, capacity) {
        Ok(outfit) => Ok(swap::<Brand, _, _, _>(rt, alloc, outfit, spare)),
        Err(fault) => Err(fault),
    }
}

/// The same with boxed planners that search.
fn boxed_swap<R: Wait>(rt: &R, alloc: Global, capacity: u64) -> Result<Option<Swaps>, Fail> {
    let make = |parts: Parts| -> Result<Box<dyn Planner>, AllocError> {
        let sharing = Sharing::new(alloc, parts.grid, parts.claim)?;
        let planner: Box<dyn Planner> = Box::new(alloc, sharing)?;
        Ok(planner)
    };
    swap_made(rt, alloc, capacity, &make)
}

/// The planner is replaced, and the one of 4 slots comes back.
const REPLACED: Swaps = Swaps {
    first: Seen::Replaced {
        position: 0,
        slots: 2,
    },
    first_back: Some(4),
    close: Seen::Closed { position: 1 },
    second: Seen::Full,
    second_back: Some(4),
};

#[test]
fn planner_is_replaced(rt: HostRuntime) -> Result<(), Fail> {
    assert!(rt; boxed_swap(&rt, rt.alloc(), 2)? == Some(REPLACED));
    Ok(())
}

#[test]
fn replace_at_a_full_journal(rt: HostRuntime) -> Result<(), Fail> {
    let full = Swaps {
        close: Seen::Full,
        ..REPLACED
    };
    assert!(rt; boxed_swap(&rt, rt.alloc(), 1)? == Some(full));
    Ok(())
}
