//! One caller after another at a desk.
#![tactic(auto)]

ghost use Rattle.std.specs.Prelude.{◌≡◌, IfOk, IfSome};

use super::parts::{finish_one, finish_two, task};
use super::stage::{Drill, drilled};
use std::alloc::Global;
use std::sync::Wait;
use std::test::*;
use wh_board::{Told, Viewer};
use wh_desk::{Desk, DeskFault, DeskName, History, Pass, Receipt};
use wh_event::{Entry, Reply};
use wh_planner::Planner;

/// What is told of `submit x A B`.
pub fn submits<N: DeskName, H: Wait + Drop, P: Planner, R: Wait>(
    rt: &R,
    alloc: Global,
    desk: &Desk<N, H, P>,
    pass: &mut Pass<N>,
) -> Option<Result<Receipt, DeskFault>>
    ensures { IfSome result (λ told. IfOk told (λ r. IfSome r.told (λ t. t.book ≡ N.book))) }
{
    match task() {
        Some((client, stops)) => Some(desk.submit(rt, alloc, pass, client, stops)),
        None => None,
    }
}

/// Whether a call was refused since the journal is full.
fn is_full(outcome: Result<Receipt, DeskFault>) -> bool {
    matches!(outcome, Err(DeskFault::Full))
}

/// Whether a submit was refused since the journal is full.
fn finds_it_full<N: DeskName, H: Wait + Drop, P: Planner, R: Wait>(
    rt: &R,
    alloc: Global,
    desk: &Desk<N, H, P>,
    pass: &mut Pass<N>,
) -> bool {
    match submits(rt, alloc, desk, pass) {
        Some(outcome) => is_full(outcome),
        None => false,
    }
}

/// Two callers fill a journal of three, while a viewer looks.
pub fn receipts<N: DeskName, H: Wait + Drop, P: Planner, R: Wait>(
    rt: &R,
    alloc: Global,
    desk: Desk<N, H, P>,
    mut zero: Pass<N>,
    mut one: Pass<N>,
) -> bool
    requires { N.callers ≡ 2 }
{
    match desk.viewer(rt) {
        Ok(mut viewer) => {
            let fills = fill_three(rt, alloc, &desk, &mut zero, &mut one, &mut viewer);
            let ends = match finish_two(alloc, desk, zero, one) {
                Some(history) => {
                    let are_left = are_three_left(&history, &mut viewer);
                    drop(history);
                    are_left
                }
                None => false,
            };
            fills && ends
        }
        Err(_) => false,
    }
}

/// The calls of the two.
fn fill_three<N: DeskName, H: Wait + Drop, P: Planner, R: Wait>(
    rt: &R,
    alloc: Global,
    desk: &Desk<N, H, P>,
    zero: &mut Pass<N>,
    one: &mut Pass<N>,
    viewer: &mut Viewer,
) -> bool
    requires { viewer.old.book ≡ N.book }
    ensures { viewer.new.book ≡ N.book }
{
    let is_first = submits_first(rt, alloc, desk, zero, viewer);
    let is_taken = takes(rt, alloc, desk, one) && ticks(rt, alloc, desk, one);
    zero.agree(one);
    let is_full = finds_it_full(rt, alloc, desk, zero);
    is_first && is_taken && is_full && viewer.look().entries == 3
}

/// Whether the three are left, and the viewer, which looks once more when the desk is gone, knows of no others.
fn are_three_left<P: Planner>(history: &History<P>, viewer: &mut Viewer) -> bool
    requires { history.now.front.book ≡ viewer.old.book }
{
    are_three(history.warehouse.history())
        && !history.front.is_before(viewer.front())
        && viewer.look().entries == 3
}

#[test]
fn desk_receipts(rt: HostRuntime) -> Result<(), Fail> {
    assert!(rt; drilled(&rt, rt.alloc(), Drill::Receipts, 3, 2)?);
    Ok(())
}

/// Whether the first submit was told so. The viewer learns what was told of it, and looks.
fn submits_first<N: DeskName, H: Wait + Drop, P: Planner, R: Wait>(
    rt: &R,
    alloc: Global,
    desk: &Desk<N, H, P>,
    pass: &mut Pass<N>,
    viewer: &mut Viewer,
) -> bool
    requires { viewer.old.book ≡ N.book }
    ensures { viewer.new.book ≡ N.book }
{
    match submits(rt, alloc, desk, pass) {
        Some(Ok(receipt)) => match &receipt.told {
            Some(told) => is_first(&receipt) && learns(rt, desk, viewer, told),
            None => false,
        },
        _ => false,
    }
}

/// Whether it is the receipt of the first submit.
fn is_first(receipt: &Receipt) -> bool {
    receipt.position == 0
        && receipt.clock == 0
        && receipt.shown
        && matches!(receipt.entry.reply, Reply::Accepted { task: 0 })
}

/// Whether the viewer, once it has learnt what was told, sees the one task, and a later viewer does.
fn learns<N: DeskName, H: Wait + Drop, P: Planner, R: Wait>(
    rt: &R,
    desk: &Desk<N, H, P>,
    viewer: &mut Viewer,
    told: &Told,
) -> bool
    requires viewer { viewer.old.book ≡ N.book }
    requires told { told.now.book ≡ N.book }
    ensures { viewer.new.book ≡ N.book }
{
    viewer.learn(told);
    let board = viewer.look();
    match desk.viewer_after(rt, told) {
        Ok(mut later) => {
            board.entries == 1 && board.open_tasks == 1 && later.look().entries == 1
        }
        Err(_) => false,
    }
}

/// Agent 0 takes the task, on a path that ends after 6 steps.
fn takes<N: DeskName, H: Wait + Drop, P: Planner, R: Wait>(
    rt: &R,
    alloc: Global,
    desk: &Desk<N, H, P>,
    pass: &mut Pass<N>,
) -> bool {
    match desk.request(rt, alloc, pass, 0) {
        Ok(receipt) => {
            receipt.position == 1
                && matches!(&receipt.entry.reply, Reply::Took { task: 0, path } if path.remaining() == 6)
        }
        Err(_) => false,
    }
}

/// Then the clock ticks.
fn ticks<N: DeskName, H: Wait + Drop, P: Planner, R: Wait>(
    rt: &R,
    alloc: Global,
    desk: &Desk<N, H, P>,
    pass: &mut Pass<N>,
) -> bool {
    match desk.tick(rt, alloc, pass) {
        Ok(receipt) => receipt.position == 2 && receipt.clock == 0,
        Err(_) => false,
    }
}

/// Caller 0 has position 0, and caller 1 has 1 and 2.
fn are_three(entries: &[Entry]) -> bool {
    entries.len() == 3 && entries[0].caller == 0 && entries[1].caller == 1 && entries[2].caller == 1
}

/// One caller fills a journal of one.
pub fn one_entry<N: DeskName, H: Wait + Drop, P: Planner, R: Wait>(
    rt: &R,
    alloc: Global,
    desk: Desk<N, H, P>,
    mut pass: Pass<N>,
) -> bool
    requires { N.callers ≡ 1 }
{
    let fills = submits_at_zero(rt, alloc, &desk, &mut pass);
    let is_full = all_full(rt, alloc, &desk, &mut pass);
    let is_one = match finish_one(alloc, desk, pass) {
        Some(history) => {
            let entries = history.warehouse.history().len();
            drop(history);
            entries == 1
        }
        None => false,
    };
    fills && is_full && is_one
}

#[test]
fn one_place(rt: HostRuntime) -> Result<(), Fail> {
    assert!(rt; drilled(&rt, rt.alloc(), Drill::OnePlace, 1, 1)?);
    Ok(())
}

/// Whether a submit has position 0.
fn submits_at_zero<N: DeskName, H: Wait + Drop, P: Planner, R: Wait>(
    rt: &R,
    alloc: Global,
    desk: &Desk<N, H, P>,
    pass: &mut Pass<N>,
) -> bool {
    match submits(rt, alloc, desk, pass) {
        Some(Ok(receipt)) => receipt.position == 0,
        _ => false,
    }
}

/// Whether each later call finds the journal full.
fn all_full<N: DeskName, H: Wait + Drop, P: Planner, R: Wait>(
    rt: &R,
    alloc: Global,
    desk: &Desk<N, H, P>,
    pass: &mut Pass<N>,
) -> bool {
    is_full(desk.tick(rt, alloc, pass))
        && is_full(desk.request(rt, alloc, pass, 1))
        && is_full(desk.close(rt, alloc, pass))
}
