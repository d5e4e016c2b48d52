//! Displays that look while the desk is at work.
#![tactic(auto)]

ghost use Rattle.std.specs.Prelude.{◌≡◌, [], IfOk};
ghost use Rattle.wh_board.specs.Pasts.{origin_of, past_of};

use super::desks::submits;
use super::gates::{comes, hold};
use super::parts::{Outfit, fit_out, floor, last_pass, opened, patient};
use super::stage::{Drill, drilled};
use std::alloc::Global;
use std::marker::Brand;
use std::sync::atomic::AtomicU64;
use std::sync::atomic::Ordering::SeqCst;
use std::sync::{Arc, Wait};
use std::test::*;
use std::thread::{Threads, join};
use wh_board::{Viewer, ViewerFault};
use wh_desk::{Desk, DeskFault, DeskName, Pass, Warehouse};
use wh_event::Reply;
use wh_grid::Grid;
use wh_path::TimedPath;
use wh_planner::{Duty, PlanFault, Planner, Plans, Scene};
use wh_planners::Patient;
use wh_shared::SharedFields;

/// That a planner is at work, and that somebody has looked since.
#[derive(Drop)]
struct Flags {
    inside: AtomicU64,
    looked: AtomicU64,
    limits: AtomicU64,
}

/// A planner that, before it plans, waits until somebody has looked.
#[derive(Drop)]
struct Watched<'a> {
    flags: &'a Flags,
    inner: Patient,
}

impl<'a> Plans for Watched<'a> {
    ghost use Rattle.wh_grid.specs.Grids.{same_floor};
    ghost use Rattle.wh_claims.specs.Claim.{claim_amount};

    ghost fits_map = { λ p g. same_floor p.inner.grid g };

    ghost slot_count = { λ p. claim_amount p.inner.claim };

    fn fits(&self, grid: &Grid) -> bool {
        self.inner.fits(grid)
    }

    fn slots(&self) -> u32 {
        self.inner.slots()
    }

    fn plan(
        &mut self,
        alloc: Global,
        fields: &mut SharedFields,
        scene: &Scene,
        duty: Duty,
    ) -> Result<TimedPath, PlanFault> {
        self.flags.inside.store(1, SeqCst);
        hold(&self.flags.looked, 1, &self.flags.limits);
        self.inner.plan(alloc, fields, scene, duty)
    }
}

impl<'a> Planner for Watched<'a> {}

/// Two planners that wait.
fn waiting<'a>(
    alloc: Global,
    grid: &Arc<Grid>,
    flags: &'a Flags,
) -> Result<Vec<Watched<'a>>, Fail> {
    let mut planners = Vec::new(alloc);
    for _ in 0..2u32 {
        let inner = patient(alloc, grid)?;
        planners.push(Watched { flags, inner })?;
    }
    Ok(planners)
}

/// A warehouse with the two.
fn warehouse_of_two<'a>(alloc: Global, flags: &'a Flags) -> Result<Warehouse<Watched<'a>>, Fail>
    ensures { IfOk result (λ w. w.book.history ≡ []) }
{
    let (grid, points) = floor(alloc)?;
    let planners = waiting(alloc, &grid, flags)?;
    opened(alloc, grid, points, planners)
}

/// What two threads meet at a desk of that warehouse.
fn meets<R: Threads + Wait + Sync>(
    rt: &R,
    alloc: Global,
    flags: &Flags,
) -> Result<Option<Met>, Fail> {
    let warehouse = warehouse_of_two(alloc, flags)?;
    match fit_out(rt, alloc, warehouse, 4) {
        Ok(outfit) => Ok(looked::<Brand, _, _, _>(rt, alloc, outfit, flags)),
        Err(fault) => Err(fault),
    }
}

#[test]
fn look_under_lock(rt: HostRuntime) -> Result<(), Fail> {
    let flags = Flags {
        inside: AtomicU64::new(0),
        looked: AtomicU64::new(0),
        limits: AtomicU64::new(0),
    };
    let met = meets(&rt, rt.alloc(), &flags)?;
    assert!(rt; met == Some((true, Some(1))) && flags.limits.load(SeqCst) == 0);
    Ok(())
}

/// Whether the agent took a task and the board was shown with it, and how many entries were seen while the lock was held.
type Met = (bool, Option<u64>);

/// Opens a desk with one caller, which submits a task, and has the two threads meet there.
fn looked<
    N: DeskName + Send + Sync,
    H: Wait + Send + Sync + Drop,
    P: Planner,
    R: Threads + Wait + Sync,
>(rt: &R, alloc: Global, outfit: Outfit<H, P>, flags: &Flags) -> Option<Met>
    requires origin { origin_of outfit.warehouse.book ≡ N.origin }
    requires history { outfit.warehouse.book.history ≡ [] }
    requires cells { outfit.cells ≡ N.cells }
    requires book { outfit.publisher.book ≡ N.book }
    requires added { outfit.publisher.added ≡ past_of outfit.warehouse.book }
    requires shown { outfit.publisher.shown ≡ past_of outfit.warehouse.book }
    requires callers { N.callers ≡ 1 }
{
    let Outfit {
        warehouse,
        cells,
        publisher,
    } = outfit;
    match Desk::<N, H, P>::open(alloc, warehouse, cells, publisher, 1) {
        Ok((desk, passes)) => match last_pass(passes) {
            Some(pass) => looks_beside(rt, alloc, &desk, pass, flags),
            None => None,
        },
        Err(_) => None,
    }
}

/// One thread asks for the token, and its planner waits under the lock; the other looks meanwhile.
fn looks_beside<
    N: DeskName + Send + Sync,
    H: Wait + Send + Sync + Drop,
    P: Planner,
    R: Threads + Wait + Sync,
>(rt: &R, alloc: Global, desk: &Desk<N, H, P>, mut pass: Pass<N>, flags: &Flags) -> Option<Met> {
    let has_task = has_room(rt, alloc, desk, &mut pass);
    match desk.viewer(rt) {
        Ok(viewer) => {
            let met = join(
                rt,
                || requests(rt, alloc, desk, pass),
                || looks_inside(viewer, flags),
            );
            has_task.then_some(met)
        }
        Err(_) => None,
    }
}

/// Whether a task is taken in.
fn has_room<N: DeskName, H: Wait + Drop, P: Planner, R: Wait>(
    rt: &R,
    alloc: Global,
    desk: &Desk<N, H, P>,
    pass: &mut Pass<N>,
) -> bool {
    matches!(submits(rt, alloc, desk, pass), Some(Ok(_)))
}

/// Whether the agent took a task, and the board was shown with it.
fn requests<N: DeskName, H: Wait + Drop, P: Planner, R: Wait>(
    rt: &R,
    alloc: Global,
    desk: &Desk<N, H, P>,
    mut pass: Pass<N>,
) -> bool {
    match desk.request(rt, alloc, &mut pass, 0) {
        Ok(receipt) => receipt.shown && matches!(receipt.entry.reply, Reply::Took { .. }),
        Err(_) => false,
    }
}

/// What is seen while the lock is held.
fn looks_inside(mut viewer: Viewer, flags: &Flags) -> Option<u64> {
    let held = comes(&flags.inside, 1);
    let board = viewer.look();
    flags.looked.store(1, SeqCst);
    held.then_some(board.entries)
}

/// A tick for which memory may run out, and one more.
pub fn lags<N: DeskName, H: Wait + Drop, P: Planner, R: Wait>(
    rt: &R,
    alloc: Global,
    desk: Desk<N, H, P>,
    mut pass: Pass<N>,
) -> bool {
    match desk.viewer(rt) {
        Ok(mut viewer) => match first_tick(rt, alloc, &desk, &mut pass, &mut viewer) {
            Some(entries) => {
                pass.len() == entries
                    && next_tick(rt, alloc, &desk, &mut pass, &mut viewer, entries)
            }
            None => false,
        },
        Err(_) => false,
    }
}

/// How many entries there are after the first tick, if the viewer sees those that were shown.
fn first_tick<N: DeskName, H: Wait + Drop, P: Planner, R: Wait>(
    rt: &R,
    alloc: Global,
    desk: &Desk<N, H, P>,
    pass: &mut Pass<N>,
    viewer: &mut Viewer,
) -> Option<u64> {
    match desk.tick(rt, alloc, pass) {
        Ok(receipt) => (viewer.look().entries == u64::from(receipt.shown)).then_some(1),
        Err(DeskFault::NoMemory) => (viewer.look().entries == 0).then_some(0),
        Err(_) => None,
    }
}

/// Whether one more tick comes behind that many entries, and the viewer sees all.
fn next_tick<N: DeskName, H: Wait + Drop, P: Planner, R: Wait>(
    rt: &R,
    alloc: Global,
    desk: &Desk<N, H, P>,
    pass: &mut Pass<N>,
    viewer: &mut Viewer,
    entries: u64,
) -> bool {
    match desk.tick(rt, alloc, pass) {
        Ok(receipt) => {
            receipt.shown
                && receipt.position == entries
                && viewer.look().entries == entries.saturating_add(1)
        }
        Err(_) => false,
    }
}

#[test]
fn lag(rt: HostRuntime) -> Result<(), Fail> {
    assert!(rt; drilled(&rt, rt.alloc(), Drill::Lag, 10, 1)?);
    Ok(())
}

/// Viewers come until there is no place, and one more once one of them has left.
pub fn no_place<N: DeskName, H: Wait + Drop, P: Planner, R: Wait>(
    rt: &R,
    alloc: Global,
    desk: Desk<N, H, P>,
) -> bool {
    match viewers(rt, alloc, &desk) {
        Some(mut viewers) => {
            let is_refused = has_no_place(rt, &desk);
            drop(viewers.pop());
            is_refused && desk.viewer(rt).is_ok()
        }
        None => false,
    }
}

/// The 64 that have a place.
fn viewers<N: DeskName, H: Wait + Drop, P: Planner, R: Wait>(
    rt: &R,
    alloc: Global,
    desk: &Desk<N, H, P>,
) -> Option<Vec<Viewer>> {
    let mut viewers = Vec::new(alloc);
    for _ in 0..64u32 {
        let viewer = desk.viewer(rt).ok()?;
        viewers.push(viewer).ok()?;
    }
    Some(viewers)
}

/// Whether a viewer is refused since there is no place.
fn has_no_place<N: DeskName, H: Wait + Drop, P: Planner, R: Wait>(
    rt: &R,
    desk: &Desk<N, H, P>,
) -> bool {
    matches!(desk.viewer(rt), Err(ViewerFault::NoPlace))
}

#[test]
fn sixty_four_viewers(rt: HostRuntime) -> Result<(), Fail> {
    assert!(rt; drilled(&rt, rt.alloc(), Drill::ManyViewers, 1, 1)?);
    Ok(())
}
