//! The threads of a crew.
#![tactic(auto)]

ghost use Rattle.std.specs.Prelude.{◌≡◌, ◌<◌, ◌≤◌, [], ℕ, true, false, All, IfOk, length, map, vec_len, vec_capacity, Some, slice_get};
ghost use Rattle.wh_core.specs.Laws.{IsBeginning};
ghost use Rattle.wh_core.specs.Steps.{Run};
ghost use Rattle.wh_desk.specs.Pasts.{origin_of, past_of};
ghost use Rattle.wh_desk.specs.Lists.{AllAt};
ghost use Rattle.wh_desk.specs.Calls.{InOrder, NoneWantsPath};
ghost use Rattle.wh_crew.specs.Work.{AllWorked, IsDue, MissedWithCause, ReportAt, Worked};

use crate::gate::Gate;
use crate::worker::{Missed, Report, work_through};
use std::alloc::{AllocError, Global};
use std::snapshot::Snapshot;
use std::sync::Wait;
use std::thread;
use std::thread::{Promise, PromisedHandle, Scope, Threads};
use wh_desk::{Desk, DeskName, History, Pass};
use wh_edge::Work;
use wh_planner::Planner;

/// Why a crew came to no history.
#[derive(Clone, Copy, PartialEq, Eq, Debug)]
pub enum CrewFault {
    /// E93: a thread could not be started. Those that were started are joined.
    NoThread,
    /// E90: no memory was left.
    NoMemory,
    /// E95: a pass does not have all that its caller did, or a call was refused by E91 or E95.
    Stale,
}

/// What a worker's thread promises: its report answers the work, from what the pass held before. It has no bytes.
#[derive(Drop)]
pub struct Due<N: DeskName, P> {
    had: Snapshot<Pass<N>>,
    work: Snapshot<Work<P>>,
}

impl<N: DeskName, P: Planner> Promise<Report<N>> for Due<N, P> {
    ghost use Rattle.std.specs.Prelude.{length};
    ghost use Rattle.wh_crew.specs.Work.{Worked};

    ghost kept_by = { λ due r. Worked P.fits_map P.slot_count N.origin.site.grid (length N.cells) due.work.value.commands.items due.work.value.spares.items due.had.value r.pass r.missed };
}

/// One worker's whole work, with its pass moved in and out.
fn report<N: DeskName, H: Wait + Drop, P: Planner, R: Wait, G: Gate>(
    rt: &R,
    alloc: Global,
    desk: &Desk<N, H, P>,
    mut pass: Pass<N>,
    work: Work<P>,
    gate: &G,
    worker: u32,
) -> Report<N>
    ensures { Worked P.fits_map P.slot_count N.origin.site.grid (length N.cells) work.commands.items work.spares.items pass result.pass result.missed }
{
    let missed = work_through(rt, alloc, desk, &mut pass, work, gate, worker);
    Report { pass, missed }
}

/// Starts one worker's thread.
fn start_one<
    's,
    E: 's,
    N: DeskName + Send + Sync + 's,
    H: Wait + Send + Sync + Drop + 's,
    P: Planner + 's,
    R: Wait + Sync + 's,
    G: Gate + 's,
>(
    scope: &Scope<'s, E>,
    rt: &'s R,
    alloc: Global,
    desk: &'s Desk<N, H, P>,
    pass: Pass<N>,
    work: Work<P>,
    gate: &'s G,
    worker: u32,
) -> Result<PromisedHandle<Report<N>, Due<N, P>>, CrewFault>
    ensures { IfOk result (λ h. (h.promise.had.value ≡ pass) × (h.promise.work.value ≡ work)) }
{
    let due = Due {
        had: Snapshot::of(&pass),
        work: Snapshot::of(&work),
    };
    let started = scope.spawn_with(
        due,
        move || -> Report<N>
            ensures { Worked P.fits_map P.slot_count N.origin.site.grid (length N.cells) work.commands.items work.spares.items pass result.pass result.missed }
        { report(rt, alloc, desk, pass, work, gate, worker) },
    );
    match started {
        Ok(handle) => Ok(handle),
        Err(_) => Err(CrewFault::NoThread),
    }
}

/// Starts a thread for each worker: worker i with pass i and work i.
fn start_all<
    's,
    E: 's,
    N: DeskName + Send + Sync + 's,
    H: Wait + Send + Sync + Drop + 's,
    P: Planner + 's,
    R: Threads + Wait + Sync + 's,
    G: Gate + 's,
>(
    scope: &Scope<'s, E>,
    rt: &'s R,
    alloc: Global,
    desk: &'s Desk<N, H, P>,
    passes: Vec<Pass<N>>,
    works: Vec<Work<P>>,
    gate: &'s G,
) -> Result<Vec<PromisedHandle<Report<N>, Due<N, P>>>, CrewFault>
    requires { length works.items ≡ length passes.items }
    ensures count { IfOk result (λ hs. length hs.items ≡ length passes.items) }
    ensures due { IfOk result (λ hs. AllAt (λ i h. IsDue works.items passes.items i h.promise.had.value h.promise.work.value) hs.items) }
{
    let Ok(mut handles) = Vec::with_capacity(alloc, passes.len()) else {
        return Err(CrewFault::NoMemory);
    };
    let mut works = works.into_iter();
    let mut worker = 0u32;
    for pass in passes {
        let Some(work) = works.next() else {
            unreachable!()
        };
        match start_one(scope, rt, alloc, desk, pass, work, gate, worker) {
            Ok(handle) => handles.push_reserved(handle),
            Err(fault) => {
                join_and_drop(rt, handles);
                return Err(fault);
            }
        }
        worker = worker.saturating_add(1);
    }
    Ok(handles)
}

/// Joins each thread, and drops its report.
fn join_and_drop<N: DeskName, P: Planner, R: Threads>(
    rt: &R,
    handles: Vec<PromisedHandle<Report<N>, Due<N, P>>>,
) {
    for handle in handles {
        drop(handle.join(rt));
    }
}

/// Joins each thread. Its report is at its place.
fn join_all<N: DeskName, P: Planner, R: Threads>(
    rt: &R,
    handles: Vec<PromisedHandle<Report<N>, Due<N, P>>>,
    mut reports: Vec<Report<N>>,
) -> Vec<Report<N>>
    requires empty { reports.items ≡ [] }
    requires room { length handles.items ≤ vec_capacity reports }
    ensures count { length result.items ≡ length handles.items }
    ensures kept { AllAt (λ i r. (h : _) → slice_get handles.items i ≡ Some h → Worked P.fits_map P.slot_count N.origin.site.grid (length N.cells) h.promise.work.value.commands.items h.promise.work.value.spares.items h.promise.had.value r.pass r.missed) result.items }
{
    for handle in handles {
        reports.push_reserved(handle.join(rt));
    }
    reports
}

/// The passes of the reports, and the counts of missed calls.
fn take_apart<N: DeskName>(
    reports: Vec<Report<N>>,
    mut passes: Vec<Pass<N>>,
    mut missed: Vec<Missed>,
) -> (Vec<Pass<N>>, Vec<Missed>)
    requires empty { (passes.items ≡ []) × (missed.items ≡ []) }
    requires room { (length reports.items ≤ vec_capacity passes) × (length reports.items ≤ vec_capacity missed) }
    ensures passes { result.0.items ≡ map (λ r. r.pass) reports.items }
    ensures missed { result.1.items ≡ map (λ r. r.missed) reports.items }
    ensures kept { vec_capacity passes ≤ vec_capacity result.0 }
{
    for report in reports {
        let Report {
            pass,
            missed: count,
        } = report;
        passes.push_reserved(pass);
        missed.push_reserved(count);
    }
    (passes, missed)
}

/// Each worker's work in its own thread. All threads are joined when it returns, also where one could not be started.
fn run_all<
    N: DeskName + Send + Sync,
    H: Wait + Send + Sync + Drop,
    P: Planner,
    R: Threads + Wait + Sync,
    G: Gate,
>(
    rt: &R,
    alloc: Global,
    desk: &Desk<N, H, P>,
    passes: Vec<Pass<N>>,
    works: Vec<Work<P>>,
    reports: Vec<Report<N>>,
    gate: &G,
) -> Result<Vec<Report<N>>, CrewFault>
    requires works { length works.items ≡ length passes.items }
    requires empty { reports.items ≡ [] }
    requires room { length passes.items ≤ vec_capacity reports }
    ensures count { IfOk result (λ rs. length rs.items ≡ length passes.items) }
    ensures reported { IfOk result (λ rs. AllAt (λ i r. ReportAt P.fits_map P.slot_count N.origin.site.grid (length N.cells) works.items passes.items i r.pass r.missed) rs.items) }
{
    thread::scope(
        thread::scope_env(),
        rt,
        |scope| -> Result<Vec<Report<N>>, CrewFault>
            requires { (length works.items ≡ length passes.items) × (reports.items ≡ []) × (length passes.items ≤ vec_capacity reports) }
            ensures { IfOk result (λ rs. (length rs.items ≡ length passes.items) × AllAt (λ i r. ReportAt P.fits_map P.slot_count N.origin.site.grid (length N.cells) works.items passes.items i r.pass r.missed) rs.items) }
        {
            let handles = start_all(scope, rt, alloc, desk, passes, works, gate)?;
            Ok(join_all(rt, handles, reports))
        },
    )
}

/// The history that a crew left, and how many calls of each worker the desk refused.
#[derive(Drop)]
pub struct Crewed<P: Planner = Box<dyn Planner>> {
    pub history: History<P>,
    pub missed: Vec<Missed>,
}

/// Worker i makes its commands with pass i, one call of the desk each, in its own thread; then the desk is finished.
/// The history is one run from an opening state, and each entry is a worker's. For each worker its entries are those that its
/// pass held before, and then its commands, in order, without as many as were missed. There are no more entries than the desk
/// has cells, and exactly as many if a call was missed because the journal was full; else calls are missed for lack of memory
/// alone. On a well-formed instance no request is refused for lack of a path.
pub fn crew<
    N: DeskName + Send + Sync,
    H: Wait + Send + Sync + Drop,
    P: Planner,
    R: Threads + Wait + Sync,
    G: Gate,
>(
    rt: &R,
    alloc: Global,
    desk: Desk<N, H, P>,
    passes: Vec<Pass<N>>,
    works: Vec<Work<P>>,
    gate: &G,
) -> Result<Crewed<P>, CrewFault>
    requires passes { InOrder N.callers passes.items }
    requires works { length works.items ≡ length passes.items }
    ensures origin { IfOk result (λ c. origin_of c.history.warehouse.book ≡ N.origin) }
    ensures opening { IfOk result (λ _. IsBeginning N.origin.site N.origin.opening) }
    ensures run { IfOk result (λ c. Run N.origin.site N.origin.opening c.history.warehouse.book.history c.history.warehouse.book.state) }
    ensures callers { IfOk result (λ c. All (λ entry. entry.caller < N.callers) c.history.warehouse.book.history) }
    ensures within { IfOk result (λ c. length c.history.warehouse.book.history ≤ length N.cells) }
    ensures served { IfOk result (λ c. NoneWantsPath N.origin c.history.warehouse.book.history) }
    ensures cause { IfOk result (λ c. MissedWithCause (length N.cells) c.history.warehouse.book.history c.missed.items) }
    ensures workers { IfOk result (λ c. AllWorked P.fits_map P.slot_count N.origin.site.grid (length N.cells) works.items passes.items c.history.warehouse.book.history c.missed.items) }
    ensures book { IfOk result (λ c. c.history.front.book ≡ N.book) }
    ensures past { IfOk result (λ c. c.history.front.past ≡ past_of c.history.warehouse.book) }
{
    let Ok(room) = make_room(alloc, passes.len()) else {
        drop(desk);
        drop(passes);
        drop(works);
        return Err(CrewFault::NoMemory);
    };
    let Room {
        reports,
        passes: ended,
        missed,
    } = room;
    let reports = match run_all(rt, alloc, &desk, passes, works, reports, gate) {
        Ok(reports) => reports,
        Err(fault) => {
            drop(ended);
            drop(missed);
            drop(desk);
            return Err(fault);
        }
    };
    let (ended, missed) = take_apart(reports, ended, missed);
    match desk.finish(ended) {
        Ok(history) => {
            if none_other(missed.as_slice()) {
                Ok(Crewed { history, missed })
            } else {
                drop(history);
                drop(missed);
                Err(CrewFault::Stale)
            }
        }
        Err(_) => {
            drop(missed);
            Err(CrewFault::Stale)
        }
    }
}

/// Whether each call that was refused was so by E11 or E90.
fn none_other(missed: &[Missed]) -> bool
    ensures { result ≡ true → All (λ n. n.other ≡ 0) missed.now }
{
    for each in missed {
        if has_other(each) {
            return false;
        }
    }
    true
}

/// Whether a call was refused otherwise.
fn has_other(missed: &Missed) -> bool
    ensures { result ≡ false → missed.now.other ≡ 0 }
{
    missed.other != 0
}

/// Room for what the given number of workers leave, made before the first thread starts.
struct Room<N: DeskName> {
    reports: Vec<Report<N>>,
    passes: Vec<Pass<N>>,
    missed: Vec<Missed>,
}

fn make_room<N: DeskName>(alloc: Global, count: usize) -> Result<Room<N>, AllocError>
    ensures empty { IfOk result (λ r. (r.reports.items ≡ []) × (r.passes.items ≡ []) × (r.missed.items ≡ [])) }
    ensures room { IfOk result (λ r. (count ≤ vec_capacity r.reports) × (count ≤ vec_capacity r.passes) × (count ≤ vec_capacity r.missed)) }
{
    Ok(Room {
        reports: Vec::with_capacity(alloc, count)?,
        passes: Vec::with_capacity(alloc, count)?,
        missed: Vec::with_capacity(alloc, count)?,
    })
}
