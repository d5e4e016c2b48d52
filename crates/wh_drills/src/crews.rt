//! Crews at a desk, beside a thread that looks at its board.
#![tactic(auto)]

ghost use Rattle.std.specs.Prelude.{◌≡◌, [], IfOk, length};
ghost use Rattle.wh_board.specs.Pasts.{origin_of, past_of};
ghost use Rattle.wh_desk.specs.Calls.{InOrder};

use super::gates::{Open, Together, Turns, Watched, hold};
use super::parts::{Outfit, Parts, fit_out, staffed};
use arrayvec::ArrayVec;
use std::alloc::{AllocError, Global};
use std::marker::Brand;
use std::sync::Wait;
use std::sync::atomic::AtomicU64;
use std::sync::atomic::Ordering::SeqCst;
use std::test::*;
use std::thread::{Threads, join};
use wh_board::Viewer;
use wh_crew::{CrewFault, Crewed, Gate, Missed, crew};
use wh_desk::{Desk, DeskName, Pass};
use wh_edge::{Work, agent_work, client_work, clock_work};
use wh_event::{Entry, Reply};
use wh_planner::Planner;
use wh_planners::Patient;

/// What a worker is to do.
#[derive(Clone, Copy)]
enum Chore {
    /// The commands of a script.
    Client(&'static str),
    /// This agent takes the token so often.
    Agent(u32, u32),
    /// This many ticks.
    Clock(u32),
}

/// Which test it is, and so what is looked at when its crew is through.
#[derive(Clone, Copy)]
enum Case {
    InTurn,
    TwoBegin,
    EightBegin,
    TenPlaces,
    Fronts,
}

/// A board in short.
#[derive(Clone, Copy, PartialEq, Eq, Default)]
struct Glimpse {
    entries: u64,
    clock: u32,
    open_tasks: u32,
}

fn work<P: Planner>(alloc: Global, chore: Chore) -> Result<Work<P>, Fail> {
    match chore {
        Chore::Client(script) => match client_work(alloc, script.as_bytes()) {
            Ok(work) => Ok(work),
            Err(_) => Err("a script".into()),
        },
        Chore::Agent(agent, turns) => Ok(agent_work(alloc, agent, turns)?),
        Chore::Clock(turns) => Ok(clock_work(alloc, turns)?),
    }
}

/// The works of a crew, and how many they are.
fn works<P: Planner>(alloc: Global, chores: &[Chore]) -> Result<(Vec<Work<P>>, u32), Fail>
    ensures { IfOk result (λ r. r.1 ≡ length r.0.items) }
{
    let mut works = Vec::new(alloc);
    for chore in chores {
        works.push(work(alloc, *chore)?)?;
    }
    match u32::try_from(works.len()) {
        Ok(callers) => Ok((works, callers)),
        Err(_) => Err("at most 64 workers".into()),
    }
}

/// Looks once more, and keeps what is seen where it is not what was seen before. How many entries it has.
fn look(viewer: &mut Viewer, seen: &mut ArrayVec<Glimpse, 16>) -> u64 {
    let board = viewer.look();
    let glimpse = Glimpse {
        entries: board.entries,
        clock: board.clock,
        open_tasks: board.open_tasks,
    };
    if seen.as_slice().last() != Some(&glimpse) && !seen.is_full() {
        seen.push(glimpse);
    }
    glimpse.entries
}

/// Looks at once, and whenever one more call was answered, so often, and tells how many entries are seen.
fn looks(mut viewer: Viewer, watch: &Watched, often: u64) -> (Viewer, ArrayVec<Glimpse, 16>) {
    let mut seen = ArrayVec::new();
    for answered in 0..=often {
        hold(&watch.answered, answered, &watch.limits);
        let entries = look(&mut viewer, &mut seen);
        watch.seen.store(entries, SeqCst);
    }
    (viewer, seen)
}

/// Opens a desk with as many callers as works, and has the crew work there. Whether all went as the case has it.
fn run<
    N: DeskName + Send + Sync,
    H: Wait + Send + Sync + Drop,
    P: Planner,
    R: Threads + Wait + Sync,
    G: Gate,
>(
    rt: &R,
    alloc: Global,
    outfit: Outfit<H, P>,
    works: Vec<Work<P>>,
    callers: u32,
    gate: &G,
    watch: &Watched,
    often: u64,
    case: Case,
) -> bool
    requires origin { origin_of outfit.warehouse.book ≡ N.origin }
    requires history { outfit.warehouse.book.history ≡ [] }
    requires cells { outfit.cells ≡ N.cells }
    requires book { outfit.publisher.book ≡ N.book }
    requires added { outfit.publisher.added ≡ past_of outfit.warehouse.book }
    requires shown { outfit.publisher.shown ≡ past_of outfit.warehouse.book }
    requires callers { N.callers ≡ callers }
    requires works { callers ≡ length works.items }
{
    let Outfit {
        warehouse,
        cells,
        publisher,
    } = outfit;
    match Desk::<N, H, P>::open(alloc, warehouse, cells, publisher, callers) {
        Ok((desk, passes)) => {
            beside_looks(rt, alloc, desk, passes, works, gate, watch, often, case)
        }
        Err(_) => false,
    }
}

/// Has the crew work at the desk, while another thread looks. It looks once more when the desk is gone.
fn beside_looks<
    N: DeskName + Send + Sync,
    H: Wait + Send + Sync + Drop,
    P: Planner,
    R: Threads + Wait + Sync,
    G: Gate,
>(
    rt: &R,
    alloc: Global,
    desk: Desk<N, H, P>,
    passes: Vec<Pass<N>>,
    works: Vec<Work<P>>,
    gate: &G,
    watch: &Watched,
    often: u64,
    case: Case,
) -> bool
    requires order { InOrder N.callers passes.items }
    requires works { length works.items ≡ length passes.items }
{
    let Ok(viewer) = desk.viewer(rt) else {
        drop(desk);
        return false;
    };
    let (looked, done) = join(
        rt,
        || looks(viewer, watch, often),
        || -> Result<Crewed<P>, CrewFault>
            requires { InOrder N.callers passes.items × (length works.items ≡ length passes.items) }
        { crew(rt, alloc, desk, passes, works, gate) },
    );
    let seen = look_again(looked);
    match done {
        Ok(done) => {
            let entries = done.history.warehouse.history();
            let is_well = went(case, entries, done.missed.as_slice(), seen.as_slice());
            drop(done);
            is_well
        }
        Err(_) => false,
    }
}

/// What is seen with one look more.
fn look_again(looked: (Viewer, ArrayVec<Glimpse, 16>)) -> ArrayVec<Glimpse, 16> {
    let (mut viewer, mut seen) = looked;
    look(&mut viewer, &mut seen);
    seen
}

/// Whether the history is as the case has it, and how many calls of each worker were refused, and what was seen of the board.
fn went(case: Case, entries: &[Entry], missed: &[Missed], seen: &[Glimpse]) -> bool {
    match case {
        Case::InTurn => missed == [NONE, NONE].as_slice() && are_in_turn(entries),
        Case::TwoBegin => missed == [NONE, NONE].as_slice() && entries.len() == 4,
        Case::EightBegin => missed == [NONE; 8].as_slice() && entries.len() == 8,
        Case::TenPlaces => entries.len() == 10 && found_full(missed) == 17,
        Case::Fronts => entries.len() == 4 && sees_fronts(entries, seen),
    }
}

/// A crew over a desk with a journal of the given number of positions, whose planners are made by `make`.
fn run_made<P: Planner, F: Fn(Parts) -> Result<P, AllocError>, R: Threads + Wait + Sync, G: Gate>(
    rt: &R,
    alloc: Global,
    capacity: u64,
    chores: &[Chore],
    gate: &G,
    watch: &Watched,
    often: u64,
    case: Case,
    make: &F,
) -> Result<bool, Fail>
    requires { F.IsAlwaysCallable make.now }
{
    let warehouse = staffed(alloc, make)?;
    let outfit = fit_out(rt, alloc, warehouse, capacity)?;
    match works(alloc, chores) {
        Ok((works, callers)) => Ok(run::<Brand, _, _, _, _>(
            rt, alloc, outfit, works, callers, gate, watch, often, case,
        )),
        Err(fault) => {
            drop(outfit);
            Err(fault)
        }
    }
}

/// The same with boxed planners.
fn watched<R: Threads + Wait + Sync, G: Gate>(
    rt: &R,
    alloc: Global,
    capacity: u64,
    chores: &[Chore],
    gate: &G,
    watch: &Watched,
    often: u64,
    case: Case,
) -> Result<bool, Fail> {
    let make = |parts: Parts| -> Result<Box<dyn Planner>, AllocError> {
        let patient = Patient::new(parts.grid, parts.claim);
        let planner: Box<dyn Planner> = Box::new(alloc, patient)?;
        Ok(planner)
    };
    run_made(rt, alloc, capacity, chores, gate, watch, often, case, &make)
}

/// The same over a journal of ten, and the other thread looks once.
fn crewed<R: Threads + Wait + Sync, G: Gate>(
    rt: &R,
    alloc: Global,
    chores: &[Chore],
    gate: &G,
    case: Case,
) -> Result<bool, Fail> {
    watched(rt, alloc, 10, chores, gate, &Watched::new(), 0, case)
}

/// No call was refused.
const NONE: Missed = Missed {
    full: 0,
    memory: 0,
    other: 0,
};

/// Two workers, each of whom submits and then ticks.
const TWO: [Chore; 2] = [
    Chore::Client("submit x A B\ntick\n"),
    Chore::Client("submit y D C\ntick\n"),
];

#[test]
fn gate_orders_workers(rt: HostRuntime) -> Result<(), Fail> {
    let gate = Turns {
        zero: AtomicU64::new(0),
        one: AtomicU64::new(0),
        limits: AtomicU64::new(0),
    };
    let went = crewed(&rt, rt.alloc(), &TWO, &gate, Case::InTurn)?;
    assert!(rt; went && gate.limits.load(SeqCst) == 0);
    Ok(())
}

/// Worker 1 submits, then worker 0, then each ticks.
fn are_in_turn(entries: &[Entry]) -> bool {
    entries.len() == 4
        && entries[0].caller == 1
        && entries[1].caller == 0
        && matches!(entries[0].reply, Reply::Accepted { task: 0 })
        && matches!(entries[1].reply, Reply::Accepted { task: 1 })
        && matches!(entries[2].reply, Reply::Clock { now: 1, .. })
        && matches!(entries[3].reply, Reply::Clock { now: 2, .. })
}

/// A gate at which each worker waits until all have begun.
fn together(workers: u64) -> Together {
    Together {
        workers,
        begun: AtomicU64::new(0),
        limits: AtomicU64::new(0),
    }
}

#[test]
fn both_begin(rt: HostRuntime) -> Result<(), Fail> {
    let gate = together(2);
    let went = crewed(&rt, rt.alloc(), &TWO, &gate, Case::TwoBegin)?;
    assert!(rt; went && gate.limits.load(SeqCst) == 0);
    Ok(())
}

#[test]
fn eight_begin(rt: HostRuntime) -> Result<(), Fail> {
    let gate = together(8);
    let chores = [Chore::Clock(1); 8];
    let went = crewed(&rt, rt.alloc(), &chores, &gate, Case::EightBegin)?;
    assert!(rt; went && gate.limits.load(SeqCst) == 0);
    Ok(())
}

/// Five workers of 27 calls.
const FIVE: [Chore; 5] = [
    Chore::Client("submit x A B\nsubmit x B A\n"),
    Chore::Client("submit y C D\n"),
    Chore::Agent(0, 8),
    Chore::Agent(1, 8),
    Chore::Clock(8),
];

/// How many calls found the journal full.
fn found_full(missed: &[Missed]) -> u64 {
    missed.iter().fold(0, |sum, n| sum.saturating_add(n.full))
}

#[test]
fn journal_of_ten(rt: HostRuntime) -> Result<(), Fail> {
    let gate = Open {
        begun: AtomicU64::new(0),
        ended: AtomicU64::new(0),
    };
    let went = crewed(&rt, rt.alloc(), &FIVE, &gate, Case::TenPlaces)?;
    assert!(rt; went && gate.begun.load(SeqCst) == 27 && gate.ended.load(SeqCst) == 27);
    Ok(())
}

/// The board of the first entries, up to a given number, of two clients who submit and tick.
fn front(entries: &[Entry], count: u64) -> Glimpse {
    let mut board = Glimpse::default();
    for entry in entries {
        if board.entries == count {
            break;
        }
        board.entries = board.entries.saturating_add(1);
        match &entry.reply {
            Reply::Clock { now, .. } => board.clock = *now,
            Reply::Accepted { .. } => board.open_tasks = board.open_tasks.saturating_add(1),
            _ => {}
        }
    }
    board
}

/// Whether each glimpse is the board of a front of the four entries, later than the one before, and the last that of all.
fn are_fronts(entries: &[Entry], seen: &[Glimpse]) -> bool {
    let mut before = None;
    for glimpse in seen {
        if *glimpse != front(entries, glimpse.entries) || before >= Some(glimpse.entries) {
            return false;
        }
        before = Some(glimpse.entries);
    }
    before == Some(4)
}

/// The same, and no call came second before the display had seen one that came first.
fn sees_fronts(entries: &[Entry], seen: &[Glimpse]) -> bool {
    let between = |glimpse: &Glimpse| glimpse.entries == 1 || glimpse.entries == 2;
    are_fronts(entries, seen) && seen.iter().any(between)
}

#[test]
fn looks_see_fronts_of_the_history(rt: HostRuntime) -> Result<(), Fail> {
    let gate = Watched::new();
    let went = watched(&rt, rt.alloc(), 10, &TWO, &gate, &gate, 4, Case::Fronts)?;
    assert!(rt; went && gate.limits.load(SeqCst) == 0);
    Ok(())
}
