//! Calls of a small desk that go through one journal.
#![tactic(auto)]

ghost use Rattle.std.specs.Prelude.{◌≡◌, [], IfOk};
ghost use Rattle.wh_board.specs.Pasts.{origin_of, past_of};

use super::displays::opened;
use std::alloc::{AllocError, Global};
use std::marker::Brand;
use std::sync::Wait;
use std::test::*;
use wh_board::Publisher;
use wh_desk::{Cells, Desk, DeskName, Pass, Receipt};
use wh_event::Command;
use wh_journal::{Journal, JournalFault, MemoryJournal, Warehouse};
use wh_planners::Patient;
use wh_replay::write_all;
use wh_scribe::{CallFault, JournalName, Kept, Scribe};

/// The line of the first call, with the first bytes of the next one's, and the lines of the first two calls, and of all three.
const ONE: &[u8] = b"0 token 0 = rested\n";

const BEGUN: &[u8] = b"0 token 0 = rested\n0 tic";

const TWO: &[u8] = b"0 token 0 = rested\n0 tick = clock 1 picked 0 dropped 0\n";

const THREE: &[u8] = b"0 token 0 = rested\n0 tick = clock 1 picked 0 dropped 0\n0 close = closed\n";

/// A journal in memory that tells its contracts nothing. This many appends succeed; the next one writes five bytes and fails.
#[derive(Drop)]
struct Weak {
    held: Vec<u8>,
    safe: usize,
    left: u32,
    has_failed: bool,
}

impl Weak {
    fn new(alloc: Global, left: u32) -> Weak {
        Weak {
            held: Vec::new(alloc),
            safe: 0,
            left,
            has_failed: false,
        }
    }
}

impl Journal for Weak {
    ghost failed = { λ j. j.has_failed };

    fn append(&mut self, bytes: &[u8]) -> Result<(), JournalFault> {
        if self.has_failed {
            return Err(JournalFault);
        }
        let front = if self.left == 0 {
            bytes.get(..5).unwrap_or(bytes)
        } else {
            bytes
        };
        if write_all(&mut self.held, front).is_err() || self.left == 0 {
            self.has_failed = true;
            return Err(JournalFault);
        }
        self.left -= 1;
        Ok(())
    }

    fn sync(&mut self) -> Result<(), JournalFault> {
        if self.has_failed {
            return Err(JournalFault);
        }
        self.safe = self.held.len();
        Ok(())
    }
}

/// What a call told.
#[derive(Clone, Copy, PartialEq, Eq)]
enum Told {
    At(u64),
    Refused,
    Failed,
    Unkept,
}

/// What three calls told, whether the first 1, 2, 3 and 4 entries were kept then, and whether all were, what the scribe left, and
/// how many entries the desk had.
#[derive(Drop)]
struct Session<J: Journal + Drop> {
    told: [Told; 3],
    keeps: [bool; 4],
    keeps_all: bool,
    kept: Kept<J>,
    entries: u64,
}

fn told_by(outcome: Result<Receipt, CallFault>) -> Told {
    match outcome {
        Ok(receipt) => Told::At(receipt.position),
        Err(CallFault::Refused(_)) => Told::Refused,
        Err(CallFault::Failed) => Told::Failed,
        Err(CallFault::Unkept) => Told::Unkept,
    }
}

/// The first 1, 2, 3 and 4 entries, whether each was kept.
fn keeps<N: DeskName, S: JournalName, J: Journal + Drop, R: Wait>(
    rt: &R,
    scribe: &Scribe<N, S, J>,
    pass: &Pass<N>,
) -> [bool; 4] {
    [
        scribe.keeps(rt, pass.front(), 1),
        scribe.keeps(rt, pass.front(), 2),
        scribe.keeps(rt, pass.front(), 3),
        scribe.keeps(rt, pass.front(), 4),
    ]
}

/// The three calls at a desk, through a scribe; and where another call is made beside it, behind the request.
fn held_session<N: DeskName, S: JournalName, J: Journal + Drop, H: Wait + Drop, R: Wait>(
    rt: &R,
    alloc: Global,
    scribe: Scribe<N, S, J>,
    desk: &Desk<N, H, Patient>,
    mut pass: Pass<N>,
    beside: bool,
) -> Session<J> {
    let told = three(rt, alloc, &scribe, desk, &mut pass, beside);
    Session {
        told,
        keeps: keeps(rt, &scribe, &pass),
        keeps_all: scribe.keeps_all(rt),
        kept: scribe.into_journal(),
        entries: pass.len(),
    }
}

/// What a desk of one caller is opened over.
#[derive(Drop)]
struct Outfit<H: Wait + Drop> {
    warehouse: Warehouse<Patient>,
    cells: Cells,
    publisher: Publisher<H>,
}

/// The pass of the only caller.
fn only_pass<N: DeskName>(mut passes: Vec<Pass<N>>) -> Option<Pass<N>> {
    passes.pop()
}

/// A request, a tick and a close at a desk of one caller, through a scribe over the journal; and where another call is made
/// beside it, behind the request.
fn calls<N: DeskName, S: JournalName, J: Journal + Drop, H: Wait + Drop, R: Wait>(
    rt: &R,
    alloc: Global,
    outfit: Outfit<H>,
    journal: J,
    beside: bool,
) -> Option<Session<J>>
    requires origin { origin_of outfit.warehouse.book ≡ N.origin }
    requires history { outfit.warehouse.book.history ≡ [] }
    requires cells { outfit.cells ≡ N.cells }
    requires book { outfit.publisher.book ≡ N.book }
    requires added { outfit.publisher.added ≡ past_of outfit.warehouse.book }
    requires shown { outfit.publisher.shown ≡ past_of outfit.warehouse.book }
    requires callers { N.callers ≡ 1 }
    requires start { J.contents journal ≡ S.start }
    requires synced { J.synced journal ≡ J.contents journal }
{
    let Outfit {
        warehouse,
        cells,
        publisher,
    } = outfit;
    let scribe = Scribe::<N, S, J>::new(alloc, journal, publisher.front(), 0);
    match Desk::<N, H, Patient>::open(alloc, warehouse, cells, publisher, 1) {
        Ok((desk, passes)) => match only_pass(passes) {
            Some(pass) => {
                let session = held_session(rt, alloc, scribe, &desk, pass, beside);
                drop(desk);
                Some(session)
            }
            None => {
                drop(desk);
                drop(scribe);
                None
            }
        },
        Err(_) => {
            drop(scribe);
            None
        }
    }
}

/// What the three calls told.
fn three<N: DeskName, S: JournalName, J: Journal + Drop, H: Wait + Drop, R: Wait>(
    rt: &R,
    alloc: Global,
    scribe: &Scribe<N, S, J>,
    desk: &Desk<N, H, Patient>,
    pass: &mut Pass<N>,
    beside: bool,
) -> [Told; 3] {
    let mut spares = Vec::new(alloc);
    let request = Command::Token { agent: 0 };
    let first = told_by(scribe.call(rt, alloc, desk, pass, request, &mut spares));
    if beside {
        let _receipt = desk.tick(rt, alloc, pass);
    }
    let second = told_by(scribe.call(rt, alloc, desk, pass, Command::Tick, &mut spares));
    let third = told_by(scribe.call(rt, alloc, desk, pass, Command::Close, &mut spares));
    [first, second, third]
}

/// The cells, of the given number, and the publisher.
fn cells_and_publisher<'a, R: Wait>(
    rt: &'a R,
    alloc: Global,
    warehouse: &Warehouse<Patient>,
    capacity: u64,
) -> Result<(Cells, Publisher<&'a R>), AllocError>
    ensures added { IfOk result (λ r. r.1.added ≡ past_of warehouse.now.book) }
    ensures shown { IfOk result (λ r. r.1.shown ≡ past_of warehouse.now.book) }
{
    let cells = Cells::new(alloc, capacity)?;
    let publisher = Publisher::new(alloc, rt, warehouse.book())?;
    Ok((cells, publisher))
}

/// The outfit of a desk with the given number of cells. What may fail borrows the warehouse, as each exit beside it would drop it.
fn fit_out<'a, R: Wait>(rt: &'a R, alloc: Global, capacity: u64) -> Result<Outfit<&'a R>, Fail>
    ensures history { IfOk result (λ o. o.warehouse.book.history ≡ []) }
    ensures added { IfOk result (λ o. o.publisher.added ≡ past_of o.warehouse.book) }
    ensures shown { IfOk result (λ o. o.publisher.shown ≡ past_of o.warehouse.book) }
{
    let warehouse = opened(alloc)?;
    match cells_and_publisher(rt, alloc, &warehouse, capacity) {
        Ok((cells, publisher)) => Ok(Outfit {
            warehouse,
            cells,
            publisher,
        }),
        Err(_) => {
            drop(warehouse);
            Err("cells and a publisher".into())
        }
    }
}

/// The calls at a desk with the given number of cells. None: it does not open.
fn called<J: Journal + Drop, R: Wait>(
    rt: &R,
    alloc: Global,
    capacity: u64,
    journal: J,
    beside: bool,
) -> Result<Option<Session<J>>, Fail>
    requires synced { J.synced journal ≡ J.contents journal }
{
    match fit_out(rt, alloc, capacity) {
        Ok(outfit) => Ok(calls::<Brand, Brand, _, _, _>(rt, alloc, outfit, journal, beside)),
        Err(fault) => {
            drop(journal);
            Err(fault)
        }
    }
}

/// What is left of three calls.
struct Left {
    told: [Told; 3],
    entries: u64,
    written: u64,
    failed: bool,
    keeps: [bool; 4],
    held: &'static [u8],
    safe: usize,
}

/// Whether a session, but for its journal, is what is left so.
fn is_left<J: Journal + Drop>(session: &Session<J>, left: &Left) -> bool {
    let kept = &session.kept;
    session.told == left.told
        && session.entries == left.entries
        && (kept.written, kept.synced, kept.failed) == (left.written, left.written, left.failed)
        && session.keeps == left.keeps
}

/// Whether a session in memory is what is left so.
fn is_left_in_memory(session: Session<MemoryJournal>, left: &Left) -> bool {
    let journal = &session.kept.journal;
    is_left(&session, left) && journal.held.as_slice() == left.held && journal.safe == left.safe
}

/// Whether the calls at a desk with so many cells leave that in memory.
fn leaves_in_memory<R: Wait>(
    rt: &R,
    alloc: Global,
    capacity: u64,
    beside: bool,
    left: &Left,
) -> Result<bool, Fail> {
    match called(rt, alloc, capacity, MemoryJournal::new(alloc), beside)? {
        Some(session) => Ok(is_left_in_memory(session, left)),
        None => Ok(false),
    }
}

const THREE_KEPT: Left = Left {
    told: [Told::At(0), Told::At(1), Told::At(2)],
    entries: 3,
    written: 3,
    failed: false,
    keeps: [true, true, true, false],
    held: THREE,
    safe: THREE.len(),
};

#[test]
fn entries_are_kept(rt: HostRuntime) -> Result<(), Fail> {
    assert!(rt; leaves_in_memory(&rt, rt.alloc(), 3, false, &THREE_KEPT)?);
    Ok(())
}

const TWO_KEPT: Left = Left {
    told: [Told::At(0), Told::At(1), Told::Refused],
    entries: 2,
    written: 2,
    failed: false,
    keeps: [true, true, false, false],
    held: TWO,
    safe: TWO.len(),
};

#[test]
fn a_refused_call_is_not_kept(rt: HostRuntime) -> Result<(), Fail> {
    assert!(rt; leaves_in_memory(&rt, rt.alloc(), 2, false, &TWO_KEPT)?);
    Ok(())
}

const BEGUN_KEPT: Left = Left {
    told: [Told::At(0), Told::Unkept, Told::Failed],
    entries: 2,
    written: 1,
    failed: true,
    keeps: [true, false, false, false],
    held: BEGUN,
    safe: ONE.len(),
};

/// Whether a session over a weak journal is what is left so.
fn is_left_weak(session: Session<Weak>, left: &Left) -> bool {
    let journal = &session.kept.journal;
    is_left(&session, left) && journal.held.as_slice() == left.held && journal.safe == left.safe
}

/// Whether the calls at a desk of three cells leave that in a journal that takes one line.
fn leaves_weak<R: Wait>(rt: &R, alloc: Global, left: &Left) -> Result<bool, Fail> {
    match called(rt, alloc, 3, Weak::new(alloc, 1), false)? {
        Some(session) => Ok(is_left_weak(session, left)),
        None => Ok(false),
    }
}

#[test]
fn nothing_is_kept_behind_a_fault(rt: HostRuntime) -> Result<(), Fail> {
    assert!(rt; leaves_weak(&rt, rt.alloc(), &BEGUN_KEPT)?);
    Ok(())
}

const ONE_KEPT: Left = Left {
    told: [Told::At(0), Told::Unkept, Told::Failed],
    entries: 3,
    written: 1,
    failed: true,
    keeps: [true, false, false, false],
    held: ONE,
    safe: ONE.len(),
};

#[test]
fn a_call_beside_the_scribe_ends_it(rt: HostRuntime) -> Result<(), Fail> {
    assert!(rt; leaves_in_memory(&rt, rt.alloc(), 4, true, &ONE_KEPT)?);
    Ok(())
}

/// Whether all entries were kept at the end, and whether so many were synced.
fn all_of<J: Journal + Drop>(session: Session<J>) -> (bool, bool) {
    (session.keeps_all, session.kept.synced == session.entries)
}

/// The same of the calls at a desk with so many cells, over a journal. None: it does not open.
fn keeps_all<J: Journal + Drop, R: Wait>(
    rt: &R,
    alloc: Global,
    capacity: u64,
    journal: J,
    beside: bool,
) -> Result<Option<(bool, bool)>, Fail>
    requires { J.synced journal ≡ J.contents journal }
{
    match called(rt, alloc, capacity, journal, beside)? {
        Some(session) => Ok(Some(all_of(session))),
        None => Ok(None),
    }
}

fn keeps_all_in_memory<R: Wait>(
    rt: &R,
    alloc: Global,
    capacity: u64,
    beside: bool,
) -> Result<Option<(bool, bool)>, Fail> {
    keeps_all(rt, alloc, capacity, MemoryJournal::new(alloc), beside)
}

/// A refused call has no entry, so that all are kept; not so where the journal has failed, or an entry was not entered.
#[test]
fn all_is_kept_until_a_fault(rt: HostRuntime) -> Result<(), Fail> {
    assert!(rt; keeps_all_in_memory(&rt, rt.alloc(), 3, false)? == Some((true, true)));
    assert!(rt;
        matches!(
            keeps_all_in_memory(&rt, rt.alloc(), 2, false)?,
            Some((true, _))
        )
    );
    let failed = keeps_all(&rt, rt.alloc(), 3, Weak::new(rt.alloc(), 1), false)?;
    assert!(rt; matches!(failed, Some((false, _))));
    assert!(rt;
        matches!(
            keeps_all_in_memory(&rt, rt.alloc(), 4, true)?,
            Some((false, _))
        )
    );
    Ok(())
}
