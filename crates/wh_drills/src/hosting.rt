//! A client over bytes, with a worker for agents and clock and a screen beside it.
#![tactic(auto)]

use super::houses::{Counts, House, Notes};
use super::joining::{begun, closes_it, comes_to_nothing};
use super::screens::TextScreen;
use std::alloc::Global;
use std::sync::Wait;
use std::sync::atomic::AtomicU64;
use std::test::*;
use std::thread::Threads;
use std::time::{Clock, Duration};
use wh_board::Board;
use wh_desk::DeskFault;
use wh_display::{ShowFault, text_of_board};
use wh_edge::Trouble;
use wh_event::{Entry, Event, Reply};
use wh_host::{Display, Pacing, Ran, run_clients};
use wh_journal::MemoryJournal;
use wh_log::entries_text;
use wh_planners::Patient;
use wh_serve::{CallFault, Form, Full, ServeFault, WorkerEnd};

/// The log of a run without entries, except for its end line.
const HEAD: &[u8] = b"wlog 2\nstart 0 slots 4 4\n";

/// Its board.
const FIRST: &[u8] =
    b"wboard 1\nentries 0\nclock 0\nopen 0\nassigned 0\ncarried 0\ndone 0\n0,1 0 none\n4,1 0 none\n";

/// The log of a run in which an order is open, except for its end line.
const ORDERED: &[u8] = b"wlog 2\nstart 0 slots 4 4\n0 submit x A B = accepted 0\n";

/// Its board.
const OPEN: &[u8] =
    b"wboard 1\nentries 1\nclock 0\nopen 1\nassigned 0\ncarried 0\ndone 0\n0,1 0 none\n4,1 0 none\n";

/// What these runs leave.
pub type Left<'a> = Ran<MemoryJournal, TextScreen<'a>, Patient>;

/// Which test it is, and so what is looked at when its run has ended.
#[derive(Clone, Copy)]
pub enum Case {
    TasksDone,
    JournalFull,
    ShareLeft,
    ShareUsed,
    Fault,
    GoesOn,
    Nobodys,
}

/// How a run is hosted: what its journal holds before; what the client sends over its connections, and how many of these come at
/// once; how many entries more the journal may have, how many the client, and how many the worker, where one is beside it; whether
/// there is a screen; and whether the journal has failed before anybody comes.
#[derive(Clone, Copy)]
pub struct Plan {
    pub before: &'static [u8],
    pub sends: &'static [&'static [u8]],
    pub at_once: u64,
    pub entries: u32,
    pub share: u64,
    pub worker: Option<u64>,
    pub has_screen: bool,
    pub has_failed: bool,
}

/// A run that begins, with a worker and a screen, and with room for all that the worker does until the client closes.
const PLAN: Plan = Plan {
    before: b"",
    sends: &[],
    at_once: 0,
    entries: 100_000,
    share: 3,
    worker: Some(100_000),
    has_screen: true,
    has_failed: false,
};

/// The worker and the looks at the board rest this many milliseconds.
const PAUSE: u64 = 1;

/// The pace of the worker, if there is one: it may look as often as there may be entries, and once more, to find the journal full.
fn pace_of(plan: &Plan) -> Option<Pacing> {
    match plan.worker {
        Some(entries) => Some(Pacing {
            turns: u64::from(plan.entries) + 1,
            pause: Duration::from_millis(PAUSE),
            entries,
        }),
        None => None,
    }
}

/// The display, if there is one.
fn display_of<'a>(
    alloc: Global,
    cues: &'a AtomicU64,
    plan: &Plan,
) -> Option<Display<TextScreen<'a>>> {
    plan.has_screen.then_some(Display {
        screen: TextScreen::new(alloc, cues),
        pause: Duration::from_millis(PAUSE),
    })
}

/// Hosts the one client.
#[tactic(auto, using(crate::proofs::Begun::few_callers))]
fn host<'a, X: Threads + Wait + Clock + Sync>(
    rt: &X,
    alloc: Global,
    house: &'a House<'a, X>,
    plan: &Plan,
) -> Result<Result<Left<'a>, Trouble>, Fail> {
    let mut journal = MemoryJournal::new(alloc);
    let mut clients = Vec::new(alloc);
    let warehouse = begun(alloc, &mut journal, &mut clients, plan)?;
    let pace = pace_of(plan);
    let display = display_of(alloc, &house.cues, plan);
    Ok(run_clients::<_, _, _, &'static [u8], Vec<u8>, _, _>(
        rt,
        alloc,
        Form::Short,
        warehouse,
        clients,
        plan.entries,
        journal,
        house,
        pace,
        display,
    ))
}

/// Hosts the client at the house, and tells whether all went as the case has it. What the run leaves ends in here.
fn hosts_at<'a, X: Threads + Wait + Clock + Sync>(
    rt: &X,
    alloc: Global,
    house: &'a House<'a, X>,
    case: Case,
    plan: &Plan,
) -> Result<bool, Fail> {
    let outcome = host(rt, alloc, house, plan)?;
    let counts = house.counts();
    let notes = house.notes.lock(rt);
    let is_well = went(alloc, case, &outcome, &notes, counts);
    drop(outcome);
    Ok(is_well)
}

/// Hosts the plan's client, and tells whether all went as the case has it.
pub fn hosts<X: Threads + Wait + Clock + Sync>(
    rt: &X,
    alloc: Global,
    case: Case,
    plan: &Plan,
) -> Result<bool, Fail> {
    let house = House::new(rt, alloc, plan.sends, plan.at_once);
    hosts_at(rt, alloc, &house, case, plan)
}

/// Whether it came out as the case has it, and no limit was met.
fn went(
    alloc: Global,
    case: Case,
    outcome: &Result<Left, Trouble>,
    notes: &Notes,
    counts: Counts,
) -> bool {
    if counts.limits > 0 {
        return false;
    }
    match (case, outcome) {
        (Case::Nobodys, Err(trouble)) => comes_to_nothing(*trouble, notes, counts.opened),
        (Case::TasksDone, Ok(ran)) => is_done(alloc, ran, notes),
        (Case::JournalFull, Ok(ran)) => is_filled(ran, notes),
        (Case::ShareLeft, Ok(ran)) => leaves_a_share(ran, notes),
        (Case::ShareUsed, Ok(ran)) => has_used_its_share(ran, notes),
        (Case::Fault, Ok(ran)) => stops_at_the_fault(ran, notes, counts.over),
        (Case::GoesOn, Ok(ran)) => closes_it(ran, notes),
        _ => false,
    }
}

/// Whether the journal is the log of the history, except for its end line, and all of it was synced.
fn is_log(alloc: Global, ran: &Left) -> bool {
    let held = ran.journal.held.as_slice();
    match entries_text(alloc, ran.history.warehouse.history()) {
        Ok(lines) => {
            held.strip_prefix(HEAD) == Some(lines.as_slice()) && ran.journal.safe == held.len()
        }
        Err(_) => false,
    }
}

/// Whether all but the client's are requests for the token and ticks of the caller behind it.
fn is_paced(entries: &[Entry]) -> bool {
    entries.iter().all(|entry| {
        let is_turn = matches!(entry.event, Event::Request { .. } | Event::Tick);
        entry.caller == u32::from(is_turn)
    })
}

/// How many tasks the clock told as picked up, and how many as dropped.
fn carried(entries: &[Entry]) -> (u32, u32) {
    let mut all = (0u32, 0u32);
    for entry in entries {
        if let Reply::Clock {
            picked,
            dropped,
            ..
        } = &entry.reply
        {
            all = (
                all.0.saturating_add(*picked),
                all.1.saturating_add(*dropped),
            );
        }
    }
    all
}

/// How many entries a board's text says that there are.
fn entries_in(text: &[u8]) -> u64 {
    let mut entries = 0u64;
    for byte in text.strip_prefix(b"wboard 1\nentries ").unwrap_or(b"") {
        if !byte.is_ascii_digit() {
            break;
        }
        entries = entries
            .saturating_mul(10)
            .saturating_add(u64::from(byte.saturating_sub(b'0')));
    }
    entries
}

/// Whether each text has more entries than the one before, and the last this many.
fn rises_to(texts: &[Vec<u8>], count: u64) -> bool {
    let mut before = None;
    for text in texts {
        let entries = Some(entries_in(text.as_slice()));
        if entries <= before {
            return false;
        }
        before = entries;
    }
    before == Some(count)
}

/// Whether the board of the run's beginning was shown first.
fn begins(texts: &[Vec<u8>]) -> bool {
    texts.first().is_some_and(|text| text.as_slice() == FIRST)
}

/// Whether the board of the run's beginning was shown first, that of the whole last, and each of more entries than the one before.
fn shows_all(alloc: Global, ran: &Left) -> bool {
    let Some(screen) = &ran.screen else {
        return false;
    };
    let texts = screen.texts.as_slice();
    let whole = Board::of(ran.history.warehouse.book());
    match text_of_board(alloc, &whole) {
        Ok(whole) => {
            begins(texts)
                && rises_to(texts, ran.history.warehouse.history().len() as u64)
                && texts
                    .last()
                    .is_some_and(|text| text.as_slice() == whole.as_slice())
        }
        Err(_) => false,
    }
}

/// Whether the client's two tasks were carried beside it, kept and shown, and it was told its replies.
fn is_done(alloc: Global, ran: &Left, notes: &Notes) -> bool {
    let entries = ran.history.warehouse.history();
    let told =
        b"entries 0 0123456789abcdef\naccepted 0\naccepted 1\nentries 2 0123456789abcdef\nclosed\n";
    is_paced(entries)
        && carried(entries) == (2, 2)
        && ran.is_whole
        && is_log(alloc, ran)
        && ran.last.is_ok()
        && shows_all(alloc, ran)
        && ran.worker.is_none()
        && ran.connections.as_slice() == [2].as_slice()
        && notes.told.as_slice() == told.as_slice()
        && notes.fulls.is_empty()
        && notes.ended.is_none()
}

#[test]
fn tasks_are_done_beside_a_client(rt: HostRuntime) -> Result<(), Fail> {
    let plan = Plan {
        sends: &[
            b"begin 0123456789abcdef\nsubmit x A B\nsubmit y C D\n",
            b"begin 0123456789abcdef\nclose\n",
        ],
        at_once: 1,
        ..PLAN
    };
    assert!(rt; hosts(&rt, rt.alloc(), Case::TasksDone, &plan)?);
    Ok(())
}

/// What a worker adds to it in three turns: at the first the nearer agent asks, and nobody else, as no task is open then.
const FOUR: &[u8] =
    b"1 token 0 = took 0 path 0,1 1,1 1,0 1,1 2,1 3,1 3,0\n1 tick = clock 1 picked 0 dropped 0\n1 tick = clock 2 picked 1 dropped 0\n1 tick = clock 3 picked 0 dropped 0\n";

/// Whether the worker filled the journal, and the client was refused twice.
fn is_filled(ran: &Left, notes: &Notes) -> bool {
    let full = Some(WorkerEnd::Untold(CallFault::Refused(DeskFault::Full)));
    let twice = [(0, Full::Journal), (0, Full::Journal)];
    ran.worker == full
        && ran.is_whole
        && ran.journal.held.as_slice().strip_prefix(ORDERED) == Some(FOUR)
        && ran.screen.is_none()
        && ran.last.is_ok()
        && notes.ended == full
        && notes.fulls.as_slice() == twice.as_slice()
        && notes.told.as_slice()
            == b"entries 1 0123456789abcdef\nrefused E11\nrefused E11\n".as_slice()
}

#[test]
fn a_worker_fills_the_journal(rt: HostRuntime) -> Result<(), Fail> {
    let plan = Plan {
        before: ORDERED,
        sends: &[b"begin 0123456789abcdef\ntick\n# nothing\nclose\n"],
        entries: 4,
        has_screen: false,
        ..PLAN
    };
    assert!(rt; hosts(&rt, rt.alloc(), Case::JournalFull, &plan)?);
    Ok(())
}

/// What a worker that has two calls adds to it, and a client that closes.
const TWO: &[u8] =
    b"1 token 0 = took 0 path 0,1 1,1 1,0 1,1 2,1 3,1 3,0\n1 tick = clock 1 picked 0 dropped 0\n0 close = closed\n";

/// Whether the worker ended at its share, and the client closed behind it.
fn leaves_a_share(ran: &Left, notes: &Notes) -> bool {
    ran.worker == Some(WorkerEnd::ShareUsed)
        && ran.is_whole
        && ran.journal.held.as_slice().strip_prefix(ORDERED) == Some(TWO)
        && notes.ended == Some(WorkerEnd::ShareUsed)
        && notes.fulls.is_empty()
        && notes.told.as_slice() == b"entries 1 0123456789abcdef\nclosed\n".as_slice()
}

#[test]
fn a_worker_leaves_a_client_its_share(rt: HostRuntime) -> Result<(), Fail> {
    let plan = Plan {
        before: ORDERED,
        sends: &[b"begin 0123456789abcdef\nclose\n"],
        entries: 3,
        share: 2,
        worker: Some(2),
        has_screen: false,
        ..PLAN
    };
    assert!(rt; hosts(&rt, rt.alloc(), Case::ShareLeft, &plan)?);
    Ok(())
}

/// Whether the client's second tick was refused, since its share was used.
fn has_used_its_share(ran: &Left, notes: &Notes) -> bool {
    let told = b"entries 0 0123456789abcdef\nclock 1 picked 0 dropped 0\nrefused E11\n";
    notes.fulls.as_slice() == [(0, Full::Share)].as_slice()
        && notes.told.as_slice() == told.as_slice()
        && notes.ended.is_none()
        && ran.worker.is_none()
        && ran.history.warehouse.history().len() == 1
}

#[test]
fn a_share_is_used(rt: HostRuntime) -> Result<(), Fail> {
    let plan = Plan {
        sends: &[b"begin 0123456789abcdef\ntick\ntick\n"],
        at_once: 2,
        entries: 2,
        share: 1,
        worker: None,
        has_screen: false,
        ..PLAN
    };
    assert!(rt; hosts(&rt, rt.alloc(), Case::ShareUsed, &plan)?);
    Ok(())
}

/// Whether one board was shown, that of the run's beginning, in which an order is open.
fn shows_the_first(ran: &Left) -> bool {
    let Some(screen) = &ran.screen else {
        return false;
    };
    let texts = screen.texts.as_slice();
    texts.len() == 1 && texts.first().is_some_and(|text| text.as_slice() == OPEN)
}

/// Whether nothing was kept, told or shown of the one call that was made, and the service ended once.
fn stops_at_the_fault(ran: &Left, notes: &Notes, over: u64) -> bool {
    let unkept = Some(WorkerEnd::Untold(CallFault::Unkept));
    shows_the_first(ran)
        && ran.last == Err(ShowFault::Unshown)
        && ran.worker == unkept
        && ran.history.warehouse.history().len() == 2
        && !ran.is_whole
        && ran.journal.held.as_slice() == ORDERED
        && notes.ended == unkept
        && notes.outcome == Some(Err(ServeFault::Unjournaled))
        && notes.told.as_slice() == b"entries 1 0123456789abcdef\n".as_slice()
        && over == 1
}

#[test]
fn nothing_is_told_or_shown_behind_a_fault(rt: HostRuntime) -> Result<(), Fail> {
    let plan = Plan {
        before: ORDERED,
        sends: &[
            b"begin 0123456789abcdef\nsubmit x A B\n",
            b"begin 0123456789abcdef\ntick\n",
        ],
        has_failed: true,
        ..PLAN
    };
    assert!(rt; hosts(&rt, rt.alloc(), Case::Fault, &plan)?);
    Ok(())
}
