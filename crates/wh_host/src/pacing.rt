//! A worker for all agents and the clock, beside clients.
#![tactic(auto)]

ghost use Rattle.std.specs.Prelude.{◌≡◌, ◌≢◌, ◌<◌, ◌≤◌, ◌⊎◌, [], None, true, false, cond, IfErr, IfNone, IfOk, IfSome, length};
ghost use Rattle.wh_desk.specs.Calls.{AskedNext, NobodyAsked};
ghost use Rattle.wh_crew.specs.Turns.{AllAsked, ComesTo, IsOutcome, TicksOnce, nobody};
ghost use Rattle.wh_host.specs.Pacing.{AsksOnce, PacesUntil, StopsAsking, StopsTicking, StopsTurn};

use std::alloc::Global;
use std::io::{Read, Write};
use std::sync::Wait;
use std::time::{Clock, Duration};
use wh_board::Board;
use wh_crew::{Idle, LastTurn, is_to_tick};
use wh_desk::{Desk, DeskFault, DeskName, Pass, Receipt, Stale};
use wh_display::Bell;
use wh_event::Command;
use wh_journal::Journal;
use wh_planner::Planner;
use wh_scribe::{CallFault, JournalName, Scribe};
use wh_serve::{Doors, WorkerEnd};

/// How the worker for all agents and the clock goes on.
#[derive(Clone, Copy, Debug, PartialEq, Eq)]
pub struct Pacing {
    /// It looks at most this often, and takes a turn at most at each look.
    pub turns: u64,
    /// How long it rests before each look.
    pub pause: Duration,
    /// At most this many entries of the history may be its own.
    pub entries: u64,
}

/// Whether the worker has as many entries as may be its own.
fn is_used<N: DeskName>(pass: &Pass<N>, entries: u64) -> bool
    ensures used { result ≡ true → entries ≤ length pass.now.list }
    ensures left { result ≡ false → length pass.now.list < entries }
{
    pass.len() >= entries
}

/// One request more in a turn: the agent that is next to ask, of those that were not asked, takes the token. `None`: nobody is left to ask.
fn ask_next<N: DeskName, S: JournalName, J: Journal + Drop, H: Wait + Drop, P: Planner, X: Wait>(
    rt: &X,
    alloc: Global,
    desk: &Desk<N, H, P>,
    scribe: &Scribe<N, S, J>,
    pass: &mut Pass<N>,
    entries: u64,
    asked: &mut [bool],
) -> Result<Option<Receipt>, WorkerEnd>
    requires { length asked.old ≡ length N.origin.site.layout.agents }
    ensures next { IfOk result (λ next. IfSome next (λ r. AskedNext N.origin pass.old asked.old pass.new asked.new r.position r.entry)) }
    ensures none { IfOk result (λ next. IfNone next (NobodyAsked N.origin pass.old asked.old pass.new asked.new)) }
    ensures err { IfErr result (λ end. StopsAsking N.origin (length N.cells) entries pass.old asked.old end pass.new) }
    ensures share { (pass.new.list ≡ pass.old.list) ⊎ (length pass.new.list ≤ entries) }
{
    if is_used(pass, entries) {
        return Err(WorkerEnd::ShareUsed);
    }
    match scribe.request_next(rt, alloc, desk, pass, asked) {
        Ok(next) => Ok(next),
        Err(fault) => Err(WorkerEnd::Untold(fault)),
    }
}

/// The same, and what it brings counts for the turn. Whether anybody asked.
fn ask_one<N: DeskName, S: JournalName, J: Journal + Drop, H: Wait + Drop, P: Planner, X: Wait>(
    rt: &X,
    alloc: Global,
    desk: &Desk<N, H, P>,
    scribe: &Scribe<N, S, J>,
    pass: &mut Pass<N>,
    entries: u64,
    asked: &mut [bool],
    last: &mut LastTurn,
) -> Result<bool, WorkerEnd>
    requires { length asked.old ≡ length N.origin.site.layout.agents }
    ensures asks { IfOk result (λ some. some ≡ true → AsksOnce N.origin pass.old asked.old last.old pass.new asked.new last.new) }
    ensures none { IfOk result (λ some. some ≡ false → NobodyAsked N.origin pass.old asked.old pass.new asked.new × (last.new ≡ last.old)) }
    ensures err { IfErr result (λ end. StopsAsking N.origin (length N.cells) entries pass.old asked.old end pass.new) }
    ensures share { (pass.new.list ≡ pass.old.list) ⊎ (length pass.new.list ≤ entries) }
{
    match ask_next(rt, alloc, desk, scribe, pass, entries, asked) {
        Ok(Some(receipt)) => {
            last.receive(receipt.position, &receipt.entry.reply);
            Ok(true)
        }
        Ok(None) => Ok(false),
        Err(end) => Err(end),
    }
}

/// The requests of a turn at a board, of which there was none: agents ask, one after another, each as it is next to ask, until nobody is left
/// to ask. Whether any did.
fn ask_until<N: DeskName, S: JournalName, J: Journal + Drop, H: Wait + Drop, P: Planner, X: Wait>(
    rt: &X,
    alloc: Global,
    desk: &Desk<N, H, P>,
    scribe: &Scribe<N, S, J>,
    pass: &mut Pass<N>,
    entries: u64,
    board: &Board,
    asked: &mut [bool],
    last: &mut LastTurn,
) -> Result<bool, WorkerEnd>
    requires seats { length asked.old ≡ length N.origin.site.layout.agents }
    requires nobody { asked.old ≡ nobody N.origin }
    requires first { IsOutcome board.now [] last.old }
    ensures ok { IfOk result (λ some. AllAsked N.origin board.now pass.old some pass.new last.new) }
    ensures err { IfErr result (λ end. StopsAsking N.origin (length N.cells) entries pass.old (nobody N.origin) end pass.new) }
    ensures share { (pass.new.list ≡ pass.old.list) ⊎ (length pass.new.list ≤ entries) }
{
    let _ = board;
    let mut some = false;
    while ask_one(rt, alloc, desk, scribe, pass, entries, asked, last)? {
        some = true;
    }
    Ok(some)
}

/// The requests of a turn at a board. Nobody asks where no task is open. Whether any agent did.
fn ask_all<N: DeskName, S: JournalName, J: Journal + Drop, H: Wait + Drop, P: Planner, X: Wait>(
    rt: &X,
    alloc: Global,
    desk: &Desk<N, H, P>,
    scribe: &Scribe<N, S, J>,
    pass: &mut Pass<N>,
    entries: u64,
    board: &Board,
    last: &mut LastTurn,
) -> Result<bool, WorkerEnd>
    requires seats { length board.now.agents.items ≡ length N.origin.site.layout.agents }
    requires first { IsOutcome board.now [] last.old }
    ensures ok { IfOk result (λ some. AllAsked N.origin board.now pass.old some pass.new last.new) }
    ensures err { IfErr result (λ end. StopsAsking N.origin (length N.cells) entries pass.old (nobody N.origin) end pass.new) }
    ensures task { IfErr result (λ _. board.now.open_tasks ≢ 0) }
    ensures share { (pass.new.list ≡ pass.old.list) ⊎ (length pass.new.list ≤ entries) }
{
    if board.open_tasks == 0 {
        return Ok(false);
    }
    let Ok(mut asked) = vec![in alloc; false; board.agents.len()] else {
        return Err(WorkerEnd::Untold(CallFault::Refused(DeskFault::NoMemory)));
    };
    ask_until(
        rt,
        alloc,
        desk,
        scribe,
        pass,
        entries,
        board,
        asked.as_mut_slice(),
        last,
    )
}

/// The clock ticks.
fn tick<N: DeskName, S: JournalName, J: Journal + Drop, H: Wait + Drop, P: Planner, X: Wait>(
    rt: &X,
    alloc: Global,
    desk: &Desk<N, H, P>,
    scribe: &Scribe<N, S, J>,
    pass: &mut Pass<N>,
    entries: u64,
    last: &mut LastTurn,
) -> Result<(), WorkerEnd>
    ensures ok { IfOk result (λ _. TicksOnce pass.old last.old pass.new last.new) }
    ensures err { IfErr result (λ end. StopsTicking (length N.cells) entries pass.old end pass.new) }
    ensures share { (pass.new.list ≡ pass.old.list) ⊎ (length pass.new.list ≤ entries) }
{
    if is_used(pass, entries) {
        return Err(WorkerEnd::ShareUsed);
    }
    let mut spares = Vec::new(alloc);
    match scribe.call(rt, alloc, desk, pass, Command::Tick, &mut spares) {
        Ok(receipt) => {
            last.receive(receipt.position, &receipt.entry.reply);
            Ok(())
        }
        Err(fault) => Err(WorkerEnd::Untold(fault)),
    }
}

/// A turn at a board. Agents ask, one after another, each as it is next to ask, until nobody is left to ask, and nobody where no task is
/// open; then the clock ticks, where somebody asked or has steps left. Each call goes through the journal. It is broken off where the worker
/// has as many entries as may be its own, or a call tells no receipt.
fn take_turn<N: DeskName, S: JournalName, J: Journal + Drop, H: Wait + Drop, P: Planner, X: Wait>(
    rt: &X,
    alloc: Global,
    desk: &Desk<N, H, P>,
    scribe: &Scribe<N, S, J>,
    pass: &mut Pass<N>,
    entries: u64,
    board: &Board,
) -> Result<LastTurn, WorkerEnd>
    requires seats { length board.now.agents.items ≡ length N.origin.site.layout.agents }
    requires shown { board.now.entries ≤ length pass.old.known }
    ensures ok { IfOk result (ComesTo N.origin board.now pass.old pass.new) }
    ensures err { IfErr result (λ end. StopsTurn N.origin (length N.cells) entries board.now pass.old end pass.new) }
    ensures share { (pass.new.list ≡ pass.old.list) ⊎ (length pass.new.list ≤ entries) }
{
    let mut last = LastTurn::new(board);
    let some = ask_all(rt, alloc, desk, scribe, pass, entries, board, &mut last)?;
    if is_to_tick(some, board) {
        tick(rt, alloc, desk, scribe, pass, entries, &mut last)?;
        return Ok(last);
    }
    Ok(last)
}

/// The doors are told why there is nothing to do though orders are open, if it is another reason than they were told before. What they were told.
fn tell_idle<R: Read, W: Write, D: Doors<R, W>>(
    doors: &D,
    why: Option<Idle>,
    told: Option<Idle>,
) -> Option<Idle>
    ensures { result ≡ why }
{
    if let Some(why) = why {
        if told != Some(why) {
            doors.worker_idles(why);
        }
    }
    why
}

/// What the doors were told and need not be told again behind a turn: nothing, where it brought somebody on.
fn still_told(told: Option<Idle>, last: &LastTurn) -> Option<Idle>
    ensures { result ≡ cond last.now.in_vain told None }
{
    if last.is_in_vain() { told } else { None }
}

/// Rests, looks, and takes a turn if there is anything to do, again and again (`take_turn`). Behind a turn that changed nothing but the clock
/// it takes none until a board shows an entry of another. It ends after so many looks, once the bell is rung or the service is over, or early:
/// where it has as many entries as may be its own, or at the first call that tells no receipt. It says why, and the doors are told.
pub(crate) fn take_turns<
    N: DeskName,
    S: JournalName,
    J: Journal + Drop,
    H: Wait + Drop,
    P: Planner,
    X: Wait + Clock,
    R: Read,
    W: Write,
    D: Doors<R, W>,
>(
    rt: &X,
    alloc: Global,
    desk: &Desk<N, H, P>,
    scribe: &Scribe<N, S, J>,
    pass: &mut Pass<N>,
    pace: Pacing,
    bell: &Bell,
    doors: &D,
) -> Option<WorkerEnd>
    ensures { PacesUntil (length N.cells) pace N.origin pass.old pass.new result }
{
    let mut last = LastTurn::none();
    let mut told = None;
    for _ in 0..pace.turns {
        if bell.rest(rt, pace.pause) || doors.is_over() {
            return None;
        }
        let board = match desk.look(rt, pass) {
            Ok(board) => board,
            Err(Stale) => {
                let why = WorkerEnd::Untold(CallFault::Refused(DeskFault::Stale));
                doors.worker_ends(why);
                return Some(why);
            }
        };
        if last.rests_at(&board) {
            told = tell_idle::<R, W, D>(doors, last.idle_at(&board), told);
            continue;
        }
        match take_turn(rt, alloc, desk, scribe, pass, pace.entries, &board) {
            Ok(now) => {
                told = still_told(told, &now);
                last = now;
            }
            Err(why) => {
                doors.worker_ends(why);
                return Some(why);
            }
        }
    }
    None
}

/// What the worker leaves.
#[derive(Drop)]
pub(crate) struct Paced<N: DeskName> {
    pub(crate) pass: Pass<N>,
    pub(crate) ended: Option<WorkerEnd>,
}

/// The same with the pass moved in and out.
pub(crate) fn pace_whole<
    N: DeskName,
    S: JournalName,
    J: Journal + Drop,
    H: Wait + Drop,
    P: Planner,
    X: Wait + Clock,
    R: Read,
    W: Write,
    D: Doors<R, W>,
>(
    rt: &X,
    alloc: Global,
    desk: &Desk<N, H, P>,
    scribe: &Scribe<N, S, J>,
    mut pass: Pass<N>,
    pace: Pacing,
    bell: &Bell,
    doors: &D,
) -> Paced<N>
    ensures { PacesUntil (length N.cells) pace N.origin pass result.pass result.ended }
{
    let ended = take_turns::<N, S, J, H, P, X, R, W, D>(
        rt, alloc, desk, scribe, &mut pass, pace, bell, doors,
    );
    Paced { pass, ended }
}
