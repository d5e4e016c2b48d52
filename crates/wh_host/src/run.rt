//! A run that serves clients: a warehouse behind a desk, a journal behind that, and the clients over both, beside a worker for
//! agents and clock and boards on a screen if asked for.

ghost use Rattle.std.specs.Prelude.{◌≡◌, ◌≤◌, ◌+◌, IfErr, IfOk, IfSome, length, option_map, true, false};
ghost use Rattle.std.specs.Io.KnownBytes.{Appends};
ghost use Rattle.wh_board.specs.Pasts.{Extends};
ghost use Rattle.wh_desk.specs.Pasts.{origin_of, past_of};
ghost use Rattle.wh_journal.specs.Journals.{lines_for};
ghost use Rattle.wh_journal.specs.Surviving.{HoldsLog};
ghost use Rattle.wh_crew.specs.Troubles.{IsWhyDead};
ghost use Rattle.wh_serve.specs.Texts.{receipt_text};
ghost use Rattle.wh_host.specs.Boards.{FirstOn, WatchedOn};
ghost use Rattle.wh_host.specs.Displays.{BoardsFrom, IsWhyUnlived};
ghost use Rattle.wh_host.specs.Pacing.{callers_of};
ghost use Rattle.wh_host.specs.Runs.{ServedFrom, LeavesKept, IsJournalOf, first_lines};

use crate::beside::{Beside, Watch, host_beside};
use crate::display::{Display, set_up};
use crate::hosting::Hosted;
use crate::pacing::Pacing;
use std::alloc::{AllocError, Global};
use std::io::{Read, Write};
use std::marker::Brand;
use std::sync::Wait;
use std::thread::Threads;
use std::time::Clock;
use wh_desk::{Cells, Desk, DeskName, Front, History, Publisher, Unopened, Warehouse};
use wh_display::{Screen, ShowFault};
use wh_edge::Trouble;
use wh_journal::Journal;
use wh_planner::Planner;
use wh_scribe::{JournalName, Kept, Scribe};
use wh_serve::{Client, Doors, Form, WorkerEnd};

/// What a run leaves: the history, over how many connections each client was served, in their order, the journal, and whether the
/// history's entries stand in it, all of them and synced; why the worker for agents and clock ended before the clients
/// did, if it did; and the screen, if there is one, and whether the board of the whole history is there, or why it is not.
#[derive(Drop)]
pub struct Ran<J: Journal + Drop, V, P: Planner = Box<dyn Planner>> {
    pub history: History<P>,
    pub connections: Vec<u64>,
    pub journal: J,
    pub is_whole: bool,
    pub worker: Option<WorkerEnd>,
    pub screen: Option<V>,
    pub last: Result<(), ShowFault>,
}

/// Whether as many entries were written and synced as were done.
fn has_all(failed: bool, written: u64, synced: u64, done: u64) -> bool
    ensures { result ≡ true → (failed ≡ false) × (written ≡ done) × (synced ≡ done) }
{
    !failed && written == done && synced == done
}

/// Compares what the clients left with what was known before, and the journal with both. E95: more was known than was done.
fn compare<J: Journal + Drop, V: Drop, P: Planner>(
    earlier: &Front,
    came: Beside<P, V>,
    kept: Kept<J>,
) -> Result<Ran<J, V, P>, Trouble>
    requires before { earlier.now.book ≡ came.hosted.history.front.book }
    requires book { kept.front.book ≡ came.hosted.history.front.book }
    requires past { came.hosted.history.front.past ≡ past_of came.hosted.history.warehouse.book }
    ensures history { IfOk result (λ r. r.history ≡ came.hosted.history) }
    ensures connections { IfOk result (λ r. r.connections ≡ came.hosted.connections) }
    ensures worker { IfOk result (λ r. r.worker ≡ came.hosted.worker) }
    ensures screen { IfOk result (λ r. (r.screen ≡ came.screen) × (r.last ≡ came.last)) }
    ensures begins { IfOk result (λ r. Extends earlier.now.past r.history.front.past) }
    ensures journal { (start : _) → LeavesKept (λ x. J.contents x) (λ x. J.synced x) start kept → IfOk result (λ r. IsJournalOf start (J.contents r.journal) (J.synced r.journal) r.history.warehouse.book.history r.is_whole) }
    ensures fault { IfErr result IsWhyDead }
{
    let Beside {
        hosted,
        screen,
        last,
    } = came;
    let Hosted {
        history,
        connections,
        worker,
    } = hosted;
    let Kept {
        journal,
        front,
        written,
        synced,
        failed,
    } = kept;
    if history.front.is_before(&front) || history.front.is_before(earlier) {
        return Err(Trouble::Differs);
    }
    let done = history.warehouse.history().len() as u64;
    Ok(Ran {
        history,
        connections,
        journal,
        is_whole: has_all(failed, written, synced, done),
        worker,
        screen,
        last,
    })
}

/// What is told of a desk that was not opened round a warehouse, which has cells for all its entries and their callers.
fn unopened(fault: Unopened) -> Trouble
    ensures { IsWhyDead result }
{
    match fault {
        Unopened::NoMemory => Trouble::NoMemory,
        Unopened::CellTaken | Unopened::Full | Unopened::OtherCaller => Trouble::Differs,
    }
}

/// Opens a desk round the warehouse with a pass for each client, and one more for the worker where a pace is given, and hosts
/// them through the journal.
fn over_desk<
    N: DeskName + Send + Sync,
    S: JournalName + Send + Sync,
    J: Journal + Send + Drop,
    H: Wait + Send + Sync + Drop,
    P: Planner,
    X: Threads + Wait + Clock + Sync,
    R: Read + Send + Drop,
    W: Write + Send + Drop,
    D: Doors<R, W>,
    V: Screen + Send + Drop,
>(
    rt: &X,
    alloc: Global,
    form: Form,
    warehouse: Warehouse<P>,
    outfit: Outfit<H, V>,
    journal: J,
    clients: Vec<Client<P>>,
    doors: &D,
    pace: Option<Pacing>,
) -> Result<Ran<J, V, P>, Trouble>
    requires origin { origin_of warehouse.book ≡ N.origin }
    requires cells { outfit.cells ≡ N.cells }
    requires book { outfit.publisher.book ≡ N.book }
    requires added { outfit.publisher.added ≡ past_of warehouse.book }
    requires shown { outfit.publisher.shown ≡ past_of warehouse.book }
    requires viewer { IfSome outfit.watch (λ w. (w.watcher.viewer.book ≡ N.book) × (w.watcher.viewer.past ≡ past_of warehouse.book)) }
    requires start { Appends S.start (J.contents journal) (lines_for warehouse.book.history) }
    requires synced { J.synced journal ≡ J.contents journal }
    requires callers { callers_of clients.items pace ≡ N.callers }
    requires few { callers_of clients.items pace ≤ 64 }
    ensures ok { IfOk result (λ c. ServedFrom P.fits_map P.slot_count (receipt_text form N.origin) (λ x. R.remaining x) (λ x. W.contents x) N.origin warehouse.book.history clients.items pace (length N.cells)
        c.history.warehouse.book.history c.history.warehouse.book.state c.connections.items c.worker) }
    ensures origin { IfOk result (λ c. origin_of c.history.warehouse.book ≡ N.origin) }
    ensures journal { IfOk result (λ c. IsJournalOf S.start (J.contents c.journal) (J.synced c.journal) c.history.warehouse.book.history c.is_whole) }
    ensures boards { IfOk result (λ c. WatchedOn (past_of warehouse.book) (past_of c.history.warehouse.book) c.last (option_map (λ w. V.shown w.watcher.screen) outfit.watch) (option_map V.shown c.screen)) }
    ensures fault { IfErr result IsWhyDead }
{
    let Outfit {
        cells,
        publisher,
        watch,
    } = outfit;
    let callers = clients.len() as u32 + u32::from(pace.is_some());
    let earlier = publisher.front().again();
    let written = warehouse.history().len() as u64;
    let (desk, passes) = match Desk::<N, H, P>::resume(
        alloc, warehouse, cells, publisher, callers,
    ) {
        Ok(opened) => opened,
        Err(fault) => return Err(unopened(fault)),
    };
    let scribe = Scribe::<N, S, J>::new(alloc, journal, &earlier, written);
    match host_beside(
        rt, alloc, form, desk, &scribe, passes, clients, doors, pace, watch, written,
    ) {
        Ok(came) => compare(&earlier, came, scribe.into_journal()),
        Err(trouble) => Err(trouble),
    }
}

/// What a desk round a warehouse is made of beside it: the cells of its receipts, the publisher of its board, and what watches
/// that.
#[derive(Drop)]
struct Outfit<H: Wait + Drop, V> {
    cells: Cells,
    publisher: Publisher<H>,
    watch: Option<Watch<V>>,
}

/// Shows the board of the warehouse, where there is a display, and watches it from there.
fn watch_from<H: Wait + Drop, P: Planner, V: Screen + Drop>(
    alloc: Global,
    warehouse: &Warehouse<P>,
    publisher: &mut Publisher<H>,
    display: Option<Display<V>>,
) -> Result<Option<Watch<V>>, Trouble>
    requires shown { publisher.old.shown ≡ past_of warehouse.now.book }
    ensures stands { publisher.new ≡ publisher.old }
    ensures first { IfOk result (λ watch. FirstOn (past_of warehouse.now.book) (option_map (λ d. V.shown d.screen) display) (option_map (λ w. V.shown w.watcher.screen) watch)) }
    ensures viewer { IfOk result (λ watch. IfSome watch (λ w. (w.watcher.viewer.book ≡ publisher.old.book) × (w.watcher.viewer.past ≡ past_of warehouse.now.book))) }
    ensures fault { IfErr result (IsWhyUnlived display) }
{
    let Some(Display { screen, pause }) = display else {
        return Ok(None);
    };
    match set_up(alloc, warehouse, publisher, screen) {
        Ok(watcher) => Ok(Some(Watch { watcher, pause })),
        Err(trouble) => Err(trouble),
    }
}

/// Makes an outfit, with a cell for each entry that the warehouse has, and the given number more.
fn furnish<H: Wait + Drop, P: Planner, V: Screen + Drop>(
    rt: H,
    alloc: Global,
    warehouse: &Warehouse<P>,
    more: u32,
    display: Option<Display<V>>,
) -> Result<Outfit<H, V>, Trouble>
    ensures cells { IfOk result (λ made. length made.cells ≡ length warehouse.now.book.history + more) }
    ensures added { IfOk result (λ made. made.publisher.added ≡ past_of warehouse.now.book) }
    ensures shown { IfOk result (λ made. made.publisher.shown ≡ past_of warehouse.now.book) }
    ensures first { IfOk result (λ made. FirstOn (past_of warehouse.now.book) (option_map (λ d. V.shown d.screen) display) (option_map (λ w. V.shown w.watcher.screen) made.watch)) }
    ensures viewer { IfOk result (λ made. IfSome made.watch (λ w. (w.watcher.viewer.book ≡ made.publisher.book) × (w.watcher.viewer.past ≡ past_of warehouse.now.book))) }
    ensures fault { IfErr result (IsWhyUnlived display) }
{
    let entries = warehouse.history().len() as u64;
    let cells = Cells::new(alloc, entries + u64::from(more))?;
    let mut publisher = Publisher::new(alloc, rt, warehouse.book())?;
    match watch_from(alloc, warehouse, &mut publisher, display) {
        Ok(watch) => Ok(Outfit {
            cells,
            publisher,
            watch,
        }),
        Err(trouble) => Err(trouble),
    }
}

/// Goes on with a warehouse, whose log the journal is except for its end line, and serves each client in its own thread, over
/// one desk that takes at most the given number of further entries, each of which goes into the journal before it is told. Where a pace is given,
/// one more caller is a worker for all agents and the clock, which takes a turn after each pause, up to a given number, until the
/// clients are through. Where there is a display, boards are shown on its screen meanwhile: the first before anybody is served,
/// without which nobody is; each later one once the journal keeps all that it shows; a screen that fails later stops nothing.
/// Where the journal fails, nobody is told anything more, and the service ends. Trouble: E90, E93 where a thread could not be
/// started, E95 where a pass does not have all that its caller did, or an entry is there of a caller that no client has the number of,
/// and X6 where the first board could not be shown; the journal is dropped then.
pub fn run_clients<
    P: Planner,
    J: Journal + Send + Drop,
    X: Threads + Wait + Clock + Sync,
    R: Read + Send + Drop,
    W: Write + Send + Drop,
    D: Doors<R, W>,
    V: Screen + Send + Drop,
>(
    rt: &X,
    alloc: Global,
    form: Form,
    warehouse: Warehouse<P>,
    clients: Vec<Client<P>>,
    more: u32,
    journal: J,
    doors: &D,
    pace: Option<Pacing>,
    display: Option<Display<V>>,
) -> Result<Ran<J, V, P>, Trouble>
    requires log { HoldsLog (J.contents journal) warehouse.book }
    requires synced { J.synced journal ≡ J.contents journal }
    requires few { callers_of clients.items pace ≤ 64 }
    ensures ok { IfOk result (λ r. ServedFrom P.fits_map P.slot_count (receipt_text form (origin_of warehouse.book)) (λ x. R.remaining x) (λ x. W.contents x) (origin_of warehouse.book) warehouse.book.history clients.items pace (length warehouse.book.history + more)
        r.history.warehouse.book.history r.history.warehouse.book.state r.connections.items r.worker) }
    ensures origin { IfOk result (λ r. origin_of r.history.warehouse.book ≡ origin_of warehouse.book) }
    ensures journal { IfOk result (λ r. IsJournalOf (first_lines (J.contents journal) warehouse.book) (J.contents r.journal) (J.synced r.journal) r.history.warehouse.book.history r.is_whole) }
    ensures boards { IfOk result (λ r. BoardsFrom (origin_of warehouse.book) warehouse.book.history r.history.warehouse.book.history r.last (option_map (λ d. V.shown d.screen) display) (option_map V.shown r.screen)) }
    // No thread could be started, no memory was left, a pass does not have all that its caller did, or the first board was not shown.
    ensures fault { IfErr result (IsWhyUnlived display) }
{
    let outfit = match furnish(rt, alloc, &warehouse, more, display) {
        Ok(outfit) => outfit,
        Err(trouble) => return Err(trouble),
    };
    over_desk::<Brand, Brand, _, _, _, _, _, _, _, _>(
        rt, alloc, form, warehouse, outfit, journal, clients, doors, pace,
    )
}
