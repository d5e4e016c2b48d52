//! Clients beside a screen on which boards of their run are shown.

ghost use Rattle.std.specs.Prelude.{◌≡◌, IfErr, IfOk, IfSome, Some, length, option_map};
ghost use Rattle.wh_desk.specs.Pasts.{origin_of, past_of};
ghost use Rattle.wh_desk.specs.Calls.{InOrder};
ghost use Rattle.wh_display.specs.Screens.{Watches};
ghost use Rattle.wh_crew.specs.Troubles.{IsWhyDead};
ghost use Rattle.wh_serve.specs.Texts.{receipt_text};
ghost use Rattle.wh_host.specs.Boards.{WatchedOn};
ghost use Rattle.wh_host.specs.Hosting.{Leaves};
ghost use Rattle.wh_host.specs.Pacing.{callers_of};

use crate::display::{Seen, Shown, Watcher, show_whole, watch_run};
use crate::hosting::{Hosted, host_clients};
use crate::kept_screen::KeptScreen;
use crate::pacing::Pacing;
use std::alloc::Global;
use std::io::{Read, Write};
use std::sync::Wait;
use std::thread::{Threads, join};
use std::time::{Clock, Duration};
use wh_crew::trouble_of;
use wh_desk::{Desk, DeskName, Pass};
use wh_display::{Bell, Screen, ShowFault};
use wh_edge::Trouble;
use wh_journal::Journal;
use wh_planner::Planner;
use wh_scribe::{JournalName, Scribe};
use wh_serve::{Client, Doors, Form};

/// What watches a run: a viewer, a screen on which the board of what it knows is shown, and how long each look rests after
/// the one before.
#[derive(Drop)]
pub(crate) struct Watch<V> {
    pub(crate) watcher: Watcher<V>,
    pub(crate) pause: Duration,
}

/// What clients left, and the screen, if there is one.
#[derive(Drop)]
pub(crate) struct Beside<P: Planner, V> {
    pub(crate) hosted: Hosted<P>,
    pub(crate) screen: Option<V>,
    /// Whether the board of the whole history is there, or why it is not.
    pub(crate) last: Result<(), ShowFault>,
}

/// Hosts the clients, and rings the bell when all of them are through.
fn host_and_ring<
    N: DeskName + Send + Sync,
    S: JournalName + Send + Sync,
    J: Journal + Send + Drop,
    H: Wait + Send + Sync + Drop,
    P: Planner,
    X: Threads + Wait + Clock + Sync,
    R: Read + Send + Drop,
    W: Write + Send + Drop,
    D: Doors<R, W>,
>(
    rt: &X,
    alloc: Global,
    form: Form,
    desk: Desk<N, H, P>,
    scribe: &Scribe<N, S, J>,
    passes: Vec<Pass<N>>,
    clients: Vec<Client<P>>,
    doors: &D,
    pace: Option<Pacing>,
    bell: &Bell,
) -> Result<Hosted<P>, Trouble>
    requires passes { InOrder N.callers passes.items }
    requires clients { callers_of clients.items pace ≡ length passes.items }
    ensures leaves { IfOk result (λ c. Leaves P.fits_map P.slot_count (receipt_text form N.origin) (λ x. R.remaining x) (λ x. W.contents x) N.origin (length N.cells) N.callers clients.items passes.items pace
        c.history.warehouse.book.history c.history.warehouse.book.state c.connections.items c.worker) }
    ensures origin { IfOk result (λ c. origin_of c.history.warehouse.book ≡ N.origin) }
    ensures book { IfOk result (λ c. c.history.front.book ≡ N.book) }
    ensures past { IfOk result (λ c. c.history.front.past ≡ past_of c.history.warehouse.book) }
    ensures fault { IfErr result IsWhyDead }
{
    let came = host_clients(rt, alloc, form, desk, scribe, passes, clients, doors, pace);
    bell.ring(rt);
    match came {
        Ok(hosted) => Ok(hosted),
        Err(fault) => Err(trouble_of(fault)),
    }
}

/// Hosts the clients, and meanwhile shows boards on the screen, in a thread of their own, each once the journal keeps what it
/// shows; and then that of the whole history.
fn host_watched<
    N: DeskName + Send + Sync,
    S: JournalName + Send + Sync,
    J: Journal + Send + Drop,
    H: Wait + Send + Sync + Drop,
    P: Planner,
    X: Threads + Wait + Clock + Sync,
    R: Read + Send + Drop,
    W: Write + Send + Drop,
    D: Doors<R, W>,
    V: Screen + Send + Drop,
>(
    rt: &X,
    alloc: Global,
    form: Form,
    desk: Desk<N, H, P>,
    scribe: &Scribe<N, S, J>,
    passes: Vec<Pass<N>>,
    clients: Vec<Client<P>>,
    doors: &D,
    pace: Option<Pacing>,
    watch: Watch<V>,
    shown: u64,
) -> Result<Beside<P, V>, Trouble>
    requires passes { InOrder N.callers passes.items }
    requires clients { callers_of clients.items pace ≡ length passes.items }
    requires viewer { watch.watcher.viewer.book ≡ N.book }
    requires shown { shown ≡ length watch.watcher.viewer.past.history }
    ensures leaves { IfOk result (λ b. Leaves P.fits_map P.slot_count (receipt_text form N.origin) (λ x. R.remaining x) (λ x. W.contents x) N.origin (length N.cells) N.callers clients.items passes.items pace
        b.hosted.history.warehouse.book.history b.hosted.history.warehouse.book.state b.hosted.connections.items b.hosted.worker) }
    ensures origin { IfOk result (λ b. origin_of b.hosted.history.warehouse.book ≡ N.origin) }
    ensures book { IfOk result (λ b. b.hosted.history.front.book ≡ N.book) }
    ensures past { IfOk result (λ b. b.hosted.history.front.past ≡ past_of b.hosted.history.warehouse.book) }
    ensures boards { IfOk result (λ b. WatchedOn watch.watcher.viewer.past (past_of b.hosted.history.warehouse.book) b.last (Some (V.shown watch.watcher.screen)) (option_map V.shown b.screen)) }
    ensures fault { IfErr result IsWhyDead }
{
    let Watch { watcher, pause } = watch;
    let Watcher { viewer, screen } = watcher;
    let watcher = Watcher {
        viewer,
        screen: KeptScreen { screen, rt, scribe },
    };
    let bell = Bell::new();
    let (seen, came) = join(
        rt,
        || -> Seen<KeptScreen<'_, V, X, N, S, J>>
            requires { shown ≡ length watcher.viewer.past.history }
            ensures { Watches watcher.entry.viewer.past result.viewer.past result.watched (V.shown watcher.entry.screen.screen) (V.shown result.screen.screen) × (result.viewer.book ≡ watcher.entry.viewer.book) }
        { watch_run(rt, alloc, watcher, shown, &bell, pause) },
        || -> Result<Hosted<P>, Trouble>
            requires { InOrder N.callers passes.items × (callers_of clients.items pace ≡ length passes.items) }
            ensures { IfOk result (λ c. Leaves P.fits_map P.slot_count (receipt_text form N.origin) (λ x. R.remaining x) (λ x. W.contents x) N.origin (length N.cells) N.callers clients.items passes.items pace c.history.warehouse.book.history c.history.warehouse.book.state c.connections.items c.worker × (origin_of c.history.warehouse.book ≡ N.origin) × (c.history.front.book ≡ N.book) × (c.history.front.past ≡ past_of c.history.warehouse.book)) × IfErr result IsWhyDead }
        {
            host_and_ring(
                rt, alloc, form, desk, scribe, passes, clients, doors, pace, &bell,
            )
        },
    );
    let hosted = match came {
        Ok(hosted) => hosted,
        Err(trouble) => return Err(trouble),
    };
    match show_whole(alloc, &hosted.history, seen) {
        Ok(Shown { screen, last }) => {
            let KeptScreen { screen, .. } = screen;
            Ok(Beside {
                hosted,
                screen: Some(screen),
                last,
            })
        }
        Err(trouble) => Err(trouble),
    }
}

/// Hosts the clients, beside a screen if there is one.
pub(crate) fn host_beside<
    N: DeskName + Send + Sync,
    S: JournalName + Send + Sync,
    J: Journal + Send + Drop,
    H: Wait + Send + Sync + Drop,
    P: Planner,
    X: Threads + Wait + Clock + Sync,
    R: Read + Send + Drop,
    W: Write + Send + Drop,
    D: Doors<R, W>,
    V: Screen + Send + Drop,
>(
    rt: &X,
    alloc: Global,
    form: Form,
    desk: Desk<N, H, P>,
    scribe: &Scribe<N, S, J>,
    passes: Vec<Pass<N>>,
    clients: Vec<Client<P>>,
    doors: &D,
    pace: Option<Pacing>,
    watch: Option<Watch<V>>,
    shown: u64,
) -> Result<Beside<P, V>, Trouble>
    requires passes { InOrder N.callers passes.items }
    requires clients { callers_of clients.items pace ≡ length passes.items }
    requires viewer { IfSome watch (λ w. w.watcher.viewer.book ≡ N.book) }
    requires shown { IfSome watch (λ w. shown ≡ length w.watcher.viewer.past.history) }
    ensures leaves { IfOk result (λ b. Leaves P.fits_map P.slot_count (receipt_text form N.origin) (λ x. R.remaining x) (λ x. W.contents x) N.origin (length N.cells) N.callers clients.items passes.items pace
        b.hosted.history.warehouse.book.history b.hosted.history.warehouse.book.state b.hosted.connections.items b.hosted.worker) }
    ensures origin { IfOk result (λ b. origin_of b.hosted.history.warehouse.book ≡ N.origin) }
    ensures book { IfOk result (λ b. b.hosted.history.front.book ≡ N.book) }
    ensures past { IfOk result (λ b. b.hosted.history.front.past ≡ past_of b.hosted.history.warehouse.book) }
    ensures boards { (before : _) → IfSome watch (λ w. w.watcher.viewer.past ≡ before) → IfOk result (λ b. WatchedOn before (past_of b.hosted.history.warehouse.book) b.last (option_map (λ w. V.shown w.watcher.screen) watch) (option_map V.shown b.screen)) }
    ensures fault { IfErr result IsWhyDead }
{
    match watch {
        Some(watch) => host_watched(
            rt, alloc, form, desk, scribe, passes, clients, doors, pace, watch, shown,
        ),
        None => match host_clients(rt, alloc, form, desk, scribe, passes, clients, doors, pace) {
            Ok(hosted) => Ok(Beside {
                hosted,
                screen: None,
                last: Ok(()),
            }),
            Err(fault) => Err(trouble_of(fault)),
        },
    }
}
