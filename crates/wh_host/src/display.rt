//! Boards on a screen beside a run.
ghost use Rattle.std.specs.Prelude.{◌≡◌, IfErr, IfOk, length};
ghost use Rattle.wh_board.specs.Pasts.{Extends};
ghost use Rattle.wh_desk.specs.Pasts.{past_of};
ghost use Rattle.wh_display.specs.Screens.{Watches};
ghost use Rattle.wh_crew.specs.Troubles.{IsWhyDead};
ghost use Rattle.wh_host.specs.Displays.{FirstShown, IsWhyUnshown, ShowsLast, trouble_of_show};

use std::alloc::Global;
use std::sync::Wait;
use std::time::{Clock, Duration};
use wh_board::Board;
use wh_desk::{History, Publisher, Viewer, Warehouse};
use wh_display::{Bell, Screen, ShowFault, Watched, renew, watch};
use wh_edge::Trouble;
use wh_planner::Planner;

/// Where the boards of a run are to be shown.
#[derive(Drop)]
pub struct Display<S> {
    /// The screen.
    pub screen: S,
    /// How long each look at the board rests after the one before.
    pub pause: Duration,
}

/// A screen on which the boards of a run were shown.
#[derive(Drop)]
pub(crate) struct Shown<S> {
    pub(crate) screen: S,
    /// Whether the board of the whole history is there, or why it is not.
    pub(crate) last: Result<(), ShowFault>,
}

/// The error of a board that is not shown.
pub fn trouble_of_show(fault: ShowFault) -> Trouble
    ensures value { result ≡ trouble_of_show fault }
    ensures why { IsWhyUnshown result }
{
    match fault {
        ShowFault::Unshown => Trouble::Unshown,
        ShowFault::NoMemory => Trouble::NoMemory,
    }
}

/// What watches a run: a viewer, and a screen on which its first board is shown.
#[derive(Drop)]
pub(crate) struct Watcher<S> {
    pub(crate) viewer: Viewer,
    pub(crate) screen: S,
}

/// Shows the board of a warehouse as it stands, whatever stood on the screen, and gives a viewer of what is published of it: to be
/// called before a desk takes the warehouse and its publisher. Trouble: X6 where the board is not shown, and E90.
pub(crate) fn set_up<S: Screen + Drop, H: Wait + Drop, P: Planner>(
    alloc: Global,
    warehouse: &Warehouse<P>,
    publisher: &mut Publisher<H>,
    mut screen: S,
) -> Result<Watcher<S>, Trouble>
    requires shown { publisher.old.shown ≡ past_of warehouse.now.book }
    ensures stands { publisher.new ≡ publisher.old }
    ensures first { IfOk result (λ w. FirstShown (past_of warehouse.now.book) (S.shown screen) (S.shown w.screen)) }
    ensures past { IfOk result (λ w. w.viewer.past ≡ past_of warehouse.now.book) }
    ensures book { IfOk result (λ w. w.viewer.book ≡ publisher.old.book) }
    ensures fault { IfErr result IsWhyUnshown }
{
    let board = Board::of(warehouse.book());
    match renew(alloc, &mut screen, &board, None) {
        Ok(()) => {}
        Err(fault) => return Err(trouble_of_show(fault)),
    }
    match publisher.viewer() {
        Ok(viewer) => Ok(Watcher { viewer, screen }),
        Err(_) => Err(Trouble::NoMemory),
    }
}

/// What a watch beside a run leaves: the viewer, the screen, and how it ended.
#[derive(Drop)]
pub(crate) struct Seen<S> {
    pub(crate) viewer: Viewer,
    pub(crate) screen: S,
    pub(crate) watched: Watched,
}

/// Watches a run, in its own thread, until the bell is rung, and looks a last time then (`watch`). The viewer knows of this many
/// entries, and their board is on the screen. It rests this long after each look, waits for the bell alone, and holds no caller of the
/// desk up.
pub(crate) fn watch_run<S: Screen, T: Wait + Clock>(
    rt: &T,
    alloc: Global,
    watcher: Watcher<S>,
    shown: u64,
    bell: &Bell,
    pause: Duration,
) -> Seen<S>
    requires { shown ≡ length watcher.viewer.past.history }
    ensures shows { Watches watcher.viewer.past result.viewer.past result.watched (S.shown watcher.screen) (S.shown result.screen) }
    ensures book { result.viewer.book ≡ watcher.viewer.book }
{
    let Watcher {
        mut viewer,
        mut screen,
    } = watcher;
    let watched = watch(rt, alloc, &mut viewer, &mut screen, shown, bell, pause);
    Seen {
        viewer,
        screen,
        watched,
    }
}

/// Shows the board of the whole history, once the watch is over and the desk has given that back, unless it has as many
/// entries as the one shown last. The viewer is of the same desk. If the screen fails, the result says so; the history stands. E95: the
/// viewer knows of something that was not done.
pub(crate) fn show_whole<S: Screen + Drop, P: Planner>(
    alloc: Global,
    history: &History<P>,
    seen: Seen<S>,
) -> Result<Shown<S>, Trouble>
    requires book { seen.viewer.book ≡ history.now.front.book }
    requires past { history.now.front.past ≡ past_of history.now.warehouse.book }
    ensures begins { IfOk result (λ _. Extends seen.viewer.past (past_of history.now.warehouse.book)) }
    ensures last { IfOk result (λ s. ShowsLast (past_of history.now.warehouse.book) seen.watched.shown s.last (S.shown seen.screen) (S.shown s.screen)) }
    ensures fault { IfErr result IsWhyDead }
{
    if history.front.is_before(seen.viewer.front()) {
        return Err(Trouble::Differs);
    }
    let Seen {
        viewer: _viewer,
        mut screen,
        watched,
    } = seen;
    let board = Board::of(history.warehouse.book());
    let last = renew(alloc, &mut screen, &board, Some(watched.shown));
    Ok(Shown { screen, last })
}
