//! The clients of a run are served, beside a thread that releases them.

ghost use Rattle.std.specs.Prelude.{◌≡◌, ◌≤◌, ◌+◌, ◌*◌, IfErr, IfOk, IfSome, length, option_map};
ghost use Rattle.std.specs.Duration.{as_nanos};
ghost use Rattle.wh_desk.specs.Pasts.{origin_of};
ghost use Rattle.wh_journal.specs.Surviving.{HoldsLog};
ghost use Rattle.wh_host.specs.Displays.{BoardsFrom, IsWhyUnlived};
ghost use Rattle.wh_serve.specs.Texts.{receipt_text};
ghost use Rattle.wh_host.specs.Pacing.{callers_of};
ghost use Rattle.wh_host.specs.Runs.{IsJournalOf, ServedFrom, first_lines};
ghost use Rattle.wh_attend.specs.Guests.{HaveRoom};
ghost use Rattle.wh_attend.specs.Attends.{ServesClients};

use crate::shares::pacing_of;
use std::alloc::Global;
use std::io::{Read, Write};
use std::sync::Wait;
use std::sync::atomic::AtomicBool;
use std::sync::atomic::Ordering::SeqCst;
use std::thread::{Threads, join};
use std::time::{Clock, Duration};
use wh_continue::{LogFile, Warehouse};
use wh_edge::Trouble;
use wh_host::{Display, Pacing, Ran, Screen, run_clients};
use wh_log::Form;
use wh_options::ServeOptions;
use wh_pipes::Hall;
use wh_planner::Planner;
use wh_serve::{Client, Doors};
use wh_service::form_of;

/// Takes the screen for a run, if there is one, which rests the given number of milliseconds between two looks.
fn display_of<S>(screen: &mut Option<S>, every: u32) -> Option<Display<S>>
    ensures screen { option_map (λ display. display.screen) result ≡ screen.old }
    ensures pause { IfSome result (λ display. as_nanos display.pause ≡ every * 1000000) }
{
    match screen.take() {
        Some(screen) => Some(Display {
            screen,
            pause: Duration::from_millis(u64::from(every)),
        }),
        None => None,
    }
}

/// Serves clients, and sets `through` when all of them are through.
fn serve_through<
    P: Planner,
    L: LogFile + Send + Drop,
    T: Threads + Wait + Clock + Sync,
    I: Read + Send + Drop,
    O: Write + Send + Drop,
    D: Doors<I, O>,
    V: Screen + Send + Drop,
>(
    rt: &T,
    alloc: Global,
    form: Form,
    warehouse: Warehouse<P>,
    clients: Vec<Client<P>>,
    more: u32,
    file: L,
    doors: &D,
    pace: Option<Pacing>,
    display: Option<Display<V>>,
    through: &AtomicBool,
) -> Result<Ran<L, V, P>, Trouble>
    requires log { HoldsLog (L.contents file) warehouse.book }
    requires synced { L.synced file ≡ L.contents file }
    requires few { callers_of clients.items pace ≤ 64 }
    ensures ok { IfOk result (λ r. ServedFrom P.fits_map P.slot_count (receipt_text form (origin_of warehouse.book)) (λ x. I.remaining x) (λ x. O.contents x) (origin_of warehouse.book) warehouse.book.history clients.items pace (length warehouse.book.history + more)
        r.history.warehouse.book.history r.history.warehouse.book.state r.connections.items r.worker) }
    ensures origin { IfOk result (λ r. origin_of r.history.warehouse.book ≡ origin_of warehouse.book) }
    ensures journal { IfOk result (λ r. IsJournalOf (first_lines (L.contents file) warehouse.book) (L.contents r.journal) (L.synced r.journal) r.history.warehouse.book.history r.is_whole) }
    ensures boards { IfOk result (λ r. BoardsFrom (origin_of warehouse.book) warehouse.book.history r.history.warehouse.book.history r.last (option_map (λ d. V.shown d.screen) display) (option_map V.shown r.screen)) }
    ensures fault { IfErr result (IsWhyUnlived display) }
{
    let came = run_clients(
        rt, alloc, form, warehouse, clients, more, file, doors, pace, display,
    );
    through.store(true, SeqCst);
    came
}

/// Serves clients by the options, and meanwhile lets those go, once the service is over, that stand in a connection. The thread is the one
/// that does so: where none can be made, it has nothing left to do once they were served.
pub(crate) fn serve_all<
    P: Planner,
    L: LogFile + Send + Drop,
    T: Threads + Wait + Clock + Sync,
    I: Read + Send + Drop,
    O: Write + Send + Drop,
    D: Doors<I, O> + Hall,
    V: Screen + Send + Drop,
>(
    rt: &T,
    alloc: Global,
    options: &ServeOptions<'_>,
    warehouse: Warehouse<P>,
    clients: Vec<Client<P>>,
    file: L,
    screen: &mut Option<V>,
    doors: &D,
) -> Result<Ran<L, V, P>, Trouble>
    requires log { HoldsLog (L.contents file) warehouse.book }
    requires synced { L.synced file ≡ L.contents file }
    requires few { HaveRoom options.now.every (length clients.items) }
    ensures ok { IfOk result (λ r. ServesClients P.fits_map P.slot_count (λ x. I.remaining x) (λ x. O.contents x) options.now (origin_of warehouse.book) warehouse.book.history clients.items r.history.warehouse.book.history r.history.warehouse.book.state) }
    ensures origin { IfOk result (λ r. origin_of r.history.warehouse.book ≡ origin_of warehouse.book) }
    ensures journal { IfOk result (λ r. IsJournalOf (first_lines (L.contents file) warehouse.book) (L.contents r.journal) (L.synced r.journal) r.history.warehouse.book.history r.is_whole) }
    ensures boards { IfOk result (λ r. BoardsFrom (origin_of warehouse.book) warehouse.book.history r.history.warehouse.book.history r.last (option_map V.shown screen.old) (option_map V.shown r.screen)) }
    ensures fault { IfErr result (IsWhyUnlived (option_map V.shown screen.old)) }
{
    let form = form_of(options.replies);
    let more = options.journal;
    let pace = pacing_of(options, warehouse.history());
    let display = display_of(screen, options.board_every);
    let through = AtomicBool::new(false);
    let (_, came) = join(
        rt,
        || doors.let_go(&through),
        || -> Result<Ran<L, V, P>, Trouble>
            requires { HoldsLog (L.contents file) warehouse.book × (L.synced file ≡ L.contents file) × (callers_of clients.items pace ≤ 64) }
            ensures { IfOk result (λ r. ServedFrom P.fits_map P.slot_count (receipt_text form (origin_of warehouse.book)) (λ x. I.remaining x) (λ x. O.contents x) (origin_of warehouse.book) warehouse.book.history clients.items pace (length warehouse.book.history + more) r.history.warehouse.book.history r.history.warehouse.book.state r.connections.items r.worker) × IfOk result (λ r. origin_of r.history.warehouse.book ≡ origin_of warehouse.book) × IfOk result (λ r. IsJournalOf (first_lines (L.contents file) warehouse.book) (L.contents r.journal) (L.synced r.journal) r.history.warehouse.book.history r.is_whole) × IfOk result (λ r. BoardsFrom (origin_of warehouse.book) warehouse.book.history r.history.warehouse.book.history r.last (option_map (λ d. V.shown d.screen) display) (option_map V.shown r.screen)) × IfErr result (IsWhyUnlived display) }
        {
            serve_through(
                rt, alloc, form, warehouse, clients, more, file, doors, pace, display, &through,
            )
        },
    );
    came
}
