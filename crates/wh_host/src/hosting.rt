//! Clients, and if asked for a worker for all agents and the clock, over one desk and its journal, to the desk's end.

ghost use Rattle.std.specs.Prelude.{◌≡◌, ◌≤◌, ◌+◌, ◌∷◌, ◌++◌, [], IfOk, None, Some, length, vec_capacity};
ghost use Rattle.wh_desk.specs.Pasts.{origin_of, past_of};
ghost use Rattle.wh_desk.specs.Calls.{InOrder};
ghost use Rattle.wh_serve.specs.Hosting.{AllReported};
ghost use Rattle.wh_serve.specs.Texts.{InEach, receipt_text};
ghost use Rattle.wh_serve.specs.Rows.{Attended};
ghost use Rattle.wh_host.specs.Hosting.{Leaves};
ghost use Rattle.wh_host.specs.Pacing.{PacesUntil, callers_of};

use crate::pacing::{Paced, Pacing, pace_whole};
use std::alloc::Global;
use std::io::{Read, Write};
use std::sync::Wait;
use std::thread::{Threads, join};
use std::time::Clock;
use wh_crew::CrewFault;
use wh_desk::{Desk, DeskName, History, Pass};
use wh_display::Bell;
use wh_journal::Journal;
use wh_planner::Planner;
use wh_scribe::{JournalName, Scribe};
use wh_serve::{Client, Doors, Form, Reports, WorkerEnd, serve_clients};

/// What clients and the agents' worker left.
#[derive(Drop)]
pub struct Hosted<P: Planner = Box<dyn Planner>> {
    pub history: History<P>,
    /// Over how many connections each client was served, in their order.
    pub connections: Vec<u64>,
    /// Why the agents' worker ended before the clients did, if it did.
    pub worker: Option<WorkerEnd>,
}

/// Serves the clients, and rings the bell when all of them are through.
fn serve_and_ring<
    N: DeskName + Send + Sync,
    S: JournalName + Send + Sync,
    J: Journal + Send + Drop,
    H: Wait + Send + Sync + Drop,
    P: Planner,
    X: Threads + Wait + Sync,
    R: Read + Send + Drop,
    W: Write + Send + Drop,
    D: Doors<R, W>,
>(
    rt: &X,
    alloc: Global,
    form: Form,
    desk: &Desk<N, H, P>,
    scribe: &Scribe<N, S, J>,
    passes: Vec<Pass<N>>,
    clients: Vec<Client<P>>,
    doors: &D,
    bell: &Bell,
) -> Result<Reports<N>, CrewFault>
    requires clients { length clients.items ≡ length passes.items }
    ensures count { IfOk result (λ r. (length r.passes.items ≡ length clients.items) × (length r.connections.items ≡ length clients.items)) }
    ensures served { IfOk result (λ r. AllReported (λ c had has n. InEach has.known (λ history. Attended (length N.cells) P.fits_map P.slot_count N.origin.site.grid (receipt_text form N.origin history) (λ x. R.remaining x) (λ x. W.contents x) c had has n)) clients.items passes.items r.passes.items r.connections.items) }
{
    let served = serve_clients(rt, alloc, form, desk, scribe, passes, clients, doors);
    bell.ring(rt);
    served
}

/// Moves the passes into the room, the worker's last.
fn gather<N: DeskName>(served: Vec<Pass<N>>, own: Pass<N>, mut room: Vec<Pass<N>>) -> Vec<Pass<N>>
    requires empty { room.items ≡ [] }
    requires room { length served.items + 1 ≤ vec_capacity room }
    ensures { result.items ≡ served.items ++ own ∷ [] }
{
    for pass in served {
        room.push_reserved(pass);
    }
    room.push_reserved(own);
    room
}

/// Clients alone.
fn host_alone<
    N: DeskName + Send + Sync,
    S: JournalName + Send + Sync,
    J: Journal + Send + Drop,
    H: Wait + Send + Sync + Drop,
    P: Planner,
    X: Threads + Wait + Sync,
    R: Read + Send + Drop,
    W: Write + Send + Drop,
    D: Doors<R, W>,
>(
    rt: &X,
    alloc: Global,
    form: Form,
    desk: Desk<N, H, P>,
    scribe: &Scribe<N, S, J>,
    passes: Vec<Pass<N>>,
    clients: Vec<Client<P>>,
    doors: &D,
) -> Result<Hosted<P>, CrewFault>
    requires passes { InOrder N.callers passes.items }
    requires clients { length clients.items ≡ length passes.items }
    ensures leaves { IfOk result (λ c. Leaves P.fits_map P.slot_count (receipt_text form N.origin) (λ x. R.remaining x) (λ x. W.contents x) N.origin (length N.cells) N.callers clients.items passes.items None
        c.history.warehouse.book.history c.history.warehouse.book.state c.connections.items c.worker) }
    ensures origin { IfOk result (λ c. origin_of c.history.warehouse.book ≡ N.origin) }
    ensures book { IfOk result (λ c. c.history.front.book ≡ N.book) }
    ensures past { IfOk result (λ c. c.history.front.past ≡ past_of c.history.warehouse.book) }
{
    let Reports {
        passes: ended,
        connections,
    } = serve_clients(rt, alloc, form, &desk, scribe, passes, clients, doors)?;
    match desk.finish(ended) {
        Ok(history) => Ok(Hosted {
            history,
            connections,
            worker: None,
        }),
        Err(_) => Err(CrewFault::Stale),
    }
}

/// What clients leave, and the worker beside them.
struct Shift<N: DeskName> {
    reports: Reports<N>,
    paced: Paced<N>,
}

/// Clients, and the worker in its own thread, until all clients are through.
fn serve_beside<
    N: DeskName + Send + Sync,
    S: JournalName + Send + Sync,
    J: Journal + Send + Drop,
    H: Wait + Send + Sync + Drop,
    P: Planner,
    X: Threads + Wait + Clock + Sync,
    R: Read + Send + Drop,
    W: Write + Send + Drop,
    D: Doors<R, W>,
>(
    rt: &X,
    alloc: Global,
    form: Form,
    desk: &Desk<N, H, P>,
    scribe: &Scribe<N, S, J>,
    passes: Vec<Pass<N>>,
    clients: Vec<Client<P>>,
    doors: &D,
    own: Pass<N>,
    pace: Pacing,
) -> Result<Shift<N>, CrewFault>
    requires clients { length clients.items ≡ length passes.items }
    ensures count { IfOk result (λ s. (length s.reports.passes.items ≡ length clients.items) × (length s.reports.connections.items ≡ length clients.items)) }
    ensures served { IfOk result (λ s. AllReported (λ c had has n. InEach has.known (λ history. Attended (length N.cells) P.fits_map P.slot_count N.origin.site.grid (receipt_text form N.origin history) (λ x. R.remaining x) (λ x. W.contents x) c had has n)) clients.items passes.items s.reports.passes.items s.reports.connections.items) }
    ensures turns { IfOk result (λ s. PacesUntil (length N.cells) pace N.origin own s.paced.pass s.paced.ended) }
{
    let bell = Bell::new();
    let (paced, served) = join(
        rt,
        || -> Paced<N>
            ensures { PacesUntil (length N.cells) pace N.origin own result.pass result.ended }
        {
            pace_whole::<N, S, J, H, P, X, R, W, D>(
                rt, alloc, desk, scribe, own, pace, &bell, doors,
            )
        },
        || -> Result<Reports<N>, CrewFault>
            requires { length clients.items ≡ length passes.items }
            ensures { IfOk result (λ r. (length r.passes.items ≡ length clients.items) × (length r.connections.items ≡ length clients.items) × AllReported (λ c had has n. InEach has.known (λ history. Attended (length N.cells) P.fits_map P.slot_count N.origin.site.grid (receipt_text form N.origin history) (λ x. R.remaining x) (λ x. W.contents x) c had has n)) clients.items passes.items r.passes.items r.connections.items) }
        { serve_and_ring(rt, alloc, form, desk, scribe, passes, clients, doors, &bell) },
    );
    Ok(Shift {
        reports: served?,
        paced,
    })
}

/// Clients beside the worker, whose pass is the last.
fn host_paced<
    N: DeskName + Send + Sync,
    S: JournalName + Send + Sync,
    J: Journal + Send + Drop,
    H: Wait + Send + Sync + Drop,
    P: Planner,
    X: Threads + Wait + Clock + Sync,
    R: Read + Send + Drop,
    W: Write + Send + Drop,
    D: Doors<R, W>,
>(
    rt: &X,
    alloc: Global,
    form: Form,
    desk: Desk<N, H, P>,
    scribe: &Scribe<N, S, J>,
    mut passes: Vec<Pass<N>>,
    clients: Vec<Client<P>>,
    doors: &D,
    pace: Pacing,
) -> Result<Hosted<P>, CrewFault>
    requires passes { InOrder N.callers passes.items }
    requires clients { length clients.items + 1 ≡ length passes.items }
    ensures leaves { IfOk result (λ c. Leaves P.fits_map P.slot_count (receipt_text form N.origin) (λ x. R.remaining x) (λ x. W.contents x) N.origin (length N.cells) N.callers clients.items passes.items (Some pace)
        c.history.warehouse.book.history c.history.warehouse.book.state c.connections.items c.worker) }
    ensures origin { IfOk result (λ c. origin_of c.history.warehouse.book ≡ N.origin) }
    ensures book { IfOk result (λ c. c.history.front.book ≡ N.book) }
    ensures past { IfOk result (λ c. c.history.front.past ≡ past_of c.history.warehouse.book) }
{
    let Ok(room) = Vec::with_capacity(alloc, passes.len()) else {
        drop(desk);
        drop(passes);
        drop(clients);
        return Err(CrewFault::NoMemory);
    };
    let Some(own) = passes.pop() else {
        unreachable!()
    };
    let Shift { reports, paced } = match serve_beside(
        rt, alloc, form, &desk, scribe, passes, clients, doors, own, pace,
    ) {
        Ok(shift) => shift,
        Err(fault) => {
            drop(room);
            drop(desk);
            return Err(fault);
        }
    };
    let Reports {
        passes: served,
        connections,
    } = reports;
    let Paced {
        pass,
        ended: worker,
    } = paced;
    match desk.finish(gather(served, pass, room)) {
        Ok(history) => Ok(Hosted {
            history,
            connections,
            worker,
        }),
        Err(_) => {
            drop(connections);
            Err(CrewFault::Stale)
        }
    }
}

/// Serves client i with pass i in its own thread (`serve_clients`), and where a pace is given, with the last pass, a worker for
/// all agents and the clock beside them: after each pause it takes a turn, by a board of what was done by then, if there is anything to do,
/// until it has looked as often as it may, the clients are through, its entries are used up, or a call of it returns no receipt. Each call goes through the journal. Then the desk is
/// finished. The history is one run, and each entry is a client's or the worker's. For each client its entries are those
/// that its pass held before, and then the receipts by which it was told its replies, in order, over its connections; what was
/// written to it is the output of what it sent. There are no more entries than the desk has cells.
///
/// No client is served before all threads stand, and none at all where one of them could not be started (E93) or room for what
/// they leave could not be had (E90).
pub fn host_clients<
    N: DeskName + Send + Sync,
    S: JournalName + Send + Sync,
    J: Journal + Send + Drop,
    H: Wait + Send + Sync + Drop,
    P: Planner,
    X: Threads + Wait + Clock + Sync,
    R: Read + Send + Drop,
    W: Write + Send + Drop,
    D: Doors<R, W>,
>(
    rt: &X,
    alloc: Global,
    form: Form,
    desk: Desk<N, H, P>,
    scribe: &Scribe<N, S, J>,
    passes: Vec<Pass<N>>,
    clients: Vec<Client<P>>,
    doors: &D,
    pace: Option<Pacing>,
) -> Result<Hosted<P>, CrewFault>
    requires passes { InOrder N.callers passes.items }
    requires clients { callers_of clients.items pace ≡ length passes.items }
    ensures leaves { IfOk result (λ c. Leaves P.fits_map P.slot_count (receipt_text form N.origin) (λ x. R.remaining x) (λ x. W.contents x) N.origin (length N.cells) N.callers clients.items passes.items pace
        c.history.warehouse.book.history c.history.warehouse.book.state c.connections.items c.worker) }
    ensures origin { IfOk result (λ c. origin_of c.history.warehouse.book ≡ N.origin) }
    ensures book { IfOk result (λ c. c.history.front.book ≡ N.book) }
    ensures past { IfOk result (λ c. c.history.front.past ≡ past_of c.history.warehouse.book) }
{
    match pace {
        None => host_alone(rt, alloc, form, desk, scribe, passes, clients, doors),
        Some(pace) => host_paced(rt, alloc, form, desk, scribe, passes, clients, doors, pace),
    }
}
