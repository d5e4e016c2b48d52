//! Clients served concurrently: a thread for each, all over one desk and its journal.

ghost use Rattle.std.specs.Prelude.{◌≡◌, ◌≤◌, [], ℕ, IfOk, length, map, vec_len, vec_capacity, Some, slice_get};
ghost use Rattle.wh_desk.specs.Lists.{AllAt};
ghost use Rattle.wh_serve.specs.Texts.{InEach, receipt_text};
ghost use Rattle.wh_serve.specs.Rows.{Attended};
ghost use Rattle.wh_serve.specs.Hosting.{AllReported, IsDue, ReportAt};

use crate::allowance::Allowance;
use crate::doors::{Connection, Doors};
use crate::start::{Start, Word};
use crate::visits::serve_visits;
use std::alloc::{AllocError, Global};
use std::io::{Read, Write};
use std::marker::PhantomData;
use std::snapshot::Snapshot;
use std::sync::Wait;
use std::thread;
use std::thread::{Promise, PromisedHandle, Scope, Threads};
use wh_crew::CrewFault;
use wh_desk::{Desk, DeskName, Pass};
use wh_journal::Journal;
use wh_log::Form;
use wh_planner::Planner;
use wh_scribe::{JournalName, Scribe};

/// A client: the planners that its Replaces may lend, the last first, and what it may do.
#[derive(Drop)]
pub struct Client<P = Box<dyn Planner>> {
    pub spares: Vec<P>,
    pub allowance: Allowance,
}

/// What a client's thread leaves: its pass, and over how many connections it was served.
#[derive(Drop)]
pub struct Report<N: DeskName> {
    pub pass: Pass<N>,
    pub connections: u64,
}

/// What a client's thread promises: the client was served with what the pass gained. It has no bytes but the form.
#[derive(Drop)]
pub struct Due<N: DeskName, R, W, P> {
    form: Form,
    had: Snapshot<Pass<N>>,
    client: Snapshot<Client<P>>,
    over: PhantomData<Connection<R, W>>,
}

impl<N: DeskName, R: Read, W: Write, P: Planner> Promise<Report<N>> for Due<N, R, W, P> {
    ghost use Rattle.wh_serve.specs.Texts.{InEach, receipt_text};
    ghost use Rattle.wh_serve.specs.Rows.{Attended};

    ghost kept_by = { λ due r. InEach r.pass.known (λ history. Attended (length N.cells) P.fits_map P.slot_count N.origin.site.grid (receipt_text due.form N.origin history) (λ x. R.remaining x) (λ x. W.contents x) due.client.value due.had.value r.pass r.connections) };
}

/// One client from its first connection to its last, with its pass moved in and out.
fn serve_whole<
    N: DeskName,
    S: JournalName,
    J: Journal + Drop,
    H: Wait + Drop,
    P: Planner,
    X: Wait,
    R: Read + Drop,
    W: Write + Drop,
    D: Doors<R, W>,
>(
    rt: &X,
    alloc: Global,
    form: Form,
    desk: &Desk<N, H, P>,
    scribe: &Scribe<N, S, J>,
    mut pass: Pass<N>,
    client: Client<P>,
    doors: &D,
    number: u32,
) -> Report<N>
    ensures { InEach result.pass.known (λ history. Attended (length N.cells) P.fits_map P.slot_count N.origin.site.grid (receipt_text form N.origin history) (λ x. R.remaining x) (λ x. W.contents x) client pass result.pass result.connections) }
{
    let Client {
        mut spares,
        allowance,
    } = client;
    let connections = serve_visits::<N, S, J, H, P, X, R, W, D>(
        rt,
        alloc,
        form,
        allowance,
        desk,
        scribe,
        &mut pass,
        &mut spares,
        doors,
        number,
    );
    Report { pass, connections }
}

/// What a client's thread does at a word. At a stop it serves nobody.
fn serve_at<
    N: DeskName,
    S: JournalName,
    J: Journal + Drop,
    H: Wait + Drop,
    P: Planner,
    X: Wait,
    R: Read + Drop,
    W: Write + Drop,
    D: Doors<R, W>,
>(
    rt: &X,
    alloc: Global,
    form: Form,
    desk: &Desk<N, H, P>,
    scribe: &Scribe<N, S, J>,
    pass: Pass<N>,
    client: Client<P>,
    doors: &D,
    number: u32,
    word: Word,
) -> Report<N>
    ensures served { InEach result.pass.known (λ history. Attended (length N.cells) P.fits_map P.slot_count N.origin.site.grid (receipt_text form N.origin history) (λ x. R.remaining x) (λ x. W.contents x) client pass result.pass result.connections) }
    ensures stopped { word ≡ Word.Stop → (result.pass ≡ pass) × (result.connections ≡ 0) }
{
    match word {
        Word::Go => serve_whole::<N, S, J, H, P, X, R, W, D>(
            rt, alloc, form, desk, scribe, pass, client, doors, number,
        ),
        Word::Stop => Report {
            pass,
            connections: 0,
        },
    }
}

/// Starts one client's thread.
fn start_one<
    's,
    E: 's,
    N: DeskName + Send + Sync + 's,
    S: JournalName + Send + Sync + 's,
    J: Journal + Send + Drop + 's,
    H: Wait + Send + Sync + Drop + 's,
    P: Planner + 's,
    X: Wait + Sync + 's,
    R: Read + Send + Drop + 's,
    W: Write + Send + Drop + 's,
    D: Doors<R, W> + 's,
>(
    scope: &Scope<'s, E>,
    rt: &'s X,
    alloc: Global,
    form: Form,
    desk: &'s Desk<N, H, P>,
    scribe: &'s Scribe<N, S, J>,
    pass: Pass<N>,
    client: Client<P>,
    doors: &'s D,
    start: &'s Start,
    number: u32,
) -> Result<PromisedHandle<Report<N>, Due<N, R, W, P>>, CrewFault>
    ensures { IfOk result (λ h. (h.promise.had.value ≡ pass) × (h.promise.client.value ≡ client) × (h.promise.form ≡ form)) }
{
    let due = Due {
        form,
        had: Snapshot::of(&pass),
        client: Snapshot::of(&client),
        over: PhantomData,
    };
    let started = scope.spawn_with(
        due,
        move || -> Report<N>
            ensures { InEach result.pass.known (λ history. Attended (length N.cells) P.fits_map P.slot_count N.origin.site.grid (receipt_text form N.origin history) (λ x. R.remaining x) (λ x. W.contents x) client pass result.pass result.connections) }
        {
            let word = start.wait(rt);
            serve_at::<N, S, J, H, P, X, R, W, D>(
                rt, alloc, form, desk, scribe, pass, client, doors, number, word,
            )
        },
    );
    match started {
        Ok(handle) => Ok(handle),
        Err(_) => Err(CrewFault::NoThread),
    }
}

/// Starts a thread for each client, client i with pass i, and gives the word to all: to serve, or to stop, where one could not be
/// started.
fn start_all<
    's,
    E: 's,
    N: DeskName + Send + Sync + 's,
    S: JournalName + Send + Sync + 's,
    J: Journal + Send + Drop + 's,
    H: Wait + Send + Sync + Drop + 's,
    P: Planner + 's,
    X: Threads + Wait + Sync + 's,
    R: Read + Send + Drop + 's,
    W: Write + Send + Drop + 's,
    D: Doors<R, W> + 's,
>(
    scope: &Scope<'s, E>,
    rt: &'s X,
    alloc: Global,
    form: Form,
    desk: &'s Desk<N, H, P>,
    scribe: &'s Scribe<N, S, J>,
    passes: Vec<Pass<N>>,
    clients: Vec<Client<P>>,
    doors: &'s D,
    start: &'s Start,
) -> Result<Vec<PromisedHandle<Report<N>, Due<N, R, W, P>>>, CrewFault>
    requires { length clients.items ≡ length passes.items }
    ensures count { IfOk result (λ hs. length hs.items ≡ length passes.items) }
    ensures due { IfOk result (λ hs. AllAt (λ i h. IsDue clients.items passes.items i h.promise.client.value h.promise.had.value × (h.promise.form ≡ form)) hs.items) }
{
    let Ok(mut handles) = Vec::with_capacity(alloc, passes.len()) else {
        return Err(CrewFault::NoMemory);
    };
    let mut clients = clients.into_iter();
    let mut number = 0u32;
    for pass in passes {
        let Some(client) = clients.next() else {
            unreachable!()
        };
        match start_one(
            scope, rt, alloc, form, desk, scribe, pass, client, doors, start, number,
        ) {
            Ok(handle) => handles.push_reserved(handle),
            Err(fault) => {
                start.give(rt, Word::Stop);
                join_and_drop(rt, handles);
                return Err(fault);
            }
        }
        number = number.saturating_add(1);
    }
    start.give(rt, Word::Go);
    Ok(handles)
}

/// Joins each thread, and drops its report.
fn join_and_drop<N: DeskName, P: Planner, X: Threads, R: Read + Drop, W: Write + Drop>(
    rt: &X,
    handles: Vec<PromisedHandle<Report<N>, Due<N, R, W, P>>>,
) {
    for handle in handles {
        drop(handle.join(rt));
    }
}

/// Joins each thread. Its report is at its place.
fn join_all<N: DeskName, P: Planner, X: Threads, R: Read + Drop, W: Write + Drop>(
    rt: &X,
    handles: Vec<PromisedHandle<Report<N>, Due<N, R, W, P>>>,
    mut reports: Vec<Report<N>>,
) -> Vec<Report<N>>
    requires empty { reports.items ≡ [] }
    requires room { length handles.items ≤ vec_capacity reports }
    ensures count { length result.items ≡ length handles.items }
    ensures kept { AllAt (λ i r. (h : _) → slice_get handles.items i ≡ Some h → InEach r.pass.known (λ history. Attended (length N.cells) P.fits_map P.slot_count N.origin.site.grid (receipt_text h.promise.form N.origin history) (λ x. R.remaining x) (λ x. W.contents x) h.promise.client.value h.promise.had.value r.pass r.connections)) result.items }
{
    for handle in handles {
        reports.push_reserved(handle.join(rt));
    }
    reports
}

/// What each client's thread left, in their order: its pass, and over how many connections it was served.
#[derive(Drop)]
pub struct Reports<N: DeskName> {
    pub passes: Vec<Pass<N>>,
    pub connections: Vec<u64>,
}

/// The same of the reports of all threads.
fn take_apart<N: DeskName>(reports: Vec<Report<N>>, mut left: Reports<N>) -> Reports<N>
    requires empty { (left.passes.items ≡ []) × (left.connections.items ≡ []) }
    requires room { (length reports.items ≤ vec_capacity left.passes) × (length reports.items ≤ vec_capacity left.connections) }
    ensures passes { result.passes.items ≡ map (λ r. r.pass) reports.items }
    ensures connections { result.connections.items ≡ map (λ r. r.connections) reports.items }
{
    for report in reports {
        let Report { pass, connections } = report;
        left.passes.push_reserved(pass);
        left.connections.push_reserved(connections);
    }
    left
}

/// Each client in its own thread. All threads are joined when it returns, also where one could not be started.
fn run_all<
    N: DeskName + Send + Sync,
    S: JournalName + Send + Sync,
    J: Journal + Send + Drop,
    H: Wait + Send + Sync + Drop,
    P: Planner,
    X: Threads + Wait + Sync,
    R: Read + Send + Drop,
    W: Write + Send + Drop,
    D: Doors<R, W>,
>(
    rt: &X,
    alloc: Global,
    form: Form,
    desk: &Desk<N, H, P>,
    scribe: &Scribe<N, S, J>,
    passes: Vec<Pass<N>>,
    clients: Vec<Client<P>>,
    reports: Vec<Report<N>>,
    doors: &D,
) -> Result<Vec<Report<N>>, CrewFault>
    requires clients { length clients.items ≡ length passes.items }
    requires empty { reports.items ≡ [] }
    requires room { length passes.items ≤ vec_capacity reports }
    ensures count { IfOk result (λ rs. length rs.items ≡ length passes.items) }
    ensures reported { IfOk result (λ rs. AllAt (λ i r. ReportAt (λ c had has n. InEach has.known (λ history. Attended (length N.cells) P.fits_map P.slot_count N.origin.site.grid (receipt_text form N.origin history) (λ x. R.remaining x) (λ x. W.contents x) c had has n)) clients.items passes.items i r.pass r.connections) rs.items) }
{
    let start = Start::new();
    let start = &start;
    thread::scope(
        thread::scope_env(),
        rt,
        move |scope| -> Result<Vec<Report<N>>, CrewFault>
            requires { (length clients.items ≡ length passes.items) × (reports.items ≡ []) × (length passes.items ≤ vec_capacity reports) }
            ensures { IfOk result (λ rs. (length rs.items ≡ length passes.items) × AllAt (λ i r. ReportAt (λ c had has n. InEach has.known (λ history. Attended (length N.cells) P.fits_map P.slot_count N.origin.site.grid (receipt_text form N.origin history) (λ x. R.remaining x) (λ x. W.contents x) c had has n)) clients.items passes.items i r.pass r.connections) rs.items) }
        {
            let handles = start_all(
                scope, rt, alloc, form, desk, scribe, passes, clients, doors, start,
            )?;
            Ok(join_all(rt, handles, reports))
        },
    )
}

/// Serves client i with pass i in its own thread, over one connection after another, until there are no more of them or
/// the service is over. A client whose reader or writer fails may reconnect, and the others go on. Each pass gained the receipts
/// by which its client was told. The desk and the journal stay the caller's.
///
/// No client is served before all threads stand, and none at all where one of them could not be started (E93) or room for what
/// they leave could not be had (E90). All threads are joined when it returns, then too.
pub fn serve_clients<
    N: DeskName + Send + Sync,
    S: JournalName + Send + Sync,
    J: Journal + Send + Drop,
    H: Wait + Send + Sync + Drop,
    P: Planner,
    X: Threads + Wait + Sync,
    R: Read + Send + Drop,
    W: Write + Send + Drop,
    D: Doors<R, W>,
>(
    rt: &X,
    alloc: Global,
    form: Form,
    desk: &Desk<N, H, P>,
    scribe: &Scribe<N, S, J>,
    passes: Vec<Pass<N>>,
    clients: Vec<Client<P>>,
    doors: &D,
) -> Result<Reports<N>, CrewFault>
    requires clients { length clients.items ≡ length passes.items }
    ensures count { IfOk result (λ r. (length r.passes.items ≡ length clients.items) × (length r.connections.items ≡ length clients.items)) }
    ensures served { IfOk result (λ r. AllReported (λ c had has n. InEach has.known (λ history. Attended (length N.cells) P.fits_map P.slot_count N.origin.site.grid (receipt_text form N.origin history) (λ x. R.remaining x) (λ x. W.contents x) c had has n)) clients.items passes.items r.passes.items r.connections.items) }
{
    let Ok(Room { reports, left }) = make_room(alloc, passes.len()) else {
        return Err(CrewFault::NoMemory);
    };
    match run_all(
        rt, alloc, form, desk, scribe, passes, clients, reports, doors,
    ) {
        Ok(reports) => Ok(take_apart(reports, left)),
        Err(fault) => Err(fault),
    }
}

/// Room for what the given number of clients leave, made before the first thread starts.
struct Room<N: DeskName> {
    reports: Vec<Report<N>>,
    left: Reports<N>,
}

fn make_room<N: DeskName>(alloc: Global, count: usize) -> Result<Room<N>, AllocError>
    ensures empty { IfOk result (λ r. (r.reports.items ≡ []) × (r.left.passes.items ≡ []) × (r.left.connections.items ≡ [])) }
    ensures room { IfOk result (λ r. (count ≤ vec_capacity r.reports) × (count ≤ vec_capacity r.left.passes) × (count ≤ vec_capacity r.left.connections)) }
{
    let reports = Vec::with_capacity(alloc, count)?;
    let left = Reports {
        passes: Vec::with_capacity(alloc, count)?,
        connections: Vec::with_capacity(alloc, count)?,
    };
    Ok(Room { reports, left })
}
