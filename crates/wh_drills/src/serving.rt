//! Two clients that are served over bytes, one of them over two connections.
#![tactic(auto)]

ghost use Rattle.std.specs.Prelude.{◌≡◌, [], IfOk, Some, length};
ghost use Rattle.wh_board.specs.Pasts.{origin_of, past_of};

use super::gates::hold;
use super::houses::TAG;
use super::parts::{Outfit, Parts, fit_out, staffed};
use std::alloc::{AllocError, Global};
use std::io::{Read, Write};
use std::marker::Brand;
use std::sync::atomic::AtomicU64;
use std::sync::atomic::Ordering::SeqCst;
use std::sync::{Mutex, Wait};
use std::test::*;
use std::thread::Threads;
use wh_desk::{Desk, DeskName};
use wh_journal::MemoryJournal;
use wh_planner::Planner;
use wh_planners::Patient;
use wh_serve::{
    Allowance, Client, Connection, Doors, End, Form, Full, Idle, JournalName, Rights, Scribe,
    ServeFault, Served, WorkerEnd, serve_clients,
};

/// What client 0 sends first: the line that was begun is no command.
const FIRST: &[u8] = b"begin 0123456789abcdef\nsubmit x A B\ntoken 1";

/// What client 1 sends, when client 0 has left for the first time: three lines before it begins, and an empty one, and then its own.
/// It has no right to tokens, and may not begin once more.
const OTHER: &[u8] =
    b"submit y A B\nbegin 0123456789abcdee\nbegin 0123456789abcde\n\nbegin 0123456789abcdef\nsubmit y D C\n# nothing\n\ntoken 0\nbegin 0123456789abcdef\n";

/// How client 0 ends the service.
#[derive(Clone, Copy)]
struct Case {
    /// Whether it has the right to stop it.
    may_stop: bool,
    /// What it sends when client 1 comes no more. After the close, or the stop, nothing is served.
    second: &'static [u8],
    /// What it is told then.
    told: &'static [u8],
    replies: u64,
    /// What the journal holds then.
    kept: &'static [u8],
    /// How often the doors are told to end.
    over: u64,
}

/// By a close, and not by a stop to which it has no right.
const CLOSES: Case = Case {
    may_stop: false,
    second: b"begin 0123456789abcdef\ntoken 0\nstop\nclose\ntick\n",
    told: b"entries 8 0123456789abcdef\ntook 0 end 6\nrefused C3\nclosed\n",
    replies: 3,
    kept: b"0 submit x A B = accepted 0\n1 submit y D C = accepted 1\n0 token 0 = took 0 path 0,1 1,1 1,0 1,1 2,1 3,1 3,0\n0 close = closed\n",
    over: 1,
};

/// By a stop, which is a line of that word alone: before all is synced, and when it was told.
const STOPS: Case = Case {
    may_stop: true,
    second: b"begin 0123456789abcdef\ntoken 0\nstop now\n stop\t\ntick\n",
    told: b"entries 8 0123456789abcdef\ntook 0 end 6\nrefused C1\nstopped\n",
    replies: 3,
    kept: b"0 submit x A B = accepted 0\n1 submit y D C = accepted 1\n0 token 0 = took 0 path 0,1 1,1 1,0 1,1 2,1 3,1 3,0\n",
    over: 2,
};

/// A connection that was left.
#[derive(Drop)]
struct Left {
    client: u32,
    outcome: Result<Served, ServeFault>,
    told: Vec<u8>,
}

/// The doors of the two, in turn.
#[derive(Drop)]
struct Bytes<'a, X: Wait> {
    rt: &'a X,
    alloc: Global,
    case: Case,
    opened: AtomicU64,
    refused: AtomicU64,
    gone: AtomicU64,
    over: AtomicU64,
    begun: AtomicU64,
    dropped: AtomicU64,
    limits: AtomicU64,
    /// How often the doors were told what must not come here.
    odd: AtomicU64,
    left: Mutex<Vec<Left>>,
}

impl<'a, X: Wait> Bytes<'a, X> {
    /// The client's next connection, in the order of all.
    fn next(&self, client: u32) -> Option<&'static [u8]> {
        let opened = self.opened.fetch_add(1, SeqCst);
        match (client, opened) {
            (0, 0) => Some(FIRST),
            (1, 1) => Some(OTHER),
            (0, 3) => Some(self.case.second),
            _ => None,
        }
    }
}

impl<'a, X: Wait + Sync> Doors<&'static [u8], Vec<u8>> for Bytes<'a, X> {
    fn open(&self, client: u32) -> Option<Connection<&'static [u8], Vec<u8>>> {
        if client == 1 {
            hold(&self.gone, 1, &self.limits);
        } else if self.gone.load(SeqCst) > 0 {
            hold(&self.refused, 1, &self.limits);
        }
        match self.next(client) {
            Some(reader) => Some(Connection {
                reader,
                writer: Vec::new(self.alloc),
                tag: TAG,
            }),
            None => {
                self.refused.fetch_add(1, SeqCst);
                None
            }
        }
    }

    fn is_over(&self) -> bool {
        self.over.load(SeqCst) > 0
    }

    fn end(&self) {
        self.over.fetch_add(1, SeqCst);
    }

    fn begins(&self, _client: u32) {
        self.begun.fetch_add(1, SeqCst);
    }

    fn is_dropped(&self, client: u32) {
        if client != 1 {
            self.odd.fetch_add(1, SeqCst);
        }
        self.dropped.fetch_add(1, SeqCst);
    }

    fn is_full(&self, _client: u32, _what: Full) {
        self.odd.fetch_add(1, SeqCst);
    }

    fn worker_ends(&self, _why: WorkerEnd) {
        self.odd.fetch_add(1, SeqCst);
    }

    fn worker_idles(&self, _why: Idle) {
        self.odd.fetch_add(1, SeqCst);
    }

    fn leave(&self, client: u32, outcome: &Result<Served, ServeFault>, writer: Vec<u8>) {
        let left = Left {
            client,
            outcome: *outcome,
            told: writer,
        };
        if self.left.lock(self.rt).push(left).is_err() {
            self.limits.fetch_add(1, SeqCst);
        }
        self.gone.fetch_add(1, SeqCst);
    }
}

/// What the two left: the journal, and over how many connections each was served.
#[derive(Drop)]
struct Kept {
    journal: MemoryJournal,
    connections: Vec<u64>,
}

/// A client without spares, with so many entries in logs before.
fn client<P: Planner>(alloc: Global, rights: Rights, before: u64) -> Client<P> {
    Client {
        spares: Vec::new(alloc),
        allowance: Allowance {
            rights,
            entries: 3,
            before,
        },
    }
}

/// Client 0, which had seven entries in logs before, and client 1, which had none.
fn clients<P: Planner>(alloc: Global, may_stop: bool) -> Result<Vec<Client<P>>, Fail>
    ensures { IfOk result (λ r. length r.items ≡ 2) }
{
    let ends = Rights {
        stop: may_stop,
        ..Rights::all()
    };
    let submits = Rights {
        submit: true,
        ..Rights::default()
    };
    let mut clients = Vec::new(alloc);
    clients.push(client(alloc, ends, 7))?;
    clients.push(client(alloc, submits, 0))?;
    Ok(clients)
}

/// Opens a desk with two callers, and serves them.
fn serve<
    N: DeskName + Send + Sync,
    S: JournalName + Send + Sync,
    H: Wait + Send + Sync + Drop,
    P: Planner,
    X: Threads + Wait + Sync,
    R: Read + Send + Drop,
    W: Write + Send + Drop,
    D: Doors<R, W>,
>(
    rt: &X,
    alloc: Global,
    outfit: Outfit<H, P>,
    journal: MemoryJournal,
    clients: Vec<Client<P>>,
    doors: &D,
) -> Option<Kept>
    requires origin { origin_of outfit.warehouse.book ≡ N.origin }
    requires history { outfit.warehouse.book.history ≡ [] }
    requires cells { outfit.cells ≡ N.cells }
    requires book { outfit.publisher.book ≡ N.book }
    requires added { outfit.publisher.added ≡ past_of outfit.warehouse.book }
    requires shown { outfit.publisher.shown ≡ past_of outfit.warehouse.book }
    requires start { Some journal.held.items ≡ S.start }
    requires bare { journal.held.items ≡ [] }
    requires unsynced { journal.safe ≡ 0 }
    requires callers { N.callers ≡ length clients.items }
    requires two { length clients.items ≡ 2 }
{
    let Outfit {
        warehouse,
        cells,
        publisher,
    } = outfit;
    let front = publisher.front().again();
    match Desk::<N, H, P>::open(alloc, warehouse, cells, publisher, 2) {
        Ok((desk, passes)) => {
            let scribe = Scribe::<N, S, MemoryJournal>::new(alloc, journal, &front, 0);
            match serve_clients::<_, _, _, _, _, _, R, W, _>(
                rt,
                alloc,
                Form::Short,
                &desk,
                &scribe,
                passes,
                clients,
                doors,
            ) {
                Ok(reports) => Some(Kept {
                    journal: scribe.into_journal().journal,
                    connections: reports.connections,
                }),
                Err(_) => None,
            }
        }
        Err(_) => None,
    }
}

/// A journal with nothing in it, which may have failed.
fn bare_journal(alloc: Global, has_failed: bool) -> MemoryJournal
    ensures bare { result.held.items ≡ [] }
    ensures unsynced { result.safe ≡ 0 }
{
    let mut journal = MemoryJournal::new(alloc);
    journal.has_failed = has_failed;
    journal
}

/// The same with planners that are made by `make`, and with a journal that may have failed.
fn serve_made<
    P: Planner,
    F: Fn(Parts) -> Result<P, AllocError>,
    X: Threads + Wait + Sync,
    R: Read + Send + Drop,
    W: Write + Send + Drop,
    D: Doors<R, W>,
>(
    rt: &X,
    alloc: Global,
    has_failed: bool,
    may_stop: bool,
    doors: &D,
    make: &F,
) -> Result<Option<Kept>, Fail>
    requires { F.IsAlwaysCallable make.now }
{
    let warehouse = staffed(alloc, make)?;
    let outfit = fit_out(rt, alloc, warehouse, 10)?;
    match clients(alloc, may_stop) {
        Ok(clients) => {
            let journal = bare_journal(alloc, has_failed);
            Ok(serve::<Brand, Brand, _, _, _, R, W, _>(rt, alloc, outfit, journal, clients, doors))
        }
        Err(fault) => {
            drop(outfit);
            Err(fault)
        }
    }
}

/// The same with patient planners.
fn serve_two<
    X: Threads + Wait + Sync,
    R: Read + Send + Drop,
    W: Write + Send + Drop,
    D: Doors<R, W>,
>(
    rt: &X,
    alloc: Global,
    has_failed: bool,
    may_stop: bool,
    doors: &D,
) -> Result<Option<Kept>, Fail> {
    let make = |parts: Parts| -> Result<Patient, AllocError> {
        Ok(Patient::new(parts.grid, parts.claim))
    };
    serve_made::<_, _, _, R, W, _>(rt, alloc, has_failed, may_stop, doors, &make)
}

/// What is told over a connection: to whom, how it was served, and its bytes.
type Tells = (u32, Served, &'static [u8]);

/// What is told over each connection, in the order in which they are left.
fn tells(case: Case) -> [Tells; 3] {
    [
        (
            0,
            Served {
                replies: 1,
                end: End::Torn,
            },
            b"entries 7 0123456789abcdef\naccepted 0\n",
        ),
        (
            1,
            Served {
                replies: 3,
                end: End::Input,
            },
            b"entries 0 0123456789abcdef\naccepted 1\nrefused C3\nrefused C1\n",
        ),
        (
            0,
            Served {
                replies: case.replies,
                end: End::Over,
            },
            case.told,
        ),
    ]
}

/// Whether these were left as the table says.
fn as_told(left: &[Left], tells: &[Tells]) -> bool {
    left.len() == tells.len()
        && left.iter().zip(tells.iter()).all(|(left, told)| {
            left.client == told.0 && left.outcome == Ok(told.1) && left.told.as_slice() == told.2
        })
}

/// The doors before anybody has come.
fn shut<'a, X: Wait>(rt: &'a X, alloc: Global, case: Case) -> Bytes<'a, X> {
    Bytes {
        rt,
        alloc,
        case,
        opened: AtomicU64::new(0),
        refused: AtomicU64::new(0),
        gone: AtomicU64::new(0),
        over: AtomicU64::new(0),
        begun: AtomicU64::new(0),
        dropped: AtomicU64::new(0),
        limits: AtomicU64::new(0),
        odd: AtomicU64::new(0),
        left: Mutex::new(Vec::new(alloc)),
    }
}

/// How often the doors were asked, were asked in vain, and were ended; how many connections began, and how many lines were dropped.
#[derive(Clone, Copy, PartialEq, Eq)]
struct Counts {
    opened: u64,
    refused: u64,
    over: u64,
    begun: u64,
    dropped: u64,
}

impl<'a, X: Wait> Bytes<'a, X> {
    /// The counts, if no limit was met and nothing odd was told.
    fn counts(&self) -> Option<Counts> {
        if self.limits.load(SeqCst) > 0 || self.odd.load(SeqCst) > 0 {
            return None;
        }
        Some(Counts {
            opened: self.opened.load(SeqCst),
            refused: self.refused.load(SeqCst),
            over: self.over.load(SeqCst),
            begun: self.begun.load(SeqCst),
            dropped: self.dropped.load(SeqCst),
        })
    }
}

/// Client 0 was asked for twice and client 1 twice, in vain once. Each connection began.
fn four_times(case: Case) -> Counts {
    Counts {
        opened: 4,
        refused: 1,
        over: case.over,
        begun: 3,
        dropped: 3,
    }
}

/// Whether the two left what they were to leave.
fn comes_again(case: Case, kept: &Option<Kept>, left: &[Left], counts: Option<Counts>) -> bool {
    match kept {
        Some(kept) => {
            counts == Some(four_times(case))
                && as_told(left, tells(case).as_slice())
                && kept.connections.as_slice() == [2, 1].as_slice()
                && kept.journal.held.as_slice() == case.kept
                && kept.journal.safe == case.kept.len()
        }
        None => false,
    }
}

impl<'a, X: Wait> Bytes<'a, X> {
    /// Whether both came again as their table says.
    fn have_come_again(&self, kept: &Option<Kept>) -> bool {
        let left = self.left.lock(self.rt);
        comes_again(self.case, kept, left.as_slice(), self.counts())
    }

    /// Whether the service ended once, and nothing was told or kept.
    fn have_told_nothing(&self, kept: &Option<Kept>) -> bool {
        let left = self.left.lock(self.rt);
        tells_nothing(kept, left.as_slice(), self.counts())
    }
}

#[test]
fn client_comes_again(rt: HostRuntime) -> Result<(), Fail> {
    for case in [CLOSES, STOPS] {
        let doors = shut(&rt, rt.alloc(), case);
        let kept = serve_two::<_, &'static [u8], Vec<u8>, _>(
            &rt,
            rt.alloc(),
            false,
            case.may_stop,
            &doors,
        )?;
        assert!(rt; doors.have_come_again(&kept));
    }
    Ok(())
}

/// What a client is told as it comes: client 0 had seven entries in logs before.
fn greeting(client: u32) -> &'static [u8] {
    if client == 0 {
        b"entries 7 0123456789abcdef\n"
    } else {
        b"entries 0 0123456789abcdef\n"
    }
}

/// Whether client 0 left first, with a fault, and nobody was told a reply.
fn nobody_told(left: &[Left]) -> bool {
    let first = left.first().is_some_and(|left| {
        left.client == 0 && left.outcome == Err(ServeFault::Unjournaled)
    });
    first
        && left
            .iter()
            .all(|left| left.told.as_slice() == greeting(left.client))
}

/// Whether the service ended once, and nothing was told or kept.
fn tells_nothing(kept: &Option<Kept>, left: &[Left], counts: Option<Counts>) -> bool {
    match (kept, counts) {
        (Some(kept), Some(counts)) => {
            counts.over == 1 && nobody_told(left) && kept.journal.held.is_empty()
        }
        _ => false,
    }
}

#[test]
fn journal_has_failed(rt: HostRuntime) -> Result<(), Fail> {
    let doors = shut(&rt, rt.alloc(), CLOSES);
    let kept = serve_two::<_, &'static [u8], Vec<u8>, _>(&rt, rt.alloc(), true, false, &doors)?;
    assert!(rt; doors.have_told_nothing(&kept));
    Ok(())
}
