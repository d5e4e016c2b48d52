//! The doors of a service over named pipes.
#![tactic(auto)]

use crate::beginning::new_tag;
use crate::connection::{Inlet, Outlet};
use crate::folders::{ClientPipes, open_pipe};
use crate::standing::Place;
use std::alloc::{AllocError, Global};
use std::fs::{File, Files, OpenOptions};
use std::io::{BufWriter, Eprint, ErrorKind};
use std::random::RandomSource;
use std::sync::Arc;
use std::sync::atomic::AtomicBool;
use std::sync::atomic::Ordering::SeqCst;
use std::time::{Clock, Duration};
use std::{io, thread};
use wh_desk::DeskFault;
use wh_replay::ReplayFault;
use wh_serve::{CallFault, Connection, Doors, End, Full, Idle, ServeFault, Served, WorkerEnd};

/// How many bytes of replies wait at most before they are written.
const REPLIES_ROOM: usize = 4_096;

/// Before pipes are tried again there are so many rests, a second in all. The service may end behind each.
const RESTS: u64 = 50;

/// How many milliseconds such a rest has.
const REST: u64 = 20;

/// The doors of a service: each client's next connection is its two pipes, opened again.
#[derive(Drop)]
pub struct Pipes<'a, T: Files<File = File> + Clock> {
    pub(crate) rt: &'a T,
    alloc: Global,
    pub(crate) clients: Vec<Option<Arc<ClientPipes>>>,
    pub(crate) is_over: Arc<AtomicBool>,
}

/// One connection of a client over its pipes.
type PipeConnection<'a, T> = Connection<Inlet<'a, T>, BufWriter<Outlet>>;

impl<'a, T: Files<File = File> + RandomSource + Clock> Pipes<'a, T> {
    /// The pipes in these folders, which are locked: a client's number is its place, and one without a folder never comes.
    pub fn new(
        rt: &'a T,
        alloc: Global,
        folders: &[Option<&str>],
    ) -> Result<Pipes<'a, T>, AllocError> {
        let is_over = Arc::new(alloc, AtomicBool::new(false))?;
        let mut clients = Vec::new(alloc);
        for folder in folders {
            let client = match folder {
                Some(folder) => {
                    let over = Arc::try_clone(&is_over)?;
                    let pipes = ClientPipes::new(rt, alloc, folder, over)?;
                    Some(Arc::new(alloc, pipes)?)
                }
                None => None,
            };
            clients.push(client)?;
        }
        Ok(Pipes {
            rt,
            alloc,
            clients,
            is_over,
        })
    }

    fn pipes(&self, client: u32) -> Option<&Arc<ClientPipes>> {
        match self.clients.get(client as usize) {
            Some(Some(pipes)) => Some(pipes),
            _ => None,
        }
    }

    /// Tells how many lines of a connection that is over were dropped, if any was.
    fn tell_dropped(&self, client: u32)
    where
        T: Eprint,
    {
        let Some(pipes) = self.pipes(client) else {
            return;
        };
        let dropped = pipes.beginning.take_dropped();
        if dropped > 0 {
            let _ = eprintln!(self.rt; "client {client}: {dropped} lines before begin dropped");
        }
    }

    /// Rests before pipes are tried again, as long as the service is not over.
    fn rest(&self) {
        for _ in 0..RESTS {
            if self.is_over.load(SeqCst) {
                return;
            }
            thread::sleep(self.rt, Duration::from_millis(REST));
        }
    }

    /// Waits until a client opens the pipe of its replies, or the service is over.
    fn connect(&self, pipes: &Arc<ClientPipes>) -> io::Result<Option<PipeConnection<'a, T>>> {
        pipes.standing.set(Place::OpeningReplies);
        if pipes.is_over() {
            return Ok(None);
        }
        let mut how = OpenOptions::new();
        how.write(true);
        let replies = open_pipe(self.rt, &how, pipes.replies.as_str())?;
        if pipes.is_over() {
            return Ok(None);
        }
        let (Ok(for_outlet), Ok(for_inlet)) = (Arc::try_clone(pipes), Arc::try_clone(pipes)) else {
            return Err(io::Error::from(ErrorKind::OutOfMemory));
        };
        let outlet = Outlet::new(for_outlet, replies);
        let Ok(writer) = BufWriter::with_capacity(self.alloc, REPLIES_ROOM, outlet) else {
            return Err(io::Error::from(ErrorKind::OutOfMemory));
        };
        let tag = new_tag(self.rt)?;
        pipes.beginning.wait();
        Ok(Some(Connection {
            reader: Inlet::new(self.rt, for_inlet),
            writer,
            tag,
        }))
    }
}

impl<'a, T: Files<File = File> + RandomSource + Eprint + Clock + Sync> Doors<
    Inlet<'a, T>,
    BufWriter<Outlet>,
> for Pipes<'a, T> {
    fn open(&self, client: u32) -> Option<PipeConnection<'a, T>> {
        let pipes = self.pipes(client)?;
        for tries in 0..u64::MAX {
            let connected = self.connect(pipes);
            pipes.standing.set(Place::Nowhere);
            match connected {
                Ok(connection) => {
                    if tries > 0 && connection.is_some() {
                        let _ = eprintln!(self.rt;
                            "client {client}: its pipes are open again, {tries} tries failed"
                        );
                    }
                    return connection;
                }
                Err(_) => {
                    if tries == 0 {
                        let _ = eprintln!(self.rt; "client {client}: its pipes cannot be opened");
                    }
                    self.rest();
                }
            }
        }
        None
    }

    fn is_over(&self) -> bool {
        self.is_over.load(SeqCst)
    }

    fn end(&self) {
        self.is_over.store(true, SeqCst);
    }

    fn begins(&self, client: u32) {
        if let Some(pipes) = self.pipes(client) {
            pipes.beginning.end();
        }
    }

    fn is_dropped(&self, client: u32) {
        if let Some(pipes) = self.pipes(client) {
            pipes.beginning.drop_line();
        }
    }

    fn is_full(&self, client: u32, what: Full) {
        let Some(pipes) = self.pipes(client) else {
            return;
        };
        if !pipes.is_first(what) {
            return;
        }
        let told = match what {
            Full::Share => eprintln!(self.rt; "client {client}: its share of the entries is used"),
            Full::Journal => eprintln!(self.rt; "client {client}: the journal is full"),
        };
        let _ = told;
    }

    fn worker_ends(&self, why: WorkerEnd) {
        let told = match why {
            WorkerEnd::ShareUsed => {
                eprintln!(self.rt; "agents and clock: their share of the entries is used")
            }
            WorkerEnd::Untold(CallFault::Refused(DeskFault::Full)) => {
                eprintln!(self.rt; "agents and clock: refused E11")
            }
            WorkerEnd::Untold(CallFault::Refused(DeskFault::NoMemory)) => {
                eprintln!(self.rt; "agents and clock: refused E90")
            }
            WorkerEnd::Untold(CallFault::Refused(DeskFault::CellTaken)) => {
                eprintln!(self.rt; "agents and clock: refused E91")
            }
            WorkerEnd::Untold(CallFault::Refused(DeskFault::Stale)) => {
                eprintln!(self.rt; "agents and clock: refused E95")
            }
            WorkerEnd::Untold(CallFault::Failed | CallFault::Unkept) => {
                eprintln!(self.rt; "agents and clock: refused X5")
            }
        };
        let _ = told;
    }

    fn worker_idles(&self, why: Idle) {
        let told = match why {
            Idle::Clock => eprintln!(self.rt; "agents and clock: idle clock"),
            Idle::NoPath => eprintln!(self.rt; "agents and clock: idle E6"),
            Idle::Standstill => eprintln!(self.rt; "agents and clock: idle standstill"),
        };
        let _ = told;
    }

    fn leave(&self, client: u32, outcome: &Result<Served, ServeFault>, writer: BufWriter<Outlet>) {
        drop(writer);
        self.begins(client);
        if self.is_over() {
            return;
        }
        self.tell_dropped(client);
        let told = match outcome {
            Ok(
                Served {
                    end: End::Input | End::Over,
                    ..
                },
            ) => Ok(()),
            Ok(Served { end: End::Torn, .. }) => eprintln!(self.rt;
                "client {client}: a line was cut off, and not served"
            ),
            Err(ServeFault::Cut(ReplayFault::Unwritten)) => eprintln!(self.rt;
                "client {client}: refused X3"
            ),
            Err(ServeFault::Cut(ReplayFault::Broken)) => eprintln!(self.rt;
                "client {client}: refused X1"
            ),
            Err(ServeFault::Cut(ReplayFault::Endless)) => eprintln!(self.rt;
                "client {client}: refused X2"
            ),
            Err(ServeFault::Unjournaled) => eprintln!(self.rt; "client {client}: refused X5"),
        };
        let _ = told;
    }
}
