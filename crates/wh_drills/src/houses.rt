//! The doors of one client over bytes, who waits for a cue.
#![tactic(auto)]

use super::gates::hold;
use std::alloc::Global;
use std::sync::atomic::AtomicU64;
use std::sync::atomic::Ordering::SeqCst;
use std::sync::{Mutex, Wait};
use wh_serve::{Connection, Doors, Full, Idle, ServeFault, Served, Tag, WorkerEnd};

/// The tag of each connection. What a client sends begins with `begin 0123456789abcdef`.
pub const TAG: Tag = Tag {
    bytes: [0x01, 0x23, 0x45, 0x67, 0x89, 0xab, 0xcd, 0xef],
};

/// What the doors of the one client were told.
#[derive(Drop)]
pub struct Notes {
    pub told: Vec<u8>,
    pub outcome: Option<Result<Served, ServeFault>>,
    pub fulls: Vec<(u32, Full)>,
    pub ended: Option<WorkerEnd>,
    pub idle: Option<Idle>,
}

/// How often a connection was asked for, how often the service ended, and how often a limit was met.
#[derive(Clone, Copy)]
pub struct Counts {
    pub opened: u64,
    pub over: u64,
    pub limits: u64,
}

/// The doors of one client, with what it sends over its connections. This many of these come at once, and the next one behind a
/// cue: that a worker has ended is one, and others may give more.
#[derive(Drop)]
pub struct House<'a, X: Wait> {
    rt: &'a X,
    alloc: Global,
    sends: &'static [&'static [u8]],
    at_once: u64,
    pub cues: AtomicU64,
    opened: AtomicU64,
    over: AtomicU64,
    limits: AtomicU64,
    pub notes: Mutex<Notes>,
}

impl<'a, X: Wait> House<'a, X> {
    /// Before anybody has come.
    pub fn new(
        rt: &'a X,
        alloc: Global,
        sends: &'static [&'static [u8]],
        at_once: u64,
    ) -> House<'a, X> {
        House {
            rt,
            alloc,
            sends,
            at_once,
            cues: AtomicU64::new(0),
            opened: AtomicU64::new(0),
            over: AtomicU64::new(0),
            limits: AtomicU64::new(0),
            notes: Mutex::new(Notes {
                told: Vec::new(alloc),
                outcome: None,
                fulls: Vec::new(alloc),
                ended: None,
                idle: None,
            }),
        }
    }

    pub fn counts(&self) -> Counts {
        Counts {
            opened: self.opened.load(SeqCst),
            over: self.over.load(SeqCst),
            limits: self.limits.load(SeqCst),
        }
    }
}

impl<'a, X: Wait + Sync> Doors<&'static [u8], Vec<u8>> for House<'a, X> {
    fn open(&self, _client: u32) -> Option<Connection<&'static [u8], Vec<u8>>> {
        let opened = self.opened.fetch_add(1, SeqCst);
        if opened == self.at_once {
            hold(&self.cues, 1, &self.limits);
        }
        let reader = *self.sends.get(usize::try_from(opened).ok()?)?;
        Some(Connection {
            reader,
            writer: Vec::new(self.alloc),
            tag: TAG,
        })
    }

    fn is_over(&self) -> bool {
        self.over.load(SeqCst) > 0
    }

    fn end(&self) {
        self.over.fetch_add(1, SeqCst);
    }

    fn begins(&self, _client: u32) {}

    fn is_dropped(&self, _client: u32) {
        self.limits.fetch_add(1, SeqCst);
    }

    fn is_full(&self, client: u32, what: Full) {
        if self.notes.lock(self.rt).fulls.push((client, what)).is_err() {
            self.limits.fetch_add(1, SeqCst);
        }
    }

    fn worker_ends(&self, why: WorkerEnd) {
        self.notes.lock(self.rt).ended = Some(why);
        self.cues.fetch_add(1, SeqCst);
    }

    fn worker_idles(&self, why: Idle) {
        self.notes.lock(self.rt).idle = Some(why);
    }

    fn leave(&self, _client: u32, outcome: &Result<Served, ServeFault>, writer: Vec<u8>) {
        let mut notes = self.notes.lock(self.rt);
        notes.outcome = Some(*outcome);
        if notes.told.extend_from_slice(writer.as_slice()).is_err() {
            self.limits.fetch_add(1, SeqCst);
        }
    }
}
