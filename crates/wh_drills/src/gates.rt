//! What stands round the calls of workers in these tests.
#![tactic(auto)]

use std::sync::atomic::AtomicU64;
use std::sync::atomic::Ordering::SeqCst;
use std::thread::yield_now;
use wh_crew::Gate;

/// Yields until the count is reached, for at most 10,000,000 turns. Whether it was.
pub fn comes(count: &AtomicU64, least: u64) -> bool {
    for _ in 0..10_000_000u32 {
        if count.load(SeqCst) >= least {
            return true;
        }
        yield_now();
    }
    false
}

/// Waits for the count, and notes where the limit was met.
pub fn hold(count: &AtomicU64, least: u64, limits: &AtomicU64) {
    if !comes(count, least) {
        limits.fetch_add(1, SeqCst);
    }
}

/// Holds worker 0's first call until worker 1's first is answered, and worker 1's second until worker 0's first is.
#[derive(Drop)]
pub struct Turns {
    pub zero: AtomicU64,
    pub one: AtomicU64,
    pub limits: AtomicU64,
}

impl Gate for Turns {
    fn before(&self, worker: u32, call: u32) {
        if worker == 0 && call == 0 {
            hold(&self.one, 1, &self.limits);
        }
        if worker == 1 && call == 1 {
            hold(&self.zero, 1, &self.limits);
        }
    }

    fn after(&self, worker: u32, call: u32) {
        if worker == 0 && call == 0 {
            self.zero.store(1, SeqCst);
        }
        if worker == 1 && call == 0 {
            self.one.store(1, SeqCst);
        }
    }
}

/// Holds each worker's first call until the given number of workers have begun.
#[derive(Drop)]
pub struct Together {
    pub workers: u64,
    pub begun: AtomicU64,
    pub limits: AtomicU64,
}

impl Gate for Together {
    fn before(&self, _worker: u32, call: u32) {
        if call == 0 {
            self.begun.fetch_add(1, SeqCst);
            hold(&self.begun, self.workers, &self.limits);
        }
    }

    fn after(&self, _worker: u32, _call: u32) {}
}

/// Lets every call through, and counts how many were begun and how many were answered.
#[derive(Drop)]
pub struct Open {
    pub begun: AtomicU64,
    pub ended: AtomicU64,
}

impl Gate for Open {
    fn before(&self, _worker: u32, _call: u32) {
        self.begun.fetch_add(1, SeqCst);
    }

    fn after(&self, _worker: u32, _call: u32) {
        self.ended.fetch_add(1, SeqCst);
    }
}

/// Holds each worker, once its call is answered, until a display has seen as many entries as calls were answered. So none ends, and
/// the desk with it, before the last board is seen: a look at a desk that is gone shows nothing new.
#[derive(Drop)]
pub struct Watched {
    pub answered: AtomicU64,
    pub seen: AtomicU64,
    pub limits: AtomicU64,
}

impl Watched {
    pub fn new() -> Watched {
        Watched {
            answered: AtomicU64::new(0),
            seen: AtomicU64::new(0),
            limits: AtomicU64::new(0),
        }
    }
}

impl Gate for Watched {
    fn before(&self, _worker: u32, _call: u32) {}

    fn after(&self, _worker: u32, _call: u32) {
        let answered = self.answered.fetch_add(1, SeqCst).saturating_add(1);
        hold(&self.seen, answered, &self.limits);
    }
}
