//! How far a client's connection is before it begins, and the tags of connections.
#![tactic(auto)]

use std::io;
use std::random::RandomSource;
use std::sync::atomic::AtomicU64;
use std::sync::atomic::Ordering::SeqCst;
use wh_serve::Tag;

/// A connection that has not begun for this many rounds is told of: 5 seconds.
const LATE: u64 = 250;

/// A tag that no connection had before, by the system's random source.
pub(crate) fn new_tag<T: RandomSource>(source: &T) -> io::Result<Tag> {
    let mut bytes = [0; 8];
    source.fill_bytes(&mut bytes)?;
    Ok(Tag { bytes })
}

/// For how many rounds a connection waits to begin, 0 where none does, and how many lines were dropped meanwhile.
#[derive(Drop)]
pub(crate) struct Beginning {
    rounds: AtomicU64,
    dropped: AtomicU64,
}

impl Beginning {
    pub(crate) fn new() -> Beginning {
        Beginning {
            rounds: AtomicU64::new(0),
            dropped: AtomicU64::new(0),
        }
    }

    /// A connection waits from now on.
    pub(crate) fn wait(&self) {
        self.dropped.store(0, SeqCst);
        self.rounds.store(1, SeqCst);
    }

    /// It waits no longer: it has begun, or is over.
    pub(crate) fn end(&self) {
        self.rounds.store(0, SeqCst);
    }

    pub(crate) fn drop_line(&self) {
        self.dropped.fetch_add(1, SeqCst);
    }

    /// How many lines were dropped since this was asked, or a connection waited.
    pub(crate) fn take_dropped(&self) -> u64 {
        self.dropped.swap(0, SeqCst)
    }

    /// Whether it is late, told once, where this is asked once in each round.
    pub(crate) fn is_late(&self) -> bool {
        let rounds = self.rounds.load(SeqCst);
        if rounds == 0 || rounds > LATE {
            return false;
        }
        // a connection that has begun meanwhile stays at 0
        let next = rounds.saturating_add(1);
        match self.rounds.compare_exchange(rounds, next, SeqCst, SeqCst) {
            Ok(_) => rounds == LATE,
            Err(_) => false,
        }
    }
}
