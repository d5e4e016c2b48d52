//! Where a client's thread is blocked in its pipes, for the thread that releases it.
#![tactic(auto)]

use std::sync::atomic::AtomicU64;
use std::sync::atomic::Ordering::SeqCst;

/// In which call a thread may stand for as long as its client does nothing.
#[derive(Clone, Copy, Debug, PartialEq, Eq)]
pub(crate) enum Place {
    /// In none.
    Nowhere,
    OpeningReplies,
    OpeningCommands,
    Reading,
    Writing,
}

/// Where a thread stands, and how long it has been seen there.
#[derive(Drop)]
pub(crate) struct Standing {
    place: AtomicU64,
    steps: AtomicU64,
    seen: AtomicU64,
    rounds: AtomicU64,
}

impl Standing {
    pub(crate) fn new() -> Standing {
        Standing {
            place: AtomicU64::new(0),
            steps: AtomicU64::new(0),
            seen: AtomicU64::new(0),
            rounds: AtomicU64::new(0),
        }
    }

    pub(crate) fn set(&self, place: Place) {
        let number = match place {
            Place::Nowhere => 0,
            Place::OpeningReplies => 1,
            Place::OpeningCommands => 2,
            Place::Reading => 3,
            Place::Writing => 4,
        };
        self.steps.fetch_add(1, SeqCst);
        self.place.store(number, SeqCst);
    }

    pub(crate) fn place(&self) -> Place {
        match self.place.load(SeqCst) {
            1 => Place::OpeningReplies,
            2 => Place::OpeningCommands,
            3 => Place::Reading,
            4 => Place::Writing,
            _ => Place::Nowhere,
        }
    }

    /// For how many rounds the thread has stood in one call, where whoever lets it go asks once in each round.
    pub(crate) fn rounds(&self) -> u64 {
        let steps = self.steps.load(SeqCst);
        let rounds = if self.seen.swap(steps, SeqCst) == steps {
            self.rounds.load(SeqCst).saturating_add(1)
        } else {
            0
        };
        self.rounds.store(rounds, SeqCst);
        rounds
    }
}
