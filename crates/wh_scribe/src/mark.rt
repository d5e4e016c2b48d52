//! What is kept by now.
#![tactic(auto)]

ghost use Rattle.std.specs.Prelude.{◌≡◌, true, false};
ghost use Rattle.wh_scribe.specs.Keeping.{KeepsFirst, MarkKeeps};

use crate::name::JournalName;
use std::marker::{Model, PhantomData};
use wh_desk::{DeskName, Front};
use wh_journal::Journal;

/// What is kept by now: how many of the first entries of a history of the desk's book are synced; whether the journal has failed; and
/// whether somebody is at it. Whoever finds nobody there may go, and says so here; it comes back with another mark, in whose
/// place nobody is. Contracts see it as a record of these.
#[derive(Drop)]
pub(crate) struct Mark<N: DeskName, S: JournalName, J: Journal + Drop> {
    front: Front,
    synced: u64,
    failed: bool,
    is_busy: bool,
    name: PhantomData<(N, S, J)>,
}

impl<N: DeskName, S: JournalName, J: Journal + Drop> Model for Mark<N, S, J> {
    ghost use Rattle.wh_scribe.specs.Keeping.{MarkKeeps, Marked, marked};

    ghost Value = { Marked };

    ghost view = { λ m. marked m.front m.synced m.failed m.is_busy };

    ghost invariant = { λ m. MarkKeeps (λ x. J.synced x) N.book S.start m.front m.synced };
}

impl<N: DeskName, S: JournalName, J: Journal + Drop> Mark<N, S, J> {
    /// The given number of first entries of a history of the desk's book are synced. Nobody is at the journal.
    pub(crate) fn new(front: &Front, synced: u64, failed: bool) -> Mark<N, S, J>
        requires { MarkKeeps (λ x. J.synced x) N.book S.start front.now synced }
        ensures known { result.known ≡ front.now }
        ensures synced { result.synced ≡ synced }
        ensures failed { result.failed ≡ failed }
        ensures free { result.is_busy ≡ false }
    {
        Mark {
            front: front.again(),
            synced,
            failed,
            is_busy: false,
            name: PhantomData,
        }
    }

    /// Whether the given number of first entries are not all synced, and may still come to be.
    pub(crate) fn lacks(&self, count: u64) -> bool
        ensures { result ≡ true → self.now.failed ≡ false }
    {
        !self.failed && self.synced < count
    }

    /// Whether they may come to be by who is at the journal.
    pub(crate) fn waits(&self, count: u64) -> bool
        ensures { result ≡ true → self.now.is_busy ≡ true }
    {
        self.is_busy && self.lacks(count)
    }

    /// Somebody goes to the journal.
    pub(crate) fn take(&mut self)
        ensures { self.new.is_busy ≡ true }
    {
        self.is_busy = true;
    }

    /// Whether the given number of first entries of a history that somebody knows are synced.
    pub(crate) fn has_kept(&self, known: &Front, count: u64) -> bool
        requires { known.now.book ≡ N.book }
        ensures { result ≡ true → KeepsFirst (λ x. J.synced x) S.start known.now.past.history count }
    {
        self.front.meets(known);
        count <= self.synced
    }
}
