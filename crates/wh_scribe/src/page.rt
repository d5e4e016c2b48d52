//! The journal, and what is kept in it.
#![tactic(auto)]

ghost use Rattle.std.specs.Prelude.{◌≡◌, ◌⊎◌, true, false, length};
ghost use Rattle.std.specs.Io.KnownBytes.{Appends};
ghost use Rattle.wh_journal.specs.Journals.{lines_for};

use crate::mark::Mark;
use crate::name::JournalName;
use crate::waiting::Waiting;
use std::marker::{Model, PhantomData};
use wh_desk::{DeskName, Front};
use wh_journal::Journal;

/// The journal, with what is known of the history, how many of its entries are written and how many of these synced, and
/// whether the journal has failed. Contracts see it as a record of these.
#[derive(Drop)]
pub(crate) struct Page<N: DeskName, S: JournalName, J: Journal + Drop> {
    pub(crate) journal: J,
    pub(crate) front: Front,
    pub(crate) written: u64,
    pub(crate) synced: u64,
    pub(crate) failed: bool,
    pub(crate) name: PhantomData<(N, S)>,
}

impl<N: DeskName, S: JournalName, J: Journal + Drop> Model for Page<N, S, J> {
    ghost use Rattle.wh_scribe.specs.Keeping.{PageKeeps, Standing, standing};

    ghost Value = { Standing J };

    ghost view = { λ p. standing p.journal p.front p.written p.synced p.failed };

    ghost invariant = { λ p. PageKeeps (λ x. J.contents x) (λ x. J.synced x) N.book S.start (standing p.journal p.front p.written p.synced p.failed) };
}

impl<N: DeskName, S: JournalName, J: Journal + Drop> Page<N, S, J> {
    /// A page over the journal as it stands, with the lines of all entries that are known.
    pub(crate) fn new(journal: J, front: &Front, written: u64) -> Page<N, S, J>
        requires book { front.now.book ≡ N.book }
        requires written { written ≡ length front.now.past.history }
        requires start { Appends S.start (J.contents journal) (lines_for front.now.past.history) }
        requires synced { J.synced journal ≡ J.contents journal }
        ensures written { result.written ≡ written }
        ensures open { result.failed ≡ false }
    {
        Page {
            journal,
            front: front.again(),
            written,
            synced: written,
            failed: false,
            name: PhantomData,
        }
    }

    /// Nothing is written any more.
    pub(crate) fn fail(&mut self)
        ensures failed { self.new.failed ≡ true }
        ensures written { (self.new.written ≡ self.old.written) × (self.new.synced ≡ self.old.synced) }
        ensures known { self.new.known ≡ self.old.known }
    {
        self.failed = true;
    }

    /// Appends lines, and syncs all that is written. Where the journal fails, nothing is written from then on.
    pub(crate) fn keep(&mut self, lines: &Waiting<N>)
        ensures settled { (self.new.failed ≡ true) ⊎ ((self.new.written ≡ lines.now.entered) × (self.new.synced ≡ lines.now.entered)) }
        ensures failed { self.old.failed ≡ true → self.new ≡ self.old }
    {
        self.append(lines);
        self.sync();
    }

    /// Appends lines, if they are those of the next entries. They always are where one page takes all that wait.
    fn append(&mut self, lines: &Waiting<N>)
        ensures settled { (self.new.failed ≡ true) ⊎ (self.new.written ≡ lines.now.entered) }
        ensures failed { self.old.failed ≡ true → self.new ≡ self.old }
    {
        if self.failed || lines.entered() == self.written {
            return;
        }
        if lines.taken() != self.written {
            self.failed = true;
            return;
        }
        self.front.meets(lines.front());
        self.front = lines.front().again();
        match self.journal.append(lines.lines()) {
            Ok(()) => self.written = lines.entered(),
            Err(_) => self.failed = true,
        }
    }

    /// Syncs what is written. Where the journal fails, nothing is written from then on.
    fn sync(&mut self)
        ensures settled { (self.new.failed ≡ true) ⊎ (self.new.synced ≡ self.new.written) }
        ensures written { self.new.written ≡ self.old.written }
        ensures known { self.new.known ≡ self.old.known }
        ensures failed { self.old.failed ≡ true → self.new ≡ self.old }
    {
        if self.failed || self.synced == self.written {
            return;
        }
        match self.journal.sync() {
            Ok(()) => self.synced = self.written,
            Err(_) => self.failed = true,
        }
    }

    /// What is kept by now. Nobody is at the journal by it.
    pub(crate) fn mark(&self) -> Mark<N, S, J>
        ensures known { result.known ≡ self.now.known }
        ensures synced { result.synced ≡ self.now.synced }
        ensures failed { result.failed ≡ self.now.failed }
        ensures free { result.is_busy ≡ false }
    {
        Mark::new(&self.front, self.synced, self.failed)
    }
}
