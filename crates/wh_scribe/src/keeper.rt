//! What is under the lock for writing and syncing the journal.
#![tactic(auto)]

ghost use Rattle.std.specs.Prelude.{◌≡◌, ◌⊎◌, true, length};
ghost use Rattle.std.specs.Io.KnownBytes.{Appends};
ghost use Rattle.wh_journal.specs.Journals.{lines_for};

use crate::name::JournalName;
use crate::order::Order;
use crate::page::Page;
use crate::waiting::Waiting;
use std::alloc::Global;
use wh_desk::{DeskName, Front};
use wh_journal::Journal;

/// The page, and the lines that were taken last, whose room is used again.
#[derive(Drop)]
pub(crate) struct Keeper<N: DeskName, S: JournalName, J: Journal + Drop> {
    pub(crate) page: Page<N, S, J>,
    lines: Waiting<N>,
}

impl<N: DeskName, S: JournalName, J: Journal + Drop> Keeper<N, S, J> {
    /// Over the journal as it stands, with the lines of all entries that are known.
    pub(crate) fn new(alloc: Global, journal: J, front: &Front, written: u64) -> Keeper<N, S, J>
        requires book { front.now.book ≡ N.book }
        requires written { written ≡ length front.now.past.history }
        requires start { Appends S.start (J.contents journal) (lines_for front.now.past.history) }
        requires synced { J.synced journal ≡ J.contents journal }
        ensures { result.page.written ≡ written }
    {
        Keeper {
            page: Page::new(journal, front, written),
            lines: Waiting::new(alloc, front, written),
        }
    }

    /// Takes the lines that wait. Where one could not be entered, nothing is written any more.
    pub(crate) fn take(&mut self, order: &mut Order<N>)
        ensures lines { self.new.lines ≡ order.old.waiting }
        ensures failed { order.old.failed ≡ true → self.new.page.failed ≡ true }
    {
        order.waiting.hand_over(&mut self.lines);
        if order.failed {
            self.page.fail();
        }
    }

    /// Appends the lines that were taken, and syncs all that is written.
    pub(crate) fn keep(&mut self)
        ensures settled { (self.new.page.failed ≡ true) ⊎ (self.new.page.synced ≡ self.old.lines.entered) }
        ensures failed { self.old.page.failed ≡ true → self.new ≡ self.old }
    {
        self.page.keep(&self.lines);
    }
}
