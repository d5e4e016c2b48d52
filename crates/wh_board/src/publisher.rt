//! The one that publishes, and those that look.
#![tactic(auto)]

ghost use Rattle.std.specs.Prelude.{◌≡◌, ◌⊎◌, IfOk, IfSome, IfNone, MatchBool};
ghost use Rattle.wh_board.specs.Boards.{IsBoardOf};
ghost use Rattle.wh_board.specs.Pasts.{Extends, grown, past_of};

use crate::board::Board;
use crate::copies;
use crate::copies::{PageReader, PageWriter, read, show};
use crate::front::{Count, Front};
use crate::page::Page;
use core::mem::replace_with;
use std::alloc::{AllocError, Global};
use std::marker::Model;
use std::sync::Wait;
use wh_book::Book;
use wh_event::Entry;

/// At most this many viewers may live at once.
pub const VIEWERS: usize = 64;

/// Why there is no viewer.
#[derive(Clone, Copy, Debug, PartialEq, Eq)]
pub enum ViewerFault {
    /// E92: no place for one was given; there are 64.
    NoPlace,
}

/// It keeps the book of what was done in a warehouse, and publishes boards of it. Its drop waits until looks end, so it
/// keeps `rt`.
pub struct Publisher<R: Wait + Drop> {
    count: Count,
    front: Front,
    writer: PageWriter,
    rt: R,
}

impl<R: Wait + Drop> Model for Publisher<R> {
    ghost use Rattle.std.specs.Prelude.{◌≡◌, [], drop};
    ghost use Rattle.left_right.specs.Sides.{view as known_to};
    ghost use Rattle.wh_board.specs.Pasts.{Stand, Extends};
    ghost use Rattle.wh_board.specs.Rules.{IsOf, word_of};

    ghost Value = { Stand };

    ghost view = { λ p. record { book = p.front.book; added = p.front.past; shown = p.writer.desk.shown.value.past } };

    ghost invariant = { λ p. (p.count ≡ word_of p.front.book) × (p.writer.desk.shown.value.book ≡ p.front.book) × Extends p.writer.desk.shown.value.past p.front.past × IsOf p.front.book (known_to p.writer.desk.place) × (drop p.writer.behind p.writer.log.items ≡ []) };
}

/// That a past was published, with its board. It may teach any number of viewers.
#[derive(Drop)]
pub struct Told {
    page: Page,
}

impl Model for Told {
    ghost use Rattle.wh_board.specs.Pasts.{Known};

    ghost Value = { Known };

    ghost view = { λ t. t.page };
}

/// It looks at the board, and waits for nobody. Contracts see the past that it knows.
#[derive(Drop)]
pub struct Viewer {
    reader: PageReader,
    known: Page,
}

impl Model for Viewer {
    ghost use Rattle.left_right.specs.Sides.{view as known_to};
    ghost use Rattle.wh_board.specs.Pasts.{Known};
    ghost use Rattle.wh_board.specs.Rules.{IsOf};

    ghost Value = { Known };

    ghost view = { λ v. v.known };

    ghost invariant = { λ v. IsOf v.known.book (known_to v.reader.place) };
}

impl<R: Wait + Drop> Publisher<R> {
    /// The board of the book as it is gets published first.
    pub fn new(alloc: Global, rt: R, book: &Book) -> Result<Publisher<R>, AllocError>
        ensures shown { IfOk result (λ p. p.shown ≡ past_of book.now) }
        ensures added { IfOk result (λ p. p.added ≡ past_of book.now) }
    {
        let (count, front) = Front::open(book);
        let page = Page::of(book, front.again());
        let writer = PageWriter::new(alloc, page.again(), page, VIEWERS)?;
        let (writer, _) = show(writer, &rt);
        Ok(Publisher {
            count,
            front,
            writer,
            rt,
        })
    }

    /// What was added so far. What was published last is a beginning of it.
    pub fn front(&self) -> &Front
        ensures book { result.now.book ≡ self.now.book }
        ensures past { result.now.past ≡ self.now.added }
        ensures begins { Extends self.now.shown self.now.added }
    {
        &self.front
    }

    /// Adds an entry to the history in the book, before it is committed. Else nothing has changed. Viewers see none of it yet.
    pub fn add(&mut self, book: &Book, entry: &Entry) -> bool
        requires { self.old.added ≡ past_of book.now }
        ensures book { self.new.book ≡ self.old.book }
        ensures shown { self.new.shown ≡ self.old.shown }
        ensures added { MatchBool result (self.new.added ≡ grown self.old.added entry.now) (self.new.added ≡ self.old.added) }
    {
        self.front.add(&self.count, book, entry)
    }

    /// Goes back to what was known before, where an entry was added and then not committed. Nothing is added from then on.
    pub fn go_back(&mut self, before: Front)
        requires book { before.book ≡ self.old.book }
        requires shown { Extends self.old.shown before.past }
        ensures book { self.new.book ≡ self.old.book }
        ensures shown { self.new.shown ≡ self.old.shown }
        ensures added { self.new.added ≡ before.past }
    {
        self.front = before;
    }

    /// Publishes the board of the warehouse's book, which may have several entries more than what was added. It may wait
    /// until looks end. `None`: memory ran out, and viewers see what they saw before.
    pub fn publish(&mut self, book: &Book) -> Option<Told>
        requires { Extends self.old.added (past_of book.now) }
        ensures book { self.new.book ≡ self.old.book }
        ensures added { (self.new.added ≡ past_of book.now) ⊎ (self.new.added ≡ self.old.added) }
        ensures told { IfSome result (λ t. (t.book ≡ self.old.book) × (t.past ≡ past_of book.now)) }
        ensures shown { IfSome result (λ _. self.new.shown ≡ past_of book.now) }
        ensures caught_up { IfSome result (λ _. self.new.added ≡ past_of book.now) }
        ensures refused { IfNone result (self.new.shown ≡ self.old.shown) }
    {
        if !self.front.catch_up(&self.count, book) {
            return None;
        }
        let page = Page::of(book, self.front.again());
        self.writer.append(page.again()).ok()?;
        replace_with(&mut self.writer, &self.rt, show::<R>);
        Some(Told { page })
    }

    /// A viewer that knows what was published last.
    pub fn viewer(&mut self) -> Result<Viewer, ViewerFault>
        ensures stands { self.new ≡ self.old }
        ensures knows { IfOk result (λ v. (v.book ≡ self.old.book) × (v.past ≡ self.old.shown)) }
        ensures begins { Extends self.old.shown self.old.added }
    {
        let mut reader = self
            .writer
            .factory()
            .reader()
            .map_err(|_| ViewerFault::NoPlace)?;
        reader.learn::<copies::Told>(self.writer.tell::<copies::Twice>());
        Ok(Viewer {
            reader,
            known: self.writer.published().again(),
        })
    }
}

impl<R: Wait + Drop> Drop for Publisher<R> {
    fn drop(self) {
        let Self {
            count: _count,
            front: _front,
            writer,
            rt,
        } = self;
        drop(writer.take(&rt));
    }
}

impl Told {
    /// The board that was published.
    pub fn board(&self) -> Board
        ensures { IsBoardOf self.now.past result }
    {
        self.page.board()
    }

    /// The past that was published, to be compared with what others know.
    pub fn front(&self) -> &Front
        ensures { result.now ≡ self.now }
    {
        self.page.front()
    }
}

impl Viewer {
    /// The past that it knows, to be compared with what others know: of two pasts of one book one extends the other.
    pub fn front(&self) -> &Front
        ensures { result.now ≡ self.now }
    {
        self.known.front()
    }

    /// The longest board that it saw or learnt. It waits for nobody, also once the publisher is gone.
    pub fn look(&mut self) -> Board
        ensures board { IsBoardOf self.new.past result }
        ensures later { Extends self.old.past self.new.past }
        ensures book { self.new.book ≡ self.old.book }
    {
        if let Some(page) = replace_with(&mut self.reader, (), read) {
            self.known = self.known.later(&page);
        }
        self.known.board()
    }

    /// Each later look has at least the entries that were told.
    pub fn learn(&mut self, told: &Told)
        requires { told.now.book ≡ self.old.book }
        ensures told { Extends told.now.past self.new.past }
        ensures later { Extends self.old.past self.new.past }
        ensures book { self.new.book ≡ self.old.book }
    {
        self.known = self.known.later(&told.page);
    }
}
