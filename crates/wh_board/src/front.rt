//! What somebody knows to have been done. The pasts themselves exist in proofs alone.
#![tactic(auto)]

ghost use Rattle.std.specs.Prelude.{◌≡◌, ◌+◌, ◌++◌, ◌∷◌, ◌<◌, ◌^◌, [], ◌⊎◌, MatchBool, None, length};
ghost use Rattle.wh_board.specs.Pasts.{Extends, grown, latest, past_of};
ghost use Rattle.wh_board.specs.Rules.{word_of};

use logbook::{Gain, Offer, Opening, Plain, Play, Rule, Seen, Start, Word};
use std::marker::Model;
use wh_book::Book;
use wh_event::Entry;

/// What the log has, in proofs alone: the warehouse's book at some time. Contracts see its past.
#[derive(Drop)]
pub struct Stage {
    book: Book,
}

impl Model for Stage {
    ghost use Rattle.wh_board.specs.Pasts.{Past, past_of};

    ghost Value = { Past };

    ghost view = { λ s. past_of s.book };
}

/// The rule of the log: each past extends the one before.
pub struct Law;

impl Rule<Stage, u64> for Law {
    ghost use Rattle.std.specs.Prelude.{[]};
    ghost use base.Fml.{ftrue};
    ghost use Rattle.wh_board.specs.Rules.{IsKept};

    ghost holds = { λ cells log. IsKept cells log };

    ghost first = { [] };

    ghost hinted = { λ n log. Unit {0} };

    ghost shows = { λ log. [] };

    ghost keeps = { λ names log. ftrue };

    ghost moves = { λ ask before after answer. Unit {0} };
}

/// The log at the start: the past as it is.
pub struct First;

impl Opening<Book, Stage> for First {
    ghost use Rattle.std.specs.Prelude.{[], ◌∷◌};
    ghost use Rattle.wh_board.specs.Pasts.{past_of};

    ghost log = { λ count book. past_of book ∷ [] };
}

/// Callers trade nothing.
pub struct Nothing;

impl Gain<Stage, u64> for Nothing {
    ghost use base.Fml.{ftrue};

    ghost after = { λ names about answer. ftrue };
}

/// The step that adds a past.
pub struct Add;

impl Play<Stage, u64> for Add {
    ghost use Rattle.wh_board.specs.Rules.{Adds};

    ghost then = { Adds };
}

/// The book as it will be with the entry.
impl<'a> Plain<(&'a Book, &'a Entry), Stage, u64> for Add {
    ghost use Rattle.std.specs.Prelude.{None};
    ghost use Rattle.wh_board.specs.Pasts.{grown, past_of};

    ghost ask = { λ about. grown (past_of about.0.now) about.1.now };

    ghost state = { λ about. None };
}

/// The book as it is.
impl<'a> Plain<&'a Book, Stage, u64> for Add {
    ghost use Rattle.std.specs.Prelude.{None};
    ghost use Rattle.wh_board.specs.Pasts.{past_of};

    ghost ask = { λ about. past_of about.now };

    ghost state = { λ about. None };
}

/// The word that counts what was added.
pub type Count = Word<Stage, u64, Law>;

/// A past that somebody knows to stand in a book, and the book. It has no bytes but a number.
#[derive(Drop)]
pub struct Front {
    number: u64,
    seen: Seen<Stage, u64, Law>,
}

impl Model for Front {
    ghost use Rattle.std.specs.Prelude.{◌≡◌, ◌+◌, length};
    ghost use Rattle.wh_board.specs.Pasts.{Known, IsChain, latest};

    ghost Value = { Known };

    ghost view = { λ f. record { book = f.seen.book; past = latest f.seen.log } };

    ghost invariant = { λ f. (length f.seen.log ≡ f.number + 1) × IsChain f.seen.log };
}

impl Front {
    /// A new book, in which the past as it is comes first.
    pub(crate) fn open(book: &Book) -> (Count, Front)
        ensures word { result.0 ≡ word_of result.1.book }
        ensures past { result.1.past ≡ past_of book.now }
    {
        let (seen, mut pens) = Seen::open_row::<Book, First>(book, Start::alone(), 1);
        let mut pen = pens.take();
        (Word::tracked(0, &mut pen), Front { number: 0, seen })
    }

    /// A copy.
    pub fn again(&self) -> Front
        ensures { result ≡ self.now }
    {
        Front {
            number: self.number,
            seen: self.seen.again(),
        }
    }

    /// Whether its past was added before the other's. The later one extends the earlier.
    pub fn is_before(&self, other: &Front) -> bool
        requires { self.now.book ≡ other.now.book }
        ensures { MatchBool result (Extends self.now.past other.now.past) (Extends other.now.past self.now.past) }
    {
        let mut both = self.seen.again();
        both.learn(&other.seen);
        self.number < other.number
    }

    /// Of two pasts of one book one extends the other.
    pub fn meets(&self, other: &Front)
        requires { self.now.book ≡ other.now.book }
        ensures { Extends self.now.past other.now.past ⊎ Extends other.now.past self.now.past }
    {
        self.is_before(other);
    }

    /// Adds the past with one more entry, and says whether it did. Else nothing has changed.
    pub(crate) fn add(&mut self, count: &Count, book: &Book, entry: &Entry) -> bool
        requires word { count.now ≡ word_of self.old.book }
        requires past { self.old.past ≡ past_of book.now }
        ensures book { self.new.book ≡ self.old.book }
        ensures past { MatchBool result (self.new.past ≡ grown self.old.past entry.now) (self.new.past ≡ self.old.past) }
    {
        let mut seen = self.seen.again();
        let about = (book, entry);
        let mut offer: Offer<Stage, u64, Law, Nothing> = seen.plain::<
            Nothing,
            (&Book, &Entry),
            Add,
        >(&about);
        if !advance(count, self.number, &mut seen, &mut offer) {
            return false;
        }
        self.seen = seen;
        self.number += 1;
        true
    }

    /// Adds the past of the book, and says whether it did. Else nothing has changed.
    pub(crate) fn catch_up(&mut self, count: &Count, book: &Book) -> bool
        requires word { count.now ≡ word_of self.old.book }
        requires longer { Extends self.old.past (past_of book.now) }
        ensures book { self.new.book ≡ self.old.book }
        ensures past { MatchBool result (self.new.past ≡ past_of book.now) (self.new.past ≡ self.old.past) }
    {
        let mut seen = self.seen.again();
        let mut offer: Offer<Stage, u64, Law, Nothing> = seen.plain::<Nothing, &Book, Add>(&book);
        if !advance(count, self.number, &mut seen, &mut offer) {
            return false;
        }
        self.seen = seen;
        self.number += 1;
        true
    }
}

/// Adds what is offered after the pasts that were seen (their number and the first), and returns whether it did.
fn advance(
    count: &Count,
    number: u64,
    seen: &mut Seen<Stage, u64, Law>,
    offer: &mut Offer<Stage, u64, Law, Nothing>,
) -> bool
    requires word { count.now ≡ word_of seen.old.book }
    requires long { length seen.old.log ≡ number + 1 }
    requires names { offer.old.names ≡ seen.old.names }
    requires state { offer.old.state ≡ None }
    requires longer { Extends (latest seen.old.log) offer.old.ask }
    ensures book { seen.new.book ≡ seen.old.book }
    ensures fits { MatchBool result (number + 1 < 2 ^ 64) (Unit {0}) }
    ensures log { MatchBool result (seen.new.log ≡ seen.old.log ++ offer.old.ask ∷ []) (Unit {0}) }
{
    if number == u64::MAX {
        return false;
    }
    let mut pen = seen.no_pen();
    let found = count.compare_exchange::<Add, Nothing>(number, number + 1, seen, offer, &mut pen);
    found == number
}
