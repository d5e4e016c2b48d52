//! What one caller received.
#![tactic(auto)]

ghost use Rattle.std.specs.Prelude.{◌≡◌, ℕ, ◌<◌, ◌≤◌, [], List, length, Some, slice_get};
ghost use mathlib.Core.List.{IsPrefix};
ghost use Rattle.wh_desk.specs.Lists.{IsRunFrom, entries_of};
ghost use Rattle.wh_desk.specs.Earlier.{OwnOf};
ghost use Rattle.wh_desk.specs.Kept.{RowOf};
ghost use Rattle.wh_desk.specs.Calls.{Agreed, NoteOf};

use crate::earlier::Own;
use crate::naming::DeskName;
use once_cell::race::Note;
use std::marker::{Model, PhantomData};
use std::snapshot::Snapshot;
use wh_board::Front;
use wh_event::Entry;

/// How many entries a caller has, and the position of the last.
#[derive(Clone, Copy)]
pub struct Row {
    pub(crate) count: u64,
    pub(crate) last: u64,
}

/// One receipt: a note of the cell that holds its entry. Entry and position are there for the proofs alone.
#[derive(Drop)]
pub struct Held {
    pub(crate) position: Snapshot<u64>,
    pub(crate) entry: Snapshot<Entry>,
    pub(crate) note: Note<Entry>,
}

/// All that one caller received. Contracts see it as the caller's number, the entries with their positions, and the history
/// of which it knows.
#[derive(Drop)]
pub struct Pass<N: DeskName> {
    pub(crate) caller: u32,
    pub(crate) last: u64,
    pub(crate) known: u64,
    pub(crate) held: Vec<Held>,
    pub(crate) front: Front,
    pub(crate) name: PhantomData<N>,
}

impl<N: DeskName> Model for Pass<N> {
    ghost use Rattle.wh_desk.specs.Lists.{Received};
    ghost use Rattle.wh_desk.specs.Kept.{list_of, PassKeeps};

    ghost Value = { Received };

    ghost view = { λ p. record { caller = p.caller; list = list_of p.held.items; known = p.front.past.history } };

    ghost invariant = { λ p. PassKeeps N.origin N.cells N.book N.callers p.caller p.last p.known p.held.items p.front };
}

impl<N: DeskName> Pass<N> {
    ghost use Rattle.wh_event.specs.declared.entry.Entry.{Entry};

    /// A pass that has all that its caller did in the history that is known, which has the given number of entries.
    pub(crate) fn over(front: &Front, caller: u32, own: Own, known: u64) -> Pass<N>
        requires book { front.now.book ≡ N.book }
        requires run { IsRunFrom N.origin front.now.past.history }
        requires known { known ≡ length front.now.past.history }
        requires within { caller < N.callers }
        requires own { OwnOf N.cells (entries_of front.now.past.history caller) own }
        ensures { result ≡ record { caller = caller; list = entries_of front.now.past.history caller; known = front.now.past.history } }
    {
        let Own { held, last } = own;
        Pass {
            caller,
            last,
            known,
            held,
            front: front.again(),
            name: PhantomData,
        }
    }

    /// Whose pass it is.
    pub fn caller(&self) -> u32
        ensures value { result ≡ self.now.caller }
        ensures within { result < N.callers }
    {
        self.caller
    }

    /// How many entries were received.
    pub fn len(&self) -> u64
        ensures { result ≡ length self.now.list }
    {
        self.held.len() as u64
    }

    /// How many entries the history has of which it knows.
    pub(crate) fn known(&self) -> u64
        ensures { result ≡ length self.now.known }
    {
        self.known
    }

    /// It comes to know of a history, which has the given number of entries. It has all that its caller did there.
    pub(crate) fn learn(&mut self, history: &Front, long: u64)
        requires book { history.now.book ≡ N.book }
        requires run { IsRunFrom N.origin history.now.past.history }
        requires long { long ≡ length history.now.past.history }
        requires whole { self.old.list ≡ entries_of history.now.past.history self.old.caller }
        ensures { self.new ≡ record { caller = self.old.caller; list = self.old.list; known = history.now.past.history } }
    {
        self.front = history.again();
        self.known = long;
    }

    /// What it received, as a row of the journal.
    pub(crate) fn row(&self) -> Row
        ensures { RowOf self.now.list result }
    {
        Row {
            count: self.held.len() as u64,
            last: self.last,
        }
    }

    /// Where a history of the book has as many entries of the caller as the pass, they are the pass's. Where it is no shorter
    /// than what the pass knows of, it goes on from that.
    pub(crate) fn agrees(&self, history: &Front)
        requires book { history.now.book ≡ N.book }
        requires many { length (entries_of history.now.past.history self.now.caller) ≡ length self.now.list }
        requires long { length self.now.known ≤ length history.now.past.history }
        ensures whole { self.now.list ≡ entries_of history.now.past.history self.now.caller }
        ensures begins { IsPrefix self.now.known history.now.past.history }
    {
        self.front.meets(history);
    }

    /// What it knows of the history. It can be compared with what another pass or a viewer of this desk knows.
    pub fn front(&self) -> &Front
        ensures book { result.now.book ≡ N.book }
        ensures history { result.now.past.history ≡ self.now.known }
    {
        &self.front
    }

    /// The receipts of both passes stand in one run, which one of them knows. So those of one position have the same entry.
    /// It takes no lock.
    pub fn agree(&self, other: &Pass<N>)
        ensures one_run { Agreed N.origin self.now other.now }
        ensures one_entry { (m n : ℕ) (x y : ℕ × Entry) → slice_get self.now.list m ≡ Some x → slice_get other.now.list n ≡ Some y → x.0 ≡ y.0 → x.1 ≡ y.1 }
    {
        self.front.meets(&other.front);
    }

    /// A note of the cell of a receipt. It knows the receipt's entry.
    pub fn note(&mut self, at: u64) -> Note<Entry>
        requires { at < length self.old.list }
        ensures same { self.new ≡ self.old }
        ensures note { NoteOf N.cells self.old.list at result }
    {
        self.held[at as usize].note.again()
    }
}
