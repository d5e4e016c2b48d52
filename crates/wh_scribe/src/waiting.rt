//! Lines that wait for the journal.
#![tactic(auto)]

ghost use Rattle.std.specs.Prelude.{◌≡◌, ◌+◌, ◌<◌, ◌≤◌, ◌^◌, ◌++◌, ◌∷◌, [], MatchBool, Some, length, slice_get};
ghost use Rattle.wh_journal.specs.Journals.{lines_for};
ghost use Rattle.wh_scribe.specs.Keeping.{Enters, lines_between, stretch};

use std::alloc::Global;
use std::marker::{Model, PhantomData};
use std::{mem, slice};
use wh_desk::{DeskName, Front};
use wh_event::Entry;
use wh_replay::append_entries;
use wh_session::Memory;

/// Room for the line of one entry, but for one with a very long path.
const ROOM: usize = 65_536;

/// The lines of the entries of a history from one place up to another: of those that were entered and not yet taken. Contracts
/// see what is known of the history, and the two places.
#[derive(Drop)]
pub(crate) struct Waiting<N: DeskName> {
    front: Front,
    taken: u64,
    entered: u64,
    text: Vec<u8>,
    name: PhantomData<N>,
}

impl<N: DeskName> Model for Waiting<N> {
    ghost use Rattle.wh_scribe.specs.Keeping.{Stretch, stretch, StretchKeeps};

    ghost Value = { Stretch };

    ghost view = { λ w. stretch w.front w.taken w.entered };

    ghost invariant = { λ w. StretchKeeps N.book (stretch w.front w.taken w.entered) w.text.items };
}

impl<N: DeskName> Waiting<N> {
    /// No line waits. This many entries are known, and were taken.
    pub(crate) fn new(alloc: Global, front: &Front, entered: u64) -> Waiting<N>
        requires book { front.now.book ≡ N.book }
        requires entered { entered ≡ length front.now.past.history }
        ensures { result ≡ stretch front.now entered entered }
    {
        Waiting {
            front: front.again(),
            taken: entered,
            entered,
            text: Vec::new(alloc),
            name: PhantomData,
        }
    }

    /// What is known of the history.
    pub(crate) fn front(&self) -> &Front
        ensures value { result.now ≡ self.now.known }
        ensures book { result.now.book ≡ N.book }
    {
        &self.front
    }

    /// The place from which the entries wait.
    pub(crate) fn taken(&self) -> u64
        ensures value { result ≡ self.now.taken }
        ensures within { result ≤ self.now.entered }
    {
        self.taken
    }

    /// The place up to which they do.
    pub(crate) fn entered(&self) -> u64
        ensures value { result ≡ self.now.entered }
        ensures within { result ≤ length self.now.known.past.history }
    {
        self.entered
    }

    /// Their lines.
    pub(crate) fn lines(&self) -> &[u8]
        ensures { result.now ≡ lines_between self.now.known.past.history self.now.taken self.now.entered }
    {
        self.text.as_slice()
    }

    /// Makes room for the line of one entry more, and says whether there is.
    pub(crate) fn make_room(&mut self) -> bool
        ensures { self.new ≡ self.old }
    {
        self.text.reserve(ROOM).is_ok()
    }

    /// Adds the entry's line, if it is the entry's turn and there is memory, and says whether it did. It always is where all
    /// calls of the desk enter here.
    pub(crate) fn push(
        &mut self,
        alloc: Global,
        known: &Front,
        position: u64,
        entry: &Entry,
    ) -> bool
        requires book { known.now.book ≡ N.book }
        requires stands { slice_get known.now.past.history position ≡ Some entry.now }
        ensures { MatchBool result (Enters self.old self.new known.now.past.history position × (position + 1 < 2 ^ 64)) (self.new ≡ self.old) }
    {
        let more = match position.checked_add(1) {
            Some(more) if position == self.entered => more,
            _ => return false,
        };
        self.front.meets(known);
        if !write_line(alloc, &mut self.text, entry) {
            return false;
        }
        self.front = known.again();
        self.entered = more;
        true
    }

    /// Hands all lines over, into the place of others, whose room is used again.
    pub(crate) fn hand_over(&mut self, to: &mut Waiting<N>)
        ensures given { to.new ≡ self.old }
        ensures left { self.new ≡ stretch self.old.known self.old.entered self.old.entered }
    {
        to.restart(self);
        mem::swap(self, to);
    }

    /// No line waits here any more: all that were entered there were taken.
    fn restart(&mut self, others: &Waiting<N>)
        ensures { self.new ≡ stretch others.now.known others.now.entered others.now.entered }
    {
        self.text.clear();
        self.front = others.front.again();
        self.taken = others.entered;
        self.entered = others.entered;
    }
}

/// Writes the entry's line at the end of a text, and says whether there was memory for it; else the text stays as it was.
fn write_line(alloc: Global, text: &mut Vec<u8>, entry: &Entry) -> bool
    ensures { MatchBool result (text.new.items ≡ text.old.items ++ lines_for (entry.now ∷ [])) (text.new.items ≡ text.old.items) }
{
    let before = text.len();
    let mut memory = Memory {
        log: mem::replace(text, Vec::new(alloc)),
        more: Vec::new(alloc),
    };
    let outcome = append_entries(&mut memory, slice::from_ref(entry));
    *text = memory.log;
    match outcome {
        Ok(()) => true,
        Err(_) => {
            text.truncate(before);
            false
        }
    }
}
