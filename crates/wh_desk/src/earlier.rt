//! The entries that a warehouse has already when a desk is opened round it: a cell with a note for each, and what each caller
//! has of them.
#![tactic(auto)]

ghost use Rattle.std.specs.Prelude.{All, ◌≡◌, ◌≢◌, ◌++◌, ◌∷◌, ◌<◌, ◌≤◌, [], Err, IfErr, IfOk, List, OnOk, length, ℕ};
ghost use Rattle.wh_desk.specs.Earlier.{IsWhyUnopened, OwnOf, Recalls};
ghost use Rattle.wh_desk.specs.Kept.{RowOf};
ghost use Rattle.wh_desk.specs.Lists.{AllAt, IsRunFrom, entries_of};
ghost use Rattle.wh_desk.specs.Calls.{InOrder};
ghost use Rattle.wh_event.specs.declared.entry.Entry.{Entry as Line};
ghost use Rattle.wh_desk.specs.declared.earlier.Unopened.TheVariants as unopened;

use crate::cells::{CellRow, Cells};
use crate::making::{boxed_copy, make_room, note_down};
use crate::naming::DeskName;
use crate::pass::{Held, Pass, Row};
use once_cell::race::Note;
use std::alloc::{AllocError, Global};
use wh_board::Front;
use wh_event::Entry;

/// Why no desk was opened.
#[derive(Clone, Copy, Debug, PartialEq, Eq)]
pub enum Unopened {
    /// E90: memory ran out.
    NoMemory,
    /// E91: the cell of an entry refused its value.
    CellTaken,
    /// The history has more entries than there are cells.
    Full,
    /// The history has an entry of a caller whom the desk does not have.
    OtherCaller,
}

impl From<AllocError> for Unopened {
    ghost from_gives = { λ _ fault. fault ≡ unopened.NoMemory };

    fn from(_error: AllocError) -> Unopened {
        Unopened::NoMemory
    }
}

/// What one caller has of entries: its receipts, and the position of the last.
#[derive(Drop)]
pub(crate) struct Own {
    pub held: Vec<Held>,
    pub last: u64,
}

/// What is made of entries: a cell and a note for each, and what each caller has of them.
#[derive(Drop)]
pub(crate) struct Earlier {
    pub cells: CellRow,
    pub notes: Vec<Note<Entry>>,
    pub owns: Vec<Own>,
}

/// What the given number of callers have of no entries.
fn empty_owns(alloc: Global, callers: u32) -> Result<Vec<Own>, AllocError>
    ensures length { IfOk result (λ v. length v.items ≡ callers) }
    ensures empty { IfOk result (λ v. AllAt (λ _ own. (own.held.items ≡ []) × (own.last ≡ 0)) v.items) }
{
    let mut owns = Vec::new(alloc);
    for _ in 0..callers {
        owns.push(Own {
            held: Vec::new(alloc),
            last: 0,
        })?;
    }
    Ok(owns)
}

/// What is made of no entries.
fn nothing_yet(alloc: Global, cells: Cells, callers: u32) -> Result<Earlier, AllocError>
    ensures none { IfOk result (Recalls cells callers []) }
{
    let owns = empty_owns(alloc, callers)?;
    Ok(Earlier {
        cells: CellRow::new(cells),
        notes: Vec::new(alloc),
        owns,
    })
}

/// Takes up one entry more.
fn take_up(made: &mut Earlier, alloc: Global, entry: &Entry) -> Result<(), Unopened>
    requires room { made.old.cells.count < length made.old.cells.names }
    ensures ok { OnOk result ((names : List ℕ) (callers : ℕ) (before : List Line) → Recalls names callers before made.old → Recalls names callers (before ++ entry.now ∷ []) made.new) }
    ensures other { result ≡ Err Unopened.OtherCaller → length made.old.owns.items ≤ entry.now.caller }
    ensures not_full { result ≢ Err Unopened.Full }
{
    let caller = entry.caller as usize;
    if caller >= made.owns.len() {
        return Err(Unopened::OtherCaller);
    }
    let position = made.notes.len() as u64;
    let own = &mut made.owns[caller];
    make_room(&mut made.notes, &mut own.held)?;
    let boxed = boxed_copy(alloc, entry)?;
    match made.cells.fill(boxed) {
        Some(note) => {
            note_down(&mut made.notes, &mut own.held, position, entry, note);
            own.last = position;
            Ok(())
        }
        None => Err(Unopened::CellTaken),
    }
}

/// Takes up all entries of a history.
fn take_all(made: &mut Earlier, alloc: Global, history: &[Entry]) -> Result<(), Unopened>
    requires none { Recalls made.old.cells.names (length made.old.owns.items) [] made.old }
    requires room { length history.now ≤ length made.old.cells.names }
    ensures ok { OnOk result (Recalls made.old.cells.names (length made.old.owns.items) history.now made.new) }
    ensures fault { IfErr result (IsWhyUnopened (length made.old.cells.names) (length made.old.owns.items) history.now) }
{
    for entry in history {
        match take_up(made, alloc, entry) {
            Ok(()) => {}
            Err(fault) => return Err(fault),
        }
    }
    Ok(())
}

/// What is made of the entries of a history, of the given number of callers.
pub(crate) fn recall(
    alloc: Global,
    history: &[Entry],
    cells: Cells,
    callers: u32,
) -> Result<Earlier, Unopened>
    ensures ok { IfOk result (Recalls cells callers history.now) }
    ensures room { IfOk result (λ _. length history.now ≤ length cells) }
    ensures fault { IfErr result (IsWhyUnopened (length cells) callers history.now) }
{
    if cells.len() < history.len() as u64 {
        return Err(Unopened::Full);
    }
    let mut made = nothing_yet(alloc, cells, callers)?;
    match take_all(&mut made, alloc, history) {
        Ok(()) => Ok(made),
        Err(fault) => Err(fault),
    }
}

/// The rows of the callers.
pub(crate) fn rows_of(alloc: Global, owns: &[Own]) -> Result<Vec<Row>, AllocError>
    ensures length { IfOk result (λ rows. length rows.items ≡ length owns.now) }
    ensures rows { (names : List ℕ) (history : List Line) → AllAt (λ caller own. OwnOf names (entries_of history caller) own) owns.now → IfOk result (λ rows. AllAt (λ caller row. RowOf (entries_of history caller) row) rows.items) }
{
    let mut rows = Vec::new(alloc);
    for own in owns {
        rows.push(Row {
            count: own.held.len() as u64,
            last: own.last,
        })?;
    }
    Ok(rows)
}

/// A pass for each caller, in order, which has all that its caller did in the history that is known.
pub(crate) fn passes_of<N: DeskName>(
    alloc: Global,
    owns: Vec<Own>,
    front: &Front,
    known: u64,
    callers: u32,
) -> Result<Vec<Pass<N>>, AllocError>
    requires book { front.now.book ≡ N.book }
    requires run { IsRunFrom N.origin front.now.past.history }
    requires known { known ≡ length front.now.past.history }
    requires callers { callers ≡ N.callers }
    requires length { length owns.items ≡ callers }
    requires owns { AllAt (λ caller own. OwnOf N.cells (entries_of front.now.past.history caller) own) owns.items }
    ensures order { IfOk result (λ v. InOrder N.callers v.items) }
    ensures lists { IfOk result (λ v. All (λ p. p.list ≡ entries_of front.now.past.history p.caller) v.items) }
    ensures known { IfOk result (λ v. All (λ p. p.known ≡ front.now.past.history) v.items) }
{
    let mut passes = Vec::new(alloc);
    let mut rest = owns.into_iter();
    for caller in 0..callers {
        let Some(own) = rest.next() else {
            unreachable!()
        };
        passes.push(Pass::over(front, caller, own, known))?;
    }
    Ok(passes)
}
