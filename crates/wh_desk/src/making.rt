//! All that a call of the desk needs before it commits: the memory, the step, the copy of its entry, the book and the cell.
#![tactic(auto)]

ghost use Rattle.std.specs.Prelude.{◌≡◌, ◌≢◌, ◌+◌, ◌∷◌, ◌++◌, ◌<◌, [], Some, length, slice_get, vec_len, vec_capacity, IfOk, IfErr, OnErr, MatchResult};
ghost use Rattle.wh_book.specs.Drafts.{IsSame, IsReady};
ghost use Rattle.wh_token.specs.Fleet.{StaySeated, TellsFor};
ghost use Rattle.wh_board.specs.Pasts.{grown, past_of};
ghost use Rattle.wh_desk.specs.Calls.{IsAskedBy};
ghost use Rattle.wh_desk.specs.declared.pass.Held.{Held as Receipt};

use crate::answer::DeskFault;
use crate::cells::CellRow;
use crate::pass::Held;
use once_cell::race::Note;
use std::alloc::{AllocError, Global};
use std::snapshot::Snapshot;
use std::sync::Wait;
use wh_board::Publisher;
use wh_book::Book;
use wh_event::{Command, Entry};
use wh_planner::Plans;
use wh_token::{NoMemory, Ready, Warehouse};

/// A step that was worked out, with the note of the receipt's cell.
pub(crate) struct Made<P> {
    pub ready: Ready<P>,
    pub note: Note<Entry>,
}

/// Works the step out, adds its entry to the book and writes it into the next cell. After it nothing of the call is refused,
/// and nothing but the board needs memory. On a refusal the planner comes back, and neither book nor cells have changed.
pub(crate) fn make_ready<H: Wait + Drop, P: Plans>(
    warehouse: &mut Warehouse<P>,
    publisher: &mut Publisher<H>,
    cells: &mut CellRow,
    notes: &mut Vec<Note<Entry>>,
    held: &mut Vec<Held>,
    alloc: Global,
    caller: u32,
    command: Command,
    spare: Option<P>,
) -> Result<Made<P>, (DeskFault, Option<P>)>
    requires added { publisher.old.added ≡ past_of warehouse.old.book }
    requires room { cells.old.count < length cells.old.names }
    ensures same { IsSame warehouse.old.book warehouse.new.book }
    ensures notes { notes.new.items ≡ notes.old.items }
    ensures held { held.new.items ≡ held.old.items }
    ensures notes_room { IfOk result (λ _. vec_len notes.new < vec_capacity notes.new) }
    ensures held_room { IfOk result (λ _. vec_len held.new < vec_capacity held.new) }
    ensures ready { IfOk result (λ made. IsReady warehouse.new.book made.ready.draft) }
    ensures caller { IfOk result (λ made. made.ready.draft.entry.caller ≡ caller) }
    ensures event { IfOk result (λ made. IsAskedBy command made.ready.draft.entry.event) }
    ensures tells { IfOk result (λ made. TellsFor P.fits_map P.slot_count warehouse.old.book.site.grid spare made.ready.draft.entry.event) }
    ensures book { publisher.new.book ≡ publisher.old.book }
    ensures shown { publisher.new.shown ≡ publisher.old.shown }
    ensures added { IfOk result (λ made. publisher.new.added ≡ grown publisher.old.added made.ready.draft.entry) }
    ensures not_added { OnErr result (publisher.new.added ≡ publisher.old.added) }
    ensures names { cells.new.names ≡ cells.old.names }
    ensures count { MatchResult result (λ _. cells.new.count ≡ cells.old.count + 1) (λ _. cells.new.count ≡ cells.old.count) }
    ensures cell { IfOk result (λ made. slice_get cells.old.names cells.old.count ≡ Some made.note.cell) }
    ensures known { IfOk result (λ made. made.note.known ≡ Some made.ready.draft.entry) }
    ensures spare { MatchResult result (λ made. made.ready.spare ≡ spare) (λ fault. fault.1 ≡ spare) }
    ensures fault { IfErr result (λ fault. (fault.0 ≢ DeskFault.Stale) × (fault.0 ≢ DeskFault.Full)) }
    ensures still { StaySeated command warehouse.old.planners warehouse.new.planners }
{
    if make_room(notes, held).is_err() {
        return Err((DeskFault::NoMemory, spare));
    }
    let ready = match warehouse.prepare(alloc, caller, command, spare) {
        Ok(ready) => ready,
        Err((NoMemory, spare)) => return Err((DeskFault::NoMemory, spare)),
    };
    match write_down(publisher, cells, alloc, warehouse.book(), ready.entry()) {
        Ok(note) => Ok(Made { ready, note }),
        Err(fault) => Err((fault, ready.withdraw())),
    }
}

/// Copies the entry, adds it to the book and writes the copy into the next cell. The note of the cell comes back. On a refusal
/// neither book nor cells have changed.
fn write_down<H: Wait + Drop>(
    publisher: &mut Publisher<H>,
    cells: &mut CellRow,
    alloc: Global,
    book: &Book,
    entry: &Entry,
) -> Result<Note<Entry>, DeskFault>
    requires added { publisher.old.added ≡ past_of book.now }
    requires room { cells.old.count < length cells.old.names }
    ensures book { publisher.new.book ≡ publisher.old.book }
    ensures shown { publisher.new.shown ≡ publisher.old.shown }
    ensures added { MatchResult result (λ _. publisher.new.added ≡ grown publisher.old.added entry.now) (λ _. publisher.new.added ≡ publisher.old.added) }
    ensures names { cells.new.names ≡ cells.old.names }
    ensures count { MatchResult result (λ _. cells.new.count ≡ cells.old.count + 1) (λ _. cells.new.count ≡ cells.old.count) }
    ensures cell { IfOk result (λ note. slice_get cells.old.names cells.old.count ≡ Some note.cell) }
    ensures known { IfOk result (λ note. note.known ≡ Some entry.now) }
    ensures fault { IfErr result (λ fault. (fault ≢ DeskFault.Stale) × (fault ≢ DeskFault.Full)) }
{
    match boxed_copy(alloc, entry) {
        Ok(boxed) => add_and_fill(publisher, cells, book, entry, boxed),
        Err(AllocError) => Err(DeskFault::NoMemory),
    }
}

/// Adds the entry to the book, and then writes its copy into the next cell: a cell is set last of all, so that no refused call
/// leaves one set. E90: the book refused the entry; E91: the cell refused the copy. On a refusal neither has changed.
fn add_and_fill<H: Wait + Drop>(
    publisher: &mut Publisher<H>,
    cells: &mut CellRow,
    book: &Book,
    entry: &Entry,
    boxed: Box<Entry>,
) -> Result<Note<Entry>, DeskFault>
    requires added { publisher.old.added ≡ past_of book.now }
    requires room { cells.old.count < length cells.old.names }
    ensures book { publisher.new.book ≡ publisher.old.book }
    ensures shown { publisher.new.shown ≡ publisher.old.shown }
    ensures added { MatchResult result (λ _. publisher.new.added ≡ grown publisher.old.added entry.now) (λ _. publisher.new.added ≡ publisher.old.added) }
    ensures names { cells.new.names ≡ cells.old.names }
    ensures count { MatchResult result (λ _. cells.new.count ≡ cells.old.count + 1) (λ _. cells.new.count ≡ cells.old.count) }
    ensures cell { IfOk result (λ note. slice_get cells.old.names cells.old.count ≡ Some note.cell) }
    ensures known { IfOk result (λ note. note.known ≡ Some boxed.value) }
    ensures fault { IfErr result (λ fault. (fault ≢ DeskFault.Stale) × (fault ≢ DeskFault.Full)) }
{
    let before = publisher.front().again();
    if publisher.add(book, entry) {
        match cells.fill(boxed) {
            Some(note) => Ok(note),
            None => {
                publisher.go_back(before);
                Err(DeskFault::CellTaken)
            }
        }
    } else {
        Err(DeskFault::NoMemory)
    }
}

/// Room for a note and a receipt.
pub(crate) fn make_room(
    notes: &mut Vec<Note<Entry>>,
    held: &mut Vec<Held>,
) -> Result<(), AllocError>
    ensures notes { notes.new.items ≡ notes.old.items }
    ensures held { held.new.items ≡ held.old.items }
    ensures notes_room { IfOk result (λ _. vec_len notes.new < vec_capacity notes.new) }
    ensures held_room { IfOk result (λ _. vec_len held.new < vec_capacity held.new) }
{
    notes.try_reserve(1)?;
    held.try_reserve(1)?;
    Ok(())
}

/// A copy of the entry, in a box.
pub(crate) fn boxed_copy(alloc: Global, entry: &Entry) -> Result<Box<Entry>, AllocError>
    ensures { IfOk result (λ boxed. boxed.value ≡ entry.now) }
{
    let kept = entry.copy(alloc)?;
    Ok(Box::new(alloc, kept)?)
}

/// Keeps the note for the journal, and a receipt with it for the pass. It takes no memory.
pub(crate) fn note_down(
    notes: &mut Vec<Note<Entry>>,
    held: &mut Vec<Held>,
    position: u64,
    entry: &Entry,
    mut note: Note<Entry>,
)
    requires notes_room { vec_len notes.old < vec_capacity notes.old }
    requires held_room { vec_len held.old < vec_capacity held.old }
    ensures notes { notes.new.items ≡ notes.old.items ++ note ∷ [] }
    ensures held { (x : Receipt) × (held.new.items ≡ held.old.items ++ x ∷ []) × (x.position.value ≡ position) × (x.entry.value ≡ entry.now) × (x.note ≡ note) }
{
    let mine = note.again();
    notes.push_reserved(note);
    held.push_reserved(Held {
        position: Snapshot::of(&position),
        entry: Snapshot::of(entry),
        note: mine,
    });
}
