//! The front with which another run goes on.

ghost use Rattle.std.specs.Prelude.{◌≡◌, ◌≤◌, length, IfOk};
ghost use Rattle.wh_stand.specs.Parts.{state_of};
ghost use Rattle.wh_book.specs.Drafts.{Seen};
ghost use Rattle.wh_front.specs.Fronts.{Fits};
ghost use Rattle.wh_front.specs.Ranges.{BeforeFits, RulesFit};
ghost use Rattle.wh_snapshot.specs.Snapshots.{IsSnapshot, CanCount, AreCallers, HaveCallers, Reaches, told_parts};

use crate::counts::counts_of;
use crate::seats::seats_of;
use crate::submissions::{submissions_of, submitters_of};
use std::alloc::{AllocError, Global};
use wh_book::Book;
use wh_event::Entry;
use wh_front::{Before, Count, Front, Kind, Rules};
use wh_path::TimedPath;
use wh_tasks::TaskSet;

/// What was before the state with which a book began: nothing where it began at an opening, else what the front of that state told.
#[derive(Drop)]
pub struct Earlier<'a> {
    /// Who submitted each task of that state.
    pub callers: &'a [u32],
    /// How many entries each caller had had.
    pub counts: &'a [Count],
}

/// What a run has come to: the entries so far, and what is told of the state, from which loads follow.
#[derive(Drop)]
pub struct Reached<'a> {
    /// The clock, in ticks.
    pub clock: u32,
    /// Whether the warehouse is closed.
    pub closed: bool,
    /// The agents' paths, by their numbers.
    pub paths: &'a [TimedPath],
    /// The slots of the agents' planners.
    pub slots: &'a [u32],
    /// The tasks.
    pub tasks: &'a TaskSet,
    /// The entries that led there.
    pub history: &'a [Entry],
}

/// The front of a log with which another run goes on from what a run has come to.
///
/// Error: out of memory (E90).
pub fn snapshot_of(
    alloc: Global,
    reached: &Reached<'_>,
    earlier: &Earlier<'_>,
    rules: Rules,
    before: Before,
    kind: Kind,
) -> Result<Front, AllocError>
    requires reached { (book : Seen) × Reaches reached.now.clock reached.now.closed reached.now.paths.now reached.now.slots.now reached.now.tasks.now.tasks reached.now.history.now book
        × (length earlier.now.callers.now ≡ length book.opening.tasks) }
    requires room { CanCount earlier.now.counts.now reached.now.history.now }
    requires callers { AreCallers earlier.now.callers.now }
    requires entries { HaveCallers reached.now.history.now }
    requires before { BeforeFits before }
    requires rules { RulesFit rules }
    ensures is { IfOk result (λ front. (book : Seen)
        → Reaches reached.now.clock reached.now.closed reached.now.paths.now reached.now.slots.now reached.now.tasks.now.tasks reached.now.history.now book
        → IsSnapshot earlier.now.callers.now earlier.now.counts.now book front) }
    ensures before { IfOk result (λ front. front.before ≡ before) }
    ensures rules { IfOk result (λ front. front.rules ≡ rules) }
    ensures kind { IfOk result (λ front. front.kind ≡ kind) }
    // Its text is read back as this front.
    ensures fits { IfOk result Fits }
    // The state that it tells is the one that was reached.
    ensures state { IfOk result (λ front. (book : Seen)
        → Reaches reached.now.clock reached.now.closed reached.now.paths.now reached.now.slots.now reached.now.tasks.now.tasks reached.now.history.now book
        → state_of (told_parts front) ≡ book.state) }
{
    let history = reached.history;
    let counts = counts_of(alloc, earlier.counts, history)?;
    let seats = seats_of(alloc, reached.slots, reached.paths)?;
    let callers = submitters_of(alloc, earlier.callers, history)?;
    let tasks = submissions_of(alloc, callers.as_slice(), reached.tasks)?;
    Ok(Front {
        before,
        rules,
        clock: reached.clock,
        closed: reached.closed,
        kind,
        counts,
        seats,
        tasks,
    })
}

/// The front of a log with which another run goes on from the state of this book.
///
/// Error: out of memory (E90).
pub fn snapshot(
    alloc: Global,
    book: &Book,
    earlier: &Earlier<'_>,
    rules: Rules,
    before: Before,
    kind: Kind,
) -> Result<Front, AllocError>
    requires submitted { length earlier.now.callers.now ≡ length book.now.opening.tasks }
    requires room { CanCount earlier.now.counts.now book.now.history }
    requires callers { AreCallers earlier.now.callers.now }
    requires entries { HaveCallers book.now.history }
    requires agents { 1 ≤ length book.now.site.layout.agents }
    requires before { BeforeFits before }
    requires rules { RulesFit rules }
    ensures is { IfOk result (IsSnapshot earlier.now.callers.now earlier.now.counts.now book.now) }
    ensures before { IfOk result (λ front. front.before ≡ before) }
    ensures rules { IfOk result (λ front. front.rules ≡ rules) }
    ensures kind { IfOk result (λ front. front.kind ≡ kind) }
    // Its text is read back as this front.
    ensures fits { IfOk result Fits }
    // The state that it tells is the book's: loads follow from tasks.
    ensures state { IfOk result (λ front. state_of (told_parts front) ≡ book.now.state) }
{
    let reached = Reached {
        clock: book.clock(),
        closed: book.closed(),
        paths: book.paths(),
        slots: book.slots(),
        tasks: book.tasks(),
        history: book.history(),
    };
    snapshot_of(alloc, &reached, earlier, rules, before, kind)
}
