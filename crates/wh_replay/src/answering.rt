//! Answers a line. Its reply is in the history, except for one small value.

ghost use Rattle.std.specs.Prelude.{◌≡◌, ◌≤◌, ℕ, List, Ok, Some, length};
ghost use Rattle.wh_lines.specs.Text.{short_line};
ghost use Rattle.wh_log.specs.declared.form.Form.{Form};
ghost use Rattle.wh_replay.specs.Answers.{said};
ghost use Rattle.wh_replay.specs.Answering.{AnswersLine};
ghost use Rattle.wh_replay.specs.declared.answering.Answer.TheVariants as answers;

use crate::answer::read_kept;
use std::alloc::Global;
use wh_event::{Command, LineFault};
use wh_lines::CommandLine;
use wh_planner::Plans;
use wh_token::Warehouse;

/// What a line was answered.
#[derive(Clone, Copy)]
pub enum Answer {
    /// What the next entry of the history says.
    Entry,
    /// E90: its command has no entry, since memory ran out, or there is no number for one.
    NoEntry,
    /// C1: it is no command.
    NoCommand,
    /// C2: it is too long.
    TooLong,
}

/// For a room that has places left.
impl Default for Answer {
    ghost is_default = { λ a. a ≡ answers.Entry };

    fn default() -> Self {
        Answer::Entry
    }
}

/// Runs a command, where the history has fewer entries than the most.
#[inline(always)]
pub(crate) fn run<P: Plans>(
    command: &Command,
    alloc: Global,
    caller: u32,
    most: usize,
    warehouse: &mut Warehouse<P>,
    spares: &mut Vec<P>,
) -> Answer
    ensures answers { (form : Form) → AnswersLine P.fits_map P.slot_count (record { caller = caller; form = form }) (Ok (Some command.now)) warehouse.old.book spares.old.items warehouse.new.book spares.new.items (Some result) }
    ensures few { length warehouse.old.book.history ≤ most → length warehouse.new.book.history ≤ most }
{
    if warehouse.history().len() >= most {
        return Answer::NoEntry;
    }
    if warehouse.run_event(alloc, caller, command, spares) {
        Answer::Entry
    } else {
        Answer::NoEntry
    }
}

/// Answers a line, of which only a front is kept; one that is skipped gets no reply. The command is a room for what it asks.
pub(crate) fn answer_line<P: Plans>(
    line: &CommandLine,
    command: &mut Command,
    alloc: Global,
    caller: u32,
    most: usize,
    warehouse: &mut Warehouse<P>,
    spares: &mut Vec<P>,
) -> Option<Answer>
    ensures answers { (form : Form) → AnswersLine P.fits_map P.slot_count (record { caller = caller; form = form }) (said (short_line line.now)) warehouse.old.book spares.old.items warehouse.new.book spares.new.items result }
    ensures few { length warehouse.old.book.history ≤ most → length warehouse.new.book.history ≤ most }
{
    match read_kept(line, command) {
        Ok(true) => Some(run(command, alloc, caller, most, warehouse, spares)),
        Ok(false) => None,
        Err(LineFault::Form) => Some(Answer::NoCommand),
        Err(LineFault::TooLong) => Some(Answer::TooLong),
    }
}
