//! Reads a line of a front.

ghost use Rattle.std.specs.Prelude.{◌≡◌, Some, IfOk};
ghost use Rattle.wh_front.specs.declared.line.Line.{Line as Told};
ghost use Rattle.wh_front.specs.Ranges.{LineFits};
ghost use Rattle.wh_front.specs.Spelling.{front_line};
ghost use Rattle.wh_front.specs.Reading.{Gives, Fails};
ghost use Rattle.wh_front.specs.ReadTasks as reading;

use crate::form_fault::FormFault;
use crate::line::Line;
use crate::read_lists::counts;
use crate::read_parts::{agents, before, rules, seat, state};
use crate::read_task::{submission, task_count};
use crate::read_words::{at_end, literal};
use std::alloc::Global;
use wh_words::Words;

#[tactic(auto, unfolding(crate::specs::ReadTasks::title_of))]
fn title(mut words: Words) -> Result<Line, FormFault>
    ensures { Gives (λ x. x) result (reading.title_of words.entry) }
{
    literal(&mut words, b"3")?;
    at_end(words, Line::Title)
}

#[tactic(auto, unfolding(crate::specs::ReadTasks::line_by))]
fn line_by(alloc: Global, name: &[u8], words: Words) -> Result<Line, FormFault>
    ensures { Gives (λ x. x) result (reading.line_by name.now words.entry) }
{
    if name == b"task".as_slice() {
        Ok(Line::Task(submission(alloc, words)?))
    } else if name == b"agent".as_slice() {
        Ok(Line::Agent(seat(alloc, words)?))
    } else if name == b"wlog".as_slice() {
        title(words)
    } else if name == b"after".as_slice() {
        Ok(Line::Before(before(words)?))
    } else if name == b"rules".as_slice() {
        Ok(Line::Rules(rules(words)?))
    } else if name == b"state".as_slice() {
        state(words)
    } else if name == b"entries".as_slice() {
        Ok(Line::Entries(counts(alloc, words)?))
    } else if name == b"agents".as_slice() {
        Ok(Line::Agents(agents(words)?))
    } else if name == b"tasks".as_slice() {
        Ok(Line::Tasks(task_count(words)?))
    } else if name == b"begin".as_slice() {
        at_end(words, Line::Begin)
    } else {
        Err(FormFault::Form)
    }
}

#[tactic(auto, unfolding(crate::specs::ReadTasks::line_at))]
fn line_of(alloc: Global, mut words: Words) -> Result<Line, FormFault>
    ensures { Gives (λ x. x) result (reading.line_at words.entry) }
{
    let Some(name) = words.next_word() else {
        return Err(FormFault::Form);
    };
    line_by(alloc, name, words)
}

/// What a line of a front tells, without its line feed.
///
/// Errors: `Form` where the line is in no front; `NoMemory` (E90).
pub fn read_line(alloc: Global, line: &[u8]) -> Result<Line, FormFault>
    // What is read is written so, each byte of it.
    ensures found { IfOk result (λ told. (line.now ≡ front_line told) × LineFits told) }
    // What is written so is read, unless memory runs out.
    ensures only { (told : Told) → LineFits told → line.now ≡ front_line told → Gives (λ x. x) result (Some told) }
{
    line_of(alloc, Words::of(line))
}
