//! Writes a front.

ghost use Rattle.std.specs.Prelude.{◌≡◌, ◌++◌, ◌∷◌, [], OnOk, IfOk, map, length};
ghost use Rattle.wh_words.specs.Lines.{text_of};
ghost use Rattle.wh_front.specs.Fronts as fronts;
ghost use Rattle.wh_front.specs.Spelling.{front_line};
ghost use Rattle.wh_front.specs.declared.line.Line.TheVariants as lines;

use crate::before::Before;
use crate::front::{Count, Front, Seat, Submission};
use crate::line::Line;
use crate::rules::{Kind, Rules};
use crate::write_parts::{push_before, push_counts, push_rules, push_seat, push_state};
use crate::write_task::push_submission;
use crate::write_words::push_number;
use std::alloc::{AllocError, Global};
use wh_log::NoMemory;
use wh_path::TimedPath;
use wh_tasks::Task;

fn push_before_line(out: &mut Vec<u8>, before: &Before) -> Result<(), AllocError>
    ensures { OnOk result (out.new.items ≡ out.old.items ++ (front_line (lines.Before before.now) ++ 10 ∷ [])) }
{
    out.extend_from_slice(b"after")?;
    push_before(out, before)?;
    out.push(b'\n')?;
    Ok(())
}

fn push_rules_line(out: &mut Vec<u8>, rules: &Rules) -> Result<(), AllocError>
    ensures { OnOk result (out.new.items ≡ out.old.items ++ (front_line (lines.Rules rules.now) ++ 10 ∷ [])) }
{
    out.extend_from_slice(b"rules")?;
    push_rules(out, rules)?;
    out.push(b'\n')?;
    Ok(())
}

/// The line of the rules, where one is not the default.
fn push_rules_lines(out: &mut Vec<u8>, rules: &Rules) -> Result<(), AllocError>
    ensures { OnOk result (out.new.items ≡ out.old.items ++ text_of (map front_line (fronts.rules_lines rules.now))) }
{
    if rules.are_told() {
        push_rules_line(out, rules)
    } else {
        Ok(())
    }
}

fn push_state_line(
    out: &mut Vec<u8>,
    clock: u32,
    closed: bool,
    kind: Kind,
) -> Result<(), AllocError>
    ensures { OnOk result (out.new.items ≡ out.old.items ++ (front_line (lines.State clock closed kind) ++ 10 ∷ [])) }
{
    out.extend_from_slice(b"state")?;
    push_state(out, clock, closed, kind)?;
    out.push(b'\n')?;
    Ok(())
}

fn push_entries_line(out: &mut Vec<u8>, counts: &[Count]) -> Result<(), AllocError>
    ensures { OnOk result (out.new.items ≡ out.old.items ++ (front_line (lines.Entries counts.now) ++ 10 ∷ [])) }
{
    out.extend_from_slice(b"entries")?;
    push_counts(out, counts)?;
    out.push(b'\n')?;
    Ok(())
}

fn push_agents_line(out: &mut Vec<u8>, count: u64) -> Result<(), AllocError>
    ensures { OnOk result (out.new.items ≡ out.old.items ++ (front_line (lines.Agents count) ++ 10 ∷ [])) }
{
    out.extend_from_slice(b"agents")?;
    push_number(out, count)?;
    out.push(b'\n')?;
    Ok(())
}

fn push_agent_line(out: &mut Vec<u8>, slots: u32, path: &TimedPath) -> Result<(), AllocError>
    ensures { OnOk result (out.new.items ≡ out.old.items ++ (front_line (lines.Agent (record { slots = slots; path = path.now })) ++ 10 ∷ [])) }
{
    out.extend_from_slice(b"agent")?;
    push_seat(out, slots, path)?;
    out.push(b'\n')?;
    Ok(())
}

fn push_tasks_line(out: &mut Vec<u8>, count: u64) -> Result<(), AllocError>
    ensures { OnOk result (out.new.items ≡ out.old.items ++ (front_line (lines.Tasks count) ++ 10 ∷ [])) }
{
    out.extend_from_slice(b"tasks")?;
    push_number(out, count)?;
    out.push(b'\n')?;
    Ok(())
}

fn push_task_line(out: &mut Vec<u8>, caller: u32, task: &Task) -> Result<(), AllocError>
    ensures { OnOk result (out.new.items ≡ out.old.items ++ (front_line (lines.Task (record { caller = caller; task = task.now })) ++ 10 ∷ [])) }
{
    out.extend_from_slice(b"task")?;
    push_submission(out, caller, task)?;
    out.push(b'\n')?;
    Ok(())
}

fn push_line(out: &mut Vec<u8>, line: &Line) -> Result<(), AllocError>
    ensures { OnOk result (out.new.items ≡ out.old.items ++ (front_line line.now ++ 10 ∷ [])) }
{
    match line {
        Line::Title => {
            out.extend_from_slice(b"wlog 3\n")?;
            Ok(())
        }
        Line::Before(before) => push_before_line(out, before),
        Line::Rules(rules) => push_rules_line(out, rules),
        Line::State {
            clock,
            closed,
            kind,
        } => push_state_line(out, *clock, *closed, *kind),
        Line::Entries(counts) => push_entries_line(out, counts.as_slice()),
        Line::Agents(count) => push_agents_line(out, u64::from(*count)),
        Line::Agent(seat) => push_agent_line(out, seat.slots, &seat.path),
        Line::Tasks(count) => push_tasks_line(out, u64::from(*count)),
        Line::Task(submission) => push_task_line(out, submission.caller, &submission.task),
        Line::Begin => {
            out.extend_from_slice(b"begin\n")?;
            Ok(())
        }
    }
}

/// The first lines, up to how many entries each caller had.
fn push_head(out: &mut Vec<u8>, front: &Front) -> Result<(), AllocError>
    ensures { OnOk result (out.new.items ≡ out.old.items ++ text_of (map front_line (fronts.head_lines front.now))) }
{
    out.extend_from_slice(b"wlog 3\n")?;
    push_before_line(out, &front.before)?;
    push_rules_lines(out, &front.rules)?;
    push_state_line(out, front.clock, front.closed, front.kind)?;
    push_entries_line(out, front.counts.as_slice())
}

/// How many agents there are, and a line for each.
fn push_seats(out: &mut Vec<u8>, seats: &[Seat]) -> Result<(), AllocError>
    ensures { OnOk result (out.new.items ≡ out.old.items ++ text_of (map front_line (fronts.seat_lines seats.now))) }
{
    push_agents_line(out, seats.len() as u64)?;
    for seat in seats {
        push_agent_line(out, seat.slots, &seat.path)?;
    }
    Ok(())
}

/// How many tasks there are, and a line for each.
fn push_tasks(out: &mut Vec<u8>, tasks: &[Submission]) -> Result<(), AllocError>
    ensures { OnOk result (out.new.items ≡ out.old.items ++ text_of (map front_line (fronts.task_lines tasks.now))) }
{
    push_tasks_line(out, tasks.len() as u64)?;
    for submission in tasks {
        push_task_line(out, submission.caller, &submission.task)?;
    }
    Ok(())
}

/// The text of a front. It is written whatever the front tells; where that keeps the format's ranges, the text is a front.
///
/// Error: `NoMemory` (E90).
pub fn front_text(alloc: Global, front: &Front) -> Result<Vec<u8>, NoMemory>
    // Its text is fixed by what it tells.
    ensures text { IfOk result (λ text. text.items ≡ fronts.front_text front.now) }
    // It is a front, where the ranges are kept.
    ensures is { IfOk result (λ text. fronts.Fits front.now → fronts.IsFrontOf text.items front.now) }
{
    let mut out = Vec::new(alloc);
    push_head(&mut out, front)?;
    push_seats(&mut out, front.seats.as_slice())?;
    push_tasks(&mut out, front.tasks.as_slice())?;
    out.extend_from_slice(b"begin\n")?;
    Ok(out)
}

/// A line of a front, with its line feed. Error: `NoMemory` (E90).
pub fn line_text(alloc: Global, line: &Line) -> Result<Vec<u8>, NoMemory>
    ensures { IfOk result (λ text. text.items ≡ text_of (front_line line.now ∷ [])) }
{
    let mut out = Vec::new(alloc);
    push_line(&mut out, line)?;
    Ok(out)
}

/// The line of an agent with these slots and this path, with its line feed. Error: `NoMemory` (E90).
pub fn agent_text(alloc: Global, slots: u32, path: &TimedPath) -> Result<Vec<u8>, NoMemory>
    ensures { IfOk result (λ text. text.items ≡ text_of (front_line (lines.Agent (record { slots = slots; path = path.now })) ∷ [])) }
{
    let mut out = Vec::new(alloc);
    push_agent_line(&mut out, slots, path)?;
    Ok(out)
}

/// The line of a task that this caller submitted, with its line feed. Error: `NoMemory` (E90).
pub fn task_text(alloc: Global, caller: u32, task: &Task) -> Result<Vec<u8>, NoMemory>
    ensures { IfOk result (λ text. text.items ≡ text_of (front_line (lines.Task (record { caller = caller; task = task.now })) ∷ [])) }
{
    let mut out = Vec::new(alloc);
    push_task_line(&mut out, caller, task)?;
    Ok(out)
}
