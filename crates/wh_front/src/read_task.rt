//! Reads tasks.

ghost use Rattle.std.specs.Prelude.{◌≡◌, ◌≤◌, length, Some, None};
ghost use Rattle.wh_log.specs.Reading as given;
ghost use Rattle.wh_front.specs.Reading as reading;
ghost use Rattle.wh_front.specs.Reading.{Gives, Reads, Fails};
ghost use Rattle.wh_front.specs.ReadTasks as tasks;

use crate::form_fault::FormFault;
use crate::front::Submission;
use crate::read_lists::cells;
use crate::read_words::{at_end, caller, clock_number, literal, name, small};
use std::alloc::Global;
use wh_grid::Cell;
use wh_tasks::{Places, Task, Visits};
use wh_words::{Words, long_numeral};

/// Who has a task, and when its stops were visited.
#[derive(Drop)]
struct Holder {
    agent: Option<u32>,
    visits: Visits,
}

/// How many tasks there are.
#[tactic(auto, unfolding(crate::specs::ReadTasks::tasks_of))]
pub fn task_count(mut words: Words) -> Result<u32, FormFault>
    ensures { Gives (λ x. x) result (tasks.tasks_of words.entry) }
{
    let count = small(&mut words)?;
    if count <= 1_000_000 {
        at_end(words, count)
    } else {
        Err(FormFault::Form)
    }
}

fn clock(word: &[u8]) -> Option<u32>
    ensures { result ≡ tasks.clock_of word.now }
{
    let number = long_numeral(word, 10)?;
    if number <= 1_000_000_000 {
        Some(number as u32)
    } else {
        None
    }
}

/// The visits, where there is one.
fn counted(visits: Visits) -> Result<Visits, FormFault>
    ensures { Gives (λ x. x) result (tasks.counted_of visits) }
{
    if visits.as_slice().is_empty() {
        Err(FormFault::Form)
    } else {
        Ok(visits)
    }
}

/// The clocks of 1 to 8 visits, up to `stops`.
fn clocks(words: &mut Words) -> Result<Visits, FormFault>
    ensures { Reads (λ x. x) result words.new (tasks.some_clocks_at words.old) }
{
    let mut visits = Visits::none();
    while let Some(word) = words.next_word() {
        if word == b"stops".as_slice() {
            return counted(visits);
        }
        let Some(clock) = clock(word) else {
            return Err(FormFault::Form);
        };
        if visits.as_slice().len() >= 8 {
            return Err(FormFault::Form);
        }
        visits.push(clock);
    }
    Err(FormFault::Form)
}

/// The visits, if there are any, and `stops`.
#[tactic(auto, unfolding(crate::specs::ReadTasks::visits_at))]
fn visits(words: &mut Words) -> Result<Visits, FormFault>
    ensures { Reads (λ x. x) result words.new (tasks.visits_at words.old) }
{
    let Some(word) = words.next_word() else {
        return Err(FormFault::Form);
    };
    if word == b"stops".as_slice() {
        Ok(Visits::none())
    } else if word == b"visits".as_slice() {
        clocks(words)
    } else {
        Err(FormFault::Form)
    }
}

#[tactic(auto, unfolding(crate::specs::ReadTasks::open_at))]
fn unassigned(words: &mut Words) -> Result<Holder, FormFault>
    ensures { Reads (λ h. record { agent = h.agent; visits = h.visits }) result words.new (tasks.open_at words.old) }
{
    literal(words, b"stops")?;
    Ok(Holder {
        agent: None,
        visits: Visits::none(),
    })
}

#[tactic(auto, unfolding(crate::specs::ReadTasks::agent_at))]
fn assigned(words: &mut Words) -> Result<Holder, FormFault>
    ensures { Reads (λ h. record { agent = h.agent; visits = h.visits }) result words.new (tasks.agent_at words.old) }
{
    let agent = small(words)?;
    let visits = visits(words)?;
    Ok(Holder {
        agent: Some(agent),
        visits,
    })
}

/// Who has the task, and `stops`.
#[tactic(auto, unfolding(crate::specs::ReadTasks::who_at))]
fn who(words: &mut Words) -> Result<Holder, FormFault>
    ensures { Reads (λ h. record { agent = h.agent; visits = h.visits }) result words.new (tasks.who_at words.old) }
{
    let Some(word) = words.next_word() else {
        return Err(FormFault::Form);
    };
    if word == b"open".as_slice() {
        unassigned(words)
    } else if word == b"agent".as_slice() {
        assigned(words)
    } else {
        Err(FormFault::Form)
    }
}

/// 2 to 8 stops, and no fewer than visits.
fn stops(visits: usize, cells: &[Cell]) -> Result<Places, FormFault>
    ensures { Gives (λ x. x) result (tasks.stops_of visits cells.now) }
{
    if cells.len() >= 2 && cells.len() <= 8 && visits <= cells.len() {
        Ok(Places::of(cells))
    } else {
        Err(FormFault::Form)
    }
}

/// Who submitted a task, and the task.
#[tactic(auto, unfolding(crate::specs::ReadTasks::submission_of))]
pub fn submission(alloc: Global, mut words: Words) -> Result<Submission, FormFault>
    ensures { Gives (λ x. x) result (tasks.submission_of words.entry) }
{
    let caller = caller(&mut words)?;
    let client = name(&mut words)?;
    let submitted = clock_number(&mut words)?;
    let who = who(&mut words)?;
    let cells = cells(alloc, words)?;
    let stops = stops(who.visits.as_slice().len(), &cells)?;
    let task = Task {
        client,
        stops,
        submitted,
        agent: who.agent,
        visits: who.visits,
    };
    Ok(Submission { caller, task })
}
