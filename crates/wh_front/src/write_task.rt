//! Writes a task.

ghost use Rattle.std.specs.Prelude.{◌≡◌, ◌++◌, ◌∷◌, [], OnOk, map, decimal};
ghost use Rattle.wh_log.specs.Spaced.{spaced};
ghost use Rattle.wh_front.specs.Spelling as spelling;

use crate::write_words::{push_cells, push_number, push_numbers, push_word};
use std::alloc::AllocError;
use wh_tasks::{Task, Visits};

/// Writes the clocks of the visits, where there is one.
fn push_visits(out: &mut Vec<u8>, visits: &Visits) -> Result<(), AllocError>
    ensures { OnOk result (out.new.items ≡ out.old.items ++ spaced (spelling.visits_words visits.now)) }
{
    let clocks = visits.as_slice();
    if clocks.is_empty() {
        return Ok(());
    }
    push_word(out, b"visits")?;
    push_numbers(out, clocks)
}

/// Writes who has a task.
fn push_who(out: &mut Vec<u8>, agent: Option<u32>, visits: &Visits) -> Result<(), AllocError>
    ensures { OnOk result (out.new.items ≡ out.old.items ++ spaced (spelling.who_words agent visits.now)) }
{
    let Some(agent) = agent else {
        return push_word(out, b"open");
    };
    push_word(out, b"agent")?;
    push_number(out, u64::from(agent))?;
    push_visits(out, visits)
}

/// Writes who submitted a task, and the task.
pub fn push_submission(out: &mut Vec<u8>, caller: u32, task: &Task) -> Result<(), AllocError>
    ensures { OnOk result (out.new.items ≡ out.old.items ++ spaced (spelling.submission_words (record { caller = caller; task = task.now }))) }
{
    push_number(out, u64::from(caller))?;
    push_word(out, task.client.as_slice())?;
    push_number(out, u64::from(task.submitted))?;
    push_who(out, task.agent, &task.visits)?;
    push_word(out, b"stops")?;
    push_cells(out, task.stops.as_slice())
}
