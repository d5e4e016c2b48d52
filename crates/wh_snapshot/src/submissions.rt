//! The tasks of a front, and who submitted them.

ghost use Rattle.std.specs.Prelude.{◌≡◌, ◌++◌, ◌∷◌, [], map, length, cond, IfOk, OnOk};
ghost use Rattle.std.specs.List.{AllByRecursion};
ghost use Rattle.wh_front.specs.declared.front.Submission.{Submission as Told};
ghost use Rattle.wh_snapshot.specs.Snapshots.{submitters, is_accepted};
ghost use Rattle.wh_snapshot.specs.Kept.{IsTyped};

use crate::cells::read_all;
use std::alloc::{AllocError, Global};
use wh_event::{Entry, Reply};
use wh_front::{Rows, Submission};
use wh_tasks::{Task, TaskSet};

/// Whether a task was accepted.
fn is_accepted(reply: &Reply) -> bool
    ensures { result ≡ is_accepted reply.now }
{
    matches!(reply, Reply::Accepted { .. })
}

/// The caller of an entry, where that accepted a task.
fn push_submitter(callers: &mut Vec<u32>, entry: &Entry) -> Result<(), AllocError>
    ensures { OnOk result (callers.new.items ≡ callers.old.items ++ cond (is_accepted entry.now.reply) (entry.now.caller ∷ []) []) }
{
    if is_accepted(&entry.reply) {
        callers.push(entry.caller)?;
    }
    Ok(())
}

/// Those who submitted the first tasks, and behind them those whose submits were accepted, in order.
pub fn submitters_of(alloc: Global, had: &[u32], history: &[Entry]) -> Result<Vec<u32>, AllocError>
    ensures { IfOk result (λ callers. callers.items ≡ had.now ++ submitters history.now) }
{
    let mut callers = Vec::from_slice(alloc, had)?;
    for entry in history {
        push_submitter(&mut callers, entry)?;
    }
    Ok(callers)
}

/// The task, which this caller submitted.
fn submission_of(caller: u32, task: &Task) -> Submission
    ensures value { result ≡ record { caller = caller; task = task.now } }
    ensures typed { IsTyped task.now }
{
    let _name = task.client.as_slice();
    read_all(task.stops.as_slice());
    Submission {
        caller,
        task: task.copy(),
    }
}

/// The tasks, which these callers submitted.
pub fn submissions_of(
    alloc: Global,
    callers: &[u32],
    tasks: &TaskSet,
) -> Result<Rows<Submission>, AllocError>
    requires each { length callers.now ≡ length tasks.now.tasks }
    ensures callers { IfOk result (λ submissions. map (λ (submission : Told). submission.caller) submissions ≡ callers.now) }
    ensures tasks { IfOk result (λ submissions. map (λ (submission : Told). submission.task) submissions ≡ tasks.now.tasks) }
    ensures typed { IfOk result (AllByRecursion (λ (submission : Told). IsTyped submission.task)) }
{
    let mut submissions = Rows::none(alloc);
    for n in 0..tasks.len() {
        let submission = submission_of(callers[n as usize], tasks.task(n));
        submissions.push(submission)?;
    }
    Ok(submissions)
}
