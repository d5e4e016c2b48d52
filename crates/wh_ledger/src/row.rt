//! One client's row.

ghost use Rattle.std.specs.Prelude.{◌≡◌, ℕ, ◌+◌, List, [], ◌∷◌, ◌++◌};
ghost use Rattle.wh_tasks.specs.declared.task.Task.{Task as Job};
ghost use Rattle.wh_tasks.specs.declared.task.Phase.{Phase as Stage};
ghost use Rattle.wh_tasks.specs.Tasks.{phase};
ghost use Rattle.wh_tasks.specs.Changes.{IsOrderly};
ghost use Rattle.wh_ledger.specs.Ledgers.{row_of, time_of};
ghost use Rattle.wh_ledger.specs.Places.{IsWithin};

use wh_tasks::{Phase, Task};
use wh_text::Name;

/// What the tasks of one client have come to.
#[derive(Drop)]
pub struct Row {
    /// Who submitted them.
    pub client: Name,
    /// How many there are.
    pub submitted: u32,
    /// How many no agent has.
    pub open_tasks: u32,
    /// How many are assigned, and not yet picked up.
    pub assigned: u32,
    /// How many are carried.
    pub carried: u32,
    /// How many are done.
    pub done: u32,
    /// The ticks from submission to delivery, summed over those that are done.
    pub time: u64,
}

/// The ticks from the submission of a task that is done to its delivery.
fn time_of(task: &Task) -> u32
    requires done { phase task.now ≡ Stage.Done }
    requires orderly { IsOrderly task.now }
    ensures { result ≡ time_of task.now }
{
    match task.visits.as_slice() {
        [.., delivered] => *delivered - task.submitted,
        [] => unreachable!(),
    }
}

impl Row {
    /// The row of a client without a task.
    pub(crate) fn none(client: Name) -> Row
        ensures { result ≡ row_of [] client }
    {
        Row {
            client,
            submitted: 0,
            open_tasks: 0,
            assigned: 0,
            carried: 0,
            done: 0,
            time: 0,
        }
    }

    /// With one task of the client more.
    pub(crate) fn count(&mut self, task: &Task)
        requires own { self.old.client ≡ task.now.client }
        requires orderly { IsOrderly task.now }
        requires within { IsWithin 999999 self.old }
        ensures row { (tasks : List Job) → self.old ≡ row_of tasks self.old.client → self.new ≡ row_of (tasks ++ task.now ∷ []) self.old.client }
        ensures within { (n : ℕ) → IsWithin n self.old → IsWithin (n + 1) self.new }
    {
        self.submitted += 1;
        match task.phase() {
            Phase::Open => self.open_tasks += 1,
            Phase::Assigned => self.assigned += 1,
            Phase::Carried => self.carried += 1,
            Phase::Done => {
                self.done += 1;
                self.time += u64::from(time_of(task));
            }
        }
    }
}
