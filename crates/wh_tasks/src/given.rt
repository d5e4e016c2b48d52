//! Tasks that are given as they are.
#![tactic(auto)]

ghost use Rattle.std.specs.Prelude.{◌≡◌, ◌≢◌, ◌+◌, ◌<◌, ◌≤◌, ◌++◌, ◌∷◌, [], None, All, IfOk, length};
ghost use Rattle.wh_tasks.specs.Changes.{IsOrderly};

use crate::ends::PathEnds;
use crate::task::Task;
use crate::task_set::TaskSet;
use std::alloc::{AllocError, Global};

impl TaskSet {
    /// Copies of the tasks, as far as each has come, on a grid of these sides, where the paths have these ends. Fails when
    /// out of memory.
    pub fn of(
        alloc: Global,
        width: u16,
        height: u16,
        ends: PathEnds,
        tasks: &[Task],
    ) -> Result<TaskSet, AllocError>
        requires few { length tasks.now ≤ 1000000 }
        requires orderly { All IsOrderly tasks.now }
        ensures tasks { IfOk result (λ set. set.tasks ≡ tasks.now) }
        ensures ends { IfOk result (λ set. set.ends ≡ ends) }
    {
        let mut set = TaskSet::new(alloc, width, height, ends)?;
        for task in tasks {
            set.reserve(alloc)?;
            set.add(task.copy());
        }
        Ok(set)
    }

    /// Adds a task, as far as it has come. It takes no memory.
    pub fn add(&mut self, task: Task)
        requires room { 1 ≤ self.old.room }
        requires few { length self.old.tasks < 1000000 }
        requires orderly { IsOrderly task }
        ensures tasks { self.new.tasks ≡ self.old.tasks ++ task ∷ [] }
        ensures room { self.new.room + 1 ≡ self.old.room }
        ensures ends { self.new.ends ≡ self.old.ends }
    {
        if task.agent.is_some() {
            self.add_begun(task);
            return;
        }
        let Task {
            client,
            stops,
            submitted,
            agent: _,
            visits,
        } = task;
        drop(visits);
        let _number = self.submit(client, stops, submitted);
    }

    /// Adds a task that an agent has: none may choose it, so its stops are not listed.
    fn add_begun(&mut self, task: Task)
        requires room { 1 ≤ self.old.room }
        requires few { length self.old.tasks < 1000000 }
        requires orderly { IsOrderly task }
        requires begun { task.agent ≢ None }
        ensures tasks { self.new.tasks ≡ self.old.tasks ++ task ∷ [] }
        ensures room { self.new.room + 1 ≡ self.old.room }
        ensures ends { self.new.ends ≡ self.old.ends }
    {
        self.clear.grow();
        self.bars.push_reserved(None);
        self.firsts.push_reserved(0);
        self.counts.add(task.phase());
        self.tasks.push_reserved(task);
        self.is_reserved = false;
    }
}
