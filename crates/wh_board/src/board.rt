//! What a display is shown of the warehouse.
#![tactic(auto)]

ghost use Rattle.std.specs.Prelude.{◌≡◌, ◌≤◌, length};
ghost use Rattle.wh_board.specs.Pasts.{past_of};
ghost use Rattle.wh_board.specs.Boards.{IsBoardOf, AreShown};

use arrayvec::ArrayVec;
use wh_book::Book;
use wh_grid::Cell;
use wh_path::TimedPath;
use wh_tasks::Load;

/// An agent as it is shown.
#[derive(Clone, Copy, Debug, PartialEq, Eq)]
pub struct Shown {
    /// Where it is now.
    pub cell: Cell,
    /// What it has to do.
    pub load: Load,
    /// How many steps of its path are left. Where paths end at the last stop an agent with none is due, and may ask for the token; where
    /// they go on home one without a load is.
    pub steps_left: u64,
}

impl Default for Shown {
    ghost use Rattle.wh_tasks.specs.declared.task.Load.{Load as Duty};

    ghost is_default = { λ s. s ≡ record { cell = record { x = 0; y = 0 }; load = Duty.None; steps_left = 0 } };

    fn default() -> Self {
        Shown {
            cell: Cell { x: 0, y: 0 },
            load: Load::None,
            steps_left: 0,
        }
    }
}

/// What is shown of a warehouse after some of its history.
#[derive(Drop)]
pub struct Board {
    /// How many entries that history has.
    pub entries: u64,
    /// The clock, in ticks.
    pub clock: u32,
    /// Whether paths go on home.
    pub homes: bool,
    /// The agents in their order, at most 256.
    pub agents: ArrayVec<Shown, 256>,
    /// How many tasks no agent has.
    pub open_tasks: u32,
    /// How many tasks are assigned, and not yet picked up.
    pub assigned: u32,
    /// How many tasks are carried.
    pub carried: u32,
    /// How many tasks are done.
    pub done: u32,
}

impl Board {
    /// The board of the book as it is. It takes no memory, and time by the number of agents alone.
    pub fn of(book: &Book) -> Board
        ensures { IsBoardOf (past_of book.now) result }
    {
        let entries = book.history().len() as u64;
        let counts = book.tasks().counts();
        Board {
            entries,
            clock: book.clock(),
            homes: book.setting().homes(),
            agents: agents_of(book.paths(), book.loads()),
            open_tasks: counts.open_tasks,
            assigned: counts.assigned,
            carried: counts.carried,
            done: counts.done,
        }
    }

    /// The same board. It takes no memory.
    pub fn copy(&self) -> Board
        ensures { result ≡ self.now }
    {
        let mut agents = ArrayVec::new();
        match agents.try_extend_from_slice(self.agents.as_slice()) {
            Ok(()) => {}
            Err(_) => unreachable!(),
        }
        Board {
            entries: self.entries,
            clock: self.clock,
            homes: self.homes,
            agents,
            open_tasks: self.open_tasks,
            assigned: self.assigned,
            carried: self.carried,
            done: self.done,
        }
    }
}

/// The agents with these paths and loads.
fn agents_of(paths: &[TimedPath], loads: &[Load]) -> ArrayVec<Shown, 256>
    requires few { length paths.now ≤ 256 }
    requires each { length loads.now ≡ length paths.now }
    ensures { AreShown paths.now loads.now result.items }
{
    let mut agents = ArrayVec::new();
    for (k, path) in paths.iter().enumerate() {
        agents.push(Shown {
            cell: path.start(),
            load: loads[k],
            steps_left: path.remaining(),
        });
    }
    agents
}
