//! What can be read of a warehouse.

ghost use Rattle.std.specs.Prelude.{◌≡◌, ℕ, ◌<◌, ◌≤◌, List, Some, length, slice_get, IfNone, IfOk, IfSome};
ghost use Rattle.wh_path.specs.Paths.{place_of, steps_left};
ghost use Rattle.wh_tasks.specs.Tasks.{IsTask};
ghost use Rattle.wh_ledger.specs.Ledgers.{rows_of};
ghost use Rattle.wh_core.specs.States.{opened};
ghost use Rattle.wh_core.specs.Laws.{IsOpening, IsBeginning, AllOnTheirWays};
ghost use Rattle.wh_core.specs.Steps.{Run, last_clock};
ghost use Rattle.wh_book.specs.Drafts.{AllServed, HasWaysForAll};
ghost use Rattle.wh_book.specs.Ways.{IsFirstStray};
ghost use Rattle.wh_token.specs.Fleet.{IsTied};

use crate::warehouse::Warehouse;
use std::alloc::{AllocError, Global};
use wh_book::Book;
use wh_event::Entry;
use wh_grid::Cell;
use wh_ledger::DeliveryLedger;
use wh_planner::Plans;
use wh_tasks::{Load, Task};

impl<P: Plans> Warehouse<P> {
    /// The state, and the history that led to it.
    pub fn book(&self) -> &Book
        ensures { result.now ≡ self.now.book }
    {
        &self.book
    }

    /// How many agents there are, at most 256.
    pub fn agents(&self) -> u32
        ensures value { result ≡ length self.now.book.state.paths }
        ensures few { result ≤ 256 }
    {
        self.book.paths().len() as u32
    }

    /// The clock, in ticks, at most 1,000,000,000.
    pub fn clock(&self) -> u32
        ensures value { result ≡ self.now.book.state.clock }
        ensures fits { result ≤ last_clock }
    {
        self.book.clock()
    }

    /// Whether it is closed: every later event is refused.
    pub fn closed(&self) -> bool
        ensures { result ≡ self.now.book.state.closed }
    {
        self.book.closed()
    }

    /// Where the agent is now.
    pub fn cell(&self, agent: u32) -> Cell
        requires { agent < length self.now.book.state.paths }
        ensures { result ≡ place_of self.now.book.state.paths agent }
    {
        self.book.paths()[agent as usize].start()
    }

    /// How many steps the agent has left.
    pub fn remaining(&self, agent: u32) -> u64
        requires { agent < length self.now.book.state.paths }
        ensures { result ≡ steps_left self.now.book.state.paths agent }
    {
        self.book.paths()[agent as usize].remaining()
    }

    /// What the agent has to do.
    pub fn load(&self, agent: u32) -> Load
        requires { agent < length self.now.book.state.paths }
        ensures { slice_get self.now.book.state.loads agent ≡ Some result }
    {
        self.book.loads()[agent as usize]
    }

    /// How many distance fields the agent's planner may keep.
    pub fn slots(&self, agent: u32) -> u32
        requires { agent < length self.now.book.state.paths }
        ensures { slice_get self.now.book.state.slots agent ≡ Some result }
    {
        self.book.slots()[agent as usize]
    }

    /// The task of a number, from 0.
    pub fn task(&self, n: u32) -> &Task
        requires { n < length self.now.book.state.tasks }
        ensures { IsTask self.now.book.state.tasks n result.now }
    {
        self.book.tasks().task(n)
    }

    /// What the tasks of each client have come to, in one pass over the tasks. Fails when out of memory.
    pub fn ledger(&self, alloc: Global) -> Result<DeliveryLedger, AllocError>
        ensures { IfOk result (λ ledger. ledger ≡ rows_of self.now.book.state.tasks) }
    {
        DeliveryLedger::of(alloc, self.book.tasks())
    }

    /// The first agent that is not on its way: its path does not end where it may come to rest, or does not lead it through the stops
    /// that are left of its task. It takes constant time once all are on their ways.
    pub fn first_stray(&self) -> Option<u32>
        ensures some { IfSome result (IsFirstStray self.now.book.site self.now.book.state) }
        ensures none { IfNone result (AllOnTheirWays self.now.book.site self.now.book.state) }
    {
        self.book.first_stray()
    }

    /// All entries so far: a run from the opening state to the state. On a well-formed instance, where all were on their ways at the
    /// opening, none of them is a refusal for lack of a path.
    pub fn history(&self) -> &[Entry]
        ensures value { result.now ≡ self.now.book.history }
        ensures opening { IsBeginning self.now.book.site self.now.book.opening }
        // Where the agents stood at their starts, that is an opening.
        ensures opened { (clock : ℕ) (slots : List ℕ) → self.now.book.opening ≡ opened self.now.book.site.layout clock slots → IsOpening self.now.book.site self.now.book.opening }
        ensures run { Run self.now.book.site self.now.book.opening self.now.book.history self.now.book.state }
        ensures served { HasWaysForAll self.now.book.site self.now.book.opening → AllServed self.now.book.history }
    {
        self.book.history()
    }

    /// The slots of the agents' planners in the opening state.
    pub fn first_slots(&self) -> &[u32]
        ensures { result.now ≡ self.now.book.opening.slots }
    {
        self.book.first_slots()
    }

    /// The clock of the opening state.
    pub fn start(&self) -> u32
        ensures { result ≡ self.now.book.opening.clock }
    {
        self.book.first_clock()
    }

    /// The agents' planners, in the agents' order. Each plans on the grid, and has the slots that the state tells.
    pub fn planners(&self) -> &[P]
        ensures value { result.now ≡ self.now.planners }
        ensures tied { IsTied P.fits_map P.slot_count self.now.book.site.grid self.now.planners self.now.book.state.slots }
    {
        self.planners.as_slice()
    }
}
