//! What an agent is given to do.
#![tactic(auto)]

ghost use Rattle.std.specs.Prelude.{◌≡◌, ◌<◌, ◌≤◌, ◌↔◌, ◌⊎◌, List, false, length, IfOk, IfNone, IfSome, IsTrue, MatchBool, Contains};
ghost use Rattle.wh_grid.specs.declared.cell.Cell.{Cell as Place};
ghost use Rattle.wh_path.specs.Paths.{place_of, end_of};
ghost use Rattle.wh_tasks.specs.declared.task.Task.{Task as Job};
ghost use Rattle.wh_tasks.specs.declared.task.Load.{Load as Burden};
ghost use Rattle.wh_tasks.specs.Tasks.{IsTask, stops_left};
ghost use Rattle.wh_planner.specs.Duties.{Delivers};
ghost use Rattle.wh_core.specs.States.{load_of};
ghost use Rattle.wh_core.specs.Steps.{IsAllowed, IsBerth, IsDue, IsIdleIn, IsNext, IsRestCell, IsStray, IsWanted, NoneIsNext, tour};
ghost use Rattle.wh_core.specs.Laws.{IsBeginning, AllOnTheirWays};
ghost use Rattle.wh_stand.specs.Ways.{IsFirstStray};

use crate::book::Book;
use crate::choice::{next_task, rests_at_once};
use crate::idle::ticks_until_idle;
use crate::setting::Setting;
use crate::strays::{free_points, is_stray, may_rest};
use crate::tour::tour_left;
use arrayvec::ArrayVec;
use std::alloc::{AllocError, Global};
use wh_field::LazyField;
use wh_grid::Cell;
use wh_stand::first_stray;
use wh_state::FleetState;

impl Book {
    /// The task that the agent takes: its own, if it has one, and else the nearest that it may take. It takes no memory.
    pub fn next(&self, agent: u32, near: &mut LazyField) -> Option<u32>
        requires known { agent < length self.now.state.paths }
        requires over { near.old.grid ≡ self.now.site.grid }
        ensures grid { near.new.grid ≡ near.old.grid }
        ensures source { near.new.cell ≡ place_of self.now.state.paths agent }
        ensures none { IfNone result (NoneIsNext self.now.state agent) }
        ensures next { IfSome result (λ n. (task : Job) × IsNext self.now.site self.now.state agent n task) }
    {
        next_task(&self.floor, agent, near)
    }

    /// Where the agent goes for its next task: through the stops that are left, and then home if paths go on home. Where that is one
    /// cell it is told twice, which asks for the same paths. It takes no memory.
    pub fn tour(&self, agent: u32, task: u32) -> ArrayVec<Cell, 9>
        requires known { agent < length self.now.state.paths }
        requires next { (job : Job) × IsNext self.now.site self.now.state agent task job }
        ensures same { (job : Job) × IsTask self.now.state.tasks task job
            × (length result.items ≤ length (tour self.now.site agent job.stops))
            × ((path : List Place) → Delivers result.items path ↔ Delivers (tour self.now.site agent (stops_left job)) path) }
        ensures two { 2 ≤ length result.items }
        ensures nine { length result.items ≤ 9 }
    {
        let home = self.setting.home(agent);
        tour_left(self.setting.homes(), home, self.floor.tasks().task(task))
    }

    /// In how many ticks the agent is due, if nothing else happens: it has no steps left then; or, where paths go on home, no
    /// task. Where paths end at the last stop it takes constant time.
    #[inline(always)]
    pub fn ticks_until_idle(&self, agent: u32) -> u64
        requires { agent < length self.now.state.paths }
        ensures { IsIdleIn self.now.site self.now.state agent result }
    {
        ticks_until_idle(self.setting.homes(), &self.floor, agent)
    }

    /// Whether it is known at once that a due agent has nothing to do and is in nobody's way. It takes constant time.
    #[inline(always)]
    pub fn rests_at_once(&self, agent: u32) -> bool
        requires { IsDue self.now.site self.now.state agent }
        ensures none { IsTrue result → NoneIsNext self.now.state agent }
        ensures rest_cell { IsTrue result → IsRestCell self.now.site self.now.state agent (end_of self.now.state.paths agent) }
    {
        rests_at_once(self.strays, &self.floor, agent)
    }

    /// Whether the agent may stay at rest where its path ends. It takes constant time but for the open tasks that stop there, while all
    /// are on their ways.
    pub fn may_rest(&self, agent: u32) -> bool
        requires { agent < length self.now.state.paths }
        ensures { MatchBool result (IsRestCell self.now.site self.now.state agent (end_of self.now.state.paths agent))
            (IsWanted self.now.site self.now.state (end_of self.now.state.paths agent) ⊎ (¬ IsBerth self.now.site agent (end_of self.now.state.paths agent))) }
    {
        may_rest(
            self.setting.points(),
            self.setting.homes(),
            self.strays,
            &self.floor,
            agent,
        )
    }

    /// Whether the agent has a task, or comes to rest where it may not: of one that is idle, whether it is a stray.
    pub fn is_stray(&self, agent: u32) -> bool
        requires { agent < length self.now.state.paths }
        ensures { MatchBool result (IsStray self.now.site self.now.state agent)
            ((load_of self.now.state agent ≡ Burden.None) × IsBerth self.now.site agent (end_of self.now.state.paths agent)) }
    {
        is_stray(
            self.setting.points(),
            self.setting.homes(),
            &self.floor,
            agent,
        )
    }

    /// The first agent that is not on its way: its path does not end where it may come to rest, or does not lead it through the stops
    /// that are left of its task. It takes constant time once all are on their ways.
    pub fn first_stray(&self) -> Option<u32>
        ensures some { IfSome result (IsFirstStray self.now.site self.now.state) }
        ensures none { IfNone result (AllOnTheirWays self.now.site self.now.state) }
    {
        if !self.strays {
            return None;
        }
        first_stray(self.setting.points(), self.setting.homes(), &self.floor)
    }

    /// The cells at which the agent may park.
    pub fn allowed(&self, alloc: Global, agent: u32) -> Result<Vec<Cell>, AllocError>
        requires { agent < length self.now.state.paths }
        ensures { IfOk result (λ cells. (cell : Place) → Contains cells.items cell ↔ IsAllowed self.now.site self.now.state agent cell) }
    {
        free_points(
            alloc,
            self.setting.points(),
            self.setting.homes(),
            self.strays,
            &self.floor,
            agent,
        )
    }
}

/// Whether an agent is not on its way.
pub(crate) fn has_stray(setting: &Setting, floor: &FleetState) -> bool
    requires { IsBeginning setting.now floor.now.state }
    ensures { result ≡ false → AllOnTheirWays setting.now floor.now.state }
{
    first_stray(setting.points(), setting.homes(), floor).is_some()
}
