//! A state, given part by part.
#![tactic(auto)]

ghost use Rattle.std.specs.Prelude.{◌≡◌, ◌≢◌, ℕ, ◌<◌, ◌≤◌, ◌++◌, ◌∷◌, [], length, IfOk, IfErr, IfNone, IfSome, OnOk, OnErr};
ghost use Rattle.wh_points.specs.Points.{IsLayout};
ghost use Rattle.wh_core.specs.Steps.{last_clock, most_tasks};
ghost use Rattle.wh_core.specs.Laws.{IsBeginning};
ghost use Rattle.wh_stand.specs.Parts.{state_of, begun, with_agent, with_task};
ghost use Rattle.wh_state.specs.Columns.{state_in};
ghost use Rattle.wh_stand.specs.TaskFlaws.{IsInForm, IsFitTask, IsTaskFlaw};
ghost use Rattle.wh_stand.specs.Flawless.{IsAgentFlaw, IsFitAgent, NoneHasPaths, NoneHasTasks, Told};

use crate::flaw::{Flaw, Refused};
use crate::motion::path_flaw;
use crate::parts::{add_agent, add_task, no_parts};
use crate::stations::Stations;
use crate::work::task_flaw;
use std::alloc::{AllocError, Global};
use std::marker::Model;
use wh_grid::Grid;
use wh_path::TimedPath;
use wh_points::Points;
use wh_state::StateParts;
use wh_tasks::Task;

/// Takes a state part by part: agent by agent, then task by task, each by its number from 0. A part is refused, by its
/// first flaw, if no sound state has it behind the parts before it.
#[derive(Drop)]
pub struct StateBuilder<'a> {
    grid: &'a Grid,
    stations: Stations<'a>,
    homes: bool,
    parts: StateParts,
}

impl<'a> Model for StateBuilder<'a> {
    ghost use Rattle.wh_stand.specs.Parts.{Built, parts_of};
    ghost use Rattle.wh_state.specs.Columns.{state_in};
    ghost use Rattle.wh_stand.specs.Building.{IsWell};

    ghost Value = { Built };

    ghost view = { λ b. record {
      site = record { grid = b.grid.now; layout = b.stations; homes = b.homes };
      parts = parts_of (state_in b.parts);
    } };

    ghost invariant = { λ b. IsWell (record { grid = b.grid.now; layout = b.stations; homes = b.homes }) (state_in b.parts) };
}

impl<'a> StateBuilder<'a> {
    /// No part yet of a state over the grid and its points, where paths go on home or not, at a clock of at most
    /// 1,000,000,000, and closed or not.
    ///
    /// Error: `AllocError` when out of memory. It needs memory for the stations' cells.
    pub fn begin(
        alloc: Global,
        grid: &'a Grid,
        points: &'a Points,
        homes: bool,
        clock: u32,
        closed: bool,
    ) -> Result<StateBuilder<'a>, AllocError>
        requires layout { IsLayout grid.now points.now }
        requires clock { clock ≤ last_clock }
        ensures { IfOk result (λ builder. builder ≡ record { site = record { grid = grid.now; layout = points.now; homes = homes }; parts = begun clock closed }) }
    {
        let stations = Stations::of(alloc, points)?;
        Ok(StateBuilder {
            grid,
            stations,
            homes,
            parts: no_parts(alloc, clock, closed),
        })
    }

    /// Begins again, at this clock of at most 1,000,000,000, and closed or not: no part was taken then.
    pub fn begin_again(&mut self, alloc: Global, clock: u32, closed: bool)
        requires clock { clock ≤ last_clock }
        ensures { self.new ≡ record { site = self.old.site; parts = begun clock closed } }
    {
        self.parts = no_parts(alloc, clock, closed);
    }

    /// How many agents the points have.
    pub fn all_agents(&self) -> usize
        ensures { result ≡ length self.now.site.layout.agents }
    {
        self.stations.points().agents().len()
    }

    /// How many agents were taken: no more than the points have.
    pub fn agents(&self) -> usize
        ensures value { result ≡ length self.now.parts.paths }
        ensures few { result ≤ length self.now.site.layout.agents }
    {
        self.parts.paths.len()
    }

    /// How many tasks were taken: no more than 1,000,000.
    pub fn tasks(&self) -> usize
        ensures value { result ≡ length self.now.parts.tasks }
        ensures few { result ≤ most_tasks }
    {
        self.parts.tasks.len()
    }

    /// Takes the next agent: the slots of its planner, and its path from now on, with a cell for each step. The path is
    /// compared with that of each agent before it.
    ///
    /// Error: `NoMemory`, or the first flaw, in this order: `Agents`, the points have no more; `Blocked`; `NoStep`;
    /// `Conflict`. Nothing changes then.
    pub fn add_agent(&mut self, slots: u32, path: TimedPath) -> Result<(), Refused>
        ensures taken { OnOk result (self.new ≡ record { site = self.old.site; parts = with_agent slots path self.old.parts }) }
        ensures fit { OnOk result (IsFitAgent self.old.site self.old.parts path) }
        ensures kept { OnErr result (self.new ≡ self.old) }
        // Which flaw it is.
        ensures flaw { IfErr result (Told (IsAgentFlaw self.old.site self.old.parts path)) }
        // Nothing is refused that a sound state has.
        ensures complete { IfErr result (Told (λ flaw. NoneHasPaths self.old.site (self.old.parts.paths ++ path ∷ []))) }
    {
        if let Some(flaw) = self.agent_flaw(&path) {
            drop(path);
            return Err(Refused::Flaw(flaw));
        }
        add_agent(&mut self.parts, slots, path)?;
        Ok(())
    }

    /// Takes the next task, once the agents were taken. It takes constant time.
    ///
    /// Error: `NoMemory`, or the first flaw, in this order: `NoStation`; `Clocks`; `UnknownAgent`; `HasAnother`;
    /// `AtItsNextStop`. Nothing changes then.
    pub fn add_task(&mut self, task: Task) -> Result<(), Refused>
        requires form { IsInForm task }
        requires room { length self.old.parts.tasks < most_tasks }
        ensures taken { OnOk result (self.new ≡ record { site = self.old.site; parts = with_task task self.old.parts }) }
        ensures fit { OnOk result (IsFitTask self.old.site.layout self.old.parts task) }
        ensures kept { OnErr result (self.new ≡ self.old) }
        // Which flaw it is.
        ensures flaw { IfErr result (Told (IsTaskFlaw self.old.site.layout self.old.parts task)) }
        // Nothing is refused that a sound state has.
        ensures complete { IfErr result (Told (λ flaw. NoneHasTasks self.old.site (with_task task self.old.parts))) }
    {
        if let Some(flaw) = self.flaw_of(&task) {
            drop(task);
            return Err(Refused::Flaw(flaw));
        }
        add_task(&mut self.parts, task)?;
        Ok(())
    }

    /// The whole state, with the loads that its tasks tell. A run may begin with it.
    ///
    /// Error: `Agents`, if there are fewer agents than the points have.
    pub fn finish(self) -> Result<StateParts, Flaw>
        ensures state { IfOk result (λ whole. state_in whole ≡ state_of self.entry.parts) }
        ensures beginning { IfOk result (λ whole. IsBeginning self.entry.site (state_in whole)) }
        ensures flaw { IfErr result (λ flaw. (flaw ≡ Flaw.Agents) × (length self.entry.parts.paths ≢ length self.entry.site.layout.agents)) }
    {
        if self.parts.paths.len() != self.stations.points().agents().len() {
            drop(self);
            return Err(Flaw::Agents);
        }
        let StateBuilder {
            grid: _,
            stations,
            homes: _,
            parts,
        } = self;
        drop(stations);
        Ok(parts)
    }

    /// The first flaw of the next agent.
    fn agent_flaw(&self, path: &TimedPath) -> Option<Flaw>
        ensures none { IfNone result (IsFitAgent self.now.site self.now.parts path.now) }
        ensures some { IfSome result (IsAgentFlaw self.now.site self.now.parts path.now) }
    {
        let points = self.stations.points();
        if self.parts.paths.len() >= points.agents().len() {
            return Some(Flaw::Agents);
        }
        path_flaw(self.grid, points.nofollow(), &self.parts.paths, path)
    }

    /// The first flaw of the next task.
    fn flaw_of(&self, task: &Task) -> Option<Flaw>
        requires form { IsInForm task.now }
        requires room { length self.now.parts.tasks < most_tasks }
        ensures none { IfNone result (IsFitTask self.now.site.layout self.now.parts task.now) }
        ensures some { IfSome result (IsTaskFlaw self.now.site.layout self.now.parts task.now) }
    {
        task_flaw(&self.stations, &self.parts, task)
    }
}
