//! The judge of a log's entries.
#![tactic(auto)]

ghost use Rattle.std.specs.Prelude.{◌≡◌, ◌≤◌, true, false, IsTrue, IfOk, OnOk, OnErr, length};
ghost use Rattle.wh_points.specs.Points.{IsLayout};
ghost use Rattle.wh_core.specs.States.{State, opened};
ghost use Rattle.wh_core.specs.Steps.{Step, last_clock};
ghost use Rattle.wh_book.specs.Columns.{state_in};
ghost use Rattle.wh_core.specs.Laws.{IsBeginning, AllOnTheirWays};
ghost use Rattle.wh_judge.specs.Judged.{Decides, IsReachable, IsStep};

use crate::agents::has_stray;
use crate::instance::Instance;
use crate::plain::{close, replace, tick};
use crate::refusals::refuses;
use crate::requests::{park, rest, take};
use crate::submitting::accept;
use std::alloc::{AllocError, Global};
use std::marker::Model;
use wh_book::{FleetState, StateParts};
use wh_event::{Entry, Event, Reply};
use wh_field::LazyField;
use wh_grid::Cell;

/// Whether the event may be answered so; if so, it is done. Each arm is a line of the definition. With `strays` false all agents are on
/// their ways.
fn answer(
    alloc: Global,
    instance: &Instance,
    strays: bool,
    floor: &mut FleetState,
    near: &mut LazyField,
    event: Event,
    reply: Reply,
) -> Result<bool, AllocError>
    requires reached { IsReachable instance.now floor.old.state }
    requires ways { strays ≡ false → AllOnTheirWays instance.now floor.old.state }
    requires grid { near.old.grid ≡ instance.now.grid }
    ensures answer { IfOk result (Decides instance.now floor.old.state reply event floor.new.state) }
    ensures kept { IfOk result (λ b. b ≡ false → floor.new.state ≡ floor.old.state) }
    ensures err { OnErr result (floor.new.state ≡ floor.old.state) }
    ensures grid { near.new.grid ≡ instance.now.grid }
{
    match (reply, event) {
        (Reply::Refused(refusal), event) => {
            refuses(alloc, instance, strays, floor, near, &refusal, &event)
        }
        (Reply::Accepted { task }, Event::Submit { client, stops }) => {
            accept(alloc, instance, floor, client, stops.stops(), task)
        }
        (Reply::Took { task, path }, Event::Request { agent }) => {
            take(instance, floor, near, agent, task, path)
        }
        (Reply::Rested, Event::Request { agent }) => {
            Ok(rest(instance, strays, floor, near, agent))
        }
        (Reply::Parked { point, path }, Event::Request { agent }) => {
            park(alloc, instance, strays, floor, near, agent, &point, path)
        }
        (
            Reply::Clock {
                now,
                picked,
                dropped,
            },
            Event::Tick,
        ) => { Ok(tick(floor, now, picked, dropped)) }
        (Reply::Replaced { slots }, Event::Replace { agent, spare }) => {
            Ok(replace(floor, agent, spare, slots))
        }
        (Reply::Closed, Event::Close) => Ok(close(floor)),
        _ => Ok(false),
    }
}

/// The state of a warehouse as it opens over the instance.
fn opening(
    alloc: Global,
    instance: &Instance,
    clock: u32,
    slots: Vec<u32>,
) -> Result<FleetState, AllocError>
    requires clock { clock ≤ last_clock }
    requires seats { length slots.items ≡ length instance.now.layout.agents }
    ensures state { IfOk result (λ floor. floor.state ≡ opened instance.now.layout clock slots.items) }
    ensures reached { IfOk result (λ floor. IsReachable instance.now floor.state) }
    ensures ways { IfOk result (λ floor. AllOnTheirWays instance.now floor.state) }
{
    let _agents = instance.agents();
    let starts = instance.starts(alloc)?;
    let floor = FleetState::open(alloc, instance.grid(), clock, &starts, slots)?;
    Ok(floor)
}

/// The warehouse as a log tells it: the instance, and the state after the entries so far. Beside the state it keeps one
/// distance field, for its questions, and whether strays may be left: once all agents are on their ways they stay so.
#[derive(Drop)]
pub struct Judge<'a> {
    instance: Instance<'a>,
    floor: FleetState,
    near: LazyField,
    /// Whether strays may be left: agents that are not on their ways.
    strays: bool,
}

impl<'a> Model for Judge<'a> {
    ghost use Rattle.std.specs.Prelude.{◌≡◌, false};
    ghost use Rattle.wh_core.specs.Laws.{AllOnTheirWays};
    ghost use Rattle.wh_judge.specs.Judged.{Judged, IsReachable};

    ghost Value = { Judged };

    ghost view = { λ j. record { site = j.instance; state = j.floor.state } };

    ghost invariant = { λ j. IsReachable j.instance j.floor.state × (j.near.grid ≡ j.instance.grid) × (j.strays ≡ false → AllOnTheirWays j.instance j.floor.state) };
}

impl<'a> Judge<'a> {
    /// The warehouse as it opens, before any entry, at a clock of at most 1,000,000,000, with the slots of each agent's
    /// planner. Fails when out of memory: it needs memory for the state, with four bytes per cell for the paths' ends and
    /// four for the stops of open tasks, and twelve bytes per cell for the field.
    pub fn open(
        alloc: Global,
        instance: Instance<'a>,
        clock: u32,
        slots: Vec<u32>,
    ) -> Result<Judge<'a>, AllocError>
        requires clock { clock ≤ last_clock }
        requires seats { length slots.items ≡ length instance.layout.agents }
        ensures { IfOk result (λ judge. judge ≡ record { site = instance.entry; state = opened instance.entry.layout clock slots.items }) }
    {
        let grid = instance.grid();
        let near = LazyField::from(alloc, grid, Cell { x: 0, y: 0 })?;
        let floor = opening(alloc, &instance, clock, slots)?;
        Ok(Judge {
            instance,
            floor,
            near,
            strays: false,
        })
    }

    /// The warehouse that begins with the state of these parts, which stay as they are, before any entry. Agents may be strays there.
    /// Fails when out of memory.
    pub fn begin(
        alloc: Global,
        instance: Instance<'a>,
        parts: &StateParts,
    ) -> Result<Judge<'a>, AllocError>
        requires { IsBeginning instance (state_in parts.now) }
        ensures { IfOk result (λ judge. judge ≡ record { site = instance.entry; state = state_in parts.now }) }
    {
        let _agents = instance.agents();
        let grid = instance.grid();
        let near = LazyField::from(alloc, grid, Cell { x: 0, y: 0 })?;
        let floor = FleetState::of(alloc, grid, parts)?;
        let strays = has_stray(&instance, true, &floor);
        Ok(Judge {
            instance,
            floor,
            near,
            strays,
        })
    }

    /// Begins again with another opening. Out of memory, nothing changes.
    pub fn reopen(&mut self, alloc: Global, clock: u32, slots: Vec<u32>) -> Result<(), AllocError>
        requires clock { clock ≤ last_clock }
        requires seats { length slots.items ≡ length self.old.site.layout.agents }
        ensures ok { OnOk result (self.new ≡ record { site = self.old.site; state = opened self.old.site.layout clock slots.items }) }
        ensures err { OnErr result (self.new ≡ self.old) }
    {
        self.floor = opening(alloc, &self.instance, clock, slots)?;
        self.strays = false;
        Ok(())
    }

    /// The number of agents.
    pub fn agents(&self) -> usize
        ensures value { result ≡ length self.now.site.layout.agents }
        ensures few { result ≤ 256 }
        ensures layout { IsLayout self.now.site.grid self.now.site.layout }
    {
        let _grid = self.instance.grid();
        self.instance.agents()
    }

    /// The state.
    pub fn into_state(self) -> FleetState
        ensures { result.state ≡ self.entry.state }
    {
        let Judge {
            instance,
            floor,
            near,
            ..
        } = self;
        drop(instance);
        drop(near);
        floor
    }

    /// Whether the entry is a step from the state; if so, it is made. Fails when out of memory, where a task or a path is
    /// new or it is to be seen that there is no clear way; then the state stays.
    pub fn step(&mut self, alloc: Global, entry: Entry) -> Result<bool, AllocError>
        ensures step { IfOk result (IsStep self.old.site self.old.state entry self.new.state) }
        ensures kept { IfOk result (λ b. b ≡ false → self.new.state ≡ self.old.state) }
        ensures err { OnErr result (self.new.state ≡ self.old.state) }
        ensures site { self.new.site ≡ self.old.site }
    {
        let Entry { event, reply, .. } = entry;
        let is_step = answer(
            alloc,
            &self.instance,
            self.strays,
            &mut self.floor,
            &mut self.near,
            event,
            reply,
        )?;
        self.strays = has_stray(&self.instance, self.strays, &self.floor);
        Ok(is_step)
    }
}
