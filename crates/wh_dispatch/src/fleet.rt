//! The vehicles of a warehouse.

ghost use Rattle.std.specs.Prelude.{◌≡◌, ◌≢◌, ℕ, ◌+◌, ◌^◌, ◌<◌, ◌≤◌, ◌++◌, ◌∷◌, [], List, Option, None, OnOk, OnErr, IfOk, IfErr, IfSome, IfNone, Bool, cond, length, true, false, Contains};
ghost use Rattle.std.specs.Io.KnownBytes.{Appends};
ghost use Rattle.wh_lines.specs.Output.{WritesFront};
ghost use Rattle.wh_event.specs.declared.entry.Entry.{Entry as Line};
ghost use Rattle.wh_replay.specs.Answers.{text_of};
ghost use Rattle.std.specs.List.{AllPairs, count_by};
ghost use Rattle.wh_drive.specs.Drives.{Drive, MayTick, opened, ticked};
ghost use Rattle.wh_order.specs.Orders.{Represents, vehicle_in};
ghost use Rattle.wh_order.specs.Settling.{IsQuiet, Settles};
ghost use Rattle.wh_vehicles.specs.Driving.{AnswersReport, TellsLate, NoneIsLate};
ghost use Rattle.wh_vehicles.specs.Plans.{places};
ghost use Rattle.wh_dispatch.specs.declared.visits.Pending.{Pending as Watched};
ghost use Rattle.wh_dispatch.specs.Crews.{AreWatched, Crew, IsManned, is_under_way};
ghost use Rattle.wh_dispatch.specs.Lines.{visit_lines};
ghost use Rattle.wh_dispatch.specs.SettingOut.{NoneIsTold, untold_of};
ghost use Rattle.wh_dispatch.specs.Visiting.{IsStanding, taken_in, taken_first, kept_first, listed, due_visits, left_after};

use crate::script::DispatchFault;
use crate::visits::{Pending, keep_left, keep_new, tell_due};
use std::alloc::{AllocError, Global};
use std::io::Write;
use std::marker::Model;
use wh_event::{Entry, Event, Reply};
use wh_grid::Cell;
use wh_order::{Told, VisitOrder};
use wh_planner::Plans;
use wh_replay::Warehouse;
use wh_tasks::Task;
use wh_vehicles::{Notice, Report, answer_report, late};

/// The vehicles of a warehouse, each at its own pace.
#[derive(Drop)]
pub struct Vehicles {
    order: VisitOrder,
    /// The clock waits while a vehicle is this many steps behind.
    bound: u64,
    /// A room for where the agents are.
    row: Vec<Cell>,
    /// What was told last.
    told: Vec<Told>,
    /// The tasks of which not all visits were told, in the order in which they were taken.
    pending: Vec<Pending>,
}

impl Model for Vehicles {
    ghost use Rattle.wh_dispatch.specs.Crews.{Crew};

    ghost Value = { Crew };

    ghost use Rattle.std.specs.Prelude.{vec_capacity};

    ghost view = { λ v. record {
      order = v.order;
      bound = v.bound;
      told = v.told.items;
      row = v.row.items;
      pending = v.pending.items;
      room = vec_capacity v.pending;
    } };
}

/// Where the agents are.
fn row_of<P: Plans>(alloc: Global, warehouse: &Warehouse<P>) -> Result<Vec<Cell>, AllocError>
    ensures { IfOk result (λ row. row.items ≡ places warehouse.now.book.state) }
{
    let mut row = Vec::new(alloc);
    for agent in 0..warehouse.agents() {
        row.push(warehouse.cell(agent))?;
    }
    Ok(row)
}

/// Writes over a row where the agents are.
fn write_row<P: Plans>(row: &mut Vec<Cell>, warehouse: &Warehouse<P>)
    requires { length row.old.items ≡ length warehouse.now.book.state.paths }
    ensures { row.new.items ≡ places warehouse.now.book.state }
{
    for agent in 0..warehouse.agents() {
        row[agent as usize] = warehouse.cell(agent);
    }
}

/// The task, to be kept as one of which no visit was told, if an agent has it.
fn untold(n: u32, task: &Task) -> Option<Pending>
    ensures { result ≡ untold_of n task.now }
{
    match task.agent {
        None => None,
        Some(agent) => Some(Pending {
            agent,
            task: n,
            stops: task.stops.as_slice().len() as u32,
            told: 0,
        }),
    }
}

/// Adds a task as one of which no visit was told, if an agent has it.
fn add_untold(row: &mut Vec<Pending>, n: u32, task: &Task) -> Result<(), AllocError>
    ensures { OnOk result (row.new.items ≡ row.old.items ++ listed (untold_of n task.now)) }
{
    if let Some(one) = untold(n, task) {
        row.push(one)?;
    }
    Ok(())
}

/// How many tasks there are.
fn task_count<P: Plans>(warehouse: &Warehouse<P>) -> u32
    ensures { result ≡ length warehouse.now.book.state.tasks }
{
    warehouse.book().tasks().len()
}

/// All tasks that agents have, to be kept as if no visit had been told.
fn all_untold<P: Plans>(alloc: Global, warehouse: &Warehouse<P>) -> Result<Vec<Pending>, AllocError>
    ensures { IfOk result (λ row. AreWatched warehouse.now.book.state NoneIsTold row.items) }
{
    let mut row = Vec::new(alloc);
    for n in 0..task_count(warehouse) {
        add_untold(&mut row, n, warehouse.task(n))?;
    }
    Ok(row)
}

/// The task that an agent takes by an entry, but for its stops.
fn taken_by(entry: &Entry) -> Option<Pending>
    ensures { result ≡ taken_in entry.now.reply entry.now.event }
{
    match &entry.event {
        Event::Request { agent } => match &entry.reply {
            Reply::Took { task, .. } => Some(Pending {
                agent: *agent,
                task: *task,
                stops: 0,
                told: 0,
            }),
            _ => None,
        },
        _ => None,
    }
}

/// The same of the last entry of a history.
fn taken_last(history: &[Entry]) -> Option<Pending>
    ensures { (front : List Line) (entry : Line) → history.now ≡ front ++ entry ∷ [] → result ≡ taken_in entry.reply entry.event }
{
    match history {
        [.., entry] => taken_by(entry),
        [] => None,
    }
}

/// The task that an agent took by the last of the warehouse's entries, if there are more than before.
fn taken_behind<P: Plans>(warehouse: &Warehouse<P>, before: usize) -> Option<Pending>
    ensures { (front more : List Line) → warehouse.now.book.history ≡ front ++ more → length front ≡ before → length more ≤ 1 → taken_first more warehouse.now.book.state.tasks ≡ result }
{
    let history = warehouse.history();
    if history.len() <= before {
        return None;
    }
    match taken_last(history) {
        None => None,
        Some(one) => {
            let stops = warehouse.task(one.task).stops.as_slice().len() as u32;
            Some(Pending { stops, ..one })
        }
    }
}

impl Vehicles {
    /// A vehicle for each agent of a warehouse that has no entry yet, where the agent is. Steps count from the clock with which the
    /// warehouse begins; visits that tasks have by then were told before. The clock waits while a vehicle is `behind` steps or more
    /// behind; each may be told `ahead` cells ahead.
    pub fn open<P: Plans>(
        alloc: Global,
        warehouse: &Warehouse<P>,
        behind: u64,
        ahead: u64,
    ) -> Result<Vehicles, AllocError>
        requires opening { warehouse.now.book.history ≡ [] }
        requires some { 1 ≤ ahead }
        ensures manned { IfOk result (λ v. IsManned warehouse.now.book v (opened warehouse.now.book.site.layout.nofollow ahead (places warehouse.now.book.state))) }
        ensures bound { IfOk result (λ v. v.bound ≡ behind) }
    {
        let _agents = warehouse.agents();
        let _opening = warehouse.history();
        let row = row_of(alloc, warehouse)?;
        let order = VisitOrder::open(alloc, row.as_slice(), ahead)?;
        let mut told = Vec::new(alloc);
        told.reserve(row.len())?;
        let mut pending = all_untold(alloc, warehouse)?;
        keep_left(&mut pending, warehouse, &order);
        Ok(Vehicles {
            order,
            bound: behind,
            row,
            told,
            pending,
        })
    }

    /// The vehicles of a warehouse that goes on, by the order of their visits, as if none had been told. The clock waits while one
    /// is `bound` steps or more behind.
    pub fn stand<P: Plans>(
        alloc: Global,
        warehouse: &Warehouse<P>,
        order: VisitOrder,
        bound: u64,
    ) -> Result<Vehicles, AllocError>
        ensures order { IfOk result (λ v. v.order ≡ order) }
        ensures untold { IfOk result (λ v. AreWatched warehouse.now.book.state NoneIsTold v.pending) }
        ensures bound { IfOk result (λ v. v.bound ≡ bound) }
    {
        let row = row_of(alloc, warehouse)?;
        let mut told = Vec::new(alloc);
        told.reserve(row.len())?;
        let pending = all_untold(alloc, warehouse)?;
        Ok(Vehicles {
            order,
            bound,
            row,
            told,
            pending,
        })
    }

    /// The order of their visits.
    pub fn order(&self) -> &VisitOrder
        ensures { result.now ≡ self.now.order }
    {
        &self.order
    }

    /// The reply to a report.
    pub(crate) fn hear(&mut self, report: Report) -> Notice
        ensures drive { (d : Drive) → Represents self.old.order d → (e : Drive) × AnswersReport d report result e × Represents self.new.order e }
        ensures others { self.new ≡ record self.old { order = self.new.order } }
    {
        answer_report(&mut self.order, report)
    }

    /// Why the clock may not go on yet.
    pub(crate) fn late(&self) -> Option<Notice>
        ensures some { IfSome result (TellsLate self.now.order self.now.bound) }
        ensures none { IfNone result (NoneIsLate self.now.order self.now.bound) }
    {
        late(&self.order, self.bound)
    }

    /// Makes room for the next tick, which then cannot fail.
    pub(crate) fn reserve<P: Plans>(
        &mut self,
        alloc: Global,
        warehouse: &Warehouse<P>,
    ) -> Result<(), AllocError>
        ensures ok { OnOk result (self.new.order ≡ record self.old.order { ready = true }) }
        ensures row { OnOk result (length self.new.row ≡ length warehouse.now.book.state.paths) }
        ensures err { OnErr result ((ready : Bool) × (self.new.order ≡ record self.old.order { ready = ready })) }
        ensures bound { self.new.bound ≡ self.old.bound }
        ensures pending { self.new.pending ≡ self.old.pending }
    {
        self.row = row_of(alloc, warehouse)?;
        self.order.reserve()
    }

    /// The plan has gone on to where the agents are.
    pub(crate) fn tick<P: Plans>(&mut self, warehouse: &Warehouse<P>)
        requires ready { self.old.order.ready ≡ true }
        requires fits { self.old.order.clock + 1 < 2 ^ 64 }
        requires row { length self.old.row ≡ length warehouse.now.book.state.paths }
        requires all { length warehouse.now.book.state.paths ≡ length self.old.order.vehicles }
        requires differ { AllPairs (λ a b. a ≢ b) (places warehouse.now.book.state) }
        ensures drive { (d : Drive) → Represents self.old.order d → MayTick d (places warehouse.now.book.state) → Represents self.new.order (ticked (places warehouse.now.book.state) d) }
        ensures bound { self.new.bound ≡ self.old.bound }
        ensures pending { self.new.pending ≡ self.old.pending }
    {
        write_row(&mut self.row, warehouse);
        self.order.tick(self.row.as_slice());
    }

    /// All that may be told to vehicles is told, and kept.
    pub(crate) fn settle(&mut self) -> Result<(), AllocError>
        ensures drive { OnOk result ((d : Drive) → Represents self.old.order d → Settles d self.new.order [] self.new.told) }
        ensures quiet { OnOk result ((d : Drive) → Represents self.new.order d → IsQuiet d) }
        ensures bound { self.new.bound ≡ self.old.bound }
        ensures pending { self.new.pending ≡ self.old.pending }
    {
        self.told.clear();
        self.order.settle(&mut self.told)
    }

    /// How many vehicles there are.
    fn agents(&self) -> u32
        ensures { result ≡ length self.now.order.vehicles }
    {
        self.order.agents()
    }

    /// 1 where a vehicle is on its way to a step that it was told to make, else 0.
    fn under_way(&self, agent: u32) -> u32
        requires { agent < length self.now.order.vehicles }
        ensures value { result ≡ cond (is_under_way (vehicle_in self.now.order.vehicles agent)) 1 0 }
        ensures one { result ≤ 1 }
    {
        let vehicle = self.order.vehicle(agent);
        if vehicle.reached < vehicle.told { 1 } else { 0 }
    }

    /// How many vehicles are on their way to a step that they were told to make.
    pub fn on_their_way(&self) -> u32
        ensures { result ≡ count_by is_under_way self.now.order.vehicles }
    {
        let mut count = 0u32;
        for agent in 0..self.agents() {
            count += self.under_way(agent);
        }
        count
    }

    /// Makes room for one task more, which can then be kept.
    pub(crate) fn reserve_task(&mut self) -> Result<(), AllocError>
        ensures same { self.new ≡ record self.old { room = self.new.room } }
        ensures ok { OnOk result (length self.new.pending < self.new.room) }
    {
        self.pending.reserve(1)
    }

    /// The task is kept that an agent took by the last of the warehouse's entries, if there are more than before. Whether one
    /// was taken.
    pub(crate) fn keep_taken<P: Plans>(&mut self, warehouse: &Warehouse<P>, before: usize) -> bool
        requires room { length self.old.pending < self.old.room }
        ensures pending { (front more : List Line) → warehouse.now.book.history ≡ front ++ more → length front ≡ before → length more ≤ 1 → self.new.pending ≡ self.old.pending ++ kept_first self.old.pending more warehouse.now.book.state.tasks }
        ensures same { self.new ≡ record self.old { pending = self.new.pending } }
        ensures none { result ≡ false → (front more : List Line) → warehouse.now.book.history ≡ front ++ more → length front ≡ before → length more ≤ 1 → taken_first more warehouse.now.book.state.tasks ≡ None }
    {
        match taken_behind(warehouse, before) {
            None => false,
            Some(one) => {
                keep_new(&mut self.pending, one);
                true
            }
        }
    }

    /// Tells the visits that vehicles have made and that were not told, and forgets the tasks of which none is left.
    pub(crate) fn tell_visits<W: Write, P: Plans>(
        &mut self,
        writer: &mut W,
        warehouse: &Warehouse<P>,
    ) -> Result<(), DispatchFault>
        requires stand { (p : Watched) → Contains self.old.pending p → IsStanding warehouse.now.book.state.tasks (length self.old.order.vehicles) p }
        ensures ok { OnOk result (Appends (W.contents writer.old) (W.contents writer.new) (text_of (visit_lines (due_visits warehouse.now.book.opening.clock warehouse.now.book.state.tasks self.old.order.vehicles self.old.pending)))) }
        ensures err { OnErr result (WritesFront (W.contents writer.old) (W.contents writer.new) (text_of (visit_lines (due_visits warehouse.now.book.opening.clock warehouse.now.book.state.tasks self.old.order.vehicles self.old.pending)))) }
        ensures fault { IfErr result (λ fault. fault ≡ DispatchFault.Unwritten) }
        ensures left { OnOk result (self.new.pending ≡ left_after warehouse.now.book.opening.clock warehouse.now.book.state.tasks self.old.order.vehicles self.old.pending) }
        ensures same { self.new ≡ record self.old { pending = self.new.pending; room = self.new.room } }
    {
        tell_due(writer, self.pending.as_slice(), warehouse, &self.order)?;
        keep_left(&mut self.pending, warehouse, &self.order);
        Ok(())
    }

    /// What was told last.
    pub(crate) fn told(&self) -> &[Told]
        ensures { result.now ≡ self.now.told }
    {
        self.told.as_slice()
    }
}
