//! The tasks in order of arrival.
#![tactic(auto)]

ghost use Rattle.std.specs.Prelude.{◌≡◌, ℕ, ◌+◌, ◌-◌, ◌<◌, ◌≤◌, ◌↔◌, ◌≢◌, List, [], ◌∷◌, ◌++◌, length, IsTrue, IfOk, IfSome, IfNone, OnOk, OnErr, All, Contains, slice_get, slice_index, slice_index_or, Some, None, max, remove, slice_set, MatchOption};
ghost use Rattle.wh_tasks.specs.Tasks.{IsTask, IsOpen, phase, delivery};
ghost use Rattle.wh_tasks.specs.Bars.{AreOthers, IsBar, AreClear, AreBars, AreOpenStops, AreBarredAt, AreBarsBut, bar_of};
ghost use Rattle.wh_tasks.specs.CellLists.{StandsAt};
ghost use Rattle.wh_tasks.specs.Choice.{IsEligible, IsNearest, NoneEligible};
ghost use Rattle.wh_tasks.specs.Firsts.{earliest, AreSought, AreFound, IsFirst, IsFirstWithin, NoneWithin, FirstWithin};
ghost use Rattle.wh_tasks.specs.Changes.{fresh, assigned, visited_once, visit_of, IsUnderway, IsInTime, IsOrderly, counts_of};
ghost use Rattle.wh_tasks.specs.Visiting.{IsGoing};
ghost use Rattle.wh_tasks.specs.declared.task.Task.{Task as Job};
ghost use Rattle.wh_grid.specs.declared.cell.Cell.{Cell as Place};

use crate::cell_lists::CellLists;
use crate::distances::Distances;
use crate::ends::{EndSet, PathEnds};
use crate::number_set::NumberSet;
use crate::task::{Counts, Phase, Places, Task, Visit, Visits};
use std::alloc::{AllocError, Global};
use std::marker::Model;
use wh_grid::Cell;
use wh_text::Name;

/// The tasks in order of arrival, and where the agents' paths end. Beside them it keeps how many are in each phase, the
/// stops of the open tasks listed by cell, for each task the number of its first stop there and one of its stops at which a
/// path ends, its bar, and which of the open tasks have no bar.
#[derive(Drop)]
pub struct TaskSet {
    pub(crate) tasks: Vec<Task>,
    pub(crate) counts: Counts,
    ends: PathEnds,
    stops: CellLists,
    pub(crate) firsts: Vec<u32>,
    pub(crate) bars: Vec<Option<Cell>>,
    pub(crate) clear: NumberSet,
    pub(crate) is_reserved: bool,
}

impl Model for TaskSet {
    ghost use Rattle.std.specs.Prelude.{◌-◌, IsTrue, cond, vec_capacity, vec_len};
    ghost use Rattle.wh_tasks.specs.Sets.{Stored, IsIndexed, HasRoom};

    ghost Value = { Stored };

    ghost view = { λ s. record {
      tasks = s.tasks.items;
      room = cond s.is_reserved 1 0;
      ends = s.ends;
    } };

    ghost invariant = { λ s. IsIndexed s.tasks.items s.counts s.ends s.stops.stops s.firsts.items s.bars.items s.clear × (IsTrue s.is_reserved → HasRoom (vec_capacity s.tasks - vec_len s.tasks) (vec_capacity s.firsts - vec_len s.firsts) (vec_capacity s.bars - vec_len s.bars) s.stops.room s.clear.room) };
}

/// Between which numbers the tasks are that may be chosen.
#[derive(Clone, Copy)]
struct Eligible {
    first: Option<u32>,
    last: u32,
}

impl Eligible {
    /// None may be chosen.
    fn none() -> Eligible
        ensures first { result.first ≡ None }
        ensures last { result.last ≡ 0 }
    {
        Eligible {
            first: None,
            last: 0,
        }
    }

    /// One more may be chosen.
    fn with(self, n: u32) -> Eligible
        ensures first { result.first ≡ earliest self.first n }
        ensures last { result.last ≡ max self.last n }
    {
        Eligible {
            first: first_of(self.first, n),
            last: self.last.max(n),
        }
    }
}

impl TaskSet {
    /// No task, on a grid of these sides, where the paths have these ends. Fails when out of memory.
    pub fn new(
        alloc: Global,
        width: u16,
        height: u16,
        ends: PathEnds,
    ) -> Result<TaskSet, AllocError>
        ensures tasks { IfOk result (λ set. set.tasks ≡ []) }
        ensures ends { IfOk result (λ set. set.ends ≡ ends) }
    {
        let stops = CellLists::none(alloc, width, height)?;
        Ok(TaskSet {
            tasks: Vec::new(alloc),
            counts: Counts::none(),
            ends,
            stops,
            firsts: Vec::new(alloc),
            bars: Vec::new(alloc),
            clear: NumberSet::none(alloc),
            is_reserved: false,
        })
    }

    /// Makes room for one task. Fails when out of memory, and only where there was no room.
    pub fn reserve(&mut self, _alloc: Global) -> Result<(), AllocError>
        ensures tasks { self.new.tasks ≡ self.old.tasks }
        ensures kept { self.old.room ≤ self.new.room }
        ensures room { OnOk result (1 ≤ self.new.room) }
        ensures full { OnErr result (self.old.room ≡ 0) }
        ensures ends { self.new.ends ≡ self.old.ends }
    {
        if !self.is_reserved {
            self.tasks.reserve(1)?;
            self.firsts.reserve(1)?;
            self.bars.reserve(1)?;
            self.stops.reserve()?;
            self.clear.reserve()?;
            self.is_reserved = true;
        }
        Ok(())
    }

    /// Whether there is room for one task.
    pub fn room(&self) -> bool
        ensures { IsTrue result ↔ (1 ≤ self.now.room) }
    {
        self.is_reserved
    }

    /// How many tasks there are.
    pub fn len(&self) -> u32
        ensures count { result ≡ length self.now.tasks }
        ensures few { result ≤ 1000000 }
    {
        self.tasks.len() as u32
    }

    /// The task of a number.
    pub fn task(&self, n: u32) -> &Task
        requires { n < length self.now.tasks }
        ensures task { IsTask self.now.tasks n result.now }
        ensures orderly { IsOrderly result.now }
    {
        &self.tasks[n as usize]
    }

    /// How far the task of a number has come.
    pub fn phase(&self, n: u32) -> Phase
        requires { n < length self.now.tasks }
        ensures { (task : Job) × IsTask self.now.tasks n task × (result ≡ phase task) }
    {
        self.task(n).phase()
    }

    /// Whether the task of a number stands, and no agent has it.
    pub fn is_open(&self, n: u32) -> bool
        ensures { IsTrue result ↔ ((task : Job) × IsTask self.now.tasks n task × IsOpen task) }
    {
        match self.tasks.get(n as usize) {
            None => false,
            Some(task) => task.agent.is_none(),
        }
    }

    /// Whether an open task is to be delivered at the cell. It looks at the open tasks that stop there, as far as the first
    /// that ends there.
    pub fn delivers_at(&self, cell: Cell) -> bool
        ensures { IsTrue result ↔ ((n : ℕ) × (task : Job) × IsTask self.now.tasks n task × IsOpen task × (delivery task ≡ cell)) }
    {
        let mut at = self.stops.first(cell);
        while let Some(k) = at {
            let task = &self.tasks[self.stops.task(k) as usize];
            if task.delivery().is(cell) {
                return true;
            }
            at = self.stops.next(k, cell);
        }
        false
    }

    /// Whether an open task has a stop at the cell, and so also where one is to be delivered there. It takes constant time,
    /// if the cell is inside the grid; else it looks at the stops outside.
    pub fn stops_at(&self, cell: Cell) -> bool
        ensures stop { IsTrue result ↔ ((n : ℕ) × (task : Job) × IsTask self.now.tasks n task × IsOpen task × Contains task.stops cell) }
        ensures delivery { ((n : ℕ) × (task : Job) × IsTask self.now.tasks n task × IsOpen task × (delivery task ≡ cell)) → IsTrue result }
    {
        self.stops.first(cell).is_some()
    }

    /// How many tasks are in each phase.
    pub fn counts(&self) -> Counts
        ensures { result ≡ counts_of self.now.tasks }
    {
        self.counts
    }

    /// Adds an open task, and returns its number. It takes no memory.
    pub fn submit(&mut self, client: Name, stops: Places, clock: u32) -> u32
        requires room { 1 ≤ self.old.room }
        requires few { length self.old.tasks < 1000000 }
        ensures number { result ≡ length self.old.tasks }
        ensures tasks { self.new.tasks ≡ self.old.tasks ++ fresh client stops clock ∷ [] }
        ensures room { self.new.room + 1 ≡ self.old.room }
        ensures ends { self.new.ends ≡ self.old.ends }
    {
        let n = self.tasks.len() as u32;
        let bar = first_end(stops.as_slice(), &self.ends);
        self.clear.grow();
        if bar.is_none() {
            self.clear.insert(n);
        }
        self.bars.push_reserved(bar);
        self.firsts.push_reserved(self.stops.len());
        self.stops.push_all(n, stops.as_slice());
        self.tasks.push_reserved(Task {
            client,
            stops,
            submitted: clock,
            agent: None,
            visits: Visits::none(),
        });
        self.counts.add(Phase::Open);
        self.is_reserved = false;
        n
    }

    /// Whether an agent may choose the task of a number, where the others' paths have these ends.
    pub fn eligible(&self, n: u32, ends: &EndSet) -> bool
        ensures { IsTrue result ↔ ((task : Job) × IsEligible self.now.tasks ends.now n task) }
    {
        match self.tasks.get(n as usize) {
            None => false,
            Some(task) => task.agent.is_none() && none_in(task.stops.as_slice(), ends),
        }
    }

    /// The ends of the paths of all agents but this one. It takes constant time.
    pub fn other_ends(&self, agent: u32) -> EndSet<'_>
        requires { agent < length self.now.ends }
        ensures { result ≡ remove self.now.ends agent }
    {
        self.ends.but(agent)
    }

    /// The path of an agent ends at this cell from now on. It looks at the open tasks that stop there, and at those that
    /// stop where that path ended before if none ends there any more. It takes no memory.
    pub fn set_end(&mut self, agent: u32, cell: Cell)
        requires { agent < length self.old.ends }
        ensures tasks { self.new.tasks ≡ self.old.tasks }
        ensures room { self.new.room ≡ self.old.room }
        ensures ends { self.new.ends ≡ slice_set self.old.ends agent cell }
    {
        let before = self.ends.end(agent);
        self.ends.set(agent, cell);
        bar_at(&mut self.bars, &mut self.clear, &self.stops, cell);
        if !self.ends.is_end(before) {
            bar_again(
                &mut self.bars,
                &mut self.clear,
                &self.stops,
                &self.tasks,
                &self.ends,
                before,
            );
        }
    }

    /// Whether it is known at once that the agent may choose no task, and ends where none is to be delivered: at a stop of
    /// each open task a path ends, and none stops where the agent's own path ends. It takes constant time, if that lies on
    /// the grid.
    #[inline(always)]
    pub fn has_none_for(&self, agent: u32) -> bool
        requires { agent < length self.now.ends }
        ensures none { IsTrue result → NoneEligible self.now.tasks (remove self.now.ends agent) }
        ensures away { IsTrue result → (own : Place) → slice_index_or self.now.ends agent own ≡ own → ((n : ℕ) × (task : Job) × IsTask self.now.tasks n task × IsOpen task × (delivery task ≡ own)) → ⊥ }
    {
        self.clear.as_slice().is_empty() && !self.stops_at(self.ends.end(agent))
    }

    /// The task that the agent may choose whose first stop is nearest; the first of several. It looks at the open tasks
    /// at whose stops no path ends, and at those that stop where the agent's own path ends, and twice if several may be
    /// chosen: first it seeks the first stops of those that may be chosen, then it takes the first of those as near as the
    /// nearest. If just one may be chosen the field is not used. It is not filled any farther.
    pub fn nearest<F: Distances>(&self, field: &mut F, agent: u32) -> Option<u32>
        requires { agent < length self.now.ends }
        ensures none { IfNone result (NoneEligible self.now.tasks (remove self.now.ends agent)) }
        ensures nearest { IfSome result (λ n. (task : Job) × IsNearest (F.grid field.old) self.now.tasks (remove self.now.ends agent) (F.source field.old) n task) }
        ensures grid { F.grid field.new ≡ F.grid field.old }
        ensures source { F.source field.new ≡ F.source field.old }
    {
        if self.has_none_for(agent) {
            return None;
        }
        let own = self.ends.end(agent);
        let ends = self.other_ends(agent);
        let found = self.seek(field, own, &ends);
        let Some(first) = found.first else {
            return None;
        };
        if first == found.last {
            return Some(first);
        }
        match field.first_sought() {
            None => Some(first),
            Some(steps) => self.first_within(field, own, &ends, steps),
        }
    }

    /// From now on the field seeks the first stops of the tasks that may be chosen, and no other cell. Returns between which
    /// numbers these tasks are.
    fn seek<F: Distances>(&self, field: &mut F, own: Cell, ends: &EndSet) -> Eligible
        requires others { AreOthers own self.now.ends ends.now }
        ensures none { IfNone result.first (NoneEligible self.now.tasks ends.now) }
        ensures first { IfSome result.first (λ n. (task : Job) × IsFirst self.now.tasks ends.now n task) }
        ensures last { (n : ℕ) → (task : Job) → IsEligible self.now.tasks ends.now n task → n ≤ result.last }
        ensures sought { AreSought (F.grid field.old) self.now.tasks ends.now (F.sought field.new) }
        ensures grid { F.grid field.new ≡ F.grid field.old }
        ensures source { F.source field.new ≡ F.source field.old }
    {
        field.seek_none();
        let found = self.seek_clear(field);
        self.seek_beside(field, own, ends, found)
    }

    /// Where no cell is sought yet, the field seeks the first stops of the tasks without a bar: those that may be chosen
    /// where each path's end counts.
    fn seek_clear<F: Distances>(&self, field: &mut F) -> Eligible
        requires { (c : Place) → IsTrue (F.sought field.old c) → ⊥ }
        ensures found { AreFound (F.grid field.old) self.now.tasks self.now.ends (F.sought field.new) result.first result.last }
        ensures grid { F.grid field.new ≡ F.grid field.old }
        ensures source { F.source field.new ≡ F.source field.old }
    {
        let mut found = Eligible::none();
        for n in self.clear.as_slice() {
            field.seek(self.task(*n).pickup());
            found = found.with(*n);
        }
        found
    }

    /// And so are those of the tasks that stop where the agent's own path ends, if no other path ends at their stops.
    fn seek_beside<F: Distances>(
        &self,
        field: &mut F,
        own: Cell,
        ends: &EndSet,
        found: Eligible,
    ) -> Eligible
        requires others { AreOthers own self.now.ends ends.now }
        requires found { AreFound (F.grid field.old) self.now.tasks self.now.ends (F.sought field.old) found.first found.last }
        ensures found { AreFound (F.grid field.old) self.now.tasks ends.now (F.sought field.new) result.first result.last }
        ensures grid { F.grid field.new ≡ F.grid field.old }
        ensures source { F.source field.new ≡ F.source field.old }
    {
        let mut found = found;
        let mut at = self.stops.first(own);
        while let Some(k) = at {
            let n = self.stops.task(k);
            let task = self.task(n);
            if none_in(task.stops.as_slice(), ends) {
                field.seek(task.pickup());
                found = found.with(n);
            }
            at = self.stops.next(k, own);
        }
        found
    }

    /// The first of the tasks that may be chosen and are at most so far away.
    fn first_within<F: Distances>(
        &self,
        field: &mut F,
        own: Cell,
        ends: &EndSet,
        limit: u32,
    ) -> Option<u32>
        requires others { AreOthers own self.now.ends ends.now }
        ensures none { IfNone result (NoneWithin (F.grid field.old) self.now.tasks ends.now (F.source field.old) limit) }
        ensures first { IfSome result (λ n. (task : Job) × IsFirstWithin (F.grid field.old) self.now.tasks ends.now (F.source field.old) limit n task) }
        ensures grid { F.grid field.new ≡ F.grid field.old }
        ensures source { F.source field.new ≡ F.source field.old }
    {
        let found = self.clear_within(field, limit);
        self.beside_within(field, own, ends, limit, found)
    }

    /// The first of those without a bar.
    fn clear_within<F: Distances>(&self, field: &mut F, limit: u32) -> Option<u32>
        ensures found { FirstWithin (F.grid field.old) self.now.tasks self.now.ends (F.source field.old) limit result }
        ensures grid { F.grid field.new ≡ F.grid field.old }
        ensures source { F.source field.new ≡ F.source field.old }
    {
        let mut found = None;
        for n in self.clear.as_slice() {
            if field.within(self.task(*n).pickup(), limit).is_some() {
                found = first_of(found, *n);
            }
        }
        found
    }

    /// The first of these and of those that stop where the agent's own path ends.
    fn beside_within<F: Distances>(
        &self,
        field: &mut F,
        own: Cell,
        ends: &EndSet,
        limit: u32,
        found: Option<u32>,
    ) -> Option<u32>
        requires others { AreOthers own self.now.ends ends.now }
        requires found { FirstWithin (F.grid field.old) self.now.tasks self.now.ends (F.source field.old) limit found }
        ensures found { FirstWithin (F.grid field.old) self.now.tasks ends.now (F.source field.old) limit result }
        ensures grid { F.grid field.new ≡ F.grid field.old }
        ensures source { F.source field.new ≡ F.source field.old }
    {
        let mut found = found;
        let mut at = self.stops.first(own);
        while let Some(k) = at {
            let n = self.stops.task(k);
            let task = self.task(n);
            if none_in(task.stops.as_slice(), ends)
                && field.within(task.pickup(), limit).is_some()
            {
                found = first_of(found, n);
            }
            at = self.stops.next(k, own);
        }
        found
    }

    /// Gives an open task to an agent. It takes no memory.
    pub fn assign(&mut self, n: u32, agent: u32)
        requires { (task : Job) × IsTask self.old.tasks n task × IsOpen task }
        ensures tasks { (task : Job) × IsTask self.old.tasks n task × (self.new.tasks ≡ slice_set self.old.tasks n (assigned agent task)) }
        ensures room { self.old.room ≤ self.new.room }
        ensures ends { self.new.ends ≡ self.old.ends }
    {
        let task = &mut self.tasks[n as usize];
        task.agent = Some(agent);
        let count = task.stops.as_slice().len();
        self.stops.take_all(self.firsts[n as usize], count);
        self.counts.assign();
        if self.bars[n as usize].is_none() {
            self.clear.remove(n);
        }
    }

    /// Whether the next stop of a task may be visited at this clock: a stop of it is left, an agent has it, and none of its
    /// clocks is later.
    pub fn may_visit(&self, n: u32, clock: u32) -> bool
        ensures visit { IsTrue result ↔ ((task : Job) × IsUnderway self.now.tasks n task × IsInTime clock task) }
        ensures arrive { IsTrue result ↔ ((task : Job) × IsGoing self.now.tasks n 1 task × IsInTime clock task) }
    {
        match self.tasks.get(n as usize) {
            None => false,
            Some(task) => task.is_underway() && task.is_in_time(clock),
        }
    }

    /// The next stop of a task is visited at this clock. It takes no memory.
    pub fn visit(&mut self, n: u32, clock: u32) -> Visit
        requires underway { (task : Job) × IsUnderway self.old.tasks n task × IsInTime clock task }
        ensures tasks { (task : Job) × IsTask self.old.tasks n task × (self.new.tasks ≡ slice_set self.old.tasks n (visited_once clock task)) }
        ensures visit { (task : Job) × IsTask self.old.tasks n task × (result ≡ visit_of task) }
        ensures room { self.new.room ≡ self.old.room }
        ensures ends { self.new.ends ≡ self.old.ends }
    {
        let task = &mut self.tasks[n as usize];
        let visit = task.visit(clock);
        self.counts.visit(visit);
        visit
    }
}

/// Whether none of the cells is among the ends.
fn none_in(cells: &[Cell], ends: &EndSet) -> bool
    ensures { IsTrue result ↔ All (λ cell. ¬ Contains ends.now cell) cells.now }
{
    for cell in cells {
        if ends.has(*cell) {
            return false;
        }
    }
    true
}

/// The first of the cells at which a path ends.
fn first_end(cells: &[Cell], ends: &PathEnds) -> Option<Cell>
    ensures some { IfSome result (λ cell. Contains cells.now cell × Contains ends.now cell) }
    ensures none { IfNone result (All (λ cell. ¬ Contains ends.now cell) cells.now) }
{
    for cell in cells {
        if ends.is_end(*cell) {
            return Some(*cell);
        }
    }
    None
}

/// The first of a number and one more, if there is one.
fn first_of(found: Option<u32>, n: u32) -> Option<u32>
    ensures { result ≡ earliest found n }
{
    match found {
        None => Some(n),
        Some(first) => Some(first.min(n)),
    }
}

/// Whether a task has its bar at a cell.
fn is_bar(bar: Option<Cell>, cell: Cell) -> bool
    ensures { IsTrue result ↔ (bar ≡ Some cell) }
{
    match bar {
        None => false,
        Some(bar) => bar.is(cell),
    }
}

/// The bars of the open tasks, after a path ends at a cell: a task that stops there and had no bar has it there.
fn bar_at(bars: &mut [Option<Cell>], clear: &mut NumberSet, stops: &CellLists, cell: Cell)
    requires within { (k n : ℕ) → StandsAt stops.now.stops k n cell → n < length bars.old }
    requires listed { (k n : ℕ) → StandsAt stops.now.stops k n cell → bar_of bars.old n ≡ None → Contains clear.old.members n }
    requires clear { (n : ℕ) → Contains clear.old.members n → bar_of bars.old n ≡ None }
    ensures bars { AreBarredAt stops.now.stops cell bars.old bars.new clear.old.members clear.new.members }
    ensures bound { clear.new.bound ≡ clear.old.bound }
    ensures room { clear.new.room ≡ clear.old.room }
{
    let mut at = stops.first(cell);
    while let Some(k) = at {
        let n = stops.task(k);
        if bars[n as usize].is_none() {
            bars[n as usize] = Some(cell);
            clear.remove(n);
        }
        at = stops.next(k, cell);
    }
}

/// The bars of the open tasks, where no path ends at a cell any more: a task that had its bar there has another, or none.
fn bar_again(
    bars: &mut [Option<Cell>],
    clear: &mut NumberSet,
    stops: &CellLists,
    tasks: &[Task],
    ends: &PathEnds,
    before: Cell,
)
    requires found { AreOpenStops tasks.now stops.now.stops }
    requires bars { AreBarsBut before tasks.now ends.now bars.old clear.old.members }
    requires bound { clear.old.bound ≡ length tasks.now }
    requires ended { ¬ Contains ends.now before }
    ensures bars { AreBars tasks.now ends.now bars.new clear.new.members }
    ensures bound { clear.new.bound ≡ clear.old.bound }
    ensures room { clear.new.room ≡ clear.old.room }
{
    let mut at = stops.first(before);
    while let Some(k) = at {
        let n = stops.task(k);
        if is_bar(bars[n as usize], before) {
            let bar = first_end(tasks[n as usize].stops.as_slice(), ends);
            bars[n as usize] = bar;
            if bar.is_none() {
                clear.insert(n);
            }
        }
        at = stops.next(k, before);
    }
}
