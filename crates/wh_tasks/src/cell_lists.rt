//! The stops of open tasks, listed by cell.
#![tactic(auto)]

ghost use Rattle.std.specs.Prelude.{◌≡◌, ℕ, ◌+◌, ◌*◌, ◌<◌, ◌≤◌, [], ◌∷◌, ◌++◌, length, map, IfOk, IfSome, IfNone, OnOk, slice_set};
ghost use Rattle.wh_grid.specs.declared.cell.Cell.{Cell as Place};
ghost use Rattle.wh_tasks.specs.CellLists.{StandsAt, Stands, IsLastBelow, NoneBelow, listed, taken_out, AreTakenOut, list_of, linked_at, AreNexts, Leads, AreLinked, IsNextSet, IsBeforeSet};

use crate::cell_counts::Sides;
use std::alloc::{AllocError, Global};
use std::marker::Model;
use wh_grid::Cell;

/// A stop in the list of its cell.
#[derive(Clone, Copy)]
pub(crate) struct Stop {
    /// The number of its task, plus 1; 0 once it is taken out.
    pub(crate) task: u32,
    /// The cell where it is.
    pub(crate) cell: Cell,
}

/// A stop, and those beside it in its list: each by its number, plus 1; 0 for none.
#[derive(Clone, Copy)]
struct Linked {
    stop: Stop,
    next: u32,
    before: u32,
}

/// Stops, numbered as they come, and for each cell of a grid a list of those that stand there, the latest first. All
/// cells outside the grid share one list. Putting a stop in and taking one out take constant time.
#[derive(Drop)]
pub(crate) struct CellLists {
    sides: Sides,
    heads: Vec<u32>,
    stops: Vec<Linked>,
}

impl Model for CellLists {
    ghost use Rattle.std.specs.Prelude.{◌-◌, map, vec_capacity, vec_len};
    ghost use Rattle.wh_tasks.specs.CellLists.{Listed, AreLinked};

    ghost Value = { Listed };

    ghost view = { λ l. record {
      stops = map (λ s. s.stop) l.stops.items;
      room = vec_capacity l.stops - vec_len l.stops;
    } };

    ghost invariant = { λ l. AreLinked l.sides.width l.sides.height l.heads.items l.stops.items };
}

/// The place of the list of a cell.
fn list_place(sides: Sides, cell: Cell) -> usize
    ensures value { result ≡ list_of sides.width sides.height cell }
    ensures within { result < sides.width * sides.height + 1 }
{
    match sides.place(cell) {
        Some(place) => place,
        None => sides.width as usize * sides.height as usize,
    }
}

/// The stop that a link names has another next; where it names none, the list of the cell has another head.
fn set_next(sides: Sides, heads: &mut [u32], stops: &mut [Linked], cell: Cell, link: u32, next: u32)
    requires places { sides.width * sides.height < length heads.old }
    requires within { link ≤ length stops.old }
    ensures stops { IsNextSet stops.old stops.new link next }
    ensures head { link ≡ 0 → heads.new ≡ slice_set heads.old (list_of sides.width sides.height cell) next }
    ensures kept { 0 < link → heads.new ≡ heads.old }
{
    if link > 0 {
        stops[link as usize - 1].next = next;
    } else {
        heads[list_place(sides, cell)] = next;
    }
}

/// The stop that a link names, if it names one, has another before it.
fn set_before(stops: &mut [Linked], link: u32, before: u32)
    requires { link ≤ length stops.old }
    ensures { IsBeforeSet stops.old stops.new link before }
{
    if link > 0 {
        stops[link as usize - 1].before = before;
    }
}

/// The stop of a number is taken out of its list.
fn unlink(sides: Sides, heads: &mut [u32], stops: &mut [Linked], k: usize)
    requires linked { AreLinked sides.width sides.height heads.old stops.old }
    requires stands { 0 < (linked_at stops.old k).stop.task }
    ensures linked { AreLinked sides.width sides.height heads.new stops.new }
    ensures size { length heads.new ≡ length heads.old }
    ensures stops { map (λ s. s.stop) stops.new ≡ slice_set (map (λ s. s.stop) stops.old) k (taken_out (linked_at stops.old k).stop) }
{
    let Linked { stop, next, before } = stops[k];
    set_next(sides, heads, stops, stop.cell, before, next);
    set_before(stops, next, before);
    stops[k].stop.task = 0;
}

/// The latest stop that stands at a cell, of those from a link of its list on. Only in the list of the cells outside the
/// grid may others come before it.
fn latest(stops: &[Linked], start: u32, cell: Cell) -> Option<u32>
    requires { (width height : ℕ) × AreNexts width height stops.now × (start ≤ length stops.now) × Leads width height stops.now start cell }
    ensures some { IfSome result (λ k. IsLastBelow (map (λ s. s.stop) stops.now) cell start k) }
    ensures none { IfNone result (NoneBelow (map (λ s. s.stop) stops.now) cell start) }
{
    let mut at = start;
    while at > 0 {
        let linked = stops[at as usize - 1];
        if linked.stop.cell.is(cell) {
            return Some(at - 1);
        }
        at = linked.next;
    }
    None
}

impl CellLists {
    /// No stop, on a grid of these sides. Fails when out of memory.
    pub(crate) fn none(alloc: Global, width: u16, height: u16) -> Result<CellLists, AllocError>
        ensures { IfOk result (λ lists. lists.stops ≡ []) }
    {
        let heads = vec![in alloc; 0u32; width as usize * height as usize + 1]?;
        Ok(CellLists {
            sides: Sides { width, height },
            heads,
            stops: Vec::new(alloc),
        })
    }

    /// Makes room for as many stops as a task may have. Fails when out of memory.
    pub(crate) fn reserve(&mut self) -> Result<(), AllocError>
        ensures stops { self.new.stops ≡ self.old.stops }
        ensures kept { self.old.room ≤ self.new.room }
        ensures room { OnOk result (8 ≤ self.new.room) }
    {
        self.stops.reserve(8)
    }

    /// How many stops have come.
    pub(crate) fn len(&self) -> u32
        requires { length self.now.stops ≤ 8000000 }
        ensures { result ≡ length self.now.stops }
    {
        self.stops.len() as u32
    }

    /// A stop of a task comes.
    pub(crate) fn push(&mut self, task: u32, cell: Cell)
        requires room { 1 ≤ self.old.room }
        requires few { length self.old.stops < 8000000 }
        requires task { task < 4294967295 }
        ensures stops { self.new.stops ≡ self.old.stops ++ listed task cell ∷ [] }
        ensures room { self.new.room + 1 ≡ self.old.room }
    {
        let place = list_place(self.sides, cell);
        let number = self.stops.len() as u32 + 1;
        let next = self.heads[place];
        set_before(&mut self.stops, next, number);
        let stop = Stop {
            task: task + 1,
            cell,
        };
        self.stops.push_reserved(Linked {
            stop,
            next,
            before: 0,
        });
        self.heads[place] = number;
    }

    /// The stops of a task come, one after another.
    pub(crate) fn push_all(&mut self, task: u32, cells: &[Cell])
        requires room { length cells.now ≤ self.old.room }
        requires few { length self.old.stops + length cells.now ≤ 8000000 }
        requires task { task < 4294967295 }
        ensures stops { self.new.stops ≡ self.old.stops ++ map (listed task) cells.now }
        ensures room { self.new.room + length cells.now ≡ self.old.room }
    {
        for cell in cells {
            self.push(task, *cell);
        }
    }

    /// The stop of a number is taken out of its list.
    fn take(&mut self, k: u32)
        requires { Stands self.old.stops k }
        ensures stops { AreTakenOut k 1 self.old.stops self.new.stops }
        ensures room { self.new.room ≡ self.old.room }
    {
        unlink(self.sides, &mut self.heads, &mut self.stops, k as usize);
    }

    /// The stops in a range of numbers are taken out of their lists.
    pub(crate) fn take_all(&mut self, first: u32, count: usize)
        requires few { first + count ≤ length self.old.stops }
        requires small { length self.old.stops ≤ 8000000 }
        requires stand { (i : ℕ) → i < count → Stands self.old.stops (first + i) }
        ensures stops { AreTakenOut first count self.old.stops self.new.stops }
        ensures room { self.new.room ≡ self.old.room }
    {
        for i in 0..count {
            self.take(first + i as u32);
        }
    }

    /// The task of a stop that stands in a list.
    pub(crate) fn task(&self, k: u32) -> u32
        requires { Stands self.now.stops k }
        ensures { (cell : Place) × StandsAt self.now.stops k result cell }
    {
        self.stops[k as usize].stop.task - 1
    }

    /// The latest stop that stands at a cell.
    pub(crate) fn first(&self, cell: Cell) -> Option<u32>
        ensures some { IfSome result (λ k. IsLastBelow self.now.stops cell (length self.now.stops) k) }
        ensures none { IfNone result (NoneBelow self.now.stops cell (length self.now.stops)) }
    {
        latest(&self.stops, self.heads[list_place(self.sides, cell)], cell)
    }

    /// The latest stop that stands at a cell and came before one that stands there.
    pub(crate) fn next(&self, k: u32, cell: Cell) -> Option<u32>
        requires { (task : ℕ) × StandsAt self.now.stops k task cell }
        ensures some { IfSome result (λ j. IsLastBelow self.now.stops cell k j) }
        ensures none { IfNone result (NoneBelow self.now.stops cell k) }
    {
        latest(&self.stops, self.stops[k as usize].next, cell)
    }
}
