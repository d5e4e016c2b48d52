//! What is still to be looked at, the most promising first.
#![tactic(auto)]

ghost use Rattle.std.specs.Prelude.{◌≡◌, ℕ, ◌<◌, ◌≤◌, [], IsTrue, OnOk, IfOk, IfSome, IfNone};
ghost use Rattle.std.specs.BinaryHeap.{IsHeap, heap_items};
ghost use Rattle.wh_intervals.specs.Queues.{bound_of, IsBefore, Waiting, Pushes, Pops};

use crate::entry::Entry;
use std::alloc::{AllocError, Global};
use std::collections::BinaryHeap;
use std::marker::Model;

/// The greatest number that an entry holds. Where there would be a greater one, memory has run out.
const MOST: u64 = 4294967295;

/// Nodes that wait, each with a bound. It takes memory for those that it holds at a time. One that comes
/// before all others when it is added is kept apart, since it is mostly the next that is taken.
#[derive(Drop)]
pub struct Queue {
    first: Option<Entry>,
    heap: BinaryHeap<Entry>,
}

impl Model for Queue {
    ghost use Rattle.std.specs.Prelude.{List, IfSome};
    ghost use Rattle.std.specs.List.{cons_option};
    ghost use Rattle.std.specs.BinaryHeap.{IsHeap, heap_items};
    ghost use Rattle.wh_intervals.specs.Queues.{IsBefore};
    ghost use Rattle.wh_intervals.specs.declared.entry.Entry.{Entry};

    ghost Value = { List Entry };

    ghost view = { λ q. cons_option q.first (heap_items q.heap) };

    ghost invariant = { λ q. IsHeap ⟦<Entry as Ord>⟧.cmp (heap_items q.heap) × IfSome q.first (λ e. IsBefore e (heap_items q.heap)) };
}

/// Whether an entry comes before all that wait.
fn is_first(first: Option<Entry>, heap: &BinaryHeap<Entry>, entry: Entry) -> bool
    requires heap { IsHeap ⟦<Entry as Ord>⟧.cmp (heap_items heap.now) }
    requires first { IfSome first (λ e. IsBefore e (heap_items heap.now)) }
    ensures before { IsTrue result → IsBefore entry (heap_items heap.now) }
    ensures ahead { IsTrue result → IfSome first (λ e. bound_of entry ≤ bound_of e) }
    ensures behind { (IsTrue result → ⊥) → IfSome first (λ e. bound_of e ≤ bound_of entry) }
{
    if let Some(first) = first {
        return entry.is_before(first);
    }
    match heap.peek() {
        Some(top) => entry.is_before(*top),
        None => true,
    }
}

impl Queue {
    /// One in which nothing waits, with room for `count` nodes.
    pub fn with_room(alloc: Global, count: usize) -> Result<Self, AllocError>
        ensures { IfOk result (λ q. (bound node : ℕ) → Waiting q bound node → ⊥) }
    {
        Ok(Queue {
            first: None,
            heap: BinaryHeap::with_capacity(alloc, count)?,
        })
    }

    /// Adds a node that waits with a bound, with the given number of steps left from a time on.
    pub fn push(&mut self, bound: u64, left: u64, time: u32, node: usize) -> Result<(), AllocError>
        ensures { OnOk result (Pushes self.old self.new bound node) }
    {
        if bound > MOST || left > MOST || node as u64 > MOST {
            return Err(AllocError);
        }
        let entry = Entry::of(bound as u32, left as u32, time, node as u32);
        if !is_first(self.first, &self.heap, entry) {
            self.heap.push(entry)?;
            return Ok(());
        }
        if let Some(first) = self.first {
            self.heap.push(first)?;
        }
        self.first = Some(entry);
        Ok(())
    }

    /// One of the least bound, of these one where the fewest steps are left, and of these the earliest.
    pub fn pop(&mut self) -> Option<(u64, usize)>
        ensures some { IfSome result (λ e. Pops self.old self.new e.0 e.1) }
        ensures none { IfNone result ((bound node : ℕ) → Waiting self.old bound node → ⊥) }
    {
        if let Some(first) = self.first {
            self.first = None;
            return Some((first.bound(), first.node()));
        }
        let entry = self.heap.pop()?;
        Some((entry.bound(), entry.node()))
    }
}
