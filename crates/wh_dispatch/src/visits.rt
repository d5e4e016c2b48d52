//! The visits that vehicles have made of their tasks, each told once.

ghost use Rattle.std.specs.Prelude.{◌≡◌, ℕ, ◌+◌, ◌-◌, ◌<◌, ◌≤◌, ◌++◌, Some, length, map, drop, vec_capacity, IfErr, OnErr, OnOk, Contains};
ghost use Rattle.std.specs.Io.KnownBytes.{Appends};
ghost use Rattle.wh_lines.specs.Output.{WritesFront};
ghost use Rattle.wh_replay.specs.Answers.{text_of};
ghost use Rattle.wh_dispatch.specs.declared.visits.Pending.{Pending as Watched};
ghost use Rattle.wh_dispatch.specs.Lines.{visit_lines};
ghost use Rattle.wh_dispatch.specs.Visiting.{IsStanding, made_first, made_of as made_in, visits_from, due_visits, told_of, left_after, has_task, added_to};

use crate::script::DispatchFault;
use crate::telling::tell_notice;
use std::io::Write;
use wh_order::VisitOrder;
use wh_planner::Plans;
use wh_replay::Warehouse;
use wh_vehicles::Notice;

/// A task that an agent has, of which not all visits were told: how many stops it has, and how many visits were told.
#[derive(Clone, Copy)]
pub(crate) struct Pending {
    pub agent: u32,
    pub task: u32,
    pub stops: u32,
    pub told: u32,
}

/// How many visits are made, of these clocks and the given number before them: those one after another whose step was reached.
fn made_from(clocks: &[u32], opening: u32, reached: u64, before: u32) -> u32
    requires few { before + length clocks.now ≤ 8 }
    ensures value { result ≡ before + made_first opening reached clocks.now }
    ensures no_less { before ≤ result }
{
    let mut made = before;
    for clock in clocks {
        if u64::from(clock.saturating_sub(opening)) > reached {
            return made;
        }
        made += 1;
    }
    made
}

/// How many visits of a task are made.
fn made_of<P: Plans>(one: &Pending, warehouse: &Warehouse<P>, order: &VisitOrder) -> u32
    requires { IsStanding warehouse.now.book.state.tasks (length order.now.vehicles) one.now }
    ensures value { result ≡ made_in warehouse.now.book.opening.clock warehouse.now.book.state.tasks order.now.vehicles one.now }
    ensures no_less { one.now.told ≤ result }
{
    let clocks = warehouse.task(one.task).visits.as_slice();
    let reached = order.vehicle(one.agent).reached;
    made_from(
        &clocks[one.told as usize..],
        warehouse.start(),
        reached,
        one.told,
    )
}

/// Tells the visits of a task from one on, before an end.
fn tell_from<W: Write>(
    writer: &mut W,
    agent: u32,
    task: u32,
    first: u32,
    end: u32,
) -> Result<(), DispatchFault>
    requires { first ≤ end }
    ensures ok { OnOk result (Appends (W.contents writer.old) (W.contents writer.new) (text_of (visit_lines (visits_from agent task first (end - first))))) }
    ensures err { OnErr result (WritesFront (W.contents writer.old) (W.contents writer.new) (text_of (visit_lines (visits_from agent task first (end - first))))) }
    ensures fault { IfErr result (λ fault. fault ≡ DispatchFault.Unwritten) }
{
    for visit in first..end {
        tell_notice(writer, &Notice::Visited { agent, task, visit })?;
    }
    Ok(())
}

/// Tells the visits that are made and were not told, task by task.
pub(crate) fn tell_due<W: Write, P: Plans>(
    writer: &mut W,
    pending: &[Pending],
    warehouse: &Warehouse<P>,
    order: &VisitOrder,
) -> Result<(), DispatchFault>
    requires stand { (p : Watched) → Contains pending.now p → IsStanding warehouse.now.book.state.tasks (length order.now.vehicles) p }
    ensures ok { OnOk result (Appends (W.contents writer.old) (W.contents writer.new) (text_of (visit_lines (due_visits warehouse.now.book.opening.clock warehouse.now.book.state.tasks order.now.vehicles pending.now)))) }
    ensures err { OnErr result (WritesFront (W.contents writer.old) (W.contents writer.new) (text_of (visit_lines (due_visits warehouse.now.book.opening.clock warehouse.now.book.state.tasks order.now.vehicles pending.now)))) }
    ensures fault { IfErr result (λ fault. fault ≡ DispatchFault.Unwritten) }
{
    for one in pending {
        let made = made_of(one, warehouse, order);
        tell_from(writer, one.agent, one.task, one.told, made)?;
    }
    Ok(())
}

/// All visits that are made have been told.
fn mark_told<P: Plans>(pending: &mut Vec<Pending>, warehouse: &Warehouse<P>, order: &VisitOrder)
    requires stand { (p : Watched) → Contains pending.old.items p → IsStanding warehouse.now.book.state.tasks (length order.now.vehicles) p }
    ensures { pending.new.items ≡ map (told_of warehouse.now.book.opening.clock warehouse.now.book.state.tasks order.now.vehicles) pending.old.items }
{
    for place in 0..pending.len() {
        let made = made_of(&pending[place], warehouse, order);
        pending[place].told = made;
    }
}

/// All visits that are made have been told, and the tasks are forgotten of which no visit is left.
pub(crate) fn keep_left<P: Plans>(
    pending: &mut Vec<Pending>,
    warehouse: &Warehouse<P>,
    order: &VisitOrder,
)
    requires stand { (p : Watched) → Contains pending.old.items p → IsStanding warehouse.now.book.state.tasks (length order.now.vehicles) p }
    ensures { pending.new.items ≡ left_after warehouse.now.book.opening.clock warehouse.now.book.state.tasks order.now.vehicles pending.old.items }
{
    mark_told(pending, warehouse, order);
    pending.retain(|one| one.told < one.stops);
}

/// Whether the task of this number is one of those that are kept.
fn is_kept(pending: &[Pending], task: u32) -> bool
    ensures { result ≡ has_task pending.now task }
{
    pending.iter().any(|one| one.task == task)
}

/// Keeps a task that an agent took, unless it is kept already: an agent that goes on with its own takes it again.
pub(crate) fn keep_new(pending: &mut Vec<Pending>, one: Pending)
    requires room { length pending.old.items < vec_capacity pending.old }
    ensures kept { pending.new.items ≡ pending.old.items ++ added_to pending.old.items (Some one) }
    ensures room { vec_capacity pending.new ≡ vec_capacity pending.old }
{
    if !is_kept(pending.as_slice(), one.task) {
        pending.push_reserved(one);
    }
}
