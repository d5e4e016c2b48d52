//! Who is asked next for an order.
#![tactic(auto)]

ghost use Rattle.std.specs.Prelude.{◌≡◌, ℕ, ◌+◌, ◌<◌, ◌≤◌, ◌↔◌, List, Option, Some, false, length, IfNone, IfSome, IsTrue};
ghost use Rattle.wh_tasks.specs.Choice.{IsAtMost};
ghost use Rattle.wh_core.specs.Steps.{Answers, IsDue, MakesWay, NoneIsNext};
ghost use Rattle.wh_event.specs.declared.event.Event.{Event as Asked};
ghost use Rattle.wh_event.specs.declared.reply.Reply.{Reply as Answer};
ghost use Rattle.wh_token.specs.Asking.{AllWouldRest, IsAmong, IsNearestTaker, IsNextToAsk, MakesWayFirst, MayBeAsked, NoneTakes, TakesNearest, WouldTake};

use crate::warehouse::Warehouse;
use wh_book::Book;
use wh_field::LazyField;
use wh_planner::Plans;
use wh_tasks::Load;

/// An agent that would take an order if it asked, and how many steps it is from where it is to the order's first stop; none where no walk
/// leads there.
#[derive(Clone, Copy)]
pub(crate) struct Taker {
    pub(crate) agent: u32,
    pub(crate) steps: Option<u32>,
}

/// Whether the agent may be given something to do. It takes constant time.
fn is_due(book: &Book, agent: u32) -> bool
    requires { agent < length book.now.state.paths }
    ensures { IsTrue result ↔ IsDue book.now.site book.now.state agent }
{
    if book.closed() {
        return false;
    }
    let rests = book.paths()[agent as usize].remaining() == 0;
    rests || (book.setting().homes() && matches!(book.loads()[agent as usize], Load::None))
}

/// Whether an order comes before another: the distances are compared, and where they are equal the agents.
fn is_nearer(one: &Taker, other: &Taker) -> bool
    requires { other.now.agent < one.now.agent }
    ensures nearer { IsTrue result → IsAtMost one.now.steps one.now.agent other.now.steps other.now.agent }
    ensures farther { result ≡ false → IsAtMost other.now.steps other.now.agent one.now.steps one.now.agent }
{
    match (one.steps, other.steps) {
        (Some(near), Some(far)) => near < far,
        (Some(_), None) => true,
        (None, _) => false,
    }
}

/// The agent with the order that it would take, if it would take one.
fn would_take(book: &Book, near: &mut LazyField, agent: u32) -> Option<Taker>
    requires known { agent < length book.now.state.paths }
    requires over { near.old.grid ≡ book.now.site.grid }
    ensures grid { near.new.grid ≡ near.old.grid }
    ensures none { IfNone result (IsDue book.now.site book.now.state agent → NoneIsNext book.now.state agent) }
    ensures takes { IfSome result (λ t. (t.agent ≡ agent) × ((n : ℕ) × WouldTake book.now.site book.now.state agent n t.steps)) }
{
    if !is_due(book, agent) {
        return None;
    }
    if book.rests_at_once(agent) {
        return None;
    }
    let Some(task) = book.next(agent, near) else {
        return None;
    };
    let steps = near.dist(book.tasks().task(task).pickup());
    Some(Taker { agent, steps })
}

/// The one of the first agents that would take the nearest order, with this one too.
fn with_taker(
    book: &Book,
    near: &mut LazyField,
    asked: &[bool],
    best: Option<Taker>,
    agent: u32,
) -> Option<Taker>
    requires known { agent < length book.now.state.paths }
    requires each { length asked.now ≡ length book.now.state.paths }
    requires over { near.old.grid ≡ book.now.site.grid }
    requires best { IsNearestTaker book.now.site book.now.state (IsAmong asked.now agent) best }
    ensures grid { near.new.grid ≡ near.old.grid }
    ensures best { IsNearestTaker book.now.site book.now.state (IsAmong asked.now (agent + 1)) result }
{
    if asked[agent as usize] {
        return best;
    }
    let Some(one) = would_take(book, near, agent) else {
        return best;
    };
    let Some(other) = best else {
        return Some(one);
    };
    if is_nearer(&one, &other) {
        Some(one)
    } else {
        Some(other)
    }
}

/// The agent that would take the nearest order, of those that were not asked. Its time is that of a fill to the nearest order for each of
/// them, but for those that are known at once to take none.
fn nearest_taker(book: &Book, near: &mut LazyField, asked: &[bool]) -> Option<u32>
    requires each { length asked.now ≡ length book.now.state.paths }
    requires over { near.old.grid ≡ book.now.site.grid }
    ensures grid { near.new.grid ≡ near.old.grid }
    ensures nearest { IfSome result (λ agent. (distance : Option ℕ) × TakesNearest book.now.site book.now.state (MayBeAsked asked.now) agent distance) }
    ensures none { IfNone result (NoneTakes book.now.site book.now.state (MayBeAsked asked.now)) }
{
    let agents = book.paths().len() as u32;
    let mut best = None;
    for agent in 0..agents {
        best = with_taker(book, near, asked, best, agent);
    }
    match best {
        Some(taker) => Some(taker.agent),
        None => None,
    }
}

/// Whether the agent has to make way, where it would take no order. It takes constant time.
fn makes_way(book: &Book, agent: u32) -> bool
    requires known { agent < length book.now.state.paths }
    requires none { IsDue book.now.site book.now.state agent → NoneIsNext book.now.state agent }
    ensures way { IsTrue result → IsDue book.now.site book.now.state agent × MakesWay book.now.site book.now.state agent }
    ensures rests { result ≡ false → IsDue book.now.site book.now.state agent → Answers book.now.site book.now.state Answer.Rested (Asked.Request agent) book.now.state }
{
    is_due(book, agent) && !book.may_rest(agent)
}

/// The first agent that has to make way, of those that were not asked and take no order.
fn first_in_way(book: &Book, asked: &[bool]) -> Option<u32>
    requires each { length asked.now ≡ length book.now.state.paths }
    requires none { NoneTakes book.now.site book.now.state (MayBeAsked asked.now) }
    ensures first { IfSome result (MakesWayFirst book.now.site book.now.state (MayBeAsked asked.now)) }
    ensures none { IfNone result (AllWouldRest book.now.site book.now.state (MayBeAsked asked.now)) }
{
    let agents = book.paths().len() as u32;
    for agent in 0..agents {
        if !asked[agent as usize] && makes_way(book, agent) {
            return Some(agent);
        }
    }
    None
}

/// Who is asked next, of the agents that were not asked: the one that would take the nearest order; and where none would take any, the
/// first that has to make way.
fn next_to_ask(book: &Book, near: &mut LazyField, asked: &[bool]) -> Option<u32>
    requires each { length asked.now ≡ length book.now.state.paths }
    requires over { near.old.grid ≡ book.now.site.grid }
    ensures grid { near.new.grid ≡ near.old.grid }
    ensures next { IfSome result (IsNextToAsk book.now.site book.now.state (MayBeAsked asked.now)) }
    ensures none { IfNone result (AllWouldRest book.now.site book.now.state (MayBeAsked asked.now)) }
{
    match nearest_taker(book, near, asked) {
        Some(agent) => Some(agent),
        None => first_in_way(book, asked),
    }
}

impl<P: Plans> Warehouse<P> {
    /// Who is asked next, so that the nearest order is taken first. Of the agents that were not asked already it is the one that would
    /// take an order and is nearest to its first stop; of several that are as near the one with the lowest number. Where none would take
    /// any it is the first that has to make way, and none where each that is due would be told to rest. It takes no memory. Its time is
    /// that of looking for the nearest order of each due agent; those that are known at once to rest take none.
    pub fn next_to_ask(&mut self, asked: &[bool]) -> Option<u32>
        requires { length asked.now ≡ length self.old.book.state.paths }
        ensures book { self.new.book ≡ self.old.book }
        ensures planners { self.new.planners ≡ self.old.planners }
        ensures next { IfSome result (IsNextToAsk self.old.book.site self.old.book.state (MayBeAsked asked.now)) }
        ensures none { IfNone result (AllWouldRest self.old.book.site self.old.book.state (MayBeAsked asked.now)) }
    {
        next_to_ask(&self.book, &mut self.near, asked)
    }
}
