//! The stays at one place.
#![tactic(auto)]

ghost use Rattle.std.specs.Prelude.{◌≡◌, ◌≢◌, ℕ, ◌+◌, ◌<◌, ◌≤◌, ◌↔◌, IsTrue, ◌⊎◌, ◌&&◌, not, nat_eq, nat_lt, []};
ghost use Rattle.std.specs.List.{filter};
ghost use Rattle.wh_grid.specs.declared.cell.Cell.{Cell};
ghost use Rattle.wh_timetable.specs.declared.stay.Stay.{Stay as Visit};
ghost use Rattle.wh_timetable.specs.Stays.{IsBy, IsThere};

use crate::stay::Stay;
use std::alloc::{AllocError, Global};
use std::marker::Model;

/// The stays at the cells of one place, and for how many more of them room is still to be made.
#[derive(Drop)]
pub struct PlaceStays {
    list: Vec<Stay>,
    wanted: usize,
}

impl Model for PlaceStays {
    ghost use Rattle.std.specs.Prelude.{List};
    ghost use Rattle.wh_timetable.specs.declared.stay.Stay.{Stay as Visit};

    ghost Value = { List Visit };

    ghost view = { λ p. p.list.items };
}

/// Drops the stays that are over.
fn keep_later(list: &mut Vec<Stay>, now: u32)
    ensures { list.new.items ≡ filter (λ (s : Visit). nat_lt now s.until) list.old.items }
{
    list.retain(|s| now < s.until);
}

/// Drops the stays that are over, and those of an agent.
fn keep_others(list: &mut Vec<Stay>, agent: u32, now: u32)
    ensures { list.new.items ≡ filter (λ (s : Visit). not (nat_eq s.agent agent) && nat_lt now s.until) list.old.items }
{
    list.retain(|s| s.agent != agent && now < s.until);
}

/// Gives memory back where there is much more of it than needed.
fn give_back(list: &mut Vec<Stay>)
    ensures { list.new.items ≡ list.old.items }
{
    let needed = list.len();
    if list.capacity() > 16 && list.capacity() / 8 >= needed {
        list.shrink_to(needed);
    }
}

/// Makes room for so many more at once. Where they are few it is room for four and a quarter of those that are there, so
/// that all seldom move.
fn grow(list: &mut Vec<Stay>, wanted: usize) -> Result<(), AllocError>
    ensures { list.new.items ≡ list.old.items }
{
    let count = list.len();
    if list.capacity().saturating_sub(count) >= wanted {
        return Ok(());
    }
    list.reserve_exact(wanted.max(4 + count / 4))
}

/// Whether one stay is over just where another one of the same agent at the same cell begins.
fn goes_on(before: Stay, stay: Stay) -> bool
    ensures agent { IsTrue result → before.agent ≡ stay.agent }
    ensures cell { IsTrue result → before.cell ≡ stay.cell }
    ensures time { IsTrue result → before.until ≡ stay.from }
    ensures early { IsTrue result → before.from ≤ stay.from }
{
    before.agent == stay.agent
        && before.cell.is(stay.cell)
        && before.until == stay.from
        && before.from <= stay.from
}

impl PlaceStays {
    /// No stays.
    pub fn new(alloc: Global) -> Self
        ensures { result ≡ [] }
    {
        PlaceStays {
            list: Vec::new(alloc),
            wanted: 0,
        }
    }

    /// The stays.
    pub fn list(&self) -> &[Stay]
        ensures { result.now ≡ self.now }
    {
        &self.list
    }

    /// There are none any more. The memory is kept.
    pub fn clear(&mut self)
        ensures { self.new ≡ [] }
    {
        self.list.clear();
    }

    /// Drops the stays that are over.
    fn sweep(&mut self, now: u32)
        ensures { (i : ℕ) (c : Cell) (t : ℕ) → now ≤ t → IsThere self.new i c t ↔ IsThere self.old i c t }
    {
        keep_later(&mut self.list, now);
        give_back(&mut self.list);
    }

    /// Room for one more of them is wanted. Where it is the first one, the stays that are over are dropped.
    pub fn want_one(&mut self, now: u32)
        ensures { (i : ℕ) (c : Cell) (t : ℕ) → now ≤ t → IsThere self.new i c t ↔ IsThere self.old i c t }
    {
        if self.wanted == 0 {
            self.sweep(now);
        }
        self.wanted = self.wanted.saturating_add(1);
    }

    /// Makes room for as many as are wanted; then no more are. The error comes where memory is wanting.
    pub fn make_room(&mut self) -> Result<(), AllocError>
        ensures { self.new ≡ self.old }
    {
        let wanted = self.wanted;
        self.wanted = 0;
        grow(&mut self.list, wanted)
    }

    /// Drops the stays of an agent, and those that are over.
    pub fn leave(&mut self, agent: u32, now: u32)
        ensures others { (i : ℕ) (c : Cell) (t : ℕ) → now ≤ t → i ≢ agent → IsThere self.new i c t ↔ IsThere self.old i c t }
        ensures gone { (c : Cell) (t : ℕ) → IsThere self.new agent c t → ⊥ }
    {
        keep_others(&mut self.list, agent, now);
    }

    /// Adds a stay, and returns whether there was room for it. Where it goes on from the last one, that one gets longer.
    pub fn put(&mut self, stay: Stay) -> bool
        requires { stay.from < stay.until }
        ensures { IsTrue result → (i : ℕ) (c : Cell) (t : ℕ) → IsThere self.new i c t ↔ (IsThere self.old i c t ⊎ IsBy stay i c t) }
    {
        let count = self.list.len();
        if count > 0 && goes_on(self.list[count - 1], stay) {
            self.list[count - 1].until = stay.until;
            return true;
        }
        if count >= self.list.capacity() {
            return false;
        }
        self.list.push_reserved(stay);
        true
    }
}
