//! A set of numbers.
#![tactic(auto)]

ghost use Rattle.std.specs.Prelude.{◌≡◌, ℕ, ◌+◌, ◌<◌, ◌≤◌, ◌≢◌, ◌⊎◌, ◌++◌, ◌∷◌, ◌↔◌, [], length, Contains, IsTrue, OnOk};
ghost use Rattle.wh_tasks.specs.NumberSets.{IsPlaced, AreSwapped};

use std::alloc::{AllocError, Global};
use std::marker::Model;

/// Some of the numbers below a bound, in no order. Putting a number in and taking one out take constant time. All
/// numbers below the bound stand in one list, those of the set first, and for each it is kept where it stands.
#[derive(Drop)]
pub(crate) struct NumberSet {
    numbers: Vec<u32>,
    places: Vec<u32>,
    count: usize,
}

impl Model for NumberSet {
    ghost use Rattle.std.specs.Prelude.{◌-◌, length, min, take, vec_capacity, vec_len};
    ghost use Rattle.wh_tasks.specs.NumberSets.{Members, IsPlaced};

    ghost Value = { Members };

    ghost view = { λ s. record {
      members = take s.count s.numbers.items;
      bound = length s.numbers.items;
      room = min (vec_capacity s.numbers - vec_len s.numbers) (vec_capacity s.places - vec_len s.places);
    } };

    ghost invariant = { λ s. IsPlaced s.numbers.items s.places.items s.count };
}

impl NumberSet {
    /// No number, and none may be put in yet.
    pub(crate) fn none(alloc: Global) -> NumberSet
        ensures members { result.members ≡ [] }
        ensures bound { result.bound ≡ 0 }
    {
        NumberSet {
            numbers: Vec::new(alloc),
            places: Vec::new(alloc),
            count: 0,
        }
    }

    /// Makes room for the bound to rise by one. Fails when out of memory.
    pub(crate) fn reserve(&mut self) -> Result<(), AllocError>
        ensures members { self.new.members ≡ self.old.members }
        ensures bound { self.new.bound ≡ self.old.bound }
        ensures kept { self.old.room ≤ self.new.room }
        ensures room { OnOk result (1 ≤ self.new.room) }
    {
        self.numbers.reserve(1)?;
        self.places.reserve(1)
    }

    /// The bound rises by one.
    pub(crate) fn grow(&mut self)
        requires room { 1 ≤ self.old.room }
        requires few { self.old.bound < 4294967295 }
        ensures members { self.new.members ≡ self.old.members }
        ensures bound { self.new.bound ≡ self.old.bound + 1 }
        ensures room { self.new.room + 1 ≡ self.old.room }
    {
        let number = self.numbers.len() as u32;
        self.numbers.push_reserved(number);
        self.places.push_reserved(number);
    }

    /// The numbers, each once.
    pub(crate) fn as_slice(&self) -> &[u32]
        ensures { result.now ≡ self.now.members }
    {
        &self.numbers[..self.count]
    }

    /// A number below the bound that is not in the set is put in.
    pub(crate) fn insert(&mut self, number: u32)
        requires bound { number < self.old.bound }
        requires new { ¬ Contains self.old.members number }
        ensures members { (n : ℕ) → Contains self.new.members n ↔ (Contains self.old.members n ⊎ (n ≡ number)) }
        ensures bound { self.new.bound ≡ self.old.bound }
        ensures room { self.new.room ≡ self.old.room }
    {
        swap(&mut self.numbers, &mut self.places, number, self.count);
        self.count += 1;
    }

    /// A number of the set is taken out.
    pub(crate) fn remove(&mut self, number: u32)
        requires { Contains self.old.members number }
        ensures members { (n : ℕ) → Contains self.new.members n ↔ (Contains self.old.members n × (n ≢ number)) }
        ensures bound { self.new.bound ≡ self.old.bound }
        ensures room { self.new.room ≡ self.old.room }
    {
        self.count -= 1;
        swap(&mut self.numbers, &mut self.places, number, self.count);
    }
}

/// A number changes places with the one that stands at a place.
fn swap(numbers: &mut [u32], places: &mut [u32], number: u32, to: usize)
    requires placed { IsPlaced numbers.old places.old 0 }
    requires number { number < length numbers.old }
    requires to { to < length numbers.old }
    ensures placed { IsPlaced numbers.new places.new 0 }
    ensures places { AreSwapped numbers.old places.old number to places.new }
{
    let from = places[number as usize];
    let other = numbers[to];
    numbers[from as usize] = other;
    numbers[to] = number;
    places[other as usize] = from;
    places[number as usize] = to as u32;
}
