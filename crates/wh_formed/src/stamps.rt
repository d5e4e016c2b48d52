//! Marks that are cleared without a pass over them.
#![tactic(auto)]

ghost use Rattle.std.specs.Prelude.{◌≡◌, ◌+◌, ◌<◌, ◌^◌, [], false, true, All, OnOk, length, slice_index_or, slice_set};
ghost use Rattle.wh_formed.specs.Rounds.{marks_of};

use std::alloc::{AllocError, Global};
use std::marker::Model;

/// For each place the number of the round that marked it last. A place is marked where it has the
/// number of the round that goes on, and no place has a later one, so that a new round clears all
/// marks.
#[derive(Drop)]
pub struct Stamps {
    numbers: Vec<u32>,
    current: u32,
}

impl Model for Stamps {
    ghost use Rattle.std.specs.Prelude.{◌≤◌, All};
    ghost use Rattle.wh_formed.specs.Rounds.{Rounds};

    ghost Value = { Rounds };

    ghost view = { λ s. record { numbers = s.numbers.items; current = s.current } };

    ghost invariant = { λ s. All (λ n. n ≤ s.current) s.numbers.items };
}

impl Stamps {
    /// No places.
    pub fn new(alloc: Global) -> Self
        ensures { result ≡ record { numbers = []; current = 0 } }
    {
        Stamps {
            numbers: Vec::new(alloc),
            current: 0,
        }
    }

    /// Makes it a list of n places with number 0, in round 1.
    pub fn reset(&mut self, n: usize) -> Result<(), AllocError>
        ensures size { OnOk result (length self.new.numbers ≡ n) }
        ensures zero { OnOk result (All (λ k. k ≡ 0) self.new.numbers) }
        ensures current { OnOk result (self.new.current ≡ 1) }
    {
        self.numbers.clear();
        self.current = 1;
        self.numbers.resize(n, 0)?;
        Ok(())
    }

    /// Begins the next round.
    pub fn advance(&mut self)
        requires { self.old.current + 1 < 2 ^ 32 }
        ensures next { self.new ≡ record { numbers = self.old.numbers; current = self.old.current + 1 } }
        ensures none { All (λ b. b ≡ false) (marks_of self.new) }
    {
        self.current += 1;
    }

    /// Whether a place is marked.
    pub fn is_marked(&self, place: usize) -> bool
        requires { place < length self.now.numbers }
        ensures { result ≡ slice_index_or (marks_of self.now) place false }
    {
        self.numbers[place] == self.current
    }

    /// Marks a place.
    pub fn mark(&mut self, place: usize)
        requires { place < length self.old.numbers }
        ensures { self.new ≡ record { numbers = slice_set self.old.numbers place self.old.current; current = self.old.current } }
    {
        self.numbers[place] = self.current;
    }

    /// The number of a place.
    pub fn number(&self, place: usize) -> u32
        requires { place < length self.now.numbers }
        ensures { result ≡ slice_index_or self.now.numbers place 0 }
    {
        self.numbers[place]
    }

    /// The numbers of all places.
    pub fn numbers(&self) -> &[u32]
        ensures { result.now ≡ self.now.numbers }
    {
        &self.numbers
    }
}
