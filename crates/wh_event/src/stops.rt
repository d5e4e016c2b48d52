//! The names of a task's stops.
#![tactic(auto)]

ghost use Rattle.std.specs.Prelude.{◌≡◌, ◌≤◌, length, IfOk};

use arrayvec::ArrayVec;
use std::alloc::{AllocError, Global};
use std::marker::Model;
use wh_text::Name;

/// The names of a task's stops, in their order: 2 to 8.
#[derive(Drop)]
pub struct Stops {
    names: ArrayVec<Name, 8>,
}

impl Model for Stops {
    ghost use Rattle.std.specs.Prelude.{ℕ, List, ◌≤◌, length};

    ghost Value = { List (List ℕ) };

    ghost view = { λ s. s.names.items };

    ghost invariant = { λ s. (2 ≤ length s.names.items) × (length s.names.items ≤ 8) };
}

impl Stops {
    /// These names.
    pub fn of(names: ArrayVec<Name, 8>) -> Stops
        requires two { 2 ≤ length names.items }
        ensures { result ≡ names.items }
    {
        Stops { names }
    }

    /// The names, 2 to 8.
    pub fn as_slice(&self) -> &[Name]
        ensures value { result.now ≡ self.now }
        ensures two { 2 ≤ length self.now }
        ensures eight { length self.now ≤ 8 }
    {
        self.names.as_slice()
    }

    /// The same names.
    pub fn copy(&self) -> Stops
        ensures { result ≡ self.now }
    {
        let mut names = ArrayVec::new();
        for name in self.names.as_slice() {
            names.push(name.copy());
        }
        Stops { names }
    }
}

/// The names of a task's stops, behind a box: a history keeps room for eight names only where a task was handed in.
#[derive(Drop)]
pub struct KeptStops {
    stops: Box<Stops>,
}

impl Model for KeptStops {
    ghost use Rattle.std.specs.Prelude.{ℕ, List};

    ghost Value = { List (List ℕ) };

    ghost view = { λ k. k.stops.value };
}

impl KeptStops {
    /// These stops.
    pub fn new(alloc: Global, stops: Stops) -> Result<KeptStops, AllocError>
        ensures { IfOk result (λ kept. kept ≡ stops) }
    {
        let stops = Box::new(alloc, stops)?;
        Ok(KeptStops { stops })
    }

    /// The stops.
    pub fn stops(&self) -> &Stops
        ensures { result.now ≡ self.now }
    {
        &self.stops
    }

    /// The same stops.
    pub fn copy(&self, alloc: Global) -> Result<KeptStops, AllocError>
        ensures { IfOk result (λ kept. kept ≡ self.now) }
    {
        KeptStops::new(alloc, self.stops.copy())
    }
}
