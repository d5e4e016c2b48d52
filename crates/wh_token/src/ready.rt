//! What is handed to the caller of a warehouse: what is ready to be committed, what was committed, how many commands ran.
#![tactic(auto)]

ghost use Rattle.std.specs.Prelude.{◌≡◌};

use std::marker::Model;
use wh_book::Draft;
use wh_event::Entry;
use wh_planner::Planner;

/// How many commands added an entry, and how many were refused for memory.
#[derive(Clone, Copy, Debug, PartialEq, Eq)]
pub struct Ran {
    pub entries: u64,
    pub starved: u64,
}

/// An allocation failed.
#[derive(Clone, Copy, Debug, PartialEq, Eq)]
pub struct NoMemory;

/// An event that is ready to be committed, and the box that was handed in with it.
#[derive(Drop)]
pub struct Ready<P = Box<dyn Planner>> {
    pub(crate) draft: Draft,
    /// A copy of the entry, for the caller.
    pub(crate) told: Entry,
    pub(crate) spare: Option<P>,
}

impl<P> Model for Ready<P> {
    ghost use Rattle.std.specs.Prelude.{◌≡◌};
    ghost use Rattle.wh_token.specs.Houses.{Prepared};

    ghost Value = { Prepared P };

    ghost view = { λ r. record { draft = r.draft; spare = r.spare } };

    ghost invariant = { λ r. r.told ≡ r.draft.entry };
}

impl<P: Drop> Ready<P> {
    /// The entry that the commit will add.
    pub fn entry(&self) -> &Entry
        ensures { result.now ≡ self.now.draft.entry }
    {
        &self.draft.entry
    }

    /// Gives the box back; nothing is committed.
    pub fn withdraw(self) -> Option<P>
        ensures { result ≡ self.spare }
    {
        let Ready { draft, told, spare } = self;
        drop(draft);
        drop(told);
        spare
    }
}

/// The entry that was added, and the box that is not in the warehouse.
#[derive(Drop)]
pub struct Committed<P = Box<dyn Planner>> {
    pub entry: Entry,
    pub back: Option<P>,
}
