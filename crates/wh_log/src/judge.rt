//! A machine that says which entries are steps.

ghost use Rattle.std.specs.Prelude.{◌≡◌, ℕ, List, true, false};
ghost use Rattle.wh_event.specs.declared.entry.Entry.{Entry};
ghost use Rattle.wh_log.specs.Ranges.{Keeps};
ghost use Rattle.wh_log.specs.Judges.{Refuses, RefusesOpening};

use crate::fault::NoMemory;
use std::alloc::Global;
use wh_event::Entry;

/// A machine that is told a log, entry by entry, and says which entries are steps of it.
pub trait Judge {
    /// It may open with this clock and these slots, and is then so.
    ghost opens: { Self → ℕ → List ℕ → Self → Type 0 };
    /// The entry is a step of it.
    ghost steps: { Self → Entry → Self → Type 0 };

    /// Opens, where it may. Where it may not, nothing is said of it.
    fn open(&mut self, alloc: Global, clock: u32, slots: Vec<u32>) -> Result<bool, NoMemory>
        ensures yes { result ≡ Ok true → opens self.old clock slots.items self.new }
        ensures no { result ≡ Ok false → RefusesOpening opens self.old clock slots.items };

    /// Takes the step that the entry tells, where it is one. What it is told keeps the log's ranges.
    fn step(&mut self, alloc: Global, entry: Entry) -> Result<bool, NoMemory>
        requires { Keeps 8 entry }
        ensures yes { result ≡ Ok true → steps self.old entry self.new }
        ensures no { result ≡ Ok false → Refuses steps self.old entry }
        ensures kept { result ≡ Ok false → self.new ≡ self.old };

    /// An opening leads to one state, and so does a step.
    ghost one_opening: { (old : Self) (clock : ℕ) (slots : List ℕ) (a b : Self) → opens old clock slots a → opens old clock slots b → a ≡ b };

    ghost one_step: { (old : Self) (entry : Entry) (a b : Self) → steps old entry a → steps old entry b → a ≡ b };
}
