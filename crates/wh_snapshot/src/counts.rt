//! How many entries each caller had.

ghost use Rattle.std.specs.Prelude.{◌≡◌, ℕ, ◌+◌, ◌<◌, ◌≤◌, ◌^◌, ◌↔◌, ◌++◌, ◌∷◌, [], length, slice_index_or, nat_lt, cond, IfOk, OnOk, IsTrue};
ghost use Rattle.wh_snapshot.specs.Snapshots.{CanCount, entries_told, entries_of, all_told, counted, counts_told};

use crate::tally;
use crate::tally::CALLERS;
use std::alloc::{AllocError, Global};
use wh_event::Entry;
use wh_front::{Count, Rows};

/// Whether all entries, those told before and those of the history, can be counted in 64 bits.
pub fn can_count(had: &[Count], history: &[Entry]) -> bool
    ensures { IsTrue result ↔ CanCount had.now history.now }
{
    let mut total = history.len() as u64;
    for count in had {
        match total.checked_add(count.entries) {
            Some(sum) => total = sum,
            None => return false,
        }
    }
    true
}

/// Counts those told before.
fn count_told(tally: &mut Vec<u64>, had: &[Count])
    requires callers { length tally.old.items ≡ 64 }
    requires none { (k : ℕ) → k < 64 → slice_index_or tally.old.items k 0 ≡ 0 }
    requires room { all_told had.now < 2 ^ 64 }
    ensures callers { length tally.new.items ≡ 64 }
    ensures each { (k : ℕ) → k < 64 → slice_index_or tally.new.items k 0 ≡ entries_told k had.now }
{
    for count in had {
        tally::add(tally, count.caller, count.entries);
    }
}

/// Counts those of the history too.
fn count_history(tally: &mut Vec<u64>, history: &[Entry])
    requires callers { length tally.old.items ≡ 64 }
    requires room { (k : ℕ) → k < 64 → slice_index_or tally.old.items k 0 + length history.now < 2 ^ 64 }
    ensures callers { length tally.new.items ≡ 64 }
    ensures each { (k : ℕ) → k < 64 → slice_index_or tally.new.items k 0 ≡ slice_index_or tally.old.items k 0 + entries_of k history.now }
{
    for entry in history {
        tally::add(tally, entry.caller, 1);
    }
}

/// One row more, where the caller had an entry.
fn push_count(counts: &mut Rows<Count>, caller: u32, entries: u64) -> Result<(), AllocError>
    ensures { OnOk result (counts.new ≡ counts.old ++ cond (nat_lt 0 entries) (record { caller = caller; entries = entries } ∷ []) []) }
{
    if entries > 0 {
        counts.push(Count { caller, entries })?;
    }
    Ok(())
}

/// The rows of the callers that had an entry.
fn rows_of(alloc: Global, tally: &[u64]) -> Result<Rows<Count>, AllocError>
    requires callers { length tally.now ≡ 64 }
    ensures { IfOk result (λ counts. (entries : ℕ → ℕ) → ((k : ℕ) → k < 64 → slice_index_or tally.now k 0 ≡ entries k) → counts ≡ counted entries) }
{
    let mut counts = Rows::none(alloc);
    for caller in 0..CALLERS {
        push_count(&mut counts, caller, tally[caller as usize])?;
    }
    Ok(counts)
}

/// For each caller that had an entry, how many it had, before and in the history.
pub fn counts_of(alloc: Global, had: &[Count], history: &[Entry]) -> Result<Rows<Count>, AllocError>
    requires room { CanCount had.now history.now }
    ensures value { IfOk result (λ counts. counts ≡ counts_told had.now history.now) }
{
    let mut tally = tally::none(alloc)?;
    count_told(&mut tally, had);
    count_history(&mut tally, history);
    rows_of(alloc, tally.as_slice())
}
