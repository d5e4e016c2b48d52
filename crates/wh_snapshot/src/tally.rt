//! How many entries each caller had, while they are counted.

ghost use Rattle.std.specs.Prelude.{◌≡◌, ℕ, ◌+◌, ◌<◌, ◌^◌, length, slice_index_or, ◌==◌, cond, IfOk};

use std::alloc::{AllocError, Global};

/// The numbers of callers are below it.
pub const CALLERS: u32 = 64;

/// No entry of any caller.
pub fn none(alloc: Global) -> Result<Vec<u64>, AllocError>
    ensures callers { IfOk result (λ tally. length tally.items ≡ 64) }
    ensures none { IfOk result (λ tally. (k : ℕ) → k < 64 → slice_index_or tally.items k 0 ≡ 0) }
{
    vec![in alloc; 0u64; CALLERS as usize]
}

/// So many entries more of a caller. Those of other callers than a log can tell are not counted.
pub fn add(tally: &mut Vec<u64>, caller: u32, entries: u64)
    requires callers { length tally.old.items ≡ 64 }
    requires room { caller < 64 → slice_index_or tally.old.items caller 0 + entries < 2 ^ 64 }
    ensures callers { length tally.new.items ≡ 64 }
    ensures each { (k : ℕ) → k < 64 → slice_index_or tally.new.items k 0 ≡ slice_index_or tally.old.items k 0 + cond (caller == k) entries 0 }
{
    if caller < CALLERS {
        tally[caller as usize] += entries;
    }
}
