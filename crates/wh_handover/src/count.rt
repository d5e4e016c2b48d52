//! How many entries of a log count.
#![tactic(auto)]

ghost use Rattle.std.specs.Prelude.{◌≡◌, ◌<◌, ◌≤◌, ◌+◌, ◌^◌, ◌⊎◌, IfNone, IfSome, length, MatchOption};
ghost use Rattle.wh_snapshot.specs.Snapshots.{all_told};
ghost use Rattle.wh_handover.specs.Prefaces.{Counts, CountsNone};

use wh_front::Count;

/// The sum of these entries: none where it does not fit 64 bits.
fn total(had: &[Count]) -> Option<u64>
    ensures some { IfSome result (λ sum. sum ≡ all_told had.now) }
    ensures none { IfNone result (2 ^ 64 ≤ all_told had.now) }
{
    let mut sum: u64 = 0;
    for count in had {
        match sum.checked_add(count.entries) {
            Some(more) => sum = more,
            None => return None,
        }
    }
    Some(sum)
}

/// How many of so many entries of a log count, where callers had had these: all, or those up to the one of the number asked for, counted
/// with those that were had. None where that one is not among them.
pub(crate) fn counted(after: Option<u32>, had: &[Count], entries: usize) -> Option<usize>
    ensures some { IfSome result (λ count. (count ≤ entries) × Counts after (all_told had.now) entries count) }
    ensures none { IfNone result (CountsNone after (all_told had.now) entries) }
{
    let Some(last) = after else {
        return Some(entries);
    };
    let sum = total(had)?;
    let last = u64::from(last);
    if last < sum || last - sum > entries as u64 {
        return None;
    }
    Some((last - sum) as usize)
}
