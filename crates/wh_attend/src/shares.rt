//! How many entries of the journal each of those who share it may have.

ghost use Rattle.std.specs.Prelude.{◌≡◌, ◌≤◌, length};
ghost use Rattle.wh_desk.specs.Lists.{entries_of};
ghost use Rattle.wh_attend.specs.Guests.{counts_before, entries_told, share_of, sharers};
ghost use Rattle.wh_attend.specs.Shares.{IsPacingOf, worker_share};

use std::time::Duration;
use wh_continue::Start;
use wh_event::Entry;
use wh_front::Count;
use wh_host::Pacing;
use wh_options::ServeOptions;

/// The number of the worker for agents and clock, the last one.
pub(crate) const WORKER_NUMBER: u32 = 63;

/// Among how many the entries of the journal are shared: the named clients, and the worker if there is one.
pub(crate) fn sharers(options: &ServeOptions<'_>) -> u64
    requires { 1 ≤ length options.now.clients.items }
    ensures value { result ≡ sharers options.now.every (length options.now.clients.items) }
    ensures some { 1 ≤ result }
{
    let named = options.clients.len() as u64;
    match options.every {
        Some(_) => named + 1,
        None => named,
    }
}

/// How many entries more each of the named clients may have: as many as are said, or its share of the journal's.
pub(crate) fn share_of(share: Option<u32>, journal: u32, among: u64) -> u64
    requires some { 1 ≤ among }
    ensures value { result ≡ share_of share journal among }
    ensures few { result ≤ 4294967296 }
{
    match share {
        Some(share) => u64::from(share),
        None => (u64::from(journal) / among).max(1),
    }
}

/// How many more entries the worker may have: what the shares of the named clients leave, at least as many as one of them.
fn worker_share(options: &ServeOptions<'_>) -> u64
    ensures value { result ≡ worker_share options.now.share options.now.journal (length options.now.clients.items) }
    ensures few { result ≤ 4294967296 }
{
    let named = options.clients.len() as u64;
    let each = share_of(options.share, options.journal, named + 1);
    u64::from(options.journal)
        .saturating_sub(named.saturating_mul(each))
        .max(each)
}

/// How many entries a caller has in a history.
pub(crate) fn had_by(history: &[Entry], caller: u32) -> u64
    ensures value { result ≡ length (entries_of history.now caller) }
    ensures few { result ≤ length history.now }
{
    let mut count = 0;
    for entry in history {
        if entry.caller == caller {
            count += 1;
        }
    }
    count
}

/// How many entries each caller had in the logs before, as the front of the log tells it; none where it has no front.
pub(crate) fn counts_before(start: &Start) -> &[Count]
    ensures { result.now ≡ counts_before start.now.preface }
{
    match &start.preface {
        Some(preface) => preface.head.counts.as_slice(),
        None => &[],
    }
}

/// How many of them are this caller's.
pub(crate) fn entries_told(counts: &[Count], caller: u32) -> u64
    ensures { result ≡ entries_told counts.now caller }
{
    for count in counts {
        if count.caller == caller {
            return count.entries;
        }
    }
    0
}

/// How the worker for agents and clock goes on, where the options name one: until the service ends, and behind what it had in a
/// history its share of the journal may be its own.
pub(crate) fn pacing_of(options: &ServeOptions<'_>, history: &[Entry]) -> Option<Pacing>
    ensures { IsPacingOf options.now.every options.now history.now result }
{
    match options.every {
        Some(every) => Some(Pacing {
            turns: u64::MAX,
            pause: Duration::from_millis(u64::from(every)),
            entries: had_by(history, WORKER_NUMBER) + worker_share(options),
        }),
        None => None,
    }
}
