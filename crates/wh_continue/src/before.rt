//! What came before the entries of a log.
#![tactic(auto)]

ghost use Rattle.std.specs.Prelude.{◌≡◌, ◌≤◌, ◌<◌, ◌+◌, ◌^◌, ℕ, None, Some, IfSome, IfNone};
ghost use Rattle.std.specs.List.{sum_by};
ghost use Rattle.wh_front.specs.declared.front.Count.{Count as Told};
ghost use Rattle.wh_continue.specs.Starting.{before_of};

use std::marker::Model;
use wh_front::Count;
use wh_resume::Preface;

/// What came before the entries of a log: entries of the run in other logs, fewer than 2^63, and the lines of this one.
#[derive(Drop)]
pub struct EntriesBefore {
    entries: u64,
    lines: u32,
}

impl Model for EntriesBefore {
    ghost use Rattle.std.specs.Prelude.{◌<◌, ◌^◌};
    ghost use Rattle.wh_continue.specs.Before.{Before};

    ghost Value = { Before };

    ghost view = { λ b. record { entries = b.entries; lines = b.lines } };

    ghost invariant = { λ b. b.entries < 2 ^ 63 };
}

/// How many entries these counts tell in all: none where those are 2^63 or more.
fn entries_of(counts: &[Count]) -> Option<u64>
    ensures some { IfSome result (λ total. (total ≡ sum_by (λ (count : Told). count.entries) counts.now) × (total < 2 ^ 63)) }
    ensures none { IfNone result (2 ^ 63 ≤ sum_by (λ (count : Told). count.entries) counts.now) }
{
    let mut total: u64 = 0;
    for count in counts {
        match total.checked_add(count.entries) {
            Some(sum) if sum < 1 << 63 => total = sum,
            _ => return None,
        }
    }
    Some(total)
}

impl EntriesBefore {
    /// Before a log that begins with its two lines.
    pub(crate) fn none() -> EntriesBefore
        ensures { result ≡ before_of None }
    {
        EntriesBefore {
            entries: 0,
            lines: 2,
        }
    }

    /// Before a log that begins with a front that tells this: none where its counts make 2^63 or more.
    pub(crate) fn told(preface: &Preface) -> Option<EntriesBefore>
        requires few { preface.now.lines < 2 ^ 32 }
        ensures some { IfSome result (λ before. before ≡ before_of (Some preface.now)) }
        ensures none { IfNone result (2 ^ 63 ≤ (before_of (Some preface.now)).entries) }
    {
        match entries_of(preface.head.counts.as_slice()) {
            Some(entries) => Some(EntriesBefore {
                entries,
                lines: preface.lines as u32,
            }),
            None => None,
        }
    }

    /// How many entries these are.
    pub fn entries(&self) -> u64
        ensures value { result ≡ self.now.entries }
        ensures few { self.now.entries < 2 ^ 63 }
    {
        self.entries
    }

    /// How many lines of the log stand before its entries.
    pub fn lines(&self) -> u64
        ensures value { result ≡ self.now.lines }
        ensures few { result < 2 ^ 32 }
    {
        u64::from(self.lines)
    }

    /// How many entries these and so many more are.
    pub fn with(&self, more: usize) -> u64
        requires few { more < 2 ^ 63 }
        ensures { result ≡ self.now.entries + more }
    {
        self.entries + more as u64
    }

    /// The line, from 1, of the entry at this place of the log.
    pub fn line_of(&self, place: usize) -> u64
        requires few { place < 2 ^ 63 }
        ensures { result ≡ self.now.lines + (place + 1) }
    {
        u64::from(self.lines) + (place as u64 + 1)
    }
}
