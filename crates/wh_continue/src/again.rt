//! From which entry on a run's entries can be told again.
#![tactic(auto)]

ghost use Rattle.std.specs.Prelude.{◌≡◌, IfErr, OnOk};
ghost use Rattle.wh_continue.specs.Again.{CanTellAgain, IsWhyNotAgain};

use crate::starting::Start;

/// Why entries are not told again from the one on that is named.
#[derive(Clone, Copy, Debug, PartialEq, Eq)]
pub enum AgainFault {
    /// L2: it came in a log before this one; the first entry that can be told.
    Earlier { first: u64 },
    /// L1: the run has not come to it; the line with which its log would go on.
    Missing { line: u64 },
}

/// Whether entries can be told again from the one on that is named, if one is. Entries are counted from 0, over all logs of the
/// run: the first that can be named is the first in this log, and the last is the next one of the run.
pub fn check_again(start: &Start, again: Option<u32>) -> Result<(), AgainFault>
    ensures ok { OnOk result (CanTellAgain again start.now) }
    ensures fault { IfErr result (IsWhyNotAgain again start.now) }
{
    let Some(first) = again else {
        return Ok(());
    };
    let before = start.entries_before();
    if u64::from(first) < before {
        return Err(AgainFault::Earlier { first: before });
    }
    if u64::from(first) > start.entries() {
        return Err(AgainFault::Missing {
            line: start.before.line_of(start.book.history().len()),
        });
    }
    Ok(())
}
