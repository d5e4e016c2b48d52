//! Tells a log to a judge.

ghost use Rattle.std.specs.Prelude.{◌≡◌, ◌+◌, IfOk};
ghost use Rattle.wh_log.specs.Judges.{CanOpen, Concludes};

use crate::fault::NoMemory;
use crate::head::Head;
use crate::judge::Judge;
use crate::look::read_head;
use crate::tell_entries::{Stop, Told, tell_lines};
use std::alloc::Global;

/// What came of a log that a judge was told.
#[derive(Clone, Copy, Debug, PartialEq, Eq)]
pub enum Followed {
    /// It is a log, and this many entries are steps.
    Whole { entries: u32 },
    /// The first line, from 1, with which no log begins whose entries are steps.
    Bad { line: u64 },
}

/// The fault of the line at this distance after the entries.
fn bad(entries: u32, further: u32) -> Followed
    ensures { result ≡ Followed.Bad (entries + further) }
{
    Followed::Bad {
        line: u64::from(entries) + u64::from(further),
    }
}

/// Tells a log to a judge, entry by entry, and stops at the first line that is not in the format or whose entry the judge
/// refuses. Lines are counted from 1; a line that is missing is the one after the last. The judge must accept some
/// opening: else line 1 would be the first bad one.
///
/// Error: `NoMemory` where the judge or a path runs out of memory.
pub fn follow<J: Judge>(alloc: Global, judge: &mut J, text: &[u8]) -> Result<Followed, NoMemory>
    requires { CanOpen J.opens judge.old }
    ensures { IfOk result (Concludes J.opens J.steps text.now judge.old judge.new) }
{
    let (version, clock, slots, rest) = match read_head(alloc, text)? {
        Head::Start {
            version,
            clock,
            slots,
            rest,
        } => (version, clock, slots, rest),
        Head::NoHead => return Ok(Followed::Bad { line: 1 }),
        Head::NoStart { .. } => return Ok(Followed::Bad { line: 2 }),
    };
    if !judge.open(alloc, clock, slots)? {
        return Ok(Followed::Bad { line: 2 });
    }
    let Told { entries, stop, .. } = tell_lines(alloc, judge, version, 0, rest)?;
    match stop {
        Stop::End => Ok(Followed::Whole { entries }),
        Stop::TextAfter => Ok(bad(entries, 4)),
        Stop::NoLine => Ok(bad(entries, 3)),
        Stop::WrongLine => Ok(bad(entries, 3)),
        Stop::Refused => Ok(bad(entries, 3)),
    }
}
