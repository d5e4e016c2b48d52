//! Reads the next line of a log.

ghost use Rattle.std.specs.Prelude.{◌≡◌, ◌<◌, ◌^◌, IfOk};
ghost use Rattle.wh_log.specs.Logs.{end_line};
ghost use Rattle.wh_log.specs.Places.{Stands, Heads};

use crate::bounds::MOST_ENTRIES;
use crate::entry_fault::EntryFault;
use crate::entry_lines::read_entry;
use crate::fault::NoMemory;
use crate::head::Head;
use crate::heads::{end_count, most_stops, start, version};
use crate::places::Place;
use crate::usual::usual;
use crate::version::Version;
use std::alloc::Global;
use wh_event::Entry;
use wh_words::whole_line;

/// The first two lines.
pub fn read_head(alloc: Global, text: &[u8]) -> Result<Head, NoMemory>
    ensures { IfOk result (λ head. Heads text.now head) }
{
    let Some((line, rest)) = whole_line(text) else {
        return Ok(Head::NoHead);
    };
    let Some(version) = version(line) else {
        return Ok(Head::NoHead);
    };
    let Some((line, rest)) = whole_line(rest) else {
        return Ok(Head::NoStart { version });
    };
    match start(alloc, line) {
        Ok((clock, slots)) => Ok(Head::Start {
            version,
            clock,
            slots,
            rest,
        }),
        Err(EntryFault::Form) => Ok(Head::NoStart { version }),
        Err(EntryFault::NoMemory) => Err(NoMemory),
    }
}

/// What follows after a number of entries, read word by word.
#[inline(never)]
fn any<'a>(
    alloc: Global,
    version: Version,
    count: u32,
    text: &'a [u8],
) -> Result<Place<'a>, NoMemory>
    requires { count < 10 ^ 9 }
    ensures { IfOk result (λ place. Stands version count text.now place) }
{
    let Some((line, rest)) = whole_line(text) else {
        return Ok(Place::NoLine);
    };
    if let Some(total) = end_count(line) {
        if total != count {
            return Ok(Place::WrongLine);
        }
        return if rest.is_empty() {
            Ok(Place::End)
        } else {
            Ok(Place::TextAfter)
        };
    }
    match read_entry(alloc, most_stops(version), line) {
        Ok(entry) => {
            if (count as usize) < MOST_ENTRIES {
                Ok(Place::Next { entry, rest })
            } else {
                Ok(Place::WrongLine)
            }
        }
        Err(EntryFault::Form) => Ok(Place::WrongLine),
        Err(EntryFault::NoMemory) => Err(NoMemory),
    }
}

/// What follows after a number of entries.
pub fn next<'a>(
    alloc: Global,
    version: Version,
    count: u32,
    text: &'a [u8],
) -> Result<Place<'a>, NoMemory>
    requires { count < 10 ^ 9 }
    ensures { IfOk result (λ place. Stands version count text.now place) }
{
    if (count as usize) < MOST_ENTRIES {
        if let Some((entry, rest)) = usual(alloc, text) {
            return Ok(Place::Next { entry, rest });
        }
    }
    any(alloc, version, count, text)
}
