//! Tells a judge a log that is read piece by piece and may have been cut anywhere.

ghost use Rattle.std.specs.Prelude.{◌≡◌, ◌<◌, ◌^◌, ◌++◌, ◌∷◌, ℕ, List, IfOk, length};
ghost use Rattle.wh_text.specs.Lines.{IsLine};
ghost use Rattle.wh_log.specs.Judges.{CanOpen};
ghost use Rattle.wh_log.specs.Behinds.{IsBadAt, IsBadStart, LacksHead, LacksStart, RecoversFrom, RecoversOn, is_bad_stop};

use crate::fault::NoMemory;
use crate::head::Head;
use crate::judge::Judge;
use crate::look::read_head;
use crate::source::{Source, SourceFault};
use crate::tell_entries::{Stop, Told, tell_lines};
use crate::version::Version;
use crate::window::{Standing, Window, read_on, read_two_lines};
use std::alloc::Global;
use wh_words::whole_line;

/// What came of the front of a log that a judge was told.
#[derive(Drop)]
pub enum Front {
    /// The first two lines stand whole, and this many entries, in this many bytes. After them comes a part of a line, or
    /// the end line and nothing else.
    Whole {
        version: Version,
        entries: u32,
        bytes: usize,
        is_ended: bool,
    },
    /// Fewer than two lines stand whole, and some log begins with these. This is all the text.
    Unopened {
        text: Vec<u8>,
    },
    /// The first line, from 1, that stands whole and with which no log begins whose entries are steps. The lines before it
    /// are this many bytes.
    Bad {
        line: u64,
        bytes: usize,
    },
}

/// How many bytes follow the first line.
fn behind_line(text: &[u8]) -> usize
    ensures { (line more : List ℕ) → IsLine line → text.now ≡ line ++ 10 ∷ more → result ≡ length more }
{
    match whole_line(text) {
        Some((_, rest)) => rest.len(),
        None => 0,
    }
}

/// The fault of the second line.
fn bad_start(text: &[u8]) -> Front
    ensures { IsBadStart text.now result }
{
    Front::Bad {
        line: 2,
        bytes: text.len().saturating_sub(behind_line(text)),
    }
}

/// What a text is that has no first line of a log.
fn no_head(standing: Standing, text: Vec<u8>) -> Front
    ensures { LacksHead standing text result }
{
    match standing {
        Standing::None => Front::Unopened { text },
        _ => Front::Bad { line: 1, bytes: 0 },
    }
}

/// What a text is that has no second line of a log.
fn no_start(standing: Standing, text: Vec<u8>) -> Front
    ensures { LacksStart standing text result }
{
    match standing {
        Standing::Two => bad_start(text.as_slice()),
        _ => Front::Unopened { text },
    }
}

/// The fault where telling stopped after a number of entries, over a rest of what was read up to a place.
fn bad_front(entries: u32, stop: Stop, rest: &[u8], place: usize) -> Front
    requires { entries < 10 ^ 9 }
    ensures { IsBadAt stop entries rest.now place result }
{
    let number = u64::from(entries);
    match stop {
        Stop::TextAfter => Front::Bad {
            line: number + 4,
            bytes: place.saturating_sub(behind_line(rest)),
        },
        _ => Front::Bad {
            line: number + 3,
            bytes: place.saturating_sub(rest.len()),
        },
    }
}

/// Whether no log goes on with the line where telling stopped.
fn is_bad(stop: Stop) -> bool
    ensures { result ≡ is_bad_stop stop }
{
    matches!(stop, Stop::TextAfter | Stop::WrongLine | Stop::Refused)
}

/// Tells a judge that has opened the entries after the first two lines, which were read up to the window.
fn follow_entries<J: Judge, S: Source>(
    alloc: Global,
    judge: &mut J,
    source: &mut S,
    version: Version,
    window: &mut Window,
) -> Result<Front, SourceFault>
    ensures front { IfOk result (RecoversOn J.opens J.steps (S.held source.old) version window.old.place window.old.bytes.items judge.old judge.new) }
    ensures same { S.held source.new ≡ S.held source.old }
{
    let mut count: u32 = 0;
    let mut ended = false;
    for _ in 0..u64::MAX {
        let Told {
            entries,
            rest,
            stop,
        } = tell_lines(alloc, judge, version, count, window.bytes.as_slice())?;
        if is_bad(stop) {
            return Ok(bad_front(entries, stop, rest, window.place));
        }
        if ended {
            return Ok(Front::Whole {
                version,
                entries,
                bytes: window.place.saturating_sub(rest.len()),
                is_ended: stop == Stop::End,
            });
        }
        let left = Vec::from_slice(alloc, rest)?;
        window.bytes = left;
        count = entries;
        ended = read_on(source, window)?;
    }
    Err(SourceFault::Unread)
}

/// Tells a log to a judge, entry by entry, as far as its lines stand whole. It is read piece by piece, and nothing of what
/// was told is kept. A log may have been cut anywhere: what follows the last line feed is a part of a line, and is not
/// told. The first line that stands whole and is not in the format, or whose entry the judge refuses, is a fault. The judge
/// must accept some opening.
///
/// Errors: `Unread` where no more can be read; `NoMemory` where the judge, a path or a line runs out of memory.
pub fn follow_front<J: Judge, S: Source>(
    alloc: Global,
    judge: &mut J,
    source: &mut S,
) -> Result<Front, SourceFault>
    requires { CanOpen J.opens judge.old }
    ensures front { IfOk result (RecoversFrom J.opens J.steps (S.held source.old) judge.old judge.new) }
    ensures same { S.held source.new ≡ S.held source.old }
{
    let mut window = Window::new(alloc);
    let standing = read_two_lines(source, &mut window)?;
    let (version, clock, slots, rest) = match read_head(alloc, window.bytes.as_slice())? {
        Head::Start {
            version,
            clock,
            slots,
            rest,
        } => (version, clock, slots, rest),
        Head::NoHead => return Ok(no_head(standing, window.bytes)),
        Head::NoStart { .. } => return Ok(no_start(standing, window.bytes)),
    };
    if !judge.open(alloc, clock, slots)? {
        return Ok(bad_start(window.bytes.as_slice()));
    }
    let left = Vec::from_slice(alloc, rest)?;
    window.bytes = left;
    follow_entries(alloc, judge, source, version, &mut window)
}
