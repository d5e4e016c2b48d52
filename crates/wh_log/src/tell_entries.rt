//! Tells a judge the entries of a log, one by one: the one loop over them, whether the log is whole or may have been cut.

ghost use Rattle.std.specs.Prelude.{◌<◌, ◌^◌, IfOk};
ghost use Rattle.wh_log.specs.Behinds.{StopsAt, TellsOn};

use crate::fault::NoMemory;
use crate::judge::Judge;
use crate::look::next;
use crate::places::Place;
use crate::version::Version;
use std::alloc::Global;

/// Why no further line is told.
#[derive(Clone, Copy, Debug, PartialEq, Eq)]
pub(crate) enum Stop {
    /// No line stands whole.
    NoLine,
    /// The end line, and nothing else.
    End,
    /// The end line, and more after it.
    TextAfter,
    /// A line that is neither.
    WrongLine,
    /// An entry that is no step.
    Refused,
}

/// How far a judge was told some lines.
#[derive(Drop)]
pub(crate) struct Told<'a> {
    pub entries: u32,
    pub rest: &'a [u8],
    pub stop: Stop,
}

/// Tells a judge the entries that stand whole at the front of a text, after a number of others.
pub(crate) fn tell_lines<'a, J: Judge>(
    alloc: Global,
    judge: &mut J,
    version: Version,
    entries: u32,
    text: &'a [u8],
) -> Result<Told<'a>, NoMemory>
    requires { entries < 10 ^ 9 }
    ensures few { IfOk result (λ told. told.entries < 10 ^ 9) }
    ensures on { IfOk result (λ told. TellsOn J.opens J.steps version entries judge.old text.now told.entries judge.new told.rest.now) }
    ensures stops { IfOk result (λ told. StopsAt J.steps version told.entries judge.new told.rest.now told.stop) }
{
    let mut entries = entries;
    let mut rest = text;
    loop {
        let stop = match next(alloc, version, entries, rest)? {
            Place::Next { entry, rest: after } => {
                if judge.step(alloc, entry)? {
                    entries += 1;
                    rest = after;
                    continue;
                }
                Stop::Refused
            }
            Place::NoLine => Stop::NoLine,
            Place::End => Stop::End,
            Place::TextAfter => Stop::TextAfter,
            Place::WrongLine => Stop::WrongLine,
        };
        return Ok(Told {
            entries,
            rest,
            stop,
        });
    }
}
