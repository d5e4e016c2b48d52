//! Reads a whole log.

ghost use Rattle.std.specs.Prelude.{◌≡◌, ◌++◌, ◌∷◌, [], ℕ, List, IfOk, IfErr, MatchResult, OnOk};
ghost use Rattle.wh_event.specs.declared.entry.Entry.{Entry};
ghost use Rattle.wh_log.specs.Logs.{Content, IsLogText};
ghost use Rattle.wh_log.specs.Collecting.{Opens, Adds, Faults, one_opening, one_step};

use crate::fault::NoMemory;
use crate::follow_log::{Followed, follow};
use crate::judge::Judge;
use crate::log::Log;
use std::alloc::{AllocError, Global};
use std::marker::Model;
use thiserror::Error;
use wh_event::Entry;

/// Why a text gave no log.
#[derive(Clone, Copy, Debug, PartialEq, Eq, Error)]
pub enum LogFault {
    /// Memory ran out (E90).
    #[error("memory ran out")]
    NoMemory,
    /// The first line, from 1, that is not in the format (L1).
    #[error("L1: line {line} is not in the format")]
    At { line: u64 },
}

impl From<NoMemory> for LogFault {
    ghost use Rattle.wh_log.specs.declared.reader.LogFault.TheVariants as faults;

    ghost from_gives = { λ _ e. e ≡ faults.NoMemory };

    fn from(_e: NoMemory) -> LogFault {
        LogFault::NoMemory
    }
}

/// Takes every log, and keeps what it tells.
#[derive(Drop)]
struct Collector {
    clock: u32,
    slots: Vec<u32>,
    entries: Vec<Entry>,
}

impl Model for Collector {
    ghost Value = { Content };

    ghost view = { λ l. record { clock = l.clock; slots = l.slots.items; entries = l.entries.items } };
}

impl Collector {
    fn new(alloc: Global) -> Collector
        ensures { result ≡ record { clock = 0; slots = []; entries = [] } }
    {
        Collector {
            clock: 0,
            slots: Vec::new(alloc),
            entries: Vec::new(alloc),
        }
    }

    fn into_log(self) -> Log
        ensures { result ≡ self }
    {
        let Collector {
            clock,
            slots,
            entries,
        } = self;
        Log::new(clock, slots, entries)
    }

    fn set(&mut self, clock: u32, slots: Vec<u32>)
        ensures { self.new ≡ record { clock = clock; slots = slots.items; entries = self.old.entries } }
    {
        self.clock = clock;
        self.slots = slots;
    }

    fn push(&mut self, entry: Entry) -> Result<(), AllocError>
        ensures { OnOk result (self.new ≡ record self.old { entries = self.old.entries ++ entry ∷ [] }) }
    {
        self.entries.push(entry)?;
        Ok(())
    }
}

impl Judge for Collector {
    ghost opens = { Opens };

    ghost steps = { Adds };

    fn open(&mut self, _alloc: Global, clock: u32, slots: Vec<u32>) -> Result<bool, NoMemory> {
        self.set(clock, slots);
        Ok(true)
    }

    fn step(&mut self, _alloc: Global, entry: Entry) -> Result<bool, NoMemory> {
        self.push(entry)?;
        Ok(true)
    }

    ghost one_opening = { one_opening };

    ghost one_step = { one_step };
}

/// The log that a text is, in version 1 or 2. In the text one space stands between words, each line ends in one line
/// feed, and numbers are decimal without leading zeros, so a content has one text in each version.
///
/// Errors: `At` (L1) with the first line, from 1, that is not in the format: a line that is missing is the one after the
/// last, a text after the `end` line is the line after it, a wrong count is a fault of the `end` line, and a last line
/// without its line feed is a fault of that line. `NoMemory` (E90).
pub fn read_log(alloc: Global, text: &[u8]) -> Result<Log, LogFault>
    // What is read is a log of this content.
    ensures found { IfOk result (λ log. IsLogText log text.now) }
    // A log of a content is read, and gives it, unless memory runs out.
    ensures only { (content : Content) → IsLogText content text.now → MatchResult result (λ log. log ≡ content) (λ fault. fault ≡ LogFault.NoMemory) }
    // A fault names the first line with which no log begins.
    ensures fault { IfErr result (Faults text.now) }
{
    let mut collector = Collector::new(alloc);
    match follow(alloc, &mut collector, text)? {
        Followed::Whole { .. } => Ok(collector.into_log()),
        Followed::Bad { line } => Err(LogFault::At { line }),
    }
}
