//! A journal in memory.
#![tactic(auto)]

ghost use Rattle.std.specs.Prelude.{◌≡◌, ◌≤◌, [], length, refl, take, Some, false};

use crate::journal::{Journal, JournalFault};
use crate::log_file::{LogFile, LogFileFault};
use std::alloc::Global;
use wh_log::{Source, SourceFault};
use wh_replay::write_all;

/// A journal in memory: what it holds, how many bytes of it were synced, and whether a call has failed.
#[derive(Drop)]
pub struct MemoryJournal {
    pub held: Vec<u8>,
    pub safe: usize,
    pub has_failed: bool,
    // What was synced is held.
    ghost within: { safe ≤ length held.items },
}

impl MemoryJournal {
    /// An empty journal.
    pub fn new(alloc: Global) -> MemoryJournal
        ensures held { result.held.items ≡ [] }
        ensures safe { result.safe ≡ 0 }
        ensures open { result.has_failed ≡ false }
    {
        MemoryJournal {
            held: Vec::new(alloc),
            safe: 0,
            has_failed: false,
        }
    }
}

impl Journal for MemoryJournal {
    ghost contents = { λ j. Some j.held.items };

    ghost synced = { λ j. Some (take j.safe j.held.items) };

    ghost failed = { λ j. j.has_failed };

    fn append(&mut self, bytes: &[u8]) -> Result<(), JournalFault> {
        if self.has_failed {
            return Err(JournalFault);
        }
        if write_all(&mut self.held, bytes).is_err() {
            self.has_failed = true;
            return Err(JournalFault);
        }
        Ok(())
    }

    fn sync(&mut self) -> Result<(), JournalFault> {
        if self.has_failed {
            return Err(JournalFault);
        }
        self.safe = self.held.len();
        Ok(())
    }
}

impl Source for MemoryJournal {
    ghost held = { λ j. Some j.held.items };

    fn add_piece(&mut self, place: usize, buffer: &mut Vec<u8>) -> Result<(), SourceFault> {
        let mut text = self.held.as_slice();
        text.add_piece(place, buffer)
    }
}

impl LogFile for MemoryJournal {
    fn text(&mut self, alloc: Global) -> Result<Vec<u8>, LogFileFault> {
        match Vec::from_slice(alloc, self.held.as_slice()) {
            Ok(text) => Ok(text),
            Err(_) => Err(LogFileFault::NoMemory),
        }
    }

    fn put(&mut self, place: usize, byte: u8) -> Result<(), JournalFault> {
        if self.has_failed || place >= self.held.len() {
            self.has_failed = true;
            return Err(JournalFault);
        }
        self.held[place] = byte;
        self.safe = self.held.len();
        Ok(())
    }

    fn cut(&mut self, bytes: usize) -> Result<(), JournalFault> {
        if self.has_failed {
            return Err(JournalFault);
        }
        self.held.truncate(bytes);
        self.safe = self.held.len();
        Ok(())
    }

    ghost one_text = { λ j. refl };
}
