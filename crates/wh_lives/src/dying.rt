//! A log file whose process is killed.
#![tactic(auto)]

ghost use Rattle.std.specs.Prelude.{◌≡◌, ◌+◌, true, take};
ghost use Rattle.wh_lives.specs.Twice.{LeavesOf};

use std::alloc::Global;
use wh_journal::{Journal, JournalFault, LogFile, LogFileFault, MemoryJournal};
use wh_log::{Source, SourceFault};

/// A log file that takes a number of calls. Each call after these fails and touches nothing, as those that a process never makes
/// because it was killed before. A kill within a call leaves nothing else than a kill before that call or before the next one may.
#[derive(Drop)]
pub struct Dying<F> {
    file: F,
    calls: u64,
    is_dead: bool,
}

impl<F> Dying<F> {
    /// The file, where so many calls of it are made.
    pub fn new(file: F, calls: u64) -> Dying<F>
        ensures file { result.file ≡ file }
    {
        Dying {
            file,
            calls,
            is_dead: false,
        }
    }

    /// Counts a call. Whether it is not made any more.
    fn has_died(&mut self) -> bool
        ensures file { self.new.file ≡ self.old.file }
        ensures dead { result ≡ self.new.is_dead }
        ensures still { self.old.is_dead ≡ true → result ≡ true }
    {
        if self.calls == 0 {
            self.is_dead = true;
        } else {
            self.calls -= 1;
        }
        self.is_dead
    }
}

impl<F: LogFile> Journal for Dying<F> {
    ghost contents = { λ d. F.contents d.file };

    ghost synced = { λ d. F.synced d.file };

    ghost failed = { λ d. d.is_dead };

    fn append(&mut self, bytes: &[u8]) -> Result<(), JournalFault> {
        if self.has_died() {
            return Err(JournalFault);
        }
        match self.file.append(bytes) {
            Ok(()) => Ok(()),
            Err(fault) => {
                self.is_dead = true;
                Err(fault)
            }
        }
    }

    fn sync(&mut self) -> Result<(), JournalFault> {
        if self.has_died() {
            return Err(JournalFault);
        }
        match self.file.sync() {
            Ok(()) => Ok(()),
            Err(fault) => {
                self.is_dead = true;
                Err(fault)
            }
        }
    }
}

impl<F: LogFile> Source for Dying<F> {
    ghost held = { λ d. F.held d.file };

    fn add_piece(&mut self, place: usize, buffer: &mut Vec<u8>) -> Result<(), SourceFault> {
        if self.has_died() {
            return Err(SourceFault::Unread);
        }
        self.file.add_piece(place, buffer)
    }
}

impl<F: LogFile> LogFile for Dying<F> {
    fn text(&mut self, alloc: Global) -> Result<Vec<u8>, LogFileFault> {
        if self.calls == 0 || self.is_dead {
            return Err(LogFileFault::Unread);
        }
        self.calls -= 1;
        self.file.text(alloc)
    }

    fn put(&mut self, place: usize, byte: u8) -> Result<(), JournalFault> {
        if self.has_died() {
            return Err(JournalFault);
        }
        match self.file.put(place, byte) {
            Ok(()) => Ok(()),
            Err(fault) => {
                self.is_dead = true;
                Err(fault)
            }
        }
    }

    fn cut(&mut self, bytes: usize) -> Result<(), JournalFault> {
        if self.has_died() {
            return Err(JournalFault);
        }
        match self.file.cut(bytes) {
            Ok(()) => Ok(()),
            Err(fault) => {
                self.is_dead = true;
                Err(fault)
            }
        }
    }

    ghost one_text = { λ d. F.one_text d.file };
}

/// What a kill leaves of a journal in memory: what was synced, and at most so many bytes of the rest.
pub fn killed(dying: Dying<MemoryJournal>, more: usize) -> MemoryJournal
    ensures { LeavesOf (⟦<MemoryJournal as Journal>⟧.synced dying.file) (⟦<MemoryJournal as Journal>⟧.contents dying.file) (⟦<MemoryJournal as Journal>⟧.contents result) }
{
    let Dying { file, .. } = dying;
    let MemoryJournal { mut held, safe, .. } = file;
    held.truncate(safe.saturating_add(more));
    let safe = held.len();
    MemoryJournal {
        held,
        safe,
        has_failed: false,
    }
}
