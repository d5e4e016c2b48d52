//! The log and the file of arrivals, which keep the records of a session.
#![tactic(auto)]

ghost use Rattle.std.specs.Prelude.{◌≡◌, ℕ, List, [], ◌++◌, Bool, true, false, OnOk, OnErr};
ghost use Rattle.std.specs.Io.KnownBytes.{Keeps};
ghost use Rattle.wh_convoy.specs.Files.{File, Files, IsSafe, Adds, KeepsBoth, Leaves, adds_none, adds_both, kept_safe, keeps_none, keeps_both};

use wh_journal::Journal;
use wh_session::{KeepFault, Keeper};

/// Keeps the log's records in one journal, and what rests on the log in another. A journal is synced only where something waits in it,
/// and nothing is appended to the second before the first is synced.
#[derive(Drop)]
pub(crate) struct LogAndArrivals<'a, J: Journal> {
    pub log: &'a mut J,
    pub arrivals: &'a mut J,
    pub log_waits: bool,
    pub arrivals_wait: bool,
}

impl<'a, J: Journal> LogAndArrivals<'a, J> {
    /// Syncs the log, where something waits in it.
    fn sync_log(&mut self) -> Result<(), KeepFault>
        ensures name { self.new.log.ghost_name ≡ self.old.log.ghost_name }
        ensures others { (self.new.arrivals ≡ self.old.arrivals) × (self.new.arrivals_wait ≡ self.old.arrivals_wait) }
        ensures contents { Keeps (J.contents self.old.log.now) (J.contents self.new.log.now) }
        ensures waits { OnOk result (self.new.log_waits ≡ false) }
        ensures synced { OnOk result ((self.old.log_waits ≡ false → J.synced self.old.log.now ≡ J.contents self.old.log.now) → J.synced self.new.log.now ≡ J.contents self.new.log.now) }
        ensures waited { OnErr result (self.old.log_waits ≡ true) }
        ensures stays { OnErr result (Keeps (J.synced self.old.log.now) (J.synced self.new.log.now)) }
        ensures failed { OnErr result (J.failed self.new.log.now ≡ true) }
    {
        if !self.log_waits {
            return Ok(());
        }
        match self.log.sync() {
            Ok(()) => {
                self.log_waits = false;
                Ok(())
            }
            Err(_) => Err(KeepFault),
        }
    }
}

impl<'a, J: Journal> Keeper for LogAndArrivals<'a, J> {
    ghost Held = { Files };

    ghost holds = { λ k. record {
      log = record { name = k.log.ghost_name; contents = J.contents k.log.now; synced = J.synced k.log.now; failed = J.failed k.log.now; waits = k.log_waits };
      arrivals = record { name = k.arrivals.ghost_name; contents = J.contents k.arrivals.now; synced = J.synced k.arrivals.now; failed = J.failed k.arrivals.now; waits = k.arrivals_wait };
    } };

    ghost is_safe = { λ h. IsSafe h };

    ghost adds = { λ a r b. Adds a r b };

    ghost keeps = { λ a r b. KeepsBoth a r b };

    ghost leaves = { λ a r b. Leaves a r b };

    ghost single = { false };

    fn is_single(&self) -> bool {
        false
    }

    fn add(&mut self, log: &[u8]) -> Result<(), KeepFault> {
        if log.is_empty() {
            return Ok(());
        }
        if self.arrivals_wait {
            return Err(KeepFault);
        }
        self.log_waits = true;
        match self.log.append(log) {
            Ok(()) => Ok(()),
            Err(_) => Err(KeepFault),
        }
    }

    fn add_more(&mut self, more: &[u8]) -> Result<(), KeepFault> {
        if more.is_empty() {
            return Ok(());
        }
        match self.sync_log() {
            Ok(()) => {}
            Err(fault) => return Err(fault),
        }
        self.arrivals_wait = true;
        match self.arrivals.append(more) {
            Ok(()) => Ok(()),
            Err(_) => Err(KeepFault),
        }
    }

    fn sync(&mut self) -> Result<(), KeepFault> {
        match self.sync_log() {
            Ok(()) => {}
            Err(fault) => return Err(fault),
        }
        if !self.arrivals_wait {
            return Ok(());
        }
        match self.arrivals.sync() {
            Ok(()) => {
                self.arrivals_wait = false;
                Ok(())
            }
            Err(_) => Err(KeepFault),
        }
    }

    ghost adds_none = { adds_none };

    ghost adds_both = { adds_both };

    ghost kept_safe = { kept_safe };

    ghost keeps_none = { keeps_none };

    ghost keeps_both = { keeps_both };
}
