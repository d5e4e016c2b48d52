//! A journal as the keeper of a session's records.
#![tactic(auto)]

ghost use Rattle.std.specs.Prelude.{◌≡◌, ℕ, List, [], ◌++◌, Bool, true, false, OnOk, OnErr};
ghost use Rattle.wh_journal.specs.Keeping.{Held, IsSafe, Adds, KeepsAll, KeepsFront, adds_none, adds_both, kept_safe, keeps_none, keeps_both};

use crate::journal::Journal;
use wh_session::{KeepFault, Keeper};

/// Keeps the log's records in a journal. It has no place for what rests on the log, and keeps nothing of that.
#[derive(Drop)]
pub struct JournalKeeper<'a, J: Journal> {
    pub journal: &'a mut J,
}

impl<'a, J: Journal> Keeper for JournalKeeper<'a, J> {
    ghost Held = { Held };

    ghost holds = { λ k. record { name = k.journal.ghost_name; contents = J.contents k.journal.now; synced = J.synced k.journal.now; failed = J.failed k.journal.now } };

    ghost is_safe = { λ h. IsSafe h };

    ghost adds = { λ a r b. Adds a r b };

    ghost keeps = { λ a r b. KeepsAll a r b };

    ghost leaves = { λ a r b. KeepsFront a r b };

    ghost single = { false };

    fn is_single(&self) -> bool {
        false
    }

    fn add(&mut self, log: &[u8]) -> Result<(), KeepFault> {
        match self.journal.append(log) {
            Ok(()) => Ok(()),
            Err(_) => Err(KeepFault),
        }
    }

    fn add_more(&mut self, _more: &[u8]) -> Result<(), KeepFault> {
        Ok(())
    }

    fn sync(&mut self) -> Result<(), KeepFault> {
        match self.journal.sync() {
            Ok(()) => Ok(()),
            Err(_) => Err(KeepFault),
        }
    }

    ghost adds_none = { adds_none };

    ghost adds_both = { adds_both };

    ghost kept_safe = { kept_safe };

    ghost keeps_none = { keeps_none };

    ghost keeps_both = { keeps_both };
}
