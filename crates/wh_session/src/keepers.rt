//! Keepers: one that keeps nothing, and one in memory.

ghost use Rattle.std.specs.Prelude.{◌≡◌, List, ℕ, [], ◌++◌, Bool, true, false, OnOk, OnErr};
ghost use Rattle.wh_session.specs.Machines.{Records, joined};
ghost use Rattle.wh_session.specs.Keeping.{PartOf, memory_none, memory_both};

use crate::keeper::{KeepFault, Keeper};
use std::alloc::Global;

/// Keeps nothing: only records that hold nothing can be kept. Each line is told before the next is served.
#[derive(Drop)]
pub struct NoKeeper;

impl Keeper for NoKeeper {
    ghost Held = { Unit {0} };

    ghost holds = { λ k. tt };

    ghost is_safe = { λ h. Unit {0} };

    ghost adds = { λ a r b. Unit {0} };

    ghost keeps = { λ a r b. Unit {0} };

    ghost leaves = { λ a r b. ⊥ };

    ghost single = { true };

    #[inline(always)]
    fn is_single(&self) -> bool {
        true
    }

    #[inline(always)]
    fn takes_records(&self) -> bool {
        false
    }

    fn add(&mut self, _log: &[u8]) -> Result<(), KeepFault> {
        Ok(())
    }

    fn add_more(&mut self, _more: &[u8]) -> Result<(), KeepFault> {
        Ok(())
    }

    fn sync(&mut self) -> Result<(), KeepFault> {
        Ok(())
    }

    ghost adds_none = { λ a. tt };

    ghost adds_both = { λ a b c r s p q. tt };

    ghost kept_safe = { λ a r b p. tt };

    ghost keeps_none = { λ a p. tt };

    ghost keeps_both = { λ a b c r s p q. tt };
}

/// Keeps records in memory.
#[derive(Drop)]
pub struct Memory {
    pub log: Vec<u8>,
    pub more: Vec<u8>,
}

impl Memory {
    pub fn new(alloc: Global) -> Memory
        ensures log { result.log.items ≡ [] }
        ensures more { result.more.items ≡ [] }
    {
        Memory {
            log: Vec::new(alloc),
            more: Vec::new(alloc),
        }
    }
}

impl Keeper for Memory {
    ghost Held = { Records };

    ghost holds = { λ m. record { log = m.log.items; more = m.more.items } };

    ghost is_safe = { λ h. Unit {0} };

    ghost adds = { λ a r b. b ≡ joined a r };

    ghost keeps = { λ a r b. b ≡ joined a r };

    ghost leaves = { λ a r b. PartOf a r b };

    ghost single = { false };

    fn is_single(&self) -> bool {
        false
    }

    fn add(&mut self, log: &[u8]) -> Result<(), KeepFault> {
        match self.log.extend_from_slice(log) {
            Ok(()) => Ok(()),
            Err(_) => Err(KeepFault),
        }
    }

    fn add_more(&mut self, more: &[u8]) -> Result<(), KeepFault> {
        match self.more.extend_from_slice(more) {
            Ok(()) => Ok(()),
            Err(_) => Err(KeepFault),
        }
    }

    fn sync(&mut self) -> Result<(), KeepFault> {
        Ok(())
    }

    ghost adds_none = { memory_none };

    ghost adds_both = { memory_both };

    ghost kept_safe = { λ a r b p. tt };

    ghost keeps_none = { λ a p. memory_none a };

    ghost keeps_both = { memory_both };
}
