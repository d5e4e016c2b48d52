//! Why a line of a log gave no entry.

ghost use Rattle.std.specs.Prelude.{◌≡◌};
ghost use Rattle.wh_log.specs.declared.entry_fault.EntryFault.TheVariants.{NoMemory};

use std::alloc::{AllocError, AllocFailed};

/// Why a line gave no entry.
#[derive(Clone, Copy, Debug, PartialEq, Eq)]
pub enum EntryFault {
    /// It is not in the format.
    Form,
    /// Memory ran out.
    NoMemory,
}

impl From<AllocError> for EntryFault {
    ghost from_gives = { λ _ e. e ≡ NoMemory };

    fn from(_e: AllocError) -> EntryFault {
        EntryFault::NoMemory
    }
}

impl<T: Drop> From<AllocFailed<T>> for EntryFault {
    ghost from_gives = { λ _ e. e ≡ NoMemory };

    fn from(_e: AllocFailed<T>) -> EntryFault {
        EntryFault::NoMemory
    }
}
