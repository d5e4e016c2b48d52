//! Why a script was not served to its end.
#![tactic(auto)]

ghost use Rattle.std.specs.Prelude.{◌≡◌};
ghost use Rattle.wh_convoy.specs.declared.fault.ConvoyFault.TheVariants as fault;

use std::alloc::AllocError;

/// Why a script was not served to its end.
#[derive(Clone, Copy, Debug, PartialEq, Eq)]
pub enum ConvoyFault {
    /// X1: the reader failed, or a fault came before.
    Broken,
    /// X2: the reader was asked 100,000,000 times.
    Endless,
    /// X3: the writer failed, took no byte, or could not be flushed.
    Unwritten,
    /// X5: one of the files failed.
    Unkept,
    /// E90: out of memory for what is to be told or kept, or the log has no number for one more entry.
    NoMemory,
}

impl From<AllocError> for ConvoyFault {
    ghost from_gives = { λ _ e. e ≡ fault.NoMemory };

    fn from(_e: AllocError) -> ConvoyFault {
        ConvoyFault::NoMemory
    }
}
