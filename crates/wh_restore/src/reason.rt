//! Why no state is restored.

ghost use Rattle.std.specs.Prelude.{◌≡◌};
ghost use Rattle.wh_restore.specs.Restoring as restoring;
ghost use Rattle.wh_restore.specs.declared.reason.Refusal.TheVariants as refusals;
ghost use Rattle.wh_restore.specs.declared.reason.RestoreFault.TheVariants as faults;

use std::alloc::AllocError;
use wh_stand::{Flaw, Refused};

/// Why no front of a sound state goes on with a line. Each is tested only where none before it is found.
#[derive(Clone, Copy, Debug, PartialEq, Eq)]
pub enum Reason {
    /// S1: the line is in no front, or not here, or not whole.
    Form,
    /// S2: there are fewer or more lines of agents or tasks than were told.
    Count,
    /// S2 to S10: what is wrong with the state.
    Flaw(Flaw),
    /// S11: the rules are not those of the run.
    Rules,
}

/// Why no state was restored.
#[derive(Clone, Copy, Debug, PartialEq, Eq)]
pub enum RestoreFault {
    /// The first line with a flaw, by its number from 1, and why.
    Line { line: u64, reason: Reason },
    /// Memory ran out (E90).
    NoMemory,
}

impl From<AllocError> for RestoreFault {
    ghost from_gives = { λ _ e. e ≡ faults.NoMemory };

    fn from(_e: AllocError) -> RestoreFault {
        RestoreFault::NoMemory
    }
}

/// Why a line is not taken.
#[derive(Clone, Copy, Debug, PartialEq, Eq)]
pub(crate) enum Refusal {
    /// Memory ran out.
    NoMemory,
    /// The first flaw of the line.
    Reason(Reason),
}

impl From<AllocError> for Refusal {
    ghost from_gives = { λ _ e. e ≡ refusals.NoMemory };

    fn from(_e: AllocError) -> Refusal {
        Refusal::NoMemory
    }
}

/// What the judge of states refused.
pub(crate) fn refusal_of(refused: Refused) -> Refusal
    ensures { result ≡ restoring.refusal_of refused }
{
    match refused {
        Refused::NoMemory => Refusal::NoMemory,
        Refused::Flaw(flaw) => Refusal::Reason(Reason::Flaw(flaw)),
    }
}

impl Refusal {
    /// What this says of a line.
    pub(crate) fn at(self, line: u64) -> RestoreFault
        ensures { result ≡ restoring.fault_at line self }
    {
        match self {
            Refusal::NoMemory => RestoreFault::NoMemory,
            Refusal::Reason(reason) => RestoreFault::Line { line, reason },
        }
    }
}
