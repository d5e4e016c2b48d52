//! Why there is no path.
#![tactic(auto)]

ghost use Rattle.std.specs.Prelude.{◌≡◌};
ghost use Rattle.wh_search.specs.declared.fault.Unfinished.TheVariants.{NoMemory};

use std::alloc::AllocError;

/// Why there is no path.
#[derive(Clone, Copy, Debug, PartialEq, Eq)]
pub enum Fault {
    /// No path exists that does it, however long.
    NoPath,
    /// Memory ran out.
    NoMemory,
    /// It takes more expansions than were left.
    Effort,
}

/// Why a search ended before it could tell whether there is a path.
#[derive(Clone, Copy, Debug, PartialEq, Eq)]
pub enum Unfinished {
    /// Memory ran out.
    NoMemory,
    /// It takes more expansions than were left.
    Effort,
}

impl From<AllocError> for Unfinished {
    ghost from_gives = { λ _ e. e ≡ NoMemory };

    fn from(_error: AllocError) -> Self {
        Unfinished::NoMemory
    }
}
