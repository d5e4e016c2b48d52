//! Why a map is refused.

ghost use Rattle.std.specs.Prelude.{◌≡◌, ◌+◌, [], ◌∷◌, Ok, Err, MatchResult};
ghost use Rattle.wh_grid.specs.declared.fault.MapFault.TheVariants.{NoMemory, At};

use std::alloc::{AllocError, AllocFailed};
use thiserror::Error;
use wh_text::Lines;

/// What is wrong with a line. It is shown by its code.
#[derive(Clone, Copy, Debug, PartialEq, Eq, Error)]
pub enum MapKind {
    /// A line of the head is missing or of another form.
    #[error("M1")]
    Head,
    /// A side is 0.
    #[error("M2")]
    Size,
    /// A row is shorter or longer than the width.
    #[error("M3")]
    RowLength,
    /// A byte of a row is no letter of maps.
    #[error("M4")]
    Letter,
    /// A row is missing.
    #[error("M5")]
    RowsMissing,
    /// There is text after the rows.
    #[error("M6")]
    TextAfter,
    /// A side is above 4096.
    #[error("M7")]
    TooLarge,
}

/// The first fault of a map, and its line, from 1. It is shown as `M3 line 5`.
#[derive(Clone, Copy, Debug, PartialEq, Eq, Error)]
#[error("{kind} line {line}")]
pub struct Fault {
    pub kind: MapKind,
    pub line: u64,
}

/// Why no grid was read: memory ran out, or the map has a fault.
#[derive(Clone, Copy, Debug, PartialEq, Eq, Error)]
pub enum MapFault {
    #[error("E90")]
    NoMemory,
    #[error("{0}")]
    At(Fault),
}

impl From<Fault> for MapFault {
    ghost from_gives = { λ fault e. e ≡ At fault };

    fn from(fault: Fault) -> MapFault {
        MapFault::At(fault)
    }
}

impl From<AllocError> for MapFault {
    ghost from_gives = { λ _ e. e ≡ NoMemory };

    fn from(_e: AllocError) -> MapFault {
        MapFault::NoMemory
    }
}

impl<T: Drop> From<AllocFailed<T>> for MapFault {
    ghost from_gives = { λ _ e. e ≡ NoMemory };

    fn from(_e: AllocFailed<T>) -> MapFault {
        MapFault::NoMemory
    }
}

/// The next line. Where none is left, that is a fault of the line after the last.
pub fn next_line<'a>(lines: &mut Lines<'a>, missing: MapKind) -> Result<&'a [u8], Fault>
    ensures { MatchResult result
        (λ line. (lines.old.lines ≡ line.now ∷ lines.new.lines) × (lines.new.count ≡ lines.old.count + 1))
        (λ e. (lines.old.lines ≡ []) × (lines.new ≡ lines.old) × (e ≡ record { kind = missing; line = lines.old.count + 1 })) }
{
    match lines.next_line() {
        Some(line) => Ok(line),
        None => Err(Fault {
            kind: missing,
            line: lines.count() + 1,
        }),
    }
}

/// What the line that was read last says, or its fault at its place.
pub fn located<T>(lines: &Lines, read: Result<T, MapKind>) -> Result<T, Fault>
    ensures { MatchResult read (λ x. result ≡ Ok x) (λ kind. result ≡ Err (record { kind = kind; line = lines.now.count })) }
{
    match read {
        Ok(x) => Ok(x),
        Err(kind) => Err(Fault {
            kind,
            line: lines.count(),
        }),
    }
}
