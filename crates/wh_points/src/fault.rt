//! Why a points file is refused.

ghost use Rattle.std.specs.Prelude.{◌≡◌};
ghost use Rattle.wh_points.specs.declared.fault.PointFault.TheVariants.{NoMemory, At};
ghost use Rattle.wh_points.specs.declared.fault.Refused.TheVariants as refused;

use std::alloc::{AllocError, AllocFailed};
use thiserror::Error;

/// What is wrong with a line. It is shown by its code.
#[derive(Clone, Copy, Debug, PartialEq, Eq, Error)]
pub enum FaultKind {
    /// The line has no valid form, or is longer than 256 bytes.
    #[error("P1")]
    Form,
    /// The name of the point is no name.
    #[error("P2")]
    Name,
    /// An earlier point has the name.
    #[error("P3")]
    NameTwice,
    /// The cell lies outside the map, or is blocked.
    #[error("P4")]
    Blocked,
    /// An earlier point stands at the cell.
    #[error("P5")]
    CellTwice,
    /// There are 4096 points or 256 agents already.
    #[error("P6")]
    TooMany,
    /// There is no agent. The line is the number of lines plus 1.
    #[error("P7")]
    NoAgent,
    /// No earlier line defines the point.
    #[error("P8")]
    Unknown,
    /// An earlier agent starts at the point.
    #[error("P9")]
    StartTwice,
    /// An earlier line sets the rule.
    #[error("P10")]
    RuleTwice,
}

/// The first fault of a points file, and its line, from 1. It is shown as `P4 line 2`.
#[derive(Clone, Copy, Debug, PartialEq, Eq, Error)]
#[error("{kind} line {line}")]
pub struct Fault {
    pub kind: FaultKind,
    pub line: u64,
}

/// Why no points were read: memory ran out, or the file has a fault.
#[derive(Clone, Copy, Debug, PartialEq, Eq, Error)]
pub enum PointFault {
    #[error("E90")]
    NoMemory,
    #[error("{0}")]
    At(Fault),
}

/// Why a line is not taken.
#[derive(Clone, Copy, Debug, PartialEq, Eq)]
pub enum Refused {
    NoMemory,
    Line(FaultKind),
}

impl From<FaultKind> for Refused {
    ghost from_gives = { λ kind e. e ≡ refused.Line kind };

    fn from(kind: FaultKind) -> Refused {
        Refused::Line(kind)
    }
}

impl From<AllocError> for Refused {
    ghost from_gives = { λ _ e. e ≡ refused.NoMemory };

    fn from(_e: AllocError) -> Refused {
        Refused::NoMemory
    }
}
