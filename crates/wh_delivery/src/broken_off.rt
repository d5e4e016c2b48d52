//! Why a delivery was broken off.

/// Why a delivery was broken off.
#[derive(Clone, Copy, Debug, PartialEq, Eq)]
pub enum BrokenOff {
    /// Memory ran out.
    NoMemory,
    /// The warehouse is closed.
    Closed,
    /// The clock is at its last.
    ClockFull,
    /// All stand, and each agent that asked was refused for lack of a path.
    Stuck,
}
