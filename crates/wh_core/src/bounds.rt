//! How far a warehouse goes.

/// The most tasks of a warehouse, with those that are done. A submit beyond them is refused: `TasksFull`.
pub const MOST_TASKS: u32 = 1_000_000;

/// The last clock, in steps of time. A tick beyond it is refused: `ClockFull`.
pub const LAST_CLOCK: u32 = 1_000_000_000;
