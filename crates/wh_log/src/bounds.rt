//! How far a log goes.

/// The most entries of a log: their numbers have at most nine digits, so a text with one more is no log.
pub const MOST_ENTRIES: usize = 999_999_999;

/// The last clock that a log can tell, in steps of time. It is that of a warehouse; a word for a later one is in no log.
pub const LAST_CLOCK: u64 = 1_000_000_000;

/// The most bytes that are read at once; what stands behind them is read later.
pub const PIECE: usize = 65_536;
