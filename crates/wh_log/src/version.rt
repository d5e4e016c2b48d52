//! The versions of a log.

/// The version of a log: in the first a task has exactly two stops, in the second 2 to 8.
#[derive(Clone, Copy, Debug, PartialEq, Eq)]
pub enum Version {
    /// `wlog 1`
    One,
    /// `wlog 2`
    Two,
}
