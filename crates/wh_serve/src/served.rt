//! How a client was served over one connection.
#![tactic(auto)]

use wh_replay::ReplayFault;

/// What ended a connection that had no fault.
#[derive(Clone, Copy, Debug, PartialEq, Eq)]
pub enum End {
    /// The input ended.
    Input,
    /// The input ended within a line, which was not served.
    Torn,
    /// The service was over. A line that had come was not served.
    Over,
}

/// A client that was served until its connection ended.
#[derive(Clone, Copy, Debug, PartialEq, Eq)]
pub struct Served {
    /// How many replies it was told, without the first line.
    pub replies: u64,
    pub end: End,
}

/// Why a client was not served until its connection ended.
#[derive(Clone, Copy, Debug, PartialEq, Eq)]
pub enum ServeFault {
    /// X1, X2, X3: its reader or its writer failed.
    Cut(ReplayFault),
    /// X5: the journal failed.
    Unjournaled,
}
