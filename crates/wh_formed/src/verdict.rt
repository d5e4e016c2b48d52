//! What the check returns.
#![tactic(auto)]

use std::alloc::AllocError;

/// Whether an instance is well-formed, and why not.
#[derive(Clone, Copy, Debug, PartialEq, Eq)]
pub enum Verdict {
    /// There are `have` parkings for `need` agents, which are more.
    FewParkings { have: u32, need: u32 },
    /// The numbers, from 0, of the first two points, a before b in the order of their file, that no
    /// walk joins without meeting a third one.
    Cut { a: u32, b: u32 },
    /// Well-formed.
    Formed,
}

/// Memory ran out.
#[derive(Clone, Copy, Debug, PartialEq, Eq)]
pub struct NoMemory;

impl From<AllocError> for NoMemory {
    fn from(_error: AllocError) -> NoMemory {
        NoMemory
    }
}
