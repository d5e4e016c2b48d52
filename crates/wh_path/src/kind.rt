//! The kinds of conflicts, as Stern et al. (SoCS 2019) name them.
#![tactic(auto)]

/// Where two paths come into each other's way.
#[derive(Clone, Copy, Debug, PartialEq, Eq)]
pub enum Conflict {
    /// Both are at one cell at time k.
    Vertex { k: u64 },
    /// They exchange cells between k and k + 1.
    Swap { k: u64 },
    /// One enters between k and k + 1 where the other was at k.
    Follow { k: u64 },
}
