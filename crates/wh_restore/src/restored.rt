//! A state that was restored.

use wh_front::{Before, Count, Kind, Rows, Rules};
use wh_stand::StateParts;

/// What a front tells of its run, beside the state.
#[derive(Drop)]
pub struct Head {
    /// The log before.
    pub before: Before,
    /// The rules of the run.
    pub rules: Rules,
    /// Where the state comes from.
    pub kind: Kind,
    /// How many entries each caller had before, by rising callers; those that had none are not told.
    pub counts: Rows<Count>,
}

/// What the front of a log tells.
#[derive(Drop)]
pub struct Restored<'a> {
    /// What it tells of the run.
    pub head: Head,
    /// The state, with which the run may begin.
    pub state: StateParts,
    /// Who submitted each task, by the tasks' numbers.
    pub callers: Rows<u32>,
    /// The bytes behind the line `begin`.
    pub rest: &'a [u8],
}
