//! Verifies a log.
#![tactic(auto)]

ghost use Rattle.std.specs.Prelude.{◌≡◌, ◌≤◌, IfOk, length, false};
ghost use Rattle.wh_points.specs.Points.{IsLayout};
ghost use Rattle.wh_log.specs.Logs.{Content, IsLogText};
ghost use Rattle.wh_judge.specs.Verifying.{Says, SaysUnended, IsRunOf, told_front};

use crate::follower::Follower;
use crate::instance::Instance;
use std::alloc::Global;
use wh_grid::Grid;
use wh_log::{Followed, Front, NoMemory, follow, follow_front};
use wh_points::Points;

/// What a text is to a warehouse.
#[derive(Clone, Copy, Debug, PartialEq, Eq)]
pub enum Verified {
    /// A log whose entries, this many, are a run from the opening state.
    Run { entries: u32 },
    /// No such log: the first line, from 1, that is not in the format or whose entry is no step.
    Bad { line: u64 },
}

/// Whether a text is a log whose entries are a run over the grid and the points, from the opening state with its clock
/// and its slots. Else the first line is told with which no such log begins: a list of slots of another length than the
/// agents is a fault of line 2, a line that is missing is the one after the last. The log is read once, with memory
/// for the state and one line. Paths are to end at the last stop: a log of a run in which they go on home is one that
/// `verify_over` tells.
///
/// Error: `NoMemory` when out of memory.
pub fn verify(alloc: Global, grid: &Grid, points: &Points, log: &[u8]) -> Result<Verified, NoMemory>
    requires layout { IsLayout grid.now points.now }
    requires some { 1 ≤ length points.now.agents }
    // What is said of the text is so.
    ensures says { IfOk result (Says (record { grid = grid.now; layout = points.now; homes = false }) log.now) }
    // A log whose entries are a run is told as one.
    ensures run { (content : Content) → IsLogText content log.now → IsRunOf (record { grid = grid.now; layout = points.now; homes = false }) content → IfOk result (λ told. told ≡ Verified.Run (length content.entries)) }
{
    verify_over(alloc, Instance::new(grid, points), log)
}

/// The same over any instance, whether its paths go on home or end at the last stop.
///
/// Error: `NoMemory` when out of memory.
pub fn verify_over(alloc: Global, instance: Instance, log: &[u8]) -> Result<Verified, NoMemory>
    requires some { 1 ≤ length instance.layout.agents }
    // What is said of the text is so.
    ensures says { IfOk result (Says instance.entry log.now) }
    // A log whose entries are a run is told as one.
    ensures run { (content : Content) → IsLogText content log.now → IsRunOf instance.entry content → IfOk result (λ told. told ≡ Verified.Run (length content.entries)) }
{
    let _grid = instance.grid();
    let _agents = instance.agents();
    let mut follower = Follower::new(alloc, instance)?;
    match follow(alloc, &mut follower, log)? {
        Followed::Whole { entries } => Ok(Verified::Run { entries }),
        Followed::Bad { line } => Ok(Verified::Bad { line }),
    }
}

/// What a text that may lack its last line is to a warehouse.
#[derive(Clone, Copy, Debug, PartialEq, Eq)]
pub struct VerifiedFront {
    /// What it is.
    pub verified: Verified,
    /// Where it is the log of a run: whether its last line stands.
    pub is_ended: bool,
}

/// What is told of a front that was followed. Nothing where fewer than two lines stand whole.
fn told_of(front: &Front) -> Option<VerifiedFront>
    ensures { result ≡ told_front front.now }
{
    match front {
        Front::Whole {
            entries,
            is_ended,
            ..
        } => Some(VerifiedFront {
            verified: Verified::Run { entries: *entries },
            is_ended: *is_ended,
        }),
        Front::Unopened { .. } => None,
        Front::Bad { line, .. } => Some(VerifiedFront {
            verified: Verified::Bad { line: *line },
            is_ended: false,
        }),
    }
}

/// The same of a log that may lack its last line: the log of a warehouse that is not closed. A part of a line behind its entries is not
/// counted. It is read once, with memory for the state and one line.
///
/// Error: `NoMemory` when out of memory.
pub fn verify_unended(
    alloc: Global,
    instance: Instance,
    log: &[u8],
) -> Result<VerifiedFront, NoMemory>
    requires some { 1 ≤ length instance.layout.agents }
    // What is said of the text is so.
    ensures says { IfOk result (λ told. SaysUnended instance.entry log.now told.verified told.is_ended) }
{
    let _grid = instance.grid();
    let _agents = instance.agents();
    let mut follower = Follower::new(alloc, instance.again())?;
    let mut source = log;
    let Ok(front) = follow_front(alloc, &mut follower, &mut source) else {
        return Err(NoMemory);
    };
    drop(follower);
    let told = told_of(&front);
    drop(front);
    match told {
        Some(told) => Ok(told),
        None => {
            let verified = verify_over(alloc, instance, log)?;
            Ok(VerifiedFront {
                verified,
                is_ended: true,
            })
        }
    }
}
