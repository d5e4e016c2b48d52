//! The front of a log of version 3, restored and looked through.
#![tactic(auto)]

ghost use Rattle.std.specs.Prelude.{◌≡◌, ◌≤◌, ◌<◌, ◌+◌, ◌^◌, ◌↔◌, ℕ, List, IsTrue, IfOk, IfSome, IfNone, length, All};
ghost use Rattle.wh_points.specs.Points.{IsLayout};
ghost use Rattle.wh_log.specs.Logs.{IsSlots};
ghost use Rattle.wh_grid.specs.Grids.{Floor};
ghost use Rattle.wh_core.specs.Laws.{IsBeginning};
ghost use Rattle.wh_state.specs.Columns.{state_in};
ghost use Rattle.wh_stand.specs.Ways.{site_at};
ghost use Rattle.wh_resume.specs.Behind.{IsVersionThree};
ghost use Rattle.wh_resume.specs.Looking.{IsFirstOdd, IsOfFront, IsBegun, Looks, LooksAt, lines_to_agents};

use crate::recovery::Preface;
use std::alloc::Global;
use wh_front::Rules;
use wh_grid::Grid;
use wh_log::{NoMemory, begun_text};
use wh_points::Points;
use wh_restore::{Reason, RestoreFault, Restored, restore};
use wh_stand::StateParts;

/// A run that begins with the state of a front.
#[derive(Drop)]
pub(crate) struct Begun {
    /// The state.
    pub parts: StateParts,
    /// What the front tells beside it.
    pub preface: Preface,
    /// How many bytes the front is.
    pub front: usize,
    /// What follows the front, behind the first two lines of a log of version 2 with the state's clock and slots.
    pub log: Vec<u8>,
    /// How many bytes these two lines are.
    pub head: usize,
}

/// What the front of a text of version 3 is.
#[derive(Drop)]
pub(crate) enum Looked {
    /// A run begins with its state.
    Begun(Begun),
    /// The first line with a flaw.
    Flawed { line: u64, reason: Reason },
}

/// How many lines of a front stand before those of its agents.
fn before_agents(homes: bool) -> u64
    ensures { result ≡ lines_to_agents homes }
{
    if homes { 6 } else { 5 }
}

/// The first planner with fewer than 2 slots or more than 64.
fn first_odd(slots: &[u32]) -> Option<usize>
    ensures some { IfSome result (IsFirstOdd slots.now) }
    ensures none { IfNone result (All IsSlots slots.now) }
{
    for i in 0..slots.len() {
        if slots[i] < 2 || slots[i] > 64 {
            return Some(i);
        }
    }
    None
}

/// The run that begins with the state that was restored from a text.
fn begun_of(alloc: Global, homes: bool, text: &[u8], restored: Restored) -> Result<Begun, NoMemory>
    requires agents { length restored.state.paths.items ≤ 256 }
    requires tasks { length restored.state.tasks.items ≤ 1000000 }
    requires bytes { length restored.rest.now ≤ length text.now }
    ensures { IfOk result (IsOfFront homes text.now restored.entry) }
{
    let mut log = begun_text(alloc, restored.state.clock, restored.state.slots.as_slice())?;
    let head = log.len();
    log.extend_from_slice(restored.rest)?;
    let front = text.len() - restored.rest.len();
    let text = Vec::from_slice(alloc, &text[..front])?;
    let agents = restored.state.paths.len() as u64;
    let tasks = restored.state.tasks.len() as u64;
    let lines = before_agents(homes) + agents + tasks + 2;
    let Restored {
        head: told,
        state,
        callers,
        rest: _,
    } = restored;
    Ok(Begun {
        parts: state,
        preface: Preface {
            head: told,
            callers,
            lines,
            text,
        },
        front,
        log,
        head,
    })
}

/// What the state is that was restored from a text.
fn look_at_state(
    alloc: Global,
    points: &Points,
    homes: bool,
    text: &[u8],
    restored: Restored,
) -> Result<Looked, NoMemory>
    requires begins { (grid : Floor) × IsBeginning (site_at grid points.now homes) (state_in restored.state) }
    requires bytes { length restored.rest.now ≤ length text.now }
    ensures { IfOk result (LooksAt homes text.now restored.entry) }
{
    let before = before_agents(homes);
    let _agents = points.agents();
    if let Some(agent) = first_odd(restored.state.slots.as_slice()) {
        drop(restored);
        return Ok(Looked::Flawed {
            line: before + agent as u64 + 1,
            reason: Reason::Form,
        });
    }
    match begun_of(alloc, homes, text, restored) {
        Ok(begun) => Ok(Looked::Begun(begun)),
        Err(NoMemory) => Err(NoMemory),
    }
}

/// What the front is of a text of version 3, over a grid with its points, where paths go on home or not. By no option do ages of
/// orders count.
pub(crate) fn look_at_front(
    alloc: Global,
    grid: &Grid,
    points: &Points,
    homes: bool,
    text: &[u8],
) -> Result<Looked, NoMemory>
    requires layout { IsLayout grid.now points.now }
    requires version { IsVersionThree text.now }
    ensures { IfOk result (Looks (site_at grid.now points.now homes) text.now) }
{
    let rules = Rules { homes, age: None };
    match restore(alloc, grid, points, rules, text) {
        Ok(restored) => look_at_state(alloc, points, homes, text, restored),
        Err(RestoreFault::Line { line, reason }) => Ok(Looked::Flawed { line, reason }),
        Err(RestoreFault::NoMemory) => Err(NoMemory),
    }
}
