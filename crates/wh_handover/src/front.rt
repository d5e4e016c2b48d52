//! The front of a log that goes on from what another log tells.
#![tactic(auto)]

ghost use Rattle.std.specs.Prelude.{◌≡◌, ◌≤◌, ℕ, List, [], IfOk, IfErr, Option, length, take};
ghost use Rattle.wh_core.specs.States.{State};
ghost use Rattle.wh_core.specs.Steps.{Run};
ghost use Rattle.wh_book.specs.Drafts.{Seen};
ghost use Rattle.wh_front.specs.Ranges.{BeforeFits};
ghost use Rattle.wh_front.specs.Fronts.{Fits};
ghost use Rattle.wh_front.specs.declared.rules.Kind.TheVariants as kinds;
ghost use Rattle.wh_stand.specs.Parts.{state_of};
ghost use Rattle.wh_snapshot.specs.Snapshots.{AreCallers, CanCount, HaveCallers, IsSnapshot, told_parts};
ghost use Rattle.wh_resume.specs.Behind.{rules_of};
ghost use Rattle.wh_resume.specs.Resuming.{TellsBook};
ghost use Rattle.wh_handover.specs.declared.front.HandoverFault.TheVariants as fault;
ghost use Rattle.wh_handover.specs.Handing.{IsHandover, IsWhyNone};
ghost use Rattle.wh_handover.specs.Prefaces.{HandsOver, callers_had, counts_had, cut_at};

use crate::after::{rules_over, state_after};
use crate::behind::{before_of, number_of};
use crate::count::counted;
use std::alloc::{AllocError, Global};
use wh_front::{Before, Front, Kind};
use wh_log::{NoMemory, SourceFault};
use wh_restore::Reason;
use wh_resume::{Preface, Recovery, Resumed, Setting, recover};
use wh_snapshot::{Earlier, Reached, can_count, snapshot, snapshot_of};

/// Why there is no front of a log that goes on.
#[derive(Clone, Copy, Debug, PartialEq, Eq)]
pub enum HandoverFault {
    /// The log has no byte.
    Empty,
    /// The log is of version 3, and this line of its front has a flaw, the first, and this is its first.
    Flawed { line: u64, reason: Reason },
    /// The first line, from 1, with which no log of a run begins; or 0 where the log has no such state.
    Bad { line: u64 },
    /// Out of memory.
    NoMemory,
}

impl From<NoMemory> for HandoverFault {
    ghost from_gives = { λ _ e. e ≡ fault.NoMemory };

    fn from(_e: NoMemory) -> HandoverFault {
        HandoverFault::NoMemory
    }
}

/// What was before the state with which a log begins.
fn earlier_of(preface: &Option<Preface>) -> Earlier<'_>
    ensures callers { result.callers.now ≡ callers_had preface.now }
    ensures counts { result.counts.now ≡ counts_had preface.now }
{
    match preface {
        None => Earlier {
            callers: &[],
            counts: &[],
        },
        Some(preface) => Earlier {
            callers: preface.callers.as_slice(),
            counts: preface.head.counts.as_slice(),
        },
    }
}

/// The front of the state after the first entries of a log, whose text this is and which tells this.
fn front_at(
    alloc: Global,
    text: &[u8],
    resumed: &Resumed,
    count: usize,
    before: Before,
) -> Result<Front, NoMemory>
    requires tells { TellsBook resumed.now.book.site text.now resumed.now resumed.now.preface }
    requires some { 1 ≤ length resumed.now.book.site.layout.agents }
    requires within { count ≤ length resumed.now.book.history }
    requires room { CanCount (counts_had resumed.now.preface) resumed.now.book.history }
    requires before { BeforeFits before }
    ensures is { IfOk result (λ front. (state : State) × Run resumed.now.book.site resumed.now.book.opening (take count resumed.now.book.history) state
        × IsSnapshot (callers_had resumed.now.preface) (counts_had resumed.now.preface) (cut_at resumed.now.book count state) front × (state_of (told_parts front) ≡ state)) }
    ensures before { IfOk result (λ front. front.before ≡ before) }
    ensures rules { IfOk result (λ front. front.rules ≡ rules_of resumed.now.book.site) }
    ensures kind { IfOk result (λ front. front.kind ≡ kinds.Whole) }
    ensures fits { IfOk result Fits }
{
    let book = &resumed.book;
    let rules = rules_over(book.setting());
    let earlier = earlier_of(&resumed.preface);
    let history = book.history();
    if count == history.len() {
        let front = snapshot(alloc, book, &earlier, rules, before, Kind::Whole)?;
        return Ok(front);
    }
    let floor = state_after(alloc, text, resumed, count)?;
    let reached = Reached {
        clock: floor.clock(),
        closed: floor.closed(),
        paths: floor.paths(),
        slots: floor.slots(),
        tasks: floor.tasks(),
        history: &history[..count],
    };
    let front = snapshot_of(alloc, &reached, &earlier, rules, before, Kind::Whole)?;
    Ok(front)
}

/// The front of the state after the entries that are asked for, of a log whose text this is and which tells this.
pub(crate) fn front_of(
    alloc: Global,
    text: &[u8],
    resumed: &Resumed,
    after: Option<u32>,
) -> Result<Front, HandoverFault>
    requires tells { TellsBook resumed.now.book.site text.now resumed.now resumed.now.preface }
    requires some { 1 ≤ length resumed.now.book.site.layout.agents }
    ensures ok { IfOk result (HandsOver text.now resumed.now after) }
    ensures fault { IfErr result (IsWhyNone resumed.now.book.site text.now after) }
{
    let history = resumed.book.history();
    let earlier = earlier_of(&resumed.preface);
    if !can_count(earlier.counts, history) {
        return Err(HandoverFault::Bad { line: 0 });
    }
    let Some(count) = counted(after, earlier.counts, history.len()) else {
        return Err(HandoverFault::Bad { line: 0 });
    };
    let Some(number) = number_of(&resumed.preface) else {
        return Err(HandoverFault::Bad { line: 0 });
    };
    let before = before_of(alloc, number, text, resumed.bytes, history, count)?;
    let front = front_at(alloc, text, resumed, count, before)?;
    Ok(front)
}

/// What the log tells of a run over the setting that this text is, which may have been cut anywhere behind its front.
///
/// Errors: `Empty`; `Flawed` and `Bad` as `wh_resume::recover` tells them; `NoMemory`.
pub fn recovered(alloc: Global, setting: Setting, text: &[u8]) -> Result<Resumed, HandoverFault>
    requires some { 1 ≤ length setting.layout.agents }
    ensures tells { IfOk result (λ resumed. TellsBook resumed.book.site text.now resumed resumed.preface) }
    ensures site { IfOk result (λ resumed. resumed.book.site ≡ setting) }
    ensures fault { IfErr result (λ fault. (after : Option ℕ) → IsWhyNone setting text.now after fault) }
{
    let mut source = text;
    let found = match recover(alloc, setting, &[], &mut source) {
        Ok(found) => found,
        Err(SourceFault::Unread) => return Err(HandoverFault::NoMemory),
        Err(SourceFault::NoMemory) => return Err(HandoverFault::NoMemory),
    };
    match found {
        Recovery::Resumed(resumed) => Ok(resumed),
        Recovery::Unopened(_) => Err(HandoverFault::Empty),
        Recovery::Flawed { line, reason } => Err(HandoverFault::Flawed { line, reason }),
        Recovery::Bad { line, .. } => Err(HandoverFault::Bad { line }),
    }
}

/// The front of a log that goes on from what this text tells, the log of a run that may have been cut anywhere behind its front: the state
/// after the entry of the number that is asked for, counted from the first opening of the chain, else after the last that stands whole; what
/// was before, which is that log as far as there; who submitted each task, and how many entries each caller had.
///
/// Errors: `Empty`; `Flawed` and `Bad` as `wh_resume::recover` tells them; `Bad` with line 0 where the log has no such state;
/// `NoMemory`.
pub fn front_after(
    alloc: Global,
    setting: Setting,
    text: &[u8],
    after: Option<u32>,
) -> Result<Front, HandoverFault>
    requires some { 1 ≤ length setting.layout.agents }
    ensures ok { IfOk result (IsHandover setting text.now after) }
    ensures fault { IfErr result (IsWhyNone setting text.now after) }
{
    let resumed = match recovered(alloc, setting, text) {
        Ok(resumed) => resumed,
        Err(fault) => return Err(fault),
    };
    let front = front_of(alloc, text, &resumed, after);
    drop(resumed);
    front
}
