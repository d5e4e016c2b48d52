//! A log of a chain, which goes on from where the one before has come to.
#![tactic(auto)]

ghost use Rattle.std.specs.Prelude.{◌≡◌, ◌≤◌, ◌⊎◌, IfOk, IfErr, IfNone, IfSome, OnOk, Option, None, Some, ℕ, count_by, drop, length, take};
ghost use Rattle.wh_text.specs.Lines.{is_line_feed};
ghost use Rattle.wh_points.specs.Points.{Site as Floor};
ghost use Rattle.wh_front.specs.declared.front.Front.{Front as Told};
ghost use Rattle.wh_front.specs.Fronts.{Fits, front_text as told_text};
ghost use Rattle.wh_resume.specs.Resuming.{TellsBook};
ghost use Rattle.wh_handover.specs.Handing.{IsWhyNone};
ghost use Rattle.wh_handover.specs.Chains.{IsDueBehind, IsFirstOther, IsLink, IsOtherwise, IsWhyUnlinked, Joins, StartOtherwise, due, fault_of};

use crate::due::due;
use crate::front::{HandoverFault, front_of, recovered};
use std::alloc::{AllocError, Global};
use wh_front::{Front, FrontFault, Kind, front_text, read_front};
use wh_log::NoMemory;
use wh_resume::{Resumed, Setting};

/// A log of a chain.
#[derive(Drop)]
pub struct Linked {
    /// What its run is over.
    pub setting: Setting,
    /// The kind of the state with which it begins, where it goes on from another.
    pub joined: Option<Kind>,
    /// How many entries it has.
    pub entries: usize,
    /// How many lines stand whole before its last line.
    pub lines: u64,
    /// Whether it has its last line.
    pub is_ended: bool,
    /// The front that tells where it has come to, where another log goes on from there.
    pub next: Option<Front>,
}

/// Why a text is no log of a chain.
#[derive(Clone, Copy, Debug, PartialEq, Eq)]
pub enum LinkFault {
    /// It begins otherwise than the log before goes on, or it tells no state to go on from: the first bad line, from 1.
    Bad { line: u64 },
    /// Out of memory.
    NoMemory,
}

/// Why a log is none of a chain that tells no state to go on from.
fn fault_of(fault: HandoverFault) -> LinkFault
    ensures { result ≡ fault_of fault }
{
    match fault {
        HandoverFault::Empty => LinkFault::Bad { line: 1 },
        HandoverFault::Flawed { line, .. } => LinkFault::Bad { line },
        HandoverFault::Bad { line } => LinkFault::Bad { line },
        HandoverFault::NoMemory => LinkFault::NoMemory,
    }
}

/// How many of their first bytes two texts have alike.
fn alike(text: &[u8], other: &[u8]) -> usize
    ensures within { (result ≤ length text.now) × (result ≤ length other.now) }
    ensures same { take result text.now ≡ take result other.now }
    ensures otherwise { (result ≡ length text.now) × (result ≡ length other.now) ⊎ StartOtherwise (drop result text.now) (drop result other.now) }
{
    for (k, b) in text.iter().enumerate() {
        if other.get(k) != Some(b) {
            return k;
        }
    }
    text.len()
}

/// The line, from 1, with the first byte that two texts have otherwise: none where they are the same.
fn first_other(text: &[u8], other: &[u8]) -> Option<u64>
    ensures some { IfSome result (IsFirstOther text.now other.now) }
    ensures none { IfNone result (text.now ≡ other.now) }
{
    let alike = alike(text, other);
    if alike == text.len() && alike == other.len() {
        return None;
    }
    Some(lines_in(&text[..alike]) + 1)
}

/// How many lines of a text stand whole.
fn lines_in(text: &[u8]) -> u64
    ensures value { result ≡ count_by is_line_feed text.now }
    ensures few { result ≤ length text.now }
{
    let mut lines: u64 = 0;
    for b in text {
        if *b == b'\n' {
            lines += 1;
        }
    }
    lines
}

/// Compares the text of a front with that of the front that is due in its place, where a log has come to what the front `whole` tells.
fn compare(alloc: Global, whole: Front, front: Front, text: &[u8]) -> Result<(), LinkFault>
    requires fits { Fits front }
    ensures same { OnOk result (told_text (due whole front) ≡ text.now) }
    ensures other { (line : ℕ) → result ≡ Err (LinkFault.Bad line) → IsFirstOther (told_text (due whole front)) text.now line }
{
    let due = match due(alloc, whole, front) {
        Ok(due) => due,
        Err(AllocError) => return Err(LinkFault::NoMemory),
    };
    let told = front_text(alloc, &due);
    drop(due);
    let Ok(told) = told else {
        return Err(LinkFault::NoMemory);
    };
    let other = first_other(told.as_slice(), text);
    drop(told);
    match other {
        Some(line) => Err(LinkFault::Bad { line }),
        None => Ok(()),
    }
}

/// Whether a log begins as it is due where the one before has come to what the front `whole` tells; the kind of its state.
fn join(alloc: Global, whole: Front, text: &[u8]) -> Result<Kind, LinkFault>
    ensures joined { IfOk result (λ kind. Joins (Some whole) text.now (Some kind)) }
    ensures fault { IfErr result (IsOtherwise whole text.now) }
{
    match read_front(alloc, text) {
        Ok(read) => {
            let kind = read.front.kind;
            let before = text.len() - read.rest.len();
            match compare(alloc, whole, read.front, &text[..before]) {
                Ok(()) => Ok(kind),
                Err(fault) => Err(fault),
            }
        }
        Err(FrontFault::At { line }) => {
            drop(whole);
            Err(LinkFault::Bad { line })
        }
        Err(FrontFault::NoMemory) => {
            drop(whole);
            Err(LinkFault::NoMemory)
        }
    }
}

/// How a log begins: with the front that is due, where one is.
fn joined(alloc: Global, before: Option<Front>, text: &[u8]) -> Result<Option<Kind>, LinkFault>
    ensures joined { IfOk result (Joins before text.now) }
    ensures fault { IfErr result (λ why. (site : Floor) → IsWhyUnlinked site before text.now why) }
{
    match before {
        Some(whole) => match join(alloc, whole, text) {
            Ok(kind) => Ok(Some(kind)),
            Err(fault) => Err(fault),
        },
        None => Ok(None),
    }
}

/// What a log tells of a chain, which begins so, and another goes on from it or none.
fn link_of(
    alloc: Global,
    text: &[u8],
    resumed: Resumed,
    joined: Option<Kind>,
    goes_on: bool,
) -> Result<Linked, LinkFault>
    requires tells { TellsBook resumed.book.site text.now resumed resumed.preface }
    requires some { 1 ≤ length resumed.book.site.layout.agents }
    ensures ok { IfOk result (λ link. (before : Option Told) → Joins before text.now joined → IsLink resumed.book.site before text.now goes_on link) }
    ensures fault { IfErr result (λ why. (before : Option Told) → IsWhyUnlinked resumed.book.site before text.now why) }
{
    let next = match next_of(alloc, text, &resumed, goes_on) {
        Ok(next) => next,
        Err(fault) => {
            drop(resumed);
            return Err(fault_of(fault));
        }
    };
    let Resumed {
        book,
        bytes,
        is_ended,
        preface,
        ..
    } = resumed;
    drop(preface);
    let entries = book.history().len();
    let setting = book.into_setting();
    Ok(Linked {
        setting,
        joined,
        entries,
        lines: lines_in(&text[..bytes]),
        is_ended,
        next,
    })
}

/// The front that tells where a log has come to, where another goes on from there.
fn next_of(
    alloc: Global,
    text: &[u8],
    resumed: &Resumed,
    goes_on: bool,
) -> Result<Option<Front>, HandoverFault>
    requires tells { TellsBook resumed.now.book.site text.now resumed.now resumed.now.preface }
    requires some { 1 ≤ length resumed.now.book.site.layout.agents }
    ensures ok { IfOk result (IsDueBehind resumed.now.book.site text.now goes_on) }
    ensures fault { IfErr result (IsWhyNone resumed.now.book.site text.now None) }
{
    if !goes_on {
        return Ok(None);
    }
    match front_of(alloc, text, resumed, None) {
        Ok(next) => Ok(Some(next)),
        Err(fault) => Err(fault),
    }
}

/// Whether a text is the log of a run over the setting that goes on from where another has come to, which the front `before` tells, or
/// begins a chain where there is none: how it begins, how many entries it has, and where it has come to, if a log goes on from there. It may
/// have been cut anywhere behind its front.
///
/// Errors: `Bad` with the first line of its front that is otherwise than is due; else with the first bad one, as `front_after` tells it, or
/// line 0 where no log can go on from it; `NoMemory`.
pub fn link(
    alloc: Global,
    setting: Setting,
    text: &[u8],
    before: Option<Front>,
    goes_on: bool,
) -> Result<Linked, LinkFault>
    requires some { 1 ≤ length setting.layout.agents }
    ensures ok { IfOk result (IsLink setting before text.now goes_on) }
    ensures fault { IfErr result (IsWhyUnlinked setting before text.now) }
{
    let joined = match joined(alloc, before, text) {
        Ok(joined) => joined,
        Err(fault) => {
            drop(setting);
            return Err(fault);
        }
    };
    match recovered(alloc, setting, text) {
        Ok(resumed) => link_of(alloc, text, resumed, joined, goes_on),
        Err(fault) => Err(fault_of(fault)),
    }
}
