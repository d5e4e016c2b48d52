//! Where vehicles stand as a run goes on, by the text of its file of arrivals.
#![tactic(auto)]

ghost use Rattle.std.specs.Prelude.{◌≡◌, ◌≢◌, ◌⊎◌, ◌+◌, ◌++◌, ◌-◌, ◌<◌, ◌≤◌, ◌^◌, [], ℕ, List, IfErr, IfNone, IfOk, IfSome, false, length, slice_index, true};
ghost use Rattle.wh_text.specs.Lines.{IsLine};
ghost use Rattle.wh_dispatch.specs.SettingOut.{SomeInStep};
ghost use Rattle.wh_convoy.specs.Beginning.{IsBeginning};
ghost use Rattle.wh_convoy.specs.Standing.{HasReports, IsDriven, IsUntold, IsWhole, IsWhyNotStood, LacksFirst, StandsBy, TellsStand, lines_before};

use crate::beginning::first_line;
use std::alloc::Global;
use wh_arrivals::{ReadFault, StandFault, first_paths, read_arrivals, stand_from};
use wh_book::Book;
use wh_continue::Preface;
use wh_order::VisitOrder;
use wh_path::TimedPath;
use wh_words::whole_line;

/// What vehicles go on from.
#[derive(Drop)]
pub struct Stood {
    /// The order of their visits.
    pub order: VisitOrder,
    /// How many bytes of the file are whole lines, which tell where they stand: 0 where it was not begun.
    pub bytes: usize,
}

/// Why vehicles cannot go on.
#[derive(Clone, Copy, Debug, PartialEq, Eq)]
pub enum StoodFault {
    /// L1: the first line, from 1, that is no report, or one of an agent that there is not; or line 1 where none stands there
    /// though the clock has gone on, or what stands there is no beginning of this run's file of arrivals.
    BadLine(u64),
    /// L1: the vehicle of this agent has come further than the clock, or to a cell that another's is to leave before.
    Astray(u32),
    /// E90: out of memory.
    NoMemory,
}

/// How many bytes of a text are whole lines. What follows them is a line that was cut.
fn whole_bytes(text: &[u8]) -> usize
    ensures { IsWhole text.now result }
{
    let mut rest = text;
    while let Some((_line, after)) = whole_line(rest) {
        rest = after;
    }
    text.len() - rest.len()
}

/// Whether bytes are a beginning of the line that the file of arrivals begins with, or none.
fn is_beginning(preface: &Option<Preface>, text: &[u8]) -> bool
    ensures beginning { result ≡ true → IsBeginning preface.now text.now }
    ensures other { result ≡ false → IsBeginning preface.now text.now → ⊥ }
{
    let first = first_line(preface);
    first.as_slice().starts_with(text)
}

/// What stands in a text behind its first line, which is to be this one: nothing where no line stands whole; none where lines do, and
/// the first is another.
fn behind_line<'a>(first: &[u8], text: &'a [u8]) -> Option<&'a [u8]>
    ensures some { IfSome result (λ rest. (text.now ≡ first.now ++ rest.now) ⊎ (IsLine text.now × (rest.now ≡ []))) }
    ensures none { IfNone result ((IsLine text.now → ⊥) × ((rest : List ℕ) → text.now ≢ first.now ++ rest)) }
{
    let Some((_line, _rest)) = whole_line(text) else {
        return Some(&[]);
    };
    text.strip_prefix(first)
}

/// The reports of a text: all of it, or, beside a log that begins with a front, what stands behind the line that tells of the front; none
/// where lines stand whole, and the first is another.
fn reports_of<'a>(preface: &Option<Preface>, text: &'a [u8]) -> Option<&'a [u8]>
    ensures some { IfSome result (λ reports. HasReports preface.now text.now reports.now) }
    ensures none { IfNone result (LacksFirst preface.now text.now) }
{
    match preface {
        None => Some(text),
        Some(_) => behind_line(first_line(preface).as_slice(), text),
    }
}

/// The number in the file of a line of its reports.
fn line_of(preface: &Option<Preface>, number: u64) -> u64
    requires few { number < 2 ^ 63 }
    ensures { result ≡ lines_before preface.now + number }
{
    match preface {
        None => number,
        Some(_) => 1 + number,
    }
}

/// The steps at which these vehicles have arrived, by the text of a file of arrivals.
fn steps_told(
    alloc: Global,
    agents: u32,
    preface: &Option<Preface>,
    text: &[u8],
) -> Result<Vec<u64>, StoodFault>
    ensures ok { IfOk result (λ steps. TellsStand agents preface.now text.now steps.items) }
    ensures fault { IfErr result (IsUntold agents preface.now text.now) }
{
    let Some(reports) = reports_of(preface, text) else {
        return Err(StoodFault::BadLine(1));
    };
    match read_arrivals(alloc, agents, reports) {
        Ok(steps) => Ok(steps),
        Err(ReadFault::NoMemory) => Err(StoodFault::NoMemory),
        Err(ReadFault::BadLine(number)) => Err(StoodFault::BadLine(line_of(preface, number))),
    }
}

/// Whether the text of a file of arrivals has a line beyond its first, with which it was begun: then vehicles have carried out its run,
/// which does not go on without them.
pub fn is_driven(text: &[u8]) -> bool
    ensures driven { result ≡ true → IsDriven text.now }
    ensures undriven { result ≡ false → IsDriven text.now → ⊥ }
{
    match whole_line(text) {
        Some((_first, rest)) => whole_line(rest).is_some(),
        None => false,
    }
}

/// The first agent that has come further than this.
fn first_beyond(steps: &[u64], most: u64) -> Option<u32>
    requires few { length steps.now ≤ 256 }
    ensures none { IfNone result ((agent : ℕ) → agent < length steps.now → slice_index steps.now agent ≤ most) }
    ensures some { IfSome result (λ agent. (agent < length steps.now) × (most < slice_index steps.now agent)) }
{
    for agent in 0..steps.len() {
        if steps[agent] > most {
            return Some(agent as u32);
        }
    }
    None
}

/// How many steps the plan has.
fn steps_so_far(book: &Book) -> u64
    ensures { result ≡ book.now.state.clock - book.now.opening.clock }
{
    u64::from(book.clock().saturating_sub(book.first_clock()))
}

/// Where the vehicles of a run stand, by the text of its file of arrivals, of which the end may have been cut, and the paths with which
/// the run began. Steps count from the clock with which it began. One may be told `ahead` cells ahead from now on. Beside a log that begins with a
/// front the first line tells of that front. A text with no whole line is taken for that of a file that was not begun only where it is
/// a beginning of one. Nothing changes.
pub fn find_stand_from(
    alloc: Global,
    book: &Book,
    paths: Vec<TimedPath>,
    ahead: u64,
    preface: &Option<Preface>,
    text: &[u8],
) -> Result<Stood, StoodFault>
    requires paths { paths.items ≡ book.now.opening.paths }
    requires some { 1 ≤ ahead }
    ensures ok { IfOk result (StandsBy book.now ahead preface.now text.now) }
    ensures stand { IfOk result (λ stood. SomeInStep book.now stood.order) }
    ensures fault { IfErr result (IsWhyNotStood book.now ahead preface.now text.now) }
{
    let agents = book.paths().len();
    let steps = match steps_told(alloc, agents as u32, preface, text) {
        Ok(steps) => steps,
        Err(fault) => return Err(fault),
    };
    let most = steps_so_far(book);
    let bytes = whole_bytes(text);
    if bytes == 0 && (most > 0 || !is_beginning(preface, text)) {
        return Err(StoodFault::BadLine(1));
    }
    if let Some(agent) = first_beyond(steps.as_slice(), most) {
        return Err(StoodFault::Astray(agent));
    }
    match stand_from(alloc, book, paths, ahead, steps.as_slice()) {
        Ok(order) => Ok(Stood { order, bytes }),
        Err(StandFault::NoMemory) => Err(StoodFault::NoMemory),
        Err(StandFault::TooEarly(agent)) => Err(StoodFault::Astray(agent)),
    }
}

/// The same, by the paths with which the book began.
pub fn find_stand(
    alloc: Global,
    book: &Book,
    ahead: u64,
    preface: &Option<Preface>,
    text: &[u8],
) -> Result<Stood, StoodFault>
    requires some { 1 ≤ ahead }
    ensures ok { IfOk result (StandsBy book.now ahead preface.now text.now) }
    ensures stand { IfOk result (λ stood. SomeInStep book.now stood.order) }
    ensures fault { IfErr result (IsWhyNotStood book.now ahead preface.now text.now) }
{
    match first_paths(alloc, book) {
        Ok(paths) => find_stand_from(alloc, book, paths, ahead, preface, text),
        Err(_) => Err(StoodFault::NoMemory),
    }
}
