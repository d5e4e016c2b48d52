//! Where a run starts: at the beginning, or where its log file leaves it.
#![tactic(auto)]

ghost use Rattle.std.specs.Prelude.{◌≡◌, ◌≤◌, ◌<◌, ◌+◌, ◌^◌, [], ℕ, None, IfOk, IfErr, IfSome, IfNone, length, All};
ghost use Rattle.std.specs.List.{AllByRecursion};
ghost use Rattle.wh_log.specs.Logs.{IsSlots};
ghost use Rattle.wh_resume.specs.Resuming.{TellsFrom};
ghost use Rattle.wh_continue.specs.declared.starting.StartFault.TheVariants as fault;
ghost use Rattle.wh_continue.specs.Starting.{AllOwn, IsFirstOther, StartsByFile, IsWhyNoStart, IsWhyNotOn, IsUnbegun, before_of, counts_line, entries_so_far};

use crate::before::EntriesBefore;
use crate::own::first_other;
use std::alloc::{AllocError, Global};
use wh_event::Entry;
use wh_journal::LogFile;
use wh_log::{NoMemory, SourceFault, Version, begun_text};
use wh_restore::Reason;
use wh_resume::{Book, Preface, Recovery, Resumed, Setting, recover};

/// What a run starts from.
#[derive(Drop)]
pub struct Start {
    /// The run so far.
    pub book: Book,
    /// How many bytes of the file tell it; none where it was not begun.
    pub bytes: Option<usize>,
    /// The version in which they tell it. Behind a front the lines are those of version 2.
    pub version: Version,
    /// What the front tells beside the state; none where the log begins with two lines.
    pub preface: Option<Preface>,
    /// What came before the entries of the log.
    pub before: EntriesBefore,
}

impl Start {
    /// How many entries the run had before this log began.
    pub fn entries_before(&self) -> u64
        ensures value { result ≡ self.now.before.entries }
        ensures few { result < 2 ^ 63 }
    {
        self.before.entries()
    }

    /// How many entries the run has so far, in all its logs.
    pub fn entries(&self) -> u64
        ensures { result ≡ entries_so_far self.now }
    {
        self.before.with(self.book.history().len())
    }
}

/// Why no run starts.
#[derive(Clone, Copy, Debug, PartialEq, Eq)]
pub enum StartFault {
    /// L1: no log of a run of this site goes on with this line, from 1; the text is none that could be gone on from.
    Bad { line: u64 },
    /// S1 to S11, and L1: the first line of the front with a flaw, from 1, and its first flaw.
    Flawed { line: u64, reason: Reason },
    /// X5: the file cannot be read, is no file of bytes, or another has it.
    Unread,
    /// E90: out of memory.
    NoMemory,
}

impl From<NoMemory> for StartFault {
    ghost from_gives = { λ _ e. e ≡ fault.NoMemory };

    fn from(_e: NoMemory) -> StartFault {
        StartFault::NoMemory
    }
}

impl From<AllocError> for StartFault {
    ghost from_gives = { λ _ e. e ≡ fault.NoMemory };

    fn from(_e: AllocError) -> StartFault {
        StartFault::NoMemory
    }
}

/// What a run starts from that begins.
fn begin(alloc: Global, setting: Setting, slots: Vec<u32>) -> Result<Start, AllocError>
    requires seats { length slots.items ≡ length setting.layout.agents }
    ensures book { IfOk result (λ start. IsUnbegun setting slots.items start.book) }
    ensures state { IfOk result (λ start. start.book.state.slots ≡ slots.items) }
    ensures bytes { IfOk result (λ start. start.bytes ≡ None) }
    ensures preface { IfOk result (λ start. start.preface ≡ None) }
    ensures before { IfOk result (λ start. start.before ≡ before_of None) }
{
    let book = Book::open(alloc, setting, 0, slots)?;
    Ok(Start {
        book,
        bytes: None,
        version: Version::Two,
        preface: None,
        before: EntriesBefore::none(),
    })
}

/// The line of a front that tells how many entries each caller had before.
fn counts_line(preface: &Preface) -> u64
    ensures { result ≡ counts_line preface.now }
{
    if preface.head.rules.are_told() { 5 } else { 4 }
}

/// What came before the entries of a log.
fn before_entries(preface: &Option<Preface>) -> Result<EntriesBefore, StartFault>
    requires few { IfSome preface.now (λ p. p.lines < 2 ^ 32) }
    ensures ok { IfOk result (λ before. before ≡ before_of preface.now) }
    ensures fault { IfErr result (IsWhyNotOn preface.now []) }
{
    let Some(preface) = preface else {
        return Ok(EntriesBefore::none());
    };
    match EntriesBefore::told(preface) {
        Some(before) => Ok(before),
        None => Err(StartFault::Bad {
            line: counts_line(preface),
        }),
    }
}

/// The line of the first entry that tells of a planner with another number of slots.
fn other_line(before: &EntriesBefore, history: &[Entry]) -> Option<u64>
    ensures none { IfNone result (AllOwn history.now) }
    ensures first { IfSome result (λ line. (place : ℕ) × IsFirstOther history.now place × (line ≡ before.now.lines + (place + 1))) }
{
    match first_other(history) {
        Some(place) => Some(before.line_of(place)),
        None => None,
    }
}

/// What a run starts from that goes on.
fn go_on(resumed: Resumed) -> Result<Start, StartFault>
    requires slots { AllByRecursion IsSlots resumed.book.opening.slots }
    requires few { IfSome resumed.preface (λ p. p.lines < 2 ^ 32) }
    ensures book { IfOk result (λ start. start.book ≡ resumed.book) }
    ensures bytes { IfOk result (λ start. start.bytes ≡ Some resumed.bytes) }
    ensures version { IfOk result (λ start. start.version ≡ resumed.version) }
    ensures preface { IfOk result (λ start. start.preface ≡ resumed.preface) }
    ensures before { IfOk result (λ start. start.before ≡ before_of resumed.preface) }
    ensures few { IfOk result (λ start. start.before.entries < 2 ^ 63) }
    ensures slots { IfOk result (λ start. All IsSlots start.book.state.slots) }
    ensures fault { IfErr result (IsWhyNotOn resumed.preface resumed.book.history) }
{
    let before = match before_entries(&resumed.preface) {
        Ok(before) => before,
        Err(fault) => {
            drop(resumed);
            return Err(fault);
        }
    };
    if let Some(line) = other_line(&before, resumed.book.history()) {
        drop(resumed);
        return Err(StartFault::Bad { line });
    }
    let _entries = before.entries();
    let Resumed {
        version,
        book,
        bytes,
        preface,
        ..
    } = resumed;
    Ok(Start {
        book,
        bytes: Some(bytes),
        version,
        preface,
        before,
    })
}

/// Recovers the book of the run that a log file tells.
fn recover_file<L: LogFile>(
    alloc: Global,
    setting: Setting,
    begun: &[u8],
    file: &mut L,
) -> Result<Recovery, SourceFault>
    requires some { 1 ≤ length setting.layout.agents }
    ensures told { IfOk result (TellsFrom setting begun.now (L.contents file.old)) }
    ensures same { L.contents file.new ≡ L.contents file.old }
{
    recover(alloc, setting, begun, file)
}

/// Finds out what a run of the site starts from, by what its log file holds, where each planner is to have these slots, 2 to
/// 64, at an opening. A log of any version is resumed: one of version 3 from the state of its front. A file in which fewer than two lines stand whole is taken for a
/// run that was not begun only where it holds a beginning of the two lines that this very run would write first: no other is.
/// The file is read piece by piece, and not changed: memory is taken for the run and for a line or two.
///
/// Errors: `Bad` with the first line with which no log of a run of this site goes on, or with the line of an entry that tells
/// of a planner with more slots or fewer, or of counts that make 2^63 or more; `Flawed` with a line of the front;
/// `Unread`; `NoMemory`.
pub fn find_start<L: LogFile>(
    alloc: Global,
    setting: Setting,
    slots: Vec<u32>,
    file: &mut L,
) -> Result<Start, StartFault>
    requires some { 1 ≤ length setting.layout.agents }
    requires seats { length slots.items ≡ length setting.layout.agents }
    requires range { All IsSlots slots.items }
    ensures ok { IfOk result (StartsByFile setting slots.items (L.contents file.old)) }
    ensures slots { IfOk result (λ start. All IsSlots start.book.state.slots) }
    ensures fault { IfErr result (IsWhyNoStart setting slots.items (L.contents file.old)) }
    ensures same { L.contents file.new ≡ L.contents file.old }
{
    let begun = begun_text(alloc, 0, slots.as_slice())?;
    let found = match recover_file(alloc, setting, begun.as_slice(), file) {
        Ok(found) => found,
        Err(SourceFault::Unread) => return Err(StartFault::Unread),
        Err(SourceFault::NoMemory) => return Err(StartFault::NoMemory),
    };
    match found {
        Recovery::Unopened(setting) => Ok(begin(alloc, setting, slots)?),
        Recovery::Bad { line, .. } => Err(StartFault::Bad { line }),
        Recovery::Flawed { line, reason } => Err(StartFault::Flawed { line, reason }),
        Recovery::Resumed(resumed) => go_on(resumed),
    }
}
