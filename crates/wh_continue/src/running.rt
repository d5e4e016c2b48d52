//! A run over its log file, from what the file holds to the line that ends it.
#![tactic(auto)]

ghost use Rattle.std.specs.Prelude.{◌≡◌, ◌++◌, ◌-◌, true, None, IfOk, IfErr, OnOk, OnErr, drop, length};
ghost use Rattle.std.specs.Io.KnownBytes.{Appends, Keeps};
ghost use Rattle.wh_core.specs.Laws.{IsBeginning};
ghost use Rattle.wh_core.specs.Steps.{Run};
ghost use Rattle.wh_journal.specs.Surviving.{HoldsLog, StaysLog};
ghost use Rattle.wh_journal.specs.Scripts.{WritesFront};
ghost use Rattle.wh_journal.specs.Cutting.{MayCut, MayPut, front_of};
ghost use Rattle.wh_continue.specs.Renewing.{LeavesHalfRenewed, told_in_two};
ghost use Rattle.wh_continue.specs.Running.{BeginsShort, EndsShort, IsBegunFrom, IsStartOf, LeavesFront, Opens, OpensShort, RunsOn, StopsRun, closing, count_line, opening_lines, told_again};
ghost use Rattle.wh_journal.specs.Journals.{log_asker};

use crate::continuing::{ContinueFault, continue_run};
use crate::delivering::deliver_over;
use crate::starting::Start;
use arrayvec::ArrayVec;
use std::alloc::Global;
use std::io::{Read, Write};
use wh_deliver::DeliverFault;
use wh_event::{Entry, put, put_number};
use wh_journal::{Journal, LogFile, Warehouse};
use wh_lines::{Lines, write_all};
use wh_log::{Form, NoMemory, Version, begun_text, end_text, entries_text};
use wh_planner::Planner;
use wh_resume::{Book, Preface};

/// Why a log file was not begun, or not ended.
#[derive(Clone, Copy, Debug, PartialEq, Eq)]
pub enum KeepFault {
    /// X5: a call of the file failed.
    Unkept,
    /// E90: out of memory.
    NoMemory,
}

/// Why a run was not brought to its end.
#[derive(Clone, Copy, Debug, PartialEq, Eq)]
pub enum RunFault {
    /// The file was not begun; nothing was told or served.
    Begin(KeepFault),
    /// X3: how many entries the run has so far, or those to be told again, was not told; nothing was served.
    Uncounted,
    /// The script was not served to its end.
    Continue(ContinueFault),
    /// Not all was delivered behind the script, kept and told.
    Deliver(DeliverFault),
    /// The line that ends the log was not kept. All else was, and was told.
    End(KeepFault),
}

/// Appends bytes and syncs.
fn keep<J: Journal>(journal: &mut J, bytes: &[u8]) -> Result<(), KeepFault>
    ensures ok { OnOk result (Appends (J.contents journal.old) (J.contents journal.new) bytes.now) }
    ensures synced { OnOk result (J.synced journal.new ≡ J.contents journal.new) }
    ensures fault { IfErr result (λ fault. fault ≡ KeepFault.Unkept) }
    ensures front { OnErr result (WritesFront (J.contents journal.old) (J.contents journal.new) bytes.now) }
    ensures still { OnErr result (Keeps (J.synced journal.old) (J.synced journal.new)) }
    ensures failed { OnErr result (J.failed journal.new ≡ true) }
    ensures silent { J.contents journal.old ≡ None → J.contents journal.new ≡ None }
{
    match journal.append(bytes) {
        Ok(()) => {}
        Err(_) => return Err(KeepFault::Unkept),
    }
    match journal.sync() {
        Ok(()) => Ok(()),
        Err(_) => Err(KeepFault::Unkept),
    }
}

/// Cuts a file, and syncs it.
pub fn cut_behind<L: LogFile>(file: &mut L, bytes: usize) -> Result<(), KeepFault>
    ensures ok { OnOk result (L.contents file.new ≡ front_of bytes (L.contents file.old)) }
    ensures synced { OnOk result (L.synced file.new ≡ L.contents file.new) }
    ensures fault { IfErr result (λ fault. fault ≡ KeepFault.Unkept) }
    ensures left { OnErr result (MayCut bytes (L.contents file.old) (L.contents file.new)) }
    ensures failed { OnErr result (L.failed file.new ≡ true) }
{
    match file.cut(bytes) {
        Ok(()) => Ok(()),
        Err(_) => Err(KeepFault::Unkept),
    }
}

/// Makes the log in a file one of version 2. Only the digit in the first line of version 1 differs, so that there is nothing
/// between, also where the power is cut.
fn renew<L: LogFile>(file: &mut L, version: Version) -> Result<(), KeepFault>
    ensures ok { OnOk result (L.contents file.new ≡ told_in_two version (L.contents file.old)) }
    ensures fault { IfErr result (λ fault. fault ≡ KeepFault.Unkept) }
    ensures left { OnErr result ((version ≡ Version.One) × MayPut 5 50 (L.contents file.old) (L.contents file.new)) }
    ensures failed { OnErr result (L.failed file.new ≡ true) }
{
    match version {
        Version::Two => Ok(()),
        Version::One => match file.put(5, b'2') {
            Ok(()) => Ok(()),
            Err(_) => Err(KeepFault::Unkept),
        },
    }
}

/// Cuts the log in a file after the given number of bytes, and syncs it, once it is one of version 2.
fn keep_front<L: LogFile>(file: &mut L, version: Version, bytes: usize) -> Result<(), KeepFault>
    ensures ok { OnOk result (L.contents file.new ≡ front_of bytes (told_in_two version (L.contents file.old))) }
    ensures synced { OnOk result (L.synced file.new ≡ L.contents file.new) }
    ensures fault { IfErr result (λ fault. fault ≡ KeepFault.Unkept) }
    ensures left { OnErr result (LeavesHalfRenewed version bytes (L.contents file.old) (L.contents file.new)) }
    ensures failed { OnErr result (L.failed file.new ≡ true) }
{
    match renew(file, version) {
        Ok(()) => cut_behind(file, bytes),
        Err(fault) => Err(fault),
    }
}

/// Writes a text into a file that is to hold nothing else, and syncs it.
pub fn write_alone<L: LogFile>(file: &mut L, text: &[u8]) -> Result<(), KeepFault>
    ensures ok { OnOk result (Opens (L.contents file.old) (L.contents file.new) text.now) }
    ensures synced { OnOk result (L.synced file.new ≡ L.contents file.new) }
    ensures fault { IfErr result (λ fault. fault ≡ KeepFault.Unkept) }
    ensures left { OnErr result (LeavesFront (L.contents file.old) (L.contents file.new) text.now) }
    ensures failed { OnErr result (L.failed file.new ≡ true) }
{
    match cut_behind(file, 0) {
        Ok(()) => keep(file, text),
        Err(fault) => Err(fault),
    }
}

/// Writes the first two lines of the book's log into a file that holds no more than a beginning of them. How many bytes they are.
pub(crate) fn write_opening<L: LogFile>(
    alloc: Global,
    file: &mut L,
    book: &Book,
) -> Result<usize, KeepFault>
    ensures bytes { IfOk result (λ bytes. bytes ≡ length (opening_lines book.now)) }
    ensures ok { OnOk result (Opens (L.contents file.old) (L.contents file.new) (opening_lines book.now)) }
    ensures synced { OnOk result (L.synced file.new ≡ L.contents file.new) }
    ensures fault { IfErr result (λ fault. OpensShort fault (L.contents file.old) (L.contents file.new) (L.failed file.new) (opening_lines book.now)) }
{
    let Ok(text) = begun_text(alloc, book.first_clock(), book.first_slots()) else {
        return Err(KeepFault::NoMemory);
    };
    match write_alone(file, text.as_slice()) {
        Ok(()) => Ok(text.len()),
        Err(fault) => Err(fault),
    }
}

/// Makes the file the log of the run so far, except for the end line: a log of version 1 is made one of version 2, then what was cut
/// is taken away; a front stays as it is; where no run was begun the first two lines are written.
pub fn begin_log<L: LogFile>(alloc: Global, file: &mut L, start: &Start) -> Result<(), KeepFault>
    requires starts { IsStartOf (L.contents file.old) start.now }
    ensures stays { OnOk result (StaysLog (L.contents file.old) (L.contents file.new) start.now.book) }
    ensures holds { OnOk result (HoldsLog (L.contents file.new) start.now.book) }
    ensures begun { OnOk result (IsBegunFrom start.now (L.contents file.old) (L.contents file.new)) }
    ensures synced { OnOk result (L.synced file.new ≡ L.contents file.new) }
    ensures fault { IfErr result (λ fault. BeginsShort fault start.now (L.contents file.old) (L.contents file.new) (L.failed file.new)) }
{
    match start.bytes {
        Some(bytes) => keep_front(file, start.version, bytes),
        None => match write_opening(alloc, file, &start.book) {
            Ok(_) => Ok(()),
            Err(fault) => Err(fault),
        },
    }
}

/// What ends the log of a run with so many entries.
fn closing_text(alloc: Global, is_closed: bool, entries: u64) -> Result<Vec<u8>, NoMemory>
    ensures { IfOk result (λ text. text.items ≡ closing is_closed entries) }
{
    if is_closed {
        end_text(alloc, entries)
    } else {
        Ok(Vec::new(alloc))
    }
}

/// Ends a log of the given number of entries, and syncs: where the warehouse is closed, so that nothing can follow, the log is given its
/// last line. Else it ends with its entries, and the next start goes on from there.
pub fn end_log<J: Journal>(
    alloc: Global,
    journal: &mut J,
    is_closed: bool,
    entries: u64,
) -> Result<(), KeepFault>
    ensures ok { OnOk result (Appends (J.contents journal.old) (J.contents journal.new) (closing is_closed entries)) }
    ensures synced { OnOk result (J.synced journal.new ≡ J.contents journal.new) }
    ensures fault { IfErr result (λ fault. EndsShort fault (closing is_closed entries) (J.contents journal.old) (J.contents journal.new) (J.synced journal.old) (J.synced journal.new) (J.failed journal.new)) }
{
    let Ok(text) = closing_text(alloc, is_closed, entries) else {
        return Err(KeepFault::NoMemory);
    };
    keep(journal, text.as_slice())
}

/// The line that tells how many entries a run has so far.
fn count_text(entries: u64) -> ArrayVec<u8, 64>
    ensures { result.items ≡ count_line entries }
{
    let mut line = ArrayVec::new();
    put_number(&mut line, b"entries ", entries);
    put(&mut line, b"\n");
    line
}

/// The entries from this one on, where so many came before them; none where there are no more than that many.
fn behind(history: &[Entry], before: u64, first: u32) -> &[Entry]
    ensures { result.now ≡ drop (first - before) history.now }
{
    let place = u64::from(first).saturating_sub(before) as usize;
    if place < history.len() {
        &history[place..]
    } else {
        &[]
    }
}

/// The lines of a run's entries from this one on, where one is named, as its log has them: none of those that came in logs before.
pub fn again_text(alloc: Global, start: &Start, again: Option<u32>) -> Result<Vec<u8>, NoMemory>
    ensures { IfOk result (λ text. text.items ≡ told_again again start.now) }
{
    match again {
        Some(first) => entries_text(
            alloc,
            behind(start.book.history(), start.entries_before(), first),
        ),
        None => Ok(Vec::new(alloc)),
    }
}

/// Writes a line and then a text, and flushes.
fn write_first<W: Write>(writer: &mut W, line: &[u8], text: &[u8]) -> Result<(), RunFault>
    ensures ok { OnOk result (Appends (W.contents writer.old) (W.contents writer.new) (line.now ++ text.now)) }
    ensures fault { IfErr result (λ fault. fault ≡ RunFault.Uncounted) }
    ensures front { OnErr result (WritesFront (W.contents writer.old) (W.contents writer.new) (line.now ++ text.now)) }
{
    match write_all(writer, line) {
        Ok(()) => {}
        Err(_) => return Err(RunFault::Uncounted),
    }
    match write_all(writer, text) {
        Ok(()) => {}
        Err(_) => return Err(RunFault::Uncounted),
    }
    match writer.flush() {
        Ok(()) => Ok(()),
        Err(_) => Err(RunFault::Uncounted),
    }
}

/// Tells how many entries the run has so far, and then these lines, and flushes.
pub fn tell_first<W: Write>(writer: &mut W, entries: u64, text: &[u8]) -> Result<(), RunFault>
    ensures ok { OnOk result (Appends (W.contents writer.old) (W.contents writer.new) (count_line entries ++ text.now)) }
    ensures fault { IfErr result (λ fault. fault ≡ RunFault.Uncounted) }
    ensures front { OnErr result (WritesFront (W.contents writer.old) (W.contents writer.new) (count_line entries ++ text.now)) }
{
    write_first(writer, count_text(entries).as_slice(), text)
}

/// Goes on from a start over the log file in which it was found, and serves the script that is left in the reader, to the
/// reader's end. First the file is made the log of the run so far, and the line `entries N` tells how many entries the run has, in
/// all its logs. Where an entry is named, those from it on are told again after that line, as the log has them. Then the script is served
/// as `continue_run` does; at its end all is delivered that can be, where that is asked for, and the file is given what ends the
/// log, so that it is the log of the whole run. What the front of the log told, if it has one, comes back with the warehouse.
pub fn run_on<R: Read, W: Write, L: LogFile, P: Planner>(
    lines: &mut Lines<R>,
    alloc: Global,
    form: Form,
    again: Option<u32>,
    deliver: bool,
    file: &mut L,
    writer: &mut W,
    start: Start,
    planners: Vec<P>,
    spares: &mut Vec<P>,
) -> Result<(Warehouse<P>, Option<Preface>), RunFault>
    requires starts { IsStartOf (L.contents file.old) start }
    ensures runs { IfOk result (λ r. RunsOn P.fits_map P.slot_count (log_asker form) again deliver lines.old lines.new start spares.old.items r.0.book spares.new.items (W.contents writer.old) (W.contents writer.new) (L.contents file.old) (L.synced file.new) (L.contents file.new)) }
    ensures opening { IfOk result (λ r. IsBeginning r.0.book.site r.0.book.opening) }
    ensures run { IfOk result (λ r. Run r.0.book.site r.0.book.opening r.0.book.history r.0.book.state) }
    ensures preface { IfOk result (λ r. r.1 ≡ start.preface) }
    ensures fault { IfErr result (λ fault. StopsRun P.fits_map P.slot_count (log_asker form) again deliver fault lines.old lines.new start planners.items spares.old.items spares.new.items (W.contents writer.old) (W.contents writer.new) (L.contents file.old) (L.failed file.new) (L.synced file.new) (L.contents file.new)) }
{
    let Ok(text) = again_text(alloc, &start, again) else {
        return Err(RunFault::Begin(KeepFault::NoMemory));
    };
    match begin_log(alloc, file, &start) {
        Ok(()) => {}
        Err(fault) => return Err(RunFault::Begin(fault)),
    }
    match tell_first(writer, start.entries(), text.as_slice()) {
        Ok(()) => {}
        Err(fault) => return Err(fault),
    }
    drop(text);
    let Start { book, preface, .. } = start;
    let mut warehouse = match continue_run(
        lines, alloc, form, file, writer, book, planners, spares,
    ) {
        Ok(warehouse) => warehouse,
        Err(fault) => {
            drop(preface);
            return Err(RunFault::Continue(fault));
        }
    };
    match deliver_over(deliver, alloc, form, file, writer, &mut warehouse) {
        Ok(()) => {}
        Err(fault) => {
            drop(warehouse);
            drop(preface);
            return Err(RunFault::Deliver(fault));
        }
    }
    match end_log(
        alloc,
        file,
        warehouse.closed(),
        warehouse.history().len() as u64,
    ) {
        Ok(()) => Ok((warehouse, preface)),
        Err(fault) => {
            drop(warehouse);
            drop(preface);
            Err(RunFault::End(fault))
        }
    }
}
